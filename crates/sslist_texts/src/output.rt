//! The output about packets, and the diagnostics about truncated and short packets. If a function
//! of this module fails, an allocation failed, and the content of the output is not specified.

ghost use Rattle.std.specs.Prelude.{◌≡◌, ◌↔◌, ◌≤◌, ◌++◌, IfOk, IsTrue, OnOk, length};
ghost use Rattle.sslist_texts.specs.Reports.{truncation_line, truncation_text, packet_line};
ghost use Rattle.sslist_texts.specs.Reports.{short_line};

use std::alloc::AllocError;
use std::io::Write;

/// The output about packets.
#[derive(Drop)]
pub struct PacketOutput<'a> {
    /// Prefix of each line for standard error.
    pub front: &'a str,
    /// Lines for standard output: of the table, or of JSON.
    pub lines: Vec<u8>,
    /// Lines for standard error.
    pub diagnostics: Vec<u8>,
}

/// Appends a line to `diagnostics` if the packet was truncated: if `packet` has fewer bytes than
/// `whole_length`, its original length. Returns true if it was not truncated. `number` is the
/// number of the packet in the capture. `lines` and `front` are unchanged.
pub fn push_truncation(
    written: &mut PacketOutput<'_>,
    number: u64,
    packet: &[u8],
    whole_length: u32,
) -> Result<bool, AllocError>
    ensures whole { IfOk result (λ is_whole. IsTrue is_whole ↔ (whole_length ≤ length packet.now)) }
    ensures lines { OnOk result (written.new.lines.items ≡ written.old.lines.items) }
    ensures diagnostics { OnOk result (written.new.diagnostics.items ≡ written.old.diagnostics.items
        ++ truncation_line written.old.front.now number (length packet.now) whole_length) }
    ensures front { written.new.front ≡ written.old.front }
{
    if packet.len() >= whole_length as usize {
        return Ok(true);
    }
    push_truncation_line(written, number, packet.len(), whole_length)?;
    Ok(false)
}

/// Appends the diagnostic of the truncated packet of this number: `length` of its `whole_length`
/// bytes were captured. `lines` and `front` are unchanged.
fn push_truncation_line(
    written: &mut PacketOutput<'_>,
    number: u64,
    length: usize,
    whole_length: u32,
) -> Result<(), AllocError>
    ensures lines { OnOk result (written.new.lines.items ≡ written.old.lines.items) }
    ensures diagnostics { OnOk result (written.new.diagnostics.items ≡ written.old.diagnostics.items
        ++ packet_line written.old.front.now number (truncation_text length whole_length)) }
    ensures front { written.new.front ≡ written.old.front }
{
    let front = written.front;
    match writeln!(
        written.diagnostics,
        "{front}packet {number}: truncated to {length} of {whole_length} bytes"
    ) {
        Ok(()) => Ok(()),
        // A write to a `Vec` fails only if an allocation failed.
        Err(_) => Err(AllocError),
    }
}

/// Appends a line to `diagnostics`: the packet of this number has fewer than 16 bytes, the length
/// of the cooked header that precedes its datagram. `lines` and `front` are unchanged.
pub fn push_short(written: &mut PacketOutput<'_>, number: u64) -> Result<(), AllocError>
    ensures lines { OnOk result (written.new.lines.items ≡ written.old.lines.items) }
    ensures diagnostics { OnOk result (written.new.diagnostics.items ≡ written.old.diagnostics.items
        ++ short_line written.old.front.now number) }
    ensures front { written.new.front ≡ written.old.front }
{
    let front = written.front;
    match writeln!(
        written.diagnostics,
        "{front}packet {number}: fewer than 16 bytes"
    ) {
        Ok(()) => Ok(()),
        // A write to a `Vec` fails only if an allocation failed.
        Err(_) => Err(AllocError),
    }
}
