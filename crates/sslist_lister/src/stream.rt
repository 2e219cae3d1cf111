//! The table of a capture. Each packet is listed before the next one is read.
//!
//! In the contracts of [`read_header`] and [`read_packet`], `bytes` are the bytes that were read.
//! If such a function fails, `error` is the reason, and `part` are the bytes that were read until
//! then: the reason is in these bytes, or the input ends after them, or a read failed.

ghost use Rattle.std.specs.Prelude.{◌≡◌, List, ℕ, OnOk, IfErr, IfOk, MatchOption};
ghost use Rattle.std.specs.Io.KnownBytes.{Consumes, IsAtEnd};
ghost use Rattle.netlink_captures.specs.Capture.{captured_packet, stopped_input};
ghost use Rattle.netlink_captures.specs.Reader.{IsCaptureEnd, IsCaptureStart, IsCaptureStartStop};
ghost use Rattle.netlink_captures.specs.Reader.{IsCaptureStop, ReadsPacket, state_of};
ghost use Rattle.program_streams.specs.declared.streams.WriteError.{WriteError};
ghost use Rattle.sslist_lister.specs.Run.{ListingEnds};
ghost use Rattle.sslist_texts.specs.Reports.{Reports, error_output};

use crate::list::list_packet;
use crate::requests::Requests;
use netlink_captures::{CaptureError, CaptureReader, PacketHeader};
use program_streams::{ReadError, Sink, Source, send};
use sslist_command_line::Options;
use sslist_texts::ListError;
use sslist_texts::output::PacketOutput;
use sslist_texts::reports::report;
use std::alloc::Global;

/// Writes the table of the capture in `input` on `output`: `heading`, and the lines of each packet
/// before the next one is read. Then flushes. Writes the diagnostics on `errors`, each line with
/// the prefix `front`, as long as `is_open` is set. If a write on `errors` fails, clears `is_open`,
/// and writes nothing more there. Returns whether all packets were listed completely.
///
/// It fails with `Header` if the capture could not be opened; then nothing was written. It fails
/// with `Packet` if a packet could not be read, and with `Memory` if an allocation failed while a
/// packet was listed; then the packets before it were listed. It fails with `Write` if a write or
/// the final flush failed; then a prefix of the table was written.
///
/// The streams are those of std, or others that record their failed calls and flushes. For streams
/// of std `failed` and `flushed` always hold, so the clauses about them say nothing of such
/// streams.
pub fn run<R: Source, W: Sink, E: Sink>(
    alloc: Global,
    options: Options<'_>,
    front: &str,
    heading: &[u8],
    input: &mut R,
    output: &mut W,
    errors: &mut E,
    is_open: &mut bool,
) -> Result<bool, ListError>
    ensures ended { ListingEnds (record {
      options = options.entry;
      heading = heading.now;
      front = front.now;
      left_before = R.left input.old;
      left_after = R.left input.new;
      ReadFailed = R.failed input.new;
      held_before = W.held output.old;
      held_after = W.held output.new;
      Reported = Reports (error_output (E.held errors.old) (E.failed errors.old) is_open.old)
          (error_output (E.held errors.new) (E.failed errors.new) is_open.new);
    }) result }
    ensures flushed { OnOk result (W.flushed output.new) }
    // If the error of the run is a failed write (`Write`), then a write or a flush of the output
    // failed with this error (W.failed).
    ensures cause { IfErr result (λ e. (error : WriteError) → e ≡ ListError.Write error
        → W.failed output.new error) }
{
    let mut reader = read_header(alloc, input)?;
    send(output, heading)?;
    let mut packet = Vec::new(alloc);
    let mut written = PacketOutput {
        front,
        lines: Vec::new(alloc),
        diagnostics: Vec::new(alloc),
    };
    let mut requests = Requests::new(alloc);
    // Whether all packets so far were listed completely.
    let mut is_whole = true;
    'packets: for number in 1..u64::MAX {
        let Some(header) = read_packet(&mut reader, input, number, &mut packet)? else {
            output.flush()?;
            return Ok(is_whole);
        };
        written.lines.clear();
        written.diagnostics.clear();
        let bytes = packet.as_slice();
        let is_listed = list_packet(&mut written, &mut requests, options, number, bytes, &header)?;
        is_whole = is_whole && is_listed;
        report(errors, is_open, written.diagnostics.as_slice());
        send(output, written.lines.as_slice())?;
    }
    // Not reached in practice: 2^64 - 2 packets were read. The run fails as if the next read had.
    Err(ListError::Packet {
        packet: u64::MAX,
        error: CaptureError::Read(ReadError::Other),
    })
}

/// Opens a capture by `CaptureReader::open`. Fails with `Header`, which contains the error of that
/// call.
fn read_header<R: Source>(alloc: Global, input: &mut R) -> Result<CaptureReader, ListError>
    // A capture starts with `bytes`, and the reader has the state after them.
    ensures read { IfOk result (λ reader. (bytes : List ℕ) × IsCaptureStart bytes (state_of reader)
        × Consumes (R.left input.old) (R.left input.new) bytes) }
    ensures stopped { IfErr result (λ e. (error : CaptureError) × (e ≡ ListError.Header error)
        × (part : List ℕ)
        × Consumes (R.left input.old) (R.left input.new) part
        × IsCaptureStartStop (stopped_input (R.left input.new) (R.failed input.new) part) error) }
{
    match CaptureReader::open(alloc, input) {
        Ok(reader) => Ok(reader),
        Err(error) => Err(ListError::Header(error)),
    }
}

/// Reads the next packet into `packet`, whose former content is dropped. Returns the fields of the
/// packet header. Returns `None` if no packet follows; then the input was read to its end. Fails
/// with `Packet`, which contains `number` and the error of `CaptureReader::read_packet`.
fn read_packet<R: Source>(
    reader: &mut CaptureReader,
    input: &mut R,
    number: u64,
    packet: &mut Vec<u8>,
) -> Result<Option<PacketHeader>, ListError>
    // If no packet was found, `bytes` are the last ones, and have no packet. Else they lead the
    // reader to its new state over one packet, with the bytes in `packet` and this header.
    ensures read { IfOk result (λ found. (bytes : List ℕ)
        × Consumes (R.left input.old) (R.left input.new) bytes
        × MatchOption found
        (IsAtEnd (R.left input.new) × IsCaptureEnd (state_of reader.old) bytes)
        (λ header. ReadsPacket (state_of reader.old) bytes
        (captured_packet packet.new.items header) (state_of reader.new))) }
    ensures stopped { IfErr result (λ e. (error : CaptureError)
        × (e ≡ ListError.Packet number error) × (part : List ℕ)
        × Consumes (R.left input.old) (R.left input.new) part
        × IsCaptureStop (state_of reader.old)
        (stopped_input (R.left input.new) (R.failed input.new) part) error) }
{
    match reader.read_packet(input, packet) {
        Ok(found) => Ok(found),
        Err(error) => Err(ListError::Packet {
            packet: number,
            error,
        }),
    }
}
