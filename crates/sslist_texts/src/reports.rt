//! Output on standard error: diagnostics, and the line that names a failure. In each contract,
//! `Reports before after text` states that the call reported this text, as [`report`] does.
//! `before` and `after` are the states of `errors` and `is_open`, by `error_output held failed
//! is_open`: `E.held sink` are the bytes written on a sink, if known, and `E.failed sink error`
//! states that a write on it failed with this error.

ghost use Rattle.std.specs.Prelude.{◌++◌, ◌∷◌, [], codes, decimal};
ghost use Rattle.byteorder.specs.Endian.{big_bytes};
ghost use Rattle.hex.specs.Hex.{encode_lower};
ghost use Rattle.sslist_texts.specs.Reports.{Reports, closing_line, error_output};
ghost use Rattle.sslist_texts.specs.Reports.{list_error_text};
ghost use Rattle.sslist_texts.specs.private.Report.{packet_number_prefix};
ghost use Rattle.program_streams.specs.ErrorText.{error_text_bytes};

use crate::list_error::ListError;
use itoa::Buffer;
use program_streams::{ErrorText, Sink, hex_digits, send};

/// Writes a text on `errors` if `is_open` is set. If a write fails, clears `is_open`, so that
/// nothing more is written there. Then a prefix of the text was written.
pub fn report<E: Sink>(errors: &mut E, is_open: &mut bool, text: &[u8])
    ensures { Reports (error_output (E.held errors.old) (E.failed errors.old) is_open.old)
        (error_output (E.held errors.new) (E.failed errors.new) is_open.new) text.now }
{
    if *is_open {
        match send(errors, text) {
            Ok(()) => {}
            Err(_) => *is_open = false,
        }
    }
}

/// Writes the line that names a failure, by [`report`]: the prefix `front`, the text of the failure
/// and a line feed. Writes nothing if the failure is a closed output pipe. Does not allocate.
pub fn report_failure<E: Sink>(errors: &mut E, is_open: &mut bool, front: &str, failure: &ListError)
    ensures { Reports (error_output (E.held errors.old) (E.failed errors.old) is_open.old)
        (error_output (E.held errors.new) (E.failed errors.new) is_open.new)
        (closing_line front.now failure.now) }
{
    if !failure.is_closed_pipe() {
        report_line(errors, is_open, front, failure);
    }
}

/// Writes a line, by [`report`]: the prefix `front`, the text of the failure and a line feed.
fn report_line<E: Sink>(errors: &mut E, is_open: &mut bool, front: &str, failure: &ListError)
    // 10 is a line feed.
    ensures { Reports (error_output (E.held errors.old) (E.failed errors.old) is_open.old)
        (error_output (E.held errors.new) (E.failed errors.new) is_open.new)
        (front.now ++ list_error_text failure.now ++ 10 ∷ []) }
{
    report(errors, is_open, front.as_bytes());
    report_subject(errors, is_open, failure);
    report_text(errors, is_open, failure.text());
    report(errors, is_open, b"\n");
}

/// Writes the prefix with the number of the packet that a failure is about, by [`report`]. Writes
/// nothing if it is not about a packet.
fn report_subject<E: Sink>(errors: &mut E, is_open: &mut bool, failure: &ListError)
    ensures { Reports (error_output (E.held errors.old) (E.failed errors.old) is_open.old)
        (error_output (E.held errors.new) (E.failed errors.new) is_open.new)
        (packet_number_prefix failure.now) }
{
    match failure {
        ListError::Packet { packet, .. } => report_packet(errors, is_open, *packet),
        _ => {}
    }
}

/// Writes the number of a packet as the prefix of an error, `packet N: `, by [`report`].
fn report_packet<E: Sink>(errors: &mut E, is_open: &mut bool, number: u64)
    ensures { Reports (error_output (E.held errors.old) (E.failed errors.old) is_open.old)
        (error_output (E.held errors.new) (E.failed errors.new) is_open.new)
        (codes "packet " ++ decimal number ++ codes ": ") }
{
    report(errors, is_open, b"packet ");
    report_number(errors, is_open, number);
    report(errors, is_open, b": ");
}

/// Writes the text of an error, by [`report`].
fn report_text<E: Sink>(errors: &mut E, is_open: &mut bool, text: ErrorText)
    ensures { Reports (error_output (E.held errors.old) (E.failed errors.old) is_open.old)
        (error_output (E.held errors.new) (E.failed errors.new) is_open.new)
        (error_text_bytes text) }
{
    match text {
        ErrorText::Plain(text) => report(errors, is_open, text.as_bytes()),
        ErrorText::Decimal(before, number, after) => {
            report(errors, is_open, before.as_bytes());
            report_number(errors, is_open, number);
            report(errors, is_open, after.as_bytes());
        }
        ErrorText::Hex(before, number) => {
            report(errors, is_open, before.as_bytes());
            report_hex(errors, is_open, number);
        }
    }
}

/// Writes a number in decimal, by [`report`].
fn report_number<E: Sink>(errors: &mut E, is_open: &mut bool, number: u64)
    ensures { Reports (error_output (E.held errors.old) (E.failed errors.old) is_open.old)
        (error_output (E.held errors.new) (E.failed errors.new) is_open.new)
        (decimal number) }
{
    let mut buffer = Buffer::new();
    report(errors, is_open, buffer.format(number).as_bytes());
}

/// Writes a number in eight hexadecimal digits, by [`report`].
fn report_hex<E: Sink>(errors: &mut E, is_open: &mut bool, number: u32)
    ensures { Reports (error_output (E.held errors.old) (E.failed errors.old) is_open.old)
        (error_output (E.held errors.new) (E.failed errors.new) is_open.new)
        (encode_lower (big_bytes 4 number)) }
{
    report(errors, is_open, &hex_digits(number));
}
