//! The error of a run over a capture.

ghost use Rattle.std.specs.Prelude.{◌≡◌, ◌↔◌, ◌++◌, IsTrue, Some};
ghost use Rattle.program_streams.specs.ErrorText.{error_text_bytes};
ghost use Rattle.sslist_texts.specs.Reports.{list_error_text, output_error_text};
ghost use Rattle.sslist_texts.specs.private.Report.{packet_number_prefix};
ghost use Rattle.sslist_texts.specs.declared.list_error.ListError.TheVariants.{Memory};
ghost use Rattle.sslist_texts.specs.declared.list_error.ListError.TheVariants.{Write};

use netlink_captures::CaptureError;
use program_streams::{ErrorText, WriteError, os_error_end};
use std::alloc::AllocError;
use std::error::Error;
use std::fmt;

/// The reason why a run failed.
#[derive(Clone, Copy, Debug, PartialEq, Eq)]
pub enum ListError {
    /// The header of the capture could not be read.
    Header(CaptureError),
    /// The packet of this number could not be read. The first one is 1.
    Packet {
        /// Number of the packet.
        packet: u64,
        /// Reason why it could not be read.
        error: CaptureError,
    },
    /// A write or the final flush failed.
    Write(WriteError),
    /// An allocation failed.
    Memory,
}

impl ListError {
    /// Returns the text of the error, without the number of the packet.
    pub(crate) fn text(&self) -> ErrorText
        ensures { packet_number_prefix self.now ++ error_text_bytes result
            ≡ list_error_text self.now }
    {
        match self {
            ListError::Header(error) | ListError::Packet { error, .. } => error.text(),
            ListError::Write(error) => output_error_text(*error),
            ListError::Memory => ErrorText::Plain("out of memory"),
        }
    }

    /// Returns whether the error is that the output is a pipe without a reader.
    pub(crate) fn is_closed_pipe(&self) -> bool
        ensures { IsTrue result ↔ (self.now ≡ ListError.Write WriteError.Closed) }
    {
        *self == ListError::Write(WriteError::Closed)
    }
}

/// Returns the text of a failed write or flush of standard output.
fn output_error_text(error: WriteError) -> ErrorText
    ensures { error_text_bytes result ≡ output_error_text error }
{
    match error {
        WriteError::Closed => error.text(),
        WriteError::Os(code) => ErrorText::Decimal(
            "writing to standard output failed (os error ",
            u64::from(code),
            os_error_end(code),
        ),
        WriteError::Other => ErrorText::Plain("writing to standard output failed"),
    }
}

impl fmt::Display for ListError {
    ghost output = { λ error. Some (list_error_text error) };

    fn fmt<W: fmt::Write>(&self, f: &mut fmt::Formatter<W>) -> fmt::Result {
        let text = self.text();
        match self {
            ListError::Packet { packet, .. } => write!(f, "packet {packet}: {text}"),
            _ => write!(f, "{text}"),
        }
    }
}

impl Error for ListError {}

impl From<WriteError> for ListError {
    ghost from_gives = { λ error e. e ≡ Write error };

    fn from(error: WriteError) -> ListError {
        ListError::Write(error)
    }
}

impl From<AllocError> for ListError {
    ghost from_gives = { λ _ e. e ≡ Memory };

    fn from(_e: AllocError) -> ListError {
        ListError::Memory
    }
}
