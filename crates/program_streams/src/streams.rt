//! Reading and writing: single calls, whose errors are classified, and whole texts.

ghost use Rattle.std.specs.Prelude.{◌≡◌, ◌<◌, ◌≤◌, ◌==◌, ◌++◌, if◌then◌else◌, ℕ, List, Option};
ghost use Rattle.std.specs.Prelude.{length, IfOk, IfErr, MatchResult, OnOk, Some, ⊤};
ghost use Rattle.std.specs.Io.KnownBytes.{Appends, Keeps, ReadConsumes, WriteAppends};
ghost use Rattle.std.specs.Io.{ReadsAtMost};
ghost use Rattle.std.specs.IoError.{error_kind, raw_os_error};
ghost use Rattle.program_streams.specs.ErrorText.{error_text_bytes};
ghost use Rattle.program_streams.specs.Streams.{IsReadErrorFor, IsWriteErrorFor};
ghost use Rattle.program_streams.specs.Streams.{WritesAllOrFails, error_number};
ghost use Rattle.program_streams.specs.Streams.{os_error_end, read_error_text, write_error_text};
ghost use Rattle.program_streams.specs.declared.streams.ReadError.{ReadError};
ghost use Rattle.program_streams.specs.declared.streams.WriteError.{WriteError};

use crate::error_text::ErrorText;
use std::error::Error;
use std::io::{ErrorKind, Read, Write};
use std::{fmt, io};

/// `EIO` of errno(3).
const EIO: u32 = 5;

/// `EBADF` of errno(3).
const EBADF: u32 = 9;

/// `EFBIG` of errno(3).
const EFBIG: u32 = 27;

/// `ENOSPC` of errno(3).
const ENOSPC: u32 = 28;

/// `EDQUOT` of errno(3).
const EDQUOT: u32 = 122;

/// The reason why a read failed.
#[derive(Clone, Copy, Debug, PartialEq, Eq)]
pub enum ReadError {
    /// The input is a directory.
    Directory,
    /// The read failed for another reason, with this errno(3).
    Os(u32),
    /// The read failed for a reason that has no number.
    Other,
}

impl ReadError {
    /// Returns the text of the error.
    pub fn text(&self) -> ErrorText
        ensures { error_text_bytes result ≡ read_error_text self.now }
    {
        match self {
            ReadError::Directory => {
                ErrorText::Plain("the input is a directory; name the captures in it")
            }
            ReadError::Os(code) => ErrorText::Decimal(
                "reading failed (os error ",
                u64::from(*code),
                os_error_end(*code),
            ),
            ReadError::Other => ErrorText::Plain("reading failed"),
        }
    }
}

impl fmt::Display for ReadError {
    ghost output = { λ error. Some (read_error_text error) };

    fn fmt<W: fmt::Write>(&self, f: &mut fmt::Formatter<W>) -> fmt::Result {
        let text = self.text();
        write!(f, "{text}")
    }
}

impl Error for ReadError {}

/// The reason why a write or a flush failed.
#[derive(Clone, Copy, Debug, PartialEq, Eq)]
pub enum WriteError {
    /// The output is a pipe without a reader.
    Closed,
    /// The call failed for another reason, with this errno(3).
    Os(u32),
    /// The call failed for a reason that has no number, or a write accepted no bytes.
    Other,
}

impl WriteError {
    /// Returns the text of the error.
    pub fn text(&self) -> ErrorText
        ensures { error_text_bytes result ≡ write_error_text self.now }
    {
        match self {
            WriteError::Closed => ErrorText::Plain("the output pipe is closed"),
            WriteError::Os(code) => ErrorText::Decimal(
                "writing failed (os error ",
                u64::from(*code),
                os_error_end(*code),
            ),
            WriteError::Other => ErrorText::Plain("writing failed"),
        }
    }
}

impl fmt::Display for WriteError {
    ghost output = { λ error. Some (write_error_text error) };

    fn fmt<W: fmt::Write>(&self, f: &mut fmt::Formatter<W>) -> fmt::Result {
        let text = self.text();
        write!(f, "{text}")
    }
}

impl Error for WriteError {}

/// Returns the end of the text of a failed read or write, which follows its number of errno(3),
/// `code`. For five numbers, those that reads and writes have most often, it is a colon, the
/// meaning of the number, and the closing parenthesis. For others it is only the parenthesis.
pub fn os_error_end(code: u32) -> &'static str
    ensures { result.now ≡ os_error_end code }
{
    if code == EIO {
        ": input/output error)"
    } else if code == EBADF {
        ": bad file descriptor)"
    } else if code == EFBIG {
        ": file too large)"
    } else if code == ENOSPC {
        ": no space left on device)"
    } else if code == EDQUOT {
        ": disk quota exceeded)"
    } else {
        ")"
    }
}

/// An input.
pub trait Source {
    // The bytes that are left to read, if they are known, else `None`.
    ghost left: { Self → Option (List ℕ) };

    // `failed source error`: a read failed with this error. Generic code that knows no more of the
    // type than this trait can prove it only by a read that failed.
    ghost failed: { Self → ReadError → Type 0 };

    /// Reads once, to the start of `bytes`. Returns the number of bytes that were read. It is 0
    /// only if the input is at its end or `bytes` is empty. If the read fails, nothing was
    /// consumed.
    fn read_some(&mut self, bytes: &mut [u8]) -> Result<usize, ReadError>
        // A returned number is at most the length of `bytes`.
        ensures bound { ReadsAtMost result bytes.new }
        // If `n` is returned, the first `n` bytes of `bytes` were consumed; if it is 0 and `bytes`
        // is not empty, none remain. If the read fails, the remaining bytes are unchanged.
        ensures bytes { ReadConsumes (left self.old) (left self.new) result bytes.new }
        ensures cause { IfErr result (λ e. failed self.new e) };
}

impl<R: Read> Source for R {
    ghost left = { λ r. R.remaining r };

    // A reader of std does not record failures: this always holds.
    ghost failed = { λ _ _. ⊤ };

    fn read_some(&mut self, bytes: &mut [u8]) -> Result<usize, ReadError> {
        read_outcome(self.read(bytes))
    }
}

/// Returns the count of a read, or the error of a failed one: `Directory` if and only if the kind
/// of the error is `IsADirectory`, else the error with the system's number, if there is one that is
/// not negative, else `Other`.
fn read_outcome(outcome: io::Result<usize>) -> Result<usize, ReadError>
    ensures { MatchResult outcome (λ n. result ≡ Ok n)
        (λ error. (e : ReadError) × (result ≡ Err e)
        × IsReadErrorFor (error_kind error ≡ ErrorKind.IsADirectory) (raw_os_error error) e) }
{
    match outcome {
        Ok(count) => Ok(count),
        Err(error) => Err(read_failure(error.kind(), error.raw_os_error())),
    }
}

/// Returns the error of a failed read, by its kind and the system's number: `Directory` if and only
/// if the kind is `IsADirectory`, else the error with the number, if there is one that is not
/// negative, else `Other`.
fn read_failure(kind: ErrorKind, code: Option<i32>) -> ReadError
    ensures { IsReadErrorFor (kind ≡ ErrorKind.IsADirectory) code result }
{
    match (kind, error_number(code)) {
        (ErrorKind::IsADirectory, _) => ReadError::Directory,
        (_, Some(number)) => ReadError::Os(number),
        (_, None) => ReadError::Other,
    }
}

/// Returns the system's number of an error, if it has one (`code`) that is not negative, else
/// `None`.
fn error_number(code: Option<i32>) -> Option<u32>
    ensures { result ≡ error_number code }
{
    match code {
        Some(code) if code >= 0 => Some(code.unsigned_abs()),
        _ => None,
    }
}

/// An output.
pub trait Sink {
    // The bytes that have been written, if they are known, else `None`.
    ghost held: { Self → Option (List ℕ) };

    // `failed sink error`: a write or a flush failed with this error. A write that accepted no
    // bytes counts as failed. Generic code that knows no more of the type than this trait can prove
    // it only by a call that failed, and `flushed` only by a last call that flushed.
    ghost failed: { Self → WriteError → Type 0 };

    // The last call flushed the output.
    ghost flushed: { Self → Type 0 };

    /// Writes once, from the start of `bytes`. Returns the number of bytes that were written, at
    /// least one. If `bytes` is empty, the call fails. If it fails, nothing was written.
    fn write_some(&mut self, bytes: &[u8]) -> Result<usize, WriteError>
        ensures some { IfOk result (λ n. (0 < n) × (n ≤ length bytes.now)) }
        // If `n` is returned, the first `n` of the bytes were written. If the call fails, none
        // were.
        ensures bytes { WriteAppends (held self.old) (held self.new) result bytes.now }
        ensures cause { IfErr result (λ e. failed self.new e) };

    /// Flushes the output once.
    fn flush(&mut self) -> Result<(), WriteError>
        ensures bytes { Keeps (held self.old) (held self.new) }
        ensures done { OnOk result (flushed self.new) }
        ensures cause { IfErr result (λ e. failed self.new e) };
}

impl<W: Write> Sink for W {
    ghost held = { λ w. W.contents w };

    // A writer of std does not record failures and flushes: these two always hold.
    ghost failed = { λ _ _. ⊤ };

    ghost flushed = { λ _. ⊤ };

    fn write_some(&mut self, bytes: &[u8]) -> Result<usize, WriteError> {
        write_outcome(self.write(bytes))
    }

    fn flush(&mut self) -> Result<(), WriteError> {
        flush_outcome(Write::flush(self))
    }
}

/// Returns the count of a write, or the error of one that accepted no bytes or failed. If it
/// accepted no bytes, the error is `Other`. If it failed, the error is `Closed` if and only if its
/// kind is `BrokenPipe`, else the one with the system's number, if there is one that is not
/// negative, else `Other`.
fn write_outcome(outcome: io::Result<usize>) -> Result<usize, WriteError>
    ensures { MatchResult outcome
        (λ n. result ≡ (if n == 0 then Err WriteError.Other else Ok n))
        (λ error. (e : WriteError) × (result ≡ Err e)
        × IsWriteErrorFor (error_kind error ≡ ErrorKind.BrokenPipe) (raw_os_error error) e) }
{
    match outcome {
        Ok(0) => Err(WriteError::Other),
        Ok(count) => Ok(count),
        Err(error) => Err(write_failure(error.kind(), error.raw_os_error())),
    }
}

/// Returns `Ok` if a flush succeeded, or the error of a failed one: `Closed` if and only if its
/// kind is `BrokenPipe`, else the error with the system's number, if there is one that is not
/// negative, else `Other`.
fn flush_outcome(outcome: io::Result<()>) -> Result<(), WriteError>
    ensures { MatchResult outcome (λ _. result ≡ Ok tt)
        (λ error. (e : WriteError) × (result ≡ Err e)
        × IsWriteErrorFor (error_kind error ≡ ErrorKind.BrokenPipe) (raw_os_error error) e) }
{
    match outcome {
        Ok(()) => Ok(()),
        Err(error) => Err(write_failure(error.kind(), error.raw_os_error())),
    }
}

/// Returns the error of a failed write or flush, by its kind and the system's number: `Closed` if
/// and only if the kind is `BrokenPipe`, else the error with the number, if there is one that is
/// not negative, else `Other`.
fn write_failure(kind: ErrorKind, code: Option<i32>) -> WriteError
    ensures { IsWriteErrorFor (kind ≡ ErrorKind.BrokenPipe) code result }
{
    match (kind, error_number(code)) {
        (ErrorKind::BrokenPipe, _) => WriteError::Closed,
        (_, Some(number)) => WriteError::Os(number),
        (_, None) => WriteError::Other,
    }
}

/// Writes all of `bytes`. Fails with the error of the first write that fails, which is not
/// repeated; then a prefix of `bytes` has been written.
pub fn send<W: Sink>(output: &mut W, bytes: &[u8]) -> Result<(), WriteError>
    ensures written { OnOk result (Appends (W.held output.old) (W.held output.new) bytes.now) }
    ensures stopped { IfErr result (λ e. W.failed output.new e
        × (sent : List ℕ) × (unsent : List ℕ) × (bytes.now ≡ sent ++ unsent)
        × Appends (W.held output.old) (W.held output.new) sent) }
{
    let mut unsent = bytes;
    'writes: while !unsent.is_empty() {
        let count = output.write_some(unsent)?;
        unsent = &unsent[count..];
    }
    Ok(())
}

/// Writes the text. If a write fails, a prefix of the text has been written. The failure is not
/// reported.
pub fn try_send<W: Sink>(output: &mut W, text: &[u8])
    ensures { WritesAllOrFails (W.held output.old) (W.held output.new)
        ((e : WriteError) × W.failed output.new e) text.now }
{
    let _ = send(output, text);
}
