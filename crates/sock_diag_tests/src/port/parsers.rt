//! The parsers and serializers of a type. All parsers of a type return equal results, and all
//! serializers write the same bytes.

use super::emitted;
use netlink_core::{CanonError, DecodeError, Parseable, ParseableParametrized, Wire, canonical};
use netlink_packet_sock_diag::inet::{InetRequest, InetResponse, InetResponseView};
use netlink_packet_sock_diag::unix::{UnixRequest, UnixResponse, UnixResponseView};
use netlink_packet_sock_diag::{SOCK_DIAG_BY_FAMILY, SockDiagMessage, SockDiagView};
use std::alloc::Global;
use std::fmt::Debug;
use std::process::Abort;

/// The type that bytes are parsed as. A message is parsed under the type `SOCK_DIAG_BY_FAMILY`.
#[derive(Clone, Copy)]
pub(crate) enum Subject {
    UnixReply,
    InetReply,
    Message,
    UnixRequest,
    InetRequest,
}

/// What the parsers and serializers return for some bytes. Tests compare reports instead of values,
/// since a call of a generic helper takes a second to prove at each of the types of values.
#[derive(Drop)]
pub(crate) struct Report {
    /// Error of `Wire::read`, or `None` for a value.
    pub(crate) error: Option<DecodeError>,
    /// Whether all parsers return equal results.
    pub(crate) are_equal: bool,
    /// Whether `Wire::read` returns the same result for the original bytes.
    pub(crate) is_original: bool,
    /// Whether each parser returns the result for the original bytes, or `Memory`.
    pub(crate) are_original_or_memory: bool,
    /// What `Debug` prints for the result of `Wire::read`; `None` if the text was not requested, or
    /// an allocation failed.
    pub(crate) text: Option<String>,
    /// Canonical form.
    pub(crate) form: Result<Vec<u8>, CanonError>,
    /// Bytes of the owned value.
    pub(crate) owned_form: Result<Vec<u8>, CanonError>,
    /// Bytes of the view. For a request, which has no view, bytes of the owned value.
    pub(crate) view_form: Result<Vec<u8>, CanonError>,
}

/// A value with parsers and serializers. The trait does not extend `Wire`, whose laws make each
/// call of a generic helper slow to prove.
trait Parsers: Sized + PartialEq + Debug + Drop {
    /// Parses by `Wire::read`.
    fn read_value(alloc: Global, bytes: &[u8]) -> Result<Self, DecodeError>;

    /// Parses by `Parseable::parse` or `ParseableParametrized::parse_with_param`.
    fn parse_value(alloc: Global, bytes: &[u8]) -> Result<Self, DecodeError>;

    /// Parses a view, and returns a clone of its owned copy. Returns a clone of a request, which
    /// has no view.
    fn copy_value(alloc: Global, bytes: &[u8]) -> Result<Self, DecodeError>;

    /// Returns the canonical form.
    fn form(alloc: Global, bytes: &[u8]) -> Result<Vec<u8>, CanonError>;

    /// Serializes the value.
    fn owned_form(&self, alloc: Global) -> Result<Vec<u8>, CanonError>;

    /// Parses a view, and serializes it. Serializes a request, which has no view.
    fn view_form(alloc: Global, bytes: &[u8]) -> Result<Vec<u8>, CanonError>;
}

/// Calls all parsers and serializers of `T`, as [`examine`] does for a subject.
fn examine_as<T: Parsers>(
    alloc: Global,
    bytes: &[u8],
    original: Option<&[u8]>,
    with_text: bool,
) -> Report {
    // The original value is parsed first. So it is there if all later allocations fail.
    let original = T::read_value(alloc, original.unwrap_or(bytes));
    let read = T::read_value(alloc, bytes);
    let parsed = T::parse_value(alloc, bytes);
    let copied = T::copy_value(alloc, bytes);
    Report {
        error: error(&read),
        are_equal: read == parsed && read == copied,
        is_original: read == original,
        are_original_or_memory: is_or_memory(&read, &original)
            && is_or_memory(&parsed, &original)
            && is_or_memory(&copied, &original),
        text: text_of(alloc, &read, with_text),
        form: T::form(alloc, bytes),
        owned_form: owned_form(alloc, &read),
        view_form: T::view_form(alloc, bytes),
    }
}

/// Returns the error, or `None` for a value.
fn error<T: Drop>(read: &Result<T, DecodeError>) -> Option<DecodeError> {
    match read {
        Ok(_) => None,
        Err(error) => Some(*error),
    }
}

/// Returns whether the result of a parser is `original`, or one of both results is `Memory`.
fn is_or_memory<T: Parsers>(
    read: &Result<T, DecodeError>,
    original: &Result<T, DecodeError>,
) -> bool {
    let memory = Some(DecodeError::Memory);
    error(read) == memory || error(original) == memory || read == original
}

/// Returns what `Debug` prints for the value, if the text is requested and no allocation fails.
fn text_of<T: Debug>(alloc: Global, value: &T, with_text: bool) -> Option<String> {
    match with_text {
        true => format!(in alloc; "{value:?}").ok(),
        false => None,
    }
}

/// Serializes a value, or returns the error.
fn owned_form<T: Parsers>(
    alloc: Global,
    read: &Result<T, DecodeError>,
) -> Result<Vec<u8>, CanonError> {
    match read {
        Ok(value) => value.owned_form(alloc),
        Err(error) => Err(CanonError::from(*error)),
    }
}

/// Calls all parsers and serializers with `bytes`, and returns what they return. `original` are the
/// bytes whose value is compared with that of `bytes`, such as these bytes before a test changed
/// one of them, or equivalent ones; by default `bytes` themselves. The report has the `Debug`
/// output if `with_text` is true.
pub(crate) fn examine(
    alloc: Global,
    subject: Subject,
    bytes: &[u8],
    original: Option<&[u8]>,
    with_text: bool,
) -> Report {
    match subject {
        Subject::UnixReply => examine_as::<UnixResponse>(alloc, bytes, original, with_text),
        Subject::InetReply => examine_as::<InetResponse>(alloc, bytes, original, with_text),
        Subject::Message => examine_as::<SockDiagMessage>(alloc, bytes, original, with_text),
        Subject::UnixRequest => examine_as::<UnixRequest>(alloc, bytes, original, with_text),
        Subject::InetRequest => examine_as::<InetRequest>(alloc, bytes, original, with_text),
    }
}

/// Returns the report on the bytes, without the `Debug` output. Asserts that all parsers return
/// equal results, and that all serializers return the same bytes or the same error.
pub(crate) fn parse_all(rt: &impl Abort, alloc: Global, subject: Subject, bytes: &[u8]) -> Report {
    checked_report(rt, bytes, examine(alloc, subject, bytes, None, false))
}

/// Does what [`parse_all`] does, and compares the value with that of the bytes `original`.
pub(crate) fn parse_all_and_compare(
    rt: &impl Abort,
    alloc: Global,
    subject: Subject,
    bytes: &[u8],
    original: &[u8],
) -> Report {
    checked_report(
        rt,
        bytes,
        examine(alloc, subject, bytes, Some(original), false),
    )
}

/// Does what [`parse_all`] does. The report has the `Debug` output.
pub(crate) fn parse_all_and_print(
    rt: &impl Abort,
    alloc: Global,
    subject: Subject,
    bytes: &[u8],
) -> Report {
    checked_report(rt, bytes, examine(alloc, subject, bytes, None, true))
}

/// Returns the report. Asserts what [`parse_all`] says of it.
fn checked_report(rt: &impl Abort, bytes: &[u8], report: Report) -> Report {
    assert!(rt; report.are_equal, "{bytes:?}");
    assert!(rt;
        report.form == report.owned_form && report.form == report.view_form,
        "{bytes:?}"
    );
    report
}

impl Parsers for UnixResponse {
    fn read_value(alloc: Global, bytes: &[u8]) -> Result<Self, DecodeError> {
        UnixResponse::read(alloc, bytes, ())
    }

    fn parse_value(alloc: Global, bytes: &[u8]) -> Result<Self, DecodeError> {
        UnixResponse::parse(alloc, bytes)
    }

    fn copy_value(alloc: Global, bytes: &[u8]) -> Result<Self, DecodeError> {
        let view = UnixResponseView::parse(bytes)?;
        Ok(view.to_owned(alloc)?.clone(alloc)?)
    }

    fn form(alloc: Global, bytes: &[u8]) -> Result<Vec<u8>, CanonError> {
        canonical::<UnixResponse>(alloc, bytes, ())
    }

    fn owned_form(&self, alloc: Global) -> Result<Vec<u8>, CanonError> {
        emitted(alloc, self)
    }

    fn view_form(alloc: Global, bytes: &[u8]) -> Result<Vec<u8>, CanonError> {
        emitted(alloc, &UnixResponseView::parse(bytes)?)
    }
}

impl Parsers for InetResponse {
    fn read_value(alloc: Global, bytes: &[u8]) -> Result<Self, DecodeError> {
        InetResponse::read(alloc, bytes, ())
    }

    fn parse_value(alloc: Global, bytes: &[u8]) -> Result<Self, DecodeError> {
        InetResponse::parse(alloc, bytes)
    }

    fn copy_value(alloc: Global, bytes: &[u8]) -> Result<Self, DecodeError> {
        let view = InetResponseView::parse(bytes)?;
        Ok(view.to_owned(alloc)?.clone(alloc)?)
    }

    fn form(alloc: Global, bytes: &[u8]) -> Result<Vec<u8>, CanonError> {
        canonical::<InetResponse>(alloc, bytes, ())
    }

    fn owned_form(&self, alloc: Global) -> Result<Vec<u8>, CanonError> {
        emitted(alloc, self)
    }

    fn view_form(alloc: Global, bytes: &[u8]) -> Result<Vec<u8>, CanonError> {
        emitted(alloc, &InetResponseView::parse(bytes)?)
    }
}

impl Parsers for SockDiagMessage {
    fn read_value(alloc: Global, bytes: &[u8]) -> Result<Self, DecodeError> {
        SockDiagMessage::read(alloc, bytes, SOCK_DIAG_BY_FAMILY)
    }

    fn parse_value(alloc: Global, bytes: &[u8]) -> Result<Self, DecodeError> {
        SockDiagMessage::parse_with_param(alloc, bytes, SOCK_DIAG_BY_FAMILY)
    }

    fn copy_value(alloc: Global, bytes: &[u8]) -> Result<Self, DecodeError> {
        let view = SockDiagView::parse(bytes, SOCK_DIAG_BY_FAMILY)?;
        Ok(view.to_owned(alloc)?.clone(alloc)?)
    }

    fn form(alloc: Global, bytes: &[u8]) -> Result<Vec<u8>, CanonError> {
        canonical::<SockDiagMessage>(alloc, bytes, SOCK_DIAG_BY_FAMILY)
    }

    fn owned_form(&self, alloc: Global) -> Result<Vec<u8>, CanonError> {
        emitted(alloc, self)
    }

    fn view_form(alloc: Global, bytes: &[u8]) -> Result<Vec<u8>, CanonError> {
        emitted(alloc, &SockDiagView::parse(bytes, SOCK_DIAG_BY_FAMILY)?)
    }
}

impl Parsers for UnixRequest {
    fn read_value(alloc: Global, bytes: &[u8]) -> Result<Self, DecodeError> {
        UnixRequest::read(alloc, bytes, ())
    }

    fn parse_value(alloc: Global, bytes: &[u8]) -> Result<Self, DecodeError> {
        UnixRequest::parse(alloc, bytes)
    }

    fn copy_value(alloc: Global, bytes: &[u8]) -> Result<Self, DecodeError> {
        Ok(UnixRequest::parse(alloc, bytes)?.clone()?)
    }

    fn form(alloc: Global, bytes: &[u8]) -> Result<Vec<u8>, CanonError> {
        canonical::<UnixRequest>(alloc, bytes, ())
    }

    fn owned_form(&self, alloc: Global) -> Result<Vec<u8>, CanonError> {
        emitted(alloc, self)
    }

    fn view_form(alloc: Global, bytes: &[u8]) -> Result<Vec<u8>, CanonError> {
        emitted(alloc, &UnixRequest::parse(alloc, bytes)?)
    }
}

impl Parsers for InetRequest {
    fn read_value(alloc: Global, bytes: &[u8]) -> Result<Self, DecodeError> {
        InetRequest::read(alloc, bytes, ())
    }

    fn parse_value(alloc: Global, bytes: &[u8]) -> Result<Self, DecodeError> {
        InetRequest::parse(alloc, bytes)
    }

    fn copy_value(alloc: Global, bytes: &[u8]) -> Result<Self, DecodeError> {
        Ok(InetRequest::parse(alloc, bytes)?.clone()?)
    }

    fn form(alloc: Global, bytes: &[u8]) -> Result<Vec<u8>, CanonError> {
        canonical::<InetRequest>(alloc, bytes, ())
    }

    fn owned_form(&self, alloc: Global) -> Result<Vec<u8>, CanonError> {
        emitted(alloc, self)
    }

    fn view_form(alloc: Global, bytes: &[u8]) -> Result<Vec<u8>, CanonError> {
        emitted(alloc, &InetRequest::parse(alloc, bytes)?)
    }
}
