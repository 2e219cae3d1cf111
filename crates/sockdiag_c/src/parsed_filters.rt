//! Filters in the words of ss(8), as programs of `INET_DIAG_REQ_BYTECODE`.

ghost use Rattle.std.specs.Prelude.{◌≡◌, [], length};
ghost use Rattle.sockdiag_c.specs.Answers.{padded_or_truncated};
ghost use Rattle.sockdiag_c.specs.ParsedFilters.{IsFilterCall, IsWrittenIfLongEnough};
ghost use Rattle.sockdiag_c.specs.ParsedFilters.{filter_error_code, filter_error_offset};

use crate::details::Number;
use crate::results::{
    FILTER_INCOMPLETE, FILTER_TOO_LONG, FILTER_UNEXPECTED, NO_SPACE, OK, copy_padded,
};
use sock_diag_filters::{FilterTextError, MAX_PARSED_PROGRAM, ParsedFilter};

/// Maximum length of the program of a filter, in bytes.
pub(crate) const FILTER_PROGRAM_LENGTH: usize = 7168;

const _: () = prove!(FILTER_PROGRAM_LENGTH == MAX_PARSED_PROGRAM);

/// What `sockdiag_parse_filter` stores about a filter.
#[repr(C)]
#[derive(Clone, Copy, Default)]
pub struct FilterDetails {
    /// States of the sockets, as a request has them in `states`. Not set if the text names none.
    pub states: Number,
    /// Length of the program in bytes. 0 if the text has no conditions: then a request has no
    /// `INET_DIAG_REQ_BYTECODE`.
    pub program_length: usize,
    /// Offset of the word of the error in the text, in bytes. After `SOCKDIAG_FILTER_INCOMPLETE` it
    /// is the length of the text, and without an error 0.
    pub error_offset: usize,
}

const _: () = prove!(std::mem::size_of::<FilterDetails>() == 24);

/// Parses the text of a filter, and writes its program, the value of an attribute
/// `INET_DIAG_REQ_BYTECODE`, at the start of the buffer. If the buffer is shorter, the call returns
/// `SOCKDIAG_NO_SPACE`, and stores the length that it needs in `program_length`;
/// `SOCKDIAG_FILTER_PROGRAM_LENGTH` bytes suffice. A text that is no filter is
/// `SOCKDIAG_FILTER_UNEXPECTED`, `SOCKDIAG_FILTER_INCOMPLETE` or `SOCKDIAG_FILTER_TOO_LONG`. Bytes
/// of the buffer that are not written are unchanged. All fields of the struct are set, also if the
/// call returns one of these codes.
///
/// The kernel runs the program on each socket that the request selects otherwise, and lists those
/// that meet the conditions. It accepts each program whose conditions it knows, except that
/// `fwmark` needs `CAP_NET_ADMIN`, and `cgroup` a kernel with control groups.
#[unsafe(no_mangle)]
pub extern "C" fn sockdiag_fill_parse_filter(
    text: &[u8],
    program: &mut [u8],
    filter: &mut FilterDetails,
    later: &mut [u8],
) -> u32
    ensures filter { IsFilterCall text.now record {
      old = program.old;
      new = program.new;
      details = filter.new;
      returned = result;
    } }
    ensures later { later.new ≡ padded_or_truncated (length later.old) [] }
{
    copy_padded(&[], later);
    *filter = FilterDetails::default();
    match ParsedFilter::parse(text) {
        Ok(parsed) => {
            filter.states = Number::from(parsed.states);
            filter.program_length = parsed.program_len();
            write_program(&parsed, program)
        }
        Err(error) => {
            let (code, offset) = error_fields(error, text.len());
            filter.error_offset = offset;
            code
        }
    }
}

// Writes the program of the filter at the start of the buffer, if the buffer is long enough.
// Returns 0 or NO_SPACE.
fn write_program(parsed: &ParsedFilter, buffer: &mut [u8]) -> u32
    ensures { IsWrittenIfLongEnough parsed.now.parts.items buffer.old buffer.new result }
{
    let len = parsed.program_len();
    if buffer.len() < len {
        return NO_SPACE;
    }
    let (program, _) = buffer.split_at_mut(len);
    parsed.write_program(program);
    OK
}

// Returns the code of the error, and the offset of its word in a text of `len` bytes.
fn error_fields(error: FilterTextError, len: usize) -> (u32, usize)
    ensures { result ≡ (filter_error_code error, filter_error_offset len error) }
{
    match error {
        FilterTextError::Unexpected { offset } => (FILTER_UNEXPECTED, offset),
        FilterTextError::Incomplete => (FILTER_INCOMPLETE, len),
        FilterTextError::TooLong { offset } => (FILTER_TOO_LONG, offset),
    }
}
