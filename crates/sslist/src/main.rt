//! Lists the sockets in captures of netlink traffic, as ss(8) lists those of a running system.
#![tactic(auto)]

ghost use Rattle.std.specs.Prelude.{⊤};

use sock_diag_filters::{Condition, FilterTextError, MAX_PARTS, ParsedFilter, Part};
use sslist_lister::{
    Choice, HELP, ListCapture, ListError, Options, Rejection, Sink, VERSION, WriteError, choose,
    escaped, filter_text, heading, list_captures, names_several, run_to_status, send,
};
use std::alloc::{AllocError, Global};
use std::fs::File;
use std::io::{BufReader, ErrorKind, IsTerminal, Read};
use std::process::ExitCode;
use std::rt::Env;
use std::{env, str};

/// Exit status if the command line is rejected.
const USAGE_ERROR: u8 = 2;

/// Greatest length in bytes, with its NUL, of an argument that Linux passes to a program, if a page
/// has 4 KiB (`MAX_ARG_STRLEN`).
const LONGEST_ARGUMENT: usize = 131_072;

/// Text after the error about a file that cannot be opened, if its name may be a filter of ss(8).
const FILTER_HINT: &str = "; a filter follows --, as in sslist FILE -- state established";

fn main(rt: HostRuntime) -> ExitCode {
    let mut arguments = match env::args(&rt) {
        Ok(arguments) => arguments,
        Err(error) if error.kind() == ErrorKind::OutOfMemory => return out_of_memory(&rt),
        Err(_) => return reject_invalid_utf8(&rt),
    };
    let _program_name = arguments.next();
    match arguments.collect::<Vec<String>>(rt.alloc()) {
        Ok(arguments) => answer(&rt, arguments.as_slice()),
        Err(_) => out_of_memory(&rt),
    }
}

/// Does what the arguments request.
fn answer(rt: &HostRuntime, arguments: &[String]) -> ExitCode {
    match choose(arguments) {
        Choice::Help => print(rt, HELP),
        Choice::Version => match format!(in rt.alloc(); "sslist {VERSION}") {
            Ok(text) => print(rt, text.as_str()),
            Err(_) => out_of_memory(rt),
        },
        Choice::Reject(reason, argument) => reject(rt, reason, argument),
        Choice::MissingFamily => {
            let _ = rt.eprintln("sslist: -f without a family; try sslist --help");
            ExitCode::from(USAGE_ERROR)
        }
        Choice::Captures(options) => match filter_in(rt, arguments) {
            Ok(filter) => {
                let options = options.with_filter(&filter);
                let has_captions = names_several(arguments);
                let mut lister = Lister {
                    rt,
                    options,
                    has_captions,
                };
                list_captures(arguments, &mut lister)
            }
            Err(status) => status,
        },
    }
}

/// Returns the filter in the arguments, which may be empty. If it is rejected, or an allocation
/// fails, reports why, and returns the status.
fn filter_in(rt: &HostRuntime, arguments: &[String]) -> Result<ParsedFilter, ExitCode> {
    let Ok(text) = filter_text(rt.alloc(), arguments) else {
        return Err(out_of_memory(rt));
    };
    match ParsedFilter::parse(text.as_slice()) {
        Ok(filter) if has_auto_bound(&filter.parts) => {
            let _ = rt.eprintln("sslist: a capture does not contain what autobound tests");
            Err(ExitCode::from(USAGE_ERROR))
        }
        Ok(filter) => Ok(filter),
        Err(error) => Err(reject_filter(rt, error, text.as_slice())),
    }
}

/// Returns whether one of the parts of a filter tests whether the socket was bound to its port.
fn has_auto_bound(parts: &[Part]) -> bool {
    for part in parts {
        if matches!(part, Part::Condition(Condition::AutoBound)) {
            return true;
        }
    }
    false
}

/// Reports the first error of a filter's text, with status 2.
fn reject_filter(rt: &HostRuntime, error: FilterTextError, text: &[u8]) -> ExitCode {
    let offset = match error {
        FilterTextError::Unexpected { offset } | FilterTextError::TooLong { offset } => offset,
        FilterTextError::Incomplete => text.len(),
    };
    let Ok(shown) = escaped(rt.alloc(), word_at(text, offset)) else {
        return out_of_memory(rt);
    };
    let _ = match error {
        FilterTextError::Unexpected { .. } => {
            eprintln!(rt; "sslist: unexpected {shown} in the filter; try sslist --help")
        }
        FilterTextError::TooLong { .. } => {
            eprintln!(rt; "sslist: more than {MAX_PARTS} parts in the filter at {shown}")
        }
        FilterTextError::Incomplete => {
            rt.eprintln("sslist: the filter is not complete; try sslist --help")
        }
    };
    ExitCode::from(USAGE_ERROR)
}

/// Returns the word of a text at an offset.
fn word_at(text: &[u8], offset: usize) -> &[u8] {
    let rest = text.get(offset..).unwrap_or_default();
    for (index, byte) in rest.iter().enumerate() {
        if byte.is_ascii_whitespace() {
            return &rest[..index];
        }
    }
    rest
}

/// Lists captures on standard output with these options.
#[derive(Drop)]
struct Lister<'r, 'f> {
    rt: &'r HostRuntime,
    options: Options<'f>,
    /// Each table has a caption.
    has_captions: bool,
}

impl ListCapture for Lister<'_, '_> {
    // The captures that were listed are not recorded: any list is possible.
    ghost listed = { λ _ _. ⊤ };

    fn list_capture(&mut self, name: Option<&str>) -> ExitCode {
        let caption = if self.has_captions {
            Some(name.unwrap_or("-"))
        } else {
            None
        };
        let Ok(heading) = heading(self.rt.alloc(), self.options, caption) else {
            return out_of_memory(self.rt);
        };
        match name {
            Some(name) => list_file(self.rt, self.options, name, heading.as_slice()),
            None => list_standard_input(self.rt, self.options, heading.as_slice()),
        }
    }
}

/// Lists the capture in a file.
fn list_file(rt: &HostRuntime, options: Options<'_>, name: &str, heading: &[u8]) -> ExitCode {
    let Ok(shown) = escaped(rt.alloc(), name.as_bytes()) else {
        return out_of_memory(rt);
    };
    let Ok(front) = format!(in rt.alloc(); "sslist: {shown}: ") else {
        return out_of_memory(rt);
    };
    match File::open(rt, name) {
        Ok(file) => list(rt, options, front.as_str(), heading, file),
        Err(error) => {
            let hint = if may_be_filter(name) { FILTER_HINT } else { "" };
            let _ = eprintln!(rt; "{front}{error}{hint}");
            ExitCode::FAILURE
        }
    }
}

/// Returns whether a name that is no file may be a part of a filter of ss(8): it contains `=`, or
/// begins with the word of a state, a port or an address.
fn may_be_filter(name: &str) -> bool {
    let first_word = match name.split_once(' ') {
        Some((first_word, _)) => first_word,
        None => name,
    };
    name.contains('=')
        || matches!(
            first_word,
            "state" | "exclude" | "sport" | "dport" | "src" | "dst"
        )
}

/// Lists the capture on standard input. A terminal is rejected, since nobody types a capture.
fn list_standard_input(rt: &HostRuntime, options: Options<'_>, heading: &[u8]) -> ExitCode {
    let input = rt.stdin();
    if input.is_terminal() {
        let _ = rt.eprintln(
            "sslist: standard input is a terminal; try sockdump | sslist, or sslist FILE",
        );
        return ExitCode::FAILURE;
    }
    list(rt, options, "sslist: ", heading, input)
}

/// Lists the capture that a reader returns.
fn list<R: Read + Drop>(
    rt: &HostRuntime,
    options: Options<'_>,
    front: &str,
    heading: &[u8],
    input: R,
) -> ExitCode {
    let (alloc, output, errors) = (rt.alloc(), &mut rt.stdout(), &mut rt.stderr());
    match BufReader::new(alloc, input) {
        Ok(mut input) => run_to_status(alloc, options, front, heading, &mut input, output, errors),
        Err(_) => out_of_memory(rt),
    }
}

/// Prints a text and a line feed on standard output. Returns status 0 if they were written.
/// Otherwise reports the failure, except for a closed output pipe, and returns status 1.
fn print(rt: &HostRuntime, text: &str) -> ExitCode {
    let mut output = rt.stdout();
    match print_line(&mut output, text) {
        Ok(()) => return ExitCode::SUCCESS,
        Err(WriteError::Closed) => {}
        Err(error) => {
            let _ = eprintln!(rt; "sslist: {}", ListError::Write(error));
        }
    }
    ExitCode::FAILURE
}

/// Writes a text and a line feed, and flushes the output.
fn print_line<W: Sink>(output: &mut W, text: &str) -> Result<(), WriteError> {
    send(output, text.as_bytes())?;
    send(output, b"\n")?;
    output.flush()
}

/// Reports an argument that is rejected, with status 2.
fn reject(rt: &HostRuntime, reason: Rejection, argument: &str) -> ExitCode {
    match rejection_text(rt.alloc(), reason, argument) {
        Ok(text) => {
            let _ = eprintln!(rt; "sslist: {text}; try sslist --help");
            ExitCode::from(USAGE_ERROR)
        }
        Err(_) => out_of_memory(rt),
    }
}

/// Returns the text about an argument that is rejected for this reason.
fn rejection_text(alloc: Global, reason: Rejection, argument: &str) -> Result<String, AllocError> {
    let shown = escaped(alloc, argument.as_bytes())?;
    match reason {
        // The long name of `-p` in ss(8).
        Rejection::UnknownOption if argument == "--processes" => {
            let hint = letter_hint(b'p');
            format!(in alloc; "unknown option {shown}{hint}")
        }
        Rejection::UnknownOption => format!(in alloc; "unknown option {shown}"),
        Rejection::UnknownLetter(letter) => unknown_letter_text(alloc, letter, argument),
        Rejection::MisplacedLetter(b'f') => {
            format!(in alloc; "-f has to be the last letter in {shown}, as in -f FAMILY")
        }
        Rejection::MisplacedLetter(letter) => {
            let letter = escaped(alloc, &[letter])?;
            format!(in alloc; "-{letter} has to be alone, not in {shown}")
        }
        Rejection::MissingValue => {
            format!(in alloc; "{shown} needs a value: write {shown}=FAMILY")
        }
        Rejection::UnexpectedValue => no_value_text(alloc, argument),
        Rejection::UnknownFamily => format!(in alloc; "unknown family {shown} after -f"),
        Rejection::UnknownFamilyValue => format!(in alloc; "unknown family in {shown}"),
    }
}

/// Returns the text about an argument of a hyphen and letters, of which `letter` is not an option.
fn unknown_letter_text(alloc: Global, letter: u8, argument: &str) -> Result<String, AllocError> {
    // An option with a value, such as `-t=1`.
    if letter == b'=' {
        return no_value_text(alloc, argument);
    }
    let shown = escaped(alloc, argument.as_bytes())?;
    let hint = letter_hint(letter);
    // A hyphen and one letter.
    if argument.len() == 2 {
        return format!(in alloc; "unknown option {shown}{hint}");
    }
    let letter = escaped(alloc, &[letter])?;
    format!(in alloc; "unknown option -{letter} in {shown}{hint}")
}

/// Returns the text about an option with a value that takes none.
fn no_value_text(alloc: Global, argument: &str) -> Result<String, AllocError> {
    let name = escaped(alloc, name_of_option(argument).as_bytes())?;
    format!(in alloc; "{name} takes no value")
}

/// Returns the text after the error about a letter that is an option of ss(8), and not of sslist.
fn letter_hint(letter: u8) -> &'static str {
    match letter {
        b'p' => "; a capture has no processes",
        b's' => "; to count sockets, count the lines of -HO",
        b'A' => "; select sockets by -t, -u, -M, -x, -0 or -f FAMILY",
        b'r' => "; names are never resolved",
        _ => "",
    }
}

/// Returns the part of an argument before its first equals sign.
fn name_of_option(argument: &str) -> &str {
    match argument.split_once('=') {
        Some((name, _)) => name,
        None => argument,
    }
}

/// Reports the first argument that is not valid UTF-8, with status 2. The arguments are read once
/// more, as bytes.
fn reject_invalid_utf8(rt: &HostRuntime) -> ExitCode {
    let mut bytes = Vec::new(rt.alloc());
    if bytes.resize(LONGEST_ARGUMENT, 0).is_err() {
        return out_of_memory(rt);
    }
    for index in 0..usize::MAX {
        match rt.arg(index, bytes.as_mut_slice()) {
            Ok(length) if str::from_utf8(&bytes[..length]).is_ok() => {}
            Ok(length) => return report_invalid_utf8(rt, &bytes[..length]),
            // There are no more arguments.
            Err(_) => break,
        }
    }
    let _ = rt.eprintln("sslist: an argument is not valid UTF-8");
    ExitCode::from(USAGE_ERROR)
}

/// Reports an argument that is not valid UTF-8, with status 2.
fn report_invalid_utf8(rt: &HostRuntime, argument: &[u8]) -> ExitCode {
    let Ok(shown) = escaped(rt.alloc(), argument) else {
        return out_of_memory(rt);
    };
    let advice = "rename the file, or write sslist <FILE";
    let _ = eprintln!(rt; "sslist: argument {shown} is not valid UTF-8; {advice}");
    ExitCode::from(USAGE_ERROR)
}

/// Reports that an allocation failed, with status 1.
fn out_of_memory(rt: &HostRuntime) -> ExitCode {
    let _ = rt.eprintln("sslist: out of memory");
    ExitCode::FAILURE
}
