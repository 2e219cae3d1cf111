//! Listing of the captures that a command line names, and the text of its filter.

ghost use Rattle.std.specs.Prelude.{◌≡◌, ◌↔◌, ◌<◌, [], IfOk, IsTrue, List, length, map};
ghost use Rattle.std.specs.Prelude.{option_map, string_bytes};
ghost use Rattle.std.specs.Process.{exit_status};
ghost use Rattle.sslist_command_line.specs.Files.{AddsListing, Listing, ListsAll};
ghost use Rattle.sslist_command_line.specs.Files.{capture_named, captures_in, filter_text};
ghost use Rattle.sslist_command_line.specs.Files.{later_failure};

use crate::arguments::{Place, argument_at};
use std::alloc::{AllocError, Global};
use std::process::ExitCode;

/// A lister of captures. `list_captures` is generic over it, so that its contract can name the
/// captures that were listed, and the status of each (`listed`).
pub trait ListCapture {
    // These captures were listed, in this order.
    ghost listed: { Self → List Listing → Type 0 };

    /// Lists the capture in the file of this name, or the one on standard input if there is no name
    /// (`None`). Returns the exit status.
    fn list_capture(&mut self, name: Option<&str>) -> ExitCode
        ensures { AddsListing (listed self.old) (listed self.new) (record {
          name = option_map (λ file. file.now) name.entry;
          status = exit_status result;
        }) };
}

/// Lists the captures in the files that the arguments name, in order, or the one on standard input
/// if they name none. The name `-` is standard input. Returns the last status that is not 0, or
/// else 0. `lister` must not have listed a capture before.
pub fn list_captures<L: ListCapture>(arguments: &[String], lister: &mut L) -> ExitCode
    requires { L.listed lister.old [] }
    ensures { ListsAll (L.listed lister.new) (map string_bytes arguments.now) (exit_status result) }
{
    let mut status = ExitCode::SUCCESS;
    let mut is_named = false;
    let mut place = Place::Any;
    for argument in arguments {
        let parsed = argument_at(place, argument.as_bytes());
        if parsed.names_file() {
            let next = lister.list_capture(capture_named(argument.as_str()));
            status = later_failure(status, next);
            is_named = true;
        }
        place = parsed.next_place(place);
    }
    if is_named {
        status
    } else {
        lister.list_capture(None)
    }
}

/// Returns whether the arguments name more than one capture.
pub fn names_several(arguments: &[String]) -> bool
    ensures { IsTrue result ↔ (1 < length (captures_in (map string_bytes arguments.now))) }
{
    let mut has_one = false;
    let mut place = Place::Any;
    for argument in arguments {
        let parsed = argument_at(place, argument.as_bytes());
        if parsed.names_file() {
            if has_one {
                return true;
            }
            has_one = true;
        }
        place = parsed.next_place(place);
    }
    false
}

/// Returns the text of the filter: the arguments after `--`, each with a space after it.
pub fn filter_text(alloc: Global, arguments: &[String]) -> Result<Vec<u8>, AllocError>
    ensures { IfOk result (λ text. text.items ≡ filter_text (map string_bytes arguments.now)) }
{
    let mut text = Vec::new(alloc);
    let mut place = Place::Any;
    for argument in arguments {
        let parsed = argument_at(place, argument.as_bytes());
        if parsed.is_word() {
            text.extend_from_slice(argument.as_bytes())?;
            text.push(b' ')?;
        }
        place = parsed.next_place(place);
    }
    Ok(text)
}

/// Returns the name of the file, or `None` for `-`, which is standard input.
fn capture_named(name: &str) -> Option<&str>
    ensures { option_map (λ file. file.now) result ≡ capture_named name.entry.now }
{
    if name == "-" { None } else { Some(name) }
}

/// Returns `next` unless it is 0, success, or else `before`.
fn later_failure(before: ExitCode, next: ExitCode) -> ExitCode
    ensures { exit_status result ≡ later_failure (exit_status before) (exit_status next) }
{
    if next == ExitCode::SUCCESS {
        before
    } else {
        next
    }
}
