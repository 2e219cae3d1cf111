//! Lists the sockets in a capture of netlink traffic, as ss(8) lists those of a running system.
#![tactic(auto)]

ghost use Rattle.std.specs.Prelude.{◌≡◌, ◌↔◌, Bool, Result, true};
ghost use Rattle.std.specs.Process.{exit_status};
ghost use Rattle.sslist_texts.specs.Reports.{Reports, ReportsText, error_output};
ghost use Rattle.program_streams.specs.declared.streams.WriteError.{WriteError};
ghost use Rattle.sslist_texts.specs.declared.list_error.ListError.{ListError};
ghost use Rattle.sslist_lister.specs.Run.{ListingEndsReported};
ghost use Rattle.sslist_lister.specs.Run.{closing_text};

mod attributes;
mod collected;
mod details;
mod error_text;
mod explanation;
mod headings;
mod json_attributes;
pub mod json_laws;
mod json_others;
mod json_sockets;
mod kinds;
mod line;
mod list;
mod lists;
mod messages;
mod name_cells;
mod others;
mod parts;
mod pieces;
mod protocol;
mod request_line;
mod requests;
mod sctp;
mod selection;
mod stream;
mod ulp_info;

pub use error_text::push_decode_error;
pub use headings::heading;
pub use line::HEADING;
pub use list::list_packet;
pub use netlink_captures::{CaptureError, Compression, Packet, PacketHeader, TimeUnit};
pub use program_streams::{ReadError, Sink, Source, WriteError, send};
pub use requests::{Query, Requests};
pub use sslist_command_line::{
    Choice, Detail, Family, HELP, ListCapture, Options, Rejection, choose, filter_text,
    list_captures, names_several,
};
pub use sslist_texts::ListError;
pub use sslist_texts::names::escaped;
pub use sslist_texts::output::PacketOutput;
use sslist_texts::reports::report_failure;
use std::alloc::Global;
use std::process::ExitCode;
pub use stream::run;

/// Version of the program, equal to the file `VERSION` of the repository.
pub const VERSION: &str = "1.0.0";

/// Lists the capture in `input` by [`run`]: writes the table, which begins with `heading`, on
/// `output`, and the diagnostics on `errors`. If the run fails, writes a line on `errors` that
/// names the failure; a closed output pipe has no line. Each line on `errors` begins with `front`.
/// Returns the exit status: 0 if the whole capture was listed completely, and 1 if the run failed
/// or a packet had an error.
pub fn run_to_status<R: Source, W: Sink, E: Sink>(
    alloc: Global,
    options: Options<'_>,
    front: &str,
    heading: &[u8],
    input: &mut R,
    output: &mut W,
    errors: &mut E,
) -> ExitCode
    // `outcome`: the result of the run. If it is `Ok`, the input is at its end, and the table was
    // written. `is_open`: whether no write on `errors` failed.
    ensures { (outcome : Result Bool ListError) × (is_open : Bool)
        × ((exit_status result ≡ 0) ↔ (outcome ≡ Ok true))
        × ((exit_status result ≡ 1) ↔ ¬ (outcome ≡ Ok true))
        × ListingEndsReported (record {
          options = options.entry;
          heading = heading.now;
          front = front.now;
          left_before = R.left input.old;
          left_after = R.left input.new;
          ReadFailed = R.failed input.new;
          held_before = W.held output.old;
          held_after = W.held output.new;
          Reported = λ text. ReportsText (E.held errors.old) (E.held errors.new)
              ((e : WriteError) × E.failed errors.new e) text is_open;
        }) outcome }
{
    let mut is_open = true;
    let outcome = run(
        alloc,
        options,
        front,
        heading,
        input,
        output,
        errors,
        &mut is_open,
    );
    report_outcome(errors, &mut is_open, front, &outcome);
    exit_code(&outcome)
}

/// Writes on `errors` the line that names the failure of a run, with the prefix `front`, if
/// `is_open` is set. Writes nothing if the run did not fail, or if the failure is a closed output
/// pipe. If this write fails too, only the exit status reports the failure.
fn report_outcome<E: Sink>(
    errors: &mut E,
    is_open: &mut bool,
    front: &str,
    outcome: &Result<bool, ListError>,
)
    ensures { Reports (error_output (E.held errors.old) (E.failed errors.old) is_open.old)
        (error_output (E.held errors.new) (E.failed errors.new) is_open.new)
        (closing_text front.now outcome.now) }
{
    match outcome {
        Ok(_) => {}
        Err(failure) => report_failure(errors, is_open, front, failure),
    }
}

/// Returns the exit status of a run: 0 if the whole capture was listed completely, otherwise 1.
fn exit_code(outcome: &Result<bool, ListError>) -> ExitCode
    ensures success { (exit_status result ≡ 0) ↔ (outcome.now ≡ Ok true) }
    ensures failure { (exit_status result ≡ 1) ↔ ¬ (outcome.now ≡ Ok true) }
{
    match outcome {
        Ok(true) => ExitCode::SUCCESS,
        Ok(false) | Err(_) => ExitCode::FAILURE,
    }
}
