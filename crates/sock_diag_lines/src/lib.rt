//! The line protocol of `sockdiag`: each input line has a name and the bytes of a message of
//! sock_diag(7) in hex, and is answered by one line. See docs/LINES.md.
#![tactic(auto)]

ghost use Rattle.std.specs.Prelude.{◌≡◌, ◌≢◌, ◌⊎◌, ◌-◌, ◌^◌, Bool, Result, IfErr};
ghost use Rattle.std.specs.Process.{exit_status};
ghost use Rattle.std.specs.Io.KnownBytes.{IsAtEnd, Keeps};
ghost use Rattle.sock_diag_lines.specs.FailureLine.{failure_line};
ghost use Rattle.sock_diag_lines.specs.Run.{RunEnds, WritesAllAnswers, exit_status_of};
ghost use Rattle.program_streams.specs.Streams.{WritesAllOrFails};
ghost use Rattle.program_streams.specs.declared.lines.RunError.{RunError};
ghost use Rattle.program_streams.specs.declared.streams.WriteError.{WriteError};

mod answer_parts;
mod answers;
mod arguments;
mod dump_line;
mod fields;
mod stream;
mod view_line;

pub use answers::answer;
pub use arguments::{Choice, HELP, choose};
pub use program_streams::RunError;
use program_streams::{PromptRead, Sink};
use std::alloc::Global;
use std::process::ExitCode;
pub use stream::run;
use stream::{answer_all, report};

/// The version, as in the file `VERSION` of the repository.
pub const VERSION: &str = "1.0.0";

/// Answers each line of `input` with one line on `output`, flushes, and returns the exit status. It
/// is 1 if a read, a write or an allocation failed; then one line on `errors` names the failure, or
/// a prefix of this line if a write failed there too. Otherwise all input was answered, and nothing
/// was written on `errors`. The status then is 0, or 3 if `is_strict` and an answer is not good: it
/// does not start with `ok`, or it is that of a dump that failed.
///
/// What has been written to `output` after a failure is what [`run`] states. The streams are those
/// of std, or others that record their failed calls: see `program_streams`. Streams of std record
/// none, so the clauses about failed calls say nothing of them.
pub fn run_to_status<R: PromptRead, W: Sink, E: Sink>(
    alloc: Global,
    is_strict: bool,
    input: &mut R,
    output: &mut W,
    errors: &mut E,
) -> ExitCode
    // No read was made yet. This always holds for a reader of std, which does not count reads.
    requires start { R.reads input.old 0 }
    // If the status is not 1, no bytes are left to read, if it is known which are left (`R.left`).
    ensures ended { exit_status result ≢ 1 → IsAtEnd (R.left input.new) }
    // If the status is not 1, the answers to all lines have been written
    // (`WritesAllAnswers left held held'`), if it was known what was left to read. `W.held`: the
    // bytes that have been written, if they are known.
    ensures complete { exit_status result ≢ 1
        → WritesAllAnswers (R.left input.old) (W.held output.old) (W.held output.new) }
    // If the status is not 1, the last call on `output` was a flush that succeeded.
    ensures flushed { exit_status result ≢ 1 → W.flushed output.new }
    // If the status is not 1, nothing was written on `errors`, if what had been written there is
    // known.
    ensures silent { exit_status result ≢ 1 → Keeps (E.held errors.old) (E.held errors.new) }
    // There is an outcome of the run: whether each answer is good, or the failure.
    // `exit_status_of`: the status for this outcome. `RunEnds streams outcome`: what was read and
    // written. `WritesAllOrFails`: after a failure `errors` has the line that names it
    // (`failure_line`), or a prefix of that line if a write on `errors` failed. `Read` and `Write`
    // have a cause: a call that failed, or 2^64 - 1 reads.
    ensures answered { (outcome : Result Bool RunError)
        × (exit_status result ≡ exit_status_of is_strict outcome)
        × RunEnds (record {
          left_before = R.left input.old;
          left_after = R.left input.new;
          held_before = W.held output.old;
          held_after = W.held output.new;
        }) outcome
        × IfErr outcome (λ e. WritesAllOrFails (E.held errors.old) (E.held errors.new)
        ((error : WriteError) × E.failed errors.new error) (failure_line e)
        × (e ≡ RunError.Read → R.failed input.new ⊎ R.reads input.new (2 ^ 64 - 1))
        × (e ≡ RunError.Write → (error : WriteError) × W.failed output.new error)) }
{
    let outcome = answer_all(alloc, input, output);
    report(errors, &outcome);
    exit_code(&outcome, is_strict)
}

/// Returns the exit status of a run: 1 if it failed, 3 if `is_strict` and an answer is not good,
/// else 0.
fn exit_code(outcome: &Result<bool, RunError>, is_strict: bool) -> ExitCode
    ensures { exit_status result ≡ exit_status_of is_strict outcome.now }
{
    match outcome {
        Ok(is_good) if is_strict && !*is_good => ExitCode::from(3),
        Ok(_) => ExitCode::SUCCESS,
        Err(_) => ExitCode::FAILURE,
    }
}
