//! Reads lines, and writes their answers.

ghost use Rattle.std.specs.Prelude.{◌≡◌, ◌⊎◌, ◌-◌, ◌^◌, Bool, Result, Ok, Err, IfErr, MatchResult};
ghost use Rattle.std.specs.Prelude.{OnOk};
ghost use Rattle.std.specs.Io.KnownBytes.{IsAtEnd, Keeps};
ghost use Rattle.program_streams.specs.Streams.{WritesAllOrFails};
ghost use Rattle.program_streams.specs.declared.lines.RunError.{RunError};
ghost use Rattle.program_streams.specs.declared.streams.WriteError.{WriteError};
ghost use Rattle.sock_diag_lines.specs.Answer.{IsAnswerOf, is_good};
ghost use Rattle.sock_diag_lines.specs.private.LineRequest.{IsParsedAs};
ghost use Rattle.sock_diag_lines.specs.FailureLine.{failure_line};
ghost use Rattle.sock_diag_lines.specs.Run.{RunEnds, WritesAllAnswers};

use crate::answer_parts::OK;
use crate::answers::{LineRequest, push_answer_text, read_request};
use program_streams::{LineAnswers, PromptRead, RunError, Sink, serve, try_send};
use std::alloc::{AllocError, Global};
use std::io::{Read, Write};
use std::marker::Brand;

/// The line protocol of `sockdiag`.
struct Protocol;

impl LineAnswers for Protocol {
    type Request = LineRequest;

    ghost is_answer = { IsAnswerOf };

    ghost parses_as = { IsParsedAs };

    ghost good = { is_good };

    fn read_request(
        alloc: Global,
        bytes: &mut Vec<u8>,
        line: &[u8],
    ) -> Result<LineRequest, AllocError> {
        read_request(alloc, bytes, line)
    }

    fn push_answer(
        alloc: Global,
        text: &mut Vec<u8>,
        request: LineRequest,
        bytes: &[u8],
    ) -> Result<bool, AllocError> {
        let start = text.len();
        push_answer_text(alloc, text, request, bytes)?;
        Ok(is_good(&text[start..]))
    }
}

/// Returns whether an answer is good: it starts with `ok `, and it is not that of a dump that
/// failed, the only answer that starts with `ok failed`.
fn is_good(answer: &[u8]) -> bool
    ensures { result ≡ is_good answer.now }
{
    answer.starts_with(OK) && !answer.starts_with(b"ok failed")
}

/// Answers each line of `input` with one line on `output`, and flushes.
///
/// Fails with `Read` if a read failed, or after 2^64 - 1 reads without the end of the input; then
/// the answers to the complete lines that were read have been written. Fails with `Write` if a
/// write or the flush failed, or a write took no bytes; then a prefix of the answers to the lines
/// that were read has been written. Fails with `Memory` if an allocation failed; then the answers
/// to some of the first complete lines have been written.
///
/// The contract states what has been written for each result. It does not state the causes of
/// `Read` and `Write`, nor that before each read the answers to all complete lines that were read
/// have been written to `output`: for both see `program_streams::serve`. A call that failed is not
/// repeated; no contract states this.
pub fn run<R: Read, W: Write>(alloc: Global, input: &mut R, output: &mut W) -> Result<(), RunError>
    // If the run succeeds, no bytes of the reader are left, if these are known, and the answers to
    // all lines have been written.
    ensures ended { OnOk result (IsAtEnd (R.remaining input.new)) }
    ensures complete { OnOk result (WritesAllAnswers (R.remaining input.old)
        (W.contents output.old) (W.contents output.new)) }
    // There is an outcome of the run: whether each answer is good, or the failure. The result is
    // the outcome, without the `bool`.
    ensures answered { (outcome : Result Bool RunError)
        × RunEnds (record {
          left_before = R.remaining input.old;
          left_after = R.remaining input.new;
          held_before = W.contents output.old;
          held_after = W.contents output.new;
        }) outcome
        × MatchResult outcome (λ _. result ≡ Ok tt) (λ error. result ≡ Err error) }
{
    let _is_good = answer_all(alloc, input, output)?;
    Ok(())
}

/// Answers each line of `input` with one line on `output`, flushes, and returns whether each answer
/// is good. Before each read, the answers to all complete lines that were read have been written to
/// `output`. A call that failed is not repeated.
pub(crate) fn answer_all<R: PromptRead, W: Sink>(
    alloc: Global,
    input: &mut R,
    output: &mut W,
) -> Result<bool, RunError>
    requires start { R.reads input.old 0 }
    // If the run succeeds, no bytes are left to read, if it is known which are left. The answers to
    // all lines have been written, if it was known what was left to read.
    ensures ended { OnOk result (IsAtEnd (R.left input.new)) }
    ensures complete { OnOk result
        (WritesAllAnswers (R.left input.old) (W.held output.old) (W.held output.new)) }
    ensures flushed { OnOk result (W.flushed output.new) }
    ensures answered { RunEnds (record {
      left_before = R.left input.old;
      left_after = R.left input.new;
      held_before = W.held output.old;
      held_after = W.held output.new;
    }) result }
    // `Read` and `Write` have a cause: a call that failed, or 2^64 - 1 reads.
    ensures read_cause { IfErr result (λ e. e ≡ RunError.Read
        → R.failed input.new ⊎ R.reads input.new (2 ^ 64 - 1)) }
    ensures write_cause { IfErr result (λ e. e ≡ RunError.Write
        → (error : WriteError) × W.failed output.new error) }
{
    // `Brand`: the proof says what the streams were at the start, see `RunStart`.
    serve::<Brand, Protocol, R, W>(alloc, input, output)
}

/// Writes the line that names the failure, if the run failed. If a write fails, a prefix of it has
/// been written.
pub(crate) fn report<E: Sink>(errors: &mut E, outcome: &Result<bool, RunError>)
    ensures silent { OnOk outcome.now (Keeps (E.held errors.old) (E.held errors.new)) }
    ensures reported { IfErr outcome.now
        (λ e. WritesAllOrFails (E.held errors.old) (E.held errors.new)
        ((error : WriteError) × E.failed errors.new error) (failure_line e)) }
{
    if let Err(error) = outcome {
        try_send(errors, failure_line(*error));
    }
}

/// Returns the line that names a failure.
fn failure_line(error: RunError) -> &'static [u8]
    ensures { result.now ≡ failure_line error }
{
    match error {
        RunError::Read => b"sockdiag: reading failed\n",
        RunError::Write => b"sockdiag: writing failed\n",
        RunError::Memory => b"sockdiag: out of memory\n",
    }
}
