//! Reads lines from an input, and writes their answers to an output.
//!
//! `A` is a protocol ([`LineAnswers`]): `A.is_answer line text` says that the text is an answer to
//! the line, and `A.good` which answers are good. `S.answer` has the answer to each line
//! ([`RunStart`]); `AnswersEachLine A.is_answer S.answer` says that by the protocol each is one.
//! `W.held` are the bytes that have been written to an output, if they are known.

ghost use Rattle.std.specs.Prelude.{◌≡◌, ◌⊎◌, ◌+◌, ◌-◌, ◌^◌, ◌≤◌, ℕ, Bool, true, List, [], ◌++◌};
ghost use Rattle.std.specs.Prelude.{IfOk, IfErr, OnErr, OnOk, Option, None, Some, vec_capacity, ⊤};
ghost use Rattle.std.specs.Io.KnownBytes.{Appends, Consumes, IsAtEnd, ReadConsumes};
ghost use Rattle.std.specs.Io.{ReadsAtMost};
ghost use Rattle.program_streams.specs.ErrorText.{run_error_text};
ghost use Rattle.program_streams.specs.Lines.{SplitsIntoLines, all_lines};
ghost use Rattle.program_streams.specs.LineRun.{AnswersEachLine, AnswersInput, answer_lines};
ghost use Rattle.program_streams.specs.LineRun.{with_line_feed};
ghost use Rattle.program_streams.specs.private.LineRun.{AnswersChunk, HasNoLineFeed};
ghost use Rattle.program_streams.specs.private.LineRun.{WritesText, all_answers_good};
ghost use Rattle.program_streams.specs.declared.lines.RunError.TheVariants.{Memory, Read, Write};
ghost use Rattle.program_streams.specs.declared.streams.ReadError.{ReadError};
ghost use Rattle.program_streams.specs.declared.streams.WriteError.{WriteError};

use crate::streams::{ReadError, Sink, Source, WriteError, send};
use memchr::memchr;
use std::alloc::{AllocError, AllocFailed, Global};
use std::error::Error;
use std::fmt;
use std::marker::Brand;

/// The reason why a run ended before the end of its input.
#[derive(Clone, Copy, Debug, PartialEq, Eq)]
pub enum RunError {
    /// A read failed, or the input did not end within 2^64 - 1 reads.
    Read,
    /// A write or the last flush failed, or a write took no bytes.
    Write,
    /// An allocation failed.
    Memory,
}

impl fmt::Display for RunError {
    ghost output = { λ error. Some (run_error_text error) };

    fn fmt<W: fmt::Write>(&self, f: &mut fmt::Formatter<W>) -> fmt::Result {
        match self {
            RunError::Read => write!(f, "reading failed"),
            RunError::Write => write!(f, "writing failed"),
            RunError::Memory => write!(f, "out of memory"),
        }
    }
}

impl Error for RunError {}

impl From<ReadError> for RunError {
    ghost from_gives = { λ _ e. e ≡ Read };

    fn from(_error: ReadError) -> RunError {
        RunError::Read
    }
}

impl From<WriteError> for RunError {
    ghost from_gives = { λ _ e. e ≡ Write };

    fn from(_error: WriteError) -> RunError {
        RunError::Write
    }
}

impl From<AllocError> for RunError {
    ghost from_gives = { λ _ e. e ≡ Memory };

    fn from(_e: AllocError) -> RunError {
        RunError::Memory
    }
}

impl<T: Drop> From<AllocFailed<T>> for RunError {
    ghost from_gives = { λ _ e. e ≡ Memory };

    fn from(_e: AllocFailed<T>) -> RunError {
        RunError::Memory
    }
}

/// The number of bytes that a read requests. In the protocol of `sock_diag_lines`, an answer line
/// is at most nine times as long as its line, both with their line feeds: `bad line` answers an
/// empty line. So the answers that are buffered before a write have at most 72 KiB, in addition to
/// the answer to a line that began in an earlier read.
const CHUNK: usize = 8192;

/// The largest capacity, in bytes, that a buffer retains: `line` and `bytes` from line to line, and
/// `answers` from read to read.
const RETAINED_CAPACITY: usize = 131072;

/// The state of a reader and a writer when a run starts, and the answer to each line. It is for
/// contracts only, and has no methods.
pub trait RunStart {
    // The bytes that were left to read when the run started, if they are known, else `None`.
    ghost left_before: { Option (List ℕ) };

    // The bytes that had been written when the run started, if they are known, else `None`.
    ghost held_before: { Option (List ℕ) };

    // The answer to each line. A protocol (`LineAnswers`) states which answers a line may have; a
    // contract of a run needs a function.
    ghost answer: { List ℕ → List ℕ };
}

/// A reader that can be read only if the answers to all complete lines so far have been written. So
/// [`serve`], which has no other bound on its reader, answers each line before it reads again, and
/// cannot claim that a read failed if none did.
pub trait PromptRead {
    // The bytes that are left to read, if they are known, else `None`.
    ghost left: { Self → Option (List ℕ) };

    // `reads reader n`: `n` reads were made. For a reader that does not count them it always holds.
    ghost reads: { Self → ℕ → Type 0 };

    // `failed reader`: a read failed.
    ghost failed: { Self → Type 0 };

    /// Reads once into `chunk`, and returns the number of bytes that were read: 0 only at the end
    /// of the input, or if `chunk` is empty. If the read fails, nothing was read. `output` and
    /// `line` are for the precondition only: all complete lines that were read before must be
    /// answered.
    fn read_prompt<S: RunStart, W: Sink>(
        &mut self,
        output: &W,
        line: &[u8],
        chunk: &mut [u8],
    ) -> Result<usize, ReadError>
        // The answers to all complete lines that were read since the start of the run have been
        // written, and nothing else:
        // - Consumes: `text` was read since the start (`S.left_before`).
        // - SplitsIntoLines: it is the complete lines `whole`, and then `line`, which has no line
        //   feed yet.
        // - Appends: the answers to `whole`, each with a line feed, were written since the start
        //   (`S.held_before`).
        // If it was not known at the start what was left to read, or what had been written
        // (`None`), `Consumes` or `Appends` requires nothing.
        requires { (whole : List (List ℕ)) × (text : List ℕ)
            × Consumes S.left_before (left self.old) text × SplitsIntoLines text whole line.now
            × Appends S.held_before (W.held output.now) (answer_lines S.answer whole) }
        // On `Ok(n)`, `n` is at most the length of `chunk`.
        ensures bound { ReadsAtMost result chunk.new }
        // On `Ok(n)`, the first `n` bytes of `chunk` were removed from the start of the bytes that
        // were left, if these are known. If `n` is 0 and `chunk` is not empty, none were left. On
        // `Err`, the bytes that are left are unchanged.
        ensures bytes { ReadConsumes (left self.old) (left self.new) result chunk.new }
        // One more read was made, also if it failed.
        ensures counted { (n : ℕ) → reads self.old n → reads self.new (n + 1) }
        ensures cause { OnErr result (failed self.new) };
}

impl<R: Source> PromptRead for R {
    ghost left = { λ r. R.left r };

    // A source does not count reads: this always holds.
    ghost reads = { λ _ _. ⊤ };

    ghost failed = { λ r. (e : ReadError) × R.failed r e };

    fn read_prompt<S: RunStart, W: Sink>(
        &mut self,
        _output: &W,
        _line: &[u8],
        chunk: &mut [u8],
    ) -> Result<usize, ReadError> {
        self.read_some(chunk)
    }
}

/// The service that answers lines: it parses a line as a request, and appends the answer. It is a
/// trait so that the loop of `serve` and its proof do not depend on a protocol; the protocol of
/// `sock_diag_lines` is its only implementation.
pub trait LineAnswers {
    /// The request in a line, without the bytes that it is about.
    type Request: Drop;

    // `is_answer line text`: the text is an answer to the line.
    ghost is_answer: { List ℕ → List ℕ → Type 0 };

    // `parses_as line request bytes`: the line parses as this request, about these bytes.
    ghost parses_as: { List ℕ → Self.Request → List ℕ → Type 0 };

    // `good answer`: whether the answer is a good one. The protocol defines which ones are.
    ghost good: { List ℕ → Bool };

    /// Parses the request in a line, and replaces the content of `bytes` by the bytes that it is
    /// about. Fails only if an allocation fails.
    fn read_request(
        alloc: Global,
        bytes: &mut Vec<u8>,
        line: &[u8],
    ) -> Result<Self::Request, AllocError>
        ensures { IfOk result (λ request. parses_as line.now request bytes.new.items) };

    /// Appends the answer to a request about these bytes to the text, and returns whether it is a
    /// good one. Fails only if an allocation fails; then a part of the answer may have been
    /// appended.
    fn push_answer(
        alloc: Global,
        text: &mut Vec<u8>,
        request: Self::Request,
        bytes: &[u8],
    ) -> Result<bool, AllocError>
        // The line of the request is not an argument. So this is stated for each line that parses
        // as this request about these bytes, and for each answer to it: the answer was appended,
        // and the result is whether it is a good one.
        ensures { IfOk result (λ is_good. (line answer : List ℕ)
            → parses_as line request bytes.now → is_answer line answer
            → (text.new.items ≡ text.old.items ++ answer) × (is_good ≡ good answer)) };
}

impl RunStart for Brand {
    // A caller of `serve` that has no type with these members writes `Brand` for `S`. The proof of
    // the call then chooses the members. The values below are placeholders.
    ghost left_before = { None };

    ghost held_before = { None };

    ghost answer = { λ line. line };
}

/// The buffers that a run reuses from line to line. They allocate only to grow, or after a buffer
/// was freed because its capacity was above `RETAINED_CAPACITY`.
#[derive(Drop)]
struct LineBuffers {
    /// The bytes since the last line feed.
    line: Vec<u8>,
    /// The bytes that the request in a line is about.
    bytes: Vec<u8>,
    /// The answer lines that are not written yet.
    answers: Vec<u8>,
}

/// Writes the answer line of each line of `input`, flushes, and returns whether each answer is a
/// good one.
///
/// Fails with `Read` if a read failed, or after 2^64 - 1 reads without the end of the input; then
/// the answers to the complete lines that were read have been written. Fails with `Write` if a
/// write or the flush failed, or a write took no bytes; then a prefix of the answers to the lines
/// that were read has been written. Fails with `Memory` if an allocation failed; then the answers
/// to some of the first complete lines have been written.
///
/// Before each read, the answers to all complete lines that were read have been written to
/// `output`: `read_prompt` requires this, and `serve` has no other way to read. A call that failed
/// is not repeated; the contract does not state this.
pub fn serve<S: RunStart, A: LineAnswers, R: PromptRead, W: Sink>(
    alloc: Global,
    input: &mut R,
    output: &mut W,
) -> Result<bool, RunError>
    // `S` has the state when the run starts, and no read was made yet.
    requires start { (S.left_before ≡ R.left input.old) × (S.held_before ≡ W.held output.old)
        × R.reads input.old 0 }
    requires right { AnswersEachLine A.is_answer S.answer }
    ensures ended { OnOk result (IsAtEnd (R.left input.new)) }
    ensures flushed { OnOk result (W.flushed output.new) }
    // A text was read, and what has been written are the answers to its lines, for each result as
    // described above.
    ensures answered { AnswersInput S.answer (record {
      left_before = S.left_before;
      left_after = R.left input.new;
      held_before = S.held_before;
      held_after = W.held output.new;
    }) A.good result }
    ensures read_cause { IfErr result (λ e. e ≡ RunError.Read
        → R.failed input.new ⊎ R.reads input.new (2 ^ 64 - 1)) }
    ensures write_cause { IfErr result (λ e. e ≡ RunError.Write
        → (error : WriteError) × W.failed output.new error) }
{
    let mut buffers = LineBuffers {
        line: Vec::new(alloc),
        bytes: Vec::new(alloc),
        answers: Vec::new(alloc),
    };
    let mut chunk = [0u8; CHUNK];
    let mut is_good = true;
    'reads: for _reads_made in 0..u64::MAX {
        let count = input.read_prompt::<S, W>(output, buffers.line.as_slice(), &mut chunk)?;
        if count == 0 {
            // The input is at its end.
            let is_last_good = finish::<S, A, W>(alloc, &mut buffers, output)?;
            return Ok(is_good & is_last_good);
        }
        let is_chunk_good = answer_chunk::<S, A>(alloc, &mut buffers, &chunk[..count])?;
        is_good &= is_chunk_good;
        send(output, buffers.answers.as_slice())?;
        clear_buffer(alloc, &mut buffers.answers);
    }
    Err(RunError::Read)
}

/// Answers the last line, which is in `buffers.line` and has no line feed, and flushes. Returns
/// whether the answer is a good one. If the line is empty, there is no answer, and the result is
/// `true`. No answers may be buffered.
///
/// Fails with `Write` if a write or the flush failed; then a prefix of the answer has been written.
/// Fails with `Memory` if an allocation failed; then nothing has been written.
fn finish<S: RunStart, A: LineAnswers, W: Sink>(
    alloc: Global,
    buffers: &mut LineBuffers,
    output: &mut W,
) -> Result<bool, RunError>
    requires { (buffers.old.answers.items ≡ []) × AnswersEachLine A.is_answer S.answer }
    ensures written { WritesText (W.held output.old) (W.held output.new)
        (answer_lines S.answer (all_lines [] buffers.old.line.items)) result }
    ensures judged { IfOk result (λ is_good.
        is_good ≡ all_answers_good A.good S.answer (all_lines [] buffers.old.line.items)) }
    ensures flushed { OnOk result (W.flushed output.new) }
    ensures cause { IfErr result (λ e. e ≡ RunError.Write
        → (error : WriteError) × W.failed output.new error) }
{
    let is_good = end_last_line::<S, A>(alloc, buffers)?;
    send(output, buffers.answers.as_slice())?;
    output.flush()?;
    Ok(is_good)
}

/// Appends the answer to the last line, which is in `buffers.line` and has no line feed, to the
/// buffer of answers, which must be empty. Returns whether the answer is a good one. If the line is
/// empty, there is no answer, and the result is `true`. Fails only if an allocation fails.
fn end_last_line<S: RunStart, A: LineAnswers>(
    alloc: Global,
    buffers: &mut LineBuffers,
) -> Result<bool, AllocError>
    requires { (buffers.old.answers.items ≡ []) × AnswersEachLine A.is_answer S.answer }
    ensures added { OnOk result (buffers.new.answers.items
        ≡ answer_lines S.answer (all_lines [] buffers.old.line.items)) }
    ensures judged { IfOk result (λ is_good.
        is_good ≡ all_answers_good A.good S.answer (all_lines [] buffers.old.line.items)) }
{
    if buffers.line.is_empty() {
        return Ok(true);
    }
    end_line::<S, A>(alloc, buffers, &[])
}

/// Appends the answers to the lines that end in a chunk of the input, and returns whether each is a
/// good one. The first of these lines begins with the content of `buffers.line`, the bytes since
/// the last line feed. The bytes after the last one are in `buffers.line` then. Fails only if an
/// allocation fails.
fn answer_chunk<S: RunStart, A: LineAnswers>(
    alloc: Global,
    buffers: &mut LineBuffers,
    chunk: &[u8],
) -> Result<bool, AllocError>
    requires { HasNoLineFeed buffers.old.line.items × AnswersEachLine A.is_answer S.answer }
    ensures { IfOk result
        (AnswersChunk S.answer A.good buffers.old chunk.now buffers.new) }
{
    let mut is_good = true;
    let mut rest = chunk;
    'lines: while let Some(end) = memchr(b'\n', rest) {
        let is_line_good = end_line::<S, A>(alloc, buffers, &rest[..end])?;
        is_good &= is_line_good;
        rest = &rest[end + 1..];
    }
    buffers.line.extend_from_slice(rest)?;
    Ok(is_good)
}

/// Appends the answer to a line, and returns whether it is a good one. The line is the content of
/// `buffers.line` and then `end`; after the call `buffers.line` is empty, for the next line. Fails
/// only if an allocation fails. The memory of a long line is freed before its answer is allocated.
fn end_line<S: RunStart, A: LineAnswers>(
    alloc: Global,
    buffers: &mut LineBuffers,
    end: &[u8],
) -> Result<bool, AllocError>
    requires { AnswersEachLine A.is_answer S.answer }
    ensures added { OnOk result ((buffers.new.line.items ≡ [])
        × (buffers.new.answers.items ≡ buffers.old.answers.items
        ++ with_line_feed (S.answer (buffers.old.line.items ++ end.now)))) }
    ensures judged { IfOk result (λ is_good.
        is_good ≡ A.good (S.answer (buffers.old.line.items ++ end.now))) }
    ensures capacities { OnOk result ((vec_capacity buffers.new.line ≤ RETAINED_CAPACITY)
        × (vec_capacity buffers.new.bytes ≤ RETAINED_CAPACITY)) }
{
    let request = read_line::<A>(alloc, buffers, end)?;
    clear_buffer(alloc, &mut buffers.line);
    let bytes = buffers.bytes.as_slice();
    let is_good = add_answer_line::<S, A>(alloc, &mut buffers.answers, request, bytes)?;
    clear_buffer(alloc, &mut buffers.bytes);
    Ok(is_good)
}

/// Parses the request in a line: the content of `buffers.line` and then `end`. The bytes that it is
/// about are in `buffers.bytes` then. Fails only if an allocation fails. A line that began in this
/// chunk is parsed without a copy.
fn read_line<A: LineAnswers>(
    alloc: Global,
    buffers: &mut LineBuffers,
    end: &[u8],
) -> Result<A::Request, AllocError>
    ensures request { IfOk result (λ request.
        A.parses_as (buffers.old.line.items ++ end.now) request buffers.new.bytes.items) }
    ensures others { OnOk result (buffers.new.answers.items ≡ buffers.old.answers.items) }
{
    if buffers.line.is_empty() {
        // The whole line is in `end`.
        return A::read_request(alloc, &mut buffers.bytes, end);
    }
    buffers.line.extend_from_slice(end)?;
    A::read_request(alloc, &mut buffers.bytes, buffers.line.as_slice())
}

/// Appends the answer to a request about these bytes, followed by a line feed, and returns whether
/// the answer is a good one. Fails only if an allocation fails.
fn add_answer_line<S: RunStart, A: LineAnswers>(
    alloc: Global,
    answers: &mut Vec<u8>,
    request: A::Request,
    bytes: &[u8],
) -> Result<bool, AllocError>
    requires { AnswersEachLine A.is_answer S.answer }
    // The line of the request is not an argument. So this is stated for each line that parses as
    // this request about these bytes.
    ensures { IfOk result (λ is_good. (line : List ℕ) → A.parses_as line request bytes.now
        → (answers.new.items ≡ answers.old.items ++ with_line_feed (S.answer line))
        × (is_good ≡ A.good (S.answer line))) }
{
    let is_good = A::push_answer(alloc, answers, request, bytes)?;
    answers.push(b'\n')?;
    Ok(is_good)
}

/// Empties the buffer. Frees its memory if and only if its capacity is above `RETAINED_CAPACITY`
/// bytes; else the capacity is unchanged.
fn clear_buffer(alloc: Global, buffer: &mut Vec<u8>)
    ensures emptied { buffer.new.items ≡ [] }
    ensures bound { vec_capacity buffer.new ≤ RETAINED_CAPACITY }
    ensures keeps { vec_capacity buffer.old ≤ RETAINED_CAPACITY
        → vec_capacity buffer.new ≡ vec_capacity buffer.old }
{
    if buffer.capacity() > RETAINED_CAPACITY {
        *buffer = Vec::new(alloc);
    } else {
        buffer.clear();
    }
}
