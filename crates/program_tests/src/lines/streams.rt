//! Runs over readers and writers that move few bytes in each call, that fail at a call, or that
//! continue for long.

use super::{INPUT, LARGE, OUTPUT, Repeated, repeated};
use sock_diag_lines::{RunError, answer, run, run_to_status};
use std::alloc::Global;
use std::cell::Cell;
use std::io;
use std::io::{ErrorKind, Read, Write};
use std::process::Abort;

/// The index of a call that is never made. As the size of a chunk: no limit.
const NEVER: usize = usize::MAX;

/// Denotes the flush, as the index of the call that fails (`fails_at`).
const FLUSH: usize = usize::MAX - 1;

/// The errors of calls that fail.
const ERRORS: [ErrorKind; 14] = [
    ErrorKind::Interrupted,
    ErrorKind::Other,
    ErrorKind::BrokenPipe,
    ErrorKind::WouldBlock,
    ErrorKind::UnexpectedEof,
    ErrorKind::WriteZero,
    ErrorKind::TimedOut,
    ErrorKind::OutOfMemory,
    ErrorKind::InvalidData,
    ErrorKind::StorageFull,
    ErrorKind::ConnectionReset,
    ErrorKind::PermissionDenied,
    ErrorKind::IsADirectory,
    ErrorKind::Uncategorized,
];

/// The size and the failure of the calls of a stream.
#[derive(Clone, Copy)]
struct Pace {
    /// Limit of the bytes that a call moves.
    limit: usize,
    /// Growth of this limit after each call.
    growth: usize,
    /// Index of the call that fails.
    fails_at: usize,
    /// Index of its error in [`ERRORS`].
    error: usize,
}

/// Returns the pace of a stream that never fails and moves at most `limit` bytes in a call.
fn steady(limit: usize) -> Pace {
    Pace {
        limit,
        growth: 0,
        fails_at: NEVER,
        error: 0,
    }
}

/// Returns the pace of a stream that moves at most `limit` bytes in a call. The call with the index
/// `fails_at` fails, with the error at the index `error` of `ERRORS`.
fn failing(limit: usize, fails_at: usize, error: usize) -> Pace {
    Pace {
        fails_at,
        error,
        ..steady(limit)
    }
}

/// Returns the error of the call that fails at this pace.
fn failure(pace: &Pace) -> io::Error {
    let kind = ERRORS.get(pace.error).copied();
    io::Error::from(kind.unwrap_or(ErrorKind::Other))
}

/// Returns the number of line ends in the text.
fn line_count(text: &[u8]) -> usize {
    text.iter().filter(|byte| **byte == b'\n').count()
}

/// Numbers of bytes of the first 0, 1, 2 and 3 answers in `OUTPUT`, with their line feeds.
const ANSWER_ENDS: [usize; 4] = [0, 52, 104, 114];

/// A reader that returns its bytes at a pace, and records whether an answer that was due had not
/// been written.
#[derive(Drop)]
struct PacedReader<'a> {
    /// Bytes that were not read.
    remaining: &'a [u8],
    pace: Pace,
    /// Number of calls.
    calls: usize,
    /// Number of bytes that the last call requested.
    requested: usize,
    /// Number of lines that were read.
    lines: usize,
    /// Number of answers that were written.
    answered: &'a Cell<usize>,
    /// Whether, before some call, the numbers of lines and of answers differed.
    is_late: bool,
}

impl<'a> PacedReader<'a> {
    fn new(remaining: &'a [u8], pace: Pace, answered: &'a Cell<usize>) -> PacedReader<'a> {
        PacedReader {
            remaining,
            pace,
            calls: 0,
            requested: 0,
            lines: 0,
            answered,
            is_late: false,
        }
    }
}

impl Read for PacedReader<'_> {
    fn read(&mut self, buf: &mut [u8]) -> io::Result<usize> {
        let call = self.calls;
        self.calls = call.saturating_add(1);
        self.requested = buf.len();
        if self.answered.get() != self.lines {
            self.is_late = true;
        }
        if call == self.pace.fails_at {
            return Err(failure(&self.pace));
        }
        let count = self.pace.limit.min(self.remaining.len()).min(buf.len());
        self.pace.limit = self.pace.limit.saturating_add(self.pace.growth);
        let (bytes, remaining) = self.remaining.split_at(count);
        buf[..count].copy_from_slice(bytes);
        self.lines = self.lines.saturating_add(line_count(bytes));
        self.remaining = remaining;
        Ok(count)
    }
}

/// A writer that accepts bytes at a pace, and counts the answers for the reader.
#[derive(Drop)]
struct PacedWriter<'a> {
    written: Vec<u8>,
    pace: Pace,
    /// Number of writes.
    calls: usize,
    /// Number of answers that were written.
    answered: &'a Cell<usize>,
    /// Number of flushes.
    flushes: usize,
}

impl<'a> PacedWriter<'a> {
    fn new(alloc: Global, pace: Pace, answered: &'a Cell<usize>) -> PacedWriter<'a> {
        PacedWriter {
            written: Vec::new(alloc),
            pace,
            calls: 0,
            answered,
            flushes: 0,
        }
    }
}

impl Write for PacedWriter<'_> {
    fn write(&mut self, buf: &[u8]) -> io::Result<usize> {
        let call = self.calls;
        self.calls = call.saturating_add(1);
        if call == self.pace.fails_at {
            return Err(failure(&self.pace));
        }
        let count = self.pace.limit.min(buf.len());
        self.pace.limit = self.pace.limit.saturating_add(self.pace.growth);
        let accepted = &buf[..count];
        self.written.extend_from_slice(accepted)?;
        let lines = self.answered.get().saturating_add(line_count(accepted));
        self.answered.set(lines);
        Ok(count)
    }

    fn flush(&mut self) -> io::Result<()> {
        self.flushes = self.flushes.saturating_add(1);
        if self.pace.fails_at == FLUSH {
            return Err(failure(&self.pace));
        }
        Ok(())
    }
}

/// Returns whether the call at the index `fails_at` was the last one of `calls` calls; `true` if no
/// such call fails.
fn ended_at(calls: usize, fails_at: usize) -> bool {
    fails_at >= FLUSH || calls == fails_at.saturating_add(1)
}

/// Asserts that a run over `text`, with the paces of its reads and of its writes, has this outcome
/// and has written `written`. Asserts also: Before each read, all answers that are due have been
/// written. A read requests 8 KiB. A call that failed is not repeated. If a write accepts
/// everything, there is at most one write more than there are reads. There is one flush, unless a
/// read or a write failed.
fn assert_run(
    rt: &impl Abort,
    alloc: Global,
    text: &[u8],
    paces: (Pace, Pace),
    outcome: Result<(), RunError>,
    written: &[u8],
) {
    let (reads, writes) = paces;
    let answered = Cell::new(0);
    let mut input = PacedReader::new(text, reads, &answered);
    let mut output = PacedWriter::new(alloc, writes, &answered);
    assert!(rt; run(alloc, &mut input, &mut output) == outcome);
    assert!(rt; output.written.as_slice() == written);
    assert!(rt; !input.is_late && input.requested == 8192);
    assert!(rt; ended_at(input.calls, reads.fails_at) && ended_at(output.calls, writes.fails_at));
    assert!(rt; writes.limit != NEVER || output.calls <= input.calls.saturating_add(1));
    let is_flushed = outcome.is_ok() || writes.fails_at == FLUSH;
    assert!(rt; (output.flushes == 1) == is_flushed && output.flushes <= 1);
}

/// Checks each read that fails, also the one at the end of the text. The answers to the lines that
/// were read before are written.
#[test]
fn each_read_fails(rt: HostRuntime) {
    let text = INPUT.as_bytes();
    for limit in 1..10 {
        for fails_at in 0..=text.len().div_ceil(limit) {
            let read = limit.saturating_mul(fails_at).min(text.len());
            let end = ANSWER_ENDS
                .get(line_count(&text[..read]))
                .copied()
                .unwrap_or(0);
            let written = OUTPUT.as_bytes().get(..end).unwrap_or(b"");
            // The last argument selects another error for each limit.
            let paces = (failing(limit, fails_at, limit), steady(limit));
            let failed = Err(RunError::Read);
            assert_run(&rt, rt.alloc(), text, paces, failed, written);
        }
    }
}

/// Checks each write that fails. What was accepted before is written.
#[test]
fn each_write_fails(rt: HostRuntime) {
    let whole = OUTPUT.as_bytes();
    for limit in 1..10 {
        // With writes of one byte, reads have one byte too.
        let read = if limit == 1 { 1 } else { NEVER };
        for fails_at in 0..whole.len().div_ceil(limit) {
            let written = &whole[..limit.saturating_mul(fails_at).min(whole.len())];
            // The last argument selects another error for each limit.
            let paces = (steady(read), failing(limit, fails_at, limit));
            let failed = Err(RunError::Write);
            assert_run(&rt, rt.alloc(), INPUT.as_bytes(), paces, failed, written);
        }
    }
}

/// Checks that a flush fails, that a write accepts no bytes, and that the last line lacks its line
/// feed.
#[test]
fn ends_of_a_run(rt: HostRuntime) {
    let unended = INPUT.strip_suffix('\n').unwrap_or("");
    // The first line without its line feed, and its answer.
    let (first, first_answer) = (
        INPUT.get(..56).unwrap_or(""),
        OUTPUT.get(..52).unwrap_or(""),
    );
    let failed = Err(RunError::Write);
    // `limit` and `fails_at` are about the writer: a limit of 0 accepts no bytes.
    for (text, limit, fails_at, outcome, written) in [
        (INPUT, NEVER, FLUSH, failed, OUTPUT),
        (INPUT, 1, FLUSH, failed, OUTPUT),
        (INPUT, 0, NEVER, failed, ""),
        ("", NEVER, FLUSH, failed, ""),
        ("", NEVER, NEVER, Ok(()), ""),
        (unended, NEVER, NEVER, Ok(()), OUTPUT),
        (unended, 1, NEVER, Ok(()), OUTPUT),
        (first, NEVER, NEVER, Ok(()), first_answer),
    ] {
        let paces = (steady(NEVER), failing(limit, fails_at, 1));
        let (text, written) = (text.as_bytes(), written.as_bytes());
        assert_run(&rt, rt.alloc(), text, paces, outcome, written);
    }
}

/// Checks that a read, a write or the flush that fails with any error ends the run with `Read` or
/// `Write`.
#[test]
fn each_error_of_a_stream(rt: HostRuntime) {
    for error in 0..ERRORS.len() {
        for (read_fails, write_fails, failed, written) in [
            (0, NEVER, RunError::Read, ""),
            (1, NEVER, RunError::Read, OUTPUT),
            (NEVER, 0, RunError::Write, ""),
            (NEVER, FLUSH, RunError::Write, OUTPUT),
        ] {
            let reads = failing(NEVER, read_fails, error);
            let paces = (reads, failing(NEVER, write_fails, error));
            let (text, written) = (INPUT.as_bytes(), written.as_bytes());
            assert_run(&rt, rt.alloc(), text, paces, Err(failed), written);
        }
    }
}

/// Asserts that all answers are written if reads, writes or both move at most `limit` bytes in a
/// call.
fn assert_run_in_chunks(rt: &impl Abort, alloc: Global, text: &[u8], written: &[u8], limit: usize) {
    for (read, write) in [(limit, NEVER), (NEVER, limit), (limit, limit)] {
        let paces = (steady(read), steady(write));
        assert_run(rt, alloc, text, paces, Ok(()), written);
    }
}

/// The start of a line with a netlink message of type `NLMSG_DONE`, whose payload has 70,000 bytes.
const DONE: &str = "netlink 80110100030000000000000000000000";

/// In each row: a long line, and its answer, both without the last line feed. The lines: many empty
/// lines, which have the longest answers for their length; a line that is longer than the buffer
/// that a run retains; and a line with a long answer. This answer has the fields of the netlink
/// header and the payload.
const LONG: [(Repeated, Repeated); 3] = [
    (("", "\n", 9_000, ""), ("", "bad line\n", 9_000, "bad line")),
    (("unixreq ", "00", 70_000, ""), ("ok 01", "00", 23, "")),
    (
        (DONE, "5a", 70_000, ""),
        ("ok 70016 3 0 0 0 ", "5a", 70_000, ""),
    ),
];

/// Returns 100 times `lines`, then the line `long`, which may be longer than any read, and `lines`
/// once more.
fn among_lines(rt: &impl Abort, alloc: Global, lines: &str, long: Repeated) -> String {
    let many = lines.repeat(alloc, 100).expect(rt, "memory");
    let long = repeated(rt, alloc, long);
    let parts = [many.as_str(), long.as_str(), "\n", lines];
    parts.concat(alloc).expect(rt, "memory")
}

#[test]
fn chunks_of_any_size(rt: HostRuntime) {
    let alloc = rt.alloc();
    for (long, answered) in LONG {
        let text = among_lines(&rt, alloc, INPUT, long);
        let written = among_lines(&rt, alloc, OUTPUT, answered);
        for limit in [
            1, 2, 3, 7, 64, 1_000, 4_095, 4_096, 4_097, 5_003, 8_191, 8_192, 8_193, 100_003,
        ] {
            assert_run_in_chunks(&rt, alloc, text.as_bytes(), written.as_bytes(), limit);
        }
    }
}

/// In each row: a line of 1 MiB, and its answer. The first line is a UNIX request of 24 bytes with
/// others after it. The second one is an `NLMSG_DONE`, whose answer has 1 MiB, too.
const LONGEST: [(Repeated, Repeated); 2] = [
    (("unixreq ", "00", 524_288, ""), ("ok 01", "00", 23, "")),
    (
        (
            "netlink 00000800030000000000000000000000",
            "5a",
            524_272,
            "",
        ),
        ("ok 524288 3 0 0 0 ", "5a", 524_272, ""),
    ),
];

/// Checks lines of 1 MiB.
#[test]
fn longest_lines(rt: HostRuntime) {
    let alloc = rt.alloc();
    for (long, answered) in LONGEST {
        let text = repeated(&rt, alloc, long);
        let written = repeated(&rt, alloc, answered);
        let written = [written.as_str(), "\n"].concat(alloc).expect(&rt, "memory");
        for limit in [1, 8_191] {
            assert_run_in_chunks(&rt, alloc, text.as_bytes(), written.as_bytes(), limit);
        }
    }
}

/// Asserts that the lines, repeated `times` times, are answered by the answers, repeated as often,
/// at these paces of reads and of writes.
fn assert_run_of_many(
    rt: &impl Abort,
    alloc: Global,
    (lines, answers): (&str, &str),
    times: usize,
    paces: (Pace, Pace),
) {
    let text = lines.as_bytes().repeat(alloc, times).expect(rt, "memory");
    let written = answers.as_bytes().repeat(alloc, times).expect(rt, "memory");
    assert_run(rt, alloc, &text, paces, Ok(()), &written);
}

/// Checks a hundred thousand lines (`INPUT` has three), and a million reads and writes of one byte
/// or of odd sizes.
#[test]
fn many_lines_and_reads(rt: HostRuntime) {
    for (times, read, write) in [
        (33_334, NEVER, NEVER),
        (6_000, 1, NEVER),
        (6_000, 1, 1),
        (6_000, 3, 7),
        (6_000, 8_191, 1_021),
    ] {
        let paces = (steady(read), steady(write));
        assert_run_of_many(&rt, rt.alloc(), (INPUT, OUTPUT), times, paces);
    }
}

/// Checks reads of 1 byte, then of 8, of 15, and so on, to 8 KiB, and such writes. These sizes add
/// up to almost 5 MB: so long are the input of the first run and the output of the second.
#[test]
fn chunks_that_grow(rt: HostRuntime) {
    let growing = Pace {
        growth: 7,
        ..steady(1)
    };
    let paces = (growing, steady(NEVER));
    assert_run_of_many(&rt, rt.alloc(), (INPUT, OUTPUT), 28_000, paces);
    let paces = (steady(NEVER), growing);
    assert_run_of_many(&rt, rt.alloc(), ("\n", "bad line\n"), 540_000, paces);
}

/// Checks that one run answers lines of each size as `answer` does.
#[test]
fn lines_of_each_size(rt: HostRuntime) {
    let alloc = rt.alloc();
    let (mut text, mut written) = (Vec::new(alloc), Vec::new(alloc));
    for size in (0..301).chain(LARGE) {
        let line = repeated(&rt, alloc, ("unixreq ", "01", size, "\n"));
        text.extend_from_slice(line.as_bytes())
            .expect(&rt, "memory");
        let line = line.strip_suffix('\n').unwrap_or("");
        let answered = answer(alloc, line.as_bytes()).expect(&rt, "memory");
        written.extend_from_slice(&answered).expect(&rt, "memory");
        written.push(b'\n').expect(&rt, "memory");
    }
    for limit in [7, NEVER] {
        assert_run_in_chunks(&rt, alloc, &text, &written, limit);
    }
}

/// Checks a text of each byte. It has two lines, since one byte is a line feed.
#[test]
fn each_byte_is_read(rt: HostRuntime) {
    let alloc = rt.alloc();
    let mut text = Vec::new(alloc);
    for byte in 0..=u8::MAX {
        text.push(byte).expect(&rt, "memory");
    }
    for limit in [1, 3, 256] {
        assert_run_in_chunks(&rt, alloc, &text, b"bad line\nbad line\n", limit);
    }
}

/// Asserts that a run writes `expected` to standard error, if the read with the index `read_fails`
/// and the write with the index `write_fails` fail. Reads and writes move one byte.
fn assert_reported(
    rt: &impl Abort,
    alloc: Global,
    read_fails: usize,
    write_fails: usize,
    expected: &str,
) {
    let answered = Cell::new(0);
    let (mut reads, mut writes) = (steady(1), steady(1));
    reads.fails_at = read_fails;
    writes.fails_at = write_fails;
    let mut input = PacedReader::new(INPUT.as_bytes(), reads, &answered);
    let mut output = PacedWriter::new(alloc, writes, &answered);
    let mut errors = Vec::new(alloc);
    let _status = run_to_status(alloc, false, &mut input, &mut output, &mut errors);
    assert!(rt; errors.as_slice() == expected.as_bytes());
}

#[test]
fn reports_on_errors_why_it_failed(rt: HostRuntime) {
    // The first read fails, a read within the first line, the flush, and no call.
    for (read_fails, write_fails, expected) in [
        (0, NEVER, "sockdiag: reading failed\n"),
        (30, NEVER, "sockdiag: reading failed\n"),
        (NEVER, FLUSH, "sockdiag: writing failed\n"),
        (NEVER, NEVER, ""),
    ] {
        assert_reported(&rt, rt.alloc(), read_fails, write_fails, expected);
    }
}
