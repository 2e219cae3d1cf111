//! The tests of `sock_diag_lines`, and of the reads and writes of `program_streams`.

use sock_diag_lines::RunError;
use std::alloc::Global;
use std::process::Abort;

mod long_lines;
mod streams;

/// Three lines with requests for UNIX sockets: in canonical form; with ignored bits and bytes after
/// the record; and too short.
const INPUT: &str = "unixreq 01000000020400003412000004000000ffffffffffffffff\n\
unixreq 0709ffffffffffff34120000ffffffffffffffffffffffffaabbcc\n\
unixreq 01000000020400003412000004000000ffffffffffffff\n";

/// The answers to the lines of `INPUT`.
const OUTPUT: &str = "ok 01000000020400003412000004000000ffffffffffffffff\n\
ok 0100000002040000341200003f000000ffffffffffffffff\n\
refused 2\n";

/// Sizes of messages in bytes, above 300 and up to 512 KiB, which is 1 MiB in hex digits. Tests
/// also use each size up to 300.
const LARGE: [usize; 14] = [
    512, 1_000, 1_024, 2_048, 4_096, 8_192, 10_000, 16_384, 32_768, 65_536, 100_000, 131_072,
    262_144, 524_288,
];

/// A text: a prefix, a part, how often the part is repeated, and a suffix.
type Repeated = (&'static str, &'static str, usize, &'static str);

/// Returns the text: the prefix, the repeated part, and the suffix.
fn repeated(rt: &impl Abort, alloc: Global, text: Repeated) -> String {
    let (prefix, part, times, suffix) = text;
    let parts = part.repeat(alloc, times).expect(rt, "memory");
    [prefix, parts.as_str(), suffix]
        .concat(alloc)
        .expect(rt, "memory")
}

#[test]
fn errors_of_a_run_have_texts(rt: HostRuntime) {
    for (error, expected) in [
        (RunError::Read, "Read: reading failed"),
        (RunError::Write, "Write: writing failed"),
        (RunError::Memory, "Memory: out of memory"),
    ] {
        let text = format!(in rt.alloc(); "{error:?}: {error}").expect(&rt, "memory");
        assert!(rt; text.as_str() == expected, "{text}");
    }
}
