//! Two requests and four replies with each byte changed, and truncated at each byte.

use super::parsers::{Report, Subject, parse_all, parse_all_and_compare};
use super::{ABSTRACT, INET, PATH, PEER, SHUTDOWN, UNIX_REQUEST, ZEROS, bytes};
use std::alloc::Global;
use std::process::Abort;

/// A request for UDP sockets over IPv4.
const INET_REQUEST: &[&str] = &["0211000002000000", ZEROS, ZEROS, ZEROS];

/// Adds one input to the tally: at index 0 if the input is parsed as the original value, at 1 if it
/// is parsed as another value, and at the code of its error if it is rejected. Asserts that the
/// input has the original canonical form if and only if it is parsed as the original value. Errors
/// with a code above 10, which is the last index, are not counted.
fn add_to_tally(rt: &impl Abort, tally: &mut [u32; 11], original: &Report, report: &Report) {
    assert!(rt; report.is_original == (report.form == original.form));
    let index = match report.error {
        None => u8::from(!report.is_original),
        Some(error) => error.number(),
    };
    if let Some(count) = tally.get_mut(usize::from(index)) {
        *count = count.saturating_add(1);
    }
}

/// Returns the bytes with `change` applied to the byte at `offset`, by exclusive or.
pub(super) fn changed(
    rt: &impl Abort,
    alloc: Global,
    whole: &[u8],
    offset: usize,
    change: u8,
) -> Vec<u8> {
    let mut bytes = Vec::from_slice(alloc, whole).expect(rt, "memory");
    if let Some(byte) = bytes.get_mut(offset) {
        *byte ^= change;
    }
    bytes
}

/// Calls all parsers and serializers with the bytes `whole`, each time with the byte at `offset`
/// changed to another value, and adds these 255 inputs to the tally.
fn add_changes(
    rt: &impl Abort,
    alloc: Global,
    subject: Subject,
    whole: &[u8],
    offset: usize,
    original: &Report,
    tally: &mut [u32; 11],
) {
    for change in 1..=u8::MAX {
        let changed = changed(rt, alloc, whole, offset, change);
        let report = parse_all_and_compare(rt, alloc, subject, &changed, whole);
        add_to_tally(rt, tally, original, &report);
    }
}

/// Calls all parsers and serializers with the bytes in `parts`, each time with one byte changed to
/// another value, for all such changes. Asserts that the tally (`add_to_tally`) starts with
/// `counts`.
fn assert_changes(
    rt: &impl Abort,
    alloc: Global,
    subject: Subject,
    parts: &[&str],
    counts: &[u32],
) {
    let whole = bytes(rt, alloc, parts);
    let original = parse_all(rt, alloc, subject, &whole);
    assert!(rt; original.form.is_ok(), "refused");
    let mut tally = [0; 11];
    for offset in 0..whole.len() {
        add_changes(rt, alloc, subject, &whole, offset, &original, &mut tally);
    }
    assert!(rt; tally.starts_with(counts), "{tally:?}");
}

#[test]
fn requests(rt: HostRuntime) {
    let alloc = rt.alloc();
    let counts = [2552, 3568, 0, 0, 0, 0, 0, 0, 0, 0, 0];
    assert_changes(&rt, alloc, Subject::UnixRequest, &[UNIX_REQUEST], &counts);
    let counts = [6901, 7125, 0, 254, 0, 0, 0, 0, 0, 0, 0];
    assert_changes(&rt, alloc, Subject::InetRequest, INET_REQUEST, &counts);
}

// For a UNIX reply, only the number of inputs that are parsed as the original value is checked.
#[test]
fn replies_with_paths(rt: HostRuntime) {
    let alloc = rt.alloc();
    assert_changes(&rt, alloc, Subject::UnixReply, &[PATH], &[1284]);
    assert_changes(&rt, alloc, Subject::UnixReply, &[PEER], &[1542]);
}

#[test]
fn a_reply_with_an_abstract_name(rt: HostRuntime) {
    assert_changes(&rt, rt.alloc(), Subject::UnixReply, &[ABSTRACT], &[1284]);
}

#[test]
fn an_inet_reply(rt: HostRuntime) {
    let alloc = rt.alloc();
    let counts = [7143, 12488, 3, 254, 0, 0, 0, 0, 4, 502, 6];
    assert_changes(&rt, alloc, Subject::InetReply, &[INET, SHUTDOWN], &counts);
}

/// Calls all parsers and serializers with each proper prefix of the bytes in `parts`. Asserts that
/// the tally (`add_to_tally`) is `counts`.
fn assert_prefixes(
    rt: &impl Abort,
    alloc: Global,
    subject: Subject,
    parts: &[&str],
    counts: [u32; 11],
) {
    let whole = bytes(rt, alloc, parts);
    let original = parse_all(rt, alloc, subject, &whole);
    let mut tally = [0; 11];
    for len in 0..whole.len() {
        let prefix = whole.get(..len).expect(rt, "no prefix");
        let report = parse_all_and_compare(rt, alloc, subject, prefix, &whole);
        add_to_tally(rt, &mut tally, &original, &report);
    }
    assert!(rt; tally == counts, "{tally:?}");
}

#[test]
fn truncated_requests(rt: HostRuntime) {
    let alloc = rt.alloc();
    let counts = [0, 0, 24, 0, 0, 0, 0, 0, 0, 0, 0];
    assert_prefixes(&rt, alloc, Subject::UnixRequest, &[UNIX_REQUEST], counts);
    let counts = [0, 0, 56, 0, 0, 0, 0, 0, 0, 0, 0];
    assert_prefixes(&rt, alloc, Subject::InetRequest, INET_REQUEST, counts);
}

// The value is the original one if only padding at the end is missing. It is another one if the
// last attributes are missing.
#[test]
fn truncated_replies(rt: HostRuntime) {
    let alloc = rt.alloc();
    let counts = [3, 3, 16, 0, 0, 0, 0, 9, 0, 29, 0];
    assert_prefixes(&rt, alloc, Subject::UnixReply, &[PATH], counts);
    let counts = [3, 5, 16, 0, 0, 0, 0, 12, 0, 32, 0];
    assert_prefixes(&rt, alloc, Subject::UnixReply, &[PEER], counts);
    let counts = [3, 3, 16, 0, 0, 0, 0, 9, 0, 53, 0];
    assert_prefixes(&rt, alloc, Subject::UnixReply, &[ABSTRACT], counts);
    let counts = [3, 1, 72, 0, 0, 0, 0, 3, 0, 1, 0];
    assert_prefixes(&rt, alloc, Subject::InetReply, &[INET, SHUTDOWN], counts);
}

// A message of fewer than 2 bytes is rejected with its own error, 4 (`MessageTooShort`).
#[test]
fn truncated_messages(rt: HostRuntime) {
    let alloc = rt.alloc();
    let counts = [3, 3, 14, 0, 2, 0, 0, 9, 0, 29, 0];
    assert_prefixes(&rt, alloc, Subject::Message, &[PATH], counts);
    let counts = [3, 5, 14, 0, 2, 0, 0, 12, 0, 32, 0];
    assert_prefixes(&rt, alloc, Subject::Message, &[PEER], counts);
    let counts = [3, 3, 14, 0, 2, 0, 0, 9, 0, 53, 0];
    assert_prefixes(&rt, alloc, Subject::Message, &[ABSTRACT], counts);
    let counts = [3, 1, 70, 0, 2, 0, 0, 3, 0, 1, 0];
    assert_prefixes(&rt, alloc, Subject::Message, &[INET, SHUTDOWN], counts);
}
