//! Names and attributes of each size: no allocation fails if there is memory.

use super::assert_debug;
use super::attributes::{Subject, examine};
use netlink_core::NlaBuffer;
use sock_diag_attributes::unix::nlas::NlaView;
use std::alloc::{AllocError, Global};
use std::process::Abort;

/// Returns the bytes of an attribute of this length and kind. Each byte of the value is `byte`.
pub(super) fn attribute(
    alloc: Global,
    length: u16,
    kind: u8,
    byte: u8,
) -> Result<Vec<u8>, AllocError> {
    let [low, high] = length.to_le_bytes();
    let mut bytes = Vec::from_slice(alloc, &[low, high, kind, 0])?;
    bytes.resize(usize::from(length), byte)?;
    Ok(bytes)
}

/// Asserts that the bytes are parsed as a value of this type, which is copied from its view,
/// printed and serialized.
fn assert_fits(rt: &impl Abort, alloc: Global, subject: Subject, bytes: &[u8]) {
    let report = examine(rt, alloc, subject, bytes).expect(rt, "refused");
    assert!(rt; report.written.is_ok() && report.form.is_ok());
}

/// Sizes from 512 to 1,000,000. Tests of sizes also have each size up to 300.
pub(super) const SIZES: [usize; 17] = [
    512, 1_000, 1_024, 2_048, 4_096, 8_192, 10_000, 16_384, 32_768, 65_531, 65_532, 65_536,
    100_000, 131_072, 262_144, 524_288, 1_000_000,
];

/// Checks a pathname and an abstract name of this size.
fn names_of_size(rt: &impl Abort, alloc: Global, size: usize) {
    name_of_size(rt, alloc, size, b'a');
    name_of_size(rt, alloc, size, 0);
}

/// Checks the name that begins with this byte, followed by `a` up to the size, and a zero byte.
fn name_of_size(rt: &impl Abort, alloc: Global, size: usize, first: u8) {
    let mut bytes = vec![in alloc; first; 1].expect(rt, "memory");
    bytes.resize(size, b'a').expect(rt, "memory");
    bytes.push(0).expect(rt, "memory");
    assert_fits(rt, alloc, Subject::Name, &bytes);
}

#[test]
fn names(rt: HostRuntime) {
    for size in 0..301 {
        names_of_size(&rt, rt.alloc(), size);
    }
    for &size in &SIZES {
        names_of_size(&rt, rt.alloc(), size);
    }
}

/// Lengths of attributes, including the 4 bytes of the header, from 516 to 65,532. All are
/// multiples of 4.
const LENGTHS: [u16; 11] = [
    516, 1_004, 1_028, 2_052, 4_100, 8_196, 10_004, 16_388, 32_772, 50_004, 65_532,
];

/// Checks an attribute of this kind, whose length is `length + more`. Each byte of the value is
/// `byte`.
fn assert_length_fits(
    rt: &impl Abort,
    alloc: Global,
    subject: Subject,
    length: u16,
    (kind, byte, more): (u8, u8, u16),
) {
    let bytes = attribute(alloc, length.saturating_add(more), kind, byte);
    assert_fits(rt, alloc, subject, &bytes.expect(rt, "memory"));
}

/// Checks an abstract name (`UNIX_DIAG_NAME`, 0) in an attribute of `length + 1` bytes, and
/// attributes of an unknown kind (7) of `length` and `length + 3` bytes.
fn unix_attributes_of(rt: &impl Abort, alloc: Global, length: u16) {
    assert_length_fits(rt, alloc, Subject::UnixAttribute, length, (0, 0, 1));
    assert_length_fits(rt, alloc, Subject::UnixAttribute, length, (7, 1, 0));
    assert_length_fits(rt, alloc, Subject::UnixAttribute, length, (7, 1, 3));
}

#[test]
fn unix_attributes(rt: HostRuntime) {
    for length in 4..305 {
        unix_attributes_of(&rt, rt.alloc(), length);
    }
    for &length in &LENGTHS {
        unix_attributes_of(&rt, rt.alloc(), length);
    }
}

/// Asserts that the attribute, a list of `u32`, is parsed, copied from its view, printed, and
/// serialized.
fn assert_numbers_fit(rt: &impl Abort, alloc: Global, bytes: &[u8]) {
    assert_fits(rt, alloc, Subject::UnixAttribute, bytes);
    let nla = NlaBuffer::new_checked(bytes).expect(rt, "refused");
    let NlaView::PendingConnections(numbers) = NlaView::parse(&nla).expect(rt, "refused") else {
        panic!(rt; "no numbers");
    };
    assert!(rt; numbers.to_owned(alloc).is_ok());
}

/// Numbers of elements of lists of `u32`, from 512 to the most that an attribute can have.
const COUNTS: [u16; 7] = [512, 1_000, 1_024, 4_096, 8_192, 10_000, 16_382];

/// Checks a list of this many `u32` (`UNIX_DIAG_ICONS`, 3).
fn numbers_of(rt: &impl Abort, alloc: Global, count: u16) {
    let length = count.saturating_add(1).saturating_mul(4);
    let bytes = attribute(alloc, length, 3, 1).expect(rt, "memory");
    assert_numbers_fit(rt, alloc, &bytes);
}

#[test]
fn lists_of_numbers(rt: HostRuntime) {
    for count in 0..301 {
        numbers_of(&rt, rt.alloc(), count);
    }
    for &count in &COUNTS {
        numbers_of(&rt, rt.alloc(), count);
    }
}

/// Checks a text (`INET_DIAG_CONG`, 4) in an attribute of `length + 2` bytes, and attributes of an
/// unknown kind (3) of `length` and `length + 3` bytes.
fn inet_attributes_of(rt: &impl Abort, alloc: Global, length: u16) {
    assert_length_fits(rt, alloc, Subject::InetAttribute, length, (4, b'a', 2));
    assert_length_fits(rt, alloc, Subject::InetAttribute, length, (3, 1, 0));
    assert_length_fits(rt, alloc, Subject::InetAttribute, length, (3, 1, 3));
}

#[test]
fn inet_attributes(rt: HostRuntime) {
    for length in 4..305 {
        inet_attributes_of(&rt, rt.alloc(), length);
    }
    for &length in &LENGTHS {
        inet_attributes_of(&rt, rt.alloc(), length);
    }
}

// The longest text fills its attribute, and leaves no byte for the terminating NUL that the
// serializer appends.
#[test]
fn the_longest_text(rt: HostRuntime) {
    let alloc = rt.alloc();
    let long = attribute(alloc, u16::MAX, 4, b'a').expect(&rt, "memory");
    let report = examine(&rt, alloc, Subject::InetAttribute, &long).expect(&rt, "refused");
    assert_debug(&rt, alloc, &report.form, "Err(Unwritable)");
}
