//! Time of the capture of a packet.

ghost use Rattle.std.specs.Prelude.{◌≡◌, ◌++◌, OnOk};
ghost use Rattle.sslist_texts.specs.Times.{IsUtcText, nanoseconds, time_text, utc_text};

use arrayvec::ArrayString;
use jiff::Timestamp;
use jiff::fmt::temporal::DateTimePrinter;
use netlink_captures::{PacketHeader, TimeUnit};
use std::alloc::AllocError;

/// Number of nanoseconds in a second.
const NANOSECONDS_PER_SECOND: u64 = 1_000_000_000;

/// Number of nanoseconds in a microsecond.
const NANOSECONDS_PER_MICROSECOND: u64 = 1000;

/// Number of digits of the fraction of a second.
const FRACTION_DIGITS: u8 = 9;

/// Appends the time at which the packet with this header was captured, in UTC, as ISO 8601 with
/// nine digits of the fraction of a second. A fraction of a second or more, which a capture may
/// contain, is added to the seconds.
pub fn push_time(text: &mut Vec<u8>, header: &PacketHeader) -> Result<(), AllocError>
    ensures { OnOk result (text.new.items ≡ text.old.items ++ time_text header.now) }
{
    text.extend_from_slice(utc_text(nanoseconds(header)).as_str().as_bytes())
}

/// Returns the time at which the packet with this header was captured, in nanoseconds since the
/// start of 1970, UTC.
fn nanoseconds(header: &PacketHeader) -> u64
    ensures { result ≡ nanoseconds header.now }
{
    let fraction = match header.unit {
        TimeUnit::Microseconds => u64::from(header.fraction) * NANOSECONDS_PER_MICROSECOND,
        TimeUnit::Nanoseconds => u64::from(header.fraction),
    };
    u64::from(header.seconds) * NANOSECONDS_PER_SECOND + fraction
}

/// Returns the text of the time that is this number of nanoseconds after the start of 1970, UTC.
fn utc_text(nanoseconds: u64) -> ArrayString<33>
    ensures text { result.bytes ≡ utc_text nanoseconds }
    ensures iso { IsUtcText nanoseconds result.bytes }
{
    let Ok(time) = Timestamp::from_nanosecond(i128::from(nanoseconds)) else {
        // The greatest `u64` is in the year 2554, which is in jiff's range.
        unreachable!();
    };
    let printer = DateTimePrinter::new().precision(Some(FRACTION_DIGITS));
    printer.timestamp_text(time.to_plain())
}
