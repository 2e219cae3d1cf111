//! Tests of `sslist_lister`, `sslist_texts`, `netlink_captures` and `program_streams`: texts of
//! errors, writers that accept few bytes and whose flush fails. `tests/captures.py` compares what
//! the program writes for captures.

use netlink_core::{DecodeError, RecordName};
use sslist_lister::{
    CaptureError, HEADING, ListError, Options, ReadError, WriteError, push_decode_error, run,
    run_to_status,
};
use std::alloc::Global;
use std::io::{self, ErrorKind, Write};
use std::process::Abort;

/// Prefix of each line on standard error.
const LINE_PREFIX: &str = "sslist: ";

/// A writer that accepts at most nine bytes per call. It records whether its last call was a flush.
/// A flush fails with the error in `flush_fails`, if there is one.
#[derive(Drop)]
struct SlowWriter {
    written: Vec<u8>,
    is_flushed: bool,
    flush_fails: Option<ErrorKind>,
}

impl Write for SlowWriter {
    fn write(&mut self, buf: &[u8]) -> io::Result<usize> {
        self.is_flushed = false;
        let part = &buf[..buf.len().min(9)];
        self.written.extend_from_slice(part)?;
        Ok(part.len())
    }

    fn flush(&mut self) -> io::Result<()> {
        if let Some(kind) = self.flush_fails {
            return Err(io::Error::from(kind));
        }
        self.is_flushed = true;
        Ok(())
    }
}

/// Returns a writer that has received no bytes, and whose flush does not fail.
fn slow_writer(alloc: Global) -> SlowWriter {
    SlowWriter {
        written: Vec::new(alloc),
        is_flushed: false,
        flush_fails: None,
    }
}

/// The texts of errors that no input causes, and some others.
#[test]
fn errors_of_a_run_have_texts(rt: HostRuntime) {
    let (packet, error) = (2, CaptureError::Read(ReadError::Other));
    let (in_packet, memory) = (ListError::Packet { packet, error }, ListError::Memory);
    let (capture_memory, directory, os_error) = (
        CaptureError::Memory,
        CaptureError::Read(ReadError::Directory),
        CaptureError::Read(ReadError::Os(5)),
    );
    let text = format!(in rt.alloc();
        "{in_packet}, {memory}, {capture_memory}, {directory}, {os_error}"
    );
    let text = text.expect(&rt, "memory");
    let expected_text = "packet 2: reading failed, out of memory, out of memory, \
the input is a directory; name the captures in it, reading failed (os error 5: input/output error)";
    assert!(rt; text.as_str() == expected_text);
    let (full, closed) = (
        ListError::Write(WriteError::Os(28)),
        ListError::Write(WriteError::Closed),
    );
    let (no_capture, version) = (
        CaptureError::NoCapture(0xa0b),
        CaptureError::OtherVersion(1),
    );
    let text = format!(in rt.alloc(); "{full}, {closed}, {no_capture}, {version}");
    let text = text.expect(&rt, "memory");
    let expected_text = "writing to standard output failed (os error 28: no space left on device), \
the output pipe is closed, \
not a capture (pcap or pcapng, as tcpdump -w writes): it begins with 0x00000a0b, \
unsupported pcap version 1, expected 2";
    assert!(rt; text.as_str() == expected_text);
}

/// Checks that `sslist` shows a decode error by the text of its `Display`.
fn assert_shown_by_display(rt: &impl Abort, alloc: Global, error: DecodeError) {
    let text = format!(in alloc; "{error}").expect(rt, "memory");
    let mut shown = Vec::new(alloc);
    push_decode_error(&mut shown, &error).expect(rt, "memory");
    assert!(rt; shown.as_slice() == text.as_bytes(), "{text}");
}

/// Each decode error, and each record that a decode error names.
#[test]
fn decode_errors_have_their_own_texts(rt: HostRuntime) {
    let (family, message_type, kind) = (3, 21, Some(6));
    let (got, need, left, index) = (5, 72, 2, 9);
    let decode_errors = [
        DecodeError::Memory,
        DecodeError::UnsupportedFamily { family },
        DecodeError::MessageTooShort { got },
        DecodeError::UnknownFamily { family },
        DecodeError::UnknownMessageType { message_type },
        DecodeError::AttributeHeaderCut { left },
        DecodeError::AttributeLengthUnder4 { length: 3 },
        DecodeError::AttributeLengthPast { length: 8, left },
        DecodeError::WrongLength { kind, got, need },
        DecodeError::NotMultipleOfFour { got },
        DecodeError::NotUtf8,
        DecodeError::NameEmpty,
        DecodeError::NameInnerZero { index },
        DecodeError::NameWithoutEnd,
        DecodeError::EnvelopeCut { got },
        DecodeError::EnvelopeLengthUnder16 { length: 7 },
        DecodeError::EnvelopeLengthPast { length: 40, got },
    ];
    for error in decode_errors {
        assert_shown_by_display(&rt, rt.alloc(), error);
    }
    let records = [
        RecordName::SocketId,
        RecordName::InetRequest,
        RecordName::InetResponseHeader,
        RecordName::UnixRequest,
        RecordName::UnixResponseHeader,
        RecordName::LegacyMemInfo,
        RecordName::MemInfo,
        RecordName::TcpInfo,
        RecordName::Vfs,
        RecordName::UnixMemInfo,
        RecordName::FamilyRequest { family },
        RecordName::FamilyResponseHeader { family },
        RecordName::FamilyAttribute { family, kind: 6 },
    ];
    for which in records {
        assert_shown_by_display(
            &rt,
            rt.alloc(),
            DecodeError::BufferTooSmall { which, got, need },
        );
    }
}

/// A packet of another protocol with the greatest length is skipped: its bytes are zeros, and
/// `NETLINK_SOCK_DIAG` is 4. A failed flush fails the run.
#[test]
fn ends_of_a_run(rt: HostRuntime) {
    let alloc = rt.alloc();
    // The header of a pcap file in little-endian order (no packet is longer than 0x40000 bytes; the
    // link type is 253, LINKTYPE_NETLINK), and of a packet of this length.
    let headers = "d4c3b2a102000400000000000000000000000400fd000000\
07000000090000000000040000000400";
    let mut capture = hex::decode(alloc, headers).expect(&rt, "digits");
    let end = capture.len().saturating_add(0x40000);
    capture.resize(end, 0).expect(&rt, "memory");
    let (mut output, mut errors) = (slow_writer(alloc), slow_writer(alloc));
    // `run` writes diagnostics as long as this is set, and clears it if a write of them fails.
    let mut is_open = true;
    let (options, mut input) = (Options::default(), capture.as_slice());
    let outcome = run(
        alloc,
        options,
        LINE_PREFIX,
        HEADING,
        &mut input,
        &mut output,
        &mut errors,
        &mut is_open,
    );
    assert!(rt; outcome == Ok(true) && output.is_flushed && output.written.as_slice() == HEADING);
    output.flush_fails = Some(ErrorKind::Other);
    let (options, mut input) = (Options::default(), capture.as_slice());
    let outcome = run(
        alloc,
        options,
        LINE_PREFIX,
        HEADING,
        &mut input,
        &mut output,
        &mut errors,
        &mut is_open,
    );
    assert!(rt; outcome == Err(ListError::Write(WriteError::Other)));
    // A closed output pipe is not reported.
    output.flush_fails = Some(ErrorKind::BrokenPipe);
    let mut input = capture.as_slice();
    let (to_output, to_errors) = (&mut output, &mut errors);
    let _status = run_to_status(
        alloc,
        options,
        LINE_PREFIX,
        HEADING,
        &mut input,
        to_output,
        to_errors,
    );
    assert!(rt; errors.written.is_empty());
}
