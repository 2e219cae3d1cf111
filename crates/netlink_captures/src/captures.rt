//! Captures of netlink traffic in the classic pcap format, as tcpdump(1) writes them, with the link
//! type `LINKTYPE_NETLINK`.
//!
//! In the contracts, `R.left input` are the bytes that the input has left, if known.
//! `R.failed input e` says that a read of it has failed with the error `e`.
//! `Consumes old new bytes` says that these bytes were read. `stopped_input left failed part` is an
//! input at which reading stopped after the bytes `part`.

ghost use Rattle.std.specs.Prelude.{◌≡◌, ◌↔◌, ◌+◌, ◌<◌, ◌≤◌, ◌++◌, ◌⊎◌, ℕ, List, [], length, IfOk};
ghost use Rattle.std.specs.Prelude.{IfErr, OnOk, IsTrue, MatchBool, MatchOption, MatchResult, Some};
ghost use Rattle.std.specs.Io.KnownBytes.{Consumes, IsAtEnd, Keeps};
ghost use Rattle.netlink_captures.specs.Capture.{BeginsCapture, IsFileHeader, IsFileHeaderError};
ghost use Rattle.netlink_captures.specs.Capture.{HasNoPcapMagic, HasPcapMagic, IsNoCaptureError};
ghost use Rattle.netlink_captures.specs.Capture.{IsInputStop, IsPacketRecord, IsPacketStop};
ghost use Rattle.netlink_captures.specs.Capture.{IsPcapMagic, captured_packet, stopped_input};
ghost use Rattle.netlink_captures.specs.Capture.{packet_header_fields, u16_at, u32_at, unit_of};
ghost use Rattle.netlink_captures.specs.ErrorText.{capture_error_text};
ghost use Rattle.program_streams.specs.ErrorText.{error_text_bytes};
ghost use Rattle.netlink_captures.specs.declared.captures.CaptureError.TheVariants.{Memory, Read};

use crate::block_error::BlockError;
use crate::compression::Compression;
use byteorder::{BigEndian, ByteOrder as _, LittleEndian};
use program_streams::{ErrorText, ReadError, Source};
use std::alloc::AllocError;
use std::error::Error;
use std::fmt;

/// Magic number of a pcap file whose timestamps have microseconds.
const MAGIC_MICROSECONDS: u32 = 0xa1b2_c3d4;

/// Magic number of a pcap file whose timestamps have nanoseconds.
const MAGIC_NANOSECONDS: u32 = 0xa1b2_3c4d;

/// Major version of the pcap format, at offset 4 of the file header.
const MAJOR_VERSION: u16 = 2;

/// `LINKTYPE_NETLINK`, the link type of devices of the kind nlmon.
pub(crate) const LINKTYPE_NETLINK: u32 = 253;

/// Number of link types. The link type is in the low 16 bits of the field at offset 20. The high 16
/// bits are not part of it: they have the length of the frame check sequence.
const LINK_TYPES: u32 = 65_536;

/// Length of the file header in bytes.
pub(crate) const FILE_HEADER_LEN: usize = 24;

/// Length of a packet header in bytes.
const PACKET_HEADER_LEN: usize = 16;

/// Length of the cooked header in bytes. It precedes the datagram of a packet.
const COOKED_HEADER_LEN: usize = 16;

/// Greatest length of a packet in bytes, whatever the file header says. It is the default snapshot
/// length of tcpdump(1).
pub(crate) const MAX_PACKET_LEN: u32 = 262_144;

/// `ARPHRD_NETLINK`, the hardware type of a netlink packet.
const ARPHRD_NETLINK: u16 = 824;

/// `NETLINK_SOCK_DIAG`, the netlink protocol of sock_diag(7).
const NETLINK_SOCK_DIAG: u16 = 4;

/// The reason why a header or a packet of a capture could not be read.
#[derive(Clone, Copy, Debug, PartialEq, Eq)]
pub enum CaptureError {
    /// A read failed.
    Read(ReadError),
    /// An allocation failed.
    Memory,
    /// The capture ends within a header, a packet or a block.
    Truncated,
    /// The input has no bytes.
    Empty,
    /// The input has one to three bytes, fewer than a magic number.
    TooShort,
    /// The input is compressed, in this format.
    Compressed(Compression),
    /// The first four bytes are not the magic number of a known format. They are here as a
    /// big-endian number.
    NoCapture(u32),
    /// The major version of the pcap format is not 2. It is here.
    OtherVersion(u16),
    /// The link type is not 253 (`LINKTYPE_NETLINK`). It is here.
    OtherLinkType(u32),
    /// The captured length of a packet is more than `MAX_PACKET_LEN` bytes. It is here.
    PacketTooLong(u32),
    /// Another pcap file begins in place of a packet.
    AnotherCapture,
    /// A block of a pcapng file is invalid.
    Block {
        /// Offset of the block in the file, in bytes.
        offset: u64,
        /// Reason why the block is invalid.
        error: BlockError,
    },
}

impl CaptureError {
    /// Returns the error's text.
    pub fn text(&self) -> ErrorText
        ensures { error_text_bytes result ≡ capture_error_text self.now }
    {
        match self {
            CaptureError::Read(error) => error.text(),
            CaptureError::Memory => ErrorText::Plain("out of memory"),
            CaptureError::Truncated => ErrorText::Plain(
                "the capture is truncated; if it is still being written, record it by tcpdump -U",
            ),
            CaptureError::Empty => {
                ErrorText::Plain("the input is empty; the program that wrote it may have failed")
            }
            CaptureError::TooShort => ErrorText::Plain(
                "not a capture (pcap or pcapng, as tcpdump -w writes): it has fewer than 4 bytes",
            ),
            CaptureError::Compressed(compression) => ErrorText::Plain(compression.text()),
            CaptureError::NoCapture(magic) => ErrorText::Hex(
                "not a capture (pcap or pcapng, as tcpdump -w writes): it begins with 0x",
                *magic,
            ),
            CaptureError::OtherVersion(version) => {
                ErrorText::Decimal(
                    "unsupported pcap version ",
                    u64::from(*version),
                    ", expected 2",
                )
            }
            CaptureError::OtherLinkType(link_type) => {
                ErrorText::Decimal(
                    "unsupported link type ",
                    u64::from(*link_type),
                    ", expected 253 (netlink), as of nlmon0",
                )
            }
            CaptureError::PacketTooLong(count) => ErrorText::Decimal(
                "packet length ",
                u64::from(*count),
                " exceeds the maximum of 262144",
            ),
            CaptureError::AnotherCapture => {
                ErrorText::Plain("another capture begins here; list the files separately")
            }
            CaptureError::Block { offset, error } => {
                ErrorText::Decimal(error.text(), *offset, "")
            }
        }
    }
}

impl fmt::Display for CaptureError {
    ghost output = { λ error. Some (capture_error_text error) };

    fn fmt<W: fmt::Write>(&self, f: &mut fmt::Formatter<W>) -> fmt::Result {
        let text = self.text();
        write!(f, "{text}")
    }
}

impl Error for CaptureError {}

impl From<ReadError> for CaptureError {
    ghost from_gives = { λ error e. e ≡ Read error };

    fn from(error: ReadError) -> CaptureError {
        CaptureError::Read(error)
    }
}

impl From<AllocError> for CaptureError {
    ghost from_gives = { λ _ e. e ≡ Memory };

    fn from(_e: AllocError) -> CaptureError {
        CaptureError::Memory
    }
}

/// The byte order of the numbers in the headers of a capture.
#[derive(Clone, Copy, Debug, PartialEq, Eq)]
pub enum ByteOrder {
    /// Little-endian.
    LittleEndian,
    /// Big-endian.
    BigEndian,
}

impl ByteOrder {
    /// Returns the `u16` at an offset, in this byte order. Both of its bytes must be present.
    pub(crate) fn u16_at(self, bytes: &[u8], offset: usize) -> u16
        requires { offset + 2 ≤ length bytes.now }
        ensures { result ≡ u16_at self offset bytes.now }
    {
        match self {
            ByteOrder::LittleEndian => LittleEndian::read_u16(&bytes[offset..]),
            ByteOrder::BigEndian => BigEndian::read_u16(&bytes[offset..]),
        }
    }

    /// Returns the `u32` at an offset, in this byte order. All four bytes must be present.
    pub(crate) fn u32_at(self, bytes: &[u8], offset: usize) -> u32
        requires { offset + 4 ≤ length bytes.now }
        ensures { result ≡ u32_at self offset bytes.now }
    {
        match self {
            ByteOrder::LittleEndian => LittleEndian::read_u32(&bytes[offset..]),
            ByteOrder::BigEndian => BigEndian::read_u32(&bytes[offset..]),
        }
    }

    /// Returns the byte order in which the first four bytes are a magic number of pcap. Returns
    /// `None` if they are one in neither order.
    pub(crate) fn find(bytes: &[u8]) -> Option<ByteOrder>
        requires { 4 ≤ length bytes.now }
        ensures { MatchOption result (HasNoPcapMagic bytes.now) (HasPcapMagic bytes.now) }
    {
        if is_magic(ByteOrder::LittleEndian.u32_at(bytes, 0)) {
            Some(ByteOrder::LittleEndian)
        } else if is_magic(ByteOrder::BigEndian.u32_at(bytes, 0)) {
            Some(ByteOrder::BigEndian)
        } else {
            None
        }
    }
}

/// Returns whether the number is a magic number of pcap (`IsPcapMagic`), for microseconds or for
/// nanoseconds.
fn is_magic(number: u32) -> bool
    ensures { IsTrue result ↔ IsPcapMagic number }
{
    number == MAGIC_MICROSECONDS || number == MAGIC_NANOSECONDS
}

/// Returns the error of a file that is not a capture: `Compressed` if it begins as a compressed
/// file does, else `NoCapture`. `magic` has its first four bytes, as a big-endian number.
pub(crate) fn no_capture(magic: u32) -> CaptureError
    ensures { IsNoCaptureError magic result }
{
    match Compression::find(magic) {
        Some(compression) => CaptureError::Compressed(compression),
        None => CaptureError::NoCapture(magic),
    }
}

/// The unit of the fraction of a second in a packet header.
#[derive(Clone, Copy, Debug, PartialEq, Eq)]
pub enum TimeUnit {
    /// Microseconds: 1,000,000 in a second.
    Microseconds,
    /// Nanoseconds: 1,000,000,000 in a second.
    Nanoseconds,
}

/// Returns the unit that belongs to a magic number: nanoseconds for `MAGIC_NANOSECONDS`, else
/// microseconds.
fn unit_of(magic: u32) -> TimeUnit
    ensures { result ≡ unit_of magic }
{
    match magic {
        MAGIC_NANOSECONDS => TimeUnit::Nanoseconds,
        _ => TimeUnit::Microseconds,
    }
}

/// The fields of a packet header, without the captured length.
#[derive(Clone, Copy, Debug, PartialEq, Eq)]
pub struct PacketHeader {
    /// Seconds of the capture time since 1970 (UTC), at offset 0.
    pub seconds: u32,
    /// Fraction of a second of the capture time, in `unit`, at offset 4.
    pub fraction: u32,
    /// Unit of `fraction`.
    pub unit: TimeUnit,
    /// Original length of the packet in bytes, at offset 12. It is greater than the captured length
    /// if the packet was truncated.
    pub whole_length: u32,
}

/// The fields of a file header that are needed to read its packets. The snapshot length at offset
/// 16 is not one of them: like tcpdump(1), this reader accepts longer packets.
#[derive(Clone, Copy, Debug, PartialEq, Eq)]
pub struct FileHeader {
    /// Byte order of the numbers in the file header and the packet headers.
    order: ByteOrder,
    /// Unit of the fractions of a second in the packet headers.
    unit: TimeUnit,
}

impl FileHeader {
    /// Parses the file header in the first 24 bytes, which must be present. Bytes after them are
    /// ignored.
    ///
    /// Returns the first error, in this order: if the magic number is unknown, `Compressed` or
    /// `NoCapture`; if the major version is not 2, `OtherVersion`; if the link type is not 253,
    /// `OtherLinkType`.
    pub fn parse(bytes: &[u8]) -> Result<FileHeader, CaptureError>
        requires { FILE_HEADER_LEN ≤ length bytes.now }
        ensures { MatchResult result (IsFileHeader bytes.now) (IsFileHeaderError bytes.now) }
    {
        let Some(order) = ByteOrder::find(bytes) else {
            return Err(no_capture(ByteOrder::BigEndian.u32_at(bytes, 0)));
        };
        let version = order.u16_at(bytes, 4);
        if version != MAJOR_VERSION {
            return Err(CaptureError::OtherVersion(version));
        }
        let link_type = order.u32_at(bytes, 20) % LINK_TYPES;
        if link_type != LINKTYPE_NETLINK {
            return Err(CaptureError::OtherLinkType(link_type));
        }
        let unit = unit_of(order.u32_at(bytes, 0));
        Ok(FileHeader { order, unit })
    }

    /// Reads a packet header of 16 bytes, and then as many bytes as its captured length, the `u32`
    /// at offset 8, into `packet`, whose former content is dropped. Returns the other fields of the
    /// packet header. Returns `None` if the input is at its end; then nothing was consumed.
    ///
    /// Fails with `Truncated` if the input ends within the packet header or the bytes of the
    /// packet, with `Read` if a read failed, with `AnotherCapture` if another pcap file begins in
    /// place of the packet header, with `PacketTooLong` if the captured length is greater than
    /// `MAX_PACKET_LEN`, and with `Memory` if an allocation failed. At the end of the input and
    /// after an error, the content of `packet` is not specified.
    ///
    /// Allocates only for the bytes of the packet, which are never more than `MAX_PACKET_LEN`.
    pub fn read_packet<R: Source>(
        &self,
        input: &mut R,
        packet: &mut Vec<u8>,
    ) -> Result<Option<PacketHeader>, CaptureError>
        ensures read { IfOk result (λ found. MatchOption found
            (IsAtEnd (R.left input.new) × Keeps (R.left input.old) (R.left input.new))
            (λ fields. (header : List ℕ)
            × IsPacketRecord self.now header (captured_packet packet.new.items fields)
            × Consumes (R.left input.old) (R.left input.new) (header ++ packet.new.items))) }
        ensures stopped { IfErr result (λ e. (part : List ℕ)
            × Consumes (R.left input.old) (R.left input.new) part
            × IsPacketStop self.now (stopped_input (R.left input.new) (R.failed input.new) part)
            e) }
    {
        let mut header = [0u8; PACKET_HEADER_LEN];
        if !fill_or_end(input, &mut header)? {
            return Ok(None);
        }
        if self.begins_capture(&header) {
            return Err(CaptureError::AnotherCapture);
        }
        let length = self.order.u32_at(&header, 8);
        if length > MAX_PACKET_LEN {
            return Err(CaptureError::PacketTooLong(length));
        }
        match read_bytes(input, packet, length as usize) {
            Ok(()) => Ok(Some(self.packet_header(&header))),
            Err(error) => Err(error),
        }
    }

    /// Returns whether the 16 bytes in place of a packet header begin another pcap file: they have
    /// a magic number in either byte order at 0, and 0 at 8, where a file header has its time zone
    /// and a packet header its captured length.
    fn begins_capture(&self, bytes: &[u8]) -> bool
        requires { PACKET_HEADER_LEN ≤ length bytes.now }
        ensures { IsTrue result ↔ BeginsCapture self.now bytes.now }
    {
        self.order.u32_at(bytes, 8) == 0 && ByteOrder::find(bytes).is_some()
    }

    /// Returns the fields of the packet header in the first 16 bytes, except the captured length.
    fn packet_header(&self, bytes: &[u8]) -> PacketHeader
        requires { PACKET_HEADER_LEN ≤ length bytes.now }
        ensures { result ≡ packet_header_fields self.now bytes.now }
    {
        PacketHeader {
            seconds: self.order.u32_at(bytes, 0),
            fraction: self.order.u32_at(bytes, 4),
            unit: self.unit,
            whole_length: self.order.u32_at(bytes, 12),
        }
    }
}

/// Reads `count` bytes into `bytes`, whose former content is dropped. Fails with `Memory` if an
/// allocation failed, with `Truncated` if the input ends before, and with `Read` if a read failed.
pub(crate) fn read_bytes<R: Source>(
    input: &mut R,
    bytes: &mut Vec<u8>,
    count: usize,
) -> Result<(), CaptureError>
    ensures read { OnOk result ((length bytes.new.items ≡ count)
        × Consumes (R.left input.old) (R.left input.new) bytes.new.items) }
    ensures stopped { IfErr result (λ e. (part : List ℕ)
        × Consumes (R.left input.old) (R.left input.new) part
        × (((e ≡ Memory) × (part ≡ []))
        ⊎ ((length part < count)
        × IsInputStop (stopped_input (R.left input.new) (R.failed input.new) part) e))) }
{
    // Only bytes past the former content are filled with zeros, and all are overwritten.
    bytes.resize(count, 0)?;
    fill(input, bytes.as_mut_slice())
}

/// Reads until `bytes` is full. Fails with `Truncated` if the input ends before, and with `Read` if
/// a read failed, which is not retried.
pub(crate) fn fill<R: Source>(input: &mut R, bytes: &mut [u8]) -> Result<(), CaptureError>
    ensures filled { OnOk result (Consumes (R.left input.old) (R.left input.new) bytes.new) }
    ensures stopped { IfErr result (λ e. (part : List ℕ) × (length part < length bytes.old)
        × Consumes (R.left input.old) (R.left input.new) part
        × IsInputStop (stopped_input (R.left input.new) (R.failed input.new) part) e) }
{
    let mut filled_len = 0;
    'reads: while filled_len < bytes.len() {
        match input.read_some(&mut bytes[filled_len..])? {
            // The slice is not empty, so this is the end of the input.
            0 => return Err(CaptureError::Truncated),
            count => filled_len += count,
        }
    }
    Ok(())
}

/// Reads until `bytes` is full, and returns true. Returns false if the input is at its end before
/// the first byte. Fails with `Truncated` if the input ends after it, and with `Read` if a read
/// failed. `bytes` must not be empty.
pub(crate) fn fill_or_end<R: Source>(input: &mut R, bytes: &mut [u8]) -> Result<bool, CaptureError>
    requires { 0 < length bytes.old }
    ensures filled { IfOk result (λ is_filled. MatchBool is_filled
        (Consumes (R.left input.old) (R.left input.new) bytes.new)
        (IsAtEnd (R.left input.new) × Keeps (R.left input.old) (R.left input.new))) }
    ensures stopped { IfErr result (λ e. (part : List ℕ) × (length part < length bytes.old)
        × (e ≡ CaptureError.Truncated → 0 < length part)
        × Consumes (R.left input.old) (R.left input.new) part
        × IsInputStop (stopped_input (R.left input.new) (R.failed input.new) part) e) }
{
    // One byte first: the input may end before it, but not after it.
    let (first, rest) = bytes.split_at_mut(1);
    if input.read_some(first)? == 0 {
        return Ok(false);
    }
    fill(input, rest)?;
    Ok(true)
}

/// The content of a packet.
#[derive(Clone, Copy, Debug, PartialEq, Eq)]
pub enum Packet<'a> {
    /// A datagram of sock_diag(7): the bytes after the cooked header.
    SockDiag(&'a [u8]),
    /// A packet of another protocol.
    Other,
    /// A packet with fewer than the 16 bytes of the cooked header.
    Short,
}

impl<'a> Packet<'a> {
    ghost use Rattle.netlink_captures.specs.Cooked.{IsPacketOf};

    /// Returns the content of a packet, by its cooked header of 16 bytes. Returns `SockDiag` with
    /// the bytes after the header if the hardware type at offset 2 is 824 and the netlink protocol
    /// at offset 14 is 4, both big-endian `u16`. Returns `Other` if they are not, and `Short` if
    /// there are fewer than 16 bytes.
    pub fn parse(bytes: &'a [u8]) -> Packet<'a>
        ensures { IsPacketOf bytes.entry.now result }
    {
        if bytes.len() < COOKED_HEADER_LEN {
            return Packet::Short;
        }
        if BigEndian::read_u16(&bytes[2..]) == ARPHRD_NETLINK
            && BigEndian::read_u16(&bytes[14..]) == NETLINK_SOCK_DIAG
        {
            Packet::SockDiag(&bytes[COOKED_HEADER_LEN..])
        } else {
            Packet::Other
        }
    }
}
