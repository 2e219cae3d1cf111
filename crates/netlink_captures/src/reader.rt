//! Captures of netlink traffic, in the pcap or the pcapng format.
//!
//! In the contracts, `R.left input` are the bytes that the input has left, if known.
//! `R.failed input e` says that a read of it has failed with the error `e`.
//! `Consumes old new bytes` says that these bytes were read. `stopped_input left failed part` is an
//! input at which reading stopped after the bytes `part`.

ghost use Rattle.std.specs.Prelude.{◌≡◌, ◌++◌, ◌<◌, ◌≤◌, ◌⊎◌, ℕ, List, length, IfOk, IfErr, OnOk};
ghost use Rattle.std.specs.Prelude.{MatchOption, MatchResult};
ghost use Rattle.std.specs.Io.KnownBytes.{Consumes, IsAtEnd};
ghost use Rattle.netlink_captures.specs.Capture.{IsFileHeader, IsFileHeaderError, IsInputStop};
ghost use Rattle.netlink_captures.specs.Capture.{captured_packet, stopped_input};
ghost use Rattle.netlink_captures.specs.Reader.{HasMagic, IsRejectedByMagic, IsEarlyReadStop};
ghost use Rattle.netlink_captures.specs.Reader.{IsCaptureEnd, IsCaptureStart, IsCaptureStartStop};
ghost use Rattle.netlink_captures.specs.Reader.{IsCaptureStop, ReadsPacket, state_of};

use crate::captures::{
    ByteOrder, CaptureError, FILE_HEADER_LEN, FileHeader, PacketHeader, fill, fill_or_end,
    no_capture,
};
use crate::pcapng::{MIN_BLOCK_LEN, PcapngReader, is_section_header};
use program_streams::Source;
use std::alloc::Global;

/// A capture that is being read. A file that begins with the bytes `0a 0d 0d 0a` is in the pcapng
/// format, and any other in the pcap format.
#[derive(Drop)]
pub enum CaptureReader {
    /// A pcap file, with its file header.
    Pcap(FileHeader),
    /// A pcapng file.
    Pcapng(PcapngReader),
}

/// Checks that the first four bytes are a known magic number. Fails with `Compressed` or
/// `NoCapture` if they are not.
fn check_magic(bytes: &[u8]) -> Result<(), CaptureError>
    requires { 4 ≤ length bytes.now }
    ensures { MatchResult result (λ _. HasMagic bytes.now) (IsRejectedByMagic bytes.now) }
{
    if is_section_header(bytes) || ByteOrder::find(bytes).is_some() {
        Ok(())
    } else {
        Err(no_capture(ByteOrder::BigEndian.u32_at(bytes, 0)))
    }
}

/// Reads the first four bytes of a capture into `magic`, and checks that they are a known magic
/// number. Fails with `Empty`, `TooShort`, `Compressed`, `NoCapture` or `Read`, as
/// `CaptureReader::open` does for these bytes.
fn read_magic<R: Source>(input: &mut R, magic: &mut [u8]) -> Result<(), CaptureError>
    requires { length magic.old ≡ 4 }
    ensures read { OnOk result (HasMagic magic.new
        × Consumes (R.left input.old) (R.left input.new) magic.new) }
    ensures stopped { IfErr result (λ e. (part : List ℕ) × (length part ≤ 4)
        × Consumes (R.left input.old) (R.left input.new) part
        × IsEarlyReadStop (stopped_input (R.left input.new) (R.failed input.new) part) e) }
{
    match fill_or_end(input, magic) {
        Ok(true) => check_magic(magic),
        Ok(false) => Err(CaptureError::Empty),
        // One to three bytes: `fill_or_end` fails so only after the first byte.
        Err(CaptureError::Truncated) => Err(CaptureError::TooShort),
        Err(error) => Err(error),
    }
}

/// Reads the first 12 bytes of a capture into `head`, and checks that they begin with a known magic
/// number. These are as many as the shortest block of a pcapng file has, and half of the file
/// header of a pcap file. Fails as `CaptureReader::open` does for these bytes.
fn read_head<R: Source>(input: &mut R, head: &mut [u8]) -> Result<(), CaptureError>
    requires { length head.old ≡ MIN_BLOCK_LEN }
    ensures read { OnOk result (HasMagic head.new
        × Consumes (R.left input.old) (R.left input.new) head.new) }
    ensures stopped { IfErr result (λ e. (part : List ℕ) × (length part < MIN_BLOCK_LEN)
        × Consumes (R.left input.old) (R.left input.new) part
        × IsEarlyReadStop (stopped_input (R.left input.new) (R.failed input.new) part) e) }
{
    let (magic, rest) = head.split_at_mut(4);
    read_magic(input, magic)?;
    fill(input, rest)
}

/// Reads the rest of the file header of a pcap file, 12 bytes. `head` has its first 12 bytes. Fails
/// with `Truncated` if the input ends before, with `Read` if a read failed, or else with the error
/// of `FileHeader::parse`.
fn open_pcap<R: Source>(head: &[u8], input: &mut R) -> Result<FileHeader, CaptureError>
    requires { length head.now ≡ MIN_BLOCK_LEN }
    ensures read { IfOk result (λ file. (more : List ℕ) × (length more ≡ 12)
        × IsFileHeader (head.now ++ more) file
        × Consumes (R.left input.old) (R.left input.new) more) }
    ensures stopped { IfErr result (λ e. (part : List ℕ)
        × Consumes (R.left input.old) (R.left input.new) part
        × (((length part < 12)
        × IsInputStop (stopped_input (R.left input.new) (R.failed input.new) part) e)
        ⊎ ((length part ≡ 12) × IsFileHeaderError (head.now ++ part) e))) }
{
    let mut bytes = [0u8; FILE_HEADER_LEN];
    let (first, rest) = bytes.split_at_mut(MIN_BLOCK_LEN);
    first.copy_from_slice(head);
    fill(input, rest)?;
    FileHeader::parse(&bytes)
}

impl CaptureReader {
    /// Opens a capture: reads the file header of a pcap file, or the section header block that a
    /// pcapng file begins with.
    ///
    /// Fails with `Empty` if the input ends before its first byte, with `TooShort` if it ends
    /// before its fourth one, with `Compressed` or `NoCapture` if the first four bytes are not a
    /// known magic number, with `Truncated` if the input ends after them within the header, and
    /// with `Read` if a read failed. If a pcap file has an invalid header, fails with the error of
    /// `FileHeader::parse`. If a pcapng file begins with an invalid block, fails with `Block`, and
    /// if an allocation failed, with `Memory`.
    pub fn open<R: Source>(alloc: Global, input: &mut R) -> Result<CaptureReader, CaptureError>
        ensures read { IfOk result (λ reader. (bytes : List ℕ)
            × IsCaptureStart bytes (state_of reader)
            × Consumes (R.left input.old) (R.left input.new) bytes) }
        ensures stopped { IfErr result (λ e. (part : List ℕ)
            × Consumes (R.left input.old) (R.left input.new) part
            × IsCaptureStartStop (stopped_input (R.left input.new) (R.failed input.new) part) e) }
    {
        let mut head = [0u8; MIN_BLOCK_LEN];
        read_head(input, &mut head)?;
        if is_section_header(&head) {
            match PcapngReader::open(alloc, &head, input) {
                Ok(reader) => Ok(CaptureReader::Pcapng(reader)),
                Err(error) => Err(error),
            }
        } else {
            match open_pcap(&head, input) {
                Ok(file) => Ok(CaptureReader::Pcap(file)),
                Err(error) => Err(error),
            }
        }
    }

    /// Reads the next packet: its captured bytes into `packet`, whose former content is dropped,
    /// and its capture time and original length, which are returned. Returns `None` if no packet
    /// follows; then the input was read to its end.
    ///
    /// A pcap file has packets only, see `FileHeader::read_packet`. In a pcapng file, blocks
    /// without a packet are skipped. Fails with `Truncated` if the input ends within a packet or a
    /// block, with `Read` if a read failed, with `PacketTooLong` if the captured length is greater
    /// than `MAX_PACKET_LEN`, and with `Memory` if an allocation failed. If another pcap file
    /// begins in place of a packet of a pcap file, fails with `AnotherCapture`. If a block of a
    /// pcapng file is invalid, fails with `Block`, and if a packet has another link type than 253,
    /// with `OtherLinkType`. At the end of the input and after an error, the content of `packet` is
    /// not specified, and after an error neither is the state of the reader.
    ///
    /// Stores at most the bytes of the packet and, of a pcapng file, the last block, of at most
    /// `MAX_BLOCK_LEN` bytes, and the interfaces of the section, at most `MAX_INTERFACES`. While a
    /// block is read, its bytes are in `packet` too.
    pub fn read_packet<R: Source>(
        &mut self,
        input: &mut R,
        packet: &mut Vec<u8>,
    ) -> Result<Option<PacketHeader>, CaptureError>
        ensures read { IfOk result (λ found. (bytes : List ℕ)
            × Consumes (R.left input.old) (R.left input.new) bytes
            × MatchOption found
            (IsAtEnd (R.left input.new) × IsCaptureEnd (state_of self.old) bytes)
            (λ header. ReadsPacket (state_of self.old) bytes
            (captured_packet packet.new.items header) (state_of self.new))) }
        ensures stopped { IfErr result (λ e. (part : List ℕ)
            × Consumes (R.left input.old) (R.left input.new) part
            × IsCaptureStop (state_of self.old)
            (stopped_input (R.left input.new) (R.failed input.new) part) e) }
    {
        match self {
            CaptureReader::Pcap(file) => file.read_packet(input, packet),
            CaptureReader::Pcapng(reader) => reader.read_packet(input, packet),
        }
    }
}
