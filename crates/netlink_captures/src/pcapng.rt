//! Captures of netlink traffic in the pcapng format, as Wireshark, dumpcap(1) and tcpdump(1) write
//! them: blocks, of which section headers, interface descriptions and packets are parsed, and all
//! others skipped.
//!
//! In the contracts:
//!
//! - `R.left input`: the bytes that the input has left, if known. `R.failed input e`: a read of it
//!   has failed with the error `e`.
//! - `Consumes old new bytes`: these bytes were read. `Keeps old new`: none were.
//!   `stopped_input left failed part`: an input at which reading stopped after the bytes `part`.
//! - `position_of reader`: what the reader knows of the file: the byte order and the interfaces of
//!   the section, and the offset of the next block.
//! - `next_block reader order bytes`: the block of these bytes, in this byte order, at the reader's
//!   position.
//! - `FitsBlock bytes content`: a packet is within these bytes of its block, so it can be copied.
//! - `MovesOver old bytes content new`: the bytes are a valid block with this content, which leads
//!   from the position `old` to `new`.

ghost use Rattle.std.specs.Prelude.{◌≡◌, ◌+◌, ◌^◌, ◌<◌, ◌≤◌, ◌++◌, ℕ, List, length, IfOk, IfErr};
ghost use Rattle.std.specs.Prelude.{IfSome, OnOk, MatchOption};
ghost use Rattle.std.specs.Io.KnownBytes.{Consumes, IsAtEnd, Keeps};
ghost use Rattle.netlink_captures.specs.Capture.{captured_packet, stopped_input};
ghost use Rattle.netlink_captures.specs.Pcapng.{IsBlockStop, IsEndOfBlocks, IsNextPacket};
ghost use Rattle.netlink_captures.specs.Pcapng.{IsNextPacketStop, IsStopInBlock};
ghost use Rattle.netlink_captures.specs.Pcapng.{after_block, packet_in_slot, start_of_file};
ghost use Rattle.netlink_captures.specs.Pcapng.{content_by_type, content_of, enhanced_packet_in};
ghost use Rattle.netlink_captures.specs.Pcapng.{block_length, checked_order, interface_in};
ghost use Rattle.netlink_captures.specs.Pcapng.{interface_of, invalid_block, is_block_length};
ghost use Rattle.netlink_captures.specs.Pcapng.{is_section_header, option_size};
ghost use Rattle.netlink_captures.specs.Pcapng.{order_of_block, packet_in};
ghost use Rattle.netlink_captures.specs.Pcapng.{position_of, section_header_in, simple_captured};
ghost use Rattle.netlink_captures.specs.Pcapng.{simple_packet_in, timed_packet, unit_by_options};
ghost use Rattle.netlink_captures.specs.Pcapng.{unit_by_resolution, unit_in_option};
ghost use Rattle.netlink_captures.specs.Pcapng.{units_in_second};
ghost use Rattle.netlink_captures.specs.private.Pcapng.{FitsBlock, MovesOver, next_block};
ghost use Rattle.netlink_captures.specs.declared.pcapng.Content.{Content};

use crate::block_error::BlockError;
use crate::captures::{
    ByteOrder, CaptureError, LINKTYPE_NETLINK, MAX_PACKET_LEN, PacketHeader, TimeUnit, fill_or_end,
    read_bytes,
};
use program_streams::Source;
use std::alloc::{AllocError, Global};

/// Type of a section header block. It is the same number in both byte orders.
const SECTION_HEADER: u32 = 0x0a0d_0d0a;

/// Type of an interface description block.
const INTERFACE_DESCRIPTION: u32 = 1;

/// Type of a packet block, which is obsolete.
const OBSOLETE_PACKET: u32 = 2;

/// Type of a simple packet block.
const SIMPLE_PACKET: u32 = 3;

/// Type of an enhanced packet block.
const ENHANCED_PACKET: u32 = 6;

/// Byte-order magic of a section header, at offset 8.
const BYTE_ORDER_MAGIC: u32 = 0x1a2b_3c4d;

/// Major version of the pcapng format, at offset 12 of a section header.
const MAJOR_VERSION: u16 = 1;

/// Length of the shortest block in bytes: its type, and its length twice. The reader reads this
/// many bytes of a block first.
pub(crate) const MIN_BLOCK_LEN: usize = 12;

/// Length of the shortest section header block in bytes.
const MIN_SECTION_HEADER_LEN: usize = 28;

/// Length of the shortest interface description block in bytes.
const MIN_INTERFACE_LEN: usize = 20;

/// Length of the shortest simple packet block in bytes.
const MIN_SIMPLE_PACKET_LEN: usize = 16;

/// Length of the shortest enhanced or obsolete packet block in bytes.
const MIN_ENHANCED_PACKET_LEN: usize = 32;

/// Offset of the packet in a simple packet block.
const SIMPLE_PACKET_START: usize = 12;

/// Offset of the packet in an enhanced or obsolete packet block.
const ENHANCED_PACKET_START: usize = 28;

/// Greatest length of a block in bytes that is read.
const MAX_BLOCK_LEN: u32 = 16_777_216;

/// Greatest number of interfaces in a section.
const MAX_INTERFACES: usize = 4_096;

/// `opt_endofopt`, the code of the option at the end of options.
const END_OF_OPTIONS: u16 = 0;

/// `if_tsresol`, the code of the option with the unit of timestamps.
const TIME_RESOLUTION: u16 = 9;

/// An interface that a section describes.
#[derive(Clone, Copy, Debug, PartialEq, Eq)]
pub(crate) struct Interface {
    /// Link type (`LINKTYPE_..`), at offset 8.
    link_type: u16,
    /// Snapshot length in bytes, at offset 12. 0 means no limit.
    snap_length: u32,
    /// Unit of the timestamps of packets (`if_tsresol`).
    unit: TimeUnit,
}

/// A packet in a block.
#[derive(Clone, Copy, Debug, PartialEq, Eq)]
pub(crate) struct PacketSlot {
    /// Capture time and original length of the packet.
    header: PacketHeader,
    /// Offset of its bytes in the block.
    start: usize,
    /// Number of its bytes.
    count: u32,
}

/// The content of a block, as far as it matters to a reader of packets.
#[derive(Clone, Copy, Debug, PartialEq, Eq)]
pub(crate) enum Content {
    /// The start of a section.
    SectionHeader,
    /// The description of an interface.
    Described(Interface),
    /// A packet.
    Captured(PacketSlot),
    /// Anything else.
    Skipped,
}

/// A reader of a pcapng file. It retains the byte order and the interfaces of the section that it
/// reads.
#[derive(Drop)]
pub struct PcapngReader {
    /// Byte order of the numbers in the section.
    order: ByteOrder,
    /// Interfaces that the section has described so far.
    interfaces: Vec<Interface>,
    /// Offset of the next block in the file, in bytes.
    offset: u64,
    /// Bytes of the last block.
    block: Vec<u8>,
}

/// Returns whether a block is a section header, by the first four of its bytes.
pub(crate) fn is_section_header(block: &[u8]) -> bool
    requires { 4 ≤ length block.now }
    ensures { result ≡ is_section_header block.now }
{
    // The type reads the same in both byte orders, so either one does.
    ByteOrder::BigEndian.u32_at(block, 0) == SECTION_HEADER
}

/// Returns the byte order of a block: for a section header by its byte-order magic, or else that of
/// the section. Returns `None` if the magic is unknown.
fn find_order(section_order: ByteOrder, block: &[u8]) -> Option<ByteOrder>
    requires { MIN_BLOCK_LEN ≤ length block.now }
    ensures { result ≡ order_of_block section_order block.now }
{
    if !is_section_header(block) {
        Some(section_order)
    } else if ByteOrder::LittleEndian.u32_at(block, 8) == BYTE_ORDER_MAGIC {
        Some(ByteOrder::LittleEndian)
    } else if ByteOrder::BigEndian.u32_at(block, 8) == BYTE_ORDER_MAGIC {
        Some(ByteOrder::BigEndian)
    } else {
        None
    }
}

/// Returns whether a block at this offset may have this length in bytes: 12 to 16777216, a multiple
/// of 4, and such that the offset of the block's end fits 64 bits.
fn is_block_length(offset: u64, length: u32) -> bool
    ensures { result ≡ is_block_length offset length }
{
    MIN_BLOCK_LEN as u32 <= length
        && length <= MAX_BLOCK_LEN
        && length % 4 == 0
        && u64::from(length) <= u64::MAX - offset
}

/// Returns the unit of timestamps by the value of the option `if_tsresol`. Fails with `Resolution`
/// if this is neither a microsecond nor a nanosecond.
fn unit_by_resolution(value: u8) -> Result<TimeUnit, BlockError>
    ensures { result ≡ unit_by_resolution value }
{
    // The value `n` means a unit of 10^-n seconds.
    match value {
        6 => Ok(TimeUnit::Microseconds),
        9 => Ok(TimeUnit::Nanoseconds),
        _ => Err(BlockError::Resolution),
    }
}

/// Returns the number of bytes of the option that `options` begins with: 2 of its code, 2 of the
/// length of its value, and its value, padded to a multiple of four bytes.
fn option_size(order: ByteOrder, options: &[u8]) -> usize
    requires { 4 ≤ length options.now }
    ensures { result ≡ option_size order options.now }
{
    4 + (usize::from(order.u16_at(options, 2)) + 3) / 4 * 4
}

/// Returns the unit of timestamps in the option `if_tsresol` that the bytes begin with. They must
/// contain the whole option. Fails with `Options` if its value does not have one byte, and with
/// `Resolution` if the unit is neither a microsecond nor a nanosecond.
fn unit_in_option(order: ByteOrder, options: &[u8]) -> Result<TimeUnit, BlockError>
    requires { option_size order options.now ≤ length options.now }
    ensures { result ≡ unit_in_option order options.now }
{
    if order.u16_at(options, 2) == 1 {
        unit_by_resolution(options[4])
    } else {
        Err(BlockError::Options)
    }
}

/// Returns the unit of timestamps by the options of an interface description: that of the first
/// `if_tsresol`, or a microsecond if they end without one. Fails with `Options` or `Resolution` if
/// an option up to this one is invalid.
fn find_unit(order: ByteOrder, options: &[u8]) -> Result<TimeUnit, BlockError>
    ensures { result ≡ unit_by_options order options.now }
{
    let mut remaining = options;
    // A bound on the loop, as in `unit_by_options`: there are never more options than bytes.
    let mut count = options.len();
    'options: while count > 0 {
        if remaining.is_empty() {
            return Ok(TimeUnit::Microseconds);
        }
        if remaining.len() < 4 {
            return Err(BlockError::Options);
        }
        if order.u16_at(remaining, 0) == END_OF_OPTIONS {
            return Ok(TimeUnit::Microseconds);
        }
        let size = option_size(order, remaining);
        if remaining.len() < size {
            return Err(BlockError::Options);
        }
        if order.u16_at(remaining, 0) == TIME_RESOLUTION {
            return unit_in_option(order, remaining);
        }
        remaining = &remaining[size..];
        count -= 1;
    }
    // Reached only if there are no options at all.
    Ok(TimeUnit::Microseconds)
}

/// Returns the number of units in a second. It is not 0, so timestamps can be divided by it, and
/// the remainder fits 32 bits.
fn units_in_second(unit: TimeUnit) -> u64
    ensures value { result ≡ units_in_second unit }
    ensures range { (0 < result) × (result ≤ 1000000000) }
{
    match unit {
        TimeUnit::Microseconds => 1_000_000,
        TimeUnit::Nanoseconds => 1_000_000_000,
    }
}

/// Returns the captured length of a simple packet: the smaller of its original length and the
/// snapshot length of its interface. The snapshot length 0 means no limit.
fn simple_captured(snap_length: u32, original: u32) -> u32
    ensures { result ≡ simple_captured snap_length original }
{
    if snap_length == 0 {
        original
    } else {
        original.min(snap_length)
    }
}

impl PcapngReader {
    /// Returns a reader at the start of a file. Allocates nothing.
    pub(crate) fn new(alloc: Global) -> PcapngReader
        ensures { position_of result ≡ start_of_file }
    {
        PcapngReader {
            order: ByteOrder::LittleEndian,
            interfaces: Vec::new(alloc),
            offset: 0,
            block: Vec::new(alloc),
        }
    }

    /// Returns the error of the block at the reader's offset, for this reason.
    fn invalid_block(&self, reason: BlockError) -> CaptureError
        ensures { result ≡ invalid_block (position_of self.now) reason }
    {
        CaptureError::Block {
            offset: self.offset,
            error: reason,
        }
    }

    /// Returns the byte order of the next block, by its first 12 bytes. Fails with `ByteOrderMagic`
    /// if it is not known, and with `Length` if the length of the block, in this order, is invalid.
    fn checked_order(&self, block: &[u8]) -> Result<ByteOrder, CaptureError>
        requires { MIN_BLOCK_LEN ≤ length block.now }
        ensures { result ≡ checked_order (position_of self.now) block.now }
    {
        match find_order(self.order, block) {
            None => Err(self.invalid_block(BlockError::ByteOrderMagic)),
            Some(order) if is_block_length(self.offset, order.u32_at(block, 4)) => Ok(order),
            Some(_) => Err(self.invalid_block(BlockError::Length)),
        }
    }

    /// Parses a section header. Fails with `Length` if it has fewer than 28 bytes, and with
    /// `Version` if its major version is not 1.
    fn section_header(&self, order: ByteOrder, block: &[u8]) -> Result<Content, CaptureError>
        ensures { result ≡ section_header_in (next_block self.now order block.now) }
    {
        if block.len() < MIN_SECTION_HEADER_LEN {
            Err(self.invalid_block(BlockError::Length))
        } else if order.u16_at(block, 12) == MAJOR_VERSION {
            Ok(Content::SectionHeader)
        } else {
            Err(self.invalid_block(BlockError::Version))
        }
    }

    /// Parses an interface description. Fails with `Length` if it has fewer than 20 bytes, with
    /// `TooManyInterfaces` if the section already has `MAX_INTERFACES`, and with `Options` or
    /// `Resolution` if its options are invalid.
    fn interface(&self, order: ByteOrder, block: &[u8]) -> Result<Content, CaptureError>
        ensures { result ≡ interface_in (next_block self.now order block.now) }
    {
        if block.len() < MIN_INTERFACE_LEN {
            return Err(self.invalid_block(BlockError::Length));
        }
        if self.interfaces.len() >= MAX_INTERFACES {
            return Err(self.invalid_block(BlockError::TooManyInterfaces));
        }
        // The options end before the second length field, the last four bytes.
        match find_unit(order, &block[16..block.len() - 4]) {
            Err(reason) => Err(self.invalid_block(reason)),
            Ok(unit) => Ok(Content::Described(Interface {
                link_type: order.u16_at(block, 8),
                snap_length: order.u32_at(block, 12),
                unit,
            })),
        }
    }

    /// Returns the interface with a number, from 0 on. Fails with `NoInterface` if the section has
    /// not described it, and with `OtherLinkType` if its link type is not 253.
    fn find_interface(&self, number: u32) -> Result<Interface, CaptureError>
        ensures { result ≡ interface_of (position_of self.now) number }
    {
        match self.interfaces.as_slice().get(number as usize) {
            None => Err(self.invalid_block(BlockError::NoInterface)),
            Some(interface) if u32::from(interface.link_type) == LINKTYPE_NETLINK => Ok(*interface),
            Some(interface) => Err(CaptureError::OtherLinkType(interface.link_type.into())),
        }
    }

    /// Checks the packet in this slot of a block, and returns the slot as the block's content.
    /// Fails with `PacketTooLong` if the packet has more than `MAX_PACKET_LEN` bytes, and with
    /// `CapturedLength` if it exceeds the block.
    fn packet_in(&self, block: &[u8], slot: PacketSlot) -> Result<Content, CaptureError>
        // No packet begins after this offset. So the offset of its end fits a `usize`.
        requires { slot.start ≤ ENHANCED_PACKET_START }
        ensures value { result ≡ packet_in (position_of self.now) block.now slot }
        ensures fits { IfOk result (FitsBlock block.now) }
    {
        if slot.count > MAX_PACKET_LEN {
            return Err(CaptureError::PacketTooLong(slot.count));
        }
        // The last four bytes of a block are its second length field.
        if block.len() < slot.start + slot.count as usize + 4 {
            return Err(self.invalid_block(BlockError::CapturedLength));
        }
        Ok(Content::Captured(slot))
    }

    /// Parses an enhanced packet of an interface with this unit of timestamps. `timestamp` is the
    /// number of units since 1970 (UTC). Fails with `Time` if these are 2^32 seconds or more, or
    /// else as `packet_in` does. The captured length is at 20, and the original length at 24.
    fn timed_packet(
        &self,
        order: ByteOrder,
        block: &[u8],
        unit: TimeUnit,
        timestamp: u64,
    ) -> Result<Content, CaptureError>
        requires { MIN_ENHANCED_PACKET_LEN ≤ length block.now }
        ensures value { result
            ≡ timed_packet (next_block self.now order block.now) unit timestamp }
        ensures fits { IfOk result (FitsBlock block.now) }
    {
        let units = units_in_second(unit);
        let seconds = timestamp / units;
        if seconds > u64::from(u32::MAX) {
            return Err(self.invalid_block(BlockError::Time));
        }
        let header = PacketHeader {
            seconds: seconds as u32,
            fraction: (timestamp % units) as u32,
            unit,
            whole_length: order.u32_at(block, 24),
        };
        let slot = PacketSlot {
            header,
            start: ENHANCED_PACKET_START,
            count: order.u32_at(block, 20),
        };
        self.packet_in(block, slot)
    }

    /// Parses an enhanced or an obsolete packet block of the interface with this number. Fails with
    /// `Length` if the block is too short, or else with the error of the interface or of the
    /// packet.
    fn enhanced_packet(
        &self,
        order: ByteOrder,
        block: &[u8],
        number: u32,
    ) -> Result<Content, CaptureError>
        ensures value { result ≡ enhanced_packet_in (next_block self.now order block.now) number }
        ensures fits { IfOk result (FitsBlock block.now) }
    {
        if block.len() < MIN_ENHANCED_PACKET_LEN {
            return Err(self.invalid_block(BlockError::Length));
        }
        match self.find_interface(number) {
            Err(error) => Err(error),
            Ok(interface) => {
                // The timestamp is two `u32`, the high 32 bits first in both byte orders.
                let high = u64::from(order.u32_at(block, 12));
                let low = u64::from(order.u32_at(block, 16));
                let timestamp = high * 4_294_967_296 + low;
                self.timed_packet(order, block, interface.unit, timestamp)
            }
        }
    }

    /// Parses a simple packet block. It has no interface number, and so is of the first interface;
    /// it has no timestamp, which counts as 0. Fails with `Length` if the block is too short, or
    /// else with the error of the interface or of the packet.
    fn simple_packet(&self, order: ByteOrder, block: &[u8]) -> Result<Content, CaptureError>
        ensures value { result ≡ simple_packet_in (next_block self.now order block.now) }
        ensures fits { IfOk result (FitsBlock block.now) }
    {
        if block.len() < MIN_SIMPLE_PACKET_LEN {
            return Err(self.invalid_block(BlockError::Length));
        }
        match self.find_interface(0) {
            Err(error) => Err(error),
            Ok(interface) => {
                let original = order.u32_at(block, 8);
                let header = PacketHeader {
                    seconds: 0,
                    fraction: 0,
                    unit: interface.unit,
                    whole_length: original,
                };
                let slot = PacketSlot {
                    header,
                    start: SIMPLE_PACKET_START,
                    count: simple_captured(interface.snap_length, original),
                };
                self.packet_in(block, slot)
            }
        }
    }

    /// Parses a block that is not a section header, by its type. Fails with the error of the
    /// interface description or of the packet.
    fn content_by_type(&self, order: ByteOrder, block: &[u8]) -> Result<Content, CaptureError>
        requires { MIN_BLOCK_LEN ≤ length block.now }
        ensures value { result ≡ content_by_type (next_block self.now order block.now) }
        ensures fits { IfOk result (FitsBlock block.now) }
    {
        // The interface number, at 8, is a `u16` in an obsolete packet, and a `u32` in an enhanced
        // one.
        match order.u32_at(block, 0) {
            INTERFACE_DESCRIPTION => self.interface(order, block),
            OBSOLETE_PACKET => self.enhanced_packet(order, block, order.u16_at(block, 8).into()),
            SIMPLE_PACKET => self.simple_packet(order, block),
            ENHANCED_PACKET => self.enhanced_packet(order, block, order.u32_at(block, 8)),
            _ => Ok(Content::Skipped),
        }
    }

    /// Parses a whole block, whose length is valid. Fails with `EndLength` if its last four bytes
    /// do not have its length, or else with the error of its content.
    fn content(&self, order: ByteOrder, block: &[u8]) -> Result<Content, CaptureError>
        requires long { MIN_BLOCK_LEN ≤ length block.now }
        requires short { length block.now ≤ MAX_BLOCK_LEN }
        ensures value { result ≡ content_of (next_block self.now order block.now) }
        ensures fits { IfOk result (FitsBlock block.now) }
    {
        if order.u32_at(block, block.len() - 4) as usize != block.len() {
            Err(self.invalid_block(BlockError::EndLength))
        } else if is_section_header(block) {
            self.section_header(order, block)
        } else {
            self.content_by_type(order, block)
        }
    }

    /// Stores the bytes of a block: its first bytes, `head`, and the others, `rest`. Fails if an
    /// allocation fails.
    fn store_block(&mut self, head: &[u8], rest: &[u8]) -> Result<(), AllocError>
        ensures stored { OnOk result (self.new.block.items ≡ head.now ++ rest.now) }
        // Whether it fails or not, the reader does not move.
        ensures kept { position_of self.new ≡ position_of self.old }
    {
        self.block.clear();
        self.block.extend_from_slice(head)?;
        self.block.extend_from_slice(rest)
    }

    /// Reads the rest of a block into `rest`, whose former content is dropped, and stores the
    /// block. `head` has its first 12 bytes. Returns its byte order. Fails with `Block` if its byte
    /// order or its length is invalid, with `Memory` if an allocation failed, with `Truncated` if
    /// the input ends within the block, and with `Read` if a read failed.
    fn read_rest<R: Source>(
        &mut self,
        head: &[u8],
        input: &mut R,
        rest: &mut Vec<u8>,
    ) -> Result<ByteOrder, CaptureError>
        requires { length head.now ≡ MIN_BLOCK_LEN }
        ensures read { IfOk result (λ order.
            (checked_order (position_of self.old) head.now ≡ Ok order)
            × (MIN_BLOCK_LEN + length rest.new.items ≡ block_length order head.now)
            × (self.new.block.items ≡ head.now ++ rest.new.items)
            × Consumes (R.left input.old) (R.left input.new) rest.new.items) }
        ensures kept { position_of self.new ≡ position_of self.old }
        ensures stopped { IfErr result (λ e. (part : List ℕ)
            × Consumes (R.left input.old) (R.left input.new) part
            × IsStopInBlock (position_of self.old)
            (stopped_input (R.left input.new) (R.failed input.new) (head.now ++ part)) e) }
    {
        let order = self.checked_order(head)?;
        let length = order.u32_at(head, 4) as usize;
        read_bytes(input, rest, length - MIN_BLOCK_LEN)?;
        self.store_block(head, rest.as_slice())?;
        Ok(order)
    }

    /// Moves to the end of the stored block, which has this byte order and this content. Fails if
    /// an allocation fails.
    fn advance(&mut self, order: ByteOrder, content: Content) -> Result<(), AllocError>
        // The end of the block fits the 64 bits of an offset.
        requires { (position_of self.old).offset + length self.old.block.items < 2 ^ 64 }
        ensures moved { OnOk result (position_of self.new
            ≡ after_block (next_block self.old order self.old.block.items) content) }
        ensures block { self.new.block.items ≡ self.old.block.items }
    {
        self.order = order;
        self.offset += self.block.len() as u64;
        match content {
            Content::SectionHeader => self.interfaces.clear(),
            Content::Described(interface) => self.interfaces.push(interface)?,
            Content::Captured(_) | Content::Skipped => {}
        }
        Ok(())
    }

    /// Reads the rest of the next block, of which `head` has the first 12 bytes, and moves to its
    /// end. Returns its content. Fails as `read_rest` does, or with the error of the block's
    /// content. `rest` is a buffer, whose content is not specified.
    fn next_after<R: Source>(
        &mut self,
        head: &[u8],
        input: &mut R,
        rest: &mut Vec<u8>,
    ) -> Result<Content, CaptureError>
        requires { length head.now ≡ MIN_BLOCK_LEN }
        ensures read { IfOk result (λ content. (more : List ℕ)
            × (self.new.block.items ≡ head.now ++ more)
            × Consumes (R.left input.old) (R.left input.new) more
            × MovesOver (position_of self.old) self.new.block.items content
            (position_of self.new)) }
        ensures fits { IfOk result (FitsBlock self.new.block.items) }
        ensures stopped { IfErr result (λ e. (part : List ℕ)
            × Consumes (R.left input.old) (R.left input.new) part
            × IsBlockStop (position_of self.old)
            (stopped_input (R.left input.new) (R.failed input.new) (head.now ++ part)) e) }
    {
        let order = self.read_rest(head, input, rest)?;
        let content = self.content(order, self.block.as_slice())?;
        self.advance(order, content)?;
        Ok(content)
    }

    /// Opens a pcapng file, whose first 12 bytes are `head`: reads the rest of the section header
    /// block that it begins with. Fails as `next_after` does.
    pub(crate) fn open<R: Source>(
        alloc: Global,
        head: &[u8],
        input: &mut R,
    ) -> Result<PcapngReader, CaptureError>
        requires { length head.now ≡ MIN_BLOCK_LEN }
        ensures read { IfOk result (λ reader. (more : List ℕ) × (content : Content)
            × Consumes (R.left input.old) (R.left input.new) more
            × MovesOver start_of_file (head.now ++ more) content (position_of reader)) }
        ensures stopped { IfErr result (λ e. (part : List ℕ)
            × Consumes (R.left input.old) (R.left input.new) part
            × IsBlockStop start_of_file
            (stopped_input (R.left input.new) (R.failed input.new) (head.now ++ part)) e) }
    {
        let mut reader = PcapngReader::new(alloc);
        let mut rest = Vec::new(alloc);
        match reader.next_after(head, input, &mut rest) {
            Ok(_) => Ok(reader),
            Err(error) => Err(error),
        }
    }

    /// Reads the next block, and moves to its end. Returns its content, or `None` if the input is
    /// at its end. Fails with `Truncated` if the input ends within the block, with `Read` if a read
    /// failed, or else as `next_after` does. `rest` is a buffer, whose content is not specified.
    fn next<R: Source>(
        &mut self,
        input: &mut R,
        rest: &mut Vec<u8>,
    ) -> Result<Option<Content>, CaptureError>
        ensures read { IfOk result (λ found. MatchOption found
            (IsAtEnd (R.left input.new) × Keeps (R.left input.old) (R.left input.new)
            × (position_of self.new ≡ position_of self.old))
            (λ content. Consumes (R.left input.old) (R.left input.new) self.new.block.items
            × MovesOver (position_of self.old) self.new.block.items content
            (position_of self.new))) }
        ensures fits { IfOk result (λ found. IfSome found (FitsBlock self.new.block.items)) }
        ensures stopped { IfErr result (λ e. (part : List ℕ)
            × Consumes (R.left input.old) (R.left input.new) part
            × IsBlockStop (position_of self.old)
            (stopped_input (R.left input.new) (R.failed input.new) part) e) }
    {
        let mut head = [0u8; MIN_BLOCK_LEN];
        if !fill_or_end(input, &mut head)? {
            return Ok(None);
        }
        match self.next_after(&head, input, rest) {
            Ok(content) => Ok(Some(content)),
            Err(error) => Err(error),
        }
    }

    /// Copies the packet in a slot of the stored block into `packet`, whose former content is
    /// dropped. Fails if an allocation fails.
    fn copy_packet(&self, slot: PacketSlot, packet: &mut Vec<u8>) -> Result<(), AllocError>
        requires { slot.start + slot.count ≤ length self.now.block.items }
        ensures { OnOk result (captured_packet packet.new.items slot.header
            ≡ packet_in_slot slot self.now.block.items) }
    {
        packet.clear();
        let end = slot.start + slot.count as usize;
        packet.extend_from_slice(&self.block.as_slice()[slot.start..end])
    }

    /// Reads blocks up to the next packet, and its captured bytes into `packet`, whose former
    /// content is dropped. Returns its header. Returns `None` if no packet follows: then all blocks
    /// up to the end of the input were read. Fails as `next` does, and with `Memory` if an
    /// allocation failed. After an error, the content of `packet` and the state of the reader are
    /// not specified.
    pub(crate) fn read_packet<R: Source>(
        &mut self,
        input: &mut R,
        packet: &mut Vec<u8>,
    ) -> Result<Option<PacketHeader>, CaptureError>
        ensures read { IfOk result (λ found. (bytes : List ℕ)
            × Consumes (R.left input.old) (R.left input.new) bytes
            × MatchOption found
            (IsAtEnd (R.left input.new)
            × IsEndOfBlocks (position_of self.old) bytes (position_of self.new))
            (λ header. IsNextPacket (position_of self.old) bytes
            (captured_packet packet.new.items header) (position_of self.new))) }
        // `part`: blocks without a packet, and bytes of the block that failed.
        ensures stopped { IfErr result (λ e. (part : List ℕ)
            × Consumes (R.left input.old) (R.left input.new) part
            × IsNextPacketStop (position_of self.old)
            (stopped_input (R.left input.new) (R.failed input.new) part) e) }
    {
        // Until a packet is found, `packet` is the buffer for the rest of each block.
        'steps: while let Some(content) = self.next(input, packet)? {
            if let Content::Captured(slot) = content {
                self.copy_packet(slot, packet)?;
                return Ok(Some(slot.header));
            }
        }
        Ok(None)
    }
}
