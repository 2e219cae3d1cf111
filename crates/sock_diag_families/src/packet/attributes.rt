//! The values of attributes of a reply about a packet socket.

ghost use Rattle.std.proofs.Common.{rules};
ghost use Rattle.std.specs.Prelude.{◌≡◌};
ghost use Rattle.sock_diag_families.specs.PacketAttributes.{parse_packet_info, parse_packet_ring};

use super::PACKET_DIAG_INFO;
use crate::values::enough_in;
use netlink_core::fields::u32s_at;
use netlink_core::{DecodeError, Exact};
use sock_diag_records::constants::AF_PACKET;

// Size of `struct packet_diag_info` in bytes.
const PACKET_INFO_LEN: usize = 24;

// Size of `struct packet_diag_ring` in bytes.
const PACKET_RING_LEN: usize = 28;

/// Settings of a packet socket: `struct packet_diag_info` of `linux/packet_diag.h`.
/// `linux/if_packet.h` has the socket options.
///
/// It is the first 24 bytes of the value of `PACKET_DIAG_INFO`: six `u32`, little-endian.
#[repr(C)]
#[derive(Clone, Copy, Debug, Default, PartialEq, Eq)]
pub struct PacketInfo {
    /// Index of the interface that the socket is bound to (`pdi_index`), at offset 0. 0 means all
    /// interfaces.
    pub interface: u32,
    /// Version of the ring's frame format (`pdi_version`), `TPACKET_V*`, at offset 4.
    pub version: u32,
    /// Headroom that is reserved in a frame of the ring, in bytes (`pdi_reserve`, option
    /// `PACKET_RESERVE`), at offset 8.
    pub reserve: u32,
    /// Copy threshold (`pdi_copy_thresh`, option `PACKET_COPY_THRESH`), at offset 12. If it is not
    /// 0, a packet that is longer than a frame of the ring is also copied to the receive queue.
    pub copy_threshold: u32,
    /// Type of the timestamps (`pdi_tstamp`, option `PACKET_TIMESTAMP`), at offset 16.
    pub timestamp: u32,
    /// Flags (`pdi_flags`), bits `PDI_*`, at offset 20.
    pub flags: u32,
}

impl Exact for PacketInfo {
    ghost exact = { Prim.search rules };
}

impl PacketInfo {
    /// Parses the first 24 bytes of the value of an attribute `PACKET_DIAG_INFO`, and ignores the
    /// bytes after them. Fewer bytes are [`DecodeError::BufferTooSmall`].
    pub fn parse(value: &[u8]) -> Result<PacketInfo, DecodeError>
        ensures { result ≡ parse_packet_info value.now }
    {
        let value = enough_in(value, AF_PACKET, PACKET_DIAG_INFO, PACKET_INFO_LEN)?;
        let [
            interface,
            version,
            reserve,
            copy_threshold,
            timestamp,
            flags,
        ] = u32s_at::<6>(value, 0);
        Ok(PacketInfo {
            interface,
            version,
            reserve,
            copy_threshold,
            timestamp,
            flags,
        })
    }
}

/// A ring that a packet socket shares with its program: `struct packet_diag_ring` of
/// `linux/packet_diag.h`.
///
/// It is the first 28 bytes of the value of `PACKET_DIAG_RX_RING` or `PACKET_DIAG_TX_RING`: seven
/// `u32`, little-endian.
#[repr(C)]
#[derive(Clone, Copy, Debug, Default, PartialEq, Eq)]
pub struct PacketRing {
    /// Size of a block in bytes (`pdr_block_size`), at offset 0.
    pub block_size: u32,
    /// Number of blocks (`pdr_block_nr`), at offset 4.
    pub blocks: u32,
    /// Size of a frame in bytes (`pdr_frame_size`), at offset 8.
    pub frame_size: u32,
    /// Number of frames (`pdr_frame_nr`), at offset 12.
    pub frames: u32,
    /// Time after which a block that is not full is passed to the program, in milliseconds
    /// (`pdr_retire_tmo`), at offset 16.
    pub retire_timeout: u32,
    /// Size of the program's private area in a block, in bytes (`pdr_sizeof_priv`), at offset 20.
    pub private_size: u32,
    /// Features (`pdr_features`), bits `TP_FT_*`, at offset 24.
    pub features: u32,
}

impl Exact for PacketRing {
    ghost exact = { Prim.search rules };
}

impl PacketRing {
    /// Parses the first 28 bytes of the value of an attribute `PACKET_DIAG_RX_RING` or
    /// `PACKET_DIAG_TX_RING`, and ignores the bytes after them. Fewer bytes are `BufferTooSmall`,
    /// which contains `kind`, the kind of the attribute. The kind has no other effect.
    pub fn parse(value: &[u8], kind: u16) -> Result<PacketRing, DecodeError>
        ensures { result ≡ parse_packet_ring kind value.now }
    {
        let value = enough_in(value, AF_PACKET, kind, PACKET_RING_LEN)?;
        let [
            block_size,
            blocks,
            frame_size,
            frames,
            retire_timeout,
            private_size,
            features,
        ] = u32s_at::<7>(value, 0);
        Ok(PacketRing {
            block_size,
            blocks,
            frame_size,
            frames,
            retire_timeout,
            private_size,
            features,
        })
    }
}
