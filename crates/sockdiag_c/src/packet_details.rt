//! The contents of a reply about a packet socket, as a C struct.

ghost use Rattle.sock_diag_any.specs.AnyNla.{any_model};
ghost use Rattle.sockdiag_c.specs.Family.{StoresDetails};
ghost use Rattle.sockdiag_c.specs.PacketDetails.{packet_family};

use crate::details::{BYTES, Number, ReplyDetails, Text, store_details};
use crate::family_values::{Memory, set_record, split_header};
use netlink_core::{DecodeError, NlaBuffer};
use sock_diag_any::{AnyNla, Sockets};
use sock_diag_families::packet::{PacketInfo, PacketResponseHeader, PacketRing};

const _: () = prove!(std::mem::size_of::<PacketResponseHeader>() == 16);

const _: () = prove!(std::mem::size_of::<PacketInfo>() == 24);

const _: () = prove!(std::mem::size_of::<PacketRing>() == 28);

/// Everything that a reply contains about a packet socket, by the attributes of
/// `linux/packet_diag.h`.
#[repr(C)]
#[derive(Clone, Copy, Default)]
pub struct PacketDetails<'a> {
    /// The header.
    pub header: PacketResponseHeader,
    /// 1 if `info` is set, else 0.
    pub has_info: u32,
    /// Settings of the socket (`PACKET_DIAG_INFO`, type 0).
    pub info: PacketInfo,
    /// Memberships of the socket (`PACKET_ADD_MEMBERSHIP`, packet(7); `PACKET_DIAG_MCLIST`, type
    /// 1), 44 bytes each, which `sockdiag_next_membership` reads: addresses that it also receives,
    /// and promiscuous or all-multicast mode, which have no address. The kind of the text is
    /// `SOCKDIAG_BYTES`.
    pub memberships: Text<'a>,
    /// 1 if `receive_ring` is set, else 0.
    pub has_receive_ring: u32,
    /// Receive ring (`PACKET_DIAG_RX_RING`, type 2).
    pub receive_ring: PacketRing,
    /// 1 if `send_ring` is set, else 0.
    pub has_send_ring: u32,
    /// Transmit ring (`PACKET_DIAG_TX_RING`, type 3).
    pub send_ring: PacketRing,
    /// Id of the fanout group in the low 16 bits, mode in the high 16 bits (`PACKET_DIAG_FANOUT`,
    /// type 4).
    pub fanout: Number,
    /// User id of the owner (`PACKET_DIAG_UID`, type 5).
    pub owner: Number,
    /// Socket memory (`PACKET_DIAG_MEMINFO`, type 6).
    pub memory: Memory,
    /// Instructions of the socket filter (`PACKET_DIAG_FILTER`, type 7), 8 bytes each, which
    /// `sockdiag_next_instruction` reads. The kind of the text is `SOCKDIAG_BYTES`.
    pub filter: Text<'a>,
}

const _: () = prove!(std::mem::size_of::<PacketDetails<'static>>() == 248);

/// Parses a reply about a packet socket.
#[unsafe(no_mangle)]
pub extern "C" fn sockdiag_packet_fill_details<'a>(
    payload: &'a [u8],
    details: &mut PacketDetails<'a>,
    later: &mut [u8],
) -> u32
    ensures { StoresDetails packet_family payload.entry.now record {
      old = (details.old, later.old);
      new = (details.new, later.new);
      returned = result;
    } }
{
    store_details(payload, details, later)
}

impl<'a> ReplyDetails<'a> for PacketDetails<'a> {
    type Nla = AnyNla<'a>;

    ghost family = { packet_family };

    ghost model = { any_model };

    #[inline(always)]
    fn parse_header(payload: &'a [u8]) -> Result<(Self, &'a [u8]), DecodeError> {
        let (header, attributes) = split_header(payload)?;
        let mut details = PacketDetails::default();
        details.header = header;
        Ok((details, attributes))
    }

    #[inline(always)]
    fn read(nla: &NlaBuffer<'a>) -> Result<AnyNla<'a>, DecodeError> {
        AnyNla::read(Sockets::Packet, nla)
    }

    fn set(&mut self, nla: AnyNla<'a>) {
        match nla {
            AnyNla::PacketInfo(info) => set_record(info, &mut self.has_info, &mut self.info),
            AnyNla::Memberships(records) => self.memberships.set(BYTES, records),
            AnyNla::ReceiveFrames(ring) => {
                set_record(ring, &mut self.has_receive_ring, &mut self.receive_ring);
            }
            AnyNla::SendFrames(ring) => {
                set_record(ring, &mut self.has_send_ring, &mut self.send_ring);
            }
            AnyNla::Fanout(fanout) => self.fanout.set(fanout),
            AnyNla::Owner(user) => self.owner.set(user),
            AnyNla::Memory(memory) => self.memory.set(memory),
            AnyNla::Filter(program) => self.filter.set(BYTES, program),
            // A reply about a packet socket has no other attributes that are known.
            _ => {}
        }
    }

    fn clear_values(&mut self) {
        let header = self.header;
        *self = PacketDetails::default();
        self.header = header;
    }
}
