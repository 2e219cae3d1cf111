//! The contents of a reply about an XDP socket, as a C struct.

ghost use Rattle.std.specs.Prelude.{◌≡◌, []};
ghost use Rattle.sock_diag_any.specs.AnyNla.{any_model};
ghost use Rattle.sockdiag_c.specs.Family.{HasValues, StoresDetails};
ghost use Rattle.sockdiag_c.specs.XdpDetails.{xdp_family};

use crate::details::{Number, ReplyDetails, store_details};
use crate::family_values::{Memory, set_record, split_header};
use netlink_core::{DecodeError, NlaBuffer};
use sock_diag_any::{AnyNla, Sockets};
use sock_diag_families::xdp::{XdpInfo, XdpResponseHeader, XdpStatistics, XdpUmem};

const _: () = prove!(std::mem::size_of::<XdpResponseHeader>() == 16);

const _: () = prove!(std::mem::size_of::<XdpInfo>() == 8);

const _: () = prove!(std::mem::size_of::<XdpUmem>() == 40);

const _: () = prove!(std::mem::size_of::<XdpStatistics>() == 48);

/// Everything that a reply contains about an XDP socket, by the attributes of `linux/xdp_diag.h`.
#[repr(C)]
#[derive(Clone, Copy, Default)]
pub struct XdpDetails {
    /// The header.
    pub header: XdpResponseHeader,
    /// 1 if `info` is set, else 0.
    pub has_info: u32,
    /// Interface and queue that the socket is bound to (`XDP_DIAG_INFO`, type 1).
    pub info: XdpInfo,
    /// User id of the owner (`XDP_DIAG_UID`, type 2).
    pub owner: Number,
    /// Number of entries of the receive ring (`XDP_DIAG_RX_RING`, type 3).
    pub receive_ring: Number,
    /// Number of entries of the transmit ring (`XDP_DIAG_TX_RING`, type 4).
    pub send_ring: Number,
    /// 1 if `umem` is set, else 0.
    pub has_umem: u32,
    /// Memory that the socket shares with the application (`XDP_DIAG_UMEM`, type 5).
    pub umem: XdpUmem,
    /// Number of entries of the ring that passes frames to the kernel (`XDP_DIAG_UMEM_FILL_RING`,
    /// type 6).
    pub fill_ring: Number,
    /// Number of entries of the ring that returns frames from the kernel
    /// (`XDP_DIAG_UMEM_COMPLETION_RING`, type 7).
    pub completion_ring: Number,
    /// Socket memory (`XDP_DIAG_MEMINFO`, type 8).
    pub memory: Memory,
    /// 1 if `statistics` is set, else 0.
    pub has_statistics: u32,
    /// Counters of the socket (`XDP_DIAG_STATS`, type 9).
    pub statistics: XdpStatistics,
}

const _: () = prove!(std::mem::size_of::<XdpDetails>() == 240);

/// Parses a reply about an XDP socket.
#[unsafe(no_mangle)]
pub extern "C" fn sockdiag_xdp_fill_details(
    payload: &[u8],
    details: &mut XdpDetails,
    later: &mut [u8],
) -> u32
    ensures { StoresDetails xdp_family payload.now record {
      old = (details.old, later.old);
      new = (details.new, later.new);
      returned = result;
    } }
{
    store_details(payload, details, later)
}

impl<'a> ReplyDetails<'a> for XdpDetails {
    type Nla = AnyNla<'a>;

    ghost family = { xdp_family };

    ghost model = { any_model };

    #[inline(always)]
    fn parse_header(payload: &'a [u8]) -> Result<(Self, &'a [u8]), DecodeError> {
        let (header, attributes) = split_header(payload)?;
        let mut details = XdpDetails::default();
        details.header = header;
        Ok((details, attributes))
    }

    #[inline(always)]
    fn read(nla: &NlaBuffer<'a>) -> Result<AnyNla<'a>, DecodeError> {
        AnyNla::read(Sockets::Xdp, nla)
    }

    fn set(&mut self, nla: AnyNla<'a>) {
        match nla {
            AnyNla::XdpInfo(info) => set_record(info, &mut self.has_info, &mut self.info),
            AnyNla::Owner(user) => self.owner.set(user),
            AnyNla::ReceiveRing(entries) => self.receive_ring.set(entries),
            AnyNla::SendRing(entries) => self.send_ring.set(entries),
            AnyNla::Umem(umem) => set_record(umem, &mut self.has_umem, &mut self.umem),
            AnyNla::FillRing(entries) => self.fill_ring.set(entries),
            AnyNla::CompletionRing(entries) => self.completion_ring.set(entries),
            AnyNla::Memory(memory) => self.memory.set(memory),
            AnyNla::Statistics(counters) => {
                set_record(counters, &mut self.has_statistics, &mut self.statistics);
            }
            // A reply about an XDP socket has no other attributes that are known.
            _ => {}
        }
    }

    fn clear_values(&mut self)
        ensures header { self.new.header ≡ self.old.header }
        ensures values { HasValues xdp_family.read xdp_family.rows self.new [] }
    {
        let header = self.header;
        *self = XdpDetails::default();
        self.header = header;
    }
}
