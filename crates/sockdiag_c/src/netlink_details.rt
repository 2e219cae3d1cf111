//! The contents of a reply about a netlink socket, as a C struct.

ghost use Rattle.sock_diag_any.specs.AnyNla.{any_model};
ghost use Rattle.sockdiag_c.specs.Family.{StoresDetails};
ghost use Rattle.sockdiag_c.specs.NetlinkDetails.{netlink_family};

use crate::details::{BYTES, Number, ReplyDetails, Text, store_details};
use crate::family_values::{Memory, split_header};
use netlink_core::{DecodeError, NlaBuffer};
use sock_diag_any::{AnyNla, Sockets};
use sock_diag_families::netlink::NetlinkResponseHeader;

const _: () = prove!(std::mem::size_of::<NetlinkResponseHeader>() == 32);

/// What a reply contains about a netlink socket, by the attributes of `linux/netlink_diag.h`,
/// except the rings `NETLINK_DIAG_RX_RING` and `NETLINK_DIAG_TX_RING`, which Linux 4.6 removed.
/// Attributes without a field are not an error: `sockdiag_next_attribute` returns them.
#[repr(C)]
#[derive(Clone, Copy, Default)]
pub struct NetlinkDetails<'a> {
    /// The header.
    pub header: NetlinkResponseHeader,
    /// Socket memory (`NETLINK_DIAG_MEMINFO`, type 0).
    pub memory: Memory,
    /// Groups that the socket is a member of, one bit each; group 1 is the lowest bit of the first
    /// byte (`NETLINK_DIAG_GROUPS`, type 1). The kind of the text is `SOCKDIAG_BYTES`.
    pub groups: Text<'a>,
    /// The bits `NDIAG_FLAG_..` (`NETLINK_DIAG_FLAGS`, type 4).
    pub flags: Number,
}

const _: () = prove!(std::mem::size_of::<NetlinkDetails<'static>>() == 136);

/// Parses a reply about a netlink socket. Linux lists a netlink socket twice if it is a member of a
/// group.
#[unsafe(no_mangle)]
pub extern "C" fn sockdiag_netlink_fill_details<'a>(
    payload: &'a [u8],
    details: &mut NetlinkDetails<'a>,
    later: &mut [u8],
) -> u32
    ensures { StoresDetails netlink_family payload.entry.now record {
      old = (details.old, later.old);
      new = (details.new, later.new);
      returned = result;
    } }
{
    store_details(payload, details, later)
}

impl<'a> ReplyDetails<'a> for NetlinkDetails<'a> {
    type Nla = AnyNla<'a>;

    ghost family = { netlink_family };

    ghost model = { any_model };

    #[inline(always)]
    fn parse_header(payload: &'a [u8]) -> Result<(Self, &'a [u8]), DecodeError> {
        let (header, attributes) = split_header(payload)?;
        let mut details = NetlinkDetails::default();
        details.header = header;
        Ok((details, attributes))
    }

    #[inline(always)]
    fn read(nla: &NlaBuffer<'a>) -> Result<AnyNla<'a>, DecodeError> {
        AnyNla::read(Sockets::Netlink, nla)
    }

    fn set(&mut self, nla: AnyNla<'a>) {
        match nla {
            AnyNla::Memory(memory) => self.memory.set(memory),
            AnyNla::Groups(bits) => self.groups.set(BYTES, bits),
            AnyNla::NetlinkFlags(bits) => self.flags.set(bits),
            // A reply about a netlink socket has no other attributes that are known.
            _ => {}
        }
    }

    fn clear_values(&mut self) {
        let header = self.header;
        *self = NetlinkDetails::default();
        self.header = header;
    }
}
