//! The contents of a reply about a vsock socket: its header.

ghost use Rattle.std.specs.Prelude.{◌≡◌, []};
ghost use Rattle.sock_diag_any.specs.AnyNla.{any_model};
ghost use Rattle.sockdiag_c.specs.Family.{HasValues, StoresDetails};
ghost use Rattle.sockdiag_c.specs.VsockDetails.{vsock_family};

use crate::details::{ReplyDetails, store_details};
use crate::family_values::split_header;
use netlink_core::{DecodeError, NlaBuffer};
use sock_diag_any::{AnyNla, Sockets};
use sock_diag_families::vsock::VsockResponseHeader;

const _: () = prove!(std::mem::size_of::<VsockResponseHeader>() == 32);

/// Parses a reply about a vsock socket. Linux sends no attributes: of bytes after the header only
/// the framing is checked.
#[unsafe(no_mangle)]
pub extern "C" fn sockdiag_vsock_fill_details(
    payload: &[u8],
    details: &mut VsockResponseHeader,
    later: &mut [u8],
) -> u32
    ensures { StoresDetails vsock_family payload.now record {
      old = (details.old, later.old);
      new = (details.new, later.new);
      returned = result;
    } }
{
    store_details(payload, details, later)
}

// A reply about a vsock socket has no attributes that are known.
impl<'a> ReplyDetails<'a> for VsockResponseHeader {
    type Nla = AnyNla<'a>;

    ghost family = { vsock_family };

    ghost model = { any_model };

    #[inline(always)]
    fn parse_header(payload: &'a [u8]) -> Result<(Self, &'a [u8]), DecodeError> {
        split_header(payload)
    }

    #[inline(always)]
    fn read(nla: &NlaBuffer<'a>) -> Result<AnyNla<'a>, DecodeError> {
        AnyNla::read(Sockets::Vsock, nla)
    }

    #[inline(always)]
    fn set(&mut self, _nla: AnyNla<'a>) {}

    fn clear_values(&mut self)
        ensures header { self.new ≡ self.old }
        ensures values { HasValues vsock_family.read vsock_family.rows self.new [] }
    {}
}
