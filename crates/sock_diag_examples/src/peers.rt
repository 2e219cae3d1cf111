//! An attribute of a reply, with `sock_diag_attributes`.

ghost use Rattle.std.specs.Prelude.{◌≡◌, length, SomeIff};
ghost use Rattle.byteorder.specs.Endian.{little_number};
ghost use Rattle.netlink_core.specs.Attribute.{attribute_kind};
ghost use Rattle.netlink_core.specs.Walk.{buffered_attribute};
ghost use Rattle.sock_diag_records.specs.declared.constants.TheConstants.{UNIX_DIAG_PEER};

use netlink_core::NlaBuffer;
use sock_diag_attributes::unix::nlas::NlaView;

/// Returns the inode of the peer, a little-endian u32: the value of an attribute of a reply about a
/// UNIX socket, if its kind is `UNIX_DIAG_PEER` (2) and its value has four bytes. Otherwise returns
/// `None`. In the contract `buffered_attribute nla.now` is the attribute in `nla`.
pub fn peer(nla: &NlaBuffer<'_>) -> Option<u32>
    ensures { SomeIff result
        ((attribute_kind (buffered_attribute nla.now) ≡ UNIX_DIAG_PEER)
        × (length (buffered_attribute nla.now).value ≡ 4))
        (little_number 4 (buffered_attribute nla.now).value) }
{
    match NlaView::parse(nla) {
        Ok(NlaView::Peer(inode)) => Some(inode),
        _ => None,
    }
}
