//! The protocol of an IPv4 or IPv6 socket. In the contracts, `collected found.now` is what the
//! attributes in `found` say.

ghost use Rattle.std.specs.Prelude.{◌≡◌, option_and_then};
ghost use Rattle.sock_diag_any.specs.AnyParts.{socket_protocol_of};
ghost use Rattle.sslist_lister.specs.Collected.{collected, value_in};
ghost use Rattle.sslist_lister.specs.Protocol.{is_for_raw, protocol_in};

use crate::collected::Attributes;
use sock_diag_any::AnyNla;
use sock_diag_records::constants::{INET_DIAG_PROTOCOL, IPPROTO_RAW};

/// Returns the protocol of the socket that a reply with the attributes `found` is about: that of
/// its attribute `INET_DIAG_PROTOCOL`, or else `requested`, that of the request, if it is known. If
/// the request is for raw sockets, returns `requested`, since the attribute then is the protocol of
/// their packets.
pub(crate) fn protocol_in(requested: Option<u32>, found: &Attributes<'_>) -> Option<u32>
    ensures { result ≡ protocol_in requested (collected found.now) }
{
    if is_for_raw(requested) {
        return requested;
    }
    match protocol_attribute(found) {
        Some(protocol) => Some(protocol.into()),
        None => requested,
    }
}

/// Returns the value of the attribute `INET_DIAG_PROTOCOL`, if the reply has it.
fn protocol_attribute(found: &Attributes<'_>) -> Option<u8>
    ensures { result
        ≡ option_and_then socket_protocol_of (value_in INET_DIAG_PROTOCOL (collected found.now)) }
{
    match found.value_of_kind(INET_DIAG_PROTOCOL)? {
        AnyNla::Protocol(protocol) => Some(*protocol),
        _ => None,
    }
}

/// Returns whether a request of this protocol is for raw sockets. Returns false for `None`.
fn is_for_raw(requested: Option<u32>) -> bool
    ensures { result ≡ is_for_raw requested }
{
    match requested {
        Some(protocol) => protocol == IPPROTO_RAW as u32,
        None => false,
    }
}
