//! A loop over a dump with owned messages, as in programs that use the Rust crate.
//! docs/MIGRATING.md shows both.

use netlink_core::{DecodeError, MessageStrings, NetlinkMessage, NetlinkPayload};
use netlink_packet_sock_diag::SockDiagMessage;
use netlink_packet_sock_diag::unix::UnixResponse;
use netlink_packet_sock_diag::unix::nlas::{Nla, UnixDiagName};
use std::alloc::{AllocError, Global};

/// Appends the paths in the replies of a datagram, and returns whether it has an `NLMSG_DONE`.
pub fn add_paths(
    alloc: Global,
    datagram: &[u8],
    paths: &mut Vec<Vec<u8>>,
) -> Result<bool, DecodeError> {
    for bytes in MessageStrings::new(datagram) {
        let message = NetlinkMessage::<SockDiagMessage>::deserialize(alloc, bytes?)?;
        match &message.payload {
            NetlinkPayload::InnerMessage(SockDiagMessage::UnixResponse(reply)) => {
                add_path(alloc, reply, paths)?;
            }
            NetlinkPayload::Done(_) => return Ok(true),
            _ => {}
        }
    }
    Ok(false)
}

fn add_path(
    alloc: Global,
    reply: &UnixResponse,
    paths: &mut Vec<Vec<u8>>,
) -> Result<(), AllocError> {
    for nla in reply.nlas.as_slice() {
        if let Nla::Name(UnixDiagName::Pathname(path)) = nla {
            paths.push(Vec::from_slice(alloc, path)?)?;
        }
    }
    Ok(())
}
