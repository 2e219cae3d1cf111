//! Requests for netlink, packet, XDP and vsock sockets, serialized as whole netlink messages.

ghost use Rattle.std.specs.Prelude.{◌≡◌, ◌≢◌, ◌⊎◌};
ghost use Rattle.sockdiag_c.specs.FamilyRequests.{show_message, vsock_message};
ghost use Rattle.netlink_core.specs.Errors.{error_code};
ghost use Rattle.sockdiag_c.specs.Requests.{WritesMessage};
ghost use Rattle.sockdiag_c.specs.Rewriting.{WritesNothing};

use crate::requests::{RequestHeader, write_message};
use crate::rewriting::reject;
use netlink_core::DecodeError;
use netlink_packet_sock_diag::constants::SOCK_DIAG_BY_FAMILY;
use netlink_packet_sock_diag::{AF_NETLINK, AF_PACKET};
use sock_diag_families::vsock;
use sock_diag_families::xdp::AF_XDP;

/// A request for netlink, packet or XDP sockets: `struct netlink_diag_req`, `packet_diag_req` or
/// `xdp_diag_req` of `linux/netlink_diag.h`, `linux/packet_diag.h` or `linux/xdp_diag.h`.
#[repr(C)]
#[derive(Clone, Copy)]
pub struct ShowRequest {
    /// Fields of the netlink header.
    pub header: RequestHeader,
    /// `AF_NETLINK`, `AF_PACKET` or `AF_XDP` (`sdiag_family`, at 0).
    pub family: u8,
    /// Protocol of netlink sockets (`sdiag_protocol`, at 1), one of `NETLINK_..`, such as 0 for
    /// `NETLINK_ROUTE`, or `NDIAG_PROTO_ALL` for all. 0 for other families.
    pub protocol: u8,
    /// Inode, to request a single socket (`ndiag_ino`, `pdiag_ino`, `xdiag_ino`, at 4). Linux only
    /// lists these sockets, and ignores it.
    pub inode: u32,
    /// Attributes that the replies shall have, a set of `NDIAG_SHOW_..`, `PACKET_SHOW_..` or
    /// `XDP_SHOW_..` (`ndiag_show`, `pdiag_show`, `xdiag_show`, at 8).
    pub show: u32,
    /// Cookie that distinguishes sockets with the same inode (`ndiag_cookie`, `pdiag_cookie`,
    /// `xdiag_cookie`, at 12), to request a single socket. Linux ignores it.
    pub cookie: u64,
}

const _: () = prove!(std::mem::size_of::<ShowRequest>() == 32);

/// A request for vsock sockets: `struct vsock_diag_req` of `linux/vm_sockets_diag.h`.
#[repr(C)]
#[derive(Clone, Copy)]
pub struct VsockRequest {
    /// Fields of the netlink header.
    pub header: RequestHeader,
    /// States to include, with the bit `1 << TCP_LISTEN` for `TCP_LISTEN` (`vdiag_states`, at 4).
    /// `UINT32_MAX` includes all.
    pub states: u32,
    /// Cookie that distinguishes sockets (`vdiag_cookie`, at 16). Linux ignores it.
    pub cookie: u64,
}

const _: () = prove!(std::mem::size_of::<VsockRequest>() == 24);

/// Writes a request for netlink, packet or XDP sockets: 36 bytes. A family other than `AF_NETLINK`,
/// `AF_PACKET` and `AF_XDP` is `SOCKDIAG_UNKNOWN_FAMILY`.
#[unsafe(no_mangle)]
pub extern "C" fn sockdiag_write_show_request(
    request: &ShowRequest,
    buffer: &mut [u8],
    written: &mut usize,
) -> u32
    ensures message { (request.now.family ≡ AF_NETLINK) ⊎ ((request.now.family ≡ AF_PACKET)
        ⊎ (request.now.family ≡ AF_XDP)) → WritesMessage 36
        (show_message request.now.family request.now) record {
          old = buffer.old;
          new = buffer.new;
          written = written.new;
          returned = result;
        } }
    ensures family { request.now.family ≢ AF_NETLINK → request.now.family ≢ AF_PACKET
        → request.now.family ≢ AF_XDP
        → WritesNothing 0 (error_code (DecodeError.UnknownFamily request.now.family)) record {
          old = buffer.old;
          new = buffer.new;
          written = written.new;
          returned = result;
        } }
{
    match request.family {
        AF_NETLINK => write_show::<AF_NETLINK>(request, buffer, written),
        AF_PACKET => write_show::<AF_PACKET>(request, buffer, written),
        AF_XDP => write_show::<AF_XDP>(request, buffer, written),
        family => reject(&DecodeError::UnknownFamily { family }, written),
    }
}

/// Writes a request for vsock sockets: 40 bytes.
#[unsafe(no_mangle)]
pub extern "C" fn sockdiag_write_vsock_request(
    request: &VsockRequest,
    buffer: &mut [u8],
    written: &mut usize,
) -> u32
    ensures { WritesMessage 40 (vsock_message request.now) record {
      old = buffer.old;
      new = buffer.new;
      written = written.new;
      returned = result;
    } }
{
    let record = vsock::VsockRequest {
        states: request.states,
        cookie: request.cookie,
    };
    write_message(
        SOCK_DIAG_BY_FAMILY,
        &request.header,
        &record,
        &[],
        buffer,
        written,
    )
}

// Writes a request for the sockets of this family, of 36 bytes.
fn write_show<const FAMILY: u8>(
    request: &ShowRequest,
    buffer: &mut [u8],
    written: &mut usize,
) -> u32
    ensures { WritesMessage 36 (show_message FAMILY request.now) record {
      old = buffer.old;
      new = buffer.new;
      written = written.new;
      returned = result;
    } }
{
    let record = sock_diag_families::ShowRequest::<FAMILY> {
        protocol: request.protocol,
        inode: request.inode,
        show: request.show,
        cookie: request.cookie,
    };
    write_message(
        SOCK_DIAG_BY_FAMILY,
        &request.header,
        &record,
        &[],
        buffer,
        written,
    )
}
