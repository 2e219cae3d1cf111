//! Names in the column Netid, and of reasons why a value is invalid. The table and the lines of
//! JSON have the same names.

ghost use Rattle.std.specs.Prelude.{◌≡◌};
ghost use Rattle.sslist_lister.specs.Details.{error_reason};
ghost use Rattle.sslist_lister.specs.Others.{other_kind, vsock_kind};
ghost use Rattle.sslist_lister.specs.Table.{family_name, inet_kind, unix_kind};

use netlink_core::DecodeError;
use sock_diag_records::constants::{
    AF_INET6, IPPROTO_DCCP, IPPROTO_RAW, IPPROTO_SCTP, IPPROTO_UDPLITE, SOCK_DGRAM, SOCK_RAW,
    SOCK_SEQPACKET, SOCK_STREAM,
};
use sslist_command_line::{Family, IPPROTO_MPTCP, IPPROTO_TCP, IPPROTO_UDP};

/// Returns the column Netid of a UNIX socket, by its type `SOCK_..`, as ss(8) prints it.
pub(crate) fn name_of_unix_kind(kind: u8) -> &'static str
    ensures { result.now ≡ unix_kind kind }
{
    match kind {
        SOCK_STREAM => "u_str",
        SOCK_DGRAM => "u_dgr",
        SOCK_SEQPACKET => "u_seq",
        _ => "unix",
    }
}

/// Returns the name of the protocol of an IPv4 or IPv6 socket, as ss(8) prints it, which does not
/// list UDP-Lite. Returns the name of the family if the protocol is not known (`None`) or has no
/// name here.
pub(crate) fn name_of_inet_kind(protocol: Option<u32>, family: u8) -> &'static str
    ensures { result.now ≡ inet_kind protocol family }
{
    match protocol {
        Some(IPPROTO_TCP) => "tcp",
        Some(IPPROTO_UDP) => "udp",
        Some(number) if number == IPPROTO_DCCP as u32 => "dccp",
        Some(number) if number == IPPROTO_SCTP as u32 => "sctp",
        Some(number) if number == IPPROTO_UDPLITE as u32 => "udplite",
        Some(number) if number == IPPROTO_RAW as u32 => "raw",
        Some(IPPROTO_MPTCP) => "mptcp",
        _ => name_of_inet_family(family),
    }
}

/// Returns the name of a family: `inet6` for `AF_INET6`, or else `inet`.
pub(crate) fn name_of_inet_family(family: u8) -> &'static str
    ensures { result.now ≡ family_name family }
{
    if family == AF_INET6 { "inet6" } else { "inet" }
}

/// Returns the column Netid of a netlink, packet, vsock or XDP socket, by its family and its type
/// `SOCK_..`, as ss(8) prints it.
pub(crate) fn name_of_other_kind(family: Family, kind: u8) -> &'static str
    ensures { result.now ≡ other_kind family kind }
{
    match family {
        Family::Netlink => "nl",
        Family::Packet if kind == SOCK_RAW => "p_raw",
        Family::Packet => "p_dgr",
        Family::Vsock => name_of_vsock_kind(kind),
        Family::Xdp => "xdp",
    }
}

/// Returns the column Netid of a vsock socket, by its type `SOCK_..`, as ss(8) prints it.
fn name_of_vsock_kind(kind: u8) -> &'static str
    ensures { result.now ≡ vsock_kind kind }
{
    match kind {
        SOCK_STREAM => "v_str",
        SOCK_DGRAM => "v_dgr",
        SOCK_SEQPACKET => "v_seq",
        _ => "vsock",
    }
}

/// Returns the reason why a value with this error is invalid, in one word: `refused` for an error
/// that has no other word.
pub(crate) fn reason_of(error: &DecodeError) -> &'static str
    ensures { result.now ≡ error_reason error.now }
{
    match error {
        DecodeError::BufferTooSmall { .. } => "too-short",
        DecodeError::WrongLength { .. } | DecodeError::NotMultipleOfFour { .. } => "wrong-length",
        DecodeError::NotUtf8 => "not-utf8",
        DecodeError::NameEmpty => "empty",
        DecodeError::NameInnerZero { .. } => "inner-zero",
        DecodeError::NameWithoutEnd => "no-end",
        _ => "refused",
    }
}
