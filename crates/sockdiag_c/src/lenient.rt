//! The contents of a reply of which attributes may be rejected: the first valid attribute and the
//! first error of each kind.

ghost use Rattle.std.specs.Prelude.{◌≡◌, ◌<◌, ◌==◌, if◌then◌else◌, ℕ, None, Option, Some};
ghost use Rattle.std.specs.Prelude.{slice_index};
ghost use Rattle.std.specs.Option.{option_or};
ghost use Rattle.netlink_core.specs.declared.error.DecodeError.{DecodeError};
ghost use Rattle.sockdiag_c.specs.Family.{StoresLenientDetails, optional_code};
ghost use Rattle.sockdiag_c.specs.InetDetails.{inet_family};
ghost use Rattle.sockdiag_c.specs.NetlinkDetails.{netlink_family};
ghost use Rattle.sockdiag_c.specs.PacketDetails.{packet_family};
ghost use Rattle.sockdiag_c.specs.UnixDetails.{unix_family};
ghost use Rattle.sockdiag_c.specs.VsockDetails.{vsock_family};
ghost use Rattle.sockdiag_c.specs.XdpDetails.{xdp_family};

use crate::details::store_lenient_details;
use crate::inet_details::InetDetails;
use crate::netlink_details::NetlinkDetails;
use crate::packet_details::PacketDetails;
use crate::unix_details::UnixDetails;
use crate::xdp_details::XdpDetails;
use netlink_core::DecodeError;
use sock_diag_families::vsock::VsockResponseHeader;

/// Number of elements of `errors` of `struct sockdiag_rejections`, and so the end of a loop over
/// them. Each kind of attribute that can be rejected is less.
pub const REJECTION_KINDS: usize = 32;

/// Why attributes of a reply are rejected: codes of errors, as `sockdiag_error_text` takes them. A
/// code is 0 if there is no such error. If a reply has several attributes of a kind, the kind can
/// have a value in the details and an error here: the value is that of the first valid attribute,
/// and the error that of the first rejected one. The index of an element of `errors` is a kind of
/// attribute, whose meaning depends on the family of the reply. The kinds that can be rejected are:
/// - UNIX sockets: 0 to 6, from `UNIX_DIAG_NAME` to `UNIX_DIAG_SHUTDOWN`;
/// - IPv4 and IPv6 sockets: `INET_DIAG_MEMINFO` (1), `INET_DIAG_INFO` (2), `INET_DIAG_CONG` (4),
///   `INET_DIAG_TOS` (5), `INET_DIAG_TCLASS` (6), `INET_DIAG_SKMEMINFO` (7), `INET_DIAG_SHUTDOWN`
///   (8), `INET_DIAG_PROTOCOL` (10), `INET_DIAG_SKV6ONLY` (11), `INET_DIAG_MARK` (15) and
///   `INET_DIAG_CLASS_ID` (17);
/// - netlink sockets: `NETLINK_DIAG_MEMINFO` (0) and `NETLINK_DIAG_FLAGS` (4) of
///   `linux/netlink_diag.h`;
/// - packet sockets: 0 to 7, from `PACKET_DIAG_INFO` to `PACKET_DIAG_FILTER` of
///   `linux/packet_diag.h`;
/// - vsock sockets: none;
/// - XDP sockets: 1 to 9, from `XDP_DIAG_INFO` to `XDP_DIAG_STATS` of `linux/xdp_diag.h`.
#[repr(C)]
#[derive(Clone, Copy, Default)]
pub struct Rejections {
    /// Code of the first error, in the order of the bytes: the strict call for this reply, a
    /// `sockdiag_.._get_details`, returns the same code. If it is 0, both calls return the same
    /// details.
    pub first: u32,
    /// Code of the framing error after the last attribute, 7 to 9. What follows is not parsed.
    pub framing: u32,
    /// Codes of the errors of attributes. The index is the kind, below `SOCKDIAG_REJECTION_KINDS`:
    /// for an IPv4 or IPv6 socket `errors[SOCKDIAG_INET_DIAG_INFO]` is the error of the first
    /// `INET_DIAG_INFO` that is rejected. `sockdiag_next_attribute` returns the bytes of the
    /// attribute.
    pub errors: [u8; REJECTION_KINDS],
}

const _: () = prove!(std::mem::size_of::<Rejections>() == 40);

/// The errors of a reply after its header.
#[derive(Clone, Copy, Default)]
pub(crate) struct Errors {
    /// The first error.
    pub(crate) first: Option<DecodeError>,
    /// The codes of the errors.
    pub(crate) rejections: Rejections,
}

impl Errors {
    /// Adds an error: it is the first one if there was none. Its code as a framing error or as the
    /// error of a kind is not stored; the caller does that.
    pub(crate) fn add(&mut self, error: DecodeError)
        ensures first { self.new.first ≡ option_or self.old.first (Some error) }
        // If the code `first` of the rejections was that of the first error before, it still is.
        ensures code { self.old.rejections.first ≡ optional_code self.old.first
            → self.new.rejections.first ≡ optional_code self.new.first }
        ensures others { (self.new.rejections.framing ≡ self.old.rejections.framing)
            × (self.new.rejections.errors ≡ self.old.rejections.errors) }
    {
        if self.first.is_none() {
            self.first = Some(error);
            self.rejections.first = u32::from(error.number());
        }
    }

    /// Adds the error of an attribute of this kind.
    pub(crate) fn add_value(&mut self, kind: u16, error: DecodeError)
        ensures first { self.new.first ≡ option_or self.old.first (Some error) }
        ensures code { self.old.rejections.first ≡ optional_code self.old.first
            → self.new.rejections.first ≡ optional_code self.new.first }
        ensures framing { self.new.rejections.framing ≡ self.old.rejections.framing }
        // For each kind `k` with an element: `o` is the first error of this kind before, or None.
        // It stays the first one; if there was none, and `k` is this kind, `error` is.
        ensures errors { (k : ℕ) (o : Option DecodeError) → k < REJECTION_KINDS
            → slice_index self.old.rejections.errors k ≡ optional_code o
            → slice_index self.new.rejections.errors k
            ≡ optional_code (option_or o (if kind == k then Some error else None)) }
    {
        let index = usize::from(kind);
        if index < REJECTION_KINDS && self.rejections.errors[index] == 0 {
            self.rejections.errors[index] = error.number();
        }
        self.add(error);
    }
}

/// Parses a reply about a UNIX socket leniently.
#[unsafe(no_mangle)]
pub extern "C" fn sockdiag_unix_fill_lenient_details<'a>(
    payload: &'a [u8],
    details: &mut UnixDetails<'a>,
    later: &mut [u8],
    rejections: &mut Rejections,
) -> u32
    ensures { StoresLenientDetails unix_family payload.entry.now record {
      old = ((details.old, rejections.old), later.old);
      new = ((details.new, rejections.new), later.new);
      returned = result;
    } }
{
    store_lenient_details(payload, details, later, rejections)
}

/// Parses a reply about an IPv4 or IPv6 socket leniently. An `INET_DIAG_INFO` of fewer than 232
/// bytes, as of MPTCP, is in the rejections: `sockdiag_inet_get_tcp_info` and
/// `sockdiag_inet_get_mptcp_info` return a value of any length above 0.
#[unsafe(no_mangle)]
pub extern "C" fn sockdiag_inet_fill_lenient_details<'a>(
    payload: &'a [u8],
    details: &mut InetDetails<'a>,
    later: &mut [u8],
    rejections: &mut Rejections,
) -> u32
    ensures { StoresLenientDetails inet_family payload.entry.now record {
      old = ((details.old, rejections.old), later.old);
      new = ((details.new, rejections.new), later.new);
      returned = result;
    } }
{
    store_lenient_details(payload, details, later, rejections)
}

/// Parses a reply about a netlink socket leniently.
#[unsafe(no_mangle)]
pub extern "C" fn sockdiag_netlink_fill_lenient_details<'a>(
    payload: &'a [u8],
    details: &mut NetlinkDetails<'a>,
    later: &mut [u8],
    rejections: &mut Rejections,
) -> u32
    ensures { StoresLenientDetails netlink_family payload.entry.now record {
      old = ((details.old, rejections.old), later.old);
      new = ((details.new, rejections.new), later.new);
      returned = result;
    } }
{
    store_lenient_details(payload, details, later, rejections)
}

/// Parses a reply about a packet socket leniently.
#[unsafe(no_mangle)]
pub extern "C" fn sockdiag_packet_fill_lenient_details<'a>(
    payload: &'a [u8],
    details: &mut PacketDetails<'a>,
    later: &mut [u8],
    rejections: &mut Rejections,
) -> u32
    ensures { StoresLenientDetails packet_family payload.entry.now record {
      old = ((details.old, rejections.old), later.old);
      new = ((details.new, rejections.new), later.new);
      returned = result;
    } }
{
    store_lenient_details(payload, details, later, rejections)
}

/// Parses a reply about a vsock socket leniently. The only rejection can be the framing error of
/// bytes after the header.
#[unsafe(no_mangle)]
pub extern "C" fn sockdiag_vsock_fill_lenient_details(
    payload: &[u8],
    details: &mut VsockResponseHeader,
    later: &mut [u8],
    rejections: &mut Rejections,
) -> u32
    ensures { StoresLenientDetails vsock_family payload.now record {
      old = ((details.old, rejections.old), later.old);
      new = ((details.new, rejections.new), later.new);
      returned = result;
    } }
{
    store_lenient_details(payload, details, later, rejections)
}

/// Parses a reply about an XDP socket leniently.
#[unsafe(no_mangle)]
pub extern "C" fn sockdiag_xdp_fill_lenient_details(
    payload: &[u8],
    details: &mut XdpDetails,
    later: &mut [u8],
    rejections: &mut Rejections,
) -> u32
    ensures { StoresLenientDetails xdp_family payload.now record {
      old = ((details.old, rejections.old), later.old);
      new = ((details.new, rejections.new), later.new);
      returned = result;
    } }
{
    store_lenient_details(payload, details, later, rejections)
}
