//! The contents of a reply about an IPv4 or IPv6 socket as a C struct, except for its connection,
//! `INET_DIAG_INFO`.

ghost use Rattle.std.specs.Prelude.{◌≡◌, Err};
ghost use Rattle.netlink_core.specs.Errors.{map_ok};
ghost use Rattle.netlink_core.specs.Walk.{buffered_attribute};
ghost use Rattle.sock_diag_attributes.specs.InetAttributes.{inet_attribute_set};
ghost use Rattle.sock_diag_any.specs.AnyNla.{any_model, read_any};
ghost use Rattle.sock_diag_any.specs.declared.nla.AnyNla.TheVariants.{Protocol};
ghost use Rattle.sock_diag_any.specs.declared.nla.InfoFormat.TheVariants.{Unknown};
ghost use Rattle.sock_diag_any.specs.declared.nla.Sockets.TheVariants.{Inet};
ghost use Rattle.sockdiag_c.specs.CheckedKinds.{read_checked};
ghost use Rattle.sockdiag_c.specs.Family.{StoresDetails};
ghost use Rattle.sockdiag_c.specs.InetDetails.{inet_family, legacy_memory_struct};
ghost use Rattle.sockdiag_c.specs.private.Rows.{AddsParts};

use crate::details::{Number, ReplyDetails, TEXT, Text, store_details};
use crate::family_values::{Memory, set_record};
use crate::headers::{InetHeader, inet_header};
use netlink_core::{DecodeError, NlaBuffer};
use netlink_packet_sock_diag::inet::{INET_RESPONSE_HEADER_LEN, InetResponseHeader};
use sock_diag_any::{AnyNla, InfoFormat, Sockets};
use sock_diag_attributes::inet::nlas::NlaView as InetNlaView;
use sock_diag_values::inet::LegacyMemInfo;

/// Memory of an IPv4 or IPv6 socket in the format of old kernels: `struct inet_diag_meminfo` of
/// `linux/inet_diag.h`. The fields are those of `struct sockdiag_memory` with the same names.
#[repr(C)]
#[derive(Clone, Copy, Default)]
pub struct LegacyMemory {
    /// Memory in use by the receive queue, in bytes (`idiag_rmem`, at 0).
    pub receive_queue: u32,
    /// Memory in use by the send queue, in bytes (`idiag_wmem`, at 4).
    pub send_queue: u32,
    /// Memory that is allocated to the socket and not in use, in bytes (`idiag_fmem`, at 8).
    pub cache: u32,
    /// Memory of packets committed to the device queue, in bytes (`idiag_tmem`, at 12).
    pub bottom_send_queues: u32,
}

const _: () = prove!(std::mem::size_of::<LegacyMemory>() == 16);

/// What a reply contains about an IPv4 or IPv6 socket. `sockdiag_inet_get_tcp_info` and
/// `sockdiag_inet_get_mptcp_info` return its connection (`INET_DIAG_INFO`), and
/// `sockdiag_next_attribute` all other attributes without a field.
#[repr(C)]
#[derive(Clone, Copy, Default)]
pub struct InetDetails<'a> {
    /// The header.
    pub header: InetHeader,
    /// Name of the congestion control algorithm (`INET_DIAG_CONG`).
    pub congestion: Text<'a>,
    /// Type of service (`INET_DIAG_TOS`).
    pub tos: Number,
    /// Traffic class of an IPv6 socket (`INET_DIAG_TCLASS`).
    pub tclass: Number,
    /// Directions that are shut down: 1 for receiving, 2 for sending, 3 for both
    /// (`INET_DIAG_SHUTDOWN`).
    pub shutdown: Number,
    /// Protocol, one of `IPPROTO_..` (`INET_DIAG_PROTOCOL`), in events and of raw sockets.
    pub protocol: Number,
    /// 1 if the socket is for IPv6 only, else 0 (`INET_DIAG_SKV6ONLY`).
    pub v6only: Number,
    /// Mark of the socket, `SO_MARK` (`INET_DIAG_MARK`).
    pub mark: Number,
    /// Traffic class id (net_cls) of the socket's control group, or the priority of a socket
    /// without one (`INET_DIAG_CLASS_ID`).
    pub class_id: Number,
    /// Socket memory (`INET_DIAG_SKMEMINFO`).
    pub memory: Memory,
    /// 1 if `legacy_memory` is set, else 0.
    pub has_legacy_memory: u32,
    /// Socket memory in the format of old kernels (`INET_DIAG_MEMINFO`).
    pub legacy_memory: LegacyMemory,
    /// 1 if `cgroup_id` is set, else 0.
    pub has_cgroup_id: u32,
    /// Id of the control group, cgroup v2 (`INET_DIAG_CGROUP_ID`). It is not set if the value does
    /// not have 8 bytes.
    pub cgroup_id: u64,
    /// Options of the socket, bits `SOCKDIAG_OPTION_..` (`INET_DIAG_SOCKOPT`). They are not set if
    /// the value has fewer than 2 bytes.
    pub options: Number,
}

const _: () = prove!(std::mem::size_of::<InetDetails<'static>>() == 264);

/// Parses a reply about an IPv4 or IPv6 socket. `INET_DIAG_INFO` is checked, and not returned:
/// `sockdiag_inet_get_tcp_info` returns it.
#[unsafe(no_mangle)]
pub extern "C" fn sockdiag_inet_fill_details<'a>(
    payload: &'a [u8],
    details: &mut InetDetails<'a>,
    later: &mut [u8],
) -> u32
    ensures { StoresDetails inet_family payload.entry.now record {
      old = (details.old, later.old);
      new = (details.new, later.new);
      returned = result;
    } }
{
    store_details(payload, details, later)
}

impl From<LegacyMemInfo> for LegacyMemory {
    ghost from_gives = { λ value memory. memory ≡ legacy_memory_struct value };

    fn from(memory: LegacyMemInfo) -> LegacyMemory {
        // `LegacyMemInfo` has the names of the fields at 4 and 12 exchanged.
        LegacyMemory {
            receive_queue: memory.receive_queue,
            send_queue: memory.bottom_send_queue,
            cache: memory.cache,
            bottom_send_queues: memory.send_queue,
        }
    }
}

impl<'a> ReplyDetails<'a> for InetDetails<'a> {
    type Nla = AnyNla<'a>;

    ghost family = { inet_family };

    ghost model = { any_model };

    #[tactic(auto, using(crate::proofs::InetHeaders::inet_header_rules))]
    #[inline(always)]
    fn parse_header(payload: &'a [u8]) -> Result<(Self, &'a [u8]), DecodeError> {
        let header = InetResponseHeader::from_prefix(payload)?;
        let mut details = InetDetails::default();
        details.header = inet_header(payload, header);
        Ok((details, &payload[INET_RESPONSE_HEADER_LEN..]))
    }

    #[inline(always)]
    fn read(nla: &NlaBuffer<'a>) -> Result<AnyNla<'a>, DecodeError> {
        match AnyNla::read(Sockets::Inet(InfoFormat::Unknown), nla) {
            Ok(value) => Ok(value),
            Err(_) => reject_if_checked(nla),
        }
    }

    #[inline(always)]
    fn set(&mut self, nla: AnyNla<'a>) {
        match nla {
            AnyNla::Congestion(name) => self.congestion.set(TEXT, name.as_bytes()),
            AnyNla::Tos(tos) => self.tos.set(u32::from(tos)),
            AnyNla::TrafficClass(class) => self.tclass.set(u32::from(class)),
            AnyNla::Shutdown(directions) => self.shutdown.set(u32::from(directions)),
            AnyNla::Protocol(protocol) => self.set_protocol(protocol),
            AnyNla::V6Only(only) => self.v6only.set(u32::from(only)),
            AnyNla::Mark(mark) => self.mark.set(mark),
            AnyNla::ClassId(class) => self.class_id.set(class),
            AnyNla::Memory(memory) => self.memory.set(memory),
            AnyNla::LegacyMemory(memory) => {
                let memory = LegacyMemory::from(memory);
                set_record(memory, &mut self.has_legacy_memory, &mut self.legacy_memory);
            }
            AnyNla::CgroupId(id) => {
                set_record(id, &mut self.has_cgroup_id, &mut self.cgroup_id);
            }
            AnyNla::Options(options) => self.options.set(u32::from(options.bits)),
            // These have no field: other calls return the connection and raw attributes.
            _ => {}
        }
    }

    fn clear_values(&mut self) {
        let header = self.header;
        *self = InetDetails::default();
        self.header = header;
    }
}

impl InetDetails<'_> {
    // Sets the protocol, which few replies have, unless it is set already. This is a call for the
    // same reason as `UnixDetails::set_name`.
    #[inline(never)]
    fn set_protocol(&mut self, protocol: u8)
        ensures header { self.new.header ≡ self.old.header }
        ensures values { AddsParts inet_family.rows (any_model (Protocol protocol))
            record { old = self.old; new = self.new } }
    {
        self.protocol.set(u32::from(protocol));
    }
}

// Returns the error of an attribute with an invalid value. If the checks do not know its kind,
// returns `AnyNla::Unknown`, and no error.
#[inline(always)]
fn reject_if_checked<'a>(nla: &NlaBuffer<'a>) -> Result<AnyNla<'a>, DecodeError>
    // An attribute with a valid value is not passed.
    ensures { let a = buffered_attribute nla.now in (e : DecodeError)
        → read_any (Inet Unknown) a ≡ Err e
        → map_ok any_model result ≡ read_checked inet_attribute_set (Inet Unknown) a }
{
    match InetNlaView::parse(nla) {
        Ok(_) => Ok(AnyNla::Unknown(*nla)),
        Err(error) => Err(error),
    }
}
