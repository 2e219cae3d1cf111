//! The facts of the attributes of a reply. [`sslist_facts`] has those of most values, and
//! [`crate::ulp_info`] those of nested attributes. A function of this module that appends to a sink
//! may fail: then an allocation failed, and the content of the sink is not specified.
//!
//! In the contracts, `AddsFacts old new facts` states that the sink shows these facts after what it
//! showed before. `S.content sink.old` and `S.content sink.new` are what the sink shows before and
//! after the call. `any_model value.now` is what an attribute says.

ghost use Rattle.std.specs.Prelude.{◌≡◌, IfOk, OnOk, Some, codes};
ghost use Rattle.sock_diag_attributes.specs.NameModel.{name_view_model};
ghost use Rattle.sock_diag_attributes.specs.NumbersModel.{numbers_view_model};
ghost use Rattle.sock_diag_any.specs.AnyNla.{any_model};
ghost use Rattle.sslist_facts.specs.Facts.{AddsFacts, list_facts, number_facts};
ghost use Rattle.sslist_facts.specs.declared.facts.Shown.TheVariants.{Hex};
ghost use Rattle.sslist_lister.specs.AttributeFacts.{any_facts, memory_kind, memory_member};
ghost use Rattle.sslist_lister.specs.AttributeFacts.{name_bytes_facts, name_facts, owner_facts};
ghost use Rattle.sslist_lister.specs.AttributeFacts.{value_status};

use crate::ulp_info::{show_ulp, status_of_ulp};
use netlink_core::DecodeError;
use sock_diag_any::{AnyNla, Sockets};
use sock_diag_attributes::unix::nlas::{NameView, NumbersView};
use sock_diag_extras::{FilterInstruction, Md5Signature, PacketMembership, StoredAddress};
use sock_diag_families::netlink::NETLINK_DIAG_MEMINFO;
use sock_diag_families::packet::PACKET_DIAG_MEMINFO;
use sock_diag_families::xdp::XDP_DIAG_MEMINFO;
use sock_diag_records::constants::{INET_DIAG_SKMEMINFO, UNIX_DIAG_MEMINFO};
use sslist_facts::{
    FactSink, Shown, show_bbr, show_dctcp, show_fanout, show_groups, show_legacy_memory,
    show_memory, show_mptcp_info, show_netlink_flags, show_option_bits, show_packet,
    show_packet_ring, show_queues, show_tcp_info, show_umem, show_vegas, show_vfs, show_xdp,
    show_xdp_ring, show_xdp_statistics,
};
use std::alloc::{AllocError, Global};

/// The status of an attribute: `Ok(true)` if it has facts, `Ok(false)` if its type is unknown or
/// `INET_DIAG_SK_BPF_STORAGES`, or the error of its value.
pub(crate) type Status = Result<bool, DecodeError>;

/// Shows the facts of an attribute that says this, in a reply about these sockets. Shows nothing if
/// its kind is unknown or `INET_DIAG_SK_BPF_STORAGES`. Only JSON has the name of a UNIX socket, its
/// peer, its queues and its owner here, since the table has columns for them. The table shows names
/// with letters that are not ASCII if `utf8` is set. JSON allocates temporary strings by `alloc`.
pub(crate) fn show_any<S: FactSink>(
    sink: &mut S,
    alloc: Global,
    utf8: bool,
    sockets: Sockets,
    value: &AnyNla<'_>,
) -> Result<(), AllocError>
    ensures { OnOk result (AddsFacts (S.content sink.old) (S.content sink.new)
        (any_facts utf8 sockets (any_model value.now))) }
{
    match value {
        AnyNla::Name(name) => show_name(sink, alloc, *name),
        AnyNla::Vfs(file) => show_vfs(sink, file.inode(), file.device()),
        AnyNla::Peer(inode) => sink.number(Shown::Never, b"", Some("peer"), *inode as u64),
        AnyNla::PendingConnections(inodes) => show_pending(sink, alloc, inodes),
        AnyNla::QueueLengths(receive, send) => show_queues(sink, *receive, *send),
        AnyNla::Memory(memory) => show_memory(sink, memory_member(sockets), memory),
        AnyNla::Shutdown(directions) => {
            sink.number(Shown::Directions, b"", Some("shutdown"), *directions as u64)
        }
        AnyNla::Owner(user) => show_owner(sink, sockets, *user),
        AnyNla::LegacyMemory(memory) => show_legacy_memory(sink, memory),
        AnyNla::TcpInfo(info) => show_tcp_info(sink, info.bytes()),
        AnyNla::MptcpInfo(info) => show_mptcp_info(sink, info.bytes()),
        AnyNla::Congestion(name) => sink.name(utf8, b" cong:", "cong", name),
        AnyNla::Tos(tos) => show_hex(sink, b" tos:0x", "tos", *tos as u64),
        AnyNla::TrafficClass(class) => show_hex(sink, b" tclass:0x", "tclass", *class as u64),
        AnyNla::Protocol(protocol) => {
            sink.number(
                Shown::Always,
                b" protocol:",
                Some("protocol"),
                *protocol as u64,
            )
        }
        AnyNla::V6Only(only) => sink.flag(Shown::Always, b" v6only:", "skv6only", *only),
        AnyNla::Mark(mark) => show_hex(sink, b" fwmark:0x", "mark", *mark as u64),
        AnyNla::ClassId(class) => show_hex(sink, b" class_id:0x", "class_id", *class as u64),
        AnyNla::Vegas(info) => show_vegas(sink, info),
        AnyNla::Dctcp(info) => show_dctcp(sink, info),
        AnyNla::Bbr(info) => show_bbr(sink, info),
        AnyNla::LocalAddresses(addresses) => {
            sink.records::<StoredAddress>(alloc, b" locals:", b",", "locals", addresses)
        }
        AnyNla::PeerAddresses(addresses) => {
            sink.records::<StoredAddress>(alloc, b" peers:", b",", "peers", addresses)
        }
        AnyNla::Md5Signatures(keys) => {
            sink.records::<Md5Signature>(alloc, b" md5keys:", b",", "md5sig", keys)
        }
        AnyNla::Ulp(info) => show_ulp(sink, info.0.bytes()),
        AnyNla::CgroupId(id) => sink.number(Shown::Always, b" cgroup:", Some("cgroup_id"), *id),
        AnyNla::Options(options) => show_option_bits(sink, options.bits),
        AnyNla::Groups(mask) => show_groups(sink, alloc, mask),
        AnyNla::NetlinkFlags(bits) => show_netlink_flags(sink, *bits),
        AnyNla::PacketInfo(info) => show_packet(sink, info),
        AnyNla::ReceiveFrames(ring) => show_packet_ring(sink, b" ring_rx(", "rx_ring", ring),
        AnyNla::SendFrames(ring) => show_packet_ring(sink, b" ring_tx(", "tx_ring", ring),
        AnyNla::Fanout(number) => show_fanout(sink, *number),
        AnyNla::Filter(instructions) => {
            sink.records::<FilterInstruction>(alloc, b" bpf filter:", b",", "filter", instructions)
        }
        AnyNla::XdpInfo(info) => show_xdp(sink, info),
        AnyNla::ReceiveRing(entries) => show_xdp_ring(sink, b" rx(", "rx_ring", *entries),
        AnyNla::SendRing(entries) => show_xdp_ring(sink, b" tx(", "tx_ring", *entries),
        AnyNla::FillRing(entries) => show_xdp_ring(sink, b" fr(", "umem_fill_ring", *entries),
        AnyNla::CompletionRing(entries) => {
            show_xdp_ring(sink, b" cr(", "umem_completion_ring", *entries)
        }
        AnyNla::Umem(umem) => show_umem(sink, umem),
        AnyNla::Statistics(counters) => show_xdp_statistics(sink, counters),
        AnyNla::Memberships(records) => {
            sink.records::<PacketMembership>(alloc, b"", b"", "mclist", records)
        }
        AnyNla::BpfStorages(_) | AnyNla::Unknown(_) => Ok(()),
    }
}

/// Returns the status of an attribute that says this.
pub(crate) fn status_of(value: &AnyNla<'_>) -> Status
    ensures { result ≡ value_status (any_model value.now) }
{
    match value {
        AnyNla::Ulp(info) => status_of_ulp(info.0.bytes()),
        AnyNla::BpfStorages(_) | AnyNla::Unknown(_) => Ok(false),
        _ => Ok(true),
    }
}

/// Shows the name of a UNIX socket, as a group. Only JSON has it here, since the table has a column
/// for it.
fn show_name<S: FactSink>(sink: &mut S, alloc: Global, name: NameView<'_>) -> Result<(), AllocError>
    ensures { OnOk result (AddsFacts (S.content sink.old) (S.content sink.new)
        (name_facts (name_view_model name.entry))) }
{
    sink.begin(b"", "name")?;
    show_name_bytes(sink, alloc, name)?;
    sink.end(b"")
}

/// Shows the bytes of the name of a UNIX socket, under `path` or `abstract`, or, if they are not
/// valid UTF-8, under `path_hex` or `abstract_hex`.
fn show_name_bytes<S: FactSink>(
    sink: &mut S,
    alloc: Global,
    name: NameView<'_>,
) -> Result<(), AllocError>
    ensures { OnOk result (AddsFacts (S.content sink.old) (S.content sink.new)
        (name_bytes_facts (name_view_model name.entry))) }
{
    match name {
        NameView::Pathname(path) => sink.bytes(alloc, "path", "path_hex", path),
        NameView::Abstract(address) => sink.bytes(alloc, "abstract", "abstract_hex", address),
    }
}

/// Shows the inodes of connections that wait to be accepted (`UNIX_DIAG_ICONS`).
fn show_pending<S: FactSink>(
    sink: &mut S,
    alloc: Global,
    inodes: &NumbersView<'_>,
) -> Result<(), AllocError>
    ensures { OnOk result (AddsFacts (S.content sink.old) (S.content sink.new)
        (list_facts (codes " pending:") (codes " pending:") (codes "icons")
        (numbers_view_model inodes.now))) }
{
    let numbers = numbers_in(alloc, inodes)?;
    sink.list(b" pending:", b" pending:", "icons", numbers.as_slice())
}

/// Returns the numbers of a view.
fn numbers_in(alloc: Global, view: &NumbersView<'_>) -> Result<Vec<u64>, AllocError>
    ensures { IfOk result (λ numbers. numbers.items ≡ numbers_view_model view.now) }
{
    let mut numbers = Vec::new(alloc);
    for number in view.iter() {
        numbers.push(number.into())?;
    }
    Ok(numbers)
}

/// Shows the user id of the owner of a socket. Only JSON has that of a UNIX socket here.
fn show_owner<S: FactSink>(sink: &mut S, sockets: Sockets, user: u32) -> Result<(), AllocError>
    ensures { OnOk result (AddsFacts (S.content sink.old) (S.content sink.new)
        (owner_facts sockets user)) }
{
    match sockets {
        Sockets::Unix => sink.number(Shown::Never, b"", Some("uid"), user as u64),
        _ => sink.number(Shown::Always, b" uid:", Some("uid"), user as u64),
    }
}

/// Shows a number. The table shows it in hexadecimal digits after `text`, and JSON has it in
/// decimal under `member`.
fn show_hex<S: FactSink>(
    sink: &mut S,
    text: &[u8],
    member: &str,
    number: u64,
) -> Result<(), AllocError>
    ensures { OnOk result (AddsFacts (S.content sink.old) (S.content sink.new)
        (number_facts Hex text.now (Some member.now) number)) }
{
    sink.number(Shown::Hex, text, Some(member), number)
}

/// Returns the kind of the attribute with the memory of a socket, an array of numbers with the
/// indices `SK_MEMINFO_..`. Returns `None` for vsock sockets, which have none.
pub(crate) fn memory_kind(sockets: Sockets) -> Option<u16>
    ensures { result ≡ memory_kind sockets }
{
    match sockets {
        Sockets::Unix => Some(UNIX_DIAG_MEMINFO),
        Sockets::Inet(_) => Some(INET_DIAG_SKMEMINFO),
        Sockets::Netlink => Some(NETLINK_DIAG_MEMINFO),
        Sockets::Packet => Some(PACKET_DIAG_MEMINFO),
        Sockets::Vsock => None,
        Sockets::Xdp => Some(XDP_DIAG_MEMINFO),
    }
}

/// Returns the name in JSON of the memory of a socket.
fn memory_member(sockets: Sockets) -> &'static str
    ensures { result.now ≡ memory_member sockets }
{
    match sockets {
        Sockets::Inet(_) => "skmeminfo",
        _ => "meminfo",
    }
}
