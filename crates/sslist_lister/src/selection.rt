//! Selection of the IPv4 and IPv6 sockets that are listed. In the contracts, `collected found.now`
//! is what the attributes in `found` say.

ghost use Rattle.std.specs.Prelude.{◌≡◌, option_and_then};
ghost use Rattle.sock_diag_any.specs.AnyParts.{cgroup_id_of, mark_of};
ghost use Rattle.sslist_lister.specs.Collected.{collected, value_in};
ghost use Rattle.sslist_lister.specs.Selection.{lists_inet, meets_filter, socket_facts};

use crate::collected::Attributes;
use crate::line::InetSocket;
use crate::sctp::tcp_state_of;
use sock_diag_any::AnyNla;
use sock_diag_extras::constants::INET_DIAG_CGROUP_ID;
use sock_diag_filters::SocketFacts;
use sock_diag_records::constants::{AF_INET6, INET_DIAG_MARK};
use sslist_command_line::Options;

/// Returns whether the options select an IPv4 or IPv6 socket with the attributes `found`: they list
/// its protocol, its IP version and its state, and it meets the filter.
pub(crate) fn lists_inet(options: Options<'_>, socket: &InetSocket, found: &Attributes<'_>) -> bool
    ensures { result ≡ lists_inet options.entry socket.now (collected found.now) }
{
    let header = &socket.header;
    options.lists_protocol(socket.protocol)
        && options.lists_version(header.family == AF_INET6)
        && options.lists_state(tcp_state_of(socket.is_association, header.state))
        && meets_filter(options, socket, found)
}

/// Returns whether a socket with the attributes `found` meets the filter, if there is one.
fn meets_filter(options: Options<'_>, socket: &InetSocket, found: &Attributes<'_>) -> bool
    ensures { result ≡ meets_filter options.entry socket.now (collected found.now) }
{
    match options.filter {
        Some(filter) => filter.selects(&socket_facts(socket, found)),
        None => true,
    }
}

/// Returns what a filter compares of a socket with the attributes `found`.
fn socket_facts(socket: &InetSocket, found: &Attributes<'_>) -> SocketFacts
    ensures { result ≡ socket_facts socket.now (collected found.now) }
{
    let id = &socket.header.socket_id;
    SocketFacts {
        source: id.source_address,
        destination: id.destination_address,
        source_port: id.source_port,
        destination_port: id.destination_port,
        interface: id.interface_id,
        mark: mark(found),
        cgroup: cgroup_id(found),
        is_auto_bound: None,
    }
}

/// Returns the mark of a socket, if the reply has it.
fn mark(found: &Attributes<'_>) -> Option<u32>
    ensures { result ≡ option_and_then mark_of (value_in INET_DIAG_MARK (collected found.now)) }
{
    match found.value_of_kind(INET_DIAG_MARK)? {
        AnyNla::Mark(mark) => Some(*mark),
        _ => None,
    }
}

/// Returns the id of the control group of a socket, if the reply has it.
fn cgroup_id(found: &Attributes<'_>) -> Option<u64>
    ensures { result
        ≡ option_and_then cgroup_id_of (value_in INET_DIAG_CGROUP_ID (collected found.now)) }
{
    match found.value_of_kind(INET_DIAG_CGROUP_ID)? {
        AnyNla::CgroupId(id) => Some(*id),
        _ => None,
    }
}
