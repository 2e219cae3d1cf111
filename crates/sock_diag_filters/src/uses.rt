//! Examples of callers, to be copied.

ghost use Rattle.std.specs.Prelude.{◌≡◌, ◌&&◌, [], ◌∷◌, IfErr, IfOk, ℕ, List, Bool};
ghost use Rattle.sock_diag_filters.specs.Audit.{IsAudited};
ghost use Rattle.sock_diag_filters.specs.Prefixes.{port_bytes};
ghost use Rattle.sock_diag_filters.specs.Requests.{request_bytes};
ghost use Rattle.sock_diag_filters.specs.Run.{Runs};
ghost use Rattle.sock_diag_filters.specs.Uses.{example_request_header, tcp_request_with};
ghost use Rattle.sock_diag_filters.specs.Uses.{close_request_bytes, zero_socket_id};
ghost use Rattle.sock_diag_filters.specs.Uses.{acknowledged_flags, all_states, dump_flags};
ghost use Rattle.sock_diag_filters.specs.Uses.{listen_state, program_attribute};
ghost use Rattle.sock_diag_filters.specs.declared.codes.TheConstants.{INET_DIAG_BC_S_GE};
ghost use Rattle.sock_diag_filters.specs.declared.codes.TheConstants.{INET_DIAG_BC_S_LE};
ghost use Rattle.sock_diag_filters.specs.declared.assembly.AssembleError.TheVariants.{Memory};

use crate::{
    AssembleError, Comparison, Condition, Filter, REQUEST_FRONT, RequestAttribute,
    RequestWithAttributes, assemble,
};
use bitflags::Flags;
use netlink_core::{Emitable, NLM_F_ACK, NLM_F_DUMP, NLM_F_REQUEST, NetlinkHeader};
use sock_diag_records::constants::{
    AF_INET, AF_INET6, IPPROTO_TCP, SOCK_DESTROY, SOCK_DIAG_BY_FAMILY,
};
use sock_diag_records::inet::{ExtensionFlags, InetRequest, SocketId, StateFlags};
use std::alloc::Global;
use std::net::IpAddr;

/// Returns the request for the TCP sockets over IPv4 that listen on a port from `first` to `last`:
/// a complete netlink message with the filter's program as its only attribute.
///
/// The kernel runs the program. It selects a socket if and only if the kernel finds that its port
/// is at least `first` (`INET_DIAG_BC_S_GE`, 2) and at most `last` (`INET_DIAG_BC_S_LE`, 3). The
/// only error is `Memory`, if an allocation fails: the program is never too long. A `first` above
/// `last` is not an error.
pub fn listening_on(
    alloc: Global,
    first: u16,
    last: u16,
    sequence_number: u32,
) -> Result<Vec<u8>, AssembleError>
    // There is a program with three properties:
    // - The kernel accepts it.
    // - Each run of it selects a socket if and only if both comparisons are met. This holds for all
    //   results of the comparisons (`condition_met`).
    // - The message carries it, as its only attribute.
    ensures asked { IfOk result (λ message. (program : List ℕ) × IsAudited program
        × ((condition_met : ℕ → List ℕ → Bool) → Runs condition_met program
        (condition_met INET_DIAG_BC_S_GE (port_bytes first)
        && condition_met INET_DIAG_BC_S_LE (port_bytes last)))
        × (message.items
        ≡ request_bytes (example_request_header SOCK_DIAG_BY_FAMILY dump_flags sequence_number)
        (tcp_request_with listen_state zero_socket_id) (program_attribute program ∷ []))) }
    ensures fails { IfErr result (λ e. e ≡ Memory) }
{
    let from = Filter::Condition(Condition::SourcePort(Comparison::AtLeast, first));
    let to = Filter::Condition(Condition::SourcePort(Comparison::AtMost, last));
    let program = assemble(alloc, &Filter::And(&from, &to))?;
    let attributes = [RequestAttribute::Program(&program)];
    let request = RequestWithAttributes {
        header: header(
            SOCK_DIAG_BY_FAMILY,
            NLM_F_REQUEST | NLM_F_DUMP,
            sequence_number,
        ),
        request: tcp(StateFlags::LISTEN, SocketId::new_v4()),
        attributes: &attributes,
    };
    let mut message = vec![in alloc; 0; request.buffer_len()]?;
    request.emit(&mut message);
    Ok(message)
}

/// Returns the request to close one TCP socket, a complete netlink message of 72 bytes: type
/// `SOCK_DESTROY` (21), flags `NLM_F_REQUEST` and `NLM_F_ACK` (an acknowledgement is requested),
/// all states, and no attributes. The socket is identified by its addresses, ports, interface and
/// cookie; the family of the request is that of `source_address`. The kernel requires
/// `CAP_NET_ADMIN`.
///
/// The contract states the message twice. `request_bytes header request []` are the bytes of a
/// message without attributes, here of this header (`example_request_header`) and this request
/// (`tcp_request_with`). `close_request_bytes` are the same bytes, written out.
pub fn close_tcp(socket_id: SocketId, sequence_number: u32) -> [u8; REQUEST_FRONT]
    ensures written { result
        ≡ request_bytes (example_request_header SOCK_DESTROY acknowledged_flags sequence_number)
        (tcp_request_with all_states socket_id) [] }
    ensures bytes { result ≡ close_request_bytes socket_id sequence_number }
{
    let request = RequestWithAttributes {
        header: header(SOCK_DESTROY, NLM_F_REQUEST | NLM_F_ACK, sequence_number),
        request: tcp(StateFlags::from_bits_retain(u32::MAX), socket_id),
        attributes: &[],
    };
    let mut message = [0; REQUEST_FRONT];
    request.emit(&mut message);
    message
}

// Returns the netlink header with this type, these flags, this sequence number, and port 0
// (`example_request_header`). Its length is 0: `emit` writes the length.
fn header(message_type: u16, flags: u16, sequence_number: u32) -> NetlinkHeader
    ensures { result ≡ example_request_header message_type flags sequence_number }
{
    NetlinkHeader {
        message_type,
        flags,
        sequence_number,
        ..NetlinkHeader::default()
    }
}

// Returns the request for the TCP sockets in these states and with this socket id
// (`tcp_request_with`). Its family is that of the source address. It requests no attributes.
// `states.0` is the set of states as a number.
fn tcp(states: StateFlags, socket_id: SocketId) -> InetRequest
    ensures { result ≡ tcp_request_with states.0 socket_id }
{
    InetRequest {
        family: match socket_id.source_address {
            IpAddr::V4(_) => AF_INET,
            IpAddr::V6(_) => AF_INET6,
        },
        protocol: IPPROTO_TCP,
        extensions: ExtensionFlags::empty(),
        states,
        socket_id,
    }
}
