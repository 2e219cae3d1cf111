//! SCTP associations. The kernel sends a reply about an SCTP socket, and one about each of its
//! associations. In the latter the state is not a TCP state, but one of the kernel's
//! `enum sctp_state`.

ghost use Rattle.std.specs.Prelude.{◌≡◌};
ghost use Rattle.sslist_lister.specs.Collected.{collected};
ghost use Rattle.sslist_lister.specs.Sctp.{association_state_name, association_tcp_state};
ghost use Rattle.sslist_lister.specs.Sctp.{inet_state_name, inet_tcp_state, is_association};

use crate::collected::Attributes;
use sock_diag_records::constants::{INET_DIAG_PEERS, IPPROTO_SCTP, TCP_CLOSE, TCP_ESTABLISHED};
use sslist_texts::cells::name_of_state;

/// The state by which the options select an association in a state that TCP does not have. It is no
/// TCP state, so the groups of states that are all except some of these select it.
const NO_TCP_STATE: u8 = u8::MAX;

/// Returns whether a reply with the attributes `found` is about an association. The kernel sends
/// `INET_DIAG_PEERS` about each association, and about nothing else. `protocol` is that of the
/// socket, if it is known.
pub(crate) fn is_association(protocol: Option<u32>, found: &Attributes<'_>) -> bool
    ensures { result ≡ is_association protocol (collected found.now) }
{
    let may_be_sctp = match protocol {
        Some(number) => number == IPPROTO_SCTP as u32,
        None => true,
    };
    may_be_sctp && found.value_of_kind(INET_DIAG_PEERS).is_some()
}

/// Returns the name of the state of an IPv4 or IPv6 socket, or of an association, as ss(8) prints
/// it.
pub(crate) fn name_of_inet_state(is_association: bool, state: u8) -> &'static str
    ensures { result.now ≡ inet_state_name is_association state }
{
    if is_association {
        name_of_association_state(state)
    } else {
        name_of_state(state)
    }
}

/// Returns the name of a state of an association, as ss(8) prints it: `UNKNOWN` from 8 on.
fn name_of_association_state(state: u8) -> &'static str
    ensures { result.now ≡ association_state_name state }
{
    match state {
        0 => "CLOSED",
        1 => "COOKIE_WAIT",
        2 => "COOKIE_ECHOED",
        3 => "ESTAB",
        4 => "SHUTDOWN_PENDING",
        5 => "SHUTDOWN_SENT",
        6 => "SHUTDOWN_RECEIVED",
        7 => "ACK_SENT",
        _ => "UNKNOWN",
    }
}

/// Returns the state by which the options select an IPv4 or IPv6 socket, or an association.
pub(crate) fn tcp_state_of(is_association: bool, state: u8) -> u8
    ensures { result ≡ inet_tcp_state is_association state }
{
    if is_association {
        tcp_state_of_association(state)
    } else {
        state
    }
}

/// Returns the TCP state with the meaning of a state of an association: 0 is closed, and 3
/// established. Returns [`NO_TCP_STATE`] for any other, which has no such TCP state.
fn tcp_state_of_association(state: u8) -> u8
    ensures { result ≡ association_tcp_state state }
{
    match state {
        0 => TCP_CLOSE,
        3 => TCP_ESTABLISHED,
        _ => NO_TCP_STATE,
    }
}
