//! States of sockets by their names.

ghost use Rattle.std.specs.Prelude.{◌≡◌};
ghost use Rattle.sock_diag_filters.specs.States.{group_named, state_bit, state_named, states_named};

use crate::text::lookup::value_named;
use sock_diag_records::constants::{
    TCP_CLOSE, TCP_CLOSE_WAIT, TCP_CLOSING, TCP_ESTABLISHED, TCP_FIN_WAIT1, TCP_FIN_WAIT2,
    TCP_LAST_ACK, TCP_LISTEN, TCP_SYN_RECV, TCP_SYN_SENT, TCP_TIME_WAIT,
};

/// The states by their names: those of the filter `state` of ss(8) (iproute2 6.1), and of its
/// column State.
pub(crate) const STATES: [(&str, u8); 17] = [
    ("established", TCP_ESTABLISHED),
    ("estab", TCP_ESTABLISHED),
    ("syn-sent", TCP_SYN_SENT),
    ("syn-recv", TCP_SYN_RECV),
    ("syn-rcv", TCP_SYN_RECV),
    ("fin-wait-1", TCP_FIN_WAIT1),
    ("fin-wait-2", TCP_FIN_WAIT2),
    ("time-wait", TCP_TIME_WAIT),
    ("closed", TCP_CLOSE),
    ("close", TCP_CLOSE),
    ("unconnected", TCP_CLOSE),
    ("unconn", TCP_CLOSE),
    ("close-wait", TCP_CLOSE_WAIT),
    ("last-ack", TCP_LAST_ACK),
    ("listening", TCP_LISTEN),
    ("listen", TCP_LISTEN),
    ("closing", TCP_CLOSING),
];

/// The groups of states of ss(8) by their names, with a bit for each state.
pub(crate) const GROUPS: [(&str, u32); 5] = [
    ("all", ALL),
    ("connected", CONNECTED),
    ("synchronized", CONNECTED & !(1 << TCP_SYN_SENT)),
    ("bucket", BUCKET),
    ("big", ALL & !BUCKET),
];

/// All states.
pub(crate) const ALL: u32 = u32::MAX;

/// The states of the group `connected`.
const CONNECTED: u32 = ALL & !(1 << TCP_CLOSE) & !(1 << TCP_LISTEN);

/// The states of the group `bucket`.
const BUCKET: u32 = 1 << TCP_SYN_RECV | 1 << TCP_TIME_WAIT;

/// Returns the states with this name, a bit for each as in `idiag_states` of a request: a state or
/// a group of states of ss(8), in upper or lower case. Returns `None` if there is none.
pub fn states_named(name: &[u8]) -> Option<u32>
    ensures { result ≡ states_named name.now }
{
    match state_named(name) {
        Some(state) => Some(state_bit(state)),
        None => group_named(name),
    }
}

/// Returns the bit of a state in a set of states: `1 << state`. All states from 31 on share bit 31.
pub(crate) fn state_bit(state: u8) -> u32
    ensures { result ≡ state_bit state }
{
    if state < 31 { 1 << state } else { 1 << 31 }
}

/// Returns the state with this name, or `None` if there is none.
#[tactic(auto, unfolding(crate::specs::States::state_named))]
fn state_named(name: &[u8]) -> Option<u8>
    ensures { result ≡ state_named name.now }
{
    value_named(&STATES, name)
}

/// Returns the states in the group of states with this name, or `None` if there is none.
#[tactic(auto, unfolding(crate::specs::States::group_named))]
fn group_named(name: &[u8]) -> Option<u32>
    ensures { result ≡ group_named name.now }
{
    value_named(&GROUPS, name)
}
