//! Replies that are stored under their canonical form, so that equivalent ones are stored once.

ghost use Rattle.std.specs.Prelude.{◌≡◌, ◌↔◌, ◌⊎◌, ℕ, List, IsTrue, OnOk, IfOk, IfErr};
ghost use Rattle.netlink_packet_sock_diag.specs.Message.{message_codec};
ghost use Rattle.sock_diag_examples.specs.Stored.{HasKey, IsKey, KeyFails};

use netlink_core::{CanonError, canonical};
use netlink_packet_sock_diag::SockDiagMessage;
use netlink_packet_sock_diag::constants::SOCK_DIAG_BY_FAMILY;
use std::alloc::Global;

/// Returns the key under which a reply is stored: its canonical form. The reply is the payload of a
/// netlink message of type `SOCK_DIAG_BY_FAMILY`.
///
/// Two replies with keys have the same key if and only if they are equivalent: they differ
/// only in ignored bits and bytes, such as padding, undefined flag bits and bytes that no parser
/// reads.
///
/// Fails with `Refused` and the first decode error if the reply is invalid, with `Unwritable` if
/// its value is not writable, and with `Memory` if an allocation fails.
pub fn key(alloc: Global, reply: &[u8]) -> Result<Vec<u8>, CanonError>
    ensures key { IfOk result (λ key. IsKey reply.now key.items) }
    ensures equal_bytes { IfOk result (λ key. (other other_key : List ℕ) → IsKey other other_key
        → ((key.items ≡ other_key)
        ↔ message_codec.equivalent SOCK_DIAG_BY_FAMILY reply.now other)) }
    ensures err { IfErr result (KeyFails reply.now) }
{
    canonical::<SockDiagMessage>(alloc, reply, SOCK_DIAG_BY_FAMILY)
}

/// Returns whether two replies have the same key, if both have one: whether they are equivalent.
/// Otherwise returns the error of the first reply, or of the second if the first has a
/// key. An error is the one of [`key`].
pub fn same_reply(alloc: Global, one: &[u8], other: &[u8]) -> Result<bool, CanonError>
    ensures value { IfOk result (λ same. IsTrue same
        ↔ message_codec.equivalent SOCK_DIAG_BY_FAMILY one.now other.now) }
    ensures keys { OnOk result (HasKey one.now × HasKey other.now) }
    ensures err { IfErr result
        (λ e. KeyFails one.now e ⊎ (HasKey one.now × KeyFails other.now e)) }
{
    Ok(key(alloc, one)?.as_slice() == key(alloc, other)?.as_slice())
}
