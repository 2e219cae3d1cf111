//! The flags of a request for IPv4 or IPv6 sockets.

ghost use Rattle.std.proofs.Common.{rules};
ghost use Rattle.std.specs.Prelude.{⊤, ◌≡◌};
ghost use Rattle.std.specs.Int.RustNames.{bit_or};
ghost use Rattle.bitflags.specs.Sets.{known_bits};
ghost use Rattle.sock_diag_records.specs.Flags.{inet_state_flags, inet_extension_flags};

use crate::named::named_flags;
use bitflags::{Flag, Flags};
use netlink_core::Exact;
use std::ops::BitOr;

/// The requested states (`idiag_states` of sock_diag(7)): a set of eleven bits. The bit of a state
/// is `1 << state`, with the states `TCP_ESTABLISHED` (1) to `TCP_CLOSING` (11).
#[derive(Clone, Debug, Drop, PartialEq, Eq)]
pub struct StateFlags(u32);

impl BitOr for StateFlags {
    type Output = StateFlags;

    ghost bitor_gives = { λ left right union. union.0 ≡ bit_or left.0 right.0 };

    /// Returns the union of both sets.
    fn bitor(self, other: StateFlags) -> StateFlags {
        StateFlags(self.0 | other.0)
    }
}

impl StateFlags {
    /// The state `TCP_ESTABLISHED`.
    pub const ESTABLISHED: StateFlags = StateFlags(0x2);
    /// The state `TCP_SYN_SENT`.
    pub const SYN_SENT: StateFlags = StateFlags(0x4);
    /// The state `TCP_SYN_RECV`.
    pub const SYN_RECV: StateFlags = StateFlags(0x8);
    /// The state `TCP_FIN_WAIT1`.
    pub const FIN_WAIT1: StateFlags = StateFlags(0x10);
    /// The state `TCP_FIN_WAIT2`.
    pub const FIN_WAIT2: StateFlags = StateFlags(0x20);
    /// The state `TCP_TIME_WAIT`.
    pub const TIME_WAIT: StateFlags = StateFlags(0x40);
    /// The state `TCP_CLOSE`.
    pub const CLOSE: StateFlags = StateFlags(0x80);
    /// The state `TCP_CLOSE_WAIT`.
    pub const CLOSE_WAIT: StateFlags = StateFlags(0x100);
    /// The state `TCP_LAST_ACK`.
    pub const LAST_ACK: StateFlags = StateFlags(0x200);
    /// The state `TCP_LISTEN`.
    pub const LISTEN: StateFlags = StateFlags(0x400);
    /// The state `TCP_CLOSING`.
    pub const CLOSING: StateFlags = StateFlags(0x800);
}

impl Exact for StateFlags {
    ghost exact = { Prim.search rules };
}

impl Flags for StateFlags {
    type Bits = u32;

    // The contracts of `Flags` hold of this type (`⊤`), with the table and the bits below.
    ghost exact = { ⊤ };

    ghost table = { inet_state_flags };

    ghost set_of = { λ flags. flags.0 };

    fn flags<'a>() -> &'a [Flag<StateFlags>] {
        named_flags!(
            StateFlags: ESTABLISHED, SYN_SENT, SYN_RECV, FIN_WAIT1, FIN_WAIT2, TIME_WAIT, CLOSE,
            CLOSE_WAIT, LAST_ACK, LISTEN, CLOSING
        )
    }

    fn bits(&self) -> u32 {
        self.0
    }

    fn from_bits_retain(bits: u32) -> StateFlags {
        StateFlags(bits)
    }
}

/// The requested attributes (`idiag_ext` of sock_diag(7)): a set of eight bits. The bit of an
/// attribute is `1 << (kind - 1)`, with the kinds `INET_DIAG_MEMINFO` (1) to `INET_DIAG_SHUTDOWN`
/// (8).
#[derive(Clone, Debug, Drop, PartialEq, Eq)]
pub struct ExtensionFlags(u8);

impl BitOr for ExtensionFlags {
    type Output = ExtensionFlags;

    ghost bitor_gives = { λ left right union. union.0 ≡ bit_or left.0 right.0 };

    /// Returns the union of both sets.
    fn bitor(self, other: ExtensionFlags) -> ExtensionFlags {
        ExtensionFlags(self.0 | other.0)
    }
}

impl ExtensionFlags {
    /// The attribute `INET_DIAG_MEMINFO`.
    pub const MEMINFO: ExtensionFlags = ExtensionFlags(0x1);
    /// The attribute `INET_DIAG_INFO`.
    pub const INFO: ExtensionFlags = ExtensionFlags(0x2);
    /// The attribute `INET_DIAG_VEGASINFO`.
    pub const VEGASINFO: ExtensionFlags = ExtensionFlags(0x4);
    /// The attribute `INET_DIAG_CONG`.
    pub const CONG: ExtensionFlags = ExtensionFlags(0x8);
    /// The attribute `INET_DIAG_TOS`.
    pub const TOS: ExtensionFlags = ExtensionFlags(0x10);
    /// The attribute `INET_DIAG_TCLASS`.
    pub const TCLASS: ExtensionFlags = ExtensionFlags(0x20);
    /// The attribute `INET_DIAG_SKMEMINFO`.
    pub const SKMEMINFO: ExtensionFlags = ExtensionFlags(0x40);
    /// The attribute `INET_DIAG_SHUTDOWN`.
    pub const SHUTDOWN: ExtensionFlags = ExtensionFlags(0x80);
}

impl Exact for ExtensionFlags {
    ghost exact = { Prim.search rules };
}

impl Flags for ExtensionFlags {
    type Bits = u8;

    ghost exact = { ⊤ };

    ghost table = { inet_extension_flags };

    ghost set_of = { λ flags. flags.0 };

    fn flags<'a>() -> &'a [Flag<ExtensionFlags>] {
        named_flags!(
            ExtensionFlags: MEMINFO, INFO, VEGASINFO, CONG, TOS, TCLASS, SKMEMINFO, SHUTDOWN
        )
    }

    fn bits(&self) -> u8 {
        self.0
    }

    fn from_bits_retain(bits: u8) -> ExtensionFlags {
        ExtensionFlags(bits)
    }
}

/// States which bits have a name in this crate: bits 1 to 11 of a [`StateFlags`] (0xffe), and all
/// eight bits of an [`ExtensionFlags`] (0xff). `known_bits table` are the bits of all flags in a
/// table of names and bits, such as `inet_state_flags`. Contracts of parsers do not use these
/// tables: in the layout of a request 0xffe is the mask of the states, and the byte of extensions
/// has no mask.
///
/// Proof only: the contract states the property.
#[tactic(auto, unfolding(bitflags::proofs::OnLiterals::bitflags_on_literals))]
pub fn flags_have_their_bits()
    ensures states { known_bits inet_state_flags ≡ 0xffe }
    ensures extensions { known_bits inet_extension_flags ≡ 0xff }
{}

/// States the bits of each constant of [`StateFlags`]. `.0` is the set as a number.
///
/// Proof only: the contract states the property.
pub fn state_flags_have_their_values()
    ensures established { StateFlags.ESTABLISHED.0 ≡ 0x2 }
    ensures syn_sent { StateFlags.SYN_SENT.0 ≡ 0x4 }
    ensures syn_recv { StateFlags.SYN_RECV.0 ≡ 0x8 }
    ensures fin_wait1 { StateFlags.FIN_WAIT1.0 ≡ 0x10 }
    ensures fin_wait2 { StateFlags.FIN_WAIT2.0 ≡ 0x20 }
    ensures time_wait { StateFlags.TIME_WAIT.0 ≡ 0x40 }
    ensures close { StateFlags.CLOSE.0 ≡ 0x80 }
    ensures close_wait { StateFlags.CLOSE_WAIT.0 ≡ 0x100 }
    ensures last_ack { StateFlags.LAST_ACK.0 ≡ 0x200 }
    ensures listen { StateFlags.LISTEN.0 ≡ 0x400 }
    ensures closing { StateFlags.CLOSING.0 ≡ 0x800 }
{}

/// States the bits of each constant of [`ExtensionFlags`]. `.0` is the set as a number.
///
/// Proof only: the contract states the property.
pub fn extension_flags_have_their_values()
    ensures meminfo { ExtensionFlags.MEMINFO.0 ≡ 0x1 }
    ensures info { ExtensionFlags.INFO.0 ≡ 0x2 }
    ensures vegasinfo { ExtensionFlags.VEGASINFO.0 ≡ 0x4 }
    ensures cong { ExtensionFlags.CONG.0 ≡ 0x8 }
    ensures tos { ExtensionFlags.TOS.0 ≡ 0x10 }
    ensures tclass { ExtensionFlags.TCLASS.0 ≡ 0x20 }
    ensures skmeminfo { ExtensionFlags.SKMEMINFO.0 ≡ 0x40 }
    ensures shutdown { ExtensionFlags.SHUTDOWN.0 ≡ 0x80 }
{}
