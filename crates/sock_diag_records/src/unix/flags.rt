//! The flags of a request for UNIX sockets.

ghost use Rattle.std.proofs.Common.{rules};
ghost use Rattle.std.specs.Prelude.{⊤, ◌≡◌};
ghost use Rattle.std.specs.Int.RustNames.{bit_or};
ghost use Rattle.bitflags.specs.Sets.{known_bits};
ghost use Rattle.sock_diag_records.specs.Flags.{unix_state_flags, unix_show_flags};

use crate::named::named_flags;
use bitflags::{Flag, Flags};
use netlink_core::Exact;
use std::ops::BitOr;

/// The requested states (`udiag_states` of sock_diag(7)): a set of two bits. The bit of a state is
/// `1 << state`, with the states `TCP_ESTABLISHED` (1) and `TCP_LISTEN` (10). A parser masks off
/// all other bits, also the bit of `TCP_CLOSE` (7), the state of sockets that neither listen nor
/// were connected, by themselves or by another socket.
#[derive(Clone, Debug, Drop, PartialEq, Eq)]
pub struct StateFlags(u32);

impl BitOr for StateFlags {
    type Output = StateFlags;

    ghost bitor_gives = { λ left right union. union.0 ≡ bit_or left.0 right.0 };

    /// Returns the union of both sets.
    fn bitor(self, other: StateFlags) -> StateFlags {
        StateFlags(self.0 | other.0)
    }
}

impl StateFlags {
    /// The state `TCP_ESTABLISHED`.
    pub const ESTABLISHED: StateFlags = StateFlags(0x2);
    /// The state `TCP_LISTEN`.
    pub const LISTEN: StateFlags = StateFlags(0x400);
}

impl Exact for StateFlags {
    ghost exact = { Prim.search rules };
}

impl Flags for StateFlags {
    type Bits = u32;

    // The contracts of `Flags` hold of this type (`⊤`), with the table and the bits below.
    ghost exact = { ⊤ };

    ghost table = { unix_state_flags };

    ghost set_of = { λ flags. flags.0 };

    fn flags<'a>() -> &'a [Flag<StateFlags>] {
        named_flags!(StateFlags: ESTABLISHED, LISTEN)
    }

    fn bits(&self) -> u32 {
        self.0
    }

    fn from_bits_retain(bits: u32) -> StateFlags {
        StateFlags(bits)
    }
}

/// The requested attributes (`udiag_show` of sock_diag(7)): a set of six bits. The bit of an
/// attribute is `1 << kind`, with the kinds `UNIX_DIAG_NAME` (0) to `UNIX_DIAG_MEMINFO` (5).
/// `UDIAG_SHOW_UID` (0x40) of newer kernels has no constant.
#[derive(Clone, Debug, Drop, PartialEq, Eq)]
pub struct ShowFlags(u32);

impl BitOr for ShowFlags {
    type Output = ShowFlags;

    ghost bitor_gives = { λ left right union. union.0 ≡ bit_or left.0 right.0 };

    /// Returns the union of both sets.
    fn bitor(self, other: ShowFlags) -> ShowFlags {
        ShowFlags(self.0 | other.0)
    }
}

impl ShowFlags {
    /// The attribute `UNIX_DIAG_NAME` (`UDIAG_SHOW_NAME`).
    pub const NAME: ShowFlags = ShowFlags(0x1);
    /// The attribute `UNIX_DIAG_VFS` (`UDIAG_SHOW_VFS`).
    pub const VFS: ShowFlags = ShowFlags(0x2);
    /// The attribute `UNIX_DIAG_PEER` (`UDIAG_SHOW_PEER`).
    pub const PEER: ShowFlags = ShowFlags(0x4);
    /// The attribute `UNIX_DIAG_ICONS` (`UDIAG_SHOW_ICONS`).
    pub const ICONS: ShowFlags = ShowFlags(0x8);
    /// The attribute `UNIX_DIAG_RQLEN` (`UDIAG_SHOW_RQLEN`).
    pub const RQLEN: ShowFlags = ShowFlags(0x10);
    /// The attribute `UNIX_DIAG_MEMINFO` (`UDIAG_SHOW_MEMINFO`).
    pub const MEMINFO: ShowFlags = ShowFlags(0x20);
}

impl Exact for ShowFlags {
    ghost exact = { Prim.search rules };
}

impl Flags for ShowFlags {
    type Bits = u32;

    ghost exact = { ⊤ };

    ghost table = { unix_show_flags };

    ghost set_of = { λ flags. flags.0 };

    fn flags<'a>() -> &'a [Flag<ShowFlags>] {
        named_flags!(ShowFlags: NAME, VFS, PEER, ICONS, RQLEN, MEMINFO)
    }

    fn bits(&self) -> u32 {
        self.0
    }

    fn from_bits_retain(bits: u32) -> ShowFlags {
        ShowFlags(bits)
    }
}

/// States which bits have a name in this crate: bits 1 and 10 of a [`StateFlags`] (0x402), and bits
/// 0 to 5 of a [`ShowFlags`] (0x3f). `known_bits table` are the bits of all flags in a table of
/// names and bits, such as `unix_state_flags`. Contracts of parsers do not use these tables: the
/// layout of a request has the same two numbers as masks.
///
/// Proof only: the contract states the property.
#[tactic(auto, unfolding(bitflags::proofs::OnLiterals::bitflags_on_literals))]
pub fn flags_have_their_bits()
    ensures states { known_bits unix_state_flags ≡ 0x402 }
    ensures shown { known_bits unix_show_flags ≡ 0x3f }
{}

/// States the bits of each constant of [`StateFlags`]. `.0` is the set as a number.
///
/// Proof only: the contract states the property.
pub fn state_flags_have_their_values()
    ensures established { StateFlags.ESTABLISHED.0 ≡ 0x2 }
    ensures listen { StateFlags.LISTEN.0 ≡ 0x400 }
{}

/// States the bits of each constant of [`ShowFlags`]. `.0` is the set as a number.
///
/// Proof only: the contract states the property.
pub fn show_flags_have_their_values()
    ensures name { ShowFlags.NAME.0 ≡ 0x1 }
    ensures vfs { ShowFlags.VFS.0 ≡ 0x2 }
    ensures peer { ShowFlags.PEER.0 ≡ 0x4 }
    ensures icons { ShowFlags.ICONS.0 ≡ 0x8 }
    ensures rqlen { ShowFlags.RQLEN.0 ≡ 0x10 }
    ensures meminfo { ShowFlags.MEMINFO.0 ≡ 0x20 }
{}
