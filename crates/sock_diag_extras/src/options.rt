//! The options of an IPv4 or IPv6 socket in INET_DIAG_SOCKOPT.

ghost use Rattle.std.specs.Prelude.{◌↔◌, IsBitSet, IsTrue, refl};
ghost use Rattle.netlink_core.proofs.LayoutLaws.{plain_sound, record_laws};
ghost use Rattle.sock_diag_extras.specs.RecordTable.{layout_with_name};
ghost use Rattle.sock_diag_extras.specs.SocketOptions.{socket_options};

use crate::record::AttributeRecord;
use byteorder::{ByteOrder, LittleEndian};

/// An option of an IPv4 or IPv6 socket: a bit of `struct inet_diag_sockopt` of `linux/inet_diag.h`.
/// Bits of the first byte are counted from its least significant bit. ip(7) describes most options.
#[derive(Clone, Copy, Debug, PartialEq, Eq)]
pub enum SocketOption {
    /// `IP_RECVERR`: `recverr`, bit 0.
    RecvErr,
    /// The socket is of a connection-oriented protocol: `is_icsk`, bit 1.
    IsIcsk,
    /// `IP_FREEBIND`: `freebind`, bit 2.
    FreeBind,
    /// `IP_HDRINCL`: `hdrincl`, bit 3.
    HdrIncl,
    /// `IP_MULTICAST_LOOP`: `mc_loop`, bit 4.
    McLoop,
    /// `IP_TRANSPARENT`: `transparent`, bit 5.
    Transparent,
    /// `IP_MULTICAST_ALL`: `mc_all`, bit 6.
    McAll,
    /// `IP_NODEFRAG`: `nodefrag`, bit 7.
    NoDefrag,
    /// `IP_BIND_ADDRESS_NO_PORT`: `bind_address_no_port`, bit 0 of the second byte.
    BindAddressNoPort,
    /// `IP_RECVERR_RFC4884`: `recverr_rfc4884`, bit 1 of the second byte.
    RecvErrRfc4884,
    /// `connect` is deferred until data is written, by `TCP_FASTOPEN_CONNECT`: `defer_connect`, bit
    /// 2 of the second byte.
    DeferConnect,
}

/// The options of an IPv4 or IPv6 socket: the two bytes of `INET_DIAG_SOCKOPT`.
#[repr(C)]
#[derive(Clone, Copy, Debug, PartialEq, Eq)]
pub struct SocketOptions {
    /// Both bytes as a little-endian number: bits 0 to 7 are the first byte.
    pub bits: u16,
}

impl AttributeRecord for SocketOptions {
    ghost layout = { socket_options };

    fn size() -> usize {
        2
    }

    fn from_fields(bytes: &[u8]) -> Self {
        SocketOptions {
            bits: LittleEndian::read_u16(bytes),
        }
    }

    fn write_fields(&self, buffer: &mut [u8]) {
        LittleEndian::write_u16(buffer, self.bits);
    }

    // Proof only: the record has no array, so the conditions on its layout hold by computation.
    ghost laws = { λ name. record_laws (layout_with_name socket_options name) (plain_sound refl
        (λ _. refl) (λ _. refl) (λ _. tt) (λ _ _. refl)) };
}

impl SocketOptions {
    ghost use Rattle.sock_diag_extras.specs.SocketOptions.{bit_of};

    /// Returns whether the option is set: whether `bits` has the bit of the option.
    pub fn has(&self, option: SocketOption) -> bool
        ensures { IsTrue result ↔ IsBitSet self.now.bits (bit_of option) }
    {
        // Each value is 2 to the power of the index of the option's bit.
        let bit = match option {
            SocketOption::RecvErr => 1,
            SocketOption::IsIcsk => 2,
            SocketOption::FreeBind => 4,
            SocketOption::HdrIncl => 8,
            SocketOption::McLoop => 16,
            SocketOption::Transparent => 32,
            SocketOption::McAll => 64,
            SocketOption::NoDefrag => 128,
            SocketOption::BindAddressNoPort => 256,
            SocketOption::RecvErrRfc4884 => 512,
            SocketOption::DeferConnect => 1024,
        };
        self.bits & bit != 0
    }
}
