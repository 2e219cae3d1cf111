//! The id of an IPv4 or IPv6 socket.

ghost use Rattle.std.proofs.Common.{rules};
ghost use Rattle.std.specs.Prelude.{◌≡◌, ◌≢◌, ◌≤◌, ◌+◌, length, replicate, IfErr, ℕ};
ghost use Rattle.std.specs.declared.net.ip_addr.IpAddr.TheVariants.{V4, V6};
ghost use Rattle.std.specs.Net.Addr.{ipv4_octets, ipv6_segments};
ghost use Rattle.netlink_core.specs.Table.{values_of, FitFields};
ghost use Rattle.netlink_core.specs.declared.error.DecodeError.TheVariants.{Memory};
ghost use Rattle.netlink_core.specs.Layout.{parse_record};
ghost use Rattle.netlink_core.proofs.LayoutLaws.{record_laws};
ghost use Rattle.sock_diag_records.specs.SocketId.{HasAddressLength, address_fields};
ghost use Rattle.sock_diag_records.specs.SocketId.{address_values};
ghost use Rattle.sock_diag_records.specs.SocketId.{socket_id};
ghost use Rattle.sock_diag_records.specs.private.SocketId.{address_field_bytes};
ghost use Rattle.sock_diag_records.specs.IpVersions.{ip_version_of, ipv4, ipv6, IpVersions};
ghost use Rattle.sock_diag_records.specs.laws.SocketId.{socket_id_sound};
ghost use Rattle.sock_diag_records.specs.laws.SocketId.{socket_id_has_fixed_length};

use crate::constants::{AF_INET, AF_INET6};
use netlink_core::fields::{array_at, u16s_be_at, u32s_at, write_bytes, write_u16s_be, write_u32s};
use netlink_core::{DecodeError, Exact, Fills, Record, RecordBuffer, RecordName, read_record};
use std::net::{IpAddr, Ipv4Addr, Ipv6Addr};

/// Size of `struct inet_diag_sockid` in bytes.
pub const SOCKET_ID_LEN: usize = 48;

/// The id of an IPv4 or IPv6 socket: `struct inet_diag_sockid` (sock_diag(7)), 48 bytes.
///
/// The bytes do not contain the address family. The parser has it as a parameter: AF_INET (2) or
/// AF_INET6 (10). The serializer writes the addresses of either version.
#[derive(Clone, Debug, Drop, PartialEq, Eq)]
pub struct SocketId {
    /// Local port (`idiag_sport`), parsed from network byte order, at offset 0.
    pub source_port: u16,
    /// Remote port (`idiag_dport`), parsed from network byte order, at offset 2.
    pub destination_port: u16,
    /// Local address (`idiag_src`), in network byte order, at offset 4: 4 bytes and 12 ignored
    /// bytes for IPv4, 16 bytes for IPv6.
    pub source_address: IpAddr,
    /// Remote address (`idiag_dst`), in network byte order, at offset 20: 4 bytes and 12 ignored
    /// bytes for IPv4, 16 bytes for IPv6.
    pub destination_address: IpAddr,
    /// Index of the interface that the socket is bound to (`idiag_if`), little-endian, at offset
    /// 36.
    pub interface_id: u32,
    /// Cookie that distinguishes sockets with the same addresses and ports (`idiag_cookie`), at
    /// offset 40. In a request for a single socket eight bytes 0xff (INET_DIAG_NOCOOKIE) select any
    /// cookie, and the zeros of `new_v4` and `new_v6` do not.
    pub cookie: [u8; 8],
}

impl SocketId {
    /// Returns the id with both ports 0, both addresses 0.0.0.0, interface 0, and a cookie of eight
    /// zeros.
    pub fn new_v4() -> Self
        ensures { let unspecified : IpAddr = V4 record { octets = replicate 4 0 } in result
            ≡ record {
              source_port = 0;
              destination_port = 0;
              source_address = unspecified;
              destination_address = unspecified;
              interface_id = 0;
              cookie = replicate 8 0;
            } }
    {
        SocketId {
            source_port: 0,
            destination_port: 0,
            source_address: IpAddr::V4(Ipv4Addr::UNSPECIFIED),
            destination_address: IpAddr::V4(Ipv4Addr::UNSPECIFIED),
            interface_id: 0,
            cookie: [0; 8],
        }
    }

    /// Returns the id with both ports 0, both addresses `::`, interface 0, and a cookie of eight
    /// zeros.
    pub fn new_v6() -> Self
        ensures { let unspecified : IpAddr = V6 record { segments = replicate 8 0 } in result
            ≡ record {
              source_port = 0;
              destination_port = 0;
              source_address = unspecified;
              destination_address = unspecified;
              interface_id = 0;
              cookie = replicate 8 0;
            } }
    {
        SocketId {
            source_port: 0,
            destination_port: 0,
            source_address: IpAddr::V6(Ipv6Addr::UNSPECIFIED),
            destination_address: IpAddr::V6(Ipv6Addr::UNSPECIFIED),
            interface_id: 0,
            cookie: [0; 8],
        }
    }
}

/// The 48 bytes of a [`SocketId`], including the ignored ones.
pub type SocketIdBuffer = RecordBuffer<SocketId, SOCKET_ID_LEN>;

// Parses the IPv4 address at the offset: four octets. Requires that the bytes contain them.
fn ipv4_at(bytes: &[u8], offset: usize) -> Ipv4Addr
    requires { offset + 4 ≤ length bytes.now }
    ensures { ipv4_octets result ≡ values_of (address_fields offset ipv4) bytes.now }
{
    Ipv4Addr::new(
        bytes[offset],
        bytes[offset + 1],
        bytes[offset + 2],
        bytes[offset + 3],
    )
}

// Parses the IPv6 address at the offset: eight segments of two bytes in network byte order.
// Requires that the bytes contain them.
fn ipv6_at(bytes: &[u8], offset: usize) -> Ipv6Addr
    requires { offset + 16 ≤ length bytes.now }
    ensures { ipv6_segments result ≡ values_of (address_fields offset ipv6) bytes.now }
{
    Ipv6Addr::from_segments(u16s_be_at(bytes, offset))
}

// Writes an address to a buffer of exactly 16 bytes. Zeros follow the four bytes of an IPv4
// address.
fn write_address(address: IpAddr, buffer: &mut [u8])
    requires { length buffer.old ≡ 16 }
    ensures written { buffer.new ≡ address_field_bytes address }
    // This and `in_range` hold for each Rust address. They are stated for the laws of the record.
    ensures shaped { HasAddressLength address }
    ensures in_range { (offset : ℕ)
        → FitFields (address_fields offset (ip_version_of address)) (address_values address) }
{
    match address {
        IpAddr::V4(ip) => {
            write_bytes(&ip.octets(), &mut buffer[..4]);
            buffer[4..].fill(0);
        }
        IpAddr::V6(ip) => write_u16s_be(&ip.segments(), buffer),
    }
}

impl Exact for SocketId {
    ghost exact = { (Prim.search rules, Prim.search rules, Prim.search rules depth 12) };
}

impl Record for SocketId {
    type Param = u8;

    ghost Tag = { IpVersions };

    ghost layout = { socket_id };

    #[tactic(auto, unfolding(crate::specs::SocketId::socket_id))]
    fn name_and_least() -> (RecordName, usize) {
        (RecordName::SocketId, SOCKET_ID_LEN)
    }

    #[tactic(auto, unfolding(crate::specs::SocketId::socket_id))]
    fn size(&self) -> usize {
        SOCKET_ID_LEN
    }

    /// Parses the first 48 bytes for the family, and ignores the bytes after them. A family other
    /// than AF_INET and AF_INET6 is [`DecodeError::UnsupportedFamily`]. There have to be 48 bytes:
    /// the caller checks this first, and reports [`DecodeError::BufferTooSmall`].
    #[tactic(auto, unfolding(crate::specs::SocketId::socket_id))]
    #[inline(always)]
    fn from_fields(payload: &[u8], family: u8) -> Result<Self, DecodeError> {
        let (source_address, destination_address) = match family {
            AF_INET => (
                IpAddr::V4(ipv4_at(payload, 4)),
                IpAddr::V4(ipv4_at(payload, 20)),
            ),
            AF_INET6 => (
                IpAddr::V6(ipv6_at(payload, 4)),
                IpAddr::V6(ipv6_at(payload, 20)),
            ),
            _ => return Err(DecodeError::UnsupportedFamily { family }),
        };
        let [source_port, destination_port] = u16s_be_at::<2>(payload, 0);
        let [interface_id] = u32s_at::<1>(payload, 36);
        Ok(SocketId {
            source_port,
            destination_port,
            source_address,
            destination_address,
            interface_id,
            cookie: array_at(payload, 40),
        })
    }

    #[tactic(auto, unfolding(crate::specs::SocketId::socket_id))]
    fn write_fields(&self, buffer: &mut [u8]) {
        let (ports, rest) = buffer.split_at_mut(4);
        let (source, rest) = rest.split_at_mut(16);
        let (destination, rest) = rest.split_at_mut(16);
        let (interface, cookie) = rest.split_at_mut(4);
        write_u16s_be(&[self.source_port, self.destination_port], ports);
        write_address(self.source_address, source);
        write_address(self.destination_address, destination);
        write_u32s(&[self.interface_id], interface);
        write_bytes(&self.cookie, cookie);
    }

    ghost laws = { record_laws socket_id socket_id_sound };
}

impl SocketId {
    /// Parses the first 48 bytes, with addresses of the IP version of `family`, and ignores the
    /// bytes after them. Fails with [`DecodeError::BufferTooSmall`] if there are fewer bytes, else
    /// with [`DecodeError::UnsupportedFamily`] if the family is neither AF_INET (2) nor AF_INET6
    /// (10). It does not allocate, so the error is never [`DecodeError::Memory`].
    #[inline(always)]
    pub fn from_prefix(payload: &[u8], family: u8) -> Result<Self, DecodeError>
        ensures value { result ≡ parse_record socket_id family payload.now }
        ensures not_memory { IfErr result (λ error. error ≢ Memory) }
    {
        read_record(payload, family)
    }
}

impl Fills<SOCKET_ID_LEN> for SocketId {
    ghost fills = { socket_id_has_fixed_length };
}
