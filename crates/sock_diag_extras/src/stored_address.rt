//! The addresses of an SCTP socket or association: INET_DIAG_LOCALS and INET_DIAG_PEERS.

ghost use Rattle.std.specs.Prelude.{◌≡◌, refl};
ghost use Rattle.netlink_core.proofs.FieldReads.{first_numbers_are_all};
ghost use Rattle.netlink_core.proofs.LayoutLaws.{plain_sound, record_laws};
ghost use Rattle.sock_diag_extras.specs.RecordTable.{layout_with_name};
ghost use Rattle.sock_diag_extras.specs.StoredAddress.{stored_address};

use crate::record::AttributeRecord;
use byteorder::{BigEndian, ByteOrder, LittleEndian};
use netlink_core::fields::{array_at, u16s_be_at, u32s_at};
use std::net::{IpAddr, Ipv4Addr, Ipv6Addr};

/// The address family of IPv4, `AF_INET`.
const INET: u16 = 2;

/// The address family of IPv6, `AF_INET6`.
const INET6: u16 = 10;

/// An address of an SCTP socket or association: one of the records in the values of
/// `INET_DIAG_LOCALS` and `INET_DIAG_PEERS`. It is a `struct sockaddr_storage`, 128 bytes. By its
/// family, it starts with a `struct sockaddr_in` (ip(7)) or a `struct sockaddr_in6` (ipv6(7)). No
/// byte is ignored.
#[repr(C)]
#[derive(Clone, Copy, Debug, PartialEq, Eq)]
pub struct StoredAddress {
    /// Address family, `sin_family` or `sin6_family`, at offset 0, little-endian: 2 for `AF_INET`,
    /// 10 for `AF_INET6`.
    pub family: u16,
    /// Port, `sin_port` or `sin6_port`, at offset 2, parsed from network byte order.
    pub port: u16,
    /// IPv4 address (`sin_addr`), or flow information of IPv6 (`sin6_flowinfo`), at offset 4, in
    /// network byte order.
    pub front: [u8; 4],
    /// IPv6 address, `sin6_addr`, at offset 8: eight segments of 16 bits, parsed from network byte
    /// order: 0x2001 for 2001:... For `AF_INET`, the bytes after `sin_addr`.
    pub segments: [u16; 8],
    /// Index of the interface of a link-local IPv6 address, `sin6_scope_id`, at offset 24,
    /// little-endian.
    pub scope_id: u32,
    /// The bytes from offset 28 on, which neither `struct sockaddr_in` nor `struct sockaddr_in6`
    /// has.
    pub rest: [u8; 100],
}

impl AttributeRecord for StoredAddress {
    ghost layout = { stored_address };

    fn size() -> usize {
        128
    }

    fn from_fields(bytes: &[u8]) -> Self {
        let [port] = u16s_be_at::<1>(bytes, 2);
        let [scope_id] = u32s_at::<1>(bytes, 24);
        StoredAddress {
            family: LittleEndian::read_u16(bytes),
            port,
            front: array_at(bytes, 4),
            segments: u16s_be_at(bytes, 8),
            scope_id,
            rest: array_at(bytes, 28),
        }
    }

    fn write_fields(&self, buffer: &mut [u8]) {
        let (family, after_family) = buffer.split_at_mut(2);
        let (port, after_port) = after_family.split_at_mut(2);
        let (front, after_front) = after_port.split_at_mut(4);
        let (segments, after_segments) = after_front.split_at_mut(16);
        let (scope_id, rest) = after_segments.split_at_mut(4);
        LittleEndian::write_u16_into(&[self.family], family);
        BigEndian::write_u16_into(&[self.port], port);
        front.copy_from_slice(&self.front);
        BigEndian::write_u16_into(&self.segments, segments);
        LittleEndian::write_u32_into(&[self.scope_id], scope_id);
        rest.copy_from_slice(&self.rest);
    }

    // Proof only: the first 4, 8 and 100 numbers of the three arrays are all of their elements.
    ghost laws = { λ name. record_laws (layout_with_name stored_address name) (plain_sound refl
        (λ _. refl) (λ _. refl) (λ _. (refl, refl, refl)) (λ v shaped.
        let front = first_numbers_are_all 4 v.front shaped.0 in
        let segments = first_numbers_are_all 8 v.segments shaped.1 in
        let rest = first_numbers_are_all 100 v.rest shaped.2 in
        λ i. record v { front = front i; segments = segments i; rest = rest i })) };
}

impl StoredAddress {
    ghost use Rattle.sock_diag_extras.specs.StoredAddress.{ip_of};

    /// Returns the IP address: the IPv4 address in `front` if the family is 2 (`AF_INET`), and the
    /// IPv6 address in `segments` if it is 10 (`AF_INET6`). Returns `None` for any other family.
    pub fn ip(&self) -> Option<IpAddr>
        ensures { result ≡ ip_of self.now }
    {
        match self.family {
            INET => Some(IpAddr::V4(Ipv4Addr::from_octets(self.front))),
            INET6 => Some(IpAddr::V6(Ipv6Addr::from_segments(self.segments))),
            _ => None,
        }
    }
}
