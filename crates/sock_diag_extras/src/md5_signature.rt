//! The MD5 keys that a TCP socket signs segments with: INET_DIAG_MD5SIG.

ghost use Rattle.std.specs.Prelude.{◌≡◌, refl};
ghost use Rattle.netlink_core.proofs.FieldReads.{first_numbers_are_all};
ghost use Rattle.netlink_core.proofs.LayoutLaws.{plain_sound, record_laws};
ghost use Rattle.sock_diag_extras.specs.Md5Signature.{md5_signature};
ghost use Rattle.sock_diag_extras.specs.RecordTable.{layout_with_name};

use crate::record::AttributeRecord;
use byteorder::{ByteOrder, LittleEndian};
use netlink_core::fields::array_at;
use sock_diag_records::constants::{AF_INET, AF_INET6};
use std::net::{IpAddr, Ipv4Addr, Ipv6Addr};

/// An MD5 signature key for the segments of some peers: one of the records in the value of
/// `INET_DIAG_MD5SIG`, `struct tcp_diag_md5sig` of `linux/tcp.h`, 100 bytes. The kernel sends it
/// only to processes with `CAP_NET_ADMIN`.
#[repr(C)]
#[derive(Clone, Copy, Debug, PartialEq, Eq)]
pub struct Md5Signature {
    /// Address family, `tcpm_family`, at offset 0: 2 for `AF_INET`, 10 for `AF_INET6`.
    pub family: u8,
    /// Length of the address prefix of the peers, `tcpm_prefixlen`, at offset 1, in bits.
    pub prefix_length: u8,
    /// Length of the key, `tcpm_keylen`, at offset 2, in bytes, little-endian.
    pub key_length: u16,
    /// Address, `tcpm_addr`, at offset 4, in network byte order. An IPv4 address is in the first
    /// four bytes.
    pub address: [u8; 16],
    /// Key, `tcpm_key`, at offset 20. Only the first `key_length` bytes are used.
    pub key: [u8; 80],
}

impl AttributeRecord for Md5Signature {
    ghost layout = { md5_signature };

    fn size() -> usize {
        100
    }

    fn from_fields(bytes: &[u8]) -> Self {
        Md5Signature {
            family: bytes[0],
            prefix_length: bytes[1],
            key_length: LittleEndian::read_u16(&bytes[2..]),
            address: array_at(bytes, 4),
            key: array_at(bytes, 20),
        }
    }

    fn write_fields(&self, buffer: &mut [u8]) {
        let (family_and_prefix, after_prefix) = buffer.split_at_mut(2);
        let (key_length, after_key_length) = after_prefix.split_at_mut(2);
        let (address, key) = after_key_length.split_at_mut(16);
        family_and_prefix.copy_from_slice(&[self.family, self.prefix_length]);
        LittleEndian::write_u16_into(&[self.key_length], key_length);
        address.copy_from_slice(&self.address);
        key.copy_from_slice(&self.key);
    }

    // Proof only: the first 16 and 80 numbers of the two arrays are all of their elements.
    ghost laws = { λ name. record_laws (layout_with_name md5_signature name) (plain_sound refl
        (λ _. refl) (λ _. refl) (λ _. (refl, refl)) (λ v shaped.
        let address = first_numbers_are_all 16 v.address shaped.0 in
        let key = first_numbers_are_all 80 v.key shaped.1 in
        λ i. record v { address = address i; key = key i })) };
}

impl Md5Signature {
    ghost use Rattle.sock_diag_extras.specs.Md5Signature.{peer_ip, used_key};

    /// Returns the IP address of the peers: the IPv4 address in the first four bytes of `address`
    /// if the family is 2 (`AF_INET`), and the IPv6 address in all of them if it is 10
    /// (`AF_INET6`). Returns `None` for any other family.
    pub fn ip(&self) -> Option<IpAddr>
        ensures { result ≡ peer_ip self.now }
    {
        let [a, b, c, d, ..] = self.address;
        match self.family {
            AF_INET => Some(IpAddr::V4(Ipv4Addr::new(a, b, c, d))),
            AF_INET6 => Some(IpAddr::V6(Ipv6Addr::from_octets(self.address))),
            _ => None,
        }
    }

    /// Returns the bytes of the key that are used: the first `key_length` bytes of `key`, or all 80
    /// if it is greater.
    pub fn used_key(&self) -> &[u8]
        ensures { result.now ≡ used_key self.now }
    {
        let length = self.key_length as usize;
        if length < 80 {
            &self.key[..length]
        } else {
            &self.key
        }
    }
}
