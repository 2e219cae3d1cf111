//! What a filter compares of a socket.

ghost use Rattle.std.specs.Prelude.{◌≡◌, ◌<◌, ◌≤◌, ◌*◌, ℕ, length};
ghost use Rattle.std.specs.declared.net.ip_addr.IpAddr.TheVariants.{V6};
ghost use Rattle.sock_diag_filters.specs.Prefixes.{octets_of};
ghost use Rattle.sock_diag_filters.specs.Sockets.{address_has_optional_prefix, address_has_prefix};
ghost use Rattle.sock_diag_filters.specs.Sockets.{compares, have_equal_prefix, meets_host};
ghost use Rattle.sock_diag_filters.specs.SocketEnds.{end_of};

use crate::condition::{Comparison, Condition, Host, Prefix, write_address};
use byteorder::{BigEndian, ByteOrder};
use std::net::{IpAddr, Ipv6Addr};

/// What a filter compares of a socket.
#[derive(Clone, Copy, Debug)]
pub struct SocketFacts {
    /// The local address.
    pub source: IpAddr,
    /// The remote address.
    pub destination: IpAddr,
    /// The local port.
    pub source_port: u16,
    /// The remote port.
    pub destination_port: u16,
    /// The index of the interface that the socket is bound to, or 0.
    pub interface: u32,
    /// The mark, if it is known.
    pub mark: Option<u32>,
    /// The id of the control group, if it is known.
    pub cgroup: Option<u64>,
    /// Whether the socket meets [`Condition::AutoBound`], if it is known. No reply says so.
    pub is_auto_bound: Option<bool>,
}

impl SocketFacts {
    ghost use Rattle.sock_diag_filters.specs.SocketFacts.{facts_meet};

    /// Returns whether the socket meets a condition, as the kernel compares. It does not if what
    /// the condition compares is not known.
    pub fn meets(&self, condition: Condition) -> bool
        ensures { result ≡ facts_meet self.now condition }
    {
        match condition {
            Condition::SourcePort(comparison, port) => compares(comparison, self.source_port, port),
            Condition::DestinationPort(comparison, port) => {
                compares(comparison, self.destination_port, port)
            }
            Condition::Source(host) => matches_host(host, self.source, self.source_port),
            Condition::Destination(host) => {
                matches_host(host, self.destination, self.destination_port)
            }
            Condition::Interface(number) => self.interface == number,
            Condition::Mark { mark, mask } => match self.mark {
                Some(own) => own & mask == mark,
                None => false,
            },
            Condition::Cgroup(number) => self.cgroup == Some(number),
            Condition::AutoBound => self.is_auto_bound == Some(true),
        }
    }
}

// Returns whether a port compares with a number in this way.
fn compares(comparison: Comparison, port: u16, number: u16) -> bool
    ensures { result ≡ compares comparison port number }
{
    match comparison {
        Comparison::AtLeast => port >= number,
        Comparison::AtMost => port <= number,
        Comparison::Equal => port == number,
    }
}

// Returns whether an end of a socket with this address and port matches a host.
fn matches_host(host: Host, address: IpAddr, port: u16) -> bool
    ensures { result ≡ meets_host host (end_of address port) }
{
    let has_port = match host.port {
        None => true,
        Some(required) => required == port,
    };
    has_port && has_optional_prefix(host.prefix, address)
}

// Returns whether an address has a prefix. Each address does if there is none.
fn has_optional_prefix(prefix: Option<Prefix>, address: IpAddr) -> bool
    ensures { (port : ℕ) → result ≡ address_has_optional_prefix prefix (end_of address port) }
{
    match prefix {
        None => true,
        Some(prefix) => has_prefix(prefix, address),
    }
}

// Returns whether an address has a prefix. An IPv4-mapped IPv6 address has a prefix of an IPv4
// address if its last four octets have.
fn has_prefix(prefix: Prefix, address: IpAddr) -> bool
    ensures { (port : ℕ) → result
        ≡ address_has_prefix prefix.address prefix.bits (end_of address port) }
{
    match (prefix.address, address) {
        (IpAddr::V4(wanted), IpAddr::V4(ip)) => {
            prefix.bits == 0 || have_equal_bits(prefix.bits, &ip.octets(), &wanted.octets())
        }
        (IpAddr::V4(wanted), IpAddr::V6(ip)) => {
            let octets = ipv6_octets(ip);
            BigEndian::read_uint128(&octets, 12) == 0xffff
                && have_equal_bits(prefix.bits, &octets[12..], &wanted.octets())
        }
        (IpAddr::V6(wanted), IpAddr::V6(ip)) => {
            prefix.bits == 0 || have_equal_bits(prefix.bits, &ipv6_octets(ip), &ipv6_octets(wanted))
        }
        (IpAddr::V6(_), IpAddr::V4(_)) => false,
    }
}

// Returns the octets of an IPv6 address.
fn ipv6_octets(ip: Ipv6Addr) -> [u8; 16]
    ensures { result ≡ octets_of (V6 ip) }
{
    let mut octets = [0; 16];
    write_address(IpAddr::V6(ip), &mut octets);
    octets
}

// Returns whether the first `bits` bits of two addresses are equal.
fn have_equal_bits(bits: u8, octets: &[u8], others: &[u8]) -> bool
    requires same { length octets.now ≡ length others.now }
    requires some { 0 < length others.now }
    requires short { length others.now ≤ 16 }
    requires within { bits ≤ 8 * length others.now }
    ensures { result ≡ have_equal_prefix bits octets.now others.now }
{
    let len = others.len();
    let later = 8 * len - usize::from(bits);
    let number = BigEndian::read_uint128(octets, len);
    let other = BigEndian::read_uint128(others, len);
    // A shift by all 128 bits would overflow.
    later == 128 || number >> later == other >> later
}
