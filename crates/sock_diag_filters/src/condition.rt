//! Conditions of a filter on a socket. Clauses `in_range` state that each number fits its Rust
//! type. This is so for all Rust values; they are stated since `assemble` promises it.

ghost use Rattle.std.specs.Prelude.{◌≡◌, ◌*◌, ◌≤◌, length, unwrap_or};
ghost use Rattle.std.specs.declared.net.ip_addr.IpAddr.TheVariants.{V6};
ghost use Rattle.sock_diag_filters.specs.Prefixes.{bits_of, family_of, octets_of, port_bytes};

use crate::codes::{
    INET_DIAG_BC_AUTO, INET_DIAG_BC_CGROUP_COND, INET_DIAG_BC_D_COND, INET_DIAG_BC_D_EQ,
    INET_DIAG_BC_D_GE, INET_DIAG_BC_D_LE, INET_DIAG_BC_DEV_COND, INET_DIAG_BC_MARK_COND,
    INET_DIAG_BC_S_COND, INET_DIAG_BC_S_EQ, INET_DIAG_BC_S_GE, INET_DIAG_BC_S_LE,
};
use byteorder::{BigEndian, ByteOrder, LittleEndian};
use sock_diag_records::constants::{AF_INET, AF_INET6};
use std::net::{IpAddr, Ipv6Addr};

/// The comparison of a port with a given port.
#[derive(Clone, Copy, Debug, PartialEq, Eq)]
pub enum Comparison {
    /// The port is greater than or equal to the given port.
    AtLeast,
    /// The port is less than or equal to the given port.
    AtMost,
    /// The port is equal to the given port.
    Equal,
}

/// A prefix of an IPv4 or IPv6 address: its first bits.
#[derive(Clone, Copy, Debug, PartialEq, Eq)]
pub struct Prefix {
    /// The address. The bits after the prefix do not affect which addresses match.
    pub address: IpAddr,
    /// The number of bits: at most 32 of an IPv4 address, and at most 128 of an IPv6 address.
    pub bits: u8,
    // The address has at least this number of bits.
    ghost in_range: { bits ≤ bits_of address },
}

impl Prefix {
    ghost use Rattle.sock_diag_filters.specs.Conditions.{IsNewPrefix};

    /// Returns the prefix that consists of the first `bits` bits of `address`. Returns `None` if
    /// and only if the address has fewer bits: 32 for IPv4, 128 for IPv6. The bits after the prefix
    /// are kept, but they do not affect which addresses match.
    pub fn new(address: IpAddr, bits: u8) -> Option<Prefix>
        ensures { IsNewPrefix result address bits }
    {
        let most = match address {
            IpAddr::V4(_) => 32,
            IpAddr::V6(_) => 128,
        };
        if bits > most {
            return None;
        }
        Some(Prefix { address, bits })
    }
}

/// A condition on the address and the port of one end of a socket. What is `None` is not compared.
/// A prefix of an IPv4 address also matches IPv4-mapped IPv6 addresses, `::ffff:a.b.c.d`.
#[derive(Clone, Copy, Debug, PartialEq, Eq)]
pub struct Host {
    /// The prefix of the address.
    pub prefix: Option<Prefix>,
    /// The port, which has to be equal.
    pub port: Option<u16>,
}

/// A condition on a socket. Each is one operation of `linux/inet_diag.h`.
#[derive(Clone, Copy, Debug, PartialEq, Eq)]
pub enum Condition {
    /// The local port, compared with a port: `INET_DIAG_BC_S_GE`, `S_LE` and `S_EQ`.
    SourcePort(Comparison, u16),
    /// The remote port, compared with a port: `INET_DIAG_BC_D_GE`, `D_LE` and `D_EQ`.
    DestinationPort(Comparison, u16),
    /// The local address and port: `INET_DIAG_BC_S_COND`.
    Source(Host),
    /// The remote address and port: `INET_DIAG_BC_D_COND`.
    Destination(Host),
    /// The index of the interface that the socket is bound to: `INET_DIAG_BC_DEV_COND`.
    Interface(u32),
    /// The socket's mark under a mask: `INET_DIAG_BC_MARK_COND`. Without `CAP_NET_ADMIN` the kernel
    /// rejects it with `EPERM`.
    Mark {
        /// The value of the mark's bits in the mask. If it has bits that are not in the mask, no
        /// socket meets the condition.
        mark: u32,
        /// The bits of the mark that are compared.
        mask: u32,
    },
    /// The id of the socket's control group: `INET_DIAG_BC_CGROUP_COND`. A kernel without control
    /// groups rejects it.
    Cgroup(u64),
    /// The socket itself was not bound to its local port by bind(2): `INET_DIAG_BC_AUTO`. The
    /// kernel chose the port, or a listening socket accepted the socket. Each socket in TIME_WAIT
    /// meets the condition too.
    AutoBound,
}

impl Condition {
    ghost use Rattle.sock_diag_filters.specs.Conditions.{arguments, code_of};
    ghost use Rattle.sock_diag_filters.specs.Sockets.{IsConditionInRange};

    // Returns the code of the condition's operation (`code_of`), such as `INET_DIAG_BC_S_GE`.
    pub(crate) fn code(self) -> u8
        ensures { result ≡ code_of self }
    {
        match self {
            Condition::SourcePort(Comparison::AtLeast, _) => INET_DIAG_BC_S_GE,
            Condition::SourcePort(Comparison::AtMost, _) => INET_DIAG_BC_S_LE,
            Condition::SourcePort(Comparison::Equal, _) => INET_DIAG_BC_S_EQ,
            Condition::DestinationPort(Comparison::AtLeast, _) => INET_DIAG_BC_D_GE,
            Condition::DestinationPort(Comparison::AtMost, _) => INET_DIAG_BC_D_LE,
            Condition::DestinationPort(Comparison::Equal, _) => INET_DIAG_BC_D_EQ,
            Condition::Source(_) => INET_DIAG_BC_S_COND,
            Condition::Destination(_) => INET_DIAG_BC_D_COND,
            Condition::Interface(_) => INET_DIAG_BC_DEV_COND,
            Condition::Mark { .. } => INET_DIAG_BC_MARK_COND,
            Condition::Cgroup(_) => INET_DIAG_BC_CGROUP_COND,
            Condition::AutoBound => INET_DIAG_BC_AUTO,
        }
    }

    // Returns the length in bytes of the arguments of the condition's operation.
    pub(crate) fn arguments_len(self) -> usize
        ensures { result ≡ length (arguments self) }
    {
        match self {
            Condition::SourcePort(..) | Condition::DestinationPort(..) => 4,
            Condition::Source(host) | Condition::Destination(host) => host.len(),
            Condition::Interface(_) => 4,
            Condition::Mark { .. } | Condition::Cgroup(_) => 8,
            Condition::AutoBound => 0,
        }
    }

    // Writes the arguments of the condition's operation to a buffer of their length.
    pub(crate) fn write_arguments(self, buffer: &mut [u8])
        requires { length buffer.old ≡ length (arguments self) }
        ensures written { buffer.new ≡ arguments self }
        ensures in_range { IsConditionInRange self }
    {
        match self {
            Condition::SourcePort(_, port) | Condition::DestinationPort(_, port) => {
                write_port(port, buffer)
            }
            Condition::Source(host) | Condition::Destination(host) => host.write(buffer),
            Condition::Interface(number) => LittleEndian::write_u32(buffer, number),
            Condition::Mark { mark, mask } => LittleEndian::write_u32_into(&[mark, mask], buffer),
            Condition::Cgroup(number) => LittleEndian::write_u64(buffer, number),
            Condition::AutoBound => {}
        }
    }
}

impl Host {
    ghost use Rattle.sock_diag_filters.specs.Conditions.{host_bytes};
    ghost use Rattle.sock_diag_filters.specs.Sockets.{IsPort};

    // Returns the length of `struct inet_diag_hostcond` with its address, in bytes.
    fn len(self) -> usize
        ensures { result ≡ length (host_bytes self) }
    {
        // 8 bytes, and the 4 or 16 octets of the address.
        match self.prefix {
            None => 8,
            Some(
                Prefix {
                    address: IpAddr::V4(_),
                    ..
                },
            ) => 12,
            Some(
                Prefix {
                    address: IpAddr::V6(_),
                    ..
                },
            ) => 24,
        }
    }

    // Returns the port as it is serialized: `u32::MAX` if it is `None`, and so not compared.
    fn port_number(self) -> u32
        ensures number { result ≡ unwrap_or self.port 0xffffffff }
        ensures in_range { IsPort self.port }
    {
        match self.port {
            Some(port) => u32::from(port),
            None => u32::MAX,
        }
    }

    // Writes `struct inet_diag_hostcond` with its address (`host_bytes`) to a buffer of its length.
    fn write(self, buffer: &mut [u8])
        requires { length buffer.old ≡ length (host_bytes self) }
        ensures written { buffer.new ≡ host_bytes self }
        ensures in_range { IsPort self.port }
    {
        let (front, rest) = buffer.split_at_mut(4);
        let (port, address) = rest.split_at_mut(4);
        LittleEndian::write_u32(port, self.port_number());
        match self.prefix {
            // The family AF_UNSPEC (0) and 0 bits match each address.
            None => front.fill(0),
            Some(prefix) => {
                // `family`, `prefix_len`, and two bytes of padding.
                front.copy_from_slice(&[family(prefix.address), prefix.bits, 0, 0]);
                write_address(prefix.address, address);
            }
        }
    }
}

// Writes the port of a comparison to a buffer of 4 bytes (`port_bytes`): a second
// `struct inet_diag_bc_op` whose `code` and `yes` are 0, and whose `no` is the port.
fn write_port(port: u16, buffer: &mut [u8])
    requires { length buffer.old ≡ 4 }
    ensures { buffer.new ≡ port_bytes port }
{
    buffer[..2].fill(0);
    LittleEndian::write_u16(&mut buffer[2..], port);
}

// Returns the family of an address (`family_of`): `AF_INET` or `AF_INET6`.
fn family(address: IpAddr) -> u8
    ensures { result ≡ family_of address }
{
    match address {
        IpAddr::V4(_) => AF_INET,
        IpAddr::V6(_) => AF_INET6,
    }
}

// Writes the octets of an address (`octets_of`) to a buffer of their length.
pub(crate) fn write_address(address: IpAddr, buffer: &mut [u8])
    requires { 8 * length buffer.old ≡ bits_of address }
    ensures { buffer.new ≡ octets_of address }
{
    match address {
        IpAddr::V4(ip) => buffer.copy_from_slice(&ip.octets()),
        IpAddr::V6(ip) => write_segments(ip, buffer),
    }
}

// Writes the octets of an IPv6 address (`octets_of (V6 ip)`) to a buffer of 16 bytes.
fn write_segments(ip: Ipv6Addr, buffer: &mut [u8])
    requires { length buffer.old ≡ 16 }
    ensures { buffer.new ≡ octets_of (V6 ip) }
{
    BigEndian::write_u16_into(&ip.segments(), buffer);
}
