//! The header of a reply about a netlink socket.

ghost use Rattle.std.proofs.Common.{rules};
ghost use Rattle.netlink_core.proofs.LayoutLaws.{record_laws};
ghost use Rattle.sock_diag_families.specs.NetlinkResponseHeader.{netlink_header};
ghost use Rattle.sock_diag_families.specs.laws.Record.{netlink_header_sound};

use netlink_core::fields::{u32s_at, u64s_at, write_bytes, write_u32s, write_u64s};
use netlink_core::{DecodeError, Exact, Record, RecordName};
use sock_diag_records::constants::AF_NETLINK;

/// Size of `struct netlink_diag_msg` in bytes.
pub const NETLINK_RESPONSE_HEADER_LEN: usize = 28;

/// The header of a reply about a netlink socket: `struct netlink_diag_msg` of
/// `linux/netlink_diag.h`.
///
/// It has 28 bytes, little-endian. The byte at offset 0 (`ndiag_family`) is ignored, and serialized
/// as AF_NETLINK (16).
#[repr(C)]
#[derive(Clone, Copy, Debug, Default, PartialEq, Eq)]
pub struct NetlinkResponseHeader {
    /// Socket type (`ndiag_type`), SOCK_RAW (3) or SOCK_DGRAM (2), at offset 1.
    pub kind: u8,
    /// Protocol (`ndiag_protocol`), `NETLINK_*` of `linux/netlink.h`, at offset 2.
    pub protocol: u8,
    /// State (`ndiag_state`), 1 if the socket is connected to another one, at offset 3.
    pub state: u8,
    /// Port id of the socket (`ndiag_portid`), at offset 4. The kernel has port id 0.
    pub port: u32,
    /// Port id of the socket that this one is connected to (`ndiag_dst_portid`), at offset 8.
    pub destination_port: u32,
    /// Number of the multicast group that the socket is connected to (`ndiag_dst_group`), at offset
    /// 12. It is one group's number, not a mask; 0 means none.
    pub destination_group: u32,
    /// Inode number of the socket (`ndiag_ino`), at offset 16.
    pub inode: u32,
    /// Cookie that distinguishes sockets with the same inode number (`ndiag_cookie`), at offset 20.
    pub cookie: u64,
}

impl Exact for NetlinkResponseHeader {
    ghost exact = { Prim.search rules };
}

impl Record for NetlinkResponseHeader {
    type Param = ();

    ghost layout = { netlink_header };

    fn name_and_least() -> (RecordName, usize) {
        (
            RecordName::FamilyResponseHeader { family: AF_NETLINK },
            NETLINK_RESPONSE_HEADER_LEN,
        )
    }

    fn size(&self) -> usize {
        NETLINK_RESPONSE_HEADER_LEN
    }

    /// Parses the first 28 bytes, and ignores the bytes after them. There have to be 28 bytes: the
    /// caller checks this first, and reports [`DecodeError::BufferTooSmall`].
    fn from_fields(payload: &[u8], _param: ()) -> Result<Self, DecodeError> {
        let [port, destination_port, destination_group, inode] = u32s_at::<4>(payload, 4);
        let [cookie] = u64s_at::<1>(payload, 20);
        Ok(NetlinkResponseHeader {
            kind: payload[1],
            protocol: payload[2],
            state: payload[3],
            port,
            destination_port,
            destination_group,
            inode,
            cookie,
        })
    }

    fn write_fields(&self, buffer: &mut [u8]) {
        let (start, rest) = buffer.split_at_mut(4);
        let (u32s, cookie) = rest.split_at_mut(16);
        write_bytes(&[AF_NETLINK, self.kind, self.protocol, self.state], start);
        let numbers = [
            self.port,
            self.destination_port,
            self.destination_group,
            self.inode,
        ];
        write_u32s(&numbers, u32s);
        write_u64s(&[self.cookie], cookie);
    }

    ghost laws = { record_laws netlink_header netlink_header_sound };
}
