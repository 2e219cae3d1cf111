//! The request for IPv4 or IPv6 sockets.

ghost use Rattle.netlink_core.proofs.LayoutLaws.{record_laws};
ghost use Rattle.sock_diag_records.specs.InetRequest.{inet_request};
ghost use Rattle.sock_diag_records.specs.IpVersions.{IpVersions};
ghost use Rattle.sock_diag_records.specs.laws.InetRequest.{inet_request_sound};
ghost use Rattle.sock_diag_records.specs.laws.InetRequest.{inet_request_has_fixed_length};

use super::{ExtensionFlags, SocketId, StateFlags};
use bitflags::Flags;
use netlink_core::fields::{u32s_at, write_bytes, write_u32s};
use netlink_core::{DecodeError, Fills, Record, RecordBuffer, RecordName};

/// Kind of no attribute. The kinds `INET_DIAG_REQ_..` (linux/inet_diag.h) are those of attributes
/// after a `struct inet_diag_req_v2`.
pub const INET_DIAG_REQ_NONE: u16 = 0;

/// Kind of a filter: operations `INET_DIAG_BC_..`.
pub const INET_DIAG_REQ_BYTECODE: u16 = 1;

/// Kind of the maps whose BPF storages are requested: nested attributes
/// `SK_DIAG_BPF_STORAGE_REQ_MAP_FD`.
pub const INET_DIAG_REQ_SK_BPF_STORAGES: u16 = 2;

/// Kind of the protocol as a `u32`, for a protocol above 255 such as `IPPROTO_MPTCP`.
pub const INET_DIAG_REQ_PROTOCOL: u16 = 3;

/// Size of `struct inet_diag_req_v2` in bytes.
pub const INET_REQUEST_LEN: usize = 56;

/// A request for IPv4 or IPv6 sockets: `struct inet_diag_req_v2` (sock_diag(7)), 56 bytes. The byte
/// at offset 3 (`pad`) is ignored, and serialized as 0. In a request for raw sockets the kernel
/// reads it as their protocol (`sdiag_raw_protocol`).
#[derive(Clone, Debug, Drop, PartialEq, Eq)]
pub struct InetRequest {
    /// Address family (`sdiag_family`), `AF_INET` (2) or `AF_INET6` (10), at offset 0.
    pub family: u8,
    /// IP protocol (`sdiag_protocol`), `IPPROTO_*`, at offset 1.
    pub protocol: u8,
    /// Requested attributes (`idiag_ext`), at offset 2.
    pub extensions: ExtensionFlags,
    /// Requested states (`idiag_states`), little-endian, at offset 4. The parser masks off
    /// undefined bits.
    pub states: StateFlags,
    /// Id of the requested socket (`id`), at offset 8. In a parsed request, the addresses are of
    /// the family's IP version.
    pub socket_id: SocketId,
}

/// The 56 bytes of an [`InetRequest`], including the ignored ones.
pub type InetRequestBuffer = RecordBuffer<InetRequest, INET_REQUEST_LEN>;

impl Record for InetRequest {
    type Param = ();

    ghost Tag = { IpVersions };

    ghost layout = { inet_request };

    #[tactic(auto, unfolding(crate::specs::InetRequest::inet_request))]
    fn name_and_least() -> (RecordName, usize) {
        (RecordName::InetRequest, INET_REQUEST_LEN)
    }

    #[tactic(auto, unfolding(crate::specs::InetRequest::inet_request))]
    fn size(&self) -> usize {
        INET_REQUEST_LEN
    }

    /// Parses the first 56 bytes, and ignores the bytes after them. A family other than AF_INET and
    /// AF_INET6 is [`DecodeError::UnsupportedFamily`]. There have to be 56 bytes: the caller checks
    /// this first, and reports [`DecodeError::BufferTooSmall`].
    #[tactic(auto, unfolding(crate::specs::InetRequest::inet_request))]
    fn from_fields(payload: &[u8], _param: ()) -> Result<Self, DecodeError> {
        let family = payload[0];
        let socket_id = SocketId::from_fields(&payload[8..], family)?;
        let [states] = u32s_at::<1>(payload, 4);
        Ok(InetRequest {
            family,
            protocol: payload[1],
            extensions: ExtensionFlags::from_bits_truncate(payload[2]),
            states: StateFlags::from_bits_truncate(states),
            socket_id,
        })
    }

    #[tactic(auto, unfolding(crate::specs::InetRequest::inet_request))]
    fn write_fields(&self, buffer: &mut [u8]) {
        let (start, rest) = buffer.split_at_mut(4);
        let (states, socket_id) = rest.split_at_mut(4);
        write_bytes(
            &[self.family, self.protocol, self.extensions.bits(), 0],
            start,
        );
        write_u32s(&[self.states.bits()], states);
        self.socket_id.write_fields(socket_id);
    }

    ghost laws = { record_laws inet_request inet_request_sound };
}

impl Fills<INET_REQUEST_LEN> for InetRequest {
    ghost fills = { inet_request_has_fixed_length };
}
