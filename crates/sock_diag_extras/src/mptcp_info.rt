//! The value of INET_DIAG_INFO of an MPTCP socket, with any number of bytes.

ghost use Rattle.std.specs.Prelude.{◌≡◌, ◌≤◌, drop, length, SomeIff};
ghost use Rattle.sock_diag_extras.specs.Models.{mptcp_info_bytes};

use crate::bytes::{number_at, suffix_from};

/// The size of `struct mptcp_info` in Linux 7.2, in bytes.
const LINUX_MPTCP_INFO_LEN: usize = 96;

/// A field of `struct mptcp_info` of `linux/mptcp.h`, as Linux 7.2 defines it: 96 bytes,
/// little-endian. The number after `at` is the offset in bytes.
#[derive(Clone, Copy, Debug, PartialEq, Eq)]
pub enum MptcpField {
    /// Number of subflows in addition to the first one. `mptcpi_subflows` at 0.
    Subflows,
    /// Number of local addresses that were announced to the peer (ADD_ADDR).
    /// `mptcpi_add_addr_signal` at 1.
    AddAddrSignal,
    /// Number of addresses that the peer announced and that were accepted.
    /// `mptcpi_add_addr_accepted` at 2.
    AddAddrAccepted,
    /// Limit of `mptcpi_subflows`. `mptcpi_subflows_max` at 3.
    SubflowsMax,
    /// Number of endpoints whose addresses are announced, those with the flag `signal` of
    /// ip-mptcp(8). `mptcpi_add_addr_signal_max` at 4.
    AddAddrSignalMax,
    /// Limit of `mptcpi_add_addr_accepted`. `mptcpi_add_addr_accepted_max` at 5.
    AddAddrAcceptedMax,
    /// Flags of the connection, bits `MPTCP_INFO_FLAG_..`. `mptcpi_flags` at 8.
    Flags,
    /// Token of the connection at the local end. `mptcpi_token` at 12.
    Token,
    /// Sequence number of the connection for the next byte that is written. `mptcpi_write_seq` at
    /// 16.
    WriteSeq,
    /// First sequence number that the peer did not acknowledge. `mptcpi_snd_una` at 24.
    SndUna,
    /// Sequence number of the next byte that is expected from the peer. `mptcpi_rcv_nxt` at 32.
    RcvNxt,
    /// Number of local addresses that are in use for subflows. `mptcpi_local_addr_used` at 40.
    LocalAddrUsed,
    /// Number of endpoints from which subflows are opened, those with the flag `subflow` of
    /// ip-mptcp(8). `mptcpi_local_addr_max` at 41.
    LocalAddrMax,
    /// 1 if data has checksums, else 0. `mptcpi_csum_enabled` at 42.
    CsumEnabled,
    /// Number of retransmissions of the end of the data (DATA_FIN). `mptcpi_retransmits` at 44. A
    /// value of 48 bytes, from a kernel without this field, has padding there.
    Retransmits,
    /// Number of bytes that the connection retransmitted, on any subflow. What TCP retransmits on
    /// its subflow is not counted. `mptcpi_bytes_retrans` at 48.
    BytesRetrans,
    /// Number of bytes sent, without retransmitted bytes. `mptcpi_bytes_sent` at 56.
    BytesSent,
    /// Number of bytes received. `mptcpi_bytes_received` at 64.
    BytesReceived,
    /// Number of sent bytes that the peer acknowledged. The end of the data (DATA_FIN) counts as
    /// one byte. `mptcpi_bytes_acked` at 72.
    BytesAcked,
    /// Number of subflows, including the first one. `mptcpi_subflows_total` at 80.
    SubflowsTotal,
    /// Number of endpoints with the flag `laminar`. `mptcpi_endp_laminar_max` at 81. It is 0 from
    /// kernels without this field.
    EndpLaminarMax,
    /// Number of endpoints with the flag `fullmesh`. `mptcpi_endp_fullmesh_max` at 82. It is 0 from
    /// kernels without this field.
    EndpFullmeshMax,
    /// Time since data was sent, in milliseconds. `mptcpi_last_data_sent` at 84. A value of 88
    /// bytes, from a kernel without this field, has padding there.
    LastDataSent,
    /// Time since data was received, in milliseconds. `mptcpi_last_data_recv` at 88.
    LastDataRecv,
    /// Time since an acknowledgement was received, in milliseconds. `mptcpi_last_ack_recv` at 92.
    LastAckRecv,
}

impl MptcpField {
    ghost use Rattle.sock_diag_extras.specs.MptcpFields.{mptcp_span_of};

    /// Returns the offset of the field and its width, both in bytes.
    pub fn span(self) -> (usize, usize)
        ensures { result ≡ mptcp_span_of self }
    {
        match self {
            MptcpField::Subflows => (0, 1),
            MptcpField::AddAddrSignal => (1, 1),
            MptcpField::AddAddrAccepted => (2, 1),
            MptcpField::SubflowsMax => (3, 1),
            MptcpField::AddAddrSignalMax => (4, 1),
            MptcpField::AddAddrAcceptedMax => (5, 1),
            MptcpField::Flags => (8, 4),
            MptcpField::Token => (12, 4),
            MptcpField::WriteSeq => (16, 8),
            MptcpField::SndUna => (24, 8),
            MptcpField::RcvNxt => (32, 8),
            MptcpField::LocalAddrUsed => (40, 1),
            MptcpField::LocalAddrMax => (41, 1),
            MptcpField::CsumEnabled => (42, 1),
            MptcpField::Retransmits => (44, 4),
            MptcpField::BytesRetrans => (48, 8),
            MptcpField::BytesSent => (56, 8),
            MptcpField::BytesReceived => (64, 8),
            MptcpField::BytesAcked => (72, 8),
            MptcpField::SubflowsTotal => (80, 1),
            MptcpField::EndpLaminarMax => (81, 1),
            MptcpField::EndpFullmeshMax => (82, 1),
            MptcpField::LastDataSent => (84, 4),
            MptcpField::LastDataRecv => (88, 4),
            MptcpField::LastAckRecv => (92, 4),
        }
    }
}

/// The borrowed value of `INET_DIAG_INFO` of an MPTCP socket, of any length. Each kernel version
/// sends `struct mptcp_info` in its own size; newer versions append fields. It does not allocate.
#[derive(Clone, Copy, Debug, PartialEq, Eq)]
pub struct MptcpInfoBytes<'a> {
    bytes: &'a [u8],
}

impl<'a> MptcpInfoBytes<'a> {
    ghost use Rattle.sock_diag_extras.specs.MptcpFields.{mptcp_span_of};
    ghost use Rattle.sock_diag_extras.specs.Spans.{end_of_span, number_in_span};

    /// Borrows the bytes of the value. Any number of bytes is accepted.
    pub fn new(value: &'a [u8]) -> MptcpInfoBytes<'a>
        ensures { mptcp_info_bytes result ≡ value.entry.now }
    {
        MptcpInfoBytes { bytes: value }
    }

    /// Returns the bytes of the value.
    pub fn bytes(&self) -> &'a [u8]
        ensures { result.now ≡ mptcp_info_bytes self.now }
    {
        self.bytes
    }

    /// Returns the length of the value in bytes.
    pub fn len(&self) -> usize
        ensures { result ≡ length (mptcp_info_bytes self.now) }
    {
        self.bytes.len()
    }

    /// Returns the value of the field, a little-endian number. Returns `None` if the bytes end
    /// before the end of the field.
    pub fn get(&self, field: MptcpField) -> Option<u64>
        ensures { SomeIff result
            (end_of_span (mptcp_span_of field) ≤ length (mptcp_info_bytes self.now))
            (number_in_span (mptcp_span_of field) (mptcp_info_bytes self.now)) }
    {
        let (offset, width) = field.span();
        number_at(self.bytes, offset, width)
    }

    /// Returns the bytes from offset 96 on, after the fields that [`MptcpField`] lists. There are
    /// none if the value has at most 96 bytes.
    pub fn rest(&self) -> &'a [u8]
        ensures { result.now ≡ drop LINUX_MPTCP_INFO_LEN (mptcp_info_bytes self.now) }
    {
        suffix_from(self.bytes, LINUX_MPTCP_INFO_LEN)
    }
}
