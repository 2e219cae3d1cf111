//! Constants of sock_diag(7) and netlink(7) that the Rust crate lacks, under the kernel's names.
//! They are from `linux/inet_diag.h`, `linux/unix_diag.h`, `linux/sock_diag.h`, `linux/netlink.h`,
//! `linux/tcp.h`, `linux/tls.h` and `linux/mptcp.h`; the two states `TCP_..` are `BPF_TCP_..` of
//! `linux/bpf.h`. `tests/kernel_headers.py` compares them with these headers.

ghost use Rattle.std.specs.Prelude.{[], ◌∷◌};
ghost use Rattle.sock_diag_records.specs.Constants.{PairsAreEqual};

pub use netlink_core::{
    NLM_F_ACK, NLM_F_ACK_TLVS, NLM_F_ATOMIC, NLM_F_CAPPED, NLM_F_DUMP_FILTERED, NLM_F_DUMP_INTR,
    NLM_F_ECHO, NLM_F_MATCH, NLM_F_MULTI, NLM_F_ROOT,
};
pub use sock_diag_records::inet::{
    INET_DIAG_REQ_BYTECODE, INET_DIAG_REQ_NONE, INET_DIAG_REQ_PROTOCOL,
    INET_DIAG_REQ_SK_BPF_STORAGES,
};

// ---- kinds of attributes that the port lacks, the flag that requests one, and message types

/// Kind of the attribute of the upper layer protocol on TCP (ULP), such as TLS or MPTCP: nested
/// attributes `INET_ULP_INFO_..`.
pub const INET_DIAG_ULP_INFO: u16 = 19;

/// Kind of the attribute of the local storage of BPF programs for the socket: nested attributes
/// `SK_DIAG_BPF_STORAGE`.
pub const INET_DIAG_SK_BPF_STORAGES: u16 = 20;

/// Kind of the attribute with the id of the socket's control group.
///
/// See `parse_cgroup_id`.
pub const INET_DIAG_CGROUP_ID: u16 = 21;

/// Kind of the attribute with the options of the socket.
///
/// See `SocketOptions`.
pub const INET_DIAG_SOCKOPT: u16 = 22;

/// Kind of the attribute with the user id of the UNIX socket's owner.
///
/// See `parse_uid`.
pub const UNIX_DIAG_UID: u16 = 7;

/// Flag of a UNIX request: requests `UNIX_DIAG_UID`.
pub const UDIAG_SHOW_UID: u32 = 64;

/// Type of a request and of its replies, about IPv4 and IPv6 sockets of TCP, before
/// `SOCK_DIAG_BY_FAMILY`. The replies have the same format.
pub const TCPDIAG_GETSOCK: u16 = 18;

/// Type of a request and of its replies, about IPv4 and IPv6 sockets of DCCP, before
/// `SOCK_DIAG_BY_FAMILY`. The replies have the same format.
pub const DCCPDIAG_GETSOCK: u16 = 19;

// ---- attributes in INET_DIAG_ULP_INFO

/// No attribute.
pub const INET_ULP_INFO_UNSPEC: u16 = 0;

/// The name of the upper layer protocol, with a terminating NUL.
pub const INET_ULP_INFO_NAME: u16 = 1;

/// Information about TLS in the kernel: nested attributes `TLS_INFO_..`.
pub const INET_ULP_INFO_TLS: u16 = 2;

/// Information about a subflow of MPTCP: nested attributes `MPTCP_SUBFLOW_ATTR_..`.
pub const INET_ULP_INFO_MPTCP: u16 = 3;

// ---- attributes in INET_ULP_INFO_TLS

/// No attribute.
pub const TLS_INFO_UNSPEC: u16 = 0;

/// The TLS version.
pub const TLS_INFO_VERSION: u16 = 1;

/// The cipher: one of `TLS_CIPHER_..`.
pub const TLS_INFO_CIPHER: u16 = 2;

/// How sent data is encrypted: one of `TLS_CONF_..`.
pub const TLS_INFO_TXCONF: u16 = 3;

/// How received data is decrypted: one of `TLS_CONF_..`.
pub const TLS_INFO_RXCONF: u16 = 4;

/// Present if files are sent without a copy.
pub const TLS_INFO_ZC_RO_TX: u16 = 5;

/// Present if received records are expected to have no padding.
pub const TLS_INFO_RX_NO_PAD: u16 = 6;

/// Maximum length of the data in a record that is sent, in bytes. Linux 6.18 does not send it.
pub const TLS_INFO_TX_MAX_PAYLOAD_LEN: u16 = 7;

// ---- attributes in INET_ULP_INFO_MPTCP

/// No attribute.
pub const MPTCP_SUBFLOW_ATTR_UNSPEC: u16 = 0;

/// Token of the connection at the remote end.
pub const MPTCP_SUBFLOW_ATTR_TOKEN_REM: u16 = 1;

/// Token of the connection at the local end.
pub const MPTCP_SUBFLOW_ATTR_TOKEN_LOC: u16 = 2;

/// Relative sequence number of the data written to the subflow.
pub const MPTCP_SUBFLOW_ATTR_RELWRITE_SEQ: u16 = 3;

/// Sequence number in the connection at which the mapped data starts.
pub const MPTCP_SUBFLOW_ATTR_MAP_SEQ: u16 = 4;

/// Sequence number in the subflow at which the mapped data starts.
pub const MPTCP_SUBFLOW_ATTR_MAP_SFSEQ: u16 = 5;

/// First sequence number of the peer in the subflow.
pub const MPTCP_SUBFLOW_ATTR_SSN_OFFSET: u16 = 6;

/// Length of the mapped data, in bytes.
pub const MPTCP_SUBFLOW_ATTR_MAP_DATALEN: u16 = 7;

/// Flags of the subflow: bits `MPTCP_SUBFLOW_FLAG_..`.
pub const MPTCP_SUBFLOW_ATTR_FLAGS: u16 = 8;

/// Id of the remote address.
pub const MPTCP_SUBFLOW_ATTR_ID_REM: u16 = 9;

/// Id of the local address.
pub const MPTCP_SUBFLOW_ATTR_ID_LOC: u16 = 10;

/// Padding.
pub const MPTCP_SUBFLOW_ATTR_PAD: u16 = 11;

// ---- bits of `mptcpi_flags` of `struct mptcp_info`

/// The connection fell back to TCP.
pub const MPTCP_INFO_FLAG_FALLBACK: u32 = 1;

/// The key of the peer was received.
pub const MPTCP_INFO_FLAG_REMOTE_KEY_RECEIVED: u32 = 2;

// ---- indices of the `u32` fields in INET_DIAG_SKMEMINFO and in the MEMINFO of other families

/// Memory allocated for received data (`sk_rmem_alloc`), in bytes.
pub const SK_MEMINFO_RMEM_ALLOC: u8 = 0;

/// Receive buffer limit (`sk_rcvbuf`), in bytes.
pub const SK_MEMINFO_RCVBUF: u8 = 1;

/// Memory of data committed to the device queue (`sk_wmem_alloc`), in bytes.
pub const SK_MEMINFO_WMEM_ALLOC: u8 = 2;

/// Send buffer limit (`sk_sndbuf`), in bytes.
pub const SK_MEMINFO_SNDBUF: u8 = 3;

/// Memory reserved for later use (`sk_forward_alloc`), in bytes.
pub const SK_MEMINFO_FWD_ALLOC: u8 = 4;

/// Memory of data in the send queue (`sk_wmem_queued`), in bytes.
pub const SK_MEMINFO_WMEM_QUEUED: u8 = 5;

/// Memory allocated for socket options (`sk_omem_alloc`), in bytes.
pub const SK_MEMINFO_OPTMEM: u8 = 6;

/// Size of the backlog, which holds packets that were not processed yet (`sk_backlog`), in bytes.
pub const SK_MEMINFO_BACKLOG: u8 = 7;

/// Number of packets dropped (`sk_drops`).
pub const SK_MEMINFO_DROPS: u8 = 8;

// ---- attributes of the storages of BPF programs, in requests and in replies

/// In a request: the file descriptor of a map whose storages are requested, a `u32`.
pub const SK_DIAG_BPF_STORAGE_REQ_MAP_FD: u16 = 1;

/// In a reply: one storage, as nested attributes `SK_DIAG_BPF_STORAGE_MAP_..`.
pub const SK_DIAG_BPF_STORAGE: u16 = 1;

/// In `SK_DIAG_BPF_STORAGE`: kind of an attribute that is padding.
pub const SK_DIAG_BPF_STORAGE_PAD: u16 = 1;

/// In `SK_DIAG_BPF_STORAGE`: kind of the attribute with the id of the BPF map, a little-endian
/// `u32`.
pub const SK_DIAG_BPF_STORAGE_MAP_ID: u16 = 2;

/// In `SK_DIAG_BPF_STORAGE`: kind of the attribute with the bytes that the map stores for the
/// socket.
pub const SK_DIAG_BPF_STORAGE_MAP_VALUE: u16 = 3;

// ---- multicast groups of NETLINK_SOCK_DIAG, which report destroyed sockets

/// No group.
pub const SKNLGRP_NONE: u32 = 0;

/// Destroyed TCP sockets of IPv4.
pub const SKNLGRP_INET_TCP_DESTROY: u32 = 1;

/// Destroyed UDP sockets of IPv4.
pub const SKNLGRP_INET_UDP_DESTROY: u32 = 2;

/// Destroyed TCP sockets of IPv6.
pub const SKNLGRP_INET6_TCP_DESTROY: u32 = 3;

/// Destroyed UDP sockets of IPv6.
pub const SKNLGRP_INET6_UDP_DESTROY: u32 = 4;

// ---- attributes of an acknowledgement

/// No attribute.
pub const NLMSGERR_ATTR_UNUSED: u16 = 0;

/// Error message, a text with a terminating NUL.
pub const NLMSGERR_ATTR_MSG: u16 = 1;

/// Offset of the invalid attribute, from the first byte of the request's header.
pub const NLMSGERR_ATTR_OFFS: u16 = 2;

/// Cookie whose format depends on the kernel's subsystem.
pub const NLMSGERR_ATTR_COOKIE: u16 = 3;

/// Policy of the rejected attribute: nested attributes.
pub const NLMSGERR_ATTR_POLICY: u16 = 4;

/// Kind of a required attribute that is missing.
pub const NLMSGERR_ATTR_MISS_TYPE: u16 = 5;

/// Offset of the nest in which the attribute is missing, from the first byte of the request's
/// header.
pub const NLMSGERR_ATTR_MISS_NEST: u16 = 6;

// ---- netlink sockets: a protocol, socket options, and a message type

/// The netlink protocol of sock_diag(7), for socket(2).
pub const NETLINK_SOCK_DIAG: u8 = 4;

/// Socket option: acknowledgements do not contain the request after its header.
pub const NETLINK_CAP_ACK: u8 = 10;

/// Socket option: acknowledgements contain attributes `NLMSGERR_ATTR_..`.
pub const NETLINK_EXT_ACK: u8 = 11;

/// Socket option: requests are checked strictly.
pub const NETLINK_GET_STRICT_CHK: u8 = 12;

/// The lowest message type that is not reserved for control messages of netlink itself.
pub const NLMSG_MIN_TYPE: u16 = 16;

// ---- newer bits of `tcpi_options` of `struct tcp_info`, and states of TCP sockets in the kernel

/// Timestamps of segments are in microseconds. Since Linux 6.7.
pub const TCPI_OPT_USEC_TS: u8 = 64;

/// The connection was opened by a received fast open request. Since Linux 6.16.
pub const TCPI_OPT_TFO_CHILD: u8 = 128;

/// A connection request was received. Replies have `TCP_SYN_RECV` for this state.
pub const TCP_NEW_SYN_RECV: u8 = 12;

/// Bound and not connected. A request selects this state by bit 13; replies have the state 7
/// (`TCP_CLOSE`).
pub const TCP_BOUND_INACTIVE: u8 = 13;

/// The constants of this module, and those that it re-exports, have these numeric values. Each
/// clause lists pairs of a constant and its value, and `PairsAreEqual` states that both numbers of
/// each pair are equal. Proof only: the contract states the property.
pub fn extra_constants_have_their_values()
    ensures extra_attributes { PairsAreEqual ((INET_DIAG_ULP_INFO, 19) ∷
        (INET_DIAG_SK_BPF_STORAGES, 20) ∷ (INET_DIAG_CGROUP_ID, 21) ∷
        (INET_DIAG_SOCKOPT, 22) ∷ (UNIX_DIAG_UID, 7) ∷ (UDIAG_SHOW_UID, 64) ∷ []) }
    ensures message_types { PairsAreEqual ((TCPDIAG_GETSOCK, 18) ∷ (DCCPDIAG_GETSOCK, 19) ∷ []) }
    ensures upper_protocols { PairsAreEqual ((INET_ULP_INFO_UNSPEC, 0) ∷ (INET_ULP_INFO_NAME, 1)
        ∷ (INET_ULP_INFO_TLS, 2) ∷ (INET_ULP_INFO_MPTCP, 3) ∷ []) }
    ensures upper_tls { PairsAreEqual ((TLS_INFO_UNSPEC, 0) ∷ (TLS_INFO_VERSION, 1) ∷
        (TLS_INFO_CIPHER, 2) ∷ (TLS_INFO_TXCONF, 3) ∷ (TLS_INFO_RXCONF, 4) ∷
        (TLS_INFO_ZC_RO_TX, 5) ∷ (TLS_INFO_RX_NO_PAD, 6) ∷
        (TLS_INFO_TX_MAX_PAYLOAD_LEN, 7) ∷ []) }
    ensures upper_mptcp { PairsAreEqual ((MPTCP_SUBFLOW_ATTR_UNSPEC, 0) ∷
        (MPTCP_SUBFLOW_ATTR_TOKEN_REM, 1) ∷ (MPTCP_SUBFLOW_ATTR_TOKEN_LOC, 2) ∷
        (MPTCP_SUBFLOW_ATTR_RELWRITE_SEQ, 3) ∷ (MPTCP_SUBFLOW_ATTR_MAP_SEQ, 4) ∷
        (MPTCP_SUBFLOW_ATTR_MAP_SFSEQ, 5) ∷ (MPTCP_SUBFLOW_ATTR_SSN_OFFSET, 6) ∷
        (MPTCP_SUBFLOW_ATTR_MAP_DATALEN, 7) ∷ (MPTCP_SUBFLOW_ATTR_FLAGS, 8) ∷
        (MPTCP_SUBFLOW_ATTR_ID_REM, 9) ∷ (MPTCP_SUBFLOW_ATTR_ID_LOC, 10) ∷
        (MPTCP_SUBFLOW_ATTR_PAD, 11) ∷ []) }
    ensures flags_of_mptcp { PairsAreEqual ((MPTCP_INFO_FLAG_FALLBACK, 1) ∷
        (MPTCP_INFO_FLAG_REMOTE_KEY_RECEIVED, 2) ∷ []) }
    ensures request_attributes { PairsAreEqual ((INET_DIAG_REQ_NONE, 0) ∷
        (INET_DIAG_REQ_BYTECODE, 1) ∷ (INET_DIAG_REQ_SK_BPF_STORAGES, 2) ∷
        (INET_DIAG_REQ_PROTOCOL, 3) ∷ []) }
    ensures memory_words { PairsAreEqual ((SK_MEMINFO_RMEM_ALLOC, 0) ∷ (SK_MEMINFO_RCVBUF, 1) ∷
        (SK_MEMINFO_WMEM_ALLOC, 2) ∷ (SK_MEMINFO_SNDBUF, 3) ∷ (SK_MEMINFO_FWD_ALLOC, 4) ∷
        (SK_MEMINFO_WMEM_QUEUED, 5) ∷ (SK_MEMINFO_OPTMEM, 6) ∷ (SK_MEMINFO_BACKLOG, 7) ∷
        (SK_MEMINFO_DROPS, 8) ∷ []) }
    ensures storages { PairsAreEqual ((SK_DIAG_BPF_STORAGE_REQ_MAP_FD, 1) ∷
        (SK_DIAG_BPF_STORAGE, 1) ∷ (SK_DIAG_BPF_STORAGE_PAD, 1) ∷
        (SK_DIAG_BPF_STORAGE_MAP_ID, 2) ∷ (SK_DIAG_BPF_STORAGE_MAP_VALUE, 3) ∷ []) }
    ensures groups { PairsAreEqual ((SKNLGRP_NONE, 0) ∷ (SKNLGRP_INET_TCP_DESTROY, 1) ∷
        (SKNLGRP_INET_UDP_DESTROY, 2) ∷ (SKNLGRP_INET6_TCP_DESTROY, 3) ∷
        (SKNLGRP_INET6_UDP_DESTROY, 4) ∷ []) }
    ensures flags_of_messages { PairsAreEqual ((NLM_F_MULTI, 2) ∷ (NLM_F_ACK, 4) ∷
        (NLM_F_ECHO, 8) ∷ (NLM_F_DUMP_INTR, 16) ∷ (NLM_F_DUMP_FILTERED, 32) ∷
        (NLM_F_ROOT, 256) ∷ (NLM_F_MATCH, 512) ∷ (NLM_F_ATOMIC, 1024) ∷ (NLM_F_CAPPED, 256)
        ∷ (NLM_F_ACK_TLVS, 512) ∷ []) }
    ensures error_attributes { PairsAreEqual ((NLMSGERR_ATTR_UNUSED, 0) ∷ (NLMSGERR_ATTR_MSG, 1)
        ∷ (NLMSGERR_ATTR_OFFS, 2) ∷ (NLMSGERR_ATTR_COOKIE, 3) ∷ (NLMSGERR_ATTR_POLICY, 4) ∷
        (NLMSGERR_ATTR_MISS_TYPE, 5) ∷ (NLMSGERR_ATTR_MISS_NEST, 6) ∷ []) }
    ensures sockets { PairsAreEqual ((NETLINK_SOCK_DIAG, 4) ∷ (NETLINK_CAP_ACK, 10) ∷
        (NETLINK_EXT_ACK, 11) ∷ (NETLINK_GET_STRICT_CHK, 12) ∷ (NLMSG_MIN_TYPE, 16) ∷ []) }
    ensures connections { PairsAreEqual ((TCPI_OPT_USEC_TS, 64) ∷ (TCPI_OPT_TFO_CHILD, 128) ∷
        (TCP_NEW_SYN_RECV, 12) ∷ (TCP_BOUND_INACTIVE, 13) ∷ []) }
{}
