//! Messages of sock_diag(7): requests, replies, and the request to close sockets.
//!
//! Inputs that differ only in ignored bits parse as the same value. Ignored are undefined flag
//! bits, padding and bytes that no parser reads, bytes after a record or after a netlink message,
//! the padding of attributes, the flag bits of known attribute kinds, one terminating NUL of a
//! text, which nonzero byte means true, and which timer byte means no timer.
#![tactic(auto)]

ghost use Rattle.std.specs.Prelude.{[], ◌∷◌};
ghost use Rattle.sock_diag_records.specs.Constants.{PairsAreEqual};

mod codec;
mod dump;
pub mod laws;
pub mod message;

pub use dump::{DumpError, DumpReader, DumpState, DumpViews, LossyDump, MessageView, PayloadView};
pub use message::{SockDiagDestroy, SockDiagMessage, SockDiagView};
pub use sock_diag_records::constants;
pub use sock_diag_replies::{
    AttributeViews, CheckedNlas, ReplyHeader, ReplyView, ReplyViews, inet, same_views, unix,
};

// Address families.
pub use sock_diag_records::constants::{
    AF_ALG, AF_APPLETALK, AF_ASH, AF_ATMPVC, AF_ATMSVC, AF_AX25, AF_BLUETOOTH, AF_BRIDGE, AF_CAIF,
    AF_CAN, AF_DECNET, AF_ECONET, AF_IEEE802154, AF_INET, AF_INET6, AF_IPX, AF_IRDA, AF_ISDN,
    AF_IUCV, AF_KEY, AF_LLC, AF_NETBEUI, AF_NETLINK, AF_NETROM, AF_PACKET, AF_PHONET, AF_PPPOX,
    AF_RDS, AF_ROSE, AF_RXRPC, AF_SECURITY, AF_SNA, AF_TIPC, AF_UNIX, AF_UNSPEC, AF_WANPIPE,
    AF_X25,
};

// Kinds of the attributes of replies about IPv4 and IPv6 sockets.
pub use sock_diag_records::constants::{
    INET_DIAG_BBRINFO, INET_DIAG_CLASS_ID, INET_DIAG_CONG, INET_DIAG_DCTCPINFO, INET_DIAG_INFO,
    INET_DIAG_LOCALS, INET_DIAG_MARK, INET_DIAG_MD5SIG, INET_DIAG_MEMINFO, INET_DIAG_NONE,
    INET_DIAG_PAD, INET_DIAG_PEERS, INET_DIAG_PROTOCOL, INET_DIAG_SHUTDOWN, INET_DIAG_SKMEMINFO,
    INET_DIAG_SKV6ONLY, INET_DIAG_TCLASS, INET_DIAG_TOS, INET_DIAG_VEGASINFO,
};

// Protocols.
pub use sock_diag_records::constants::{
    IPPROTO_AH, IPPROTO_BEETPH, IPPROTO_COMP, IPPROTO_DCCP, IPPROTO_DSTOPTS, IPPROTO_EGP,
    IPPROTO_ENCAP, IPPROTO_ESP, IPPROTO_FRAGMENT, IPPROTO_GRE, IPPROTO_HOPOPTS, IPPROTO_ICMP,
    IPPROTO_ICMPV6, IPPROTO_IDP, IPPROTO_IGMP, IPPROTO_IP, IPPROTO_IPIP, IPPROTO_IPV6, IPPROTO_MH,
    IPPROTO_MPLS, IPPROTO_MTP, IPPROTO_NONE, IPPROTO_PIM, IPPROTO_PUP, IPPROTO_RAW,
    IPPROTO_ROUTING, IPPROTO_RSVP, IPPROTO_SCTP, IPPROTO_TCP, IPPROTO_TP, IPPROTO_UDP,
    IPPROTO_UDPLITE,
};

// Arguments of shutdown(2).
pub use sock_diag_records::constants::{SHUT_RD, SHUT_RDWR, SHUT_WR};

// Message types, and types of sockets.
pub use sock_diag_records::constants::{
    SOCK_DESTROY, SOCK_DGRAM, SOCK_DIAG_BY_FAMILY, SOCK_PACKET, SOCK_RAW, SOCK_RDM, SOCK_SEQPACKET,
    SOCK_STREAM,
};

// States and options of TCP.
pub use sock_diag_records::constants::{
    TCP_CA_CWR, TCP_CA_DISORDER, TCP_CA_LOSS, TCP_CA_OPEN, TCP_CA_RECOVERY, TCP_CLOSE,
    TCP_CLOSE_WAIT, TCP_CLOSING, TCP_ESTABLISHED, TCP_FIN_WAIT1, TCP_FIN_WAIT2, TCP_LAST_ACK,
    TCP_LISTEN, TCP_SYN_RECV, TCP_SYN_SENT, TCP_TIME_WAIT, TCPF_CA_CWR, TCPF_CA_DISORDER,
    TCPF_CA_LOSS, TCPF_CA_OPEN, TCPF_CA_RECOVERY, TCPI_OPT_ECN, TCPI_OPT_ECN_SEEN, TCPI_OPT_SACK,
    TCPI_OPT_SYN_DATA, TCPI_OPT_TIMESTAMPS, TCPI_OPT_WSCALE,
};

// Requested attributes, and kinds of the attributes of replies, for UNIX sockets.
pub use sock_diag_records::constants::{
    UDIAG_SHOW_ICONS, UDIAG_SHOW_MEMINFO, UDIAG_SHOW_NAME, UDIAG_SHOW_PEER, UDIAG_SHOW_RQLEN,
    UDIAG_SHOW_VFS, UNIX_DIAG_ICONS, UNIX_DIAG_MEMINFO, UNIX_DIAG_NAME, UNIX_DIAG_PEER,
    UNIX_DIAG_RQLEN, UNIX_DIAG_SHUTDOWN, UNIX_DIAG_VFS,
};

/// The constants that are re-exported at the root have these numeric values. Each clause lists
/// pairs of a constant and its value, and `PairsAreEqual` states that both numbers of each pair are
/// equal. Proof only: the contract states the property.
pub fn root_constants_have_their_values()
    ensures families { PairsAreEqual ((AF_ALG, 38) ∷ (AF_APPLETALK, 5) ∷ (AF_ASH, 18) ∷
        (AF_ATMPVC, 8) ∷ (AF_ATMSVC, 20) ∷ (AF_AX25, 3) ∷ (AF_BLUETOOTH, 31) ∷ (AF_BRIDGE, 7) ∷
        (AF_CAIF, 37) ∷ (AF_CAN, 29) ∷ (AF_DECNET, 12) ∷ (AF_ECONET, 19) ∷ (AF_IEEE802154, 36) ∷
        (AF_INET, 2) ∷ (AF_INET6, 10) ∷ (AF_IPX, 4) ∷ (AF_IRDA, 23) ∷ (AF_ISDN, 34) ∷
        (AF_IUCV, 32) ∷ (AF_KEY, 15) ∷ (AF_LLC, 26) ∷ (AF_NETBEUI, 13) ∷ (AF_NETLINK, 16) ∷
        (AF_NETROM, 6) ∷ (AF_PACKET, 17) ∷ (AF_PHONET, 35) ∷ (AF_PPPOX, 24) ∷ (AF_RDS, 21) ∷
        (AF_ROSE, 11) ∷ (AF_RXRPC, 33) ∷ (AF_SECURITY, 14) ∷ (AF_SNA, 22) ∷ (AF_TIPC, 30) ∷
        (AF_UNIX, 1) ∷ (AF_UNSPEC, 0) ∷ (AF_WANPIPE, 25) ∷ (AF_X25, 9) ∷ []) }
    ensures inet_attributes { PairsAreEqual ((INET_DIAG_BBRINFO, 16) ∷ (INET_DIAG_CLASS_ID, 17) ∷
        (INET_DIAG_CONG, 4) ∷ (INET_DIAG_DCTCPINFO, 9) ∷ (INET_DIAG_INFO, 2) ∷
        (INET_DIAG_LOCALS, 12) ∷ (INET_DIAG_MARK, 15) ∷ (INET_DIAG_MD5SIG, 18) ∷
        (INET_DIAG_MEMINFO, 1) ∷ (INET_DIAG_NONE, 0) ∷ (INET_DIAG_PAD, 14) ∷
        (INET_DIAG_PEERS, 13) ∷ (INET_DIAG_PROTOCOL, 10) ∷ (INET_DIAG_SHUTDOWN, 8) ∷
        (INET_DIAG_SKMEMINFO, 7) ∷ (INET_DIAG_SKV6ONLY, 11) ∷ (INET_DIAG_TCLASS, 6) ∷
        (INET_DIAG_TOS, 5) ∷ (INET_DIAG_VEGASINFO, 3) ∷ []) }
    ensures protocols { PairsAreEqual
        ((IPPROTO_AH, 51) ∷ (IPPROTO_BEETPH, 94) ∷ (IPPROTO_COMP, 108) ∷
        (IPPROTO_DCCP, 33) ∷ (IPPROTO_DSTOPTS, 60) ∷ (IPPROTO_EGP, 8) ∷ (IPPROTO_ENCAP, 98) ∷
        (IPPROTO_ESP, 50) ∷ (IPPROTO_FRAGMENT, 44) ∷ (IPPROTO_GRE, 47) ∷ (IPPROTO_HOPOPTS, 0) ∷
        (IPPROTO_ICMP, 1) ∷ (IPPROTO_ICMPV6, 58) ∷ (IPPROTO_IDP, 22) ∷ (IPPROTO_IGMP, 2) ∷
        (IPPROTO_IP, 0) ∷ (IPPROTO_IPIP, 4) ∷ (IPPROTO_IPV6, 41) ∷ (IPPROTO_MH, 135) ∷
        (IPPROTO_MPLS, 137) ∷ (IPPROTO_MTP, 92) ∷ (IPPROTO_NONE, 59) ∷ (IPPROTO_PIM, 103) ∷
        (IPPROTO_PUP, 12) ∷ (IPPROTO_RAW, 255) ∷ (IPPROTO_ROUTING, 43) ∷ (IPPROTO_RSVP, 46) ∷
        (IPPROTO_SCTP, 132) ∷ (IPPROTO_TCP, 6) ∷ (IPPROTO_TP, 29) ∷ (IPPROTO_UDP, 17) ∷
        (IPPROTO_UDPLITE, 136) ∷ []) }
    ensures directions { PairsAreEqual ((SHUT_RD, 0) ∷ (SHUT_RDWR, 2) ∷ (SHUT_WR, 1) ∷ []) }
    ensures messages_and_sockets { PairsAreEqual ((SOCK_DESTROY, 21) ∷ (SOCK_DGRAM, 2) ∷
        (SOCK_DIAG_BY_FAMILY, 20) ∷ (SOCK_PACKET, 10) ∷ (SOCK_RAW, 3) ∷ (SOCK_RDM, 4) ∷
        (SOCK_SEQPACKET, 5) ∷ (SOCK_STREAM, 1) ∷ []) }
    ensures congestion_states { PairsAreEqual ((TCP_CA_CWR, 2) ∷ (TCP_CA_DISORDER, 1) ∷
        (TCP_CA_LOSS, 4) ∷ (TCP_CA_OPEN, 0) ∷ (TCP_CA_RECOVERY, 3) ∷ (TCPF_CA_CWR, 4) ∷
        (TCPF_CA_DISORDER, 2) ∷ (TCPF_CA_LOSS, 16) ∷ (TCPF_CA_OPEN, 1) ∷ (TCPF_CA_RECOVERY, 8) ∷
        []) }
    ensures socket_states { PairsAreEqual
        ((TCP_CLOSE, 7) ∷ (TCP_CLOSE_WAIT, 8) ∷ (TCP_CLOSING, 11) ∷
        (TCP_ESTABLISHED, 1) ∷ (TCP_FIN_WAIT1, 4) ∷ (TCP_FIN_WAIT2, 5) ∷ (TCP_LAST_ACK, 9) ∷
        (TCP_LISTEN, 10) ∷ (TCP_SYN_RECV, 3) ∷ (TCP_SYN_SENT, 2) ∷ (TCP_TIME_WAIT, 6) ∷ []) }
    ensures negotiated_options { PairsAreEqual ((TCPI_OPT_ECN, 8) ∷ (TCPI_OPT_ECN_SEEN, 16) ∷
        (TCPI_OPT_SACK, 2) ∷ (TCPI_OPT_SYN_DATA, 32) ∷ (TCPI_OPT_TIMESTAMPS, 1) ∷
        (TCPI_OPT_WSCALE, 4) ∷ []) }
    ensures requested_attributes { PairsAreEqual ((UDIAG_SHOW_ICONS, 8) ∷ (UDIAG_SHOW_MEMINFO, 32) ∷
        (UDIAG_SHOW_NAME, 1) ∷ (UDIAG_SHOW_PEER, 4) ∷ (UDIAG_SHOW_RQLEN, 16) ∷
        (UDIAG_SHOW_VFS, 2) ∷ []) }
    ensures unix_attributes { PairsAreEqual ((UNIX_DIAG_ICONS, 3) ∷ (UNIX_DIAG_MEMINFO, 5) ∷
        (UNIX_DIAG_NAME, 0) ∷ (UNIX_DIAG_PEER, 2) ∷ (UNIX_DIAG_RQLEN, 4) ∷
        (UNIX_DIAG_SHUTDOWN, 6) ∷ (UNIX_DIAG_VFS, 1) ∷ []) }
{}
