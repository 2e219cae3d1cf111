//! The constants of sock_diag(7), and of the pages and headers that it refers to, under the names
//! of the Rust crate: the kernel's, but in capitals, such as `TCP_CA_OPEN` for `TCP_CA_Open`.

ghost use Rattle.std.specs.Prelude.{[], ◌∷◌};
ghost use Rattle.sock_diag_records.specs.Constants.{PairsAreEqual};

use crate::inet::{
    INET_DIAG_REQ_BYTECODE, INET_DIAG_REQ_NONE, INET_DIAG_REQ_PROTOCOL,
    INET_DIAG_REQ_SK_BPF_STORAGES,
};

// ---- message types

/// A request for sockets, or a reply about one.
pub const SOCK_DIAG_BY_FAMILY: u16 = 20;

/// A request to close a socket.
pub const SOCK_DESTROY: u16 = 21;

// ---- address families

/// No family.
pub const AF_UNSPEC: u8 = 0;

/// UNIX domain sockets: sockets on one machine, unix(7).
pub const AF_UNIX: u8 = 1;

/// IPv4, ip(7).
pub const AF_INET: u8 = 2;

/// AX.25 (amateur radio).
pub const AF_AX25: u8 = 3;

/// IPX (Novell).
pub const AF_IPX: u8 = 4;

/// AppleTalk, ddp(7).
pub const AF_APPLETALK: u8 = 5;

/// NET/ROM (amateur radio).
pub const AF_NETROM: u8 = 6;

/// Multiprotocol bridges.
pub const AF_BRIDGE: u8 = 7;

/// ATM permanent virtual circuits.
pub const AF_ATMPVC: u8 = 8;

/// X.25, x25(7).
pub const AF_X25: u8 = 9;

/// IPv6, ipv6(7).
pub const AF_INET6: u8 = 10;

/// ROSE (amateur radio X.25).
pub const AF_ROSE: u8 = 11;

/// DECnet.
pub const AF_DECNET: u8 = 12;

/// Reserved for IEEE 802.2 LLC (NetBEUI).
pub const AF_NETBEUI: u8 = 13;

/// Pseudo family of security callbacks.
pub const AF_SECURITY: u8 = 14;

/// PF_KEY, the key management of IPsec.
pub const AF_KEY: u8 = 15;

/// Netlink, netlink(7).
pub const AF_NETLINK: u8 = 16;

/// Packets of network devices, packet(7).
pub const AF_PACKET: u8 = 17;

/// Ash.
pub const AF_ASH: u8 = 18;

/// Econet (Acorn).
pub const AF_ECONET: u8 = 19;

/// ATM switched virtual circuits.
pub const AF_ATMSVC: u8 = 20;

/// Reliable Datagram Sockets (RDS).
pub const AF_RDS: u8 = 21;

/// SNA (Systems Network Architecture).
pub const AF_SNA: u8 = 22;

/// IrDA (infrared).
pub const AF_IRDA: u8 = 23;

/// PPP over other protocols (PPPoX).
pub const AF_PPPOX: u8 = 24;

/// Wanpipe.
pub const AF_WANPIPE: u8 = 25;

/// IEEE 802.2 LLC.
pub const AF_LLC: u8 = 26;

/// Controller Area Network (CAN).
pub const AF_CAN: u8 = 29;

/// TIPC, communication between the nodes of a cluster.
pub const AF_TIPC: u8 = 30;

/// Bluetooth.
pub const AF_BLUETOOTH: u8 = 31;

/// IUCV, communication between the guests of z/VM.
pub const AF_IUCV: u8 = 32;

/// RxRPC, the remote procedure calls of AFS.
pub const AF_RXRPC: u8 = 33;

/// ISDN (mISDN).
pub const AF_ISDN: u8 = 34;

/// Phonet (Nokia modems).
pub const AF_PHONET: u8 = 35;

/// IEEE 802.15.4 radios.
pub const AF_IEEE802154: u8 = 36;

/// CAIF (Ericsson modems).
pub const AF_CAIF: u8 = 37;

/// Cryptographic algorithms of the kernel.
pub const AF_ALG: u8 = 38;

// ---- IP protocols

/// The default protocol of a socket type.
pub const IPPROTO_IP: u8 = 0;

/// ICMP, icmp(7).
pub const IPPROTO_ICMP: u8 = 1;

/// IGMP, management of multicast groups.
pub const IPPROTO_IGMP: u8 = 2;

/// IPv4 in IP (tunnels).
pub const IPPROTO_IPIP: u8 = 4;

/// TCP, tcp(7).
pub const IPPROTO_TCP: u8 = 6;

/// Exterior Gateway Protocol.
pub const IPPROTO_EGP: u8 = 8;

/// PUP (Xerox).
pub const IPPROTO_PUP: u8 = 12;

/// UDP, udp(7).
pub const IPPROTO_UDP: u8 = 17;

/// XNS IDP (Xerox).
pub const IPPROTO_IDP: u8 = 22;

/// ISO transport protocol, class 4.
pub const IPPROTO_TP: u8 = 29;

/// DCCP, datagrams with congestion control.
pub const IPPROTO_DCCP: u8 = 33;

/// IPv6 in IPv4 (tunnels).
pub const IPPROTO_IPV6: u8 = 41;

/// RSVP, reservation of resources.
pub const IPPROTO_RSVP: u8 = 46;

/// Generic Routing Encapsulation.
pub const IPPROTO_GRE: u8 = 47;

/// Encapsulating Security Payload (IPsec).
pub const IPPROTO_ESP: u8 = 50;

/// Authentication Header (IPsec).
pub const IPPROTO_AH: u8 = 51;

/// Multicast Transport Protocol.
pub const IPPROTO_MTP: u8 = 92;

/// Pseudo header of the IPsec mode BEET.
pub const IPPROTO_BEETPH: u8 = 94;

/// Encapsulation Header.
pub const IPPROTO_ENCAP: u8 = 98;

/// Protocol Independent Multicast.
pub const IPPROTO_PIM: u8 = 103;

/// IP Payload Compression.
pub const IPPROTO_COMP: u8 = 108;

/// SCTP, sctp(7).
pub const IPPROTO_SCTP: u8 = 132;

/// UDP-Lite: UDP with partial checksums, udplite(7).
pub const IPPROTO_UDPLITE: u8 = 136;

/// MPLS in IP.
pub const IPPROTO_MPLS: u8 = 137;

/// Raw IP packets, raw(7).
pub const IPPROTO_RAW: u8 = 255;

/// IPv6 hop-by-hop options.
pub const IPPROTO_HOPOPTS: u8 = 0;

/// IPv6 routing header.
pub const IPPROTO_ROUTING: u8 = 43;

/// IPv6 fragment header.
pub const IPPROTO_FRAGMENT: u8 = 44;

/// ICMPv6.
pub const IPPROTO_ICMPV6: u8 = 58;

/// IPv6: no next header.
pub const IPPROTO_NONE: u8 = 59;

/// IPv6 destination options.
pub const IPPROTO_DSTOPTS: u8 = 60;

/// IPv6 mobility header.
pub const IPPROTO_MH: u8 = 135;

// ---- attribute kinds of IPv4 and IPv6 sockets

/// No attribute.
pub const INET_DIAG_NONE: u16 = 0;

/// Memory of the socket in the format of old kernels: `struct inet_diag_meminfo`.
pub const INET_DIAG_MEMINFO: u16 = 1;

/// State of the TCP connection: `struct tcp_info`.
pub const INET_DIAG_INFO: u16 = 2;

/// Measurements of TCP Vegas: `struct tcpvegas_info`.
pub const INET_DIAG_VEGASINFO: u16 = 3;

/// Name of the congestion control algorithm.
pub const INET_DIAG_CONG: u16 = 4;

/// Type of service, a `u8`.
pub const INET_DIAG_TOS: u16 = 5;

/// IPv6 traffic class, a `u8`.
pub const INET_DIAG_TCLASS: u16 = 6;

/// Memory of the socket: an array of `u32`, indexed by `SK_MEMINFO_*`.
pub const INET_DIAG_SKMEMINFO: u16 = 7;

/// Directions that are shut down, a `u8`: bit 0 for receiving, bit 1 for sending. See shutdown(2).
pub const INET_DIAG_SHUTDOWN: u16 = 8;

/// Measurements of DCTCP: `struct tcp_dctcp_info`.
pub const INET_DIAG_DCTCPINFO: u16 = 9;

/// Protocol of a raw socket, or of the socket of an event, `IPPROTO_*`.
pub const INET_DIAG_PROTOCOL: u16 = 10;

/// Whether the socket is IPv6-only.
pub const INET_DIAG_SKV6ONLY: u16 = 11;

/// Local addresses of an SCTP socket.
pub const INET_DIAG_LOCALS: u16 = 12;

/// Remote addresses of an SCTP association.
pub const INET_DIAG_PEERS: u16 = 13;

/// Padding.
pub const INET_DIAG_PAD: u16 = 14;

/// Mark of the socket, `SO_MARK` of socket(7).
pub const INET_DIAG_MARK: u16 = 15;

/// Measurements of BBR: `struct tcp_bbr_info`.
pub const INET_DIAG_BBRINFO: u16 = 16;

/// Traffic class id (net_cls) of the socket's control group, or if it is 0, the priority of the
/// socket (`SO_PRIORITY`).
pub const INET_DIAG_CLASS_ID: u16 = 17;

/// Keys of TCP MD5 signatures.
pub const INET_DIAG_MD5SIG: u16 = 18;

// ---- TCP states

/// The connection is open.
pub const TCP_ESTABLISHED: u8 = 1;

/// A SYN was sent.
pub const TCP_SYN_SENT: u8 = 2;

/// A SYN was received and answered.
pub const TCP_SYN_RECV: u8 = 3;

/// The local side has sent a FIN, and waits for its acknowledgement.
pub const TCP_FIN_WAIT1: u8 = 4;

/// The local side has closed, and waits for a FIN.
pub const TCP_FIN_WAIT2: u8 = 5;

/// Both sides have closed; late segments are waited for.
pub const TCP_TIME_WAIT: u8 = 6;

/// There is no connection.
pub const TCP_CLOSE: u8 = 7;

/// The remote side has sent a FIN, and the local side has not.
pub const TCP_CLOSE_WAIT: u8 = 8;

/// Both sides have closed, the remote side first; the last acknowledgement is waited for.
pub const TCP_LAST_ACK: u8 = 9;

/// The socket listens for connections.
pub const TCP_LISTEN: u8 = 10;

/// Both sides have closed at the same time, and wait for the acknowledgement.
pub const TCP_CLOSING: u8 = 11;

// ---- flags that request attributes of UNIX sockets

/// Requests `UNIX_DIAG_NAME`.
pub const UDIAG_SHOW_NAME: u32 = 1;

/// Requests `UNIX_DIAG_VFS`.
pub const UDIAG_SHOW_VFS: u32 = 2;

/// Requests `UNIX_DIAG_PEER`.
pub const UDIAG_SHOW_PEER: u32 = 4;

/// Requests `UNIX_DIAG_ICONS`.
pub const UDIAG_SHOW_ICONS: u32 = 8;

/// Requests `UNIX_DIAG_RQLEN`.
pub const UDIAG_SHOW_RQLEN: u32 = 16;

/// Requests `UNIX_DIAG_MEMINFO`.
pub const UDIAG_SHOW_MEMINFO: u32 = 32;

// ---- attribute kinds of UNIX sockets

/// Name that the socket is bound to.
pub const UNIX_DIAG_NAME: u16 = 0;

/// File that the socket is bound to: `struct unix_diag_vfs`.
pub const UNIX_DIAG_VFS: u16 = 1;

/// Inode number of the peer.
pub const UNIX_DIAG_PEER: u16 = 2;

/// Inode numbers of sockets that connected and were not accepted yet.
pub const UNIX_DIAG_ICONS: u16 = 3;

/// Lengths of the queues.
pub const UNIX_DIAG_RQLEN: u16 = 4;

/// Memory of the socket: an array of `u32`, indexed by `SK_MEMINFO_*`.
pub const UNIX_DIAG_MEMINFO: u16 = 5;

/// Directions that are shut down, a `u8`: bit 0 for receiving, bit 1 for sending. See shutdown(2).
pub const UNIX_DIAG_SHUTDOWN: u16 = 6;

// ---- socket types

/// Byte streams: in order, reliable.
pub const SOCK_STREAM: u8 = 1;

/// Datagrams: not reliable.
pub const SOCK_DGRAM: u8 = 2;

/// Raw access to a network protocol.
pub const SOCK_RAW: u8 = 3;

/// Reliable datagrams, in any order.
pub const SOCK_RDM: u8 = 4;

/// Reliable datagrams, in order.
pub const SOCK_SEQPACKET: u8 = 5;

/// Packets of network devices, packet(7). Obsolete.
pub const SOCK_PACKET: u8 = 10;

// ---- congestion control states

/// The normal state: no sign of loss or congestion.
pub const TCP_CA_OPEN: u8 = 0;

/// Duplicate or selective acknowledgements were received.
pub const TCP_CA_DISORDER: u8 = 1;

/// The congestion window is being reduced, after a congestion notification or local congestion.
pub const TCP_CA_CWR: u8 = 2;

/// Lost segments are retransmitted, by fast retransmit.
pub const TCP_CA_RECOVERY: u8 = 3;

/// Lost segments are retransmitted, after the retransmission timeout.
pub const TCP_CA_LOSS: u8 = 4;

// ---- bits of congestion control states

/// The bit of `TCP_CA_OPEN`.
pub const TCPF_CA_OPEN: u32 = 1;

/// The bit of `TCP_CA_DISORDER`.
pub const TCPF_CA_DISORDER: u32 = 2;

/// The bit of `TCP_CA_CWR`.
pub const TCPF_CA_CWR: u32 = 4;

/// The bit of `TCP_CA_RECOVERY`.
pub const TCPF_CA_RECOVERY: u32 = 8;

/// The bit of `TCP_CA_LOSS`.
pub const TCPF_CA_LOSS: u32 = 16;

// ---- options of a TCP connection

/// Timestamps.
pub const TCPI_OPT_TIMESTAMPS: u8 = 1;

/// Selective acknowledgements.
pub const TCPI_OPT_SACK: u8 = 2;

/// Window scaling.
pub const TCPI_OPT_WSCALE: u8 = 4;

/// Explicit congestion notification (ECN) was negotiated.
pub const TCPI_OPT_ECN: u8 = 8;

/// A packet of an ECN-capable transport was received.
pub const TCPI_OPT_ECN_SEEN: u8 = 16;

/// Data in the SYN was acknowledged (TCP Fast Open).
pub const TCPI_OPT_SYN_DATA: u8 = 32;

// ---- arguments of shutdown(2)

/// Disables receiving.
pub const SHUT_RD: u8 = 0;

/// Disables sending.
pub const SHUT_WR: u8 = 1;

/// Disables receiving and sending.
pub const SHUT_RDWR: u8 = 2;

/// States the value of each constant of this module. Each clause lists pairs of a constant and its
/// value, and `PairsAreEqual` says that both numbers of each pair are equal. The constants of
/// `request_attributes` are in `inet`.
///
/// Proof only: the contract states the property.
pub fn constants_have_their_values()
    ensures message_types { PairsAreEqual ((SOCK_DIAG_BY_FAMILY, 20) ∷ (SOCK_DESTROY, 21) ∷ []) }
    ensures address_families { PairsAreEqual ((AF_UNSPEC, 0) ∷ (AF_UNIX, 1) ∷ (AF_INET, 2) ∷
        (AF_AX25, 3) ∷ (AF_IPX, 4) ∷ (AF_APPLETALK, 5) ∷ (AF_NETROM, 6) ∷ (AF_BRIDGE, 7) ∷
        (AF_ATMPVC, 8) ∷ (AF_X25, 9) ∷ (AF_INET6, 10) ∷ (AF_ROSE, 11) ∷ (AF_DECNET, 12) ∷
        (AF_NETBEUI, 13) ∷ (AF_SECURITY, 14) ∷ (AF_KEY, 15) ∷ (AF_NETLINK, 16) ∷
        (AF_PACKET, 17) ∷ (AF_ASH, 18) ∷ (AF_ECONET, 19) ∷ (AF_ATMSVC, 20) ∷ (AF_RDS, 21) ∷
        (AF_SNA, 22) ∷ (AF_IRDA, 23) ∷ (AF_PPPOX, 24) ∷ (AF_WANPIPE, 25) ∷ (AF_LLC, 26) ∷
        (AF_CAN, 29) ∷ (AF_TIPC, 30) ∷ (AF_BLUETOOTH, 31) ∷ (AF_IUCV, 32) ∷ (AF_RXRPC, 33) ∷
        (AF_ISDN, 34) ∷ (AF_PHONET, 35) ∷ (AF_IEEE802154, 36) ∷ (AF_CAIF, 37) ∷ (AF_ALG, 38) ∷ []) }
    ensures internet_protocols { PairsAreEqual ((IPPROTO_IP, 0) ∷ (IPPROTO_ICMP, 1) ∷
        (IPPROTO_IGMP, 2) ∷ (IPPROTO_IPIP, 4) ∷ (IPPROTO_TCP, 6) ∷ (IPPROTO_EGP, 8) ∷
        (IPPROTO_PUP, 12) ∷ (IPPROTO_UDP, 17) ∷ (IPPROTO_IDP, 22) ∷ (IPPROTO_TP, 29) ∷
        (IPPROTO_DCCP, 33) ∷ (IPPROTO_IPV6, 41) ∷ (IPPROTO_RSVP, 46) ∷ (IPPROTO_GRE, 47) ∷
        (IPPROTO_ESP, 50) ∷ (IPPROTO_AH, 51) ∷ (IPPROTO_MTP, 92) ∷ (IPPROTO_BEETPH, 94) ∷
        (IPPROTO_ENCAP, 98) ∷ (IPPROTO_PIM, 103) ∷ (IPPROTO_COMP, 108) ∷ (IPPROTO_SCTP, 132) ∷
        (IPPROTO_UDPLITE, 136) ∷ (IPPROTO_MPLS, 137) ∷ (IPPROTO_RAW, 255) ∷
        (IPPROTO_HOPOPTS, 0) ∷ (IPPROTO_ROUTING, 43) ∷ (IPPROTO_FRAGMENT, 44) ∷
        (IPPROTO_ICMPV6, 58) ∷ (IPPROTO_NONE, 59) ∷ (IPPROTO_DSTOPTS, 60) ∷ (IPPROTO_MH, 135) ∷
        []) }
    ensures inet_attributes { PairsAreEqual ((INET_DIAG_NONE, 0) ∷ (INET_DIAG_MEMINFO, 1) ∷
        (INET_DIAG_INFO, 2) ∷ (INET_DIAG_VEGASINFO, 3) ∷ (INET_DIAG_CONG, 4) ∷
        (INET_DIAG_TOS, 5) ∷ (INET_DIAG_TCLASS, 6) ∷ (INET_DIAG_SKMEMINFO, 7) ∷
        (INET_DIAG_SHUTDOWN, 8) ∷ (INET_DIAG_DCTCPINFO, 9) ∷ (INET_DIAG_PROTOCOL, 10) ∷
        (INET_DIAG_SKV6ONLY, 11) ∷ (INET_DIAG_LOCALS, 12) ∷ (INET_DIAG_PEERS, 13) ∷
        (INET_DIAG_PAD, 14) ∷ (INET_DIAG_MARK, 15) ∷ (INET_DIAG_BBRINFO, 16) ∷
        (INET_DIAG_CLASS_ID, 17) ∷ (INET_DIAG_MD5SIG, 18) ∷ []) }
    ensures request_attributes { PairsAreEqual ((INET_DIAG_REQ_NONE, 0) ∷
        (INET_DIAG_REQ_BYTECODE, 1) ∷ (INET_DIAG_REQ_SK_BPF_STORAGES, 2) ∷
        (INET_DIAG_REQ_PROTOCOL, 3) ∷ []) }
    ensures socket_states { PairsAreEqual ((TCP_ESTABLISHED, 1) ∷ (TCP_SYN_SENT, 2) ∷
        (TCP_SYN_RECV, 3) ∷ (TCP_FIN_WAIT1, 4) ∷ (TCP_FIN_WAIT2, 5) ∷ (TCP_TIME_WAIT, 6) ∷
        (TCP_CLOSE, 7) ∷ (TCP_CLOSE_WAIT, 8) ∷ (TCP_LAST_ACK, 9) ∷ (TCP_LISTEN, 10) ∷
        (TCP_CLOSING, 11) ∷ []) }
    ensures shown_attributes { PairsAreEqual ((UDIAG_SHOW_NAME, 1) ∷ (UDIAG_SHOW_VFS, 2) ∷
        (UDIAG_SHOW_PEER, 4) ∷ (UDIAG_SHOW_ICONS, 8) ∷ (UDIAG_SHOW_RQLEN, 16) ∷
        (UDIAG_SHOW_MEMINFO, 32) ∷ []) }
    ensures unix_attributes { PairsAreEqual ((UNIX_DIAG_NAME, 0) ∷ (UNIX_DIAG_VFS, 1) ∷
        (UNIX_DIAG_PEER, 2) ∷ (UNIX_DIAG_ICONS, 3) ∷ (UNIX_DIAG_RQLEN, 4) ∷
        (UNIX_DIAG_MEMINFO, 5) ∷ (UNIX_DIAG_SHUTDOWN, 6) ∷ []) }
    ensures socket_types { PairsAreEqual ((SOCK_STREAM, 1) ∷ (SOCK_DGRAM, 2) ∷ (SOCK_RAW, 3) ∷
        (SOCK_RDM, 4) ∷ (SOCK_SEQPACKET, 5) ∷ (SOCK_PACKET, 10) ∷ []) }
    ensures congestion_states { PairsAreEqual ((TCP_CA_OPEN, 0) ∷ (TCP_CA_DISORDER, 1) ∷
        (TCP_CA_CWR, 2) ∷ (TCP_CA_RECOVERY, 3) ∷ (TCP_CA_LOSS, 4) ∷ []) }
    ensures congestion_state_bits { PairsAreEqual ((TCPF_CA_OPEN, 1) ∷ (TCPF_CA_DISORDER, 2) ∷
        (TCPF_CA_CWR, 4) ∷ (TCPF_CA_RECOVERY, 8) ∷ (TCPF_CA_LOSS, 16) ∷ []) }
    ensures connection_options { PairsAreEqual ((TCPI_OPT_TIMESTAMPS, 1) ∷ (TCPI_OPT_SACK, 2) ∷
        (TCPI_OPT_WSCALE, 4) ∷ (TCPI_OPT_ECN, 8) ∷ (TCPI_OPT_ECN_SEEN, 16) ∷
        (TCPI_OPT_SYN_DATA, 32) ∷ []) }
    ensures shutdown_states { PairsAreEqual ((SHUT_RD, 0) ∷ (SHUT_WR, 1) ∷ (SHUT_RDWR, 2) ∷ []) }
{}
