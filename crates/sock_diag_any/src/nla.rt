//! One attribute of a reply about a socket of any family. In the contracts `buffered_attribute
//! nla.now` is the type and the value of the attribute `nla`.

ghost use Rattle.std.specs.Prelude.{◌≡◌, ◌<◌, Some, length};
ghost use Rattle.netlink_core.specs.Attribute.{attribute_kind};
ghost use Rattle.netlink_core.specs.Errors.{map_ok};
ghost use Rattle.netlink_core.specs.Parse.{number_of_width};
ghost use Rattle.netlink_core.specs.Walk.{buffered_attribute};
ghost use Rattle.sock_diag_any.specs.AnyNla.{any_model, framed, info_rows, inet_list_rows};
ghost use Rattle.sock_diag_any.specs.AnyNla.{inet_record_rows};
ghost use Rattle.sock_diag_any.specs.AnyNla.{netlink_rows, packet_rows, parse_sized};
ghost use Rattle.sock_diag_any.specs.AnyNla.{read_any, read_by, read_port_inet, read_port_unix};
ghost use Rattle.sock_diag_any.specs.AnyNla.{read_unknown, unix_rows};
ghost use Rattle.sock_diag_any.specs.AnyNla.{whole_records, xdp_rows};
ghost use Rattle.sock_diag_extras.specs.Models.{nested_bytes};

use byteorder::{ByteOrder, LittleEndian};
use netlink_core::{DecodeError, NlaBuffer};
use sock_diag_attributes::inet::nlas::NlaView as InetNlaView;
use sock_diag_attributes::unix::nlas::{NameView, NlaView as UnixNlaView, NumbersView};
use sock_diag_extras::constants::{
    INET_DIAG_CGROUP_ID, INET_DIAG_SK_BPF_STORAGES, INET_DIAG_SOCKOPT, INET_DIAG_ULP_INFO,
    UNIX_DIAG_UID,
};
use sock_diag_extras::{
    AttributeRecord, BbrInfo, DctcpInfo, FilterInstruction, Md5Signature, MptcpInfoBytes,
    NestedNlas, PacketMembership, SocketOptions, StoredAddress, TcpInfoBytes, UlpInfo, VegasInfo,
    read_attribute_record,
};
use sock_diag_families::netlink::{NETLINK_DIAG_FLAGS, NETLINK_DIAG_GROUPS, NETLINK_DIAG_MEMINFO};
use sock_diag_families::packet::{
    PACKET_DIAG_FANOUT, PACKET_DIAG_FILTER, PACKET_DIAG_INFO, PACKET_DIAG_MCLIST,
    PACKET_DIAG_MEMINFO, PACKET_DIAG_RX_RING, PACKET_DIAG_TX_RING, PACKET_DIAG_UID, PacketInfo,
    PacketRing,
};
use sock_diag_families::xdp::{
    XDP_DIAG_INFO, XDP_DIAG_MEMINFO, XDP_DIAG_RX_RING, XDP_DIAG_STATS, XDP_DIAG_TX_RING,
    XDP_DIAG_UID, XDP_DIAG_UMEM, XDP_DIAG_UMEM_COMPLETION_RING, XDP_DIAG_UMEM_FILL_RING, XdpInfo,
    XdpStatistics, XdpUmem,
};
use sock_diag_records::constants::{
    INET_DIAG_BBRINFO, INET_DIAG_DCTCPINFO, INET_DIAG_INFO, INET_DIAG_LOCALS, INET_DIAG_MD5SIG,
    INET_DIAG_PEERS, INET_DIAG_VEGASINFO,
};
use sock_diag_values::inet::{LegacyMemInfo, MemInfo};
use sock_diag_values::unix::Vfs;

/// The format of the struct in `INET_DIAG_INFO`, which a reply itself does not contain. It depends
/// on the protocol that was requested.
#[derive(Clone, Copy, Debug, PartialEq, Eq)]
pub enum InfoFormat {
    /// TCP: `struct tcp_info`, of any length.
    Tcp,
    /// MPTCP: `struct mptcp_info`, of any length.
    Mptcp,
    /// SCTP: `struct sctp_info`, which is not decoded.
    Sctp,
    /// Not known: `struct tcp_info` as the port decodes it, of at least 232 bytes.
    Unknown,
}

/// The sockets that a reply is about. They decide what the kinds of its attributes mean.
#[derive(Clone, Copy, Debug, PartialEq, Eq)]
pub enum Sockets {
    /// UNIX sockets.
    Unix,
    /// IPv4 and IPv6 sockets, whose `INET_DIAG_INFO` has this format.
    Inet(InfoFormat),
    /// Netlink sockets.
    Netlink,
    /// Packet sockets.
    Packet,
    /// Vsock sockets.
    Vsock,
    /// XDP sockets.
    Xdp,
}

/// What an attribute of a reply about a socket of any family says, borrowed.
#[derive(Debug, Drop)]
pub enum AnyNla<'a> {
    /// `UNIX_DIAG_NAME`: the name that a UNIX socket is bound to.
    Name(NameView<'a>),
    /// `UNIX_DIAG_VFS`: the file that a UNIX socket is bound to.
    Vfs(Vfs),
    /// `UNIX_DIAG_PEER`: the inode of the peer of a UNIX socket.
    Peer(u32),
    /// `UNIX_DIAG_ICONS`: the inodes of sockets that connected and were not accepted yet, 0 for one
    /// that was closed since.
    PendingConnections(NumbersView<'a>),
    /// `UNIX_DIAG_RQLEN`: the lengths of the receive and of the send queue (`udiag_rqueue`,
    /// `udiag_wqueue`).
    QueueLengths(u32, u32),
    /// `UNIX_DIAG_MEMINFO`, `INET_DIAG_SKMEMINFO`, `NETLINK_DIAG_MEMINFO`, `PACKET_DIAG_MEMINFO` or
    /// `XDP_DIAG_MEMINFO`: the memory of a socket, all of the words `SK_MEMINFO_..`.
    Memory(MemInfo),
    /// `UNIX_DIAG_SHUTDOWN` or `INET_DIAG_SHUTDOWN`: the directions that are shut down, 1 for
    /// receiving, 2 for sending, 3 for both.
    Shutdown(u8),
    /// `UNIX_DIAG_UID`, `PACKET_DIAG_UID` or `XDP_DIAG_UID`: the user id of the owner.
    Owner(u32),
    /// `INET_DIAG_MEMINFO`: the memory of a socket, in the format of old kernels.
    LegacyMemory(LegacyMemInfo),
    /// `INET_DIAG_INFO` of TCP, or of a protocol that is not known: `struct tcp_info`.
    TcpInfo(TcpInfoBytes<'a>),
    /// `INET_DIAG_INFO` of MPTCP: `struct mptcp_info`.
    MptcpInfo(MptcpInfoBytes<'a>),
    /// `INET_DIAG_CONG`: the name of the congestion control algorithm.
    Congestion(&'a str),
    /// `INET_DIAG_TOS`: the type of service.
    Tos(u8),
    /// `INET_DIAG_TCLASS`: the traffic class of an IPv6 socket.
    TrafficClass(u8),
    /// `INET_DIAG_PROTOCOL`: the protocol, one of `IPPROTO_..`.
    Protocol(u8),
    /// `INET_DIAG_SKV6ONLY`: whether the socket is for IPv6 only.
    V6Only(bool),
    /// `INET_DIAG_MARK`: the mark of the socket.
    Mark(u32),
    /// `INET_DIAG_CLASS_ID`: the traffic class id (net_cls) of the socket's control group, or the
    /// priority of the socket if that id is 0.
    ClassId(u32),
    /// `INET_DIAG_VEGASINFO`: the measurements of TCP Vegas.
    Vegas(VegasInfo),
    /// `INET_DIAG_DCTCPINFO`: the measurements of DCTCP.
    Dctcp(DctcpInfo),
    /// `INET_DIAG_BBRINFO`: the measurements of BBR.
    Bbr(BbrInfo),
    /// `INET_DIAG_LOCALS`: the local addresses of an SCTP socket or association, whole records
    /// [`StoredAddress`], which `AttributeRecords` yields.
    LocalAddresses(&'a [u8]),
    /// `INET_DIAG_PEERS`: the addresses of the peer of an SCTP association, whole records
    /// [`StoredAddress`], which `AttributeRecords` yields.
    PeerAddresses(&'a [u8]),
    /// `INET_DIAG_MD5SIG`: the MD5 keys of a TCP socket, whole records [`Md5Signature`], which
    /// `AttributeRecords` yields.
    Md5Signatures(&'a [u8]),
    /// `INET_DIAG_ULP_INFO`: the upper layer protocol of a TCP socket.
    Ulp(UlpInfo<'a>),
    /// `INET_DIAG_SK_BPF_STORAGES`: the local storage of BPF programs for the socket, attributes
    /// `SK_DIAG_BPF_STORAGE`, which `BpfStorage` parses.
    BpfStorages(NestedNlas<'a>),
    /// `INET_DIAG_CGROUP_ID`: the id of the socket's control group (cgroup v2).
    CgroupId(u64),
    /// `INET_DIAG_SOCKOPT`: the options of the socket.
    Options(SocketOptions),
    /// `NETLINK_DIAG_GROUPS`: the multicast groups that the socket is a member of, one bit for each
    /// group. The lowest bit of the first byte is group 1.
    Groups(&'a [u8]),
    /// `NETLINK_DIAG_FLAGS`: bits `NDIAG_FLAG_..`.
    NetlinkFlags(u32),
    /// `PACKET_DIAG_INFO`: the settings of a packet socket.
    PacketInfo(PacketInfo),
    /// `PACKET_DIAG_MCLIST`: the memberships of a packet socket, whole records
    /// [`PacketMembership`], which `AttributeRecords` yields.
    Memberships(&'a [u8]),
    /// `PACKET_DIAG_RX_RING`: the receive ring.
    ReceiveFrames(PacketRing),
    /// `PACKET_DIAG_TX_RING`: the transmit ring.
    SendFrames(PacketRing),
    /// `PACKET_DIAG_FANOUT`: the id of the fanout group in the low 16 bits, and its mode in the
    /// high 16 bits.
    Fanout(u32),
    /// `PACKET_DIAG_FILTER`: the instructions of the socket filter, whole records
    /// [`FilterInstruction`], which `AttributeRecords` yields.
    Filter(&'a [u8]),
    /// `XDP_DIAG_INFO`: the interface and the queue that an XDP socket is bound to.
    XdpInfo(XdpInfo),
    /// `XDP_DIAG_RX_RING`: the number of entries of the receive ring.
    ReceiveRing(u32),
    /// `XDP_DIAG_TX_RING`: the number of entries of the transmit ring.
    SendRing(u32),
    /// `XDP_DIAG_UMEM_FILL_RING`: the number of entries of the ring that passes frames to the
    /// kernel.
    FillRing(u32),
    /// `XDP_DIAG_UMEM_COMPLETION_RING`: the number of entries of the ring that returns frames from
    /// the kernel.
    CompletionRing(u32),
    /// `XDP_DIAG_UMEM`: the memory that an XDP socket shares with its program.
    Umem(XdpUmem),
    /// `XDP_DIAG_STATS`: the counters of an XDP socket.
    Statistics(XdpStatistics),
    /// An attribute of any other kind, or the `INET_DIAG_INFO` of SCTP.
    Unknown(NlaBuffer<'a>),
}

impl<'a> AnyNla<'a> {
    /// Decodes an attribute of a reply about these sockets. If the port decodes its kind, it is
    /// accepted if the port accepts it, or else rejected with the port's error. The exception is
    /// `INET_DIAG_INFO` of a known format: that of TCP and MPTCP may have any length, and that of
    /// SCTP is `Unknown`. Of the other kinds a number needs its exact length, and an array of
    /// records a multiple of a record's length, or else the error is `WrongLength` with the kind. A
    /// record may be followed by more bytes. If there are too few, the error is `WrongLength` with
    /// the kind for IPv4, IPv6 and UNIX sockets, and `BufferTooSmall` for the other families. The
    /// error of nested attributes is the first one of their framing.
    #[inline(always)]
    pub fn read(sockets: Sockets, nla: &NlaBuffer<'a>) -> Result<AnyNla<'a>, DecodeError>
        ensures { map_ok any_model result ≡ read_any sockets (buffered_attribute nla.now) }
    {
        match sockets {
            Sockets::Unix => read_unix(nla),
            Sockets::Inet(format) => read_inet(format, nla),
            Sockets::Netlink => read_netlink(nla),
            Sockets::Packet => read_packet(nla),
            Sockets::Vsock => Ok(AnyNla::Unknown(*nla)),
            Sockets::Xdp => read_xdp(nla),
        }
    }
}

// Decodes an attribute of a UNIX socket.
#[inline(always)]
fn read_unix<'a>(nla: &NlaBuffer<'a>) -> Result<AnyNla<'a>, DecodeError>
    ensures { map_ok any_model result
        ≡ read_by unix_rows read_port_unix (buffered_attribute nla.now) }
{
    Ok(match nla.kind() {
        UNIX_DIAG_UID => AnyNla::Owner(parse_u32(nla)?),
        _ => read_port_unix(nla)?,
    })
}

// Decodes an attribute of a UNIX socket as the port does. The memory is parsed again, since the
// port has only three of its nine fields.
#[inline(always)]
fn read_port_unix<'a>(nla: &NlaBuffer<'a>) -> Result<AnyNla<'a>, DecodeError>
    ensures { map_ok any_model result ≡ read_port_unix (buffered_attribute nla.now) }
{
    match UnixNlaView::parse(nla)? {
        UnixNlaView::Name(name) => Ok(AnyNla::Name(name)),
        UnixNlaView::Vfs(file) => Ok(AnyNla::Vfs(file)),
        UnixNlaView::Peer(inode) => Ok(AnyNla::Peer(inode)),
        UnixNlaView::PendingConnections(inodes) => Ok(AnyNla::PendingConnections(inodes)),
        UnixNlaView::ReceiveQueueLength(receive, send) => Ok(AnyNla::QueueLengths(receive, send)),
        UnixNlaView::MemInfo(_) => Ok(AnyNla::Memory(MemInfo::parse(nla.value())?)),
        UnixNlaView::Shutdown(directions) => Ok(AnyNla::Shutdown(directions)),
        UnixNlaView::Other(other) => Ok(AnyNla::Unknown(other)),
    }
}

// Decodes an attribute of an IPv4 or IPv6 socket, whose `INET_DIAG_INFO` has this format.
#[inline(always)]
fn read_inet<'a>(format: InfoFormat, nla: &NlaBuffer<'a>) -> Result<AnyNla<'a>, DecodeError>
    ensures { map_ok any_model result ≡ read_by (info_rows format) (read_by inet_record_rows
        (read_by inet_list_rows read_port_inet)) (buffered_attribute nla.now) }
{
    let is_info = nla.kind() == INET_DIAG_INFO;
    match format {
        InfoFormat::Tcp if is_info => Ok(AnyNla::TcpInfo(TcpInfoBytes::new(nla.value()))),
        InfoFormat::Mptcp if is_info => Ok(AnyNla::MptcpInfo(MptcpInfoBytes::new(nla.value()))),
        InfoFormat::Sctp if is_info => Ok(AnyNla::Unknown(*nla)),
        _ => read_inet_record(nla),
    }
}

// Decodes an attribute of an IPv4 or IPv6 socket: a record or a number that the port leaves raw,
// or one of another kind.
#[inline(always)]
fn read_inet_record<'a>(nla: &NlaBuffer<'a>) -> Result<AnyNla<'a>, DecodeError>
    ensures { map_ok any_model result ≡ read_by inet_record_rows
        (read_by inet_list_rows read_port_inet) (buffered_attribute nla.now) }
{
    Ok(match nla.kind() {
        INET_DIAG_VEGASINFO => AnyNla::Vegas(parse_sized(nla)?),
        INET_DIAG_DCTCPINFO => AnyNla::Dctcp(parse_sized(nla)?),
        INET_DIAG_BBRINFO => AnyNla::Bbr(parse_sized(nla)?),
        INET_DIAG_CGROUP_ID => AnyNla::CgroupId(parse_u64(nla)?),
        INET_DIAG_SOCKOPT => AnyNla::Options(parse_sized(nla)?),
        _ => read_inet_list(nla)?,
    })
}

// Decodes an attribute of an IPv4 or IPv6 socket: an array of records or nested attributes, which
// the port leaves raw, or one of another kind. If it is `INET_DIAG_INFO`, the port decodes it.
#[inline(always)]
fn read_inet_list<'a>(nla: &NlaBuffer<'a>) -> Result<AnyNla<'a>, DecodeError>
    ensures { map_ok any_model result
        ≡ read_by inet_list_rows read_port_inet (buffered_attribute nla.now) }
{
    Ok(match nla.kind() {
        INET_DIAG_LOCALS => AnyNla::LocalAddresses(whole_records::<StoredAddress>(nla)?),
        INET_DIAG_PEERS => AnyNla::PeerAddresses(whole_records::<StoredAddress>(nla)?),
        INET_DIAG_MD5SIG => AnyNla::Md5Signatures(whole_records::<Md5Signature>(nla)?),
        INET_DIAG_ULP_INFO => AnyNla::Ulp(UlpInfo(parse_nested(nla.value())?)),
        INET_DIAG_SK_BPF_STORAGES => AnyNla::BpfStorages(parse_nested(nla.value())?),
        _ => read_port_inet(nla)?,
    })
}

// Decodes an attribute of an IPv4 or IPv6 socket as the port does. A `struct tcp_info` is all of
// its bytes, which may be more than the port decodes.
#[inline(always)]
fn read_port_inet<'a>(nla: &NlaBuffer<'a>) -> Result<AnyNla<'a>, DecodeError>
    ensures { map_ok any_model result ≡ read_port_inet (buffered_attribute nla.now) }
{
    Ok(match InetNlaView::parse(nla)? {
        InetNlaView::LegacyMemInfo(memory) => AnyNla::LegacyMemory(memory),
        InetNlaView::TcpInfo(_) => AnyNla::TcpInfo(TcpInfoBytes::new(nla.value())),
        InetNlaView::Congestion(algorithm) => AnyNla::Congestion(algorithm),
        InetNlaView::Tos(tos) => AnyNla::Tos(tos),
        InetNlaView::Tc(class) => AnyNla::TrafficClass(class),
        InetNlaView::MemInfo(memory) => AnyNla::Memory(memory),
        InetNlaView::Shutdown(directions) => AnyNla::Shutdown(directions),
        InetNlaView::Protocol(protocol) => AnyNla::Protocol(protocol),
        InetNlaView::SkV6Only(only) => AnyNla::V6Only(only),
        InetNlaView::Mark(mark) => AnyNla::Mark(mark),
        InetNlaView::ClassId(class) => AnyNla::ClassId(class),
        InetNlaView::Other(other) => AnyNla::Unknown(other),
    })
}

// Decodes an attribute of a netlink socket.
fn read_netlink<'a>(nla: &NlaBuffer<'a>) -> Result<AnyNla<'a>, DecodeError>
    ensures { map_ok any_model result
        ≡ read_by netlink_rows read_unknown (buffered_attribute nla.now) }
{
    Ok(match nla.kind() {
        NETLINK_DIAG_MEMINFO => AnyNla::Memory(MemInfo::parse(nla.value())?),
        NETLINK_DIAG_GROUPS => AnyNla::Groups(nla.value()),
        NETLINK_DIAG_FLAGS => AnyNla::NetlinkFlags(parse_u32(nla)?),
        _ => AnyNla::Unknown(*nla),
    })
}

// Decodes an attribute of a packet socket.
fn read_packet<'a>(nla: &NlaBuffer<'a>) -> Result<AnyNla<'a>, DecodeError>
    ensures { map_ok any_model result
        ≡ read_by packet_rows read_unknown (buffered_attribute nla.now) }
{
    let (kind, value) = (nla.kind(), nla.value());
    Ok(match kind {
        PACKET_DIAG_INFO => AnyNla::PacketInfo(PacketInfo::parse(value)?),
        PACKET_DIAG_MCLIST => AnyNla::Memberships(whole_records::<PacketMembership>(nla)?),
        PACKET_DIAG_RX_RING => AnyNla::ReceiveFrames(PacketRing::parse(value, kind)?),
        PACKET_DIAG_TX_RING => AnyNla::SendFrames(PacketRing::parse(value, kind)?),
        PACKET_DIAG_FANOUT => AnyNla::Fanout(parse_u32(nla)?),
        PACKET_DIAG_UID => AnyNla::Owner(parse_u32(nla)?),
        PACKET_DIAG_MEMINFO => AnyNla::Memory(MemInfo::parse(value)?),
        PACKET_DIAG_FILTER => AnyNla::Filter(whole_records::<FilterInstruction>(nla)?),
        _ => AnyNla::Unknown(*nla),
    })
}

// Decodes an attribute of an XDP socket.
fn read_xdp<'a>(nla: &NlaBuffer<'a>) -> Result<AnyNla<'a>, DecodeError>
    ensures { map_ok any_model result
        ≡ read_by xdp_rows read_unknown (buffered_attribute nla.now) }
{
    let value = nla.value();
    Ok(match nla.kind() {
        XDP_DIAG_INFO => AnyNla::XdpInfo(XdpInfo::parse(value)?),
        XDP_DIAG_UID => AnyNla::Owner(parse_u32(nla)?),
        XDP_DIAG_RX_RING => AnyNla::ReceiveRing(parse_u32(nla)?),
        XDP_DIAG_TX_RING => AnyNla::SendRing(parse_u32(nla)?),
        XDP_DIAG_UMEM => AnyNla::Umem(XdpUmem::parse(value)?),
        XDP_DIAG_UMEM_FILL_RING => AnyNla::FillRing(parse_u32(nla)?),
        XDP_DIAG_UMEM_COMPLETION_RING => AnyNla::CompletionRing(parse_u32(nla)?),
        XDP_DIAG_MEMINFO => AnyNla::Memory(MemInfo::parse(value)?),
        XDP_DIAG_STATS => AnyNla::Statistics(XdpStatistics::parse(value)?),
        _ => AnyNla::Unknown(*nla),
    })
}

// Parses the little-endian `u32` that is the value of an attribute. Another length than 4 is
// `WrongLength` with the kind.
fn parse_u32(nla: &NlaBuffer<'_>) -> Result<u32, DecodeError>
    ensures { result ≡ number_of_width (Some (attribute_kind (buffered_attribute nla.now))) 4
        (buffered_attribute nla.now).value }
{
    if nla.value().len() != 4 {
        return Err(wrong_length(nla, 4));
    }
    Ok(LittleEndian::read_u32(nla.value()))
}

// Parses the little-endian `u64` that is the value of an attribute. Another length than 8 is
// `WrongLength` with the kind.
fn parse_u64(nla: &NlaBuffer<'_>) -> Result<u64, DecodeError>
    ensures { result ≡ number_of_width (Some (attribute_kind (buffered_attribute nla.now))) 8
        (buffered_attribute nla.now).value }
{
    if nla.value().len() != 8 {
        return Err(wrong_length(nla, 8));
    }
    Ok(LittleEndian::read_u64(nla.value()))
}

// Parses the record at the start of the value of an attribute. If there are fewer bytes than the
// record has, the error is `WrongLength` with the kind.
fn parse_sized<T: AttributeRecord>(nla: &NlaBuffer<'_>) -> Result<T, DecodeError>
    ensures { result ≡ parse_sized (attribute_kind (buffered_attribute nla.now)) T.layout
        (buffered_attribute nla.now).value }
{
    match read_attribute_record(nla.value()) {
        Some(record) => Ok(record),
        None => Err(wrong_length(nla, T::size())),
    }
}

// Returns the value of an attribute if it consists of records. Otherwise the error is
// `WrongLength` with the kind.
fn whole_records<'a, T: AttributeRecord>(nla: &NlaBuffer<'a>) -> Result<&'a [u8], DecodeError>
    requires { 0 < T.layout.size }
    ensures { map_ok (λ value. value.now) result
        ≡ whole_records (attribute_kind (buffered_attribute nla.now)) T.layout
        (buffered_attribute nla.now).value }
{
    if nla.value().len() % T::size() != 0 {
        return Err(wrong_length(nla, T::size()));
    }
    Ok(nla.value())
}

// Borrows the attributes nested in the value of an attribute. The error is the first one of their
// framing.
fn parse_nested(value: &[u8]) -> Result<NestedNlas<'_>, DecodeError>
    ensures { map_ok nested_bytes result ≡ framed value.entry.now }
{
    NestedNlas::parse(value)
}

// Returns the error of an attribute whose value does not have the `need` bytes that it needs.
fn wrong_length(nla: &NlaBuffer<'_>, need: usize) -> DecodeError
    ensures { result ≡ DecodeError.WrongLength
        (Some (attribute_kind (buffered_attribute nla.now)))
        (length (buffered_attribute nla.now).value) need }
{
    DecodeError::WrongLength {
        kind: Some(nla.kind()),
        got: nla.value().len(),
        need,
    }
}
