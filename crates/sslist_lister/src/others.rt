//! Lines of the replies about netlink, packet, vsock and XDP sockets. If a function of this module
//! fails, an allocation failed, and the content of the text is not specified. `list` is the number
//! of the list of sockets that a reply belongs to, since a repeated request begins another list;
//! only JSON has it.
//!
//! In the contracts, `collected found.now` is what the attributes in `found` say. `H.json_members`
//! are the members of a header in JSON.

ghost use Rattle.std.specs.Prelude.{◌≡◌, ◌++◌, IfOk, OnOk, option_map};
ghost use Rattle.sslist_texts.specs.CellsModel.{cells_model};
ghost use Rattle.sslist_texts.specs.Cells.{column};
ghost use Rattle.sslist_lister.specs.Collected.{Summary, collected, summary_of};
ghost use Rattle.sslist_lister.specs.JsonListing.{other_output};
ghost use Rattle.sslist_lister.specs.Others.{memory_in, optional_address_text, packet_interface};
ghost use Rattle.sslist_lister.specs.Others.{address_text, netlink_socket};
ghost use Rattle.sslist_lister.specs.Others.{other_columns, other_first_columns};
ghost use Rattle.sslist_lister.specs.Others.{other_lines, packet_socket, none_if_equal};
ghost use Rattle.sslist_lister.specs.Others.{user_in, user_kind, vsock_socket};
ghost use Rattle.sslist_lister.specs.Others.{xdp_address, xdp_socket};
ghost use Rattle.sock_diag_any.specs.Pieces.{framing_error_of, pieces_in};
ghost use Rattle.sock_diag_any.specs.declared.nla.Sockets.{Sockets as SocketsRead};
ghost use Rattle.sock_diag_any.specs.declared.nla.Sockets.TheVariants as about;
ghost use Rattle.sslist_lister.specs.declared.others.OtherSocket.{OtherSocket as SocketShown};

use crate::attributes::memory_kind;
use crate::collected::Attributes;
use crate::details::push_details;
use crate::json_attributes::{JsonHeader, push_json};
use crate::kinds::name_of_other_kind;
use crate::line::LOCAL_WIDTH;
use crate::parts::NO_TIMER;
use byteorder::{ByteOrder, LittleEndian};
use netlink_core::DecodeError;
use sock_diag_any::{AnyNla, Sockets};
use sock_diag_families::netlink::NetlinkResponseHeader;
use sock_diag_families::packet::{PACKET_DIAG_INFO, PACKET_DIAG_UID, PacketResponseHeader};
use sock_diag_families::vsock::VsockResponseHeader;
use sock_diag_families::xdp::{XDP_DIAG_INFO, XDP_DIAG_UID, XdpResponseHeader};
use sock_diag_records::constants::TCP_CLOSE;
use sock_diag_values::inet::MemInfo;
use sslist_command_line::{Family, Options};
use sslist_texts::cells::{
    Cells, end_column, name_of_state, push_first_columns, push_number_or_star,
};
use std::alloc::AllocError;

/// `NETLINK_CONNECTED`, the state of a netlink socket that is connected to another one.
const NETLINK_CONNECTED: u8 = 1;

/// `VMADDR_CID_ANY` and `VMADDR_PORT_ANY` of vsock(7).
const ANY: u32 = 0xffff_ffff;

/// A local or peer address: two numbers, such as the context and the port of a vsock socket. `None`
/// is shown as `*`.
type Address = (Option<u32>, Option<u32>);

/// The values of a netlink, packet, vsock or XDP socket that a line shows. The memory and the user
/// id are not among them: they are in attributes.
#[derive(Clone, Copy)]
pub(crate) struct OtherSocket {
    family: Family,
    /// Type of the socket, one of `SOCK_..`.
    kind: u8,
    state: u8,
    inode: u32,
    cookie: u64,
    local: Address,
    peer: Option<Address>,
}

/// A header of a reply about a netlink, packet, vsock or XDP socket.
pub(crate) trait Listed: JsonHeader {
    // The sockets of the family.
    ghost listed_sockets: { SocketsRead };

    // The values that a line shows, by the header and what the reply has in its attributes.
    ghost listed: { Self → Summary → SocketShown };

    /// Returns the sockets of the family.
    fn sockets() -> Sockets
        ensures { result ≡ listed_sockets };

    /// Returns the values of the socket with this header and the attributes `found`.
    fn socket(&self, found: &Attributes<'_>) -> OtherSocket
        ensures { result ≡ listed self.now (collected found.now) };
}

/// Appends what is written for a socket with this header, if the options select it. `bytes` are its
/// attributes. Returns the error of the bytes after the last attribute, if there are any.
pub(crate) fn push_other<H: Listed>(
    text: &mut Vec<u8>,
    options: Options<'_>,
    list: u64,
    header: &H,
    bytes: &[u8],
) -> Result<Option<DecodeError>, AllocError>
    ensures lines { let summary = summary_of H.listed_sockets bytes.now in
        OnOk result (text.new.items ≡ text.old.items
        ++ other_output options.entry list (H.listed header.now summary) (H.json_members header.now)
        summary) }
    ensures error { IfOk result
        (λ error. error ≡ framing_error_of (pieces_in bytes.now)) }
{
    let mut found = Attributes::new(*text.allocator(), H::sockets());
    found.collect(bytes)?;
    let socket = header.socket(&found);
    push_output(text, options, list, header, &socket, &found)?;
    Ok(found.end)
}

/// Appends what is written for the socket with this header, the values `socket` and the attributes
/// `found`, if the options select it: its lines of the table, or its line of JSON.
fn push_output<H: Listed>(
    text: &mut Vec<u8>,
    options: Options<'_>,
    list: u64,
    header: &H,
    socket: &OtherSocket,
    found: &Attributes<'_>,
) -> Result<(), AllocError>
    ensures { OnOk result (text.new.items ≡ text.old.items
        ++ other_output options.entry list socket.now (H.json_members header.now)
        (collected found.now)) }
{
    if !options.lists_family(socket.family, socket.state) {
        return Ok(());
    }
    if options.json {
        return push_json(text, list, header, found);
    }
    push_lines(text, options, socket, found)
}

/// Appends the lines of the table for a socket with the attributes `found`.
#[tactic(auto, using(sslist_texts::proofs::Adding::three_texts_concatenate))]
fn push_lines(
    text: &mut Vec<u8>,
    options: Options<'_>,
    socket: &OtherSocket,
    found: &Attributes<'_>,
) -> Result<(), AllocError>
    ensures { OnOk result (text.new.items ≡ text.old.items
        ++ other_lines options.entry socket.now (collected found.now)) }
{
    push_other_columns(text, socket, found)?;
    let mut cookie = [0; 8];
    LittleEndian::write_u64(&mut cookie, socket.cookie);
    push_details(text, options, &NO_TIMER, &cookie, found)?;
    Ok(text.push(b'\n')?)
}

/// Appends the columns of a socket.
fn push_other_columns(
    text: &mut Vec<u8>,
    socket: &OtherSocket,
    found: &Attributes<'_>,
) -> Result<(), AllocError>
    ensures { OnOk result (text.new.items ≡ text.old.items
        ++ other_columns socket.now (collected found.now)) }
{
    push_first_columns(text, &other_cells(socket, found))?;
    push_local(text, socket.local)?;
    push_optional_address(text, socket.peer)
}

/// Returns the first columns of a socket. Recv-Q and Send-Q are `SK_MEMINFO_RMEM_ALLOC` and
/// `SK_MEMINFO_WMEM_ALLOC` of its memory.
fn other_cells(socket: &OtherSocket, found: &Attributes<'_>) -> Cells
    ensures { cells_model result ≡ other_first_columns socket.now (collected found.now) }
{
    let (receive_queue, send_queue) = match memory_in(found) {
        Some(memory) => (Some(memory.receive_queue), Some(memory.bottom_send_queues)),
        None => (None, None),
    };
    Cells {
        kind: name_of_other_kind(socket.family, socket.kind).as_bytes(),
        state: name_of_state(socket.state).as_bytes(),
        receive_queue,
        send_queue,
        inode: socket.inode,
        uid: user_in(socket.family, found),
    }
}

/// Returns the kind of the attribute with the user id of the owner. Returns `None` for netlink and
/// vsock sockets, which have none.
fn user_kind(family: Family) -> Option<u16>
    ensures { result ≡ user_kind family }
{
    match family {
        Family::Packet => Some(PACKET_DIAG_UID),
        Family::Xdp => Some(XDP_DIAG_UID),
        Family::Netlink | Family::Vsock => None,
    }
}

/// Appends the column of the local address.
fn push_local(text: &mut Vec<u8>, address: Address) -> Result<(), AllocError>
    ensures { OnOk result (text.new.items ≡ text.old.items
        ++ column LOCAL_WIDTH (address_text address)) }
{
    let start = text.len();
    push_address(text, address)?;
    end_column(text, start, LOCAL_WIDTH)
}

/// Appends an address, or `*` for `None`.
fn push_optional_address(text: &mut Vec<u8>, address: Option<Address>) -> Result<(), AllocError>
    ensures { OnOk result (text.new.items ≡ text.old.items ++ optional_address_text address) }
{
    match address {
        Some(address) => push_address(text, address),
        None => Ok(text.push(b'*')?),
    }
}

/// Appends both numbers of an address, separated by a colon. A number that is `None` is `*`.
fn push_address(text: &mut Vec<u8>, address: Address) -> Result<(), AllocError>
    ensures { OnOk result (text.new.items ≡ text.old.items ++ address_text address) }
{
    let (first, second) = address;
    push_number_or_star(text, first)?;
    text.push(b':')?;
    push_number_or_star(text, second)
}

/// Returns the memory of a socket, if the reply has it.
fn memory_in<'s>(found: &'s Attributes<'_>) -> Option<&'s MemInfo>
    ensures { option_map (λ memory. memory.now) result ≡ memory_in (collected found.now) }
{
    match found.value_of_kind(memory_kind(found.sockets)?)? {
        AnyNla::Memory(memory) => Some(memory),
        _ => None,
    }
}

/// Returns the user id of the owner of a socket of this family, if the reply has it.
fn user_in(family: Family, found: &Attributes<'_>) -> Option<u32>
    ensures { result ≡ user_in family (collected found.now) }
{
    match found.value_of_kind(user_kind(family)?)? {
        AnyNla::Owner(user) => Some(*user),
        _ => None,
    }
}

/// Returns the interface of a packet socket. Returns `None` if it is not known, or if the number is
/// 0, which is no interface.
fn packet_interface(found: &Attributes<'_>) -> Option<u32>
    ensures { result ≡ packet_interface (collected found.now) }
{
    match found.value_of_kind(PACKET_DIAG_INFO)? {
        AnyNla::PacketInfo(info) => none_if_equal(0, info.interface),
        _ => None,
    }
}

/// Returns the interface and the queue of an XDP socket. Each is `None` if it is not known, and the
/// interface also if the number is 0.
fn xdp_address(found: &Attributes<'_>) -> Address
    ensures { result ≡ xdp_address (collected found.now) }
{
    match found.value_of_kind(XDP_DIAG_INFO) {
        Some(AnyNla::XdpInfo(info)) => (none_if_equal(0, info.interface), Some(info.queue)),
        _ => (None, None),
    }
}

/// Returns the number, or `None` if it is equal to `none`.
fn none_if_equal(none: u32, number: u32) -> Option<u32>
    ensures { result ≡ none_if_equal none number }
{
    if number == none { None } else { Some(number) }
}

impl Listed for NetlinkResponseHeader {
    ghost listed_sockets = { about.Netlink };

    ghost listed = { netlink_socket };

    fn sockets() -> Sockets {
        Sockets::Netlink
    }

    fn socket(&self, _found: &Attributes<'_>) -> OtherSocket {
        let peer = if self.state == NETLINK_CONNECTED {
            Some((Some(self.destination_group), Some(self.destination_port)))
        } else {
            None
        };
        OtherSocket {
            family: Family::Netlink,
            kind: self.kind,
            // The column State has UNCONN for each netlink socket, as in ss(8).
            state: TCP_CLOSE,
            inode: self.inode,
            cookie: self.cookie,
            local: (Some(self.protocol.into()), Some(self.port)),
            peer,
        }
    }
}

impl Listed for PacketResponseHeader {
    ghost listed_sockets = { about.Packet };

    ghost listed = { packet_socket };

    fn sockets() -> Sockets {
        Sockets::Packet
    }

    fn socket(&self, found: &Attributes<'_>) -> OtherSocket {
        OtherSocket {
            family: Family::Packet,
            kind: self.kind,
            // The header has no state. The column State has UNCONN.
            state: TCP_CLOSE,
            inode: self.inode,
            cookie: self.cookie,
            local: (Some(self.protocol.into()), packet_interface(found)),
            peer: None,
        }
    }
}

impl Listed for VsockResponseHeader {
    ghost listed_sockets = { about.Vsock };

    ghost listed = { vsock_socket };

    fn sockets() -> Sockets {
        Sockets::Vsock
    }

    fn socket(&self, _found: &Attributes<'_>) -> OtherSocket {
        let peer = (
            none_if_equal(ANY, self.destination_context),
            none_if_equal(ANY, self.destination_port),
        );
        OtherSocket {
            family: Family::Vsock,
            kind: self.kind,
            state: self.state,
            inode: self.inode,
            cookie: self.cookie,
            local: (
                none_if_equal(ANY, self.source_context),
                none_if_equal(ANY, self.source_port),
            ),
            peer: Some(peer),
        }
    }
}

impl Listed for XdpResponseHeader {
    ghost listed_sockets = { about.Xdp };

    ghost listed = { xdp_socket };

    fn sockets() -> Sockets {
        Sockets::Xdp
    }

    fn socket(&self, found: &Attributes<'_>) -> OtherSocket {
        OtherSocket {
            family: Family::Xdp,
            kind: self.kind,
            // The header has no state. The column State has UNCONN.
            state: TCP_CLOSE,
            inode: self.inode,
            cookie: self.cookie,
            local: xdp_address(found),
            peer: None,
        }
    }
}
