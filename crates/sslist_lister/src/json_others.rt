//! Headers of replies about netlink, packet, vsock and XDP sockets in lines of JSON. If a function
//! of this module fails, an allocation failed, and the content of the writer is not specified. The
//! clauses `prefix` state that the bytes before the first token of the writer are unchanged.

ghost use Rattle.std.specs.Prelude.{◌≡◌, ◌++◌, OnOk, map};
ghost use Rattle.sslist_lister.specs.JsonOthers.{netlink_header_members, other_header_members};
ghost use Rattle.sslist_lister.specs.JsonOthers.{packet_header_members, vsock_header_members};
ghost use Rattle.sslist_lister.specs.JsonOthers.{xdp_header_members};
ghost use Rattle.sslist_texts.specs.JsonWriting.{KeepsPrefix, members_tokens};

use crate::json_attributes::JsonHeader;
use crate::kinds::name_of_other_kind;
use json::Writer;
use sock_diag_families::netlink::NetlinkResponseHeader;
use sock_diag_families::packet::PacketResponseHeader;
use sock_diag_families::vsock::{AF_VSOCK, VsockResponseHeader};
use sock_diag_families::xdp::{AF_XDP, XdpResponseHeader};
use sock_diag_records::constants::{AF_NETLINK, AF_PACKET, TCP_CLOSE};
use sslist_command_line::Family;
use sslist_texts::cells::name_of_state;
use sslist_texts::json_writing::{write_hex, write_numbers, write_text};
use std::alloc::{AllocError, Global};

/// Writes the members of a header: the columns Netid and State of the table, where State is the
/// name of `state`; the fields in `rows`; and the cookie.
fn write_header(
    alloc: Global,
    writer: &mut Writer,
    netid: &str,
    state: u8,
    rows: &[(&str, u64)],
    cookie: u64,
) -> Result<(), AllocError>
    ensures prefix { KeepsPrefix result writer.old writer.new }
    ensures members { OnOk result (writer.new.tokens ≡ writer.old.tokens
        ++ members_tokens (other_header_members netid.now state
        (map (λ row. (row.0.now, row.1)) rows.now) cookie)) }
{
    write_text(writer, "netid", netid)?;
    write_text(writer, "state_name", name_of_state(state))?;
    write_numbers(writer, rows)?;
    write_hex(alloc, writer, "cookie", cookie)
}

impl JsonHeader for NetlinkResponseHeader {
    ghost json_members = { netlink_header_members };

    fn write_json(&self, alloc: Global, writer: &mut Writer) -> Result<(), AllocError> {
        let rows = [
            ("family", AF_NETLINK as u64),
            ("type", self.kind as u64),
            ("protocol", self.protocol as u64),
            ("state", self.state as u64),
            ("portid", self.port as u64),
            ("dst_portid", self.destination_port as u64),
            ("dst_group", self.destination_group as u64),
            ("ino", self.inode as u64),
        ];
        let netid = name_of_other_kind(Family::Netlink, self.kind);
        // As in the table, the name of the state is UNCONN.
        write_header(alloc, writer, netid, TCP_CLOSE, &rows, self.cookie)
    }
}

impl JsonHeader for PacketResponseHeader {
    ghost json_members = { packet_header_members };

    fn write_json(&self, alloc: Global, writer: &mut Writer) -> Result<(), AllocError> {
        let rows = [
            ("family", AF_PACKET as u64),
            ("type", self.kind as u64),
            ("num", self.protocol as u64),
            ("ino", self.inode as u64),
        ];
        let netid = name_of_other_kind(Family::Packet, self.kind);
        // As in the table, the name of the state is UNCONN.
        write_header(alloc, writer, netid, TCP_CLOSE, &rows, self.cookie)
    }
}

impl JsonHeader for VsockResponseHeader {
    ghost json_members = { vsock_header_members };

    fn write_json(&self, alloc: Global, writer: &mut Writer) -> Result<(), AllocError> {
        let rows = [
            ("family", AF_VSOCK as u64),
            ("type", self.kind as u64),
            ("state", self.state as u64),
            ("shutdown", self.shutdown as u64),
            ("src_cid", self.source_context as u64),
            ("src_port", self.source_port as u64),
            ("dst_cid", self.destination_context as u64),
            ("dst_port", self.destination_port as u64),
            ("ino", self.inode as u64),
        ];
        let netid = name_of_other_kind(Family::Vsock, self.kind);
        write_header(alloc, writer, netid, self.state, &rows, self.cookie)
    }
}

impl JsonHeader for XdpResponseHeader {
    ghost json_members = { xdp_header_members };

    fn write_json(&self, alloc: Global, writer: &mut Writer) -> Result<(), AllocError> {
        let rows = [
            ("family", AF_XDP as u64),
            ("type", self.kind as u64),
            ("ino", self.inode as u64),
        ];
        let netid = name_of_other_kind(Family::Xdp, self.kind);
        // As in the table, the name of the state is UNCONN.
        write_header(alloc, writer, netid, TCP_CLOSE, &rows, self.cookie)
    }
}
