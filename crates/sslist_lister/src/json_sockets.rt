//! Headers of replies about UNIX, IPv4 and IPv6 sockets in lines of JSON. If a function of this
//! module fails, an allocation failed, and the content of the writer is not specified. The clauses
//! `prefix` state that the bytes before the first token of the writer are unchanged.

ghost use Rattle.std.specs.Prelude.{◌≡◌, ◌++◌, OnOk};
ghost use Rattle.sslist_lister.specs.JsonSockets.{inet_back_members, inet_front_members};
ghost use Rattle.sslist_lister.specs.JsonSockets.{inet_header_members, unix_header_members};
ghost use Rattle.sslist_texts.specs.JsonWriting.{KeepsPrefix, members_tokens};

use crate::json_attributes::JsonHeader;
use crate::kinds::{name_of_inet_kind, name_of_unix_kind};
use crate::line::InetSocket;
use crate::sctp::name_of_inet_state;
use json::Writer;
use sock_diag_any::RawTimer;
use sock_diag_records::constants::AF_UNIX;
use sock_diag_records::inet::InetResponseHeader;
use sock_diag_records::unix::UnixResponseHeader;
use sslist_texts::cells::name_of_state;
use sslist_texts::json_writing::{write_address, write_cookie, write_numbers, write_text};
use std::alloc::{AllocError, Global};

impl JsonHeader for UnixResponseHeader {
    ghost json_members = { unix_header_members };

    fn write_json(&self, alloc: Global, writer: &mut Writer) -> Result<(), AllocError> {
        write_unix_header(alloc, writer, self)
    }
}

impl JsonHeader for InetSocket {
    ghost json_members = { inet_header_members };

    fn write_json(&self, alloc: Global, writer: &mut Writer) -> Result<(), AllocError> {
        write_inet_header(alloc, writer, self)
    }
}

/// Writes the members of the header of a UNIX socket.
fn write_unix_header(
    alloc: Global,
    writer: &mut Writer,
    header: &UnixResponseHeader,
) -> Result<(), AllocError>
    ensures prefix { KeepsPrefix result writer.old writer.new }
    ensures members { OnOk result (writer.new.tokens ≡ writer.old.tokens
        ++ members_tokens (unix_header_members header.now)) }
{
    write_text(writer, "netid", name_of_unix_kind(header.kind))?;
    write_text(writer, "state_name", name_of_state(header.state))?;
    let rows = [
        ("family", AF_UNIX as u64),
        ("type", header.kind as u64),
        ("state", header.state as u64),
        ("ino", header.inode as u64),
    ];
    write_numbers(writer, &rows)?;
    write_cookie(alloc, writer, &header.cookie)
}

/// Writes the members of the header of an IPv4 or IPv6 socket.
fn write_inet_header(
    alloc: Global,
    writer: &mut Writer,
    socket: &InetSocket,
) -> Result<(), AllocError>
    ensures prefix { KeepsPrefix result writer.old writer.new }
    ensures members { OnOk result (writer.new.tokens ≡ writer.old.tokens
        ++ members_tokens (inet_header_members socket.now)) }
{
    let header = &socket.header;
    let id = &header.socket_id;
    let state = name_of_inet_state(socket.is_association, header.state);
    write_text(
        writer,
        "netid",
        name_of_inet_kind(socket.protocol, header.family),
    )?;
    write_text(writer, "state_name", state)?;
    write_inet_front(writer, &socket.timer, header)?;
    write_address(alloc, writer, "src", id.source_address)?;
    write_address(alloc, writer, "dst", id.destination_address)?;
    write_numbers(writer, &[("if", id.interface_id as u64)])?;
    write_cookie(alloc, writer, &id.cookie)?;
    write_inet_back(writer, &socket.timer, header)
}

/// Writes the members of the header of an IPv4 or IPv6 socket that precede the addresses.
fn write_inet_front(
    writer: &mut Writer,
    timer: &RawTimer,
    header: &InetResponseHeader,
) -> Result<(), AllocError>
    ensures prefix { KeepsPrefix result writer.old writer.new }
    ensures members { OnOk result (writer.new.tokens ≡ writer.old.tokens
        ++ members_tokens (inet_front_members timer.now header.now)) }
{
    let rows = [
        ("family", header.family as u64),
        ("state", header.state as u64),
        ("timer", timer.kind as u64),
        ("retrans", timer.retransmits as u64),
        ("sport", header.socket_id.source_port as u64),
        ("dport", header.socket_id.destination_port as u64),
    ];
    write_numbers(writer, &rows)
}

/// Writes the members of the header of an IPv4 or IPv6 socket that follow the cookie.
fn write_inet_back(
    writer: &mut Writer,
    timer: &RawTimer,
    header: &InetResponseHeader,
) -> Result<(), AllocError>
    ensures prefix { KeepsPrefix result writer.old writer.new }
    ensures members { OnOk result (writer.new.tokens ≡ writer.old.tokens
        ++ members_tokens (inet_back_members timer.now header.now)) }
{
    let rows = [
        ("expires", timer.expires as u64),
        ("rqueue", header.recv_queue as u64),
        ("wqueue", header.send_queue as u64),
        ("uid", header.uid as u64),
        ("inode", header.inode as u64),
    ];
    write_numbers(writer, &rows)
}
