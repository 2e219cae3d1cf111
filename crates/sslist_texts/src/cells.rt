//! Cells of a line. A function of this module allocates only to grow the text. If it fails, the
//! content of the text is not specified.

ghost use Rattle.sslist_texts.specs.Cells.{state_name};
ghost use Rattle.std.specs.Prelude.{◌≡◌, ◌++◌, ◌-◌, ◌<◌, ◌≤◌, decimal, false, vec_len, OnOk};
ghost use Rattle.std.specs.Fmt.{digit_glyph, digits};
ghost use Rattle.std.specs.Net.Text.{ip_text};
ghost use Rattle.std.specs.declared.net.ip_addr.IpAddr.TheVariants.{V4};
ghost use Rattle.sslist_texts.specs.Cells.{column, column_padding, endpoint, first_columns};
ghost use Rattle.sslist_texts.specs.Cells.{bracketed_address, is_any_v6, shown_address};
ghost use Rattle.sslist_texts.specs.Cells.{number_cell, number_or_star, port_text};
ghost use Rattle.sslist_texts.specs.CellsModel.{cells_model};
ghost use Rattle.sslist_texts.specs.Escapes.{byte_digits, escaped_byte, is_printable_byte};

use itoa::Buffer;
use sock_diag_records::constants::{
    TCP_CLOSE, TCP_CLOSE_WAIT, TCP_CLOSING, TCP_ESTABLISHED, TCP_FIN_WAIT1, TCP_FIN_WAIT2,
    TCP_LAST_ACK, TCP_LISTEN, TCP_SYN_RECV, TCP_SYN_SENT, TCP_TIME_WAIT,
};
use std::alloc::AllocError;
use std::io::Write;
use std::net::{IpAddr, Ipv4Addr};

/// Width in bytes of the column Netid.
const NETID_WIDTH: usize = 5;

/// Width in bytes of the column State.
const STATE_WIDTH: usize = 10;

/// Width in bytes of the columns Recv-Q and Send-Q.
const QUEUE_WIDTH: usize = 6;

/// Width in bytes of the column Inode.
const INODE_WIDTH: usize = 10;

/// Width in bytes of the column Uid.
const UID_WIDTH: usize = 5;

/// Returns the name of a socket state, as ss(8) prints it, and `UNKNOWN` from 12 on.
pub fn name_of_state(state: u8) -> &'static str
    ensures { result.now ≡ state_name state }
{
    match state {
        TCP_ESTABLISHED => "ESTAB",
        TCP_SYN_SENT => "SYN-SENT",
        TCP_SYN_RECV => "SYN-RECV",
        TCP_FIN_WAIT1 => "FIN-WAIT-1",
        TCP_FIN_WAIT2 => "FIN-WAIT-2",
        TCP_TIME_WAIT => "TIME-WAIT",
        TCP_CLOSE => "UNCONN",
        TCP_CLOSE_WAIT => "CLOSE-WAIT",
        TCP_LAST_ACK => "LAST-ACK",
        TCP_LISTEN => "LISTEN",
        TCP_CLOSING => "CLOSING",
        _ => "UNKNOWN",
    }
}

/// Appends a number in decimal.
#[tactic(auto, using(std::proofs::lemmas::Fmt::decimal_digit))]
pub fn push_number(text: &mut Vec<u8>, number: u64) -> Result<(), AllocError>
    ensures { OnOk result (text.new.items ≡ text.old.items ++ decimal number) }
{
    // One digit is appended faster without a buffer.
    if number < 10 {
        return Ok(text.push(b'0' + number as u8)?);
    }
    let mut buffer = Buffer::new();
    text.extend_from_slice(buffer.format(number).as_bytes())
}

/// Appends the text `before`, and a number in decimal.
pub fn push_after(text: &mut Vec<u8>, before: &[u8], number: u64) -> Result<(), AllocError>
    ensures { OnOk result (text.new.items ≡ text.old.items ++ before.now ++ decimal number) }
{
    text.extend_from_slice(before)?;
    push_number(text, number)
}

/// Appends a number in lowercase hexadecimal digits, without leading zeros.
#[tactic(auto, using(std::proofs::lemmas::Fmt::hex_one_digit))]
pub fn push_hex(text: &mut Vec<u8>, number: u64) -> Result<(), AllocError>
    // `digits 16 false number`: the digits in base 16, not in uppercase.
    ensures { OnOk result (text.new.items ≡ text.old.items ++ digits 16 false number) }
{
    if number < 16 {
        return Ok(text.push(hex_digit(number as u8))?);
    }
    push_hex(text, number / 16)?;
    Ok(text.push(hex_digit((number % 16) as u8))?)
}

/// Returns the lowercase hexadecimal digit of a number. It must be below 16.
fn hex_digit(number: u8) -> u8
    requires { number < 16 }
    ensures { result ≡ digit_glyph false number }
{
    if number < 10 {
        b'0' + number
    } else {
        b'a' - 10 + number
    }
}

/// Ends the column that begins at the offset `start`: appends spaces until it has `width` bytes,
/// and one more space. A longer column is not cut. `start` must be at most the length of the text.
pub fn end_column(text: &mut Vec<u8>, start: usize, width: usize) -> Result<(), AllocError>
    requires { start ≤ vec_len text.old }
    ensures { OnOk result (text.new.items
        ≡ text.old.items ++ column_padding width (vec_len text.old - start)) }
{
    // A text of a length that saturates cannot be allocated.
    let end = start.saturating_add(width).max(text.len());
    Ok(text.resize(end.saturating_add(1), b' ')?)
}

/// Appends a column: a text, spaces until it has `width` bytes, and one more space. A longer text
/// is not cut.
fn push_column(text: &mut Vec<u8>, width: usize, content: &[u8]) -> Result<(), AllocError>
    ensures { OnOk result (text.new.items ≡ text.old.items ++ column width content.now) }
{
    let start = text.len();
    text.extend_from_slice(content)?;
    end_column(text, start, width)
}

/// Appends a column, padded to `width` bytes as by [`push_column`], with a number in decimal, or
/// with `-` for `None`.
fn push_number_column(
    text: &mut Vec<u8>,
    width: usize,
    number: Option<u32>,
) -> Result<(), AllocError>
    ensures { OnOk result (text.new.items ≡ text.old.items ++ column width (number_cell number)) }
{
    let Some(number) = number else {
        return push_column(text, width, b"-");
    };
    let start = text.len();
    push_number(text, number.into())?;
    end_column(text, start, width)
}

/// The content of the first columns of a line.
#[derive(Clone, Copy)]
pub struct Cells {
    /// Kind of the socket, the column Netid.
    pub kind: &'static [u8],
    /// Name of the state of the socket, the column State.
    pub state: &'static [u8],
    /// Content of the column Recv-Q. `None` if the reply does not contain it.
    pub receive_queue: Option<u32>,
    /// Content of the column Send-Q. `None` if the reply does not contain it.
    pub send_queue: Option<u32>,
    /// Inode of the socket.
    pub inode: u32,
    /// User id. `None` if the reply does not contain it.
    pub uid: Option<u32>,
}

/// Appends the columns before the two addresses, each as by [`push_column`]: Netid, State, and
/// Recv-Q, Send-Q, Inode and Uid in decimal, or `-` for `None`.
pub fn push_first_columns(text: &mut Vec<u8>, cells: &Cells) -> Result<(), AllocError>
    ensures { OnOk result (text.new.items ≡ text.old.items
        ++ first_columns (cells_model cells.now)) }
{
    push_column(text, NETID_WIDTH, cells.kind)?;
    push_column(text, STATE_WIDTH, cells.state)?;
    push_number_column(text, QUEUE_WIDTH, cells.receive_queue)?;
    push_number_column(text, QUEUE_WIDTH, cells.send_queue)?;
    push_number_column(text, INODE_WIDTH, Some(cells.inode))?;
    push_number_column(text, UID_WIDTH, cells.uid)
}

/// Appends a byte unchanged if it is from `!` to `~` and not a backslash. Otherwise appends `\x`
/// and its two hexadecimal digits.
pub fn push_escaped_byte(text: &mut Vec<u8>, byte: u8) -> Result<(), AllocError>
    ensures { OnOk result (text.new.items ≡ text.old.items ++ escaped_byte byte) }
{
    if is_printable(byte) {
        return Ok(text.push(byte)?);
    }
    push_digits(text, byte)
}

/// Returns whether a byte is shown unchanged: it is from `!` to `~` and not a backslash.
pub(crate) fn is_printable(byte: u8) -> bool
    ensures { result ≡ is_printable_byte byte }
{
    (b'!'..=b'~').contains(&byte) && byte != b'\\'
}

/// Appends `\x` and the two hexadecimal digits of a byte.
pub fn push_digits(text: &mut Vec<u8>, byte: u8) -> Result<(), AllocError>
    ensures { OnOk result (text.new.items ≡ text.old.items ++ byte_digits byte) }
{
    let mut digits = [0u8; 2];
    if hex::encode_to_slice(&[byte], &mut digits).is_err() {
        // The two digits of a byte fit the buffer.
        unreachable!();
    }
    text.extend_from_slice(b"\\x")?;
    text.extend_from_slice(&digits)
}

/// Appends a number in decimal, such as the inode of a UNIX socket's peer, or `*` for `None`.
pub fn push_number_or_star(text: &mut Vec<u8>, number: Option<u32>) -> Result<(), AllocError>
    ensures { OnOk result (text.new.items ≡ text.old.items ++ number_or_star number) }
{
    match number {
        Some(number) => push_number(text, number.into()),
        None => Ok(text.push(b'*')?),
    }
}

/// Appends a column, padded to `width` bytes as by [`push_column`], with an address, an interface
/// and a port, as [`push_endpoint`] writes them.
pub fn push_endpoint_column(
    text: &mut Vec<u8>,
    width: usize,
    is_v6_only: bool,
    address: IpAddr,
    interface: u32,
    port: u16,
) -> Result<(), AllocError>
    ensures { OnOk result (text.new.items ≡ text.old.items
        ++ column width (endpoint is_v6_only address interface port)) }
{
    let start = text.len();
    push_endpoint(text, is_v6_only, address, interface, port)?;
    end_column(text, start, width)
}

/// Appends an address, then `%` and the interface number if it is not 0, then `:` and the port, or
/// `*` if the port is 0. An IPv6 address is in brackets and in its short form (RFC 5952). As in
/// ss(8), `::` is `*` unless `is_v6_only`: the socket is known to be for IPv6 only.
pub fn push_endpoint(
    text: &mut Vec<u8>,
    is_v6_only: bool,
    address: IpAddr,
    interface: u32,
    port: u16,
) -> Result<(), AllocError>
    ensures { OnOk result (text.new.items
        ≡ text.old.items ++ endpoint is_v6_only address interface port) }
{
    push_host(text, is_v6_only, address)?;
    if interface != 0 {
        push_after(text, b"%", interface.into())?;
    }
    text.push(b':')?;
    push_port(text, port)
}

/// Appends an address as [`push_address`] does, or `*` if it is `::` and not `is_v6_only`.
fn push_host(text: &mut Vec<u8>, is_v6_only: bool, address: IpAddr) -> Result<(), AllocError>
    ensures { OnOk result (text.new.items ≡ text.old.items ++ shown_address is_v6_only address) }
{
    if is_any_v6(address) && !is_v6_only {
        Ok(text.push(b'*')?)
    } else {
        push_address(text, address)
    }
}

/// Returns whether an address is `::`.
fn is_any_v6(address: IpAddr) -> bool
    ensures { result ≡ is_any_v6 address }
{
    match address {
        IpAddr::V4(_) => false,
        IpAddr::V6(ip) => ip.segments() == [0; 8],
    }
}

/// Appends an address, in brackets if it is an IPv6 address.
fn push_address(text: &mut Vec<u8>, address: IpAddr) -> Result<(), AllocError>
    ensures { OnOk result (text.new.items ≡ text.old.items ++ bracketed_address address) }
{
    match address {
        IpAddr::V4(ip) => push_ipv4(text, ip),
        IpAddr::V6(_) => match write!(text, "[{address}]") {
            Ok(()) => Ok(()),
            // A write to a `Vec` fails only if an allocation failed.
            Err(_) => Err(AllocError),
        },
    }
}

/// Appends an IPv4 address.
fn push_ipv4(text: &mut Vec<u8>, address: Ipv4Addr) -> Result<(), AllocError>
    ensures { OnOk result (text.new.items ≡ text.old.items ++ ip_text (V4 address)) }
{
    let [first, second, third, fourth] = address.octets();
    push_number(text, first.into())?;
    push_after(text, b".", second.into())?;
    push_after(text, b".", third.into())?;
    push_after(text, b".", fourth.into())
}

/// Appends a port in decimal, or `*` for 0.
fn push_port(text: &mut Vec<u8>, port: u16) -> Result<(), AllocError>
    ensures { OnOk result (text.new.items ≡ text.old.items ++ port_text port) }
{
    if port == 0 {
        Ok(text.push(b'*')?)
    } else {
        push_number(text, port.into())
    }
}
