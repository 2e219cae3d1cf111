//! Values of the conditions in a filter's text.

ghost use Rattle.std.specs.Prelude.{◌≡◌, ◌<◌, ◌↔◌, ◌-◌, ◌^◌, IfSome, Some, length};
ghost use Rattle.std.specs.Net.Grammar.{IsIpText};
ghost use Rattle.sock_diag_filters.specs.AddressText.{ip_in};
ghost use Rattle.sock_diag_filters.specs.Numbers.{number_in};
ghost use Rattle.sock_diag_filters.specs.Values.{address_in, condition_in, host_in, is_any};
ghost use Rattle.sock_diag_filters.specs.Values.{mark_in};
ghost use Rattle.sock_diag_filters.specs.Values.{optional_port_in, port_colon, port_in, prefix_in};
ghost use Rattle.sock_diag_filters.specs.Values.{prefix_of, without_brackets};

use crate::condition::{Comparison, Condition, Host, Prefix};
use crate::text::keywords::Field;
use crate::text::numbers::{index_of, number_in};
use std::net::IpAddr;

/// Parses the value of a condition on a field, which is compared in this way. Returns `None` if the
/// text is not such a value.
pub(crate) fn condition_in(field: Field, comparison: Comparison, text: &[u8]) -> Option<Condition>
    ensures { result ≡ condition_in field comparison text.now }
{
    match field {
        Field::SourcePort => Some(Condition::SourcePort(comparison, port_in(text)?)),
        Field::DestinationPort => Some(Condition::DestinationPort(comparison, port_in(text)?)),
        Field::Source => Some(Condition::Source(host_in(text)?)),
        Field::Destination => Some(Condition::Destination(host_in(text)?)),
        Field::Interface => Some(Condition::Interface(u32_in(text)?)),
        Field::Mark => mark_in(text),
        Field::Cgroup => Some(Condition::Cgroup(number_in(u64::MAX, text)?)),
    }
}

/// Parses a number of 32 bits. Returns `None` for any other text.
fn u32_in(text: &[u8]) -> Option<u32>
    ensures { result ≡ number_in (2 ^ 32 - 1) text.now }
{
    Some(number_in(u64::from(u32::MAX), text)? as u32)
}

/// Parses a port: a number, which a colon may precede. Returns `None` for any other text.
fn port_in(text: &[u8]) -> Option<u16>
    ensures { result ≡ port_in text.now }
{
    if text.starts_with(b":") {
        u16_in(&text[1..])
    } else {
        u16_in(text)
    }
}

/// Parses a number of 16 bits. Returns `None` for any other text.
fn u16_in(text: &[u8]) -> Option<u16>
    ensures { result ≡ number_in (2 ^ 16 - 1) text.now }
{
    Some(number_in(u64::from(u16::MAX), text)? as u16)
}

/// Parses a mark, or a mark and a mask with a slash between them. Without a mask all bits are
/// compared. Returns `None` for any other text.
fn mark_in(text: &[u8]) -> Option<Condition>
    ensures { result ≡ mark_in text.now }
{
    match index_of(b'/', text) {
        Some(index) => {
            let mark = u32_in(&text[..index])?;
            let mask = u32_in(&text[index + 1..])?;
            Some(Condition::Mark { mark, mask })
        }
        None => {
            let mark = u32_in(text)?;
            Some(Condition::Mark {
                mark,
                mask: u32::MAX,
            })
        }
    }
}

/// Parses an address, or an address and a port with a colon between them. Returns `None` for any
/// other text.
fn host_in(text: &[u8]) -> Option<Host>
    ensures { result ≡ host_in text.now }
{
    match port_colon(text) {
        Some(index) => {
            let prefix = address_in(&text[..index])?;
            let port = optional_port_in(&text[index + 1..])?;
            Some(Host { prefix, port })
        }
        None => {
            let prefix = address_in(text)?;
            Some(Host { prefix, port: None })
        }
    }
}

/// Returns the index of the colon that precedes the port: the last one, if no slash and no bracket
/// follows it. Returns `None` if there is none.
fn port_colon(text: &[u8]) -> Option<usize>
    ensures value { result ≡ port_colon text.now }
    // So the text can be split before and after it.
    ensures bound { IfSome result (λ index. index < length text.now) }
{
    let mut found = None;
    for (index, &byte) in text.iter().enumerate() {
        if byte == b':' {
            found = Some(index);
        } else if byte == b'/' || byte == b']' {
            found = None;
        }
    }
    found
}

/// Returns whether the text matches any address or port: it is empty, or an asterisk.
fn is_any(text: &[u8]) -> bool
    ensures { result ≡ is_any text.now }
{
    text.is_empty() || text == "*".as_bytes()
}

/// Parses a port after an address. `Some(None)` matches any port. Returns `None` if the text is not
/// a port.
fn optional_port_in(text: &[u8]) -> Option<Option<u16>>
    ensures { result ≡ optional_port_in text.now }
{
    if is_any(text) {
        Some(None)
    } else {
        Some(Some(u16_in(text)?))
    }
}

/// Parses an address with the number of its first bits that are compared, in brackets or not.
/// `Some(None)` matches any address. Returns `None` for any other text.
fn address_in(text: &[u8]) -> Option<Option<Prefix>>
    ensures { result ≡ address_in text.now }
{
    if is_any(text) {
        Some(None)
    } else {
        Some(Some(prefix_in(without_brackets(text))?))
    }
}

/// Returns the text between brackets, or the whole text if it is not in brackets.
fn without_brackets(text: &[u8]) -> &[u8]
    ensures { result.now ≡ without_brackets text.now }
{
    if text.len() > 1 && text.starts_with(b"[") && text.ends_with(b"]") {
        &text[1..text.len() - 1]
    } else {
        text
    }
}

/// Parses an address, or an address and a number of bits with a slash between them. Without a
/// number all bits are compared. Returns `None` for any other text, or if the address has fewer
/// bits.
fn prefix_in(text: &[u8]) -> Option<Prefix>
    ensures { result ≡ prefix_in text.now }
{
    match index_of(b'/', text) {
        Some(index) => {
            let address = ip_in(&text[..index])?;
            let bits = number_in(u64::from(u8::MAX), &text[index + 1..])? as u8;
            new_prefix(address, bits)
        }
        None => {
            let address = ip_in(text)?;
            let bits = match address {
                IpAddr::V4(_) => 32,
                IpAddr::V6(_) => 128,
            };
            new_prefix(address, bits)
        }
    }
}

/// Returns the prefix that consists of the first `bits` bits of an address, or `None` if it has
/// fewer.
fn new_prefix(address: IpAddr, bits: u8) -> Option<Prefix>
    ensures { result ≡ prefix_of address bits }
{
    Prefix::new(address, bits)
}

/// Parses an IPv4 or IPv6 address. Returns `None` if the text is neither.
#[tactic(auto, using(crate::specs::laws::AddressText::ip_text_rules))]
pub fn ip_in(text: &[u8]) -> Option<IpAddr>
    ensures value { result ≡ ip_in text.now }
    // For each address `a`: the result is `a` if and only if the text is a text of `a`, by the
    // grammar of std (`IsIpText text a`).
    ensures spelled { (a : IpAddr) → (result ≡ Some a) ↔ IsIpText text.now a }
{
    IpAddr::parse_ascii(text).ok()
}
