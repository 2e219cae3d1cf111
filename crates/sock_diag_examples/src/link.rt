//! The name and the MTU of a network interface, rtnetlink(7): an example of attributes of another
//! netlink family.

ghost use Rattle.std.specs.Prelude.{◌≡◌, ◌≤◌, ◌↔◌, ℕ, List, [], None, length, drop, IfOk, IfErr};
ghost use Rattle.std.specs.Prelude.{IsTrue};
ghost use Rattle.std.specs.List.{filter_map, last_or};
ghost use Rattle.netlink_core.specs.Attribute.{Attribute, DecodeTo, FitsLengthField};
ghost use Rattle.netlink_core.specs.Attribute.{attribute_bytes};
ghost use Rattle.netlink_core.specs.Bytes.{IsBytes};
ghost use Rattle.netlink_core.specs.Canonical as canon;
ghost use Rattle.netlink_core.specs.FirstAttribute.{first_attribute_codec};
ghost use Rattle.sock_diag_examples.specs.Link.{LinkAttribute, decodes_link, name_in, mtu_in};
ghost use Rattle.sock_diag_examples.specs.Link.{string_content, link_error_of, LinkFails};

use netlink_core::{
    CanonError, DecodeError, DefaultNla, NlasIterator, canonical, parse_string, parse_u32,
};
use std::alloc::Global;

/// Type of the attribute with the name, a text with a terminating NUL.
pub const IFLA_IFNAME: u16 = 3;

/// Type of the attribute with the MTU, 4 bytes.
pub const IFLA_MTU: u16 = 4;

/// Length of `struct ifinfomsg` in bytes; the attributes follow it.
const IFINFOMSG_LEN: usize = 16;

/// Name and MTU of an interface, from a message of type `RTM_NEWLINK`.
#[derive(Debug, Drop, PartialEq, Eq)]
pub struct Link {
    /// Name (`IFLA_IFNAME`), without a terminating NUL. If there are several, the last one counts,
    /// as for the kernel.
    pub name: Option<String>,
    /// Maximum length of a packet in bytes (`IFLA_MTU`). If there are several, the last one counts.
    pub mtu: Option<u32>,
}

/// Error of [`parse_link`].
#[derive(Debug, Drop, PartialEq, Eq)]
pub enum LinkError {
    /// The payload has fewer than the 16 bytes of its header.
    TooShort {
        /// Length of the payload in bytes.
        got: usize,
    },
    /// An attribute is invalid, or memory ran out.
    Attribute(DecodeError),
}

impl From<DecodeError> for LinkError {
    ghost from_gives = { λ error e. e ≡ link_error_of error };

    fn from(error: DecodeError) -> LinkError {
        LinkError::Attribute(error)
    }
}

/// Parses the payload of a message about an interface, the bytes after the netlink header: the 16
/// bytes of `struct ifinfomsg`, which are not looked at, and then attributes. The last name and the
/// last MTU count; attributes of other types are ignored.
///
/// - `TooShort`: the payload has fewer than 16 bytes.
/// - `Attribute(e)`: `e` is the first error of the attributes: of their framing, a name that is not
///   UTF-8, or an MTU that does not have four bytes. Or `e` is `Memory`, if an allocation for a
///   name failed.
pub fn parse_link(alloc: Global, payload: &[u8]) -> Result<Link, LinkError>
    // `found` is what the attributes after `struct ifinfomsg` decode to, in order.
    ensures value { IfOk result (λ link. (found : List LinkAttribute) × (16 ≤ length payload.now)
        × DecodeTo decodes_link (drop 16 payload.now) found
        × (string_content link.name ≡ last_or None (filter_map name_in found))
        × (link.mtu ≡ last_or None (filter_map mtu_in found))) }
    ensures error { IfErr result (LinkFails payload.now) }
{
    if payload.len() < IFINFOMSG_LEN {
        return Err(LinkError::TooShort { got: payload.len() });
    }
    let mut link = Link {
        name: None,
        mtu: None,
    };
    for item in NlasIterator::new(&payload[IFINFOMSG_LEN..]) {
        let attribute = item?;
        match attribute.kind() {
            IFLA_IFNAME => link.name = Some(parse_string(alloc, attribute.value())?),
            IFLA_MTU => link.mtu = Some(parse_u32(attribute.value())?),
            _ => {}
        }
    }
    Ok(link)
}

/// Returns `v == w`: whether two interfaces have equal names and equal MTUs.
pub fn equal_links(v: &Link, w: &Link) -> bool
    ensures { IsTrue result
        ↔ ((string_content v.now.name ≡ string_content w.now.name) × (v.now.mtu ≡ w.now.mtu)) }
{
    v == w
}

/// Returns `v == w`, which is true if and only if both errors are equal.
pub fn equal_link_errors(v: &LinkError, w: &LinkError) -> bool
    ensures { IsTrue result ↔ (v.now ≡ w.now) }
{
    v == w
}

/// Returns the canonical form of the attribute at the start of the bytes, of any family: its
/// header, its value, and zeros as padding. Two attributes have the same canonical form if and only
/// if they differ only in their padding and the bytes after it. Fails with `Refused` and the
/// framing error if the bytes do not start with an attribute, and with `Memory` if an allocation
/// fails.
pub fn attribute_key(alloc: Global, attribute: &[u8]) -> Result<Vec<u8>, CanonError>
    // No kind of attribute is known (`[]`), so that each attribute parses as itself.
    ensures written { IfOk result (λ key.
        (a : Attribute) × (first_attribute_codec []).parses attribute.now tt a
        × (key.items ≡ attribute_bytes a)) }
    // For all other bytes that parse as an attribute. `FitsLengthField` holds of every attribute
    // that was parsed.
    ensures equal_bytes { IfOk result (λ key. (bytes : List ℕ) (other : Attribute) → IsBytes bytes
        → (first_attribute_codec []).parses bytes tt other
        → FitsLengthField other
        → ((attribute_bytes other ≡ key.items)
        ↔ (first_attribute_codec []).equivalent tt attribute.now bytes)) }
    ensures err { IfErr result (canon.CanonicalFails
        ((first_attribute_codec []).parses attribute.now tt)
        ((first_attribute_codec []).rejects attribute.now tt) FitsLengthField) }
{
    canonical::<DefaultNla>(alloc, attribute, ())
}
