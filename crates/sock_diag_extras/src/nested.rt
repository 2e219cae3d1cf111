//! Attributes that are nested in the value of another attribute or follow a header, with getters by
//! kind.

ghost use Rattle.std.specs.Prelude.{◌≡◌, ◌≤◌, ℕ, List, [], IfErr, IfOk, Some, option_copied};
ghost use Rattle.std.specs.Prelude.{option_map};
ghost use Rattle.netlink_core.specs.Attribute.{HasAttributeError};
ghost use Rattle.netlink_core.specs.AttributeSet.{decode_attribute};
ghost use Rattle.netlink_core.specs.Errors.{map_ok};
ghost use Rattle.netlink_core.specs.Walk.{unread_bytes};
ghost use Rattle.attribute_lists.specs.AttributesIn.{HasNoAttributeError};
ghost use Rattle.sock_diag_extras.specs.Nested.{first_value_in, nested_number_in, nested_text_in};
ghost use Rattle.sock_diag_extras.specs.Nested.{nested_u32_in};

use attribute_lists::{check_nlas, next_view};
use byteorder::{ByteOrder, LittleEndian};
use netlink_core::{DecodeError, NlasIterator, parse_str, parse_u32};
use sock_diag_families::RawNla;

/// Consecutive attributes, borrowed. Each getter uses the first attribute of a kind, and returns
/// `None` if there is none. The two flag bits of the type field are ignored. It does not allocate.
#[derive(Clone, Copy, Debug, PartialEq, Eq)]
pub struct NestedNlas<'a> {
    bytes: &'a [u8],
    // The bytes have no framing error.
    ghost framed: { HasNoAttributeError (decode_attribute []) bytes.now },
}

impl<'a> NestedNlas<'a> {
    ghost use Rattle.sock_diag_extras.specs.Models.{nested_bytes};

    /// Borrows the attributes in the bytes. Returns the first framing error, if there is one. The
    /// values are not parsed.
    pub fn parse(bytes: &'a [u8]) -> Result<NestedNlas<'a>, DecodeError>
        ensures kept { IfOk result (λ nested. nested_bytes nested ≡ bytes.entry.now) }
        ensures error { IfErr result (HasAttributeError (decode_attribute []) bytes.entry.now) }
    {
        check_nlas::<RawNla>(bytes)?;
        Ok(NestedNlas { bytes })
    }

    /// Returns the bytes.
    pub fn bytes(&self) -> &'a [u8]
        ensures { result.now ≡ nested_bytes self.now }
    {
        self.bytes
    }

    /// Returns an iterator over all of the attributes, in order.
    pub fn walk(&self) -> NlasIterator<'a>
        ensures { unread_bytes result ≡ nested_bytes self.now }
    {
        NlasIterator::new(self.bytes)
    }

    /// Returns the value of the first attribute of the kind, or `None` if there is none.
    pub fn value_of(&self, kind: u16) -> Option<&'a [u8]>
        ensures { option_copied result ≡ first_value_in kind (nested_bytes self.now) }
    {
        let mut nlas = self.walk();
        while let Some(nla) = next_view::<RawNla>(&mut nlas) {
            if nla.0.kind() == kind {
                return Some(nla.0.value());
            }
        }
        None
    }

    /// Returns the value of the first attribute of the kind as text, without one terminating NUL if
    /// it has one. Returns `Ok(None)` if there is no such attribute. Text that is not valid UTF-8
    /// is `NotUtf8`; `value_of` returns its bytes.
    pub fn text_of(&self, kind: u16) -> Result<Option<&'a str>, DecodeError>
        ensures { map_ok option_copied result ≡ nested_text_in kind (nested_bytes self.now) }
    {
        match self.value_of(kind) {
            Some(value) => Ok(Some(parse_str(value)?)),
            None => Ok(None),
        }
    }

    /// Parses the value of the first attribute of the kind as a little-endian `u32`. Returns
    /// `Ok(None)` if there is no such attribute. A length other than 4 is `WrongLength`, without
    /// the kind.
    pub fn word_of(&self, kind: u16) -> Result<Option<u32>, DecodeError>
        ensures { result ≡ nested_u32_in kind (nested_bytes self.now) }
    {
        match self.value_of(kind) {
            Some(value) => Ok(Some(parse_u32(value)?)),
            None => Ok(None),
        }
    }

    /// Parses the value of the first attribute of the kind as a little-endian number of `width`
    /// bytes, which must be 1 to 8. Returns `Ok(None)` if there is no such attribute. Another
    /// length is `WrongLength`, with the kind.
    pub fn number_of(&self, kind: u16, width: usize) -> Result<Option<u64>, DecodeError>
        requires one { 1 ≤ width }
        requires eight { width ≤ 8 }
        ensures { result ≡ nested_number_in (kind, width) (nested_bytes self.now) }
    {
        match self.value_of(kind) {
            Some(value) if value.len() == width => Ok(Some(LittleEndian::read_uint(value, width))),
            Some(value) => Err(DecodeError::WrongLength {
                kind: Some(kind),
                got: value.len(),
                need: width,
            }),
            None => Ok(None),
        }
    }

    /// Borrows the attributes nested in the value of the first attribute of the kind. Returns
    /// `Ok(None)` if there is no such attribute, and the first framing error in its value, if there
    /// is one.
    pub fn nested_of(&self, kind: u16) -> Result<Option<NestedNlas<'a>>, DecodeError>
        ensures kept { IfOk result (λ found. option_map nested_bytes found
            ≡ first_value_in kind (nested_bytes self.now)) }
        ensures error { IfErr result (λ e. (value : List ℕ)
            × (first_value_in kind (nested_bytes self.now) ≡ Some value)
            × HasAttributeError (decode_attribute []) value e) }
    {
        match self.value_of(kind) {
            Some(value) => Ok(Some(NestedNlas::parse(value)?)),
            None => Ok(None),
        }
    }
}
