//! Numbers and texts of a reply, and how its attributes are read into a struct of C, in one pass.
//! The table `family` of [`ReplyDetails`] says how: it has the parser and the length of the header,
//! the reader of attributes, and a row for each field. In the contracts `o` is the number before a
//! call, or None; nothing is stated of a struct with other contents, which does not occur. No error
//! has the code 0.

ghost use Rattle.std.specs.Prelude.{◌≡◌, ◌≢◌, ℕ, List, [], drop, Err, IfErr, IfOk, IsTrue, None};
ghost use Rattle.std.specs.Prelude.{Ok, Option, Some};
ghost use Rattle.std.specs.Option.{option_or};
ghost use Rattle.netlink_core.specs.Attribute.{Attribute, SplitsIntoAttributes};
ghost use Rattle.netlink_core.specs.Errors.{map_ok};
ghost use Rattle.netlink_core.specs.Walk.{buffered_attribute};
ghost use Rattle.sock_diag_replies.specs.UnixGetters.{first_content_of};
ghost use Rattle.sockdiag_c.specs.Details.{optional_number, text_parts};
ghost use Rattle.sockdiag_c.specs.Family.{AreDetailsOf, HasHeaderAndValuesOf, SplitsWithError};
ghost use Rattle.sockdiag_c.specs.Family.{Family};
ghost use Rattle.sockdiag_c.specs.Family.{HasRejections, HasValues, IsFirstError, StoresDetails};
ghost use Rattle.sockdiag_c.specs.Family.{ReplyParts};
ghost use Rattle.sockdiag_c.specs.Family.{StoresLenientDetails};
ghost use Rattle.sockdiag_c.specs.Family.{first_error, value_error};
ghost use Rattle.sockdiag_c.specs.private.Rows.{AddsParts};

use crate::lenient::{Errors, Rejections};
use crate::results::{OK, copy_padded};
use netlink_core::{DecodeError, NlaBuffer, NlasIterator};

/// A number that a reply may contain.
#[repr(C)]
#[derive(Clone, Copy, Default)]
pub struct Number {
    /// 1 if the reply contains the number, else 0.
    pub is_set: u32,
    /// The number, or 0.
    pub value: u32,
}

const _: () = prove!(std::mem::size_of::<Number>() == 8);

/// A text that a reply may contain, as a pointer into the bytes of the reply.
#[repr(C)]
#[derive(Clone, Copy)]
pub struct Text<'a> {
    /// Kind of the text. `SOCKDIAG_TEXT`: a pathname, which may contain any bytes except NUL, or
    /// the name of a congestion control algorithm, which is valid UTF-8. `SOCKDIAG_ABSTRACT`: an
    /// abstract name, of any bytes. `SOCKDIAG_BYTES`: the groups of a netlink socket, or the
    /// memberships or the filter of a packet socket. 0: the reply contains no such text; then do
    /// not use the other fields. `bytes` is not null then.
    pub kind: u32,
    /// The text, without the NUL that ends a text or precedes an abstract name. Do not use it as a
    /// string of C: an abstract name may contain NULs, and only a pathname is always followed by
    /// its NUL in the reply.
    pub bytes: &'a [u8],
}

const _: () = prove!(std::mem::size_of::<Text<'static>>() == 24);

/// Kind of a pathname, and of the name of a congestion control algorithm.
pub(crate) const TEXT: u32 = 1;

/// Kind of an abstract name.
pub(crate) const ABSTRACT: u32 = 2;

/// Kind of the groups of a netlink socket, and of memberships and the filter of a packet socket.
pub(crate) const BYTES: u32 = 3;

impl Number {
    /// Sets the number, unless it is set already.
    pub(crate) fn set(&mut self, value: u32)
        ensures { (o : Option ℕ) → self.old ≡ optional_number o
            → self.new ≡ optional_number (option_or o (Some value)) }
    {
        if self.is_set == 0 {
            *self = Number { is_set: 1, value };
        }
    }
}

impl Default for Text<'_> {
    // The default text is none: its kind is 0.
    ghost is_default = { λ text. text_parts text ≡ None };

    fn default() -> Self {
        Text {
            kind: 0,
            bytes: &[],
        }
    }
}

impl<'a> Text<'a> {
    /// Sets the text, with its kind `TEXT`, `ABSTRACT` or `BYTES`, unless it is set already.
    pub(crate) fn set(&mut self, kind: u32, bytes: &'a [u8])
        // The kind 0 denotes that there is no text.
        requires { kind ≢ 0 }
        ensures { text_parts self.new
            ≡ option_or (text_parts self.old) (Some (kind, bytes.entry.now)) }
    {
        if self.kind == 0 {
            *self = Text { kind, bytes };
        }
    }
}

/// The contents of replies about the sockets of one family, as a C struct.
pub(crate) trait ReplyDetails<'a>: Copy + Default {
    /// A decoded attribute, borrowed.
    type Nla: Drop;

    // How a reply is read into the struct: its header, its attributes, and a table with a row for
    // each field (specs/Family.antt).
    ghost family: { Family Self };

    // What a decoded attribute says.
    ghost model: { Self.Nla → family.Value };

    /// Parses the header. Returns the struct with the header and without values, and the bytes
    /// after the header. Fails with the error of the header.
    fn parse_header(payload: &'a [u8]) -> Result<(Self, &'a [u8]), DecodeError>
        ensures header { IfOk result (λ (details, rest). family.parse_header payload.entry.now
            ≡ Ok (family.header details)) }
        // The fields of the rows are zeros, as no attribute was read yet (`[]`).
        ensures values { IfOk result (λ (details, rest).
            HasValues family.read family.rows details []) }
        ensures rest { IfOk result (λ (details, rest). rest.now
            ≡ drop family.header_size payload.entry.now) }
        ensures error { IfErr result (λ e. family.parse_header payload.entry.now ≡ Err e) };

    /// Decodes the attribute, or fails with its error.
    fn read(nla: &NlaBuffer<'a>) -> Result<Self::Nla, DecodeError>
        ensures { map_ok model result ≡ family.read (buffered_attribute nla.now) };

    /// Sets the fields of the attribute, unless an earlier attribute of its kind has set them.
    fn set(&mut self, nla: Self::Nla)
        ensures header { family.header self.new ≡ family.header self.old }
        ensures values { AddsParts family.rows (model nla)
            record { old = self.old; new = self.new } };

    /// Sets all fields to zeros, except for the header.
    fn clear_values(&mut self)
        ensures header { family.header self.new ≡ family.header self.old }
        ensures values { HasValues family.read family.rows self.new [] };
}

/// Stores the contents of the reply in the details, and zeros in the fields of later versions.
/// Returns 0, or the code of the first error; then nothing is stored.
pub(crate) fn store_details<'a, T: ReplyDetails<'a>>(
    payload: &'a [u8],
    details: &mut T,
    later: &mut [u8],
) -> u32
    ensures { StoresDetails T.family payload.entry.now record {
      old = (details.old, later.old);
      new = (details.new, later.new);
      returned = result;
    } }
{
    match fill_details(payload, details) {
        Ok(()) => {
            copy_padded(&[], later);
            OK
        }
        Err(error) => u32::from(error.number()),
    }
}

/// Stores the contents of the reply in the details. Fails with the first error of the reply; then
/// nothing is stored.
pub(crate) fn fill_details<'a, T: ReplyDetails<'a>>(
    payload: &'a [u8],
    details: &mut T,
) -> Result<(), DecodeError>
    ensures details { IfOk result (λ done. AreDetailsOf T.family payload.entry.now details.new) }
    ensures error { IfErr result (IsFirstError T.family payload.entry.now) }
    ensures unchanged { IfErr result (λ e. details.new ≡ details.old) }
{
    let (mut found, attributes) = T::parse_header(payload)?;
    if !set_valid_values(attributes, &mut found) {
        if let Some(error) = set_values(attributes, &mut found).first {
            return Err(error);
        }
    }
    *details = found;
    Ok(())
}

/// Stores the header and the first valid value of each kind in the details, zeros in the fields of
/// later versions, and the first error of each kind in the rejections. Returns 0, or the code of
/// the error of the header; then nothing is stored.
pub(crate) fn store_lenient_details<'a, T: ReplyDetails<'a>>(
    payload: &'a [u8],
    details: &mut T,
    later: &mut [u8],
    rejections: &mut Rejections,
) -> u32
    ensures { StoresLenientDetails T.family payload.entry.now record {
      old = ((details.old, rejections.old), later.old);
      new = ((details.new, rejections.new), later.new);
      returned = result;
    } }
{
    let (found, attributes) = match T::parse_header(payload) {
        Ok(parts) => parts,
        Err(error) => return u32::from(error.number()),
    };
    copy_padded(&[], later);
    // The struct of the caller is filled in place: it is not copied.
    *details = found;
    *rejections = if set_valid_values(attributes, details) {
        Rejections::default()
    } else {
        set_values(attributes, details).rejections
    };
    OK
}

// Sets the fields of each attribute, unless they are set already, and returns `true`. Returns
// `false` if there is an error; then the details have the values of some of the attributes. The
// details have to be without values before the call, as `parse_header` returns them.
//
// Most replies have no error, and a loop that stores none takes fewer instructions. A reply with an
// error is read once more, by `set_values`.
#[inline(always)]
fn set_valid_values<'a, T: ReplyDetails<'a>>(bytes: &'a [u8], details: &mut T) -> bool
    ensures header { T.family.header details.new ≡ T.family.header details.old }
    // If the details have no values (`[]`) before the call, they have those of all attributes after
    // it, none of which has an error.
    ensures values { HasValues T.family.read T.family.rows details.old [] → IsTrue result
        → (attributes : List Attribute) × SplitsIntoAttributes bytes.entry.now attributes []
        × (first_content_of (value_error T.family) attributes ≡ None)
        × HasValues T.family.read T.family.rows details.new attributes }
{
    for item in NlasIterator::new(bytes) {
        match item {
            Ok(nla) => match T::read(&nla) {
                Ok(decoded) => details.set(decoded),
                Err(_) => return false,
            },
            Err(_) => return false,
        }
    }
    true
}

// Sets the fields of the valid attributes up to a framing error, and all other fields except the
// header to zeros. Returns the errors of the other attributes.
#[inline(never)]
fn set_values<'a, T: ReplyDetails<'a>>(bytes: &'a [u8], details: &mut T) -> Errors
    // `parts` are the header of the details, and the attributes and the framing error of the bytes.
    // The details get the values of these attributes, and the errors are theirs.
    ensures { (parts : ReplyParts T.family.Header)
        × SplitsWithError parts.attributes parts.framing_error bytes.entry.now
        × (parts.header ≡ T.family.header details.old)
        × HasHeaderAndValuesOf T.family details.new parts
        × HasRejections T.family result.rejections parts
        × (result.first ≡ first_error T.family parts) }
{
    details.clear_values();
    let mut errors = Errors::default();
    for item in NlasIterator::new(bytes) {
        match item {
            Ok(nla) => match T::read(&nla) {
                Ok(decoded) => details.set(decoded),
                Err(error) => errors.add_value(nla.kind(), error),
            },
            Err(error) => {
                errors.rejections.framing = u32::from(error.number());
                errors.add(error);
                return errors;
            }
        }
    }
    errors
}
