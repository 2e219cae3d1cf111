//! Owned replies of any family.
//!
//! In the contracts `H.reply` is the format of the replies with the header `H`, and
//! `with_attribute_set H.reply set` is this format with the set of the owned attributes, `H.Nla`.
//! `response_model H.header_model H.Nla.FamilyNla.model reply` is the model of a reply: the models
//! of its header and of its attributes.

ghost use Rattle.std.specs.Prelude.{◌≡◌, ◌≤◌, ◌↔◌, ℕ, List, [], length, map, IfOk, IsOk, OnOk};
ghost use Rattle.std.specs.Prelude.{IsTrue, true, refl};
ghost use Rattle.std.specs.List.{AllByRecursion};
ghost use Rattle.netlink_core.specs.Attribute.{HasAttributeError};
ghost use Rattle.netlink_core.specs.Codec.{KeepsCodecLaws};
ghost use Rattle.netlink_core.specs.declared.error.DecodeError.{DecodeError};
ghost use Rattle.netlink_core.specs.AttributeSet.{decode_attribute, encode_attribute};
ghost use Rattle.netlink_core.specs.AttributeSet.{NeedsNoMemoryIn};
ghost use Rattle.netlink_core.specs.Response.{response_bytes, response_codec};
ghost use Rattle.attribute_lists.specs.AttributesIn.{HasNoAttributeError, reply_after, decoded_in};
ghost use Rattle.sock_diag_replies.specs.ReplyFormat.{with_attribute_set};

use crate::reply::{emit_reply, fitting_reply_len, memory_error_after_dropping, reply_len};
use crate::view::{ReplyHeader, ReplyView};
use attribute_lists::{copy_nlas, own_nlas};
use netlink_core::{
    CanonError, DecodeError, Emitable, Exact, FamilyNla, HasCodec, Parseable, Readable, Wire,
};
use smallvec::SmallVec;
use std::alloc::{AllocError, Global};
use std::fmt::{self, Debug, Formatter};

/// A reply: the header, and the attributes in wire order.
#[derive(Drop, PartialEq, Eq)]
pub struct Reply<H, N> {
    /// The header, which identifies and describes the socket.
    pub header: H,
    /// The attributes. Up to eight are stored inline.
    pub nlas: SmallVec<N, 8>,
}

/// A header whose replies have an owned form.
pub trait ReplyOwned: ReplyHeader + Exact + Emitable {
    /// An owned attribute.
    type Nla: FamilyNla;

    /// The name of the owned reply, as `Debug` prints it.
    const REPLY: &'static str;

    ghost eq_is_model: { (v w : Self) → IsTrue (Self.PartialEq.eq v w)
        ↔ (Self.ReplyHeader.header_model v ≡ Self.ReplyHeader.header_model w) };

    ghost bytes_by_codec: { (header : Self) → Self.Emitable.bytes header
        ≡ Self.ReplyHeader.reply.header.bytes (Self.ReplyHeader.header_model header) };

    ghost always_writable: { (header : Self) → Self.Emitable.writable header };

    ghost in_range_by_codec: { (header : Self) → Self.Emitable.in_range header
        → Self.ReplyHeader.reply.header.is_in_range (Self.ReplyHeader.header_model header) };

    // The next four members relate the attribute set of the borrowed attributes (`view_set`) to
    // that of the owned attributes (`set`).
    ghost same_errors: { let set = Self.Nla.FamilyNla.attribute_set in
        let view_set = Self.ReplyHeader.reply.attribute_set in
        (bytes : List ℕ) (error : DecodeError)
        → HasAttributeError (decode_attribute view_set) bytes error
        → HasAttributeError (decode_attribute set) bytes error };

    ghost both_accept: { let set = Self.Nla.FamilyNla.attribute_set in
        let view_set = Self.ReplyHeader.reply.attribute_set in
        (bytes : List ℕ) → HasNoAttributeError (decode_attribute view_set) bytes
        → HasNoAttributeError (decode_attribute set) bytes };

    ghost same_count: { let set = Self.Nla.FamilyNla.attribute_set in
        let view_set = Self.ReplyHeader.reply.attribute_set in
        (bytes : List ℕ) → length (decoded_in (decode_attribute view_set) bytes)
        ≡ length (decoded_in (decode_attribute set) bytes) };

    // The values that both find in any bytes serialize to the same attributes.
    ghost same_attributes: { let set = Self.Nla.FamilyNla.attribute_set in
        let view_set = Self.ReplyHeader.reply.attribute_set in
        (bytes : List ℕ)
        → map (encode_attribute view_set) (decoded_in (decode_attribute view_set) bytes)
        ≡ map (encode_attribute set) (decoded_in (decode_attribute set) bytes) };

    ghost keeps: { KeepsCodecLaws (response_codec
        (with_attribute_set Self.ReplyHeader.reply Self.Nla.FamilyNla.attribute_set)) };
}

impl<H: ReplyOwned + Debug, N: Debug> Debug for Reply<H, N> {
    fn fmt<W: fmt::Write>(&self, f: &mut Formatter<W>) -> fmt::Result {
        f.debug_struct(H::REPLY)
            .field("header", &self.header)
            .field("nlas", &self.nlas)
            .finish()
    }
}

impl<H: ReplyOwned> Reply<H, H::Nla> {
    ghost use Rattle.sock_diag_replies.specs.ResponseModel.{response_model};

    /// Returns an equal reply. Fails only if an allocation fails. Cloning a reply of at most eight
    /// attributes that need no memory never fails. A raw attribute counts as one that needs memory.
    pub fn clone(&self, alloc: Global) -> Result<Self, AllocError>
        ensures equal { IfOk result (λ copy.
            response_model H.header_model H.Nla.FamilyNla.model copy
            ≡ response_model H.header_model H.Nla.FamilyNla.model self.now) }
        ensures needs_no_memory { let set = H.Nla.FamilyNla.attribute_set in
            let format = with_attribute_set H.reply set in
            (response_codec format).needs_no_memory
            (response_model H.header_model H.Nla.FamilyNla.model self.now) → IsOk result }
    {
        let nlas = copy_nlas(alloc, self.nlas.as_slice())?;
        Ok(Reply {
            header: self.header.clone()?,
            nlas,
        })
    }
}

impl<H, N> Readable for Reply<H, N> {
    const TAKES_MEMORY: bool = true;

    ghost TAKES_MEMORY = { true };
}

/// Parses the reply in the bytes, owned, or returns the first error. It is a macro because a
/// function would move the reply, of 2,000 bytes, once more.
macro_rules! read_reply {
    ($alloc:expr, $bytes:expr) => {{
        let view = ReplyView::<H>::parse($bytes)?;
        // The branches differ only in speed. A list that is not passed by reference is moved once
        // less. So an empty list has a branch of its own. It has none in a family with a large
        // kind, since there this branch would move the lists that have attributes once more.
        let nlas = match H::Nla::LARGE_KIND {
            None if view.is_empty() => SmallVec::new($alloc),
            _ => {
                let mut nlas = SmallVec::new($alloc);
                if view.own_into($alloc, &mut nlas).is_err() {
                    return Err(memory_error_after_dropping(nlas));
                }
                nlas
            }
        };
        Ok(Reply {
            header: view.header(),
            nlas,
        })
    }};
}

impl<'a, H: ReplyOwned> Parseable<&'a [u8]> for Reply<H, H::Nla> {
    /// Parses the header, and then the attributes up to the end of the bytes. Returns the error of
    /// the header, or else the first error of an attribute. Returns `Memory` if an allocation
    /// fails.
    #[inline(always)]
    fn parse(alloc: Global, payload: &'a [u8]) -> Result<Self, DecodeError> {
        read_reply!(alloc, payload)
    }
}

impl<H: ReplyOwned> ReplyView<'_, H> {
    ghost use Rattle.sock_diag_replies.specs.ResponseModel.{response_model};
    ghost use Rattle.sock_diag_replies.specs.ViewModel.{bytes_after_header, view_model};

    // Returns whether there is no attribute.
    #[inline(always)]
    fn is_empty(&self) -> bool
        // Only this direction, since callers need no other.
        ensures { IsTrue result → decoded_in (decode_attribute H.Nla.FamilyNla.attribute_set)
            (bytes_after_header self.now) ≡ [] }
    {
        self.count() == 0
    }

    // Appends the owned attributes to the empty list `nlas`. A caller passes the list that the
    // reply keeps, so that the attributes are not moved afterwards. Never fails if the list has
    // room for eight, and there are at most eight attributes, none of which needs memory.
    fn own_into(&self, alloc: Global, nlas: &mut SmallVec<H::Nla, 8>) -> Result<(), AllocError>
        requires { nlas.old.items ≡ [] }
        ensures equal { OnOk result (map H.Nla.FamilyNla.model nlas.new.items
            ≡ decoded_in (decode_attribute H.Nla.FamilyNla.attribute_set)
            (bytes_after_header self.now)) }
        ensures needs_no_memory { let set = H.Nla.FamilyNla.attribute_set in
            let values = decoded_in (decode_attribute set) (bytes_after_header self.now) in
            nlas.old.capacity ≡ 8
            → (length values ≤ 8) × AllByRecursion (NeedsNoMemoryIn set) values
            → IsOk result }
    {
        if self.is_empty() {
            return Ok(());
        }
        own_nlas(alloc, self.attribute_bytes(), self.count(), nlas)
    }

    /// Returns the owned reply: the header, and each attribute after it, in order, as an owned
    /// attribute. Fails only if an allocation fails. Never fails for at most eight attributes that
    /// need no memory. A raw attribute counts as one that needs memory.
    pub fn to_owned(&self, alloc: Global) -> Result<Reply<H, H::Nla>, AllocError>
        ensures equal { let format = with_attribute_set H.reply H.Nla.FamilyNla.attribute_set in
            IfOk result (λ reply. response_model H.header_model H.Nla.FamilyNla.model reply
            ≡ reply_after format (view_model self.now).header (bytes_after_header self.now)) }
        ensures needs_no_memory { let set = H.Nla.FamilyNla.attribute_set in
            let format = with_attribute_set H.reply set in
            (response_codec format).needs_no_memory
            (reply_after format (view_model self.now).header (bytes_after_header self.now))
            → IsOk result }
    {
        let mut nlas = SmallVec::new(alloc);
        self.own_into(alloc, &mut nlas)?;
        Ok(Reply {
            header: self.header(),
            nlas,
        })
    }

    /// Returns the owned reply in a box: the header, and each attribute after it, in order, as an
    /// owned attribute. Fails only if an allocation fails. The attributes are built in the box, and
    /// not moved there.
    #[inline(always)]
    pub fn to_boxed(&self, alloc: Global) -> Result<Box<Reply<H, H::Nla>>, AllocError>
        // `reply.value`: the reply in the box.
        ensures { let format = with_attribute_set H.reply H.Nla.FamilyNla.attribute_set in
            IfOk result (λ reply. response_model H.header_model H.Nla.FamilyNla.model reply.value
            ≡ reply_after format (view_model self.now).header (bytes_after_header self.now)) }
    {
        let empty = Reply {
            header: self.header(),
            nlas: SmallVec::new(alloc),
        };
        let mut boxed = Box::new(alloc, empty)?;
        self.own_into(alloc, &mut boxed.nlas)?;
        Ok(boxed)
    }
}

impl<H: ReplyOwned> Emitable for Reply<H, H::Nla> {
    ghost use Rattle.sock_diag_replies.specs.ResponseModel.{response_model};

    ghost bytes = { λ v. response_bytes
        (with_attribute_set H.reply H.Nla.FamilyNla.attribute_set)
        (response_model H.header_model H.Nla.FamilyNla.model v) };

    ghost writable = { λ v. (response_codec
        (with_attribute_set H.reply H.Nla.FamilyNla.attribute_set)).is_writable
        (response_model H.header_model H.Nla.FamilyNla.model v) };

    ghost in_range = { λ v. (response_codec
        (with_attribute_set H.reply H.Nla.FamilyNla.attribute_set)).is_in_range
        (response_model H.header_model H.Nla.FamilyNla.model v) };

    fn is_writable(&self) -> bool {
        self.writable_len().is_some()
    }

    fn buffer_len(&self) -> usize {
        fitting_reply_len(&self.header, self.nlas.as_slice())
    }

    fn writable_len(&self) -> Option<usize> {
        reply_len(&self.header, self.nlas.as_slice())
    }

    fn emit(&self, buffer: &mut [u8]) {
        emit_reply(&self.header, self.nlas.as_slice(), buffer);
    }
}

impl<H: ReplyOwned> HasCodec for Reply<H, H::Nla> {
    ghost use Rattle.sock_diag_replies.specs.laws.EqualResponse.{responses_equal};
    ghost use Rattle.sock_diag_replies.specs.ResponseModel.{response_model};

    type Param = ();

    ghost codec = { response_codec
        (with_attribute_set H.reply H.Nla.FamilyNla.attribute_set) };

    ghost model = { response_model H.header_model H.Nla.FamilyNla.model };

    // A reply is not a message.
    ghost serialized_type = { λ _. 0 };

    ghost eq_is_model = { responses_equal H.header_model H.Nla.FamilyNla.model
        H.ReplyOwned.eq_is_model
        H.Nla.FamilyNla.eq_is_model };

    ghost laws = { H.ReplyOwned.keeps };
}

impl<H: ReplyOwned> Wire for Reply<H, H::Nla> {
    fn read(alloc: Global, bytes: &[u8], _param: ()) -> Result<Self, DecodeError> {
        read_reply!(alloc, bytes)
    }

    // Serializes the borrowed attributes. Building an owned reply first could fail with `Memory`
    // for a reply that is not writable.
    fn rewrite(alloc: Global, bytes: &[u8], _param: ()) -> Result<Vec<u8>, CanonError> {
        let header = match H::read_header(bytes) {
            Ok(header) => header,
            Err(error) => return Err(CanonError::Refused(error)),
        };
        let attributes = &bytes[H::length()..];
        let len = match header.check_len(attributes) {
            Ok(Some(len)) => len,
            Ok(None) => return Err(CanonError::Unwritable),
            Err(error) => return Err(CanonError::Refused(error)),
        };
        Ok(write_reply(alloc, &header, attributes, len)?)
    }

    ghost bytes_by_codec = { λ _. refl };

    ghost writable_by_codec = { λ _. (λ h. h, λ h. h) };

    ghost in_range_by_codec = { λ _ h. h };
}

// Returns the canonical form of the header and the attributes after it, in `bytes`. `len` must be
// its length. The attributes must have no error, and the reply must be writable.
fn write_reply<H: ReplyHeader>(
    alloc: Global,
    header: &H,
    bytes: &[u8],
    len: usize,
) -> Result<Vec<u8>, AllocError>
    requires clean { HasNoAttributeError (decode_attribute H.reply.attribute_set) bytes.now }
    requires fits { (response_codec H.reply).is_writable
        (reply_after H.reply (H.header_model header.now) bytes.now) }
    requires len { len ≡ length (response_bytes H.reply
        (reply_after H.reply (H.header_model header.now) bytes.now)) }
    ensures { IfOk result (λ form. form.items ≡ response_bytes H.reply
        (reply_after H.reply (H.header_model header.now) bytes.now)) }
{
    let mut form = vec![in alloc; 0; len]?;
    header.emit_with(bytes, &mut form);
    Ok(form)
}
