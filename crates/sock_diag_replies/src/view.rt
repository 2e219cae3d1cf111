//! Borrowed replies of any family.
//!
//! In the contracts `reply`, or `H.reply`, is the format of the replies with the header `H`.
//! `response_codec reply` is the codec of these replies, and `reply_after reply header bytes` the
//! reply with this header and the attributes in these bytes, decoded.

ghost use Rattle.std.specs.Prelude.{◌≡◌, ◌≢◌, ◌≤◌, ◌↔◌, ⊤, ℕ, List, Bool, length, drop, map, Ok};
ghost use Rattle.std.specs.Prelude.{Err, OnOk, IfOk, IfErr, IsTrue, Some, IfSome, SomeIff};
ghost use Rattle.std.specs.Cmp.{partial_equiv_from_equiv};
ghost use Rattle.std.specs.Iterator.{Drains, UpTo, YieldsFirstBy, YieldsThen, at_most};
ghost use Rattle.std.specs.Iterator.SizeHint.{IsWithinCount};
ghost use Rattle.netlink_core.specs.Bytes.{HoldsAtStart, IsBytes};
ghost use Rattle.netlink_core.specs.declared.error.DecodeError.{DecodeError};
ghost use Rattle.netlink_core.specs.declared.error.DecodeError.TheVariants.{Memory};
ghost use Rattle.netlink_core.specs.Attribute.{HasAttributeError};
ghost use Rattle.netlink_core.specs.Codec.{KeepsCodecLaws};
ghost use Rattle.netlink_core.specs.AttributeSet.{decode_attribute};
ghost use Rattle.netlink_core.specs.Response.{ResponseSpec, ReplyValue, response_bytes};
ghost use Rattle.netlink_core.specs.Response.{response_codec};
ghost use Rattle.netlink_core.specs.Walk.{unread_bytes};
ghost use Rattle.netlink_core.specs.laws.Equality.{equivalence};
ghost use Rattle.attribute_lists.specs.AttributesIn.{HasNoAttributeError, reply_after, decoded_in};
ghost use Rattle.sock_diag_replies.specs.ReplyFormat.{with_attribute_set};
ghost use Rattle.sock_diag_replies.specs.laws.OneValue.{result_has_one_value};

use attribute_lists::{CheckedNlas, next_view};
use netlink_core::{DecodeError, Emitable, FamilyView, NlasIterator};
use std::alloc::AllocError;
use std::fmt::{self, Debug, Formatter};
use std::marker::PhantomData;

/// The header of the replies of one family.
pub trait ReplyHeader: Drop + Sized {
    /// The name of the borrowed reply, as `Debug` prints it.
    const VIEW: &'static str;

    // `reply`: the format of the replies, as the codec of the header, its size, and the set of the
    // attributes after it. `header_model`: the model of a header. `test`: the comparison of two
    // replies, which is true if and only if they are equal (`test_decides`, below).
    ghost reply: { ResponseSpec };

    ghost header_model: { Self → reply.header.Value };

    ghost test: { ReplyValue reply → ReplyValue reply → Bool };

    /// Returns the length of the header in bytes.
    fn length() -> usize
        ensures { result ≡ reply.size };

    /// Parses the header at the start of `bytes`, or returns its error.
    fn read_header(bytes: &[u8]) -> Result<Self, DecodeError>
        ensures value { IfOk result (λ header.
            reply.header.parses tt bytes.now ≡ Ok (header_model header)) }
        ensures error { IfErr result (λ error. reply.header.parses tt bytes.now ≡ Err error) };

    /// Checks each attribute in `bytes`, the bytes after a header, and returns their number, or
    /// returns the first error. Does not allocate.
    fn check(bytes: &[u8]) -> Result<usize, DecodeError>
        ensures clean { OnOk result (HasNoAttributeError (decode_attribute reply.attribute_set)
            bytes.now) }
        ensures count { IfOk result (λ count.
            count ≡ length (decoded_in (decode_attribute reply.attribute_set) bytes.now)) }
        ensures error { IfErr result (HasAttributeError (decode_attribute reply.attribute_set)
            bytes.now) };

    /// Checks each attribute in `bytes`, the bytes after this header, or returns the first error.
    /// Returns the length that the header and the attributes have in canonical form, or `None` if
    /// the value of an attribute then has more than 65,531 bytes, or if the whole has more than
    /// 4,294,967,295 bytes. Does not allocate.
    fn check_len(&self, bytes: &[u8]) -> Result<Option<usize>, DecodeError>
        ensures clean { OnOk result (HasNoAttributeError (decode_attribute reply.attribute_set)
            bytes.now) }
        ensures len { let v = reply_after reply (header_model self.now) bytes.now in
            IfOk result (λ len. SomeIff len ((response_codec reply).is_writable v)
            (length (response_bytes reply v))) }
        ensures error { IfErr result (HasAttributeError (decode_attribute reply.attribute_set)
            bytes.now) };

    /// Returns whether the headers are equal, and the bytes after them, `left` and `right`, contain
    /// equal attributes in the same order. Neither may contain a decode error.
    fn is_same(&self, left: &[u8], other: &Self, right: &[u8]) -> bool
        requires left { HasNoAttributeError (decode_attribute reply.attribute_set) left.now }
        requires right { HasNoAttributeError (decode_attribute reply.attribute_set) right.now }
        ensures { result ≡ test
            (reply_after reply (header_model self.now) left.now)
            (reply_after reply (header_model other.now) right.now) };

    /// Returns the length that the header and the attributes in `bytes` have in canonical form.
    /// Returns `None` if the reply is not writable. `bytes` must not contain a decode error.
    fn len_with(&self, bytes: &[u8]) -> Option<usize>
        requires { HasNoAttributeError (decode_attribute reply.attribute_set) bytes.now }
        ensures { let v = reply_after reply (header_model self.now) bytes.now in
            SomeIff result ((response_codec reply).is_writable v)
            (length (response_bytes reply v)) };

    /// Writes the header and the attributes in `bytes`, in canonical form, at the start of
    /// `buffer`. The bytes after them are unchanged. `bytes` must not contain a decode error, the
    /// reply must be writable, and the buffer must have at least its length.
    fn emit_with(&self, bytes: &[u8], buffer: &mut [u8])
        requires clean { HasNoAttributeError (decode_attribute reply.attribute_set) bytes.now }
        requires fits { (response_codec reply).is_writable
            (reply_after reply (header_model self.now) bytes.now) }
        requires room { length (response_bytes reply
            (reply_after reply (header_model self.now) bytes.now))
            ≤ length buffer.old }
        ensures { HoldsAtStart (response_bytes reply (reply_after reply
            (header_model self.now) bytes.now)) buffer.old buffer.new };

    // Bytes with a valid header have at least `size` bytes.
    ghost complete_header: { (bytes : List ℕ) (header : reply.header.Value)
        → reply.header.parses tt bytes ≡ Ok header → reply.size ≤ length bytes };

    ghost keeps: { KeepsCodecLaws (response_codec reply) };

    ghost test_decides: { (v w : ReplyValue reply) → IsTrue (test v w) ↔ (v ≡ w) };
}

/// A header whose replies have a borrowed form.
pub trait ReplyViews<'a>: ReplyHeader {
    /// A borrowed attribute.
    type View: FamilyView<'a> + Drop;

    // The attribute set of the views accepts the same bytes as the reply's attribute set.
    ghost accepts_same: { let view_set = Self.View.FamilyView.attribute_set in
        let set = Self.ReplyHeader.reply.attribute_set in
        (bytes : List ℕ) → HasNoAttributeError (decode_attribute view_set) bytes
        ↔ HasNoAttributeError (decode_attribute set) bytes };

    // The two sets have the same number of values in any bytes.
    ghost counts_same: { let view_set = Self.View.FamilyView.attribute_set in
        let set = Self.ReplyHeader.reply.attribute_set in
        (bytes : List ℕ) → length (decoded_in (decode_attribute view_set) bytes)
        ≡ length (decoded_in (decode_attribute set) bytes) };
}

/// A borrowed reply: bytes that have been checked completely.
pub struct ReplyView<'a, H: ReplyHeader> {
    bytes: &'a [u8],
    // The number of attributes.
    count: usize,
    header: PhantomData<H>,
    ghost long: { H.reply.size ≤ length bytes.now },
    // The model of the header at the start of the bytes, and that they parse as it. `by`: there is
    // at most one such model.
    ghost head: { (h : H.reply.header.Value)
        × (H.reply.header.parses tt bytes.now ≡ Ok h) } by { result_has_one_value
            (H.reply.header.parses tt bytes.now) },
    ghost clean: { HasNoAttributeError (decode_attribute H.reply.attribute_set)
        (drop H.reply.size bytes.now) },
    ghost counted: { count
        ≡ length (decoded_in (decode_attribute H.reply.attribute_set)
        (drop H.reply.size bytes.now)) },
}

impl<H: ReplyHeader> Copy for ReplyView<'_, H> {}

impl<H: ReplyHeader> Clone for ReplyView<'_, H> {
    ghost is_clone = { λ view copy. copy ≡ view };

    ghost is_infallible = { λ _. ⊤ };

    fn clone(&self) -> Result<Self, AllocError> {
        Ok(*self)
    }
}

impl<H: ReplyHeader> Debug for ReplyView<'_, H> {
    fn fmt<W: fmt::Write>(&self, f: &mut Formatter<W>) -> fmt::Result {
        f.debug_struct(H::VIEW)
            .field("bytes", &self.bytes)
            .field("count", &self.count)
            .finish()
    }
}

impl<'a, H: ReplyHeader> ReplyView<'a, H> {
    ghost use Rattle.sock_diag_replies.specs.ViewModel.{bytes_after_header};
    ghost use Rattle.sock_diag_replies.specs.ViewModel.{view_bytes, view_model};

    /// Checks all of the bytes, and returns a view of all of them. Returns the error of the header,
    /// which is `BufferTooSmall` if it is truncated, or else the first error of an attribute. The
    /// error is never `Memory`. Does not allocate.
    #[inline(always)]
    pub fn parse(bytes: &'a [u8]) -> Result<ReplyView<'a, H>, DecodeError>
        ensures in_range { IsBytes bytes.entry.now }
        ensures value { IfOk result (λ view.
            (response_codec H.reply).parses bytes.entry.now tt (view_model view)) }
        ensures kept { IfOk result (λ view. view_bytes view ≡ bytes.entry.now) }
        ensures error { IfErr result ((response_codec H.reply).rejects bytes.entry.now tt) }
        ensures not_memory { IfErr result (λ error. error ≢ Memory) }
    {
        // The header is only checked here. `header` parses it again.
        let _header = H::read_header(bytes)?;
        let count = H::check(&bytes[H::length()..])?;
        Ok(ReplyView {
            bytes,
            count,
            header: PhantomData,
        })
    }

    // Returns the number of attributes.
    #[inline(always)]
    pub(crate) fn count(&self) -> usize
        ensures { result ≡ length (view_model self.now).nlas }
    {
        self.count
    }

    /// Returns the header, which identifies and describes the socket.
    #[inline(always)]
    pub fn header(&self) -> H
        ensures { H.header_model result ≡ (view_model self.now).header }
    {
        // `parse` has accepted these bytes, so the header is valid.
        let Ok(header) = H::read_header(self.bytes) else {
            unreachable!();
        };
        header
    }

    // Returns the bytes after the header.
    pub(crate) fn attribute_bytes(&self) -> &'a [u8]
        ensures after_header { result.now ≡ bytes_after_header self.now }
        // These bytes have no error, because the view was checked.
        ensures clean { HasNoAttributeError (decode_attribute H.reply.attribute_set) result.now }
    {
        &self.bytes[H::length()..]
    }
}

impl<'a, H: ReplyViews<'a>> ReplyView<'a, H> {
    ghost use Rattle.sock_diag_replies.specs.ViewModel.{unread_attributes, bytes_after_header};
    ghost use Rattle.attribute_lists.specs.CheckedModel.{unchecked_bytes};
    ghost use Rattle.attribute_lists.specs.declared.checked.CheckedNlas.{CheckedNlas};

    /// Parses the header, and returns it with an iterator that checks each attribute when it yields
    /// it. This suits a caller that needs each attribute once. Returns the error of the header. The
    /// iterator yields the error of an attribute. Does not allocate.
    ///
    /// The bytes are a valid reply if the iterator ends without an error. If it yields an error,
    /// [`ReplyView::parse`] rejects the bytes with the same error.
    #[inline(always)]
    pub fn walk(bytes: &'a [u8]) -> Result<(H, CheckedNlas<'a, H::View>), DecodeError>
        // `found.0` is the header, `found.1` the iterator.
        ensures header { IfOk result (λ found.
            H.reply.header.parses tt bytes.entry.now ≡ Ok (H.header_model found.0)) }
        ensures left { IfOk result (λ found.
            unchecked_bytes found.1 ≡ drop H.reply.size bytes.entry.now) }
        // `reply`: the codec of these replies, with the attributes as `H::View` decodes them. If
        // the iterator yields exactly the attributes `nlas`, without an error, and then `None`, the
        // bytes parse as the header and these attributes.
        ensures value { let reply = response_codec
            (with_attribute_set H.reply H.View.FamilyView.attribute_set) in
            let gives = ⟦<CheckedNlas<'a, H::View> as Iterator>⟧.next_gives in
            IfOk result (λ found. (nlas : List H.View)
            → Drains gives found.1 (map (λ (nla : H.View). Ok nla) nlas)
            → reply.parses bytes.entry.now tt (record {
              header = H.header_model found.0;
              nlas = map H.View.FamilyView.model nlas;
            })) }
        // If the iterator yields the attributes `nlas`, and then the error `e`, the bytes are
        // rejected with `e`.
        ensures refused { let reply = response_codec
            (with_attribute_set H.reply H.View.FamilyView.attribute_set) in
            let gives = ⟦<CheckedNlas<'a, H::View> as Iterator>⟧.next_gives in
            IfOk result (λ found. (nlas : List H.View) (e : DecodeError) (last : CheckedNlas H.View)
            → YieldsThen gives found.1 (map (λ (nla : H.View). Ok nla) nlas) (Some (Err e)) last
            → reply.rejects bytes.entry.now tt e) }
        ensures error { IfErr result (λ error.
            H.reply.header.parses tt bytes.entry.now ≡ Err error) }
    {
        let header = H::read_header(bytes)?;
        Ok((header, CheckedNlas::new(&bytes[H::length()..])))
    }

    /// Returns an iterator over the attributes, in wire order.
    pub fn attributes(&self) -> AttributeViews<'a, H>
        ensures { unread_attributes result ≡ bytes_after_header self.now }
    {
        AttributeViews {
            walk: NlasIterator::new(self.attribute_bytes()),
            count: self.count,
            header: PhantomData,
        }
    }
}

/// Two replies are equal if and only if their headers are equal and they have equal attributes in
/// the same order.
impl<H: ReplyHeader> PartialEq for ReplyView<'_, H> {
    ghost use Rattle.sock_diag_replies.specs.ViewModel.{view_model};

    ghost eq = { λ v w. H.test (view_model v) (view_model w) };

    // `==` is an equivalence, since it compares the models (`test_decides`).
    ghost laws = { partial_equiv_from_equiv
        (equivalence _ view_model (λ v w. H.test_decides _ _)) };

    fn eq(&self, other: &Self) -> bool {
        self.header().is_same(
            self.attribute_bytes(),
            &other.header(),
            other.attribute_bytes(),
        )
    }
}

impl<H: ReplyHeader> Eq for ReplyView<'_, H> {
    ghost use Rattle.sock_diag_replies.specs.ViewModel.{view_model};

    ghost laws = { equivalence _ view_model (λ v w. H.test_decides _ _) };
}

/// Serializes to the canonical form of the reply. Does not allocate.
impl<H: ReplyHeader> Emitable for ReplyView<'_, H> {
    ghost use Rattle.sock_diag_replies.specs.ViewModel.{view_model};

    ghost bytes = { λ v. response_bytes H.reply (view_model v) };

    ghost writable = { λ v. (response_codec H.reply).is_writable (view_model v) };

    fn is_writable(&self) -> bool {
        self.writable_len().is_some()
    }

    fn buffer_len(&self) -> usize {
        // The caller has to ensure that the reply is writable.
        let Some(len) = self.writable_len() else {
            unreachable!();
        };
        len
    }

    fn writable_len(&self) -> Option<usize> {
        self.header().len_with(self.attribute_bytes())
    }

    fn emit(&self, buffer: &mut [u8]) {
        self.header().emit_with(self.attribute_bytes(), buffer);
    }
}

/// An iterator over the attributes of a borrowed reply, in wire order.
#[derive(Drop)]
pub struct AttributeViews<'a, H: ReplyHeader> {
    walk: NlasIterator<'a>,
    // The number of attributes that were not yielded yet.
    count: usize,
    header: PhantomData<H>,
    ghost clean: { HasNoAttributeError (decode_attribute H.reply.attribute_set)
        (unread_bytes walk) },
    ghost counted: { count ≡ length
        (decoded_in (decode_attribute H.reply.attribute_set) (unread_bytes walk)) },
}

impl<H: ReplyHeader> Clone for AttributeViews<'_, H> {
    ghost use Rattle.sock_diag_replies.specs.ViewModel.{unread_attributes};

    // A clone has the same attributes left.
    ghost is_clone = { λ views copy. decoded_in (decode_attribute H.reply.attribute_set)
        (unread_attributes copy)
        ≡ decoded_in (decode_attribute H.reply.attribute_set) (unread_attributes views) };

    ghost is_infallible = { λ _. ⊤ };

    fn clone(&self) -> Result<Self, AllocError> {
        Ok(AttributeViews {
            walk: self.walk.clone()?,
            count: self.count,
            header: PhantomData,
        })
    }
}

impl<'a, H: ReplyViews<'a>> Iterator for AttributeViews<'a, H> {
    ghost use Rattle.sock_diag_replies.specs.ViewModel.{unread_attributes};

    type Item = H::View;

    // A call yields the first attribute that is left, and returns `None` if and only if none is
    // left.
    ghost next_gives = { λ old given new. YieldsFirstBy H.View.FamilyView.model (λ walk.
        decoded_in (decode_attribute H.View.FamilyView.attribute_set) (unread_bytes walk)) old.walk
        given
        new.walk };

    ghost remaining = { λ views. at_most (length
        (decoded_in (decode_attribute H.View.FamilyView.attribute_set)
        (unread_attributes views))) };

    #[inline(always)]
    fn next(&mut self) -> Option<H::View> {
        let view = next_view(&mut self.walk)?;
        self.count -= 1;
        Some(view)
    }

    /// Returns the exact number of attributes that were not yielded yet.
    fn size_hint(&self) -> (usize, Option<usize>)
        ensures exact { let left = decoded_in (decode_attribute H.View.FamilyView.attribute_set)
            (unread_attributes self.now) in
            result ≡ (length left, Some (length left)) }
        // The clauses of the trait, which follow from `exact`.
        ensures lower { let left = decoded_in (decode_attribute H.View.FamilyView.attribute_set)
            (unread_attributes self.now) in
            IsWithinCount result.0 (at_most (length left)) }
        ensures upper { let left = decoded_in (decode_attribute H.View.FamilyView.attribute_set)
            (unread_attributes self.now) in
            IfSome result.1 (UpTo (at_most (length left))) }
    {
        (self.count, Some(self.count))
    }
}
