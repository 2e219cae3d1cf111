//! Replies about one UNIX socket, owned and borrowed.

ghost use Rattle.std.specs.Prelude.{refl};
ghost use Rattle.netlink_core.proofs.Responses.{reply_codec_laws};
ghost use Rattle.sock_diag_replies.specs.UnixResponseSpec.{unix_response_spec};
ghost use Rattle.sock_diag_replies.specs.laws.UnixResponseSpec.{unix_header_bytes_suffice};
ghost use Rattle.sock_diag_replies.specs.laws.UnixResponseSpec.{unix_header_equal};
ghost use Rattle.sock_diag_replies.specs.laws.UnixResponseSpec.{unix_response_laws};
ghost use Rattle.sock_diag_replies.specs.laws.UnixResponseSpec.{unix_test, unix_test_decides};

use crate::reply::{check_reply_len, emit_reply_view, reply_view_len, same_views};
use crate::response::{Reply, ReplyOwned};
use crate::unix::nlas::{Nla, NlaView};
use crate::unix::{UNIX_RESPONSE_HEADER_LEN, UnixResponseHeader};
use crate::view::{AttributeViews, ReplyHeader, ReplyView, ReplyViews};
use attribute_lists::check_nlas;
use netlink_core::{DecodeError, HasCodec};

/// A reply about one UNIX socket: the header (`unix_diag_msg`) and the attributes, in wire order.
///
/// `parse` returns `BufferTooSmall` for fewer than 16 bytes. Else it returns the first error of an
/// attribute, if there is one.
pub type UnixResponse = Reply<UnixResponseHeader, Nla>;

/// An iterator over the attributes of a borrowed reply about a UNIX socket, in wire order.
pub type NlaViews<'a> = AttributeViews<'a, UnixResponseHeader>;

/// A borrowed reply about one UNIX socket: the bytes of a [`UnixResponse`](super::UnixResponse),
/// checked.
///
/// `parse` returns `BufferTooSmall` for fewer than 16 bytes. Else it returns the first error of an
/// attribute, if there is one.
pub type UnixResponseView<'a> = ReplyView<'a, UnixResponseHeader>;

impl ReplyHeader for UnixResponseHeader {
    const VIEW: &'static str = "UnixResponseView";

    ghost reply = { unix_response_spec };

    ghost header_model = { λ header. header };

    ghost test = { unix_test };

    #[inline(always)]
    fn length() -> usize {
        UNIX_RESPONSE_HEADER_LEN
    }

    #[inline(always)]
    fn read_header(bytes: &[u8]) -> Result<Self, DecodeError> {
        UnixResponseHeader::from_prefix(bytes)
    }

    #[inline(always)]
    fn check(bytes: &[u8]) -> Result<usize, DecodeError> {
        check_nlas::<NlaView<'_>>(bytes)
    }

    #[inline(always)]
    fn check_len(&self, bytes: &[u8]) -> Result<Option<usize>, DecodeError> {
        check_reply_len::<_, NlaView<'_>>(self, bytes)
    }

    fn is_same(&self, left: &[u8], other: &Self, right: &[u8]) -> bool {
        self == other && same_views::<NlaView<'_>>(left, right)
    }

    #[inline(always)]
    fn len_with(&self, bytes: &[u8]) -> Option<usize> {
        reply_view_len::<_, NlaView<'_>>(self, bytes)
    }

    #[inline(always)]
    fn emit_with(&self, bytes: &[u8], buffer: &mut [u8]) {
        emit_reply_view::<_, NlaView<'_>>(self, bytes, buffer);
    }

    ghost complete_header = { unix_header_bytes_suffice };

    ghost keeps = { reply_codec_laws unix_response_spec unix_response_laws };

    ghost test_decides = { unix_test_decides };
}

impl<'a> ReplyViews<'a> for UnixResponseHeader {
    type View = NlaView<'a>;

    // The views have the attribute set of the replies, so both properties hold by definition.
    ghost accepts_same = { λ _. (λ h. h, λ h. h) };

    ghost counts_same = { λ _. refl };
}

impl ReplyOwned for UnixResponseHeader {
    type Nla = Nla;

    const REPLY: &'static str = "UnixResponse";

    ghost eq_is_model = { unix_header_equal };

    // The model of a header is the header itself, and the owned attributes have the attribute set
    // of the borrowed ones. So all properties up to `same_attributes` hold by definition.
    ghost bytes_by_codec = { λ _. refl };

    ghost always_writable = { λ _. tt };

    ghost in_range_by_codec = { λ _ in_range. in_range };

    ghost same_errors = { λ _ _ error. error };

    ghost both_accept = { λ _ valid. valid };

    ghost same_count = { λ _. refl };

    ghost same_attributes = { λ _. refl };

    ghost keeps = { reply_codec_laws unix_response_spec unix_response_laws };
}
