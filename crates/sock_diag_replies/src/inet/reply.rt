//! Replies about one IPv4 or IPv6 socket, owned and borrowed.

ghost use Rattle.std.specs.Prelude.{refl};
ghost use Rattle.netlink_core.proofs.Responses.{reply_codec_laws};
ghost use Rattle.sock_diag_replies.specs.InetResponseSpec.{inet_response_spec};
ghost use Rattle.sock_diag_replies.specs.laws.InetResponseSpec.{inet_header_bytes_suffice};
ghost use Rattle.sock_diag_replies.specs.laws.InetResponseSpec.{inet_header_equal};
ghost use Rattle.sock_diag_replies.specs.laws.InetResponseSpec.{inet_response_laws};
ghost use Rattle.sock_diag_replies.specs.laws.InetResponseSpec.{inet_test, inet_test_decides};

use crate::inet::nlas::{Nla, NlaView};
use crate::inet::{INET_RESPONSE_HEADER_LEN, InetResponseHeader};
use crate::reply::{check_reply_len, emit_reply_view, reply_view_len, same_views};
use crate::response::{Reply, ReplyOwned};
use crate::view::{AttributeViews, ReplyHeader, ReplyView, ReplyViews};
use attribute_lists::check_nlas;
use netlink_core::{DecodeError, HasCodec};

/// A reply about one IPv4 or IPv6 socket: the header (`inet_diag_msg`) and the attributes, in wire
/// order.
///
/// `parse` returns `BufferTooSmall` for fewer than 72 bytes. Else it returns `UnsupportedFamily` if
/// the family is neither 2 (`AF_INET`) nor 10 (`AF_INET6`). Else it returns the first error of an
/// attribute, if there is one.
pub type InetResponse = Reply<InetResponseHeader, Nla>;

/// An iterator over the attributes of a borrowed reply about an IPv4 or IPv6 socket, in wire order.
pub type NlaViews<'a> = AttributeViews<'a, InetResponseHeader>;

/// A borrowed reply about one IPv4 or IPv6 socket: the bytes of an
/// [`InetResponse`](super::InetResponse), checked.
///
/// `parse` returns `BufferTooSmall` for fewer than 72 bytes. Else it returns `UnsupportedFamily` if
/// the family is neither `AF_INET` nor `AF_INET6`. Else it returns the first error of an attribute,
/// if there is one.
pub type InetResponseView<'a> = ReplyView<'a, InetResponseHeader>;

impl ReplyHeader for InetResponseHeader {
    const VIEW: &'static str = "InetResponseView";

    ghost reply = { inet_response_spec };

    ghost header_model = { λ header. header };

    ghost test = { inet_test };

    #[inline(always)]
    fn length() -> usize {
        INET_RESPONSE_HEADER_LEN
    }

    #[inline(always)]
    fn read_header(bytes: &[u8]) -> Result<Self, DecodeError> {
        InetResponseHeader::from_prefix(bytes)
    }

    #[inline(always)]
    fn check(bytes: &[u8]) -> Result<usize, DecodeError> {
        check_nlas::<NlaView<'_>>(bytes)
    }

    #[inline(always)]
    fn check_len(&self, bytes: &[u8]) -> Result<Option<usize>, DecodeError> {
        check_reply_len::<_, NlaView<'_>>(self, bytes)
    }

    #[inline(always)]
    fn len_with(&self, bytes: &[u8]) -> Option<usize> {
        reply_view_len::<_, NlaView<'_>>(self, bytes)
    }

    #[inline(always)]
    fn emit_with(&self, bytes: &[u8], buffer: &mut [u8]) {
        emit_reply_view::<_, NlaView<'_>>(self, bytes, buffer);
    }

    fn is_same(&self, left: &[u8], other: &Self, right: &[u8]) -> bool {
        self == other && same_views::<NlaView<'_>>(left, right)
    }

    ghost complete_header = { inet_header_bytes_suffice };

    ghost keeps = { reply_codec_laws inet_response_spec inet_response_laws };

    ghost test_decides = { inet_test_decides };
}

impl<'a> ReplyViews<'a> for InetResponseHeader {
    type View = NlaView<'a>;

    // The views have the attribute set of the replies, so both properties hold by definition.
    ghost accepts_same = { λ _. (λ h. h, λ h. h) };

    ghost counts_same = { λ _. refl };
}

impl ReplyOwned for InetResponseHeader {
    type Nla = Nla;

    const REPLY: &'static str = "InetResponse";

    ghost eq_is_model = { inet_header_equal };

    // The model of a header is the header itself, and the owned attributes have the attribute set
    // of the borrowed ones. So all properties up to `same_attributes` hold by definition.
    ghost bytes_by_codec = { λ _. refl };

    ghost always_writable = { λ _. tt };

    ghost in_range_by_codec = { λ _ in_range. in_range };

    ghost same_errors = { λ _ _ error. error };

    ghost both_accept = { λ _ valid. valid };

    ghost same_count = { λ _. refl };

    ghost same_attributes = { λ _. refl };

    ghost keeps = { reply_codec_laws inet_response_spec inet_response_laws };
}
