//! The canonical form of replies. Equivalent replies, which differ only in ignored bits, have the
//! same canonical form. In the contracts `take written.new buffer.new` are the bytes that were
//! written.

ghost use Rattle.std.specs.Prelude.{◌≡◌, take};
ghost use Rattle.netlink_core.specs.Errors.{error_code};
ghost use Rattle.sock_diag_replies.specs.InetResponseSpec.{inet_response_spec};
ghost use Rattle.sock_diag_replies.specs.UnixResponseSpec.{unix_response_spec};
ghost use Rattle.sockdiag_c.specs.Rewriting.{IsCanonicalForm, ParsesAndWrites, WritesValue};
ghost use Rattle.sockdiag_c.specs.Rewriting.{reply_conversion};

use crate::results::{NO_SPACE, OK, TOO_LONG};
use netlink_core::{DecodeError, Emitable};
use netlink_packet_sock_diag::inet::InetResponseHeader;
use netlink_packet_sock_diag::unix::UnixResponseHeader;
use netlink_packet_sock_diag::{ReplyHeader, ReplyView};

/// Writes the canonical form of a reply about a UNIX socket. The errors are `SOCKDIAG_NO_SPACE`,
/// `SOCKDIAG_TOO_LONG` if an attribute or the reply is too long to be serialized, and the first
/// error of the reply.
#[unsafe(no_mangle)]
pub extern "C" fn sockdiag_rewrite_unix_reply(
    payload: &[u8],
    buffer: &mut [u8],
    written: &mut usize,
) -> u32
    ensures rewrites { ParsesAndWrites (reply_conversion unix_response_spec payload.now) record {
      old = buffer.old;
      new = buffer.new;
      written = written.new;
      returned = result;
    } }
    ensures canonical { result ≡ 0
        → IsCanonicalForm unix_response_spec payload.now (take written.new buffer.new) }
{
    rewrite::<UnixResponseHeader>(payload, buffer, written)
}

/// Writes the canonical form of a reply about an IPv4 or IPv6 socket. The errors are those of
/// `sockdiag_rewrite_unix_reply`.
#[unsafe(no_mangle)]
pub extern "C" fn sockdiag_rewrite_inet_reply(
    payload: &[u8],
    buffer: &mut [u8],
    written: &mut usize,
) -> u32
    ensures rewrites { ParsesAndWrites (reply_conversion inet_response_spec payload.now) record {
      old = buffer.old;
      new = buffer.new;
      written = written.new;
      returned = result;
    } }
    ensures canonical { result ≡ 0
        → IsCanonicalForm inet_response_spec payload.now (take written.new buffer.new) }
{
    rewrite::<InetResponseHeader>(payload, buffer, written)
}

// Writes the canonical form of a reply, whose header has the type `H`, at the start of the buffer,
// and stores its length. Returns 0, or the code of the error.
fn rewrite<H: ReplyHeader>(payload: &[u8], buffer: &mut [u8], written: &mut usize) -> u32
    ensures rewrites { ParsesAndWrites (reply_conversion H.reply payload.now) record {
      old = buffer.old;
      new = buffer.new;
      written = written.new;
      returned = result;
    } }
    ensures canonical { result ≡ 0
        → IsCanonicalForm H.reply payload.now (take written.new buffer.new) }
{
    match ReplyView::<H>::parse(payload) {
        Ok(view) => write_value(&view, buffer, written),
        Err(error) => reject(&error, written),
    }
}

// Serializes the value to the start of the buffer, if it is writable and the buffer is long enough.
// Stores the number of bytes that the value needs, or 0 if it is not writable.
pub(crate) fn write_value<V: Emitable>(value: &V, buffer: &mut [u8], written: &mut usize) -> u32
    ensures { WritesValue (V.writable value.now) (V.bytes value.now) record {
      old = buffer.old;
      new = buffer.new;
      written = written.new;
      returned = result;
    } }
{
    *written = 0;
    let Some(len) = value.writable_len() else {
        return TOO_LONG;
    };
    *written = len;
    if buffer.len() < len {
        return NO_SPACE;
    }
    value.emit(buffer);
    OK
}

// Returns the code of the error, and stores the length 0, since nothing is written.
pub(crate) fn reject(error: &DecodeError, written: &mut usize) -> u32
    ensures code { result ≡ error_code error.now }
    ensures none { written.new ≡ 0 }
{
    *written = 0;
    u32::from(error.number())
}
