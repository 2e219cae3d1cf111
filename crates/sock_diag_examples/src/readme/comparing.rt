//! Comparing and rewriting borrowed replies.

ghost use Rattle.std.specs.Prelude.{◌≡◌, ◌↔◌, ◌⊎◌, ◌<◌, ◌++◌, length, drop, IsTrue, IfOk, IfErr};
ghost use Rattle.std.specs.Prelude.{MatchOption, OnOk};
ghost use Rattle.netlink_core.specs.Response.{ReplyValue, response_bytes, response_codec};
ghost use Rattle.sock_diag_replies.specs.UnixResponseSpec.{unix_response_spec};
ghost use Rattle.sock_diag_examples.specs.Readme.{IsUnixReply};

use netlink_core::{DecodeError, Emitable};
use netlink_packet_sock_diag::unix::UnixResponseView;

/// Returns whether two replies about UNIX sockets have the same header and the same attributes in
/// the same order, except for ignored bits such as padding. Returns the decode error of the first
/// reply if it is invalid, or else the error of the second.
pub fn are_same_reply(one: &[u8], other: &[u8]) -> Result<bool, DecodeError>
    ensures value { IfOk result (λ same.
        IsTrue same ↔ (response_codec unix_response_spec).equivalent tt one.now
        other.now) }
    ensures accepted { OnOk result (IsUnixReply one.now × IsUnixReply other.now) }
    ensures error { IfErr result (λ e. (response_codec unix_response_spec).rejects one.now tt e
        ⊎ (IsUnixReply one.now × (response_codec unix_response_spec).rejects other.now tt e)) }
{
    Ok(UnixResponseView::parse(one)? == UnixResponseView::parse(other)?)
}

/// Serializes the canonical form of a reply about a UNIX socket at the start of a buffer, and
/// returns its number of bytes. The bytes of the buffer after it are unchanged. Returns `None` if
/// the reply is not writable or the buffer is too short; the buffer is unchanged. Returns the first
/// decode error if the reply is invalid.
pub fn rewrite(bytes: &[u8], buffer: &mut [u8]) -> Result<Option<usize>, DecodeError>
    // `v`: the value that the reply parses as, and `response_bytes .. v` its canonical form. If the
    // result is `None`, the buffer is unchanged, and it is too short if `v` is writable. If it is
    // `Some(count)`, `v` is writable and has `count` bytes, which the buffer starts with.
    ensures value { IfOk result (λ written. (v : ReplyValue unix_response_spec)
        × (response_codec unix_response_spec).parses bytes.now tt v
        × MatchOption written
        ((buffer.new ≡ buffer.old)
        × ((response_codec unix_response_spec).is_writable v
        → length buffer.old < length (response_bytes unix_response_spec v)))
        (λ count. (buffer.new ≡ response_bytes unix_response_spec v ++ drop count buffer.old)
        × (response_codec unix_response_spec).is_writable v
        × (count ≡ length (response_bytes unix_response_spec v)))) }
    ensures error { IfErr result ((response_codec unix_response_spec).rejects bytes.now tt) }
{
    let reply = UnixResponseView::parse(bytes)?;
    if !reply.is_writable() || reply.buffer_len() > buffer.len() {
        return Ok(None);
    }
    reply.emit(buffer);
    Ok(Some(reply.buffer_len()))
}
