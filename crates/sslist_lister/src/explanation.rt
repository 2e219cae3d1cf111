//! What the kernel explains about an error: the request that it answers, and an extended
//! acknowledgement (netlink(7)). A function of this module that appends allocates only to grow the
//! text. If it fails, an allocation failed, and the content of the text is not specified. Each
//! `flags` is the field `nlmsg_flags` of the message. Of the request only the header is present if
//! it has `NLM_F_CAPPED`, and attributes are present only if it has `NLM_F_ACK_TLVS`.

ghost use Rattle.std.specs.Prelude.{◌≡◌, ◌++◌, OnOk, flat_map, option_map};
ghost use Rattle.sslist_lister.specs.Explanation.{answered_request, attributes_by_type};
ghost use Rattle.sslist_lister.specs.Explanation.{done_attributes, error_attributes};
ghost use Rattle.sslist_lister.specs.Explanation.{error_request, kernel_text_byte};
ghost use Rattle.sslist_lister.specs.Explanation.{explanation, text_and_offset_in};
ghost use Rattle.sslist_lister.specs.Explanation.{kernel_text, offset_text};
ghost use Rattle.sslist_lister.specs.Explanation.{unknown_request};
ghost use Rattle.sslist_lister.specs.Messages.{message_parts};

use crate::messages::Message;
use crate::pieces::{find_number, find_value};
use crate::request_line::push_request_note;
use netlink_core::{NLMSG_DONE, NLMSG_ERROR, text_bytes};
use sock_diag_extras::AckView;
use sock_diag_extras::constants::{NLMSGERR_ATTR_MSG, NLMSGERR_ATTR_OFFS};
use sslist_texts::cells::{push_after, push_escaped_byte};
use std::alloc::AllocError;

/// Appends what a message explains: the request that it answers, the kernel's text, and the offset
/// of the invalid attribute. Appends nothing if the message is neither an `NLMSG_ERROR` nor an
/// `NLMSG_DONE`.
pub(crate) fn push_explanation(text: &mut Vec<u8>, message: &Message<'_>) -> Result<(), AllocError>
    ensures { OnOk result (text.new.items ≡ text.old.items
        ++ explanation (message_parts message.now)) }
{
    let (message_type, flags) = (message.header.message_type, message.header.flags);
    push_request_note(
        text,
        unknown_request(message_type),
        request_of(message_type, flags, message.payload),
    )?;
    push_text_and_offset(text, attributes_of(message_type, flags, message.payload))
}

/// Returns the text about the request that a message of this type answers, if the message does not
/// contain the request, or if it is not known what it requests. It is empty if the type is neither
/// `NLMSG_ERROR` nor `NLMSG_DONE`.
fn unknown_request(message_type: u16) -> &'static [u8]
    ensures { result.now ≡ unknown_request message_type }
{
    match message_type {
        NLMSG_ERROR | NLMSG_DONE => b" (request: in an earlier packet)",
        _ => &[],
    }
}

/// Returns the bytes of the request in the payload of a message, by the type and the flags of its
/// header. There are none if it is not an `NLMSG_ERROR`.
fn request_of(message_type: u16, flags: u16, payload: &[u8]) -> &[u8]
    ensures { result.now ≡ answered_request message_type flags payload.entry.now }
{
    match message_type {
        NLMSG_ERROR => request_of_error(flags, payload),
        _ => &[],
    }
}

/// Returns the bytes of the request in the payload of an `NLMSG_ERROR`. There are none if the
/// payload does not contain it.
fn request_of_error(flags: u16, payload: &[u8]) -> &[u8]
    ensures { result.now ≡ error_request flags payload.entry.now }
{
    match AckView::of_error(flags, payload) {
        Some(ack) => ack.request(),
        None => &[],
    }
}

/// Returns the bytes of the attributes of an extended acknowledgement, by the type and the flags of
/// the header. There are none if it is neither an `NLMSG_ERROR` nor an `NLMSG_DONE`.
fn attributes_of(message_type: u16, flags: u16, payload: &[u8]) -> &[u8]
    ensures { result.now ≡ attributes_by_type message_type flags payload.entry.now }
{
    match message_type {
        NLMSG_ERROR => attributes_of_error(flags, payload),
        NLMSG_DONE => attributes_of_done(flags, payload),
        _ => &[],
    }
}

/// Returns the bytes of the attributes in the payload of an `NLMSG_ERROR`. There are none if the
/// payload does not contain the request, which precedes them, or if the flags lack
/// `NLM_F_ACK_TLVS`.
fn attributes_of_error(flags: u16, payload: &[u8]) -> &[u8]
    ensures { result.now ≡ error_attributes flags payload.entry.now }
{
    match AckView::of_error(flags, payload) {
        Some(ack) => ack.attribute_bytes(),
        None => &[],
    }
}

/// Returns the bytes of the attributes in the payload of an `NLMSG_DONE`. There are none if the
/// payload has no error number, which precedes them, or if the flags lack `NLM_F_ACK_TLVS`.
fn attributes_of_done(flags: u16, payload: &[u8]) -> &[u8]
    ensures { result.now ≡ done_attributes flags payload.entry.now }
{
    match AckView::of_done(flags, payload) {
        Some(ack) => ack.attribute_bytes(),
        None => &[],
    }
}

/// Appends the kernel's text and the offset that the attributes in these bytes contain.
fn push_text_and_offset(text: &mut Vec<u8>, bytes: &[u8]) -> Result<(), AllocError>
    ensures { OnOk result (text.new.items ≡ text.old.items ++ text_and_offset_in bytes.now) }
{
    push_kernel_text(text, find_value(bytes, NLMSGERR_ATTR_MSG))?;
    // The offset is a `u32`, which has 4 bytes.
    push_offset(text, find_number(bytes, NLMSGERR_ATTR_OFFS, 4))
}

/// Appends a colon, a space and the kernel's text, which is `value` without a terminating NUL.
/// Appends nothing for `None`.
fn push_kernel_text(text: &mut Vec<u8>, value: Option<&[u8]>) -> Result<(), AllocError>
    ensures { OnOk result (text.new.items ≡ text.old.items
        ++ kernel_text (option_map (λ bytes. bytes.now) value.entry)) }
{
    let Some(value) = value else {
        return Ok(());
    };
    text.extend_from_slice(b": ")?;
    push_kernel_text_bytes(text, text_bytes(value))
}

/// Appends the bytes of the kernel's text, each by [`push_kernel_text_byte`].
fn push_kernel_text_bytes(text: &mut Vec<u8>, bytes: &[u8]) -> Result<(), AllocError>
    ensures { OnOk result (text.new.items ≡ text.old.items ++ flat_map kernel_text_byte bytes.now) }
{
    for byte in bytes {
        push_kernel_text_byte(text, *byte)?;
    }
    Ok(())
}

/// Appends a byte as [`push_escaped_byte`] does, except for a space, which is appended unchanged.
fn push_kernel_text_byte(text: &mut Vec<u8>, byte: u8) -> Result<(), AllocError>
    ensures { OnOk result (text.new.items ≡ text.old.items ++ kernel_text_byte byte) }
{
    if byte == b' ' {
        Ok(text.push(byte)?)
    } else {
        push_escaped_byte(text, byte)
    }
}

/// Appends ` (offset N)`, the offset of the invalid attribute in the request, in bytes. Appends
/// nothing for `None`.
fn push_offset(text: &mut Vec<u8>, offset: Option<u64>) -> Result<(), AllocError>
    ensures { OnOk result (text.new.items ≡ text.old.items ++ offset_text offset) }
{
    let Some(offset) = offset else {
        return Ok(());
    };
    push_after(text, b" (offset ", offset)?;
    Ok(text.push(b')')?)
}
