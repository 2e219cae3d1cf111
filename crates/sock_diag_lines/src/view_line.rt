//! The answer to a line that shows the values of a reply about a UNIX socket. The reply is
//! borrowed: `view_model view` is its content, with borrowed bytes as lists. A function that
//! returns a `Result` fails only if an allocation fails.

ghost use Rattle.std.specs.Prelude.{◌≡◌, ◌∷◌, ◌++◌, decimal, OnOk};
ghost use Rattle.sock_diag_replies.specs.ViewModel.{view_model};
ghost use Rattle.sock_diag_lines.specs.Answer.{codec_of_name};
ghost use Rattle.sock_diag_lines.specs.AnswerText.{IsAnswerUnder, ok_text};
ghost use Rattle.sock_diag_lines.specs.HexField.{space};
ghost use Rattle.sock_diag_lines.specs.declared.answers.Name.TheVariants.{UnixView};
ghost use Rattle.sock_diag_lines.specs.private.Text.{AppendsSome};
ghost use Rattle.sock_diag_lines.specs.ViewLine.{reply_text};
ghost use Rattle.sock_diag_lines.specs.private.View.{with_socket_details, with_memory, with_queues};

use crate::answer_parts::{
    OK, push_name_field, push_number, push_numbers_field, push_optional_number, push_refused,
};
use netlink_packet_sock_diag::unix::{UnixResponseHeader, UnixResponseView};
use std::alloc::AllocError;

/// Appends `ok` and thirteen values of the reply, or `refused` and the code of the error.
pub(crate) fn push_view(text: &mut Vec<u8>, bytes: &[u8]) -> Result<(), AllocError>
    ensures { OnOk result (AppendsSome text.old.items text.new.items
        (IsAnswerUnder (codec_of_name UnixView) bytes.now)) }
{
    match UnixResponseView::parse(bytes) {
        Ok(view) => push_reply(text, &view),
        Err(error) => push_refused(text, &error),
    }
}

/// Appends `ok` and the values of a reply.
fn push_reply(text: &mut Vec<u8>, view: &UnixResponseView<'_>) -> Result<(), AllocError>
    ensures { OnOk result (text.new.items ≡ text.old.items
        ++ ok_text (reply_text (view_model view.now))) }
{
    text.extend_from_slice(OK)?;
    push_header(text, &view.header())?;
    push_details(text, view)?;
    push_queues(text, view)?;
    push_memory(text, view)
}

/// Appends the peer, the name, the pending connections and the directions that are shut down, each
/// after a space, or ` none` for one that the reply does not have.
fn push_details(text: &mut Vec<u8>, view: &UnixResponseView<'_>) -> Result<(), AllocError>
    ensures { OnOk result (text.new.items
        ≡ with_socket_details text.old.items (view_model view.now)) }
{
    push_optional_number(text, view.peer())?;
    push_name_field(text, view.name())?;
    push_numbers_field(text, view.pending_connections())?;
    push_optional_number(text, widened(view.shutdown_state()))
}

/// Appends the queue lengths: two values of a listening socket, then two values of any other
/// socket. Each is after a space. Two of the four are always ` none`.
fn push_queues(text: &mut Vec<u8>, view: &UnixResponseView<'_>) -> Result<(), AllocError>
    ensures { OnOk result (text.new.items ≡ with_queues text.old.items (view_model view.now)) }
{
    push_optional_number(text, view.number_of_pending_connection())?;
    push_optional_number(text, view.max_number_of_pending_connection())?;
    push_optional_number(text, view.receive_queue_size())?;
    push_optional_number(text, view.send_queue_size())
}

/// Appends two values of the socket's memory, `SK_MEMINFO_SNDBUF` and `SK_MEMINFO_WMEM_QUEUED`,
/// each after a space, or ` none` if the reply does not have them.
fn push_memory(text: &mut Vec<u8>, view: &UnixResponseView<'_>) -> Result<(), AllocError>
    ensures { OnOk result (text.new.items ≡ with_memory text.old.items (view_model view.now)) }
{
    push_optional_number(text, view.max_datagram_size())?;
    push_optional_number(text, view.memory_used_for_outgoing_data())
}

/// Appends the kind, the state and the inode of a header, separated by spaces.
fn push_header(text: &mut Vec<u8>, header: &UnixResponseHeader) -> Result<(), AllocError>
    ensures { OnOk result (text.new.items ≡ text.old.items
        ++ decimal header.now.kind ++ space ∷ decimal header.now.state
        ++ space ∷ decimal header.now.inode) }
{
    push_number(text, header.kind.into())?;
    // With `Some`, this appends a space and the number.
    push_optional_number(text, Some(header.state.into()))?;
    push_optional_number(text, Some(header.inode))
}

/// Widens a byte, if there is one. The number is unchanged.
fn widened(byte: Option<u8>) -> Option<u32>
    ensures { result ≡ byte }
{
    byte.map(u32::from)
}
