//! The codec of messages, under the message type of their netlink header.

ghost use Rattle.sock_diag_records.specs.declared.constants.TheConstants.{SOCK_DESTROY};
ghost use Rattle.sock_diag_records.specs.declared.constants.TheConstants.{SOCK_DIAG_BY_FAMILY};
ghost use Rattle.netlink_packet_sock_diag.specs.Message.{message_codec};
ghost use Rattle.netlink_packet_sock_diag.specs.laws.Message.{message_laws};
ghost use Rattle.netlink_packet_sock_diag.specs.MessageModel.{message_model};
ghost use Rattle.netlink_packet_sock_diag.specs.laws.EqualMessage.{message_equal};
ghost use Rattle.netlink_packet_sock_diag.specs.MessageViewModel.{message_view_model};

use crate::message::{SockDiagDestroy, SockDiagMessage, SockDiagView};
use netlink_core::{Emitable, HasCodec};

/// Evaluates an expression for the request or reply in a message, whatever its kind.
macro_rules! with_inner {
    ($message:expr, $inner:ident => $answer:expr) => {
        match $message {
            SockDiagMessage::InetRequest($inner) => $answer,
            SockDiagMessage::InetResponse($inner) => $answer,
            SockDiagMessage::UnixRequest($inner) => $answer,
            SockDiagMessage::UnixResponse($inner) => $answer,
        }
    };
}

/// Evaluates an expression for the reply in a borrowed message, whatever its kind.
macro_rules! with_view {
    ($message:expr, $reply:ident => $answer:expr) => {
        match $message {
            SockDiagView::InetResponse($reply) => $answer,
            SockDiagView::UnixResponse($reply) => $answer,
        }
    };
}

/// Serializes the request or reply, without a netlink header. A request is always writable.
impl Emitable for SockDiagMessage {
    // The members of `Emitable` are those of the codec of messages.
    ghost bytes = { λ v. message_codec.serialized (message_model v) };

    ghost writable = { λ v. message_codec.is_writable (message_model v) };

    ghost in_range = { λ v. message_codec.is_in_range (message_model v) };

    fn is_writable(&self) -> bool {
        with_inner!(self, inner => inner.is_writable())
    }

    fn buffer_len(&self) -> usize {
        with_inner!(self, inner => inner.buffer_len())
    }

    fn emit(&self, buffer: &mut [u8]) {
        with_inner!(self, inner => inner.emit(buffer))
    }
}

/// Serializes to the canonical form of the message. Does not allocate.
impl Emitable for SockDiagView<'_> {
    ghost bytes = { λ v. message_codec.serialized (message_view_model v) };

    ghost writable = { λ v. message_codec.is_writable (message_view_model v) };

    fn is_writable(&self) -> bool {
        with_view!(self, reply => reply.is_writable())
    }

    fn buffer_len(&self) -> usize {
        with_view!(self, reply => reply.buffer_len())
    }

    fn writable_len(&self) -> Option<usize> {
        with_view!(self, reply => reply.writable_len())
    }

    fn emit(&self, buffer: &mut [u8]) {
        with_view!(self, reply => reply.emit(buffer))
    }
}

/// The codec of messages, whose parameter is the message type. Every message is serialized under
/// the type `SOCK_DIAG_BY_FAMILY`, 20.
impl HasCodec for SockDiagMessage {
    type Param = u16;

    ghost codec = { message_codec };

    ghost model = { message_model };

    ghost serialized_type = { λ _. SOCK_DIAG_BY_FAMILY };

    ghost eq_is_model = { message_equal };

    ghost laws = { message_laws };
}

/// The codec of the message that is contained. Only the type under which it is serialized differs:
/// it is `SOCK_DESTROY`, 21.
impl HasCodec for SockDiagDestroy {
    type Param = u16;

    ghost codec = { message_codec };

    ghost model = { λ destroy. message_model destroy.0 };

    ghost serialized_type = { λ _. SOCK_DESTROY };

    ghost eq_is_model = { λ v w. message_equal v.0 w.0 };

    ghost laws = { message_laws };
}
