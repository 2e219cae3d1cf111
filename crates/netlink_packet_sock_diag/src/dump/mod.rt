//! Dumps: the messages of several datagrams, up to the message that ends the dump. In the contracts
//! `reader_progress reader` is the progress of a reader: its messages, its state, its error number,
//! and whether it is interrupted.

ghost use Rattle.std.specs.Prelude.{◌≡◌, map};
ghost use Rattle.std.proofs.Common.{rules};
ghost use Rattle.netlink_core.specs.Items.{IsItemOf};
ghost use Rattle.netlink_packet_sock_diag.specs.Feed.{FeedLeadsTo, new_dump};
ghost use Rattle.netlink_packet_sock_diag.specs.Message.{message_codec};
ghost use Rattle.netlink_packet_sock_diag.specs.MessageModel.{message_model};
ghost use Rattle.netlink_packet_sock_diag.specs.laws.EqualDumpError.{dump_error_equal};

mod entry;
mod generic;
mod lossy;
mod views;

use self::generic::GenericDump;
pub use self::lossy::LossyDump;
pub use self::views::{DumpViews, MessageView, PayloadView};
use crate::message::SockDiagMessage;
use netlink_core::{DecodeError, Exact};
use std::alloc::Global;

/// The state of a dump.
#[derive(Clone, Copy, Debug, PartialEq, Eq)]
pub enum DumpState {
    /// No message has ended the dump yet.
    Reading,
    /// `NLMSG_DONE` was received.
    Done,
    /// `NLMSG_ERROR` was received.
    Error,
    /// `NLMSG_OVERRUN` was received: data was lost.
    Overrun,
    /// Bytes are not a message, a [`DumpReader`] received an invalid message, or memory ran out.
    Failed,
}

/// Why a datagram was not read to its end.
#[derive(Clone, Copy, Debug, PartialEq, Eq)]
pub enum DumpError {
    /// Bytes are not a message, a [`DumpReader`] received an invalid message, or memory ran out.
    /// The messages before are kept.
    Fault(DecodeError),
    /// The dump had already ended; nothing was read.
    Ended,
}

// Proof only: `==` and `clone` compare and copy the whole value.
impl Exact for DumpState {
    ghost exact = { Prim.search rules };
}

impl Exact for DumpError {
    ghost exact = { (dump_error_equal, Prim.search rules, Prim.search rules) };
}

/// The reader of a dump, which arrives in several datagrams. It keeps the messages of the protocol
/// in order, and skips `NLMSG_NOOP`. Nothing after the end of the dump is read. An invalid message
/// ends the dump; a [`LossyDump`] continues.
#[derive(Drop)]
pub struct DumpReader {
    dump: GenericDump<SockDiagMessage>,
}

impl DumpReader {
    ghost use Rattle.netlink_packet_sock_diag.specs.DumpModel.{reader_progress};

    /// Returns a reader that nothing was fed to: it has no messages, its state is `Reading`, it has
    /// no error number, and it is not interrupted. In Rattle it keeps the allocator.
    pub fn new(alloc: Global) -> Self
        ensures { reader_progress result ≡ new_dump }
    {
        DumpReader {
            dump: GenericDump::new(alloc),
        }
    }

    /// Reads the messages of a datagram of complete messages, up to the end of the dump. The inner
    /// messages before its end are appended to the messages of the reader, and `NLMSG_NOOP` is
    /// skipped.
    ///
    /// - `Ok`: the datagram has no error up to its end or the end of the dump. The state is
    ///   `Reading`, `Done`, `Error` or `Overrun`.
    /// - `Err(Fault(e))`: a message is invalid (`e` is its decode error), the remaining bytes are
    ///   not a message (`EnvelopeCut`, `EnvelopeLengthUnder16` or `EnvelopeLengthPast`), or an
    ///   allocation failed (`Memory`). The messages before it are kept. The state is `Failed`,
    ///   without an error number.
    /// - `Err(Ended)`: the dump had already ended. Nothing changes.
    ///
    /// Unless the dump had already ended, it is interrupted from then on if a message that was
    /// read, up to and including the one that ends it or fails, has the flag `NLM_F_DUMP_INTR`.
    pub fn feed(&mut self, datagram: &[u8]) -> Result<(), DumpError>
        ensures leaves { FeedLeadsTo (IsItemOf message_codec)
            (reader_progress self.old, datagram.now) (reader_progress self.new, result) }
    {
        self.dump.feed(datagram)
    }

    /// Returns the messages read so far, in order.
    pub fn messages(&self) -> &[SockDiagMessage]
        ensures { map message_model result.now ≡ (reader_progress self.now).messages }
    {
        self.dump.entries.as_slice()
    }

    /// Returns the messages read so far, in order, and drops the rest of the reader.
    pub fn into_messages(self) -> Vec<SockDiagMessage>
        ensures { map message_model result.items ≡ (reader_progress self).messages }
    {
        self.dump.into_entries()
    }

    /// Returns the state of the dump.
    pub fn state(&self) -> DumpState
        ensures { result ≡ (reader_progress self.now).state }
    {
        self.dump.status.0
    }

    /// Returns the error number that the end of the dump carries, as
    /// [`netlink_core::error_number`] reads it: 0 if the kernel reports no error, else `-errno`
    /// (errno(3)). Returns `None` while the dump is read, and if its end carries no number.
    pub fn error_number(&self) -> Option<i32>
        ensures { result ≡ (reader_progress self.now).error_number }
    {
        self.dump.status.1
    }

    /// Returns whether the dump was interrupted: a message up to and including its end had
    /// `NLM_F_DUMP_INTR` (netlink(7)). Its sockets changed during the dump, so that entries may be
    /// missing or occur twice; repeat the request. A dump that was not interrupted may be
    /// incomplete too: see "Incomplete dumps" in docs/KERNELS.md.
    pub fn is_interrupted(&self) -> bool
        ensures { result ≡ (reader_progress self.now).is_interrupted }
    {
        self.dump.interrupted
    }
}
