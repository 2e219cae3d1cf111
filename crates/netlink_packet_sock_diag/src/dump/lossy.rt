//! Dumps that continue after invalid replies. In the contracts `lossy_progress dump` is the
//! progress of a reader: its entries, its state, its error number, and whether it is interrupted.

ghost use Rattle.std.specs.Prelude.{◌≡◌, ◌⊎◌, Err, Ok};
ghost use Rattle.netlink_core.specs.declared.error.DecodeError.TheVariants.{Memory};
ghost use Rattle.netlink_packet_sock_diag.specs.Feed.{FeedLeadsTo, AllocationFailsAt, new_dump};
ghost use Rattle.netlink_packet_sock_diag.specs.Lossy.{HasLossyEntry};
ghost use Rattle.netlink_packet_sock_diag.specs.Message.{Message, message_codec};

use super::generic::GenericDump;
use super::{DumpError, DumpState};
use crate::message::SockDiagMessage;
use netlink_core::DecodeError;
use std::alloc::Global;

/// The reader of a dump that continues after invalid replies. Its entries are, in order, the
/// messages of the protocol, and the decode error of each message whose payload is invalid. In all
/// else it is a [`DumpReader`](crate::DumpReader): bytes that are not a message end the dump with
/// an error, because the next message cannot be found.
#[derive(Drop)]
pub struct LossyDump {
    dump: GenericDump<Result<SockDiagMessage, DecodeError>>,
}

impl LossyDump {
    ghost use Rattle.netlink_packet_sock_diag.specs.DumpModel.{EntriesAreFull, lossy_entries};
    ghost use Rattle.netlink_packet_sock_diag.specs.DumpModel.{lossy_progress};
    ghost use Rattle.netlink_packet_sock_diag.specs.declared.dump.DumpError.TheVariants.{Fault};

    /// Returns a reader that nothing was fed to: it has no entries, its state is `Reading`, it has
    /// no error number, and it is not interrupted. In Rattle it keeps the allocator.
    pub fn new(alloc: Global) -> Self
        ensures { lossy_progress result ≡ new_dump }
    {
        LossyDump {
            dump: GenericDump::new(alloc),
        }
    }

    /// Reads the messages of a datagram of complete messages, up to the end of the dump. Each inner
    /// message before its end becomes an entry: the message, or the decode error of its payload.
    /// `NLMSG_NOOP` is skipped.
    ///
    /// - `Ok`: the datagram has no framing error up to its end or the end of the dump. The state is
    ///   `Reading`, `Done`, `Error` or `Overrun`.
    /// - `Err(Fault(e))`: the remaining bytes are not a message (`EnvelopeCut`,
    ///   `EnvelopeLengthUnder16` or `EnvelopeLengthPast`), or an allocation failed (`Memory`). The
    ///   entries before it are kept. The state is `Failed`, without an error number.
    /// - `Err(Ended)`: the dump had already ended. Nothing changes.
    ///
    /// An allocation can fail only at a valid message, or if the list of entries has to grow: the
    /// entry of an invalid message needs a slot in the list too.
    pub fn feed(&mut self, datagram: &[u8]) -> Result<(), DumpError>
        ensures leaves { FeedLeadsTo (HasLossyEntry message_codec)
            (lossy_progress self.old, datagram.now) (lossy_progress self.new, result) }
        // If an allocation failed: it failed at a valid message, or the list of entries has no free
        // slot after the call.
        ensures memory { result ≡ Err (Fault Memory) → ((message : Message)
            × AllocationFailsAt (HasLossyEntry message_codec)
            (lossy_progress self.old, datagram.now) (lossy_progress self.new, Ok message))
            ⊎ EntriesAreFull self.new }
    {
        self.dump.feed(datagram)
    }

    /// Returns the entries read so far, in order: each message, or the error of an invalid one.
    pub fn entries(&self) -> &[Result<SockDiagMessage, DecodeError>]
        ensures { result.now ≡ lossy_entries self.now }
    {
        self.dump.entries.as_slice()
    }

    /// Returns the entries read so far, in order, and drops the rest of the reader.
    pub fn into_entries(self) -> Vec<Result<SockDiagMessage, DecodeError>>
        ensures { result.items ≡ lossy_entries self }
    {
        self.dump.into_entries()
    }

    /// Returns the state of the dump.
    pub fn state(&self) -> DumpState
        ensures { result ≡ (lossy_progress self.now).state }
    {
        self.dump.status.0
    }

    /// Returns the error number that the end of the dump carries: 0 if the kernel reports no error,
    /// else `-errno`. Returns `None` while the dump is read, and if its end carries no number. See
    /// [`DumpReader::error_number`](crate::DumpReader::error_number).
    pub fn error_number(&self) -> Option<i32>
        ensures { result ≡ (lossy_progress self.now).error_number }
    {
        self.dump.status.1
    }

    /// Returns whether the dump was interrupted: whether a message up to and including the one that
    /// ended it had the flag `NLM_F_DUMP_INTR`. The header of a message counts even if its payload
    /// is rejected. See [`DumpReader::is_interrupted`](crate::DumpReader::is_interrupted).
    pub fn is_interrupted(&self) -> bool
        ensures { result ≡ (lossy_progress self.now).is_interrupted }
    {
        self.dump.interrupted
    }
}
