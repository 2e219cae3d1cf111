//! The reader of a dump, generic over what it keeps of each message.

ghost use Rattle.std.specs.Prelude.{◌≡◌, ◌≢◌, ◌⊎◌, ◌↔◌, [], map, Ok, Err};
ghost use Rattle.std.specs.Prelude.{MatchResult, IsBitSet, IsTrue, None, false, ◌≤◌};
ghost use Rattle.std.specs.Prelude.{vec_capacity, vec_len};
ghost use Rattle.netlink_core.specs.declared.error.DecodeError.TheVariants.{Memory};
ghost use Rattle.netlink_packet_sock_diag.specs.Feed.{AllocationFailsAt, FeedLeadsTo};
ghost use Rattle.netlink_packet_sock_diag.specs.Feed.{IsReachedByFeeding, ReadsDatagram, dump_with};
ghost use Rattle.netlink_packet_sock_diag.specs.declared.dump.DumpState.TheVariants.{Reading};
ghost use Rattle.netlink_packet_sock_diag.specs.declared.dump.DumpState.TheVariants.{Failed};

use super::entry::DumpEntry;
use super::{DumpError, DumpState};
use netlink_core::{
    DecodeError, FramedMessages, NETLINK_HEADER_LEN, NLM_F_DUMP_INTR, NLMSG_DONE, NLMSG_ERROR,
    NLMSG_NOOP, NLMSG_OVERRUN, NetlinkHeader, error_number,
};
use std::alloc::Global;

// Returns whether a dump is interrupted after a message with this header, given whether it was
// before.
#[inline(always)]
fn interrupted_by(was_interrupted: bool, header: &NetlinkHeader) -> bool
    // Bit 4 is `NLM_F_DUMP_INTR`.
    ensures { IsTrue result ↔ (IsTrue was_interrupted ⊎ IsBitSet header.now.flags 4) }
{
    was_interrupted || header.flags & NLM_F_DUMP_INTR != 0
}

// Reads the messages of a datagram up to the end of the dump. Appends what is kept of each to
// `messages`, and sets `interrupted` if one has `NLM_F_DUMP_INTR`, even if its payload is rejected.
// Returns the new state of the dump and the error number of its end, or the error that ends it. The
// error is `Memory` only if the first message that was not kept may need memory, or the list is
// full.
fn take_messages<I: DumpEntry>(
    alloc: Global,
    messages: &mut Vec<I>,
    interrupted: &mut bool,
    datagram: &[u8],
) -> Result<(DumpState, Option<i32>), DecodeError>
    // `old` is the progress before the call, and `failed` the one after an error. Their state and
    // error number do not matter: `ReadsDatagram` and `AllocationFailsAt` do not consider them. The
    // first `λ` is for `Ok(end)`, the second for `Err(e)`. The last line: the entry may need
    // memory, or the list has no free slot.
    ensures { let old_messages = map I.model messages.old.items in
        let old = dump_with old_messages (Reading, None) interrupted.old in
        let new_messages = map I.model messages.new.items in
        let failed = dump_with new_messages (Failed, None) interrupted.new in
        MatchResult result
        (λ end. ReadsDatagram I.item_is (old, datagram.now)
        (dump_with new_messages end interrupted.new, Ok end))
        (λ e. (e ≢ Memory → ReadsDatagram I.item_is (old, datagram.now) (failed, Err e))
        × (e ≡ Memory → (entry : I.Entry)
        × AllocationFailsAt I.item_is (old, datagram.now) (failed, entry)
        × (I.needs_memory entry ⊎ (vec_capacity messages.new ≤ vec_len messages.new)))) }
{
    for item in FramedMessages::new(datagram) {
        let (header, message) = item?;
        *interrupted = interrupted_by(*interrupted, &header);
        let payload = &message[NETLINK_HEADER_LEN..];
        match header.message_type {
            NLMSG_NOOP => {}
            NLMSG_ERROR => return Ok((DumpState::Error, error_number(payload))),
            NLMSG_DONE => return Ok((DumpState::Done, error_number(payload))),
            NLMSG_OVERRUN => return Ok((DumpState::Overrun, None)),
            _ => {
                let entry = I::take(alloc, &header, payload)?;
                // If the list cannot grow, the error is `Memory`.
                messages.reserve(1)?;
                messages.push_reserved(entry);
            }
        }
    }
    Ok((DumpState::Reading, None))
}

/// The reader of a dump: what it has kept of the messages, in order, and its state.
pub(crate) struct GenericDump<I: DumpEntry> {
    alloc: Global,
    pub(crate) entries: Vec<I>,
    /// The state, and the error number of the end of the dump.
    pub(crate) status: (DumpState, Option<i32>),
    /// Whether a message had `NLM_F_DUMP_INTR`.
    pub(crate) interrupted: bool,
    // A dump that is still read has no error number.
    ghost unnumbered: { (status.0 ≡ Reading) → (status ≡ (Reading, None)) },
    ghost fed: { ∥ IsReachedByFeeding I.item_is
        (dump_with (map I.model entries.items) status interrupted) ∥₁ },
}

// Each entry is dropped by `free`, which reads less memory than the derived drop of an entry.
impl<I: DumpEntry> Drop for GenericDump<I> {
    fn drop(self) {
        for entry in self.into_entries() {
            entry.free();
        }
    }
}

impl<I: DumpEntry> GenericDump<I> {
    ghost use Rattle.netlink_packet_sock_diag.specs.DumpModel.{IsFull, generic_dump_progress};
    ghost use Rattle.netlink_packet_sock_diag.specs.declared.dump.DumpError.TheVariants.{Fault};

    /// Returns a reader that nothing was fed to. It keeps the allocator.
    pub(crate) fn new(alloc: Global) -> Self
        ensures entries { result.entries.items ≡ [] }
        ensures state { result.status ≡ (Reading, None) }
        ensures interrupted { result.interrupted ≡ false }
    {
        GenericDump {
            alloc,
            entries: Vec::new(alloc),
            status: (DumpState::Reading, None),
            interrupted: false,
        }
    }

    /// Returns what was kept of the messages, in order.
    pub(crate) fn into_entries(self) -> Vec<I>
        ensures { result ≡ self.entries }
    {
        // A type that implements `Drop` is taken apart with all of its fields.
        let GenericDump {
            alloc: _,
            entries,
            status: _,
            interrupted: _,
        } = self;
        entries
    }

    /// Reads the messages of a datagram; see [`DumpReader::feed`](crate::DumpReader::feed).
    pub(crate) fn feed(&mut self, datagram: &[u8]) -> Result<(), DumpError>
        ensures leaves { FeedLeadsTo I.item_is
            (generic_dump_progress I.model self.old, datagram.now)
            (generic_dump_progress I.model self.new, result) }
        // Memory runs out at an entry that may need some, or because the list has to grow.
        ensures memory { result ≡ Err (Fault Memory) → (entry : I.Entry)
            × AllocationFailsAt I.item_is
            (generic_dump_progress I.model self.old, datagram.now)
            (generic_dump_progress I.model self.new, entry)
            × (I.needs_memory entry ⊎ IsFull self.new) }
    {
        if self.status.0 != DumpState::Reading {
            return Err(DumpError::Ended);
        }
        match take_messages(
            self.alloc,
            &mut self.entries,
            &mut self.interrupted,
            datagram,
        ) {
            Ok(status) => {
                self.status = status;
                Ok(())
            }
            Err(error) => {
                self.status = (DumpState::Failed, None);
                Err(DumpError::Fault(error))
            }
        }
    }
}
