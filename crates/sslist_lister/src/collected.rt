//! The attributes of a reply, sorted in one walk: the first valid attribute of a kind counts, and
//! each one that is invalid or unknown is listed. If a function of this module fails, an allocation
//! failed, and the collected attributes are not specified.
//!
//! In the contracts, `buffered_attribute` is the type and the value of an attribute, `any_model` is
//! what it says, `slot_value` is what a slot has, or None, and `collected self.now` is what the
//! attributes in `self` say.

ghost use Rattle.std.specs.Prelude.{◌≡◌, ◌<◌, ◌++◌, ◌∷◌, ℕ, List, None, OnOk, Ok, length};
ghost use Rattle.std.specs.Prelude.{map, option_map, slice_index_or};
ghost use Rattle.std.specs.Option.{option_or};
ghost use Rattle.netlink_core.specs.Walk.{buffered_attribute};
ghost use Rattle.sslist_lister.specs.Collected.{HasNone, collected, value_in};
ghost use Rattle.sslist_lister.specs.Collected.{first_valid, is_valid, other_in_item};
ghost use Rattle.sslist_lister.specs.Collected.{other_model, slot_value, summary_of};
ghost use Rattle.sslist_lister.specs.Collected.{with_element};
ghost use Rattle.sock_diag_any.specs.AnyItems.{Item};
ghost use Rattle.sock_diag_any.specs.AnyNla.{any_model};
ghost use Rattle.sock_diag_any.specs.Pieces.{framing_error_of, pieces_in};

use crate::attributes::{Status, status_of};
use netlink_core::{DecodeError, NlaBuffer};
use sock_diag_any::{AnyNla, AnyNlas, Rejected, Sockets};
use sock_diag_extras::constants::INET_DIAG_SOCKOPT;
use std::alloc::{AllocError, Global};

/// Number of kinds from 0 to the greatest one with facts.
const KINDS: usize = INET_DIAG_SOCKOPT as usize + 1;

/// The kind of a valid attribute, and what it says.
pub(crate) type Valid<'a> = (u16, AnyNla<'a>);

/// The first valid attribute of each kind.
#[derive(Drop)]
pub(crate) struct FirstValid<'a> {
    /// `slots[kind]` is the first valid attribute of this kind.
    pub(crate) slots: [Option<(u16, AnyNla<'a>)>; KINDS],
}

/// The attributes of a reply.
#[derive(Drop)]
pub(crate) struct Attributes<'a> {
    /// The kind of sockets that the reply is about.
    pub(crate) sockets: Sockets,
    /// The first valid attribute of each kind.
    pub(crate) first: FirstValid<'a>,
    /// The unknown and the invalid attributes, each with its status.
    pub(crate) others: Vec<(NlaBuffer<'a>, Status)>,
    /// The error of the bytes after the last attribute.
    pub(crate) end: Option<DecodeError>,
}

impl<'a> Attributes<'a> {
    /// Returns an empty collection of attributes, for a reply about these sockets.
    #[inline(always)]
    pub(crate) fn new(alloc: Global, sockets: Sockets) -> Attributes<'a>
        ensures sockets { result.sockets ≡ sockets }
        ensures none { HasNone result }
    {
        Attributes {
            sockets,
            first: FirstValid {
                slots: [const { None }; KINDS],
            },
            others: Vec::new(alloc),
            end: None,
        }
    }

    /// Adds the attributes in the bytes after the header of a reply. Nothing may be collected
    /// before. The array of `self` is filled in place, since a function that returned it would copy
    /// it.
    pub(crate) fn collect(&mut self, bytes: &'a [u8]) -> Result<(), AllocError>
        requires { HasNone self.now }
        ensures summary { OnOk result (collected self.new
            ≡ summary_of self.old.sockets bytes.entry.now) }
        // `end` is also a member of the summary. This clause names it, since callers return it.
        ensures end { OnOk result (self.new.end
            ≡ framing_error_of (pieces_in bytes.entry.now)) }
    {
        for item in AnyNlas::new(self.sockets, bytes) {
            match item {
                Ok((nla, value)) => add(&mut self.first.slots, &mut self.others, nla, value)?,
                Err(Rejected::Attribute(nla, error)) => self.others.push((nla, Err(error)))?,
                // The first error counts, as in the invariant. No item follows it.
                Err(Rejected::Framing(error)) => self.end = self.end.or(Some(error)),
            }
        }
        Ok(())
    }

    /// Returns what the first valid attribute of a kind says. Returns `None` if there is none.
    pub(crate) fn value_of_kind(&self, kind: u16) -> Option<&AnyNla<'a>>
        ensures { option_map (λ value. any_model value.now) result
            ≡ value_in kind (collected self.now) }
    {
        match element(&self.first.slots, kind as usize) {
            Some((_, value)) => Some(value),
            None => None,
        }
    }
}

/// Adds an attribute that says this to its slot if it is the first valid one of its kind, or to the
/// others, with its status, if it is unknown or invalid. Does nothing with any other one.
fn add<'a>(
    slots: &mut [Option<Valid<'a>>],
    others: &mut Vec<(NlaBuffer<'a>, Status)>,
    nla: NlaBuffer<'a>,
    value: AnyNla<'a>,
) -> Result<(), AllocError>
    ensures length { OnOk result (length slots.new ≡ length slots.old) }
    // The first valid attribute of each kind `k` that has a slot is the same before and after the
    // call: it is the one in the slot (`slice_index_or slots k None`), or else (`option_or`) the
    // first one (`first_valid`) of those that are still to come. These are `later` after the call,
    // and this attribute and `later` before it.
    ensures first { OnOk result ((later : List Item) (k : ℕ) → k < length slots.old
        → option_or (slot_value (slice_index_or slots.new k None)) (first_valid later k)
        ≡ option_or (slot_value (slice_index_or slots.old k None))
        (first_valid (Ok (buffered_attribute nla.entry, any_model value.entry) ∷ later) k)) }
    ensures others { OnOk result (map other_model others.new.items ≡ map other_model
        others.old.items
        ++ other_in_item (Ok (buffered_attribute nla.entry, any_model value.entry))) }
{
    let status = status_of(&value);
    if is_valid(&status) {
        let kind = nla.kind();
        set_if_none(slots, kind as usize, (kind, value));
        Ok(())
    } else {
        Ok(others.push((nla, status))?)
    }
}

/// Returns whether a status is that of a valid attribute, which has facts.
fn is_valid(status: &Status) -> bool
    ensures { result ≡ is_valid status.now }
{
    matches!(status, Ok(true))
}

/// Returns the element at an index, which may be `None`. Also returns `None` if the index is past
/// the end.
fn element<T>(slots: &[Option<T>], index: usize) -> Option<&T>
    ensures { option_map (λ value. value.now) result ≡ slice_index_or slots.now index None }
{
    if index < slots.len() {
        slots[index].as_ref()
    } else {
        None
    }
}

/// Sets the element at an index if it is `None`. Does nothing if the element is set, or if the
/// index is past the end.
fn set_if_none<T: Drop>(slots: &mut [Option<T>], index: usize, value: T)
    ensures { slots.new ≡ with_element slots.old index value }
{
    if index < slots.len() && slots[index].is_none() {
        slots[index] = Some(value);
    }
}
