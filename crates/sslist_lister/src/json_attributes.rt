//! JSON of a socket: the members of its header, those of its attributes, and the number of its
//! list. A repeated request begins another list of sockets; lists are numbered from 1. If a
//! function of this module fails, an allocation failed, and the content of the text or the writer
//! is not specified. The clauses `prefix` state that the bytes before the first token of the writer
//! are unchanged.
//!
//! In the contracts, `collected found.now` is what the attributes in `found` say, and
//! `buffered_attribute nla.now` is the attribute `nla`.

ghost use Rattle.std.specs.Prelude.{◌≡◌, ◌++◌, List, OnOk, codes, flat_map, map};
ghost use Rattle.json.specs.Lex.{tokens};
ghost use Rattle.json.specs.Tree.{json_tokens};
ghost use Rattle.netlink_core.specs.Walk.{buffered_attribute};
ghost use Rattle.sslist_lister.specs.Collected.{collected, other_model, slot_value};
ghost use Rattle.sslist_lister.specs.JsonAttributes.{attribute_members, attributes_members};
ghost use Rattle.sslist_lister.specs.JsonAttributes.{item_members, later_list, other_item};
ghost use Rattle.sslist_lister.specs.JsonAttributes.{socket_json, socket_members};
ghost use Rattle.sslist_lister.specs.JsonAttributes.{valid_members};
ghost use Rattle.sslist_texts.specs.JsonData.{JsonMember, array_member, json_text};
ghost use Rattle.sslist_texts.specs.JsonData.{object_of};
ghost use Rattle.sslist_texts.specs.JsonWriting.{KeepsPrefix, members_tokens};

use crate::attributes::{Status, show_any};
use crate::collected::{Attributes, Valid};
use crate::kinds::reason_of;
use json::Writer;
use netlink_core::NlaBuffer;
use sock_diag_any::Sockets;
use sslist_texts::json_writing::{write_digits, write_numbers, write_optional, write_text};
use std::alloc::{AllocError, Global};

/// The header of a reply, which can be written as JSON.
pub(crate) trait JsonHeader {
    // The members of the header.
    ghost json_members: { Self → List JsonMember };

    /// Writes the members of the header.
    fn write_json(&self, alloc: Global, writer: &mut Writer) -> Result<(), AllocError>
        ensures prefix { KeepsPrefix result writer.old writer.new }
        ensures members { OnOk result (writer.new.tokens ≡ writer.old.tokens
            ++ members_tokens (json_members self.now)) };
}

/// Initial capacity of the buffer of a line in bytes.
const LINE_CAPACITY: usize = 2048;

/// Appends the line of a socket with this header and these attributes, in the list of this number:
/// a JSON object without spaces, and a line feed.
// Inlined, its local variables would make the lines of the table slower.
#[inline(never)]
pub(crate) fn push_json<H: JsonHeader>(
    text: &mut Vec<u8>,
    list: u64,
    header: &H,
    found: &Attributes<'_>,
) -> Result<(), AllocError>
    ensures line { OnOk result (text.new.items ≡ text.old.items
        ++ socket_json list (H.json_members header.now) (collected found.now)) }
    // The text of the object can be parsed: `tokens` finds the tokens of the object in it. This is
    // stated of each line that was written.
    ensures reads_back { let object = object_of
        (socket_members list (H.json_members header.now) (collected found.now)) in
        OnOk result (tokens (json_text object) ≡ json_tokens object) }
{
    let alloc = *text.allocator();
    // A writer fills as much memory with zeros as its text has bytes, so it gets only this line.
    let mut writer = Writer::new(Vec::with_capacity(alloc, LINE_CAPACITY)?);
    write_object(alloc, &mut writer, list, header, found)?;
    text.extend_from_slice(writer.into_inner().as_slice())?;
    Ok(text.push(b'\n')?)
}

/// Writes the object of a socket with this header and these attributes, in the list of this number.
#[tactic(auto, using(sslist_texts::proofs::JsonWriting::json_object_rules))]
fn write_object<H: JsonHeader>(
    alloc: Global,
    writer: &mut Writer,
    list: u64,
    header: &H,
    found: &Attributes<'_>,
) -> Result<(), AllocError>
    ensures prefix { KeepsPrefix result writer.old writer.new }
    ensures tokens { OnOk result (writer.new.tokens ≡ writer.old.tokens
        ++ json_tokens (object_of
        (socket_members list (H.json_members header.now) (collected found.now)))) }
{
    writer.begin_object()?;
    header.write_json(alloc, writer)?;
    write_attributes(alloc, writer, found)?;
    write_optional(writer, "list", later_list(list))?;
    writer.end_object()
}

/// Returns the number of a list as JSON has it: `None` for the first list, whose number is not
/// written.
fn later_list(list: u64) -> Option<u64>
    ensures { result ≡ later_list list }
{
    if list > 1 { Some(list) } else { None }
}

/// Writes the members of the valid attributes of a reply, and then the member with those that are
/// unknown or invalid.
#[tactic(auto, using(crate::proofs::Slots::attributes_rules))]
fn write_attributes(
    alloc: Global,
    writer: &mut Writer,
    found: &Attributes<'_>,
) -> Result<(), AllocError>
    ensures prefix { KeepsPrefix result writer.old writer.new }
    ensures members { OnOk result (writer.new.tokens ≡ writer.old.tokens
        ++ members_tokens (attributes_members (collected found.now))) }
{
    write_members(alloc, writer, found)?;
    write_others(alloc, writer, found)
}

/// Writes the members of the first valid attribute of each kind.
#[tactic(auto, using(crate::proofs::Slots::tokens_of_slots))]
fn write_members(
    alloc: Global,
    writer: &mut Writer,
    found: &Attributes<'_>,
) -> Result<(), AllocError>
    ensures prefix { KeepsPrefix result writer.old writer.new }
    ensures members { OnOk result (writer.new.tokens ≡ writer.old.tokens
        ++ members_tokens
        (flat_map (valid_members found.now.sockets) (map slot_value found.now.first.slots))) }
{
    write_valid(alloc, writer, found.sockets, &found.first.slots)
}

/// Writes the members of the valid attribute in each slot, if there is one.
#[tactic(auto, unfolding(sslist_texts::specs::JsonWriting::members_tokens))]
fn write_valid(
    alloc: Global,
    writer: &mut Writer,
    sockets: Sockets,
    slots: &[Option<Valid<'_>>],
) -> Result<(), AllocError>
    ensures prefix { KeepsPrefix result writer.old writer.new }
    ensures tokens { OnOk result (writer.new.tokens ≡ writer.old.tokens
        ++ flat_map (λ slot. members_tokens (valid_members sockets (slot_value slot)))
        slots.now) }
{
    for slot in slots {
        if let Some((_, value)) = slot {
            // `false`: JSON does not depend on `--utf8`.
            show_any(writer, alloc, false, sockets, value)?;
        }
    }
    Ok(())
}

/// Writes the member `other_attributes`: the attributes that are unknown or invalid.
#[tactic(auto, using(crate::proofs::Slots::other_rules))]
fn write_others(
    alloc: Global,
    writer: &mut Writer,
    found: &Attributes<'_>,
) -> Result<(), AllocError>
    ensures prefix { KeepsPrefix result writer.old writer.new }
    ensures members { OnOk result (writer.new.tokens ≡ writer.old.tokens
        ++ members_tokens (array_member (codes "other_attributes")
        (map other_item (map other_model found.now.others.items)))) }
{
    writer.key("other_attributes")?;
    writer.begin_array()?;
    write_items(alloc, writer, found.others.as_slice())?;
    writer.end_array()
}

/// Writes an item for each of these attributes.
fn write_items(
    alloc: Global,
    writer: &mut Writer,
    others: &[(NlaBuffer<'_>, Status)],
) -> Result<(), AllocError>
    ensures prefix { KeepsPrefix result writer.old writer.new }
    ensures tokens { OnOk result (writer.new.tokens ≡ writer.old.tokens
        ++ flat_map (λ other. json_tokens (other_item (other_model other))) others.now) }
{
    for (nla, status) in others {
        write_item(alloc, writer, nla, status)?;
    }
    Ok(())
}

/// Writes an item for an attribute with this status: an object.
fn write_item(
    alloc: Global,
    writer: &mut Writer,
    nla: &NlaBuffer<'_>,
    status: &Status,
) -> Result<(), AllocError>
    ensures prefix { KeepsPrefix result writer.old writer.new }
    ensures tokens { OnOk result (writer.new.tokens ≡ writer.old.tokens
        ++ json_tokens (other_item (buffered_attribute nla.now, status.now))) }
{
    writer.begin_object()?;
    write_item_members(alloc, writer, nla, status)?;
    writer.end_object()
}

/// Writes the type of an attribute and its value, and if the value is invalid, the reason.
#[tactic(auto, using(crate::proofs::Slots::item_rules))]
fn write_item_members(
    alloc: Global,
    writer: &mut Writer,
    nla: &NlaBuffer<'_>,
    status: &Status,
) -> Result<(), AllocError>
    ensures prefix { KeepsPrefix result writer.old writer.new }
    ensures members { OnOk result (writer.new.tokens ≡ writer.old.tokens
        ++ members_tokens (item_members (buffered_attribute nla.now) status.now)) }
{
    write_attribute_members(alloc, writer, nla)?;
    match status {
        Ok(_) => Ok(()),
        Err(error) => write_text(writer, "error", reason_of(error)),
    }
}

/// Writes the kind of an attribute, the length of its value, and the bytes of its value.
#[tactic(auto, using(crate::proofs::Slots::attribute_rules))]
fn write_attribute_members(
    alloc: Global,
    writer: &mut Writer,
    nla: &NlaBuffer<'_>,
) -> Result<(), AllocError>
    ensures prefix { KeepsPrefix result writer.old writer.new }
    ensures members { OnOk result (writer.new.tokens ≡ writer.old.tokens
        ++ members_tokens (attribute_members (buffered_attribute nla.now))) }
{
    let (kind, length) = (nla.kind() as u64, nla.value().len() as u64);
    write_numbers(writer, &[("kind", kind), ("length", length)])?;
    write_digits(alloc, writer, "hex", nla.value())
}
