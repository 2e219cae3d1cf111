//! Arrays of records in the values of attributes. A function of this module that appends to a text
//! or to a writer may fail: then an allocation failed, and the content is not specified. The
//! clauses `prefix` state that the bytes before the first token of the writer are unchanged.
//!
//! In the contracts, `records_in T.layout value.now` are the records in a value.

ghost use Rattle.std.specs.Prelude.{◌≡◌, ◌<◌, ◌++◌, ℕ, List, OnOk, flat_map, map};
ghost use Rattle.json.specs.Tree.{json_tokens};
ghost use Rattle.sslist_facts.specs.RecordFacts.{ip_member, ip_or_star, records_in};
ghost use Rattle.sslist_facts.specs.Facts.{separated_records};
ghost use Rattle.sslist_texts.specs.JsonData.{JsonMember, array_member, object_of};
ghost use Rattle.sslist_texts.specs.JsonWriting.{KeepsPrefix, members_tokens};

use json::Writer;
use sock_diag_extras::{AttributeRecord, read_attribute_record};
use sslist_texts::json_writing::write_address;
use std::alloc::{AllocError, Global};
use std::io::Write;
use std::net::IpAddr;

/// A record in an array. The table shows it as a text, and JSON as an object.
pub trait ShownRecord: AttributeRecord + Copy {
    // The text of a record.
    ghost record_text: { Self → List ℕ };

    // The members of the object of a record.
    ghost record_members: { Self → List JsonMember };

    /// Appends the text of the record.
    fn push_text(&self, text: &mut Vec<u8>) -> Result<(), AllocError>
        ensures { OnOk result (text.new.items ≡ text.old.items ++ record_text self.now) };

    /// Writes the members of the record.
    fn write_members(&self, alloc: Global, writer: &mut Writer) -> Result<(), AllocError>
        ensures prefix { KeepsPrefix result writer.old writer.new }
        ensures members { OnOk result (writer.new.tokens ≡ writer.old.tokens
            ++ members_tokens (record_members self.now)) };

    // Proof only: a record has bytes, so that fewer bytes remain after each one.
    ghost has_bytes: { 0 < Self.AttributeRecord.layout.size };
}

/// Appends the text of each record in a value: of the first one after the text `before`, and of
/// each later one after the text `later`.
pub(crate) fn push_records<T: ShownRecord>(
    text: &mut Vec<u8>,
    before: &[u8],
    later: &[u8],
    value: &[u8],
) -> Result<(), AllocError>
    ensures { OnOk result (text.new.items ≡ text.old.items ++ separated_records T.record_text
        before.now later.now (records_in T.layout value.now)) }
{
    let mut separator = before;
    let mut remaining = value;
    while let Some(record) = read_attribute_record::<T>(remaining) {
        text.extend_from_slice(separator)?;
        record.push_text(text)?;
        separator = later;
        remaining = &remaining[T::size()..];
    }
    Ok(())
}

/// Writes a member whose value is an array with an object for each record in a value.
pub(crate) fn write_records<T: ShownRecord>(
    alloc: Global,
    writer: &mut Writer,
    member: &str,
    value: &[u8],
) -> Result<(), AllocError>
    ensures prefix { KeepsPrefix result writer.old writer.new }
    ensures members { OnOk result (writer.new.tokens ≡ writer.old.tokens
        ++ members_tokens (array_member member.now
        (map (λ r. object_of (T.record_members r)) (records_in T.layout value.now)))) }
{
    writer.key(member)?;
    writer.begin_array()?;
    write_items::<T>(alloc, writer, value)?;
    writer.end_array()
}

/// Writes an object for each record in a value.
fn write_items<T: ShownRecord>(
    alloc: Global,
    writer: &mut Writer,
    value: &[u8],
) -> Result<(), AllocError>
    ensures prefix { KeepsPrefix result writer.old writer.new }
    ensures tokens { OnOk result (writer.new.tokens ≡ writer.old.tokens
        ++ flat_map (λ r. json_tokens (object_of (T.record_members r)))
        (records_in T.layout value.now)) }
{
    let mut remaining = value;
    while let Some(record) = read_attribute_record::<T>(remaining) {
        write_item(alloc, writer, &record)?;
        remaining = &remaining[T::size()..];
    }
    Ok(())
}

/// Writes an object with the members of a record.
fn write_item<T: ShownRecord>(
    alloc: Global,
    writer: &mut Writer,
    item: &T,
) -> Result<(), AllocError>
    ensures prefix { KeepsPrefix result writer.old writer.new }
    ensures tokens { OnOk result (writer.new.tokens ≡ writer.old.tokens
        ++ json_tokens (object_of (T.record_members item.now))) }
{
    writer.begin_object()?;
    item.write_members(alloc, writer)?;
    writer.end_object()
}

/// Appends an IP address of a record, or `*` for `None`.
pub(crate) fn push_ip_or_star(text: &mut Vec<u8>, ip: Option<IpAddr>) -> Result<(), AllocError>
    ensures { OnOk result (text.new.items ≡ text.old.items ++ ip_or_star ip) }
{
    let Some(ip) = ip else {
        return Ok(text.push(b'*')?);
    };
    match write!(text, "{ip}") {
        Ok(()) => Ok(()),
        // A write to a `Vec` fails only if an allocation failed.
        Err(_) => Err(AllocError),
    }
}

/// Writes the member `addr` with an IP address of a record. Writes nothing for `None`.
#[tactic(auto, using(crate::proofs::RecordLists::ip_rules))]
pub(crate) fn write_ip(
    alloc: Global,
    writer: &mut Writer,
    ip: Option<IpAddr>,
) -> Result<(), AllocError>
    ensures prefix { KeepsPrefix result writer.old writer.new }
    ensures members { OnOk result (writer.new.tokens ≡ writer.old.tokens
        ++ members_tokens (ip_member ip)) }
{
    match ip {
        Some(ip) => write_address(alloc, writer, "addr", ip),
        None => Ok(()),
    }
}
