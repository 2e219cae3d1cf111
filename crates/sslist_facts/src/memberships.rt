//! The memberships of a packet socket (`PACKET_DIAG_MCLIST`). A function of this module that writes
//! fails only if an allocation failed. Then the content of the writer is not specified.

ghost use Rattle.std.proofs.Common.{rules};
ghost use Rattle.std.specs.Prelude.{◌≡◌, ◌++◌, OnOk};
ghost use Rattle.sslist_facts.specs.Memberships.{membership_members, membership_text};
ghost use Rattle.sslist_texts.specs.JsonWriting.{KeepsPrefix, members_tokens};

use crate::records::ShownRecord;
use json::Writer;
use sock_diag_extras::PacketMembership;
use sslist_texts::json_writing::{write_digits, write_numbers};
use std::alloc::{AllocError, Global};

impl ShownRecord for PacketMembership {
    ghost record_text = { membership_text };

    ghost record_members = { membership_members };

    fn push_text(&self, _text: &mut Vec<u8>) -> Result<(), AllocError> {
        Ok(())
    }

    fn write_members(&self, alloc: Global, writer: &mut Writer) -> Result<(), AllocError> {
        write_membership(alloc, writer, self)
    }

    ghost has_bytes = { Prim.search rules };
}

/// Writes the members of a membership.
fn write_membership(
    alloc: Global,
    writer: &mut Writer,
    membership: &PacketMembership,
) -> Result<(), AllocError>
    ensures prefix { KeepsPrefix result writer.old writer.new }
    ensures members { OnOk result (writer.new.tokens ≡ writer.old.tokens
        ++ members_tokens (membership_members membership.now)) }
{
    let rows = [
        ("index", membership.interface as u64),
        ("count", membership.count as u64),
        ("type", membership.kind as u64),
        ("alen", membership.address_length as u64),
    ];
    write_numbers(writer, &rows)?;
    write_digits(alloc, writer, "addr", membership.used_address())
}
