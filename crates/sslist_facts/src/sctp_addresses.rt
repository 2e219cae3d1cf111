//! The addresses of an SCTP association (`INET_DIAG_LOCALS` and `INET_DIAG_PEERS`). A function of
//! this module that writes fails only if an allocation failed. Then the content of the writer is
//! not specified.

ghost use Rattle.std.proofs.Common.{rules};
ghost use Rattle.std.specs.Prelude.{◌≡◌, ◌++◌, OnOk};
ghost use Rattle.sslist_facts.specs.SctpAddresses.{stored_address_members, stored_address_text};
ghost use Rattle.sslist_texts.specs.JsonWriting.{KeepsPrefix, members_tokens};

use crate::records::{ShownRecord, push_ip_or_star, write_ip};
use json::Writer;
use sock_diag_extras::StoredAddress;
use sslist_texts::json_writing::write_numbers;
use std::alloc::{AllocError, Global};

impl ShownRecord for StoredAddress {
    ghost record_text = { stored_address_text };

    ghost record_members = { stored_address_members };

    fn push_text(&self, text: &mut Vec<u8>) -> Result<(), AllocError> {
        push_ip_or_star(text, self.ip())
    }

    fn write_members(&self, alloc: Global, writer: &mut Writer) -> Result<(), AllocError> {
        write_address_members(alloc, writer, self)
    }

    ghost has_bytes = { Prim.search rules };
}

/// Writes the members of an address.
fn write_address_members(
    alloc: Global,
    writer: &mut Writer,
    address: &StoredAddress,
) -> Result<(), AllocError>
    ensures prefix { KeepsPrefix result writer.old writer.new }
    ensures members { OnOk result (writer.new.tokens ≡ writer.old.tokens
        ++ members_tokens (stored_address_members address.now)) }
{
    let rows = [
        ("family", address.family as u64),
        ("port", address.port as u64),
    ];
    write_numbers(writer, &rows)?;
    write_ip(alloc, writer, address.ip())
}
