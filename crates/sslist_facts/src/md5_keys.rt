//! The MD5 keys of a TCP socket (`INET_DIAG_MD5SIG`). A function of this module that appends to a
//! text or to a writer may fail: then an allocation failed, and the content is not specified. The
//! clauses `prefix` state that the bytes before the first token of the writer are unchanged.

ghost use Rattle.std.proofs.Common.{rules};
ghost use Rattle.std.specs.Prelude.{◌≡◌, ◌++◌, OnOk, flat_map};
ghost use Rattle.sslist_facts.specs.Md5Keys.{key_byte, md5_key_members, md5_key_text};
ghost use Rattle.sslist_texts.specs.JsonWriting.{KeepsPrefix, members_tokens};

use crate::records::{ShownRecord, push_ip_or_star, write_ip};
use json::Writer;
use sock_diag_extras::Md5Signature;
use sslist_texts::cells::{push_after, push_digits, push_escaped_byte};
use sslist_texts::json_writing::{write_digits, write_numbers};
use std::alloc::{AllocError, Global};

impl ShownRecord for Md5Signature {
    ghost record_text = { md5_key_text };

    ghost record_members = { md5_key_members };

    fn push_text(&self, text: &mut Vec<u8>) -> Result<(), AllocError> {
        push_key(text, self)
    }

    fn write_members(&self, alloc: Global, writer: &mut Writer) -> Result<(), AllocError> {
        write_key_members(alloc, writer, self)
    }

    ghost has_bytes = { Prim.search rules };
}

/// Appends a key: the address of the peers, a slash, the length of the prefix, an equals sign, and
/// the bytes of the key. Example: `192.0.2.0/24=secret`.
#[tactic(auto, unfolding(crate::specs::Md5Keys::md5_key_text))]
fn push_key(text: &mut Vec<u8>, key: &Md5Signature) -> Result<(), AllocError>
    ensures { OnOk result (text.new.items ≡ text.old.items ++ md5_key_text key.now) }
{
    push_ip_or_star(text, key.ip())?;
    push_after(text, b"/", key.prefix_length.into())?;
    text.push(b'=')?;
    push_key_bytes(text, key.used_key())
}

/// Appends the bytes of a key, each by [`push_key_byte`].
fn push_key_bytes(text: &mut Vec<u8>, bytes: &[u8]) -> Result<(), AllocError>
    ensures { OnOk result (text.new.items ≡ text.old.items ++ flat_map key_byte bytes.now) }
{
    for byte in bytes {
        push_key_byte(text, *byte)?;
    }
    Ok(())
}

/// Appends a byte as [`push_escaped_byte`] does, except for a comma, which is escaped.
fn push_key_byte(text: &mut Vec<u8>, byte: u8) -> Result<(), AllocError>
    ensures { OnOk result (text.new.items ≡ text.old.items ++ key_byte byte) }
{
    if byte == b',' {
        push_digits(text, byte)
    } else {
        push_escaped_byte(text, byte)
    }
}

/// Writes the members of a key.
fn write_key_members(
    alloc: Global,
    writer: &mut Writer,
    key: &Md5Signature,
) -> Result<(), AllocError>
    ensures prefix { KeepsPrefix result writer.old writer.new }
    ensures members { OnOk result (writer.new.tokens ≡ writer.old.tokens
        ++ members_tokens (md5_key_members key.now)) }
{
    let rows = [
        ("family", key.family as u64),
        ("prefixlen", key.prefix_length as u64),
        ("keylen", key.key_length as u64),
    ];
    write_numbers(writer, &rows)?;
    write_ip(alloc, writer, key.ip())?;
    write_digits(alloc, writer, "key", key.used_key())
}
