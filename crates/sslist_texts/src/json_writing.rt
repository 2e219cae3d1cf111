//! Members of JSON objects. A function of this module appends to a writer. If it fails, an
//! allocation failed, and the content of the writer is not specified. If it succeeds, the bytes
//! before the first token of the writer are unchanged (`KeepsPrefix`), and tokens were appended,
//! such as those of members (`members_tokens`).

ghost use Rattle.std.specs.Prelude.{◌≡◌, ◌∷◌, [], ◌++◌, OnOk, map, decimal, flat_map};
ghost use Rattle.std.specs.Fmt.{digits};
ghost use Rattle.json.specs.Token.{begin_object, key, number};
ghost use Rattle.sslist_texts.specs.JsonData.{address_member, bytes_member, cookie_member};
ghost use Rattle.sslist_texts.specs.JsonData.{digits_member, flag_member, hex_member};
ghost use Rattle.sslist_texts.specs.JsonData.{number_members, numbers_member, optional_member};
ghost use Rattle.sslist_texts.specs.JsonData.{text_member};
ghost use Rattle.sslist_texts.specs.JsonWriting.{KeepsPrefix, members_tokens};

use byteorder::{ByteOrder, LittleEndian};
use json::Writer;
use std::alloc::{AllocError, Global};
use std::net::IpAddr;

/// Writes the name of a member whose value is an object, and begins the object.
pub fn begin_member(writer: &mut Writer, name: &str) -> Result<(), AllocError>
    ensures prefix { KeepsPrefix result writer.old writer.new }
    ensures tokens { OnOk result (writer.new.tokens ≡ writer.old.tokens
        ++ key name.now ∷ begin_object ∷ []) }
{
    writer.key(name)?;
    writer.begin_object()
}

/// Writes a member whose value is a string.
#[tactic(auto, using(crate::proofs::JsonWriting::plain_member_rules))]
pub fn write_text(writer: &mut Writer, name: &str, text: &str) -> Result<(), AllocError>
    ensures prefix { KeepsPrefix result writer.old writer.new }
    ensures members { OnOk result (writer.new.tokens ≡ writer.old.tokens
        ++ members_tokens (text_member name.now text.now)) }
{
    writer.key(name)?;
    writer.string(text)
}

/// Writes members whose values are numbers: a name and a number for each row.
pub fn write_numbers(writer: &mut Writer, rows: &[(&str, u64)]) -> Result<(), AllocError>
    ensures prefix { KeepsPrefix result writer.old writer.new }
    ensures members { OnOk result (writer.new.tokens ≡ writer.old.tokens
        ++ members_tokens (number_members (map (λ row. (row.0.now, row.1)) rows.now))) }
{
    write_rows(writer, rows)
}

/// Writes the tokens of each row: a name and a number.
fn write_rows(writer: &mut Writer, rows: &[(&str, u64)]) -> Result<(), AllocError>
    ensures prefix { KeepsPrefix result writer.old writer.new }
    ensures tokens { OnOk result (writer.new.tokens ≡ writer.old.tokens
        ++ flat_map (λ row. key row.0.now ∷ number (decimal row.1) ∷ []) rows.now) }
{
    for &(name, value) in rows {
        writer.key(name)?;
        writer.u64(value)?;
    }
    Ok(())
}

/// Writes a member whose value is an array of numbers.
pub fn write_list(writer: &mut Writer, name: &str, numbers: &[u64]) -> Result<(), AllocError>
    ensures prefix { KeepsPrefix result writer.old writer.new }
    ensures members { OnOk result (writer.new.tokens ≡ writer.old.tokens
        ++ members_tokens (numbers_member name.now numbers.now)) }
{
    writer.key(name)?;
    writer.begin_array()?;
    write_items(writer, numbers)?;
    writer.end_array()
}

/// Writes each number of a list, as an item of an array.
fn write_items(writer: &mut Writer, numbers: &[u64]) -> Result<(), AllocError>
    ensures prefix { KeepsPrefix result writer.old writer.new }
    ensures tokens { OnOk result (writer.new.tokens ≡ writer.old.tokens
        ++ flat_map (λ n. number (decimal n) ∷ []) numbers.now) }
{
    for value in numbers {
        writer.u64(*value)?;
    }
    Ok(())
}

/// Writes a member whose value is a number. Writes nothing for `None`.
#[tactic(auto, using(crate::proofs::JsonWriting::plain_member_rules))]
pub fn write_optional(writer: &mut Writer, name: &str, value: Option<u64>) -> Result<(), AllocError>
    ensures prefix { KeepsPrefix result writer.old writer.new }
    ensures members { OnOk result (writer.new.tokens ≡ writer.old.tokens
        ++ members_tokens (optional_member name.now value)) }
{
    let Some(value) = value else {
        return Ok(());
    };
    writer.key(name)?;
    writer.u64(value)
}

/// Writes a member whose value is `true` or `false`.
#[tactic(auto, using(crate::proofs::JsonWriting::plain_member_rules))]
pub fn write_flag(writer: &mut Writer, name: &str, flag: bool) -> Result<(), AllocError>
    ensures prefix { KeepsPrefix result writer.old writer.new }
    ensures members { OnOk result (writer.new.tokens ≡ writer.old.tokens
        ++ members_tokens (flag_member name.now flag)) }
{
    writer.key(name)?;
    writer.boolean(flag)
}

/// Writes a member whose value is a string: a number in lowercase hexadecimal digits.
pub fn write_hex(
    alloc: Global,
    writer: &mut Writer,
    name: &str,
    value: u64,
) -> Result<(), AllocError>
    ensures prefix { KeepsPrefix result writer.old writer.new }
    ensures members { OnOk result (writer.new.tokens ≡ writer.old.tokens
        ++ members_tokens (hex_member name.now value)) }
{
    let text = format!(in alloc; "{value:x}")?;
    write_text(writer, name, text.as_str())
}

/// Writes a member whose value is a string: two lowercase hexadecimal digits for each byte.
pub fn write_digits(
    alloc: Global,
    writer: &mut Writer,
    name: &str,
    bytes: &[u8],
) -> Result<(), AllocError>
    ensures prefix { KeepsPrefix result writer.old writer.new }
    ensures members { OnOk result (writer.new.tokens ≡ writer.old.tokens
        ++ members_tokens (digits_member name.now bytes.now)) }
{
    let digits = hex::encode(alloc, bytes)?;
    write_text(writer, name, digits.as_str())
}

/// Writes the member `cookie`: the eight bytes as a little-endian number, in lowercase hexadecimal
/// digits.
pub fn write_cookie(alloc: Global, writer: &mut Writer, cookie: &[u8; 8]) -> Result<(), AllocError>
    ensures prefix { KeepsPrefix result writer.old writer.new }
    ensures members { OnOk result (writer.new.tokens ≡ writer.old.tokens
        ++ members_tokens (cookie_member cookie.now)) }
{
    write_hex(alloc, writer, "cookie", LittleEndian::read_u64(cookie))
}

/// Writes a member whose value is the text of an IP address.
pub fn write_address(
    alloc: Global,
    writer: &mut Writer,
    name: &str,
    address: IpAddr,
) -> Result<(), AllocError>
    ensures prefix { KeepsPrefix result writer.old writer.new }
    ensures members { OnOk result (writer.new.tokens ≡ writer.old.tokens
        ++ members_tokens (address_member name.now address)) }
{
    let text = format!(in alloc; "{address}")?;
    write_text(writer, name, text.as_str())
}

/// Writes bytes that the owner of a socket chose: under `name` if they are valid UTF-8, or else
/// their hexadecimal digits under `hex_name`.
#[tactic(auto, using(crate::proofs::JsonWriting::bytes_member_rules))]
pub fn write_bytes(
    alloc: Global,
    writer: &mut Writer,
    name: &str,
    hex_name: &str,
    bytes: &[u8],
) -> Result<(), AllocError>
    ensures prefix { KeepsPrefix result writer.old writer.new }
    ensures members { OnOk result (writer.new.tokens ≡ writer.old.tokens
        ++ members_tokens (bytes_member name.now hex_name.now bytes.now)) }
{
    match str::from_utf8(bytes) {
        Ok(text) => write_text(writer, name, text),
        Err(_) => write_digits(alloc, writer, hex_name, bytes),
    }
}
