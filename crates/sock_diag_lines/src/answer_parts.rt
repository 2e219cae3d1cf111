//! The parts of answers. Each function appends to a text, and allocates nothing else. Except for
//! `push_refused`, it fails only if an allocation fails. After a failure, a part may have been
//! appended.

ghost use Rattle.std.specs.Prelude.{◌≡◌, ◌≢◌, ◌++◌, decimal, OnOk, option_map};
ghost use Rattle.hex.specs.Hex.{encode_lower};
ghost use Rattle.netlink_core.specs.declared.error.DecodeError.TheVariants.{Memory};
ghost use Rattle.sock_diag_attributes.specs.NameModel.{name_view_model};
ghost use Rattle.sock_diag_attributes.specs.NumbersModel.{numbers_view_model};
ghost use Rattle.sock_diag_lines.specs.HexField.{hex_field_of};
ghost use Rattle.sock_diag_lines.specs.AnswerText.{ok_text, refused_text};
ghost use Rattle.sock_diag_lines.specs.ViewLine.{comma_list, socket_name_text, value_field};

use netlink_core::DecodeError;
use netlink_packet_sock_diag::unix::nlas::{NameView, NumbersView};
use std::alloc::AllocError;
use std::io::Write;

/// Start of an answer that has the text of a value.
pub(crate) const OK: &[u8] = b"ok ";

/// The answer to bytes whose value is not writable.
pub(crate) const UNWRITABLE: &[u8] = b"unwritable";

/// A value that a reply does not contain, after a space.
const NONE: &[u8] = b" none";

/// Appends a number in decimal.
pub(crate) fn push_number(text: &mut Vec<u8>, number: u64) -> Result<(), AllocError>
    ensures { OnOk result (text.new.items ≡ text.old.items ++ decimal number) }
{
    match write!(text, "{number}") {
        Ok(()) => Ok(()),
        // Writing to a `Vec` fails only if an allocation fails.
        Err(_) => Err(AllocError),
    }
}

/// Appends bytes as a hex field: `-` for no bytes, else two hex digits for each byte.
pub(crate) fn push_field(text: &mut Vec<u8>, bytes: &[u8]) -> Result<(), AllocError>
    ensures { OnOk result (text.new.items ≡ text.old.items ++ hex_field_of bytes.now) }
{
    if bytes.is_empty() {
        return Ok(text.push(b'-')?);
    }
    push_digits(text, bytes)
}

/// Appends two hex digits in lower case for each byte.
fn push_digits(text: &mut Vec<u8>, bytes: &[u8]) -> Result<(), AllocError>
    ensures { OnOk result (text.new.items ≡ text.old.items ++ encode_lower bytes.now) }
{
    let start = text.len();
    // More digits than a `usize` counts cannot be allocated.
    let Some(count) = bytes.len().checked_mul(2) else {
        return Err(AllocError);
    };
    let Some(end) = start.checked_add(count) else {
        return Err(AllocError);
    };
    text.resize(end, 0)?;
    match hex::encode_to_slice(bytes, &mut text[start..]) {
        Ok(()) => Ok(()),
        // The buffer has two bytes for each byte, as many as its digits.
        Err(_) => unreachable!(),
    }
}

/// Appends `ok` and bytes as a hex field.
pub(crate) fn push_accepted(text: &mut Vec<u8>, bytes: &[u8]) -> Result<(), AllocError>
    ensures { OnOk result (text.new.items ≡ text.old.items ++ ok_text (hex_field_of bytes.now)) }
{
    text.extend_from_slice(OK)?;
    push_field(text, bytes)
}

/// Appends `refused` and the code of a decode error. Returns an `Err` if the error is `Memory`,
/// which is not an error of the bytes.
pub(crate) fn push_refused(text: &mut Vec<u8>, error: &DecodeError) -> Result<(), AllocError>
    // `Ok` also says that the error was not `Memory`.
    ensures { OnOk result ((error.now ≢ Memory)
        × (text.new.items ≡ text.old.items ++ refused_text error.now)) }
{
    match error {
        DecodeError::Memory => Err(AllocError),
        _ => {
            text.extend_from_slice(b"refused ")?;
            push_number(text, error.number().into())
        }
    }
}

/// Appends a space and a number, or ` none`.
pub(crate) fn push_optional_number(
    text: &mut Vec<u8>,
    number: Option<u32>,
) -> Result<(), AllocError>
    ensures { OnOk result (text.new.items ≡ text.old.items ++ value_field decimal number) }
{
    let Some(number) = number else {
        return text.extend_from_slice(NONE);
    };
    text.push(b' ')?;
    push_number(text, number.into())
}

/// Appends a space, `path:` or `abstract:`, and the bytes of a name as a hex field; or ` none`.
pub(crate) fn push_name_field(
    text: &mut Vec<u8>,
    name: Option<NameView<'_>>,
) -> Result<(), AllocError>
    ensures { OnOk result (text.new.items
        ≡ text.old.items ++ value_field socket_name_text (option_map name_view_model name.entry)) }
{
    match name {
        Some(NameView::Pathname(path)) => {
            text.extend_from_slice(b" path:")?;
            push_field(text, path)
        }
        Some(NameView::Abstract(address)) => {
            text.extend_from_slice(b" abstract:")?;
            push_field(text, address)
        }
        None => text.extend_from_slice(NONE),
    }
}

/// Appends a space and numbers separated by commas, `-` for an empty list; or ` none`.
pub(crate) fn push_numbers_field(
    text: &mut Vec<u8>,
    numbers: Option<NumbersView<'_>>,
) -> Result<(), AllocError>
    ensures { OnOk result (text.new.items
        ≡ text.old.items
        ++ value_field comma_list (option_map numbers_view_model numbers.entry)) }
{
    let Some(numbers) = numbers else {
        return text.extend_from_slice(NONE);
    };
    text.push(b' ')?;
    push_numbers(text, numbers)
}

/// Appends numbers separated by commas, or `-` for an empty list.
fn push_numbers(text: &mut Vec<u8>, numbers: NumbersView<'_>) -> Result<(), AllocError>
    ensures { OnOk result (text.new.items ≡ text.old.items
        ++ comma_list (numbers_view_model numbers.entry)) }
{
    let Some(first) = numbers.get(0) else {
        return Ok(text.push(b'-')?);
    };
    push_number(text, first.into())?;
    'rest: for index in 1..numbers.len() {
        let Some(number) = numbers.get(index) else {
            // The index is below `len`.
            unreachable!();
        };
        text.push(b',')?;
        push_number(text, number.into())?;
    }
    Ok(())
}
