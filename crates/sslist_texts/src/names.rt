//! Names and other texts that the owner of a socket or the user of the program chose.

ghost use Rattle.std.specs.Prelude.{◌≡◌, ◌++◌, ℕ, List, IfOk, OnOk, chars, flat_map, string_bytes};
ghost use Rattle.sslist_texts.specs.Escapes.{unescaped_bytes, shown_character, escaped_byte};
ghost use Rattle.sslist_texts.specs.Escapes.{is_blank, is_left_to_right, is_shown_character};
ghost use Rattle.sslist_texts.specs.Escapes.{is_visible_category, shown_argument};
ghost use Rattle.sslist_texts.specs.Escapes.{shown_name, IsVisibleText};

use crate::cells::{is_printable, push_escaped_byte};
use std::alloc::{AllocError, Global};
use unicode::properties::{
    BidiClass, GeneralCategory, GeneralCategoryGroup, is_default_ignorable_code_point,
};

/// BRAILLE PATTERN BLANK.
const BRAILLE_BLANK: char = '\u{2800}';

/// MUSICAL SYMBOL NULL NOTEHEAD.
const NULL_NOTEHEAD: char = '\u{1d159}';

/// EGYPTIAN HIEROGLYPH FULL BLANK.
const HIEROGLYPH_FULL_BLANK: char = '\u{13441}';

/// EGYPTIAN HIEROGLYPH HALF BLANK.
const HIEROGLYPH_HALF_BLANK: char = '\u{13442}';

/// Appends a name so that it cannot break a line or a column. A byte from `!` to `~` except the
/// backslash is appended unchanged, any other byte as `\x` and two digits. If `utf8` is set and the
/// bytes are valid UTF-8, visible characters that are not ASCII are appended unchanged too, unless
/// they are written from right to left.
pub fn push_shown(text: &mut Vec<u8>, utf8: bool, bytes: &[u8]) -> Result<(), AllocError>
    ensures shown { OnOk result (text.new.items ≡ text.old.items ++ shown_name utf8 bytes.now) }
    // `later`: any text that follows. `unescaped_bytes` reads the bytes back from what is shown, so
    // two different names are never shown alike. It reads nothing of a `later` that begins with a
    // space. `0`: no byte is skipped.
    ensures unescapes { (later : List ℕ)
        → (unescaped_bytes 0 (shown_name utf8 bytes.now ++ later)
        ≡ bytes.now ++ unescaped_bytes 0 later) }
    ensures visible { IsVisibleText (shown_name utf8 bytes.now) }
{
    if !utf8 {
        return push_escaped(text, bytes);
    }
    match str::from_utf8(bytes) {
        Ok(name) => push_chars(text, name),
        Err(_) => push_escaped(text, bytes),
    }
}

/// Appends the characters of a text. A character that is not shown is escaped byte by byte.
fn push_chars(text: &mut Vec<u8>, name: &str) -> Result<(), AllocError>
    ensures { OnOk result (text.new.items
        ≡ text.old.items ++ flat_map shown_character (chars name.now)) }
{
    for c in name.chars() {
        push_char(text, c)?;
    }
    Ok(())
}

/// Appends a character if it is shown, or else its UTF-8 bytes, escaped.
fn push_char(text: &mut Vec<u8>, c: char) -> Result<(), AllocError>
    ensures { OnOk result (text.new.items ≡ text.old.items ++ shown_character c) }
{
    let mut buffer = [0u8; 4];
    let bytes = c.encode_utf8(&mut buffer).as_bytes();
    if is_shown(c) {
        text.extend_from_slice(bytes)
    } else {
        push_escaped(text, bytes)
    }
}

/// Returns whether a character is shown although it is not ASCII: a letter, number, punctuation or
/// symbol that is not blank, and is written from left to right or takes the direction of its
/// neighbors.
#[tactic(auto, unfolding(crate::specs::Escapes::is_shown_character))]
fn is_shown(c: char) -> bool
    ensures { result ≡ is_shown_character c }
{
    !c.is_ascii()
        && is_visible_category(GeneralCategory::for_char(c))
        && is_left_to_right(BidiClass::for_char(c))
        && !is_blank(c)
}

/// Returns whether characters of a general category are visible: letters, numbers, punctuation and
/// symbols are.
fn is_visible_category(category: GeneralCategory) -> bool
    ensures { result ≡ is_visible_category category }
{
    GeneralCategoryGroup::Letter.contains(category)
        || GeneralCategoryGroup::Number.contains(category)
        || GeneralCategoryGroup::Punctuation.contains(category)
        || GeneralCategoryGroup::Symbol.contains(category)
}

/// Returns whether characters of a bidirectional class are written from left to right, or take the
/// direction of their neighbors.
fn is_left_to_right(class: BidiClass) -> bool
    ensures { result ≡ is_left_to_right class }
{
    matches!(
        class,
        BidiClass::LeftToRight
            | BidiClass::EuropeanNumber
            | BidiClass::EuropeanSeparator
            | BidiClass::EuropeanTerminator
            | BidiClass::CommonSeparator
            | BidiClass::OtherNeutral
    )
}

/// Returns whether a character is blank although its general category is visible.
fn is_blank(c: char) -> bool
    ensures { result ≡ is_blank c }
{
    is_default_ignorable_code_point(c)
        || c == BRAILLE_BLANK
        || c == NULL_NOTEHEAD
        || c == HIEROGLYPH_FULL_BLANK
        || c == HIEROGLYPH_HALF_BLANK
}

/// Appends each byte as [`push_escaped_byte`] does.
fn push_escaped(text: &mut Vec<u8>, bytes: &[u8]) -> Result<(), AllocError>
    ensures { OnOk result (text.new.items ≡ text.old.items ++ flat_map escaped_byte bytes.now) }
{
    for byte in bytes {
        push_escaped_byte(text, *byte)?;
    }
    Ok(())
}

/// Returns an argument or the name of a file as it is shown on standard error: each byte that is
/// not from `!` to `~`, and each backslash, is `\x` and two digits. An empty one is `''`.
pub fn escaped(alloc: Global, bytes: &[u8]) -> Result<String, AllocError>
    ensures { IfOk result (λ shown. string_bytes shown ≡ shown_argument bytes.now) }
{
    if bytes.is_empty() {
        return String::from_str(alloc, "''");
    }
    let mut shown = String::new(alloc);
    for byte in bytes {
        push_byte_to_string(alloc, &mut shown, *byte)?;
    }
    Ok(shown)
}

/// Appends a byte to a `String` as [`push_escaped_byte`] does to a `Vec`.
fn push_byte_to_string(alloc: Global, shown: &mut String, byte: u8) -> Result<(), AllocError>
    ensures { OnOk result (string_bytes shown.new ≡ string_bytes shown.old ++ escaped_byte byte) }
{
    if is_printable(byte) {
        return shown.push(byte.into());
    }
    shown.push_str("\\x")?;
    shown.push_str(hex::encode(alloc, [byte].as_slice())?.as_str())
}
