//! Tables of words.

ghost use Rattle.std.specs.Prelude.{◌≡◌, map};
ghost use Rattle.sock_diag_filters.specs.Rows.{is_name, named_row, value_named, value_of};

/// Returns the value in the first row with this word, or `None` if there is none.
pub fn value_of<T: Copy>(rows: &[(&str, T)], word: &[u8]) -> Option<T>
    ensures { result ≡ value_of (map named_row rows.now) word.now }
{
    for &(other, value) in rows {
        if word == other.as_bytes() {
            return Some(value);
        }
    }
    None
}

/// Returns the value in the first row with this word, in upper or lower case, or `None` if there is
/// none.
pub(crate) fn value_named<T: Copy>(rows: &[(&str, T)], word: &[u8]) -> Option<T>
    ensures { result ≡ value_named (map named_row rows.now) word.now }
{
    for &(other, value) in rows {
        if is_name(word, other) {
            return Some(value);
        }
    }
    None
}

/// Returns whether a word is equal to a text, except for the case of ASCII letters.
fn is_name(word: &[u8], text: &str) -> bool
    ensures { result ≡ is_name word.now text.now }
{
    word.eq_ignore_ascii_case(text.as_bytes())
}
