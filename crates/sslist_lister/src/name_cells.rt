//! Cells with the names of UNIX sockets. `utf8` is the option `--utf8`. If a function of this
//! module fails, an allocation failed, and the content of the text is not specified. In the
//! contracts, `name_cell utf8 name` is the text of the cell, and `name_view_model` is a name, with
//! the bytes that it borrows as a list. The clauses `unescapes` state that the name can be read
//! back from the cell: `after` is the text that follows it. By the premise `after` begins with a
//! space or is empty, so it does not continue the name.

ghost use Rattle.std.specs.Prelude.{◌≡◌, ◌++◌, ◌≤◌, [], ℕ, List, OnOk, Some, drop};
ghost use Rattle.std.specs.Prelude.{option_map, vec_len};
ghost use Rattle.sslist_texts.specs.Escapes.{unescaped_bytes};
ghost use Rattle.sock_diag_attributes.specs.declared.unix.name.SocketName.TheVariants.{Abstract};
ghost use Rattle.sock_diag_attributes.specs.declared.unix.name.SocketName.TheVariants.{Pathname};
ghost use Rattle.sock_diag_attributes.specs.NameModel.{name_view_model};
ghost use Rattle.sslist_lister.specs.Widths.{cell_width, name_column, spaces_after};
ghost use Rattle.sslist_lister.specs.Table.{needs_escaped_first_byte, name_cell, name_of_cell};

use sock_diag_attributes::unix::nlas::NameView;
use sslist_texts::cells::push_digits;
use sslist_texts::names::push_shown;
use std::alloc::AllocError;
use unicode_width::UnicodeWidthStr;

/// Appends a column of this width with the name of a UNIX socket, or with `*` for `None`.
pub(crate) fn push_name_column(
    text: &mut Vec<u8>,
    width: usize,
    utf8: bool,
    name: Option<NameView<'_>>,
) -> Result<(), AllocError>
    ensures { OnOk result (text.new.items ≡ text.old.items
        ++ name_column utf8 width
        (name_cell utf8 (option_map name_view_model name.entry))) }
{
    let start = text.len();
    push_name(text, utf8, name)?;
    end_name_column(text, start, width, utf8)
}

/// Appends the name of a UNIX socket, or `*` for `None`.
fn push_name(text: &mut Vec<u8>, utf8: bool, name: Option<NameView<'_>>) -> Result<(), AllocError>
    ensures { OnOk result (text.new.items ≡ text.old.items
        ++ name_cell utf8 (option_map name_view_model name.entry)) }
{
    match name {
        Some(NameView::Pathname(path)) => push_path(text, utf8, path),
        Some(NameView::Abstract(address)) => push_abstract(text, utf8, address),
        None => Ok(text.push(b'*')?),
    }
}

/// Ends the column of a name that begins at the offset `start`: appends spaces until the column
/// takes `width` columns of a terminal, and one more space. A longer column is not cut. `start`
/// must be at most the length of the text.
fn end_name_column(
    text: &mut Vec<u8>,
    start: usize,
    width: usize,
    utf8: bool,
) -> Result<(), AllocError>
    requires { start ≤ vec_len text.old }
    ensures { OnOk result (text.new.items
        ≡ text.old.items ++ spaces_after utf8 width (drop start text.old.items)) }
{
    let spaces = width.saturating_sub(cell_width(utf8, &text[start..]));
    let Some(end) = text.len().checked_add(spaces) else {
        // A text of such a length cannot be allocated.
        return Err(AllocError);
    };
    text.resize(end, b' ')?;
    Ok(text.push(b' ')?)
}

/// Returns the number of columns that a cell takes in a terminal: the width of its characters if
/// `utf8` is set and the cell is valid UTF-8, or else a column for each byte.
fn cell_width(utf8: bool, cell: &[u8]) -> usize
    ensures { result ≡ cell_width utf8 cell.now }
{
    if !utf8 {
        return cell.len();
    }
    match str::from_utf8(cell) {
        Ok(text) => text.width(),
        Err(_) => cell.len(),
    }
}

/// Appends an abstract name after `@`.
fn push_abstract(text: &mut Vec<u8>, utf8: bool, address: &[u8]) -> Result<(), AllocError>
    ensures cell { OnOk result (text.new.items
        ≡ text.old.items ++ name_cell utf8 (Some (Abstract address.now))) }
    ensures unescapes { (after : List ℕ) → unescaped_bytes 0 after ≡ []
        → name_of_cell (name_cell utf8 (Some (Abstract address.now)) ++ after)
        ≡ Some (Abstract address.now) }
{
    text.push(b'@')?;
    push_shown(text, utf8, address)
}

/// Appends a path. The first byte is escaped if the path begins with `@` or is `*`, since the cell
/// would else be that of an abstract name or of no name.
fn push_path(text: &mut Vec<u8>, utf8: bool, path: &[u8]) -> Result<(), AllocError>
    ensures cell { OnOk result (text.new.items
        ≡ text.old.items ++ name_cell utf8 (Some (Pathname path.now))) }
    ensures unescapes { (after : List ℕ) → unescaped_bytes 0 after ≡ []
        → name_of_cell (name_cell utf8 (Some (Pathname path.now)) ++ after)
        ≡ Some (Pathname path.now) }
{
    if !needs_escaped_first_byte(path) {
        return push_shown(text, utf8, path);
    }
    push_digits(text, path[0])?;
    push_shown(text, utf8, &path[1..])
}

/// Returns whether a path begins with `@` or is `*`.
fn needs_escaped_first_byte(path: &[u8]) -> bool
    ensures { result ≡ needs_escaped_first_byte path.now }
{
    (!path.is_empty() && path[0] == b'@') || (path.len() == 1 && path[0] == b'*')
}
