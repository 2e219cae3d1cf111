//! The text before a table: the caption with the name of a file, and the heading; and the text
//! between two lists of sockets in a table. If a function of this module fails, an allocation
//! failed, and the content of the text is not specified.

ghost use Rattle.std.specs.Prelude.{◌≡◌, ◌++◌, IfOk, OnOk, option_map};
ghost use Rattle.sslist_lister.specs.Headings.{caption, list_heading, text_before_table};

use crate::line::HEADING;
use netlink_captures::PacketHeader;
use sslist_command_line::Options;
use sslist_texts::names::push_shown;
use sslist_texts::times::push_time;
use std::alloc::{AllocError, Global};

/// Returns the text before a table: a caption with the name of its file if `name` is given, and
/// the heading. It is empty with `-H` and with `--json`. Names are shown as names of sockets are.
pub fn heading(
    alloc: Global,
    options: Options<'_>,
    name: Option<&str>,
) -> Result<Vec<u8>, AllocError>
    ensures { IfOk result (λ text. text.items
        ≡ text_before_table options.entry (option_map (λ file. file.now) name.entry) HEADING.now) }
{
    let mut text = Vec::new(alloc);
    if options.no_heading || options.json {
        return Ok(text);
    }
    push_caption(&mut text, options.utf8, name)?;
    text.extend_from_slice(HEADING)?;
    Ok(text)
}

/// Appends a caption with the name of a file, which is shown as names of sockets are. `utf8` is the
/// option `--utf8`. Appends nothing for `None`.
fn push_caption(text: &mut Vec<u8>, utf8: bool, name: Option<&str>) -> Result<(), AllocError>
    ensures { OnOk result (text.new.items ≡ text.old.items
        ++ caption utf8 (option_map (λ file. file.now) name.entry)) }
{
    let Some(name) = name else {
        return Ok(());
    };
    text.extend_from_slice(b"==> ")?;
    push_shown(text, utf8, name.as_bytes())?;
    text.extend_from_slice(b" <==\n")
}

/// Appends the text before another list of sockets, which a repetition of the first request begins:
/// an empty line, a line with the time of the request, which is in `header`, and the heading.
/// Appends nothing if the request is not a repetition, and with `-H` and `--json`.
pub(crate) fn push_list_heading(
    text: &mut Vec<u8>,
    options: Options<'_>,
    header: &PacketHeader,
    is_repetition: bool,
) -> Result<(), AllocError>
    ensures { OnOk result (text.new.items ≡ text.old.items
        ++ list_heading options.entry header.now HEADING.now is_repetition) }
{
    if !is_repetition || options.no_heading || options.json {
        return Ok(());
    }
    text.extend_from_slice(b"\n==> ")?;
    push_time(text, header)?;
    text.extend_from_slice(b" <==\n")?;
    text.extend_from_slice(HEADING)
}
