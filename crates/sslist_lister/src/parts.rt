//! Details of a line, each after a space. A function of this module allocates only to grow the
//! text. If it fails, an allocation failed, and the content of the text is not specified.

ghost use Rattle.std.specs.Prelude.{◌≡◌, ◌++◌, OnOk};
ghost use Rattle.sslist_lister.specs.Parts.{cookie_if_shown, hex_detail};
ghost use Rattle.sslist_lister.specs.Parts.{pair_detail, separator, timer_if_shown};
ghost use Rattle.sslist_lister.specs.Parts.{timer_name, timer_text};

use byteorder::{ByteOrder, LittleEndian};
use sock_diag_any::{InfoFormat, RawTimer, Sockets};
use sslist_command_line::{Detail, Options};
use sslist_texts::cells::{push_after, push_hex};
use std::alloc::AllocError;

/// The timer of a socket that has none.
pub(crate) const NO_TIMER: RawTimer = RawTimer {
    kind: 0,
    retransmits: 0,
    expires: 0,
};

/// Returns what separates the columns from the details: nothing with `-O`, or else a line feed and
/// a tab.
pub(crate) fn separator(options: Options<'_>) -> &'static [u8]
    ensures { result.now ≡ separator options.entry }
{
    if options.one_line { b"" } else { b"\n\t" }
}

/// Appends the timer in a reply about these sockets, if one runs and the group of details `Timer`
/// is shown: a space and `timer:(on,200ms,3)`, for a timer of the kind `on`, 200 milliseconds until
/// it expires and 3 retransmits.
pub(crate) fn push_shown_timer(
    text: &mut Vec<u8>,
    options: Options<'_>,
    sockets: Sockets,
    timer: &RawTimer,
) -> Result<(), AllocError>
    ensures { OnOk result (text.new.items
        ≡ text.old.items ++ timer_if_shown options.entry sockets timer.now) }
{
    if !options.shows(Detail::Timer) {
        return Ok(());
    }
    push_timer(text, sockets, timer)
}

/// Appends the kind of the timer, the time until it expires, and the number of retransmits. Appends
/// nothing if no timer runs.
fn push_timer(text: &mut Vec<u8>, sockets: Sockets, timer: &RawTimer) -> Result<(), AllocError>
    ensures { OnOk result (text.new.items ≡ text.old.items ++ timer_text sockets timer.now) }
{
    if timer.kind == 0 {
        return Ok(());
    }
    text.extend_from_slice(b" timer:(")?;
    text.extend_from_slice(name_of_timer(sockets, timer.kind))?;
    push_after(text, b",", timer.expires.into())?;
    push_after(text, b"ms,", timer.retransmits.into())?;
    Ok(text.push(b')')?)
}

/// Returns the name of a kind of timer (`idiag_timer`, sock_diag(7)) in a reply about these
/// sockets, as ss(8) prints 1 to 4. 5 is the timer of a delayed acknowledgement
/// (`IDIAG_TIMER_DELACK`) of Linux 7.2 and later. SCTP has one timer, that of a retransmission.
fn name_of_timer(sockets: Sockets, kind: u8) -> &'static [u8]
    ensures { result.now ≡ timer_name sockets kind }
{
    match (sockets, kind) {
        (Sockets::Inet(InfoFormat::Sctp), _) => b"T3_RTX",
        (_, 1) => b"on",
        (_, 2) => b"keepalive",
        (_, 3) => b"timewait",
        (_, 4) => b"persist",
        (_, 5) => b"delack",
        _ => b"unknown",
    }
}

/// Appends ` sk:` and the cookie, as a little-endian number in hexadecimal digits, if the group of
/// details `Extended` is shown.
pub(crate) fn push_shown_cookie(
    text: &mut Vec<u8>,
    options: Options<'_>,
    cookie: &[u8; 8],
) -> Result<(), AllocError>
    ensures { OnOk result (text.new.items
        ≡ text.old.items ++ cookie_if_shown options.entry cookie.now) }
{
    if !options.shows(Detail::Extended) {
        return Ok(());
    }
    text.extend_from_slice(b" sk:")?;
    push_hex(text, LittleEndian::read_u64(cookie))
}

/// Appends a space, a name, a colon and two numbers in decimal, in parentheses and separated by a
/// comma: ` unknown:(42,8)`.
pub(crate) fn push_pair(
    text: &mut Vec<u8>,
    name: &[u8],
    first: u64,
    second: u64,
) -> Result<(), AllocError>
    ensures { OnOk result (text.new.items ≡ text.old.items
        ++ pair_detail name.now first second) }
{
    text.push(b' ')?;
    text.extend_from_slice(name)?;
    push_after(text, b":(", first)?;
    push_after(text, b",", second)?;
    Ok(text.push(b')')?)
}

/// Appends a space, a name, a colon, `0x` and a number in lowercase hexadecimal digits. Example:
/// ` states:0x480`.
pub(crate) fn push_hex_detail(
    text: &mut Vec<u8>,
    name: &[u8],
    number: u64,
) -> Result<(), AllocError>
    ensures { OnOk result (text.new.items ≡ text.old.items ++ hex_detail name.now number) }
{
    text.push(b' ')?;
    text.extend_from_slice(name)?;
    text.extend_from_slice(b":0x")?;
    push_hex(text, number)
}
