//! Details of a socket: what a reply contains besides the columns, and the attributes that are
//! unknown or invalid. If a function of this module fails, an allocation failed, and the content of
//! the text is not specified. In the contracts, `buffered_attribute nla.now` is the attribute
//! `nla`, and `collected found.now` is what the attributes in `found` say.

ghost use Rattle.std.specs.Prelude.{◌≡◌, ◌++◌, Some, flat_map, OnOk};
ghost use Rattle.sslist_lister.specs.Parts.{separator, details_after_separator};
ghost use Rattle.netlink_core.specs.Walk.{buffered_attribute};
ghost use Rattle.sslist_lister.specs.Collected.{collected, other_model, slot_value};
ghost use Rattle.sslist_lister.specs.Details.{detail_group, details, invalid_attribute_text};
ghost use Rattle.sock_diag_any.specs.AnyNla.{any_model};
ghost use Rattle.sslist_lister.specs.Details.{other_detail, status_text};
ghost use Rattle.sslist_lister.specs.Details.{unknown_attribute_text, valid_detail};

use crate::attributes::{Status, memory_kind, show_any};
use crate::collected::{Attributes, Valid};
use crate::kinds::reason_of;
use crate::parts::{push_pair, push_shown_cookie, push_shown_timer, separator};
use netlink_core::{DecodeError, NlaBuffer};
use sock_diag_any::{AnyNla, RawTimer, Sockets};
use sock_diag_extras::constants::INET_DIAG_ULP_INFO;
use sock_diag_records::constants::{
    INET_DIAG_BBRINFO, INET_DIAG_CONG, INET_DIAG_DCTCPINFO, INET_DIAG_INFO, INET_DIAG_LOCALS,
    INET_DIAG_MD5SIG, INET_DIAG_MEMINFO, INET_DIAG_PEERS, INET_DIAG_VEGASINFO,
};
use sslist_command_line::{Detail, Options};
use sslist_texts::cells::push_after;
use std::alloc::AllocError;

/// Appends the details of a socket with this timer, this cookie and the attributes `found`. They
/// follow the separator, which is a line feed and a tab, or nothing with `-O`. Appends nothing if
/// there are no details.
pub(crate) fn push_details(
    text: &mut Vec<u8>,
    options: Options<'_>,
    timer: &RawTimer,
    cookie: &[u8; 8],
    found: &Attributes<'_>,
) -> Result<(), AllocError>
    ensures { OnOk result (text.new.items ≡ text.old.items
        ++ details_after_separator options.entry
        (details options.entry timer.now cookie.now (collected found.now))) }
{
    let start = text.len();
    text.extend_from_slice(separator(options))?;
    let after_separator = text.len();
    push_selected(text, options, timer, cookie, found)?;
    if text.len() == after_separator {
        text.truncate(start);
    }
    Ok(())
}

/// Appends the timer of a socket, its cookie, and the details of its attributes, as far as the
/// options select them.
#[tactic(auto, using(crate::proofs::Slots::detail_rules))]
fn push_selected(
    text: &mut Vec<u8>,
    options: Options<'_>,
    timer: &RawTimer,
    cookie: &[u8; 8],
    found: &Attributes<'_>,
) -> Result<(), AllocError>
    ensures { OnOk result (text.new.items ≡ text.old.items
        ++ details options.entry timer.now cookie.now (collected found.now)) }
{
    push_shown_timer(text, options, found.sockets, timer)?;
    push_shown_cookie(text, options, cookie)?;
    push_valid(text, options, found.sockets, &found.first.slots)?;
    push_others(text, options, found.sockets, found.others.as_slice())
}

/// Appends the facts of the valid attribute in each slot, if there is one and the options select
/// its group of details.
fn push_valid(
    text: &mut Vec<u8>,
    options: Options<'_>,
    sockets: Sockets,
    slots: &[Option<Valid<'_>>],
) -> Result<(), AllocError>
    ensures { OnOk result (text.new.items ≡ text.old.items
        ++ flat_map (λ slot. valid_detail options.entry sockets (slot_value slot)) slots.now) }
{
    for slot in slots {
        if let Some((kind, value)) = slot {
            push_facts(text, options, sockets, *kind, value)?;
        }
    }
    Ok(())
}

/// Appends the facts of a valid attribute of this kind, which says `value`, if the options select
/// its group of details.
fn push_facts(
    text: &mut Vec<u8>,
    options: Options<'_>,
    sockets: Sockets,
    kind: u16,
    value: &AnyNla<'_>,
) -> Result<(), AllocError>
    ensures { OnOk result (text.new.items ≡ text.old.items
        ++ valid_detail options.entry sockets (Some (kind, any_model value.now))) }
{
    if !options.shows(detail_group(sockets, kind)) {
        return Ok(());
    }
    let alloc = *text.allocator();
    show_any(text, alloc, options.utf8, sockets, value)
}

/// Appends each unknown or invalid attribute, if the options select its group of details.
fn push_others(
    text: &mut Vec<u8>,
    options: Options<'_>,
    sockets: Sockets,
    others: &[(NlaBuffer<'_>, Status)],
) -> Result<(), AllocError>
    ensures { OnOk result (text.new.items ≡ text.old.items
        ++ flat_map (λ other. other_detail options.entry sockets (other_model other)) others.now) }
{
    for (nla, status) in others {
        if options.shows(detail_group(sockets, nla.kind())) {
            push_status(text, nla, status)?;
        }
    }
    Ok(())
}

/// Returns the group of details that an attribute of this kind belongs to: `Memory` (`-m`),
/// `Connection` (`-i`) or `Extended` (`-e`).
fn detail_group(sockets: Sockets, kind: u16) -> Detail
    ensures { result ≡ detail_group sockets kind }
{
    match (sockets, kind) {
        (Sockets::Inet(_), INET_DIAG_MEMINFO) => Detail::Memory,
        _ if memory_kind(sockets) == Some(kind) => Detail::Memory,
        (
            Sockets::Inet(_),
            INET_DIAG_INFO
            | INET_DIAG_LOCALS
            | INET_DIAG_PEERS
            | INET_DIAG_VEGASINFO
            | INET_DIAG_CONG
            | INET_DIAG_DCTCPINFO
            | INET_DIAG_BBRINFO
            | INET_DIAG_MD5SIG
            | INET_DIAG_ULP_INFO,
        ) => Detail::Connection,
        _ => Detail::Extended,
    }
}

/// Appends an unknown or invalid attribute, by its status. Appends nothing for the status of a
/// valid one.
fn push_status(text: &mut Vec<u8>, nla: &NlaBuffer<'_>, status: &Status) -> Result<(), AllocError>
    ensures { OnOk result (text.new.items
        ≡ text.old.items ++ status_text (buffered_attribute nla.now) status.now) }
{
    match status {
        Ok(true) => Ok(()),
        Ok(false) => push_unknown(text, nla),
        Err(error) => push_invalid(text, nla, error),
    }
}

/// Appends the kind of an invalid attribute, the length of its value in bytes, and the reason.
/// Example: ` unread:(4,3,not-utf8)`.
fn push_invalid(
    text: &mut Vec<u8>,
    nla: &NlaBuffer<'_>,
    error: &DecodeError,
) -> Result<(), AllocError>
    ensures { OnOk result (text.new.items ≡ text.old.items
        ++ invalid_attribute_text (buffered_attribute nla.now) error.now) }
{
    push_after(text, b" unread:(", nla.kind().into())?;
    push_after(text, b",", nla.value().len() as u64)?;
    text.push(b',')?;
    text.extend_from_slice(reason_of(error).as_bytes())?;
    Ok(text.push(b')')?)
}

/// Appends the kind of an unknown attribute, and the length of its value in bytes. Example:
/// ` unknown:(42,8)`.
fn push_unknown(text: &mut Vec<u8>, nla: &NlaBuffer<'_>) -> Result<(), AllocError>
    ensures { OnOk result (text.new.items
        ≡ text.old.items ++ unknown_attribute_text (buffered_attribute nla.now)) }
{
    let length = nla.value().len() as u64;
    push_pair(text, b"unknown", nla.kind().into(), length)
}
