//! The facts of the upper layer protocol of a TCP socket (`INET_DIAG_ULP_INFO`): its name, and what
//! TLS and MPTCP report. A function of this module that appends to a sink may fail: then an
//! allocation failed, and the content of the sink is not specified. `bytes` are nested attributes.
//!
//! In the contracts, `AddsFacts old new facts` states that the sink shows these facts after what it
//! showed before, and `AddsItems` states it of items. `S.content sink.old` and `S.content sink.new`
//! are what the sink shows before and after the call.

ghost use Rattle.std.specs.Prelude.{◌≡◌, OnOk, codes, flat_map, map, option_map, true};
ghost use Rattle.netlink_core.specs.Errors.{map_ok};
ghost use Rattle.sslist_facts.specs.Facts.{AddsFacts, AddsItems, json_group};
ghost use Rattle.sslist_facts.specs.Rows.{text_of};
ghost use Rattle.sslist_lister.specs.Pieces.{nested_value};
ghost use Rattle.sslist_lister.specs.UlpInfo.{has_fields, nested_group, presence_facts};
ghost use Rattle.sslist_lister.specs.UlpInfo.{subflow_facts, tls_facts, token_facts, ulp_facts};
ghost use Rattle.sslist_lister.specs.UlpInfo.{ulp_name, ulp_number, ulp_parts, ulp_row};
ghost use Rattle.sslist_lister.specs.UlpInfo.{ulp_row_of, ulp_rows};

use crate::attributes::Status;
use crate::pieces::{find_number, find_value};
use netlink_core::{DecodeError, parse_str};
use sock_diag_extras::constants::{
    INET_ULP_INFO_MPTCP, INET_ULP_INFO_NAME, INET_ULP_INFO_TLS, TLS_INFO_RX_NO_PAD,
    TLS_INFO_ZC_RO_TX,
};
use sock_diag_extras::{SubflowField, TlsField};
use sslist_facts::{FactSink, Shown};
use std::alloc::AllocError;

/// A number in the nested attributes.
#[derive(Clone, Copy)]
enum UlpField {
    /// A field about TLS.
    Tls(TlsField),
    /// A field of a subflow of an MPTCP connection.
    Subflow(SubflowField),
}

/// A row: how the table shows a number, its text there, its name in JSON, and its field.
type UlpRow = (Shown, &'static [u8], Option<&'static str>, UlpField);

/// A number about TLS.
macro_rules! tls {
    ($format:ident, $text:literal, $member:expr, $field:ident) => {
        (
            Shown::$format,
            $text,
            $member,
            UlpField::Tls(TlsField::$field),
        )
    };
}

/// A number of a subflow.
macro_rules! subflow {
    ($format:ident, $text:literal, $member:expr, $field:ident) => {
        (
            Shown::$format,
            $text,
            $member,
            UlpField::Subflow(SubflowField::$field),
        )
    };
}

/// The numbers about TLS. `rxconf` has two rows, since the table shows it before `txconf`, and JSON
/// after it.
static TLS_ROWS: [UlpRow; 6] = [
    tls!(Version, b" version:", Some("version"), Version),
    tls!(Cipher, b" cipher:", Some("cipher"), Cipher),
    tls!(Mode, b" rxconf:", None, Receiving),
    tls!(Mode, b" txconf:", Some("txconf"), Sending),
    tls!(Never, b"", Some("rxconf"), Receiving),
    (
        Shown::Always,
        b" tx_max_payload_len:",
        Some("tx_max_payload_len"),
        UlpField::Tls(TlsField::SendingMaxPayload),
    ),
];

/// The flags of a subflow in the table, as letters.
static FLAG_ROWS: [UlpRow; 1] = [subflow!(Letters, b" flags:", None, Flags)];

/// The tokens of a connection and the ids of the addresses in the table, which has
/// ` token:REMOTE(id:ID)/LOCAL(id:ID)`.
static TOKEN_ROWS: [UlpRow; 4] = [
    subflow!(Hex, b" token:", None, RemoteToken),
    subflow!(Closed, b"(id:", None, RemoteId),
    subflow!(Hex, b"/", None, LocalToken),
    subflow!(Closed, b"(id:", None, LocalId),
];

/// The numbers of a subflow. The table shows the flags, the tokens and the ids before these, by the
/// rows above.
static SUBFLOW_ROWS: [UlpRow; 10] = [
    subflow!(Never, b"", Some("token_rem"), RemoteToken),
    subflow!(Never, b"", Some("token_loc"), LocalToken),
    subflow!(Never, b"", Some("relwrite_seq"), RelativeWriteSequence),
    subflow!(Hex, b" seq:", Some("map_seq"), MapSequence),
    subflow!(Hex, b" sfseq:", Some("map_sfseq"), MapSubflowSequence),
    subflow!(Hex, b" ssnoff:", Some("ssn_offset"), SequenceOffset),
    subflow!(Hex, b" maplen:", Some("map_datalen"), MapLength),
    subflow!(Never, b"", Some("flags"), Flags),
    subflow!(Never, b"", Some("id_rem"), RemoteId),
    subflow!(Never, b"", Some("id_loc"), LocalId),
];

/// Returns the status of an attribute with this value: if it has no valid name, the error of the
/// name.
pub(crate) fn status_of_ulp(value: &[u8]) -> Status
    ensures { result ≡ map_ok (λ name. true) (ulp_name value.now) }
{
    match name_of_protocol(value) {
        Ok(_) => Ok(true),
        Err(error) => Err(error),
    }
}

/// Shows the upper layer protocol in the value of an attribute. Shows nothing if the value has no
/// valid name.
pub(crate) fn show_ulp<S: FactSink>(sink: &mut S, value: &[u8]) -> Result<(), AllocError>
    ensures { OnOk result (AddsFacts (S.content sink.old) (S.content sink.new)
        (ulp_facts value.now)) }
{
    match name_of_protocol(value) {
        Ok(name) => show_ulp_info(sink, name, value),
        Err(_) => Ok(()),
    }
}

/// Shows the name of a protocol, and what the value has about TLS and MPTCP, as an object in JSON.
/// The table has no text around them.
fn show_ulp_info<S: FactSink>(sink: &mut S, name: &str, value: &[u8]) -> Result<(), AllocError>
    ensures { OnOk result (AddsFacts (S.content sink.old) (S.content sink.new)
        (json_group (codes "ulp_info") (ulp_parts name.now value.now))) }
{
    sink.begin(b"", "ulp_info")?;
    show_ulp_parts(sink, name, value)?;
    sink.end(b"")
}

/// Shows the name of a protocol, and what the value has about TLS and MPTCP.
fn show_ulp_parts<S: FactSink>(sink: &mut S, name: &str, value: &[u8]) -> Result<(), AllocError>
    ensures { OnOk result (AddsFacts (S.content sink.old) (S.content sink.new)
        (ulp_parts name.now value.now)) }
{
    sink.name(false, b" tcp-ulp-", "name", name)?;
    show_tls(sink, value)?;
    show_subflow(sink, value)
}

/// Shows what TLS reports, if the value has it.
fn show_tls<S: FactSink>(sink: &mut S, value: &[u8]) -> Result<(), AllocError>
    ensures { OnOk result (AddsFacts (S.content sink.old) (S.content sink.new)
        (nested_group (codes "tls") tls_facts (nested_value INET_ULP_INFO_TLS value.now))) }
{
    match find_value(value, INET_ULP_INFO_TLS) {
        Some(bytes) => show_tls_info(sink, bytes),
        None => Ok(()),
    }
}

/// Shows what TLS reports, as a group.
fn show_tls_info<S: FactSink>(sink: &mut S, bytes: &[u8]) -> Result<(), AllocError>
    ensures { OnOk result (AddsFacts (S.content sink.old) (S.content sink.new)
        (json_group (codes "tls") (tls_facts bytes.now))) }
{
    sink.begin(b"", "tls")?;
    show_tls_parts(sink, bytes)?;
    sink.end(b"")
}

/// Shows the numbers about TLS, and whether each flag is present.
fn show_tls_parts<S: FactSink>(sink: &mut S, bytes: &[u8]) -> Result<(), AllocError>
    ensures { OnOk result (AddsFacts (S.content sink.old) (S.content sink.new)
        (tls_facts bytes.now)) }
{
    show_fields(sink, bytes, &TLS_ROWS)?;
    show_presence(sink, bytes, TLS_INFO_ZC_RO_TX, b" zc_ro_tx", "zc_ro_tx")?;
    show_presence(sink, bytes, TLS_INFO_RX_NO_PAD, b" no_pad_rx", "rx_no_pad")
}

/// Shows whether the nested attributes have one of this kind. If so, the table shows `text`, or
/// else nothing. JSON has `member`, as `true` or `false`.
fn show_presence<S: FactSink>(
    sink: &mut S,
    bytes: &[u8],
    kind: u16,
    text: &[u8],
    member: &str,
) -> Result<(), AllocError>
    ensures { OnOk result (AddsFacts (S.content sink.old) (S.content sink.new)
        (presence_facts kind text.now member.now bytes.now)) }
{
    let is_present = find_value(bytes, kind).is_some();
    // The flag is the number 0 or 1, so `Bits(1)` shows the text if it is set.
    sink.flag(Shown::Bits(1), text, member, is_present)
}

/// Shows what MPTCP reports, if the value has it.
fn show_subflow<S: FactSink>(sink: &mut S, value: &[u8]) -> Result<(), AllocError>
    ensures { OnOk result (AddsFacts (S.content sink.old) (S.content sink.new)
        (nested_group (codes "mptcp") subflow_facts (nested_value INET_ULP_INFO_MPTCP value.now))) }
{
    match find_value(value, INET_ULP_INFO_MPTCP) {
        Some(bytes) => show_subflow_info(sink, bytes),
        None => Ok(()),
    }
}

/// Shows what MPTCP reports, as a group.
fn show_subflow_info<S: FactSink>(sink: &mut S, bytes: &[u8]) -> Result<(), AllocError>
    ensures { OnOk result (AddsFacts (S.content sink.old) (S.content sink.new)
        (json_group (codes "mptcp") (subflow_facts bytes.now))) }
{
    sink.begin(b"", "mptcp")?;
    show_subflow_parts(sink, bytes)?;
    sink.end(b"")
}

/// Shows the flags, the tokens and the numbers of a subflow.
fn show_subflow_parts<S: FactSink>(sink: &mut S, bytes: &[u8]) -> Result<(), AllocError>
    ensures { OnOk result (AddsFacts (S.content sink.old) (S.content sink.new)
        (subflow_facts bytes.now)) }
{
    show_fields(sink, bytes, &FLAG_ROWS)?;
    show_tokens(sink, bytes)?;
    show_fields(sink, bytes, &SUBFLOW_ROWS)
}

/// In the table, shows the tokens of a connection and the ids of the addresses, if all four are
/// present. JSON has them among the numbers of the subflow.
fn show_tokens<S: FactSink>(sink: &mut S, bytes: &[u8]) -> Result<(), AllocError>
    ensures { OnOk result (AddsFacts (S.content sink.old) (S.content sink.new)
        (token_facts bytes.now)) }
{
    if has_fields(bytes, &TOKEN_ROWS) {
        show_fields(sink, bytes, &TOKEN_ROWS)
    } else {
        Ok(())
    }
}

/// Returns whether the nested attributes have the field of each row.
fn has_fields(bytes: &[u8], rows: &[UlpRow]) -> bool
    ensures { result ≡ has_fields bytes.now (map ulp_row_of rows.now) }
{
    for &(_, _, _, field) in rows {
        if number_of(bytes, field).is_none() {
            return false;
        }
    }
    true
}

/// Shows the number of each row, if the nested attributes have its field, in the order of the rows.
fn show_fields<S: FactSink>(sink: &mut S, bytes: &[u8], rows: &[UlpRow]) -> Result<(), AllocError>
    ensures { OnOk result (AddsFacts (S.content sink.old) (S.content sink.new)
        (ulp_rows bytes.now (map ulp_row_of rows.now))) }
{
    show_rows(sink, bytes, rows)
}

/// Does what [`show_fields`] does. The contract states it of items, as the loop appends them.
fn show_rows<S: FactSink>(sink: &mut S, bytes: &[u8], rows: &[UlpRow]) -> Result<(), AllocError>
    ensures { OnOk result (AddsItems (S.content sink.old) (S.content sink.new)
        (flat_map (λ row. S.items (ulp_row bytes.now (ulp_row_of row))) rows.now)) }
{
    for &(format, text, member, field) in rows {
        show_row(sink, bytes, format, text, member, field)?;
    }
    Ok(())
}

/// Shows a number, if the nested attributes `bytes` have its field. The table shows it by `format`,
/// after `text`. JSON has it under `member`, or not at all for `None`.
#[tactic(auto, using(sslist_facts::proofs::Rows::same), unfolding(crate::specs::UlpInfo::ulp_row))]
fn show_row<S: FactSink>(
    sink: &mut S,
    bytes: &[u8],
    format: Shown,
    text: &[u8],
    member: Option<&str>,
    field: UlpField,
) -> Result<(), AllocError>
    ensures { OnOk result (AddsFacts (S.content sink.old) (S.content sink.new)
        (ulp_row bytes.now (
          format,
          record { now = text.now },
          option_map text_of member.entry,
          field,
        ))) }
{
    match number_of(bytes, field) {
        Some(number) => sink.number(format, text, member, number),
        None => Ok(()),
    }
}

/// Returns the number of a field. Returns `None` if the nested attributes `bytes` do not have it.
fn number_of(bytes: &[u8], field: UlpField) -> Option<u64>
    ensures { result ≡ ulp_number bytes.now field }
{
    match field {
        UlpField::Tls(field) => {
            let (kind, width) = field.row();
            find_number(bytes, kind, width)
        }
        UlpField::Subflow(field) => {
            let (kind, width) = field.row();
            find_number(bytes, kind, width)
        }
    }
}

/// Returns the name of the protocol in a value, without its terminating NUL if it has one. Fails if
/// there is no name, or if it is not valid UTF-8.
fn name_of_protocol<'a>(value: &'a [u8]) -> Result<&'a str, DecodeError>
    ensures { map_ok (λ name. name.now) result ≡ ulp_name value.entry.now }
{
    match find_value(value, INET_ULP_INFO_NAME) {
        Some(name) => parse_str(name),
        None => Err(DecodeError::NameEmpty),
    }
}
