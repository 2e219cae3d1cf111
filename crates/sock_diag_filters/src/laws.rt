//! Properties of programs, of requests that are serialized and parsed, and of `==` and `clone`.
//! Proof only: the contract of each function states the property.

ghost use Rattle.std.specs.Prelude.{◌≡◌, ◌↔◌, ◌+◌, ◌^◌, ◌<◌, ◌≤◌, ℕ, Bool, List, [], ◌∷◌};
ghost use Rattle.std.specs.Prelude.{IfOk, IsOk, IsTrue, None, Option, length, replicate};
ghost use Rattle.std.specs.Borrow.{Bor};
ghost use Rattle.std.specs.declared.net.ip_addr.IpAddr.{IpAddr};
ghost use Rattle.netlink_core.specs.declared.error.DecodeError.{DecodeError};
ghost use Rattle.sock_diag_records.specs.Constants.{PairsAreEqual};
ghost use Rattle.sock_diag_filters.specs.declared.condition.Condition.{Condition};
ghost use Rattle.sock_diag_filters.specs.declared.filter.Filter.{Filter};
ghost use Rattle.sock_diag_filters.specs.declared.text.facts.SocketFacts.{SocketFacts};
ghost use Rattle.sock_diag_filters.specs.Conditions.{IsNewPrefix, arguments, code_of};
ghost use Rattle.sock_diag_filters.specs.Filters.{meaning};
ghost use Rattle.sock_diag_filters.specs.Postfix.{are_met, optional_meaning, optional_postfix};
ghost use Rattle.sock_diag_filters.specs.Postfix.{postfix};
ghost use Rattle.sock_diag_filters.specs.Programs.{IsProgram};
ghost use Rattle.sock_diag_filters.specs.Run.{Runs};
ghost use Rattle.sock_diag_filters.specs.SocketFacts.{are_known, facts_meet, socket_of};
ghost use Rattle.sock_diag_filters.specs.Sockets.{AreConditionsInRange, Socket};
ghost use Rattle.sock_diag_filters.specs.Sockets.{kernel_evaluates, meets};
ghost use Rattle.sock_diag_filters.specs.InetRequests.{ParsesAsRequest, IsRequestType};
ghost use Rattle.sock_diag_filters.specs.InetRequests.{IsRejectedRequest};
ghost use Rattle.sock_diag_filters.specs.InetRequests.{request_attribute_content};
ghost use Rattle.sock_diag_filters.specs.AnyRequest.{ParsesAsAnyRequest, AnyRequest, RecordFamily};
ghost use Rattle.sock_diag_filters.specs.AnyRequest.{IsRejectedAnyRequest, RecordRequest};
ghost use Rattle.sock_diag_filters.specs.AnyRequest.{of_family, unix};
ghost use Rattle.sock_diag_filters.specs.AnyReadBack.{IsParsedInetRequest, IsCompleteRecordRequest};
ghost use Rattle.sock_diag_filters.specs.AnyReadBack.{record_request_bytes};
ghost use Rattle.sock_diag_filters.specs.ReadBack.{IsRoundTrippingRequest, IsParsedRequest};
ghost use Rattle.sock_diag_filters.specs.Prefixes.{bits_of};
ghost use Rattle.sock_diag_filters.specs.Requests.{header_with_length, request_message};
ghost use Rattle.sock_diag_filters.specs.Uses.{dump_flags, example_request_header, listen_state};
ghost use Rattle.sock_diag_filters.specs.Uses.{tcp_request_with, zero_socket_id};
ghost use Rattle.sock_diag_filters.specs.declared.request.RequestAttribute.TheVariants.{Program};
ghost use Rattle.sock_diag_filters.specs.declared.request.RequestAttribute.TheVariants.{Protocol};
ghost use Rattle.sock_diag_filters.specs.declared.request.RequestWithAttributes.{
  RequestWithAttributes,
};
ghost use Rattle.sock_diag_filters.specs.ViewModels.{any_request_view_model};
ghost use Rattle.sock_diag_filters.specs.ViewModels.{record_request_view_model, request_view_model};
ghost use Rattle.sock_diag_filters.specs.declared.view.RequestView.{RequestView};

use crate::any::{AnyRequestView, RecordRequestView};
use crate::assembly::{AssembleError, MAX_PROGRAM};
use crate::codes::{
    INET_DIAG_BC_AUTO, INET_DIAG_BC_CGROUP_COND, INET_DIAG_BC_D_COND, INET_DIAG_BC_D_EQ,
    INET_DIAG_BC_D_GE, INET_DIAG_BC_D_LE, INET_DIAG_BC_DEV_COND, INET_DIAG_BC_JMP,
    INET_DIAG_BC_MARK_COND, INET_DIAG_BC_NOP, INET_DIAG_BC_S_COND, INET_DIAG_BC_S_EQ,
    INET_DIAG_BC_S_GE, INET_DIAG_BC_S_LE,
};
use crate::filter::Filter;
use crate::request::{
    INET_DIAG_REQ_BYTECODE, INET_DIAG_REQ_PROTOCOL, REQUEST_FRONT, RequestAttribute,
};
use crate::text::{MAX_PARSED_PROGRAM, MAX_PARTS};
use crate::view::RequestView;
use netlink_core::Exact;
use sock_diag_records::constants::SOCK_DIAG_BY_FAMILY;
use std::alloc::AllocError;

/// States that a `RequestWithAttributes` round-trips, if its request is in range and in normal form
/// and its lengths fit (`IsRoundTrippingRequest`). The bytes that it serializes to parse only as
/// its header with the length of the message, its request, and its last program and protocol.
/// `RequestView::parse` does not reject them if the message type is `SOCK_DIAG_BY_FAMILY` or
/// `SOCK_DESTROY`.
pub fn request_round_trips()
    // `ParsesAsRequest message view`: the message parses as this view. `request_message r`: the
    // bytes of the message of the request `r`. `IsParsedRequest r view`: the view has the content
    // that was serialized.
    ensures view { (r : RequestWithAttributes) (view : RequestView) → IsRoundTrippingRequest r
        → ParsesAsRequest (request_message r) view → IsParsedRequest r view }
    // `IsRequestType t`: the type is 20 (SOCK_DIAG_BY_FAMILY) or 21 (SOCK_DESTROY).
    // `IsRejectedRequest message e`: the message is rejected with `e`.
    ensures accepted { (r : RequestWithAttributes) (e : DecodeError) → IsRoundTrippingRequest r
        → IsRequestType r.header.message_type → ¬ IsRejectedRequest (request_message r) e }
{}

/// States that requests round-trip through `AnyRequestView::parse`.
///
/// - `records`, `records_accepted`: of a request for UNIX, netlink, packet, vsock or XDP sockets, a
///   header, a record and any bytes after it are accepted and parsed as these, if the record is in
///   range and in normal form, and the header has the type of a request and the length of the
///   message (`IsCompleteRecordRequest`).
/// - `inet`, `inet_accepted`: a `RequestWithAttributes` is accepted, and parsed as its header with
///   the length of the message, its request, and its last program and protocol, if its request is
///   in range and in normal form, its lengths fit (`IsRoundTrippingRequest`), and its header has
///   the type of a request.
pub fn any_request_round_trips()
    // Each clause is about all requests of its families. `RecordRequest family`: a header, a record
    // of the family, and bytes of attributes. `ParsesAsAnyRequest message other`: the message
    // parses as the request `other`. `record_request_bytes r`: the bytes of its message.
    // `of_family family r`: the request `r` of another family than IPv4 and IPv6.
    ensures records { (family : RecordFamily) (r : RecordRequest family) (other : AnyRequest)
        → IsCompleteRecordRequest r → ParsesAsAnyRequest (record_request_bytes r) other
        → other ≡ of_family family r }
    // `IsRejectedAnyRequest message e`: the message is rejected with `e`.
    ensures records_accepted { (family : RecordFamily) (r : RecordRequest family) (e : DecodeError)
        → IsCompleteRecordRequest r → ¬ IsRejectedAnyRequest (record_request_bytes r) e }
    // `request_message r`: the bytes of the message of a `RequestWithAttributes`.
    // `IsParsedInetRequest r other`: `other` is a request for IPv4 or IPv6 sockets with the content
    // that was serialized.
    ensures inet { (r : RequestWithAttributes) (other : AnyRequest) → IsRoundTrippingRequest r
        → IsRequestType r.header.message_type → ParsesAsAnyRequest (request_message r) other
        → IsParsedInetRequest r other }
    ensures inet_accepted { (r : RequestWithAttributes) (e : DecodeError)
        → IsRoundTrippingRequest r → IsRequestType r.header.message_type
        → ¬ IsRejectedAnyRequest (request_message r) e }
{}

/// States that requests with attributes meet the premises of [`request_round_trips`] and of
/// [`any_request_round_trips`].
///
/// - `inet`: a request for the listening TCP sockets over IPv4, with a program of at most 65,531
///   bytes and the protocol 262 (`IPPROTO_MPTCP`) as attributes;
/// - `unix`: a request for the listening UNIX sockets, with any bytes after its record.
pub fn requests_meet_the_premises()
    // `example_request_header message_type flags sequence_number`: a header with these numbers.
    // `tcp_request_with states socket_id`: a request for the TCP sockets in these states.
    ensures inet { (r : RequestWithAttributes) (program : Bor (List ℕ)) (sequence_number : ℕ)
        → sequence_number < 2 ^ 32 → length program.now ≤ MAX_PROGRAM
        → r.header ≡ example_request_header SOCK_DIAG_BY_FAMILY dump_flags sequence_number
        → r.request ≡ tcp_request_with listen_state zero_socket_id
        → r.attributes.now ≡ Program program ∷ Protocol 262 ∷ [] → IsRoundTrippingRequest r }
    // `record { 0 = bits }`: a set of flags. 24 and 16 are the lengths of the record and of the
    // header.
    ensures unix { (r : RecordRequest unix) (sequence_number : ℕ) → sequence_number < 2 ^ 32
        → 16 + (24 + length r.attributes) < 2 ^ 32
        → r.header ≡ header_with_length
        (example_request_header SOCK_DIAG_BY_FAMILY dump_flags sequence_number)
        (16 + (24 + length r.attributes))
        → r.request ≡ record {
          state_flags = record { 0 = listen_state };
          inode = 0;
          show_flags = record { 0 = 0x3f };
          cookie = replicate 8 255;
        } → IsCompleteRecordRequest r }
{}

/// States that `Prefix::new` does not return `None` for a number of bits that the address has.
pub fn fitting_bits_have_a_prefix()
    // `IsNewPrefix result address bits`: `Prefix::new` returns this for the address and the bits.
    // `bits_of address`: 32 or 128.
    ensures { (address : IpAddr) (bits : ℕ) → bits ≤ bits_of address
        → ¬ IsNewPrefix None address bits }
{}

/// States that a filter selects the same sockets under two readings of its conditions: under
/// `kernel_evaluates`, which the kernel computes from an operation's code and arguments, and under
/// `meets`, the documented meaning of the conditions. By the contract of `assemble`, a program
/// therefore selects a socket if and only if the socket meets its filter. The premise is that each
/// number of the filter fits its Rust type. For a `Filter` value, `assemble` promises it (clause
/// `in_range`).
#[tactic(auto, using(crate::proofs::Finding::evaluation_is_meaning))]
pub fn programs_select_by_filter()
    // For all sockets and filters. `AreConditionsInRange filter`: the premise on its numbers.
    // `meaning met filter`: whether the filter selects a socket, if `met` says which conditions the
    // socket meets. `code_of c` and `arguments c`: the operation of the condition `c`.
    ensures { (socket : Socket) (filter : Filter) → AreConditionsInRange filter
        → meaning (λ c. kernel_evaluates socket (code_of c) (arguments c)) filter
        ≡ meaning (meets socket) filter }
{}

/// States that the parts of a filter, in postfix order, are met if and only if the filter is. So
/// [`ParsedFilter::selects`](crate::ParsedFilter::selects) selects the sockets that the program of
/// the filter selects in the kernel, if what the filter compares is known.
#[tactic(auto, using(crate::proofs::Evaluating::filter_rules))]
pub fn parsed_filters_select_as_their_programs()
    // `optional_postfix filter`: the parts of the filter, as `ParsedFilter::parse` returns them.
    // `optional_meaning met filter`: whether the filter selects a socket, if `met` says which
    // conditions the socket meets.
    ensures meaning { (met : Condition → Bool) (filter : Option Filter)
        → are_met met (optional_postfix filter) ≡ optional_meaning met filter }
    // `IsProgram filter program`: this is a program of the filter, as `write_program` states it.
    ensures kernel { (facts : SocketFacts) (filter : Filter) (program : List ℕ)
        → IsTrue (are_known facts filter) → IsProgram filter program
        → Runs (kernel_evaluates (socket_of facts)) program
        (are_met (facts_meet facts) (postfix filter)) }
{}

/// States that a run of a program, with given results of its conditions (`condition_met`), has at
/// most one verdict.
#[tactic(auto, using(crate::proofs::Verdicts::one_verdict))]
pub fn one_verdict()
    // `condition_met code arguments`: whether the condition of an operation is met.
    // `Runs condition_met program verdict`: a run of the program has this verdict: whether the
    // socket is selected. Two verdicts `v` and `w` are equal.
    ensures { (condition_met : ℕ → List ℕ → Bool) (program : List ℕ) (v w : Bool)
        → Runs condition_met program v → Runs condition_met program w → v ≡ w }
{}

/// States that `==` of two attributes of requests is true if and only if they have the same kind
/// and the same content.
pub fn equal_request_attributes(
    attribute: &RequestAttribute<'_>,
    other: &RequestAttribute<'_>,
) -> bool
    ensures { IsTrue result
        ↔ (request_attribute_content attribute.now ≡ request_attribute_content other.now) }
{
    attribute == other
}

/// Clones an attribute of a request, which never fails and returns one of the same kind with the
/// same content.
pub fn copied_request_attribute<'a>(
    attribute: &RequestAttribute<'a>,
) -> Result<RequestAttribute<'a>, AllocError>
    ensures ok { IsOk result }
    ensures same { IfOk result (λ copy. request_attribute_content copy
        ≡ request_attribute_content attribute.now) }
{
    attribute.clone()
}

/// Clones a filter, which never fails and returns the same filter.
pub fn copied_filter<'a>(filter: &Filter<'a>) -> Result<Filter<'a>, AllocError>
    ensures ok { IsOk result }
    ensures same { IfOk result (λ copy. copy ≡ filter.now) }
{
    filter.clone()
}

/// States that `==` of two errors of `assemble` is true if and only if they are the same.
pub fn equal_assemble_errors(error: &AssembleError, other: &AssembleError) -> bool
    ensures { IsTrue result ↔ (error.now ≡ other.now) }
{
    error == other
}

/// States that `==` of two requests for IPv4 or IPv6 sockets is true if and only if they have the
/// same header, record, protocol and program.
pub fn equal_request_views(view: &RequestView<'_>, other: &RequestView<'_>) -> bool
    // `request_view_model`: the view with its program as a list of bytes.
    ensures { IsTrue result ↔ (request_view_model view.now ≡ request_view_model other.now) }
{
    view == other
}

/// States that `==` of two requests that consist of one record is true if and only if they have the
/// same header, the same record and the same bytes after it.
pub fn equal_record_request_views<R: Exact>(
    view: &RecordRequestView<'_, R>,
    other: &RecordRequestView<'_, R>,
) -> bool
    // `record_request_view_model`: the view with the bytes after its record as a list.
    ensures { IsTrue result
        ↔ (record_request_view_model view.now ≡ record_request_view_model other.now) }
{
    view == other
}

/// States that `==` of two requests of any family is true if and only if they are of the same
/// family and have the same content.
pub fn equal_any_request_views(view: &AnyRequestView<'_>, other: &AnyRequestView<'_>) -> bool
    // `any_request_view_model`: the family, and the model of the view of its request.
    ensures { IsTrue result ↔ (any_request_view_model view.now ≡ any_request_view_model other.now) }
{
    view == other
}

/// States the numeric value of each public constant: `PairsAreEqual` states that both numbers of
/// each pair are equal.
pub fn filter_constants_have_their_values()
    ensures codes { PairsAreEqual ((INET_DIAG_BC_NOP, 0) ∷ (INET_DIAG_BC_JMP, 1) ∷
        (INET_DIAG_BC_S_GE, 2) ∷ (INET_DIAG_BC_S_LE, 3) ∷ (INET_DIAG_BC_D_GE, 4) ∷
        (INET_DIAG_BC_D_LE, 5) ∷ (INET_DIAG_BC_AUTO, 6) ∷ (INET_DIAG_BC_S_COND, 7) ∷
        (INET_DIAG_BC_D_COND, 8) ∷ (INET_DIAG_BC_DEV_COND, 9) ∷ (INET_DIAG_BC_MARK_COND, 10)
        ∷ (INET_DIAG_BC_S_EQ, 11) ∷ (INET_DIAG_BC_D_EQ, 12) ∷ (INET_DIAG_BC_CGROUP_COND, 13)
        ∷ []) }
    ensures others { PairsAreEqual ((MAX_PROGRAM, 65531) ∷ (MAX_PARTS, 256) ∷
        (MAX_PARSED_PROGRAM, 7168) ∷ (INET_DIAG_REQ_BYTECODE, 1) ∷ (INET_DIAG_REQ_PROTOCOL, 3) ∷
        (REQUEST_FRONT, 72) ∷ []) }
{}
