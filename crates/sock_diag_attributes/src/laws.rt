//! Properties of attributes and names. Proof only: the contracts state the properties.

ghost use Rattle.std.specs.Prelude.{◌≡◌, ◌↔◌, ℕ, IsTrue, IsOk, IfOk, true};
ghost use Rattle.sock_diag_attributes.specs.NameModel.{name_view_model};
ghost use Rattle.sock_diag_attributes.specs.NumbersModel.{numbers_left, numbers_view_model};
ghost use Rattle.netlink_core.specs.AttributeSet.{AttributeValue, NeedsNoMemoryIn};
ghost use Rattle.netlink_core.specs.AttributeSet.{value_as_decoded};
ghost use Rattle.sock_diag_values.specs.declared.inet.tcp_info.TcpInfo.{TcpInfo};
ghost use Rattle.sock_diag_records.specs.declared.constants.TheConstants.{INET_DIAG_INFO};
ghost use Rattle.sock_diag_records.specs.declared.constants.TheConstants.{UNIX_DIAG_PEER};
ghost use Rattle.sock_diag_attributes.specs.InetAttributes.{inet_attribute_set};
ghost use Rattle.sock_diag_attributes.specs.InetModel.{inet_nla_view_model, inet_variant};
ghost use Rattle.sock_diag_attributes.specs.InetModel.{inet_variant_value};
ghost use Rattle.sock_diag_attributes.specs.UnixAttributes.{unix_attribute_set};
ghost use Rattle.sock_diag_attributes.specs.UnixModel.{unix_nla_view_model, unix_variant};
ghost use Rattle.sock_diag_attributes.specs.UnixModel.{unix_variant_value};

use crate::inet::nlas::{Nla as OwnedInetNla, NlaView as InetNlaView};
use crate::unix::nlas::{
    NameView, Nla as OwnedUnixNla, NlaView as UnixNlaView, NumbersIterator, NumbersView,
    UnixDiagName,
};
use netlink_core::Readable;
use std::alloc::AllocError;

/// Returns `TAKES_MEMORY` of three types: owned attributes of replies about UNIX sockets, owned
/// attributes of replies about IPv4 and IPv6 sockets, and owned names. Each is true: the parsers of
/// these types may allocate, and may return `Memory`.
pub fn parsers_take_memory() -> (bool, bool, bool)
    ensures { result ≡ (true, true, true) }
{
    (
        OwnedUnixNla::TAKES_MEMORY,
        OwnedInetNla::TAKES_MEMORY,
        UnixDiagName::TAKES_MEMORY,
    )
}

/// States of one number, the inode of a peer, and of one record, `struct tcp_info`, that attributes
/// with such a value need no memory. So clauses `needs_no_memory` promise that calls succeed.
pub fn numbers_and_records_need_no_memory()
    ensures number { (inode : ℕ) → NeedsNoMemoryIn unix_attribute_set
        (value_as_decoded unix_attribute_set UNIX_DIAG_PEER inode) }
    ensures record_value { (info : TcpInfo) → NeedsNoMemoryIn inet_attribute_set
        (value_as_decoded inet_attribute_set INET_DIAG_INFO info) }
{}

/// States that each decoded value of an attribute of a reply about a UNIX socket has a variant of
/// the enum `UnixNla`. `unix_variant value` is this variant, and `unix_variant_value` returns the
/// decoded value of a variant, which is `value` again. This determines what `unix_variant` returns.
#[tactic(auto, using(crate::specs::laws::Variant::same_unix_variant))]
pub fn unix_values_are_variants()
    ensures { (value : AttributeValue unix_attribute_set)
        → unix_variant_value (unix_variant value) ≡ value }
{}

/// States that each decoded value of an attribute of a reply about an IPv4 or IPv6 socket has a
/// variant of the enum `InetNla`. `inet_variant value` is this variant, and `inet_variant_value`
/// returns the decoded value of a variant, which is `value` again. This determines what
/// `inet_variant` returns.
#[tactic(auto, using(crate::specs::laws::Variant::same_inet_variant))]
pub fn inet_values_are_variants()
    ensures { (value : AttributeValue inet_attribute_set)
        → inet_variant_value (inet_variant value) ≡ value }
{}

/// States that `==` of two borrowed names is true if and only if both are paths or both are
/// abstract, with the same bytes.
pub fn equal_name_views(left: &NameView<'_>, right: &NameView<'_>) -> bool
    ensures { IsTrue result ↔ (name_view_model left.now ≡ name_view_model right.now) }
{
    left == right
}

/// States that `==` of two borrowed lists is true if and only if they have the same numbers in the
/// same order.
#[tactic(auto, using(crate::specs::laws::EqualUnix::number_views_equal))]
pub fn equal_numbers_views(left: &NumbersView<'_>, right: &NumbersView<'_>) -> bool
    ensures { IsTrue result ↔ (numbers_view_model left.now ≡ numbers_view_model right.now) }
{
    left == right
}

/// States that `==` of two borrowed attributes of replies about UNIX sockets is true if and only if
/// they have the same kind and equal values. Raw attributes are equal if they have the same type
/// field, with its flag bits, and the same bytes.
pub fn equal_unix_views(left: &UnixNlaView<'_>, right: &UnixNlaView<'_>) -> bool
    ensures { IsTrue result ↔ (unix_nla_view_model left.now ≡ unix_nla_view_model right.now) }
{
    left == right
}

/// States that `==` of two borrowed attributes of replies about IPv4 or IPv6 sockets is true if and
/// only if they have the same kind and equal values. Raw attributes are equal if they have the same
/// type field, with its flag bits, and the same bytes.
pub fn equal_inet_views(left: &InetNlaView<'_>, right: &InetNlaView<'_>) -> bool
    ensures { IsTrue result ↔ (inet_nla_view_model left.now ≡ inet_nla_view_model right.now) }
{
    left == right
}

/// Clones a borrowed name, which never fails and returns a name with the same bytes: a path for a
/// path, and an abstract name for an abstract one.
pub fn copied_name_view<'a>(view: &NameView<'a>) -> Result<NameView<'a>, AllocError>
    ensures ok { IsOk result }
    ensures same { IfOk result (λ copy. name_view_model copy ≡ name_view_model view.now) }
{
    view.clone()
}

/// Clones borrowed numbers, which never fails and returns the same numbers.
pub fn copied_numbers_view<'a>(view: &NumbersView<'a>) -> Result<NumbersView<'a>, AllocError>
    ensures ok { IsOk result }
    ensures same { IfOk result (λ copy. numbers_view_model copy ≡ numbers_view_model view.now) }
{
    view.clone()
}

/// Clones an iterator over numbers, which never fails and returns an iterator with the same numbers
/// left.
pub fn copied_numbers_walk<'a>(
    iterator: &NumbersIterator<'a>,
) -> Result<NumbersIterator<'a>, AllocError>
    ensures ok { IsOk result }
    ensures same { IfOk result (λ copy. numbers_left copy ≡ numbers_left iterator.now) }
{
    iterator.clone()
}

/// Clones a borrowed attribute of a reply about a UNIX socket, which never fails and returns an
/// attribute of the same kind with the same value. A raw attribute keeps its type field and bytes.
pub fn copied_unix_view<'a>(view: &UnixNlaView<'a>) -> Result<UnixNlaView<'a>, AllocError>
    ensures ok { IsOk result }
    ensures same { IfOk result (λ copy. unix_nla_view_model copy ≡ unix_nla_view_model view.now) }
{
    view.clone()
}

/// Clones a borrowed attribute of a reply about an IPv4 or IPv6 socket, which never fails and
/// returns an attribute of the same kind with the same value. A raw attribute keeps its type field
/// and bytes.
pub fn copied_inet_view<'a>(view: &InetNlaView<'a>) -> Result<InetNlaView<'a>, AllocError>
    ensures ok { IsOk result }
    ensures same { IfOk result (λ copy. inet_nla_view_model copy ≡ inet_nla_view_model view.now) }
{
    view.clone()
}
