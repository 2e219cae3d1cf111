//! Properties of replies that are read by this module, and of a copied rejection. Proof only: the
//! contract of each function states the property.

ghost use Rattle.std.specs.Prelude.{◌≡◌, List, map, IfOk, IsOk, IsTrue, Ok, Result};
ghost use Rattle.std.specs.Iterator.{Drains};
ghost use Rattle.netlink_core.specs.Attribute.{Attribute};
ghost use Rattle.netlink_core.specs.AttributeSet.{AttributeValue, decode_attribute};
ghost use Rattle.sock_diag_attributes.specs.InetAttributes.{inet_attribute_set};
ghost use Rattle.sock_diag_attributes.specs.InetModel.{inet_variant};
ghost use Rattle.sock_diag_attributes.specs.UnixAttributes.{unix_attribute_set};
ghost use Rattle.sock_diag_attributes.specs.UnixModel.{unix_variant};
ghost use Rattle.sock_diag_any.specs.AnyNla.{inet_value, read_any, unix_value};
ghost use Rattle.sock_diag_any.specs.AnyAgreement.{AgreesWithPort, has_kind};
ghost use Rattle.sock_diag_any.specs.AnyItems.{YieldsItem, item_model, items_left, rejection};
ghost use Rattle.sock_diag_any.specs.declared.nla.InfoFormat.TheVariants.{Unknown};
ghost use Rattle.sock_diag_any.specs.declared.nla.Sockets.TheVariants.{Inet, Unix};
ghost use Rattle.sock_diag_any.specs.declared.nla.AnyNla.{AnyNla};
ghost use Rattle.sock_diag_any.specs.declared.nlas.AnyNlas.{AnyNlas};
ghost use Rattle.sock_diag_any.specs.declared.nlas.Rejected.{Rejected};
ghost use Rattle.netlink_core.specs.declared.attribute.NlaBuffer.{NlaBuffer};

use crate::{AnyHeader, Rejected};
use std::alloc::AllocError;

/// States which items an `AnyNlas` yields until its end: all that it had left, in order.
pub fn complete_iteration()
    ensures { (nlas : AnyNlas) (given : List (Result (NlaBuffer × AnyNla) Rejected))
        → Drains YieldsItem nlas given → map item_model given ≡ items_left nlas }
{}

/// Returns the clone of a rejection. States that it has the same attribute and the same error, and
/// that `clone` never fails.
pub fn copied_rejected<'a>(rejected: &Rejected<'a>) -> Result<Rejected<'a>, AllocError>
    ensures ok { IsOk result }
    ensures same { IfOk result (λ copy. rejection copy ≡ rejection rejected.now) }
{
    rejected.clone()
}

/// Returns the clone of a header. It is equal, and `clone` never fails.
pub fn copied_any_header(header: &AnyHeader) -> Result<AnyHeader, AllocError>
    ensures ok { IsOk result }
    ensures same { IfOk result (λ copy. copy ≡ header.now) }
{
    header.clone()
}

/// The attributes of a reply about a UNIX socket, or about an IPv4 or IPv6 socket whose protocol is
/// not known, are accepted by the port if and only if no item is rejected, except attributes of
/// kinds that the port leaves raw. Otherwise its error is that of the first other rejected item.
pub fn items_agree_with_the_port()
    ensures unix { AgreesWithPort unix_attribute_set Unix }
    ensures inet { AgreesWithPort inet_attribute_set (Inet Unknown) }
{}

/// An attribute of a kind that the port decodes says what the port decodes it to.
pub fn values_agree_with_the_port()
    ensures unix { (a : Attribute) (v : AttributeValue unix_attribute_set)
        → IsTrue (has_kind unix_attribute_set a) → decode_attribute unix_attribute_set a ≡ Ok v
        → read_any Unix a ≡ unix_value a (unix_variant v) }
    ensures inet { (a : Attribute) (v : AttributeValue inet_attribute_set)
        → IsTrue (has_kind inet_attribute_set a) → decode_attribute inet_attribute_set a ≡ Ok v
        → read_any (Inet Unknown) a ≡ Ok (inet_value a (inet_variant v)) }
{}
