//! Attributes in replies of one address family, borrowed and owned.

ghost use Rattle.std.specs.Prelude.{◌≡◌, ◌↔◌, Ok, Err, IfOk, IfErr, IsOk, IsTrue};
ghost use Rattle.netlink_core.specs.AttributeSet.{AttributeSet, AttributeValue, decode_attribute};
ghost use Rattle.netlink_core.specs.AttributeSet.{encode_attribute, NeedsNoMemoryIn, IsInRangeIn};
ghost use Rattle.netlink_core.specs.Walk.{buffered_attribute};

use crate::attribute::NlaBuffer;
use crate::error::DecodeError;
use crate::nla::Nla;
use std::alloc::{AllocError, Global};
use std::default::MadeWith;

/// A borrowed attribute in a reply of one family.
pub trait FamilyView<'a>: Nla + PartialEq + Sized {
    // The set of attribute types of the family.
    ghost attribute_set: { AttributeSet };

    // What the attribute decodes to by the set: a value of one of its types, or a raw attribute.
    ghost model: { Self → AttributeValue attribute_set };

    /// Returns what the attribute decodes to by the family's set: a value of the first type of its
    /// kind, or the raw attribute if no type has its kind. Fails with the error of the value if
    /// this type rejects it.
    fn read_view(nla: &NlaBuffer<'a>) -> Result<Self, DecodeError>
        ensures value { IfOk result (λ view.
            decode_attribute attribute_set (buffered_attribute nla.now) ≡ Ok (model view)) }
        ensures error { IfErr result (λ e.
            decode_attribute attribute_set (buffered_attribute nla.now) ≡ Err e) };

    /// Returns what the attribute decodes to by the family's set. The set must accept it:
    /// `read_view` does not fail.
    fn read_accepted(nla: &NlaBuffer<'a>) -> Self
        requires { IsOk (decode_attribute attribute_set (buffered_attribute nla.now)) }
        ensures { decode_attribute attribute_set (buffered_attribute nla.now) ≡ Ok (model result) };

    // An attribute serializes as what it decodes to.
    ghost attribute_by_model: { (view : Self)
        → Self.Nla.attribute view ≡ encode_attribute attribute_set (model view) };
}

/// An owned attribute in a reply of one family.
pub trait FamilyNla: Nla + PartialEq + MadeWith<Global> + Drop + Sized {
    /// The kind whose values are much larger than all others, if there is one. A parser of a list
    /// has a separate branch for it, so that the other kinds reserve no stack for its value.
    const LARGE_KIND: Option<u16> = None;

    // The set of attribute types of the family.
    ghost attribute_set: { AttributeSet };

    // What the attribute decodes to by the set: a value of one of its types, or a raw attribute.
    ghost model: { Self → AttributeValue attribute_set };

    /// Returns, owned, what the attribute decodes to by the family's set. The set must accept it.
    /// Fails only if an allocation fails, and never for a value that needs no memory.
    fn own_accepted(alloc: Global, nla: &NlaBuffer<'_>) -> Result<Self, AllocError>
        requires { IsOk (decode_attribute attribute_set (buffered_attribute nla.now)) }
        ensures equal { IfOk result (λ own.
            decode_attribute attribute_set (buffered_attribute nla.now) ≡ Ok (model own)) }
        ensures needs_no_memory { (value : AttributeValue attribute_set)
            → decode_attribute attribute_set (buffered_attribute nla.now) ≡ Ok value
            → NeedsNoMemoryIn attribute_set value → IsOk result };

    /// Returns an owned copy, which decodes to the same value (`model`). Fails only if an
    /// allocation fails, and never for a value that needs no memory.
    fn copy_nla(&self, alloc: Global) -> Result<Self, AllocError>
        ensures equal { IfOk result (λ copy. model copy ≡ model self.now) }
        ensures needs_no_memory { NeedsNoMemoryIn attribute_set (model self.now) → IsOk result };

    // An attribute serializes as what it decodes to.
    ghost attribute_by_model: { (nla : Self)
        → Self.Nla.attribute nla ≡ encode_attribute attribute_set (model nla) };

    // An attribute that is in range decodes to a value that is in range.
    ghost in_range_by_model: { (nla : Self) → Self.Nla.in_range nla
        → IsInRangeIn attribute_set (model nla) };

    // `==` compares what the attributes decode to.
    ghost eq_is_model: { (v w : Self) → IsTrue (Self.PartialEq.eq v w) ↔ (model v ≡ model w) };
}
