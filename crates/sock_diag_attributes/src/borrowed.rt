//! Traits of the parts that an attribute either owns or borrows. Their ghost members say what a
//! part is.

ghost use Rattle.std.specs.List.{AllByRecursion};
ghost use Rattle.std.specs.Prelude.{◌≡◌, ◌<◌, ◌^◌, ℕ, List, [], IfOk, IsOk, flat_map, vec_items};
ghost use Rattle.byteorder.specs.Endian.{little_bytes};
ghost use Rattle.netlink_core.specs.Attribute.{Attribute};
ghost use Rattle.netlink_core.specs.DefaultNla.{raw_attribute};
ghost use Rattle.netlink_core.specs.Walk.{buffered_attribute};
ghost use Rattle.sock_diag_attributes.specs.declared.unix.name.SocketName.{SocketName};
ghost use Rattle.sock_diag_attributes.specs.NameModel.{name_view_model, socket_name_model};
ghost use Rattle.sock_diag_attributes.specs.NumbersModel.{numbers_view_model};
ghost use Rattle.sock_diag_attributes.specs.private.Value.{value_bytes, IsValueInRange};

use crate::numbers::NumbersView;
use crate::unix::nlas::{NameView, UnixDiagName};
use crate::value::Value;
use netlink_core::{DefaultNla, NlaBuffer, copy_list};
use std::alloc::{AllocError, Global};

/// An attribute of an unknown kind, owned or borrowed.
pub(crate) trait OtherNla {
    // The type field and the value of the attribute.
    ghost attribute: { Self → Attribute };

    /// Returns the complete type field (`nla_type`), with its two flag bits.
    fn type_word(&self) -> u16
        ensures { result ≡ (attribute self.now).type_word };

    /// Returns the bytes of the value.
    fn bytes(&self) -> &[u8]
        ensures { result.now ≡ (attribute self.now).value };

    /// Returns the owned attribute, with the same type field and value. Fails only if an allocation
    /// fails. An empty value needs no allocation.
    fn to_owned_nla(&self, alloc: Global) -> Result<DefaultNla, AllocError>
        ensures equal { IfOk result (λ owned. raw_attribute owned ≡ attribute self.now) }
        ensures needs_no_memory { (attribute self.now).value ≡ [] → IsOk result };
}

impl OtherNla for DefaultNla {
    ghost attribute = { raw_attribute };

    #[inline(always)]
    fn type_word(&self) -> u16 {
        self.kind()
    }

    #[inline(always)]
    fn bytes(&self) -> &[u8] {
        self.value()
    }

    #[inline(always)]
    fn to_owned_nla(&self, alloc: Global) -> Result<DefaultNla, AllocError> {
        self.clone(alloc)
    }
}

impl OtherNla for NlaBuffer<'_> {
    ghost attribute = { buffered_attribute };

    #[inline(always)]
    fn type_word(&self) -> u16 {
        NlaBuffer::type_word(self)
    }

    #[inline(always)]
    fn bytes(&self) -> &[u8] {
        self.value()
    }

    #[inline(always)]
    fn to_owned_nla(&self, alloc: Global) -> Result<DefaultNla, AllocError> {
        Ok(DefaultNla::new(NlaBuffer::type_word(self), copy_list(alloc, self.value())?))
    }
}

/// The name of a UNIX socket, owned or borrowed.
pub(crate) trait BorrowName {
    // A path or an abstract name, with its bytes as a list.
    ghost name: { Self → SocketName (List ℕ) };

    /// Returns the name with borrowed bytes: a path for a path, and an abstract name for an
    /// abstract one, with the same bytes.
    fn borrow_name(&self) -> NameView<'_>
        ensures { name_view_model result ≡ name self.now };
}

impl BorrowName for UnixDiagName {
    ghost name = { socket_name_model vec_items };

    #[inline(always)]
    fn borrow_name(&self) -> NameView<'_> {
        self.view()
    }
}

impl BorrowName for NameView<'_> {
    ghost name = { name_view_model };

    #[inline(always)]
    fn borrow_name(&self) -> NameView<'_> {
        *self
    }
}

/// A list of 32-bit numbers, owned or borrowed.
pub(crate) trait BorrowNumbers {
    // The numbers in the list.
    ghost numbers: { Self → List ℕ };

    /// Returns the numbers as the value of an attribute, which serializes to four bytes for each
    /// number, little-endian.
    fn borrow_value(&self) -> Value<'_>
        ensures bytes { value_bytes result ≡ flat_map (little_bytes 4) (numbers self.now) }
        // Proof only, for the codec laws: if the returned value is in range, as every Rust value
        // is, then each number is below 2^32.
        ensures in_range { IsValueInRange result
            → AllByRecursion (λ n. n < 2 ^ 32) (numbers self.now) };

    /// Returns the numbers in an owned list. Fails only if an allocation fails. An empty list needs
    /// no allocation.
    fn to_list(&self, alloc: Global) -> Result<Vec<u32>, AllocError>
        ensures equal { IfOk result (λ list. list.items ≡ numbers self.now) }
        ensures needs_no_memory { numbers self.now ≡ [] → IsOk result };
}

impl BorrowNumbers for Vec<u32> {
    ghost numbers = { λ list. list.items };

    #[inline(always)]
    fn borrow_value(&self) -> Value<'_> {
        Value::Numbers(self)
    }

    #[inline(always)]
    fn to_list(&self, alloc: Global) -> Result<Vec<u32>, AllocError> {
        copy_list(alloc, self)
    }
}

impl BorrowNumbers for NumbersView<'_> {
    ghost numbers = { numbers_view_model };

    #[inline(always)]
    #[tactic(auto, using(crate::specs::laws::Number::bytes_of_whole_numbers))]
    fn borrow_value(&self) -> Value<'_> {
        Value::Bytes(self.bytes())
    }

    #[inline(always)]
    fn to_list(&self, alloc: Global) -> Result<Vec<u32>, AllocError> {
        self.to_owned(alloc)
    }
}
