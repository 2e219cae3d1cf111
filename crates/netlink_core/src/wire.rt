//! Codecs: a parser and a serializer, with the properties that relate them.

ghost use Rattle.std.specs.Prelude.{◌≡◌, ◌≢◌, ◌↔◌, ℕ, IfOk, IfErr, OnOk, IsTrue};
ghost use Rattle.netlink_core.specs.Bytes.{IsBytes};
ghost use Rattle.netlink_core.specs.Canonical.{HasCanonicalForm, CanonicalFormFails};
ghost use Rattle.netlink_core.specs.Canonical.{SerializingFails};
ghost use Rattle.netlink_core.specs.Codec.{Codec, KeepsCodecLaws};
ghost use Rattle.netlink_core.specs.declared.error.DecodeError.TheVariants.{Memory};

use crate::{CanonError, DecodeError, Emitable, ReadParam, Readable};
use std::alloc::Global;

/// A type with a codec, which states how its values are parsed, serialized and compared, and with
/// the properties of this codec.
pub trait HasCodec: PartialEq + Sized {
    /// The parameter of the parser.
    type Param: ReadParam;

    // How values are parsed, serialized and compared.
    ghost codec: { Codec Self.Param };

    // The model of a value, to which the codec refers: its fields, and lists by their elements.
    ghost model: { Self → codec.Value };

    // The type field (`nlmsg_type`) that the netlink header of a message has; 0 if the values are
    // not messages.
    ghost serialized_type: { codec.Value → ℕ };

    /// Returns `self == other`: whether both values have the same model. Code that is generic over
    /// the type calls this function, since `==` of a type parameter has no such contract.
    fn equal(&self, other: &Self) -> bool
        ensures { IsTrue result ↔ (model self.now ≡ model other.now) }
    {
        self == other
    }

    // `==` compares the models.
    ghost eq_is_model: { (v w : Self) → IsTrue (Self.eq v w) ↔ (model v ≡ model w) };

    // The codec laws. [`laws::main_theorem`](crate::laws::main_theorem) follows from them.
    ghost laws: { KeepsCodecLaws codec };
}

/// A type that is parsed and serialized as its codec states.
pub trait Wire: HasCodec + Readable + Emitable {
    /// Parses a value with the parameter of the codec, or returns the first decode error. Fails
    /// with `Memory` only if a parser of the type can (`TAKES_MEMORY`), and if the bytes have a
    /// value that needs to allocate.
    fn read(alloc: Global, bytes: &[u8], param: Self::Param) -> Result<Self, DecodeError>
        // Each byte is below 256. This is so for all Rust values; it is stated for the proofs of
        // callers, as the codec laws require it.
        ensures in_range { IsBytes bytes.now }
        ensures value { IfOk result (λ v. Self.codec.parses bytes.now param (Self.model v)) }
        ensures error { IfErr result (λ e. e ≢ Memory → Self.codec.rejects bytes.now param e) }
        ensures memory { IfErr result (λ e. e ≡ Memory → IsTrue Self.TAKES_MEMORY) }
        ensures memory_needed { IfErr result (λ e. e ≡ Memory
            → (v : Self.codec.Value) × Self.codec.parses bytes.now param v
            × ¬ Self.codec.needs_no_memory v) };

    /// Returns the canonical form of the bytes, as [`canonical`](crate::canonical) does: the bytes
    /// that their value serializes to. `param` is the parameter of the codec. Fails with `Refused`
    /// and the first decode error, with `Unwritable` if the value is not writable, and with
    /// `Memory` only if it is.
    // A type that has a view serializes the view. Parsing an owned value could run out of memory,
    // even if the value is not writable.
    fn rewrite(alloc: Global, bytes: &[u8], param: Self::Param) -> Result<Vec<u8>, CanonError>
    where
        Self: Drop,
        ensures in_range { IsBytes bytes.now }
        ensures written { IfOk result (λ form.
            HasCanonicalForm Self.codec param bytes.now form.items) }
        ensures err { IfErr result (CanonicalFormFails Self.codec param bytes.now) };

    // `Emitable` serializes to the bytes that the codec states.
    ghost bytes_by_codec: { (v : Self) → Self.bytes v ≡ Self.codec.serialized (Self.model v) };

    // A value is writable for `Emitable` if and only if it is writable by the codec.
    ghost writable_by_codec: { (v : Self) → (Self.writable v
        ↔ Self.codec.is_writable (Self.model v)) };

    // A value that is in range for `Emitable` is in range by the codec, as the laws require.
    ghost in_range_by_codec: { (v : Self) → Self.in_range v
        → Self.codec.is_in_range (Self.model v) };
}

/// Serializes a value to a new vector of exactly its bytes. Fails with `Unwritable` if the value is
/// not writable, and with `Memory` only if it is.
pub fn write_new<T: Emitable>(alloc: Global, value: &T) -> Result<Vec<u8>, CanonError>
    ensures written { IfOk result (λ written.
        T.writable value.now × (written.items ≡ T.bytes value.now)) }
    ensures in_range { OnOk result (T.in_range value.now) }
    ensures err { IfErr result (SerializingFails T.writable value.now) }
{
    let Some(len) = value.writable_len() else {
        return Err(CanonError::Unwritable);
    };
    let mut written = vec![in alloc; 0; len]?;
    value.emit(&mut written);
    Ok(written)
}
