//! Records: types with a layout, and the traits that follow from the layout.

ghost use Rattle.std.specs.Prelude.{◌≡◌, ◌≢◌, ◌≤◌, IfErr, ℕ, List, length, take, SomeIff, false, ⊤};
ghost use Rattle.std.specs.Prelude.{refl};
ghost use Rattle.netlink_core.specs.Layout.{Layout, parse_record, parse_fields, record_bytes};
ghost use Rattle.netlink_core.specs.Layout.{IsInRange};
ghost use Rattle.netlink_core.specs.declared.error.DecodeError.TheVariants.{Memory};
ghost use Rattle.netlink_core.specs.Codec.{record_codec, RecordLaws};

use crate::{
    CanonError, DecodeError, Emitable, Exact, HasCodec, Parseable, ParseableParametrized,
    ReadParam, Readable, RecordName, Wire, write_new,
};
use std::alloc::{AllocError, Global};
use std::marker::{Model, PhantomData};

/// A record. Every record is also [`Wire`], and so [`HasCodec`] and [`Emitable`].
///
/// Bytes after the record are ignored. Too few bytes are [`DecodeError::BufferTooSmall`].
pub trait Record: Exact + Sized {
    /// The parameter of the parser.
    type Param: ReadParam;

    // The type of the tag, which selects the rows of the layout. By default there is one tag, and
    // so the rows are the same for all values.
    ghost Tag: { Type 0 } = { Unit {0} };

    // The layout of the record in bytes.
    ghost layout: { Layout Self.Param Tag Self };

    /// Returns the record's name in errors, and the fewest bytes that it is parsed from.
    fn name_and_least() -> (RecordName, usize)
        ensures { result ≡ (layout.name, layout.least) };

    /// Returns the number of bytes that the value serializes to.
    fn size(&self) -> usize
        ensures { result ≡ length (record_bytes layout self.now) };

    /// Parses a value, or returns the error that the layout has for these bytes, for example an
    /// unsupported family. There must be at least as many bytes as the layout needs (`least`).
    fn from_fields(bytes: &[u8], param: Self::Param) -> Result<Self, DecodeError>
        requires { layout.least ≤ length bytes.now }
        ensures { result ≡ parse_fields layout param bytes.now };

    /// Replaces the content of the buffer by the bytes that the value serializes to. The buffer
    /// must have exactly their length.
    fn write_fields(&self, buffer: &mut [u8])
        requires { length buffer.old ≡ length (record_bytes layout self.now) }
        ensures written { buffer.new ≡ record_bytes layout self.now }
        ensures in_range { IsInRange layout self.now };

    ghost laws: { RecordLaws layout };
}

/// Parses the record at the start of the bytes. Bytes after it are ignored. Fails with
/// `BufferTooSmall` if there are fewer bytes than the layout needs (`least`), then with the error
/// that the layout has for these bytes, for example an unsupported family. Never fails with
/// `Memory`.
#[inline(always)]
pub fn read_record<T: Record>(bytes: &[u8], param: T::Param) -> Result<T, DecodeError>
    ensures value { result ≡ parse_record T.layout param bytes.now }
    ensures not_memory { IfErr result (λ error. error ≢ Memory) }
{
    let (which, need) = T::name_and_least();
    if bytes.len() < need {
        let got = bytes.len();
        return Err(DecodeError::BufferTooSmall { which, got, need });
    }
    T::from_fields(bytes, param)
}

impl<T: Record> Readable for T {
    const TAKES_MEMORY: bool = false;

    ghost TAKES_MEMORY = { false };
}

impl<'a, T: Record<Param = ()>> Parseable<&'a [u8]> for T {
    fn parse(_alloc: Global, payload: &'a [u8]) -> Result<Self, DecodeError> {
        read_record(payload, ())
    }
}

impl<'a, T: Record<Param = u8>> ParseableParametrized<&'a [u8], u8> for T {
    fn parse_with_param(_alloc: Global, payload: &'a [u8], param: u8) -> Result<Self, DecodeError> {
        read_record(payload, param)
    }
}

impl<T: Record> Emitable for T {
    ghost bytes = { record_bytes T.layout };

    // Every value is writable: a record has no length fields.
    ghost writable = { λ _. ⊤ };

    ghost in_range = { IsInRange T.layout };

    fn is_writable(&self) -> bool {
        true
    }

    fn buffer_len(&self) -> usize {
        self.size()
    }

    fn emit(&self, buffer: &mut [u8]) {
        self.write_fields(&mut buffer[..self.size()]);
    }
}

impl<T: Record> HasCodec for T {
    type Param = T::Param;

    ghost codec = { record_codec T.layout };

    ghost model = { λ value. value };

    // A record is not a message.
    ghost serialized_type = { λ _. 0 };

    // The part of `Exact` that is about `==`.
    ghost eq_is_model = { T.exact.0 };

    ghost laws = { T.Record.laws.codec };
}

impl<T: Record> Wire for T {
    // In these three, both sides are the same by definition.
    ghost bytes_by_codec = { λ _. refl };

    ghost writable_by_codec = { λ _. (λ h. h, λ h. h) };

    ghost in_range_by_codec = { λ _ h. h };

    fn read(_alloc: Global, bytes: &[u8], param: T::Param) -> Result<Self, DecodeError> {
        read_record(bytes, param)
    }

    fn rewrite(alloc: Global, bytes: &[u8], param: T::Param) -> Result<Vec<u8>, CanonError> {
        // Borrowed, as moving a large value takes longer than serializing it.
        match &read_record::<T>(bytes, param) {
            Ok(value) => write_new(alloc, value),
            // `read_record` never fails with `Memory`.
            Err(error) => Err(CanonError::Refused(*error)),
        }
    }
}

/// A record whose values have `N` bytes each.
pub trait Fills<const N: usize>: Record {
    // Each value serializes to `N` bytes, and is parsed from at least `N`.
    ghost fills: { (Self.layout.least ≡ N)
        × ((value : Self) → length (record_bytes Self.layout value) ≡ N) };
}

/// The bytes of a record, unchanged, including those that no parser reads.
#[derive(Debug, Drop, PartialEq, Eq)]
pub struct RecordBuffer<T, const N: usize> {
    bytes: [u8; N],
    // The type of the record.
    of: PhantomData<T>,
}

impl<T, const N: usize> Clone for RecordBuffer<T, N> {
    ghost is_clone = { λ buffer copy. copy ≡ buffer };

    ghost is_infallible = { λ _. ⊤ };

    fn clone(&self) -> Result<Self, AllocError> {
        Ok(RecordBuffer {
            bytes: self.bytes,
            of: PhantomData,
        })
    }
}

// In contracts a buffer is the list of its bytes: `self.now` is this list, not the struct.
impl<T, const N: usize> Model for RecordBuffer<T, N> {
    ghost Value = { List ℕ };

    ghost view = { λ buffer. buffer.bytes };

    // The buffer with these bytes; `record {}` is the `PhantomData`.
    ghost inverse = { λ bytes. record { bytes = bytes; of = record {} } };
}

impl<T, const N: usize> RecordBuffer<T, N> {
    /// Returns the first `N` bytes, or `None` if there are fewer.
    pub fn read_prefix(payload: &[u8]) -> Option<Self>
        ensures { SomeIff result (N ≤ length payload.now) (take N payload.now) }
    {
        let bytes = *payload.first_chunk()?;
        Some(RecordBuffer {
            bytes,
            of: PhantomData,
        })
    }

    /// Returns the bytes.
    pub fn to_bytes(&self) -> [u8; N]
        ensures { result ≡ self.now }
    {
        self.bytes
    }
}

impl<T: Fills<N>, const N: usize> From<&T> for RecordBuffer<T, N> {
    // `IsInRange` is stated for the same reason as `in_range` of `Emitable`.
    ghost from_gives = { λ value buffer. (buffer ≡ record_bytes T.layout value.now)
        × IsInRange T.layout value.now };

    fn from(value: &T) -> Self {
        let mut bytes = [0; N];
        value.write_fields(&mut bytes);
        RecordBuffer {
            bytes,
            of: PhantomData,
        }
    }
}
