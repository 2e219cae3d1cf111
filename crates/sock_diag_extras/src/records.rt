//! Consecutive records in the value of an attribute.

ghost use Rattle.std.specs.Prelude.{◌≡◌, ◌<◌, None, IfSome, length};
ghost use Rattle.std.specs.Iterator.{UpTo, at_most};
ghost use Rattle.std.specs.Iterator.SizeHint.{IsWithinCount};
ghost use Rattle.sock_diag_extras.specs.Records.{YieldsRecord};
ghost use Rattle.sock_diag_extras.specs.Models.{unread_record_bytes};

use crate::record::{AttributeRecord, read_attribute_record};
use std::marker::PhantomData;

/// An iterator over the records in the value of an attribute that is an array of records. It yields
/// them in order, and does not allocate.
#[derive(Drop)]
pub struct AttributeRecords<'a, T> {
    bytes: &'a [u8],
    record: PhantomData<T>,
}

impl<'a, T> AttributeRecords<'a, T> {
    /// Returns an iterator over the records in the value.
    pub fn new(value: &'a [u8]) -> AttributeRecords<'a, T>
        ensures { unread_record_bytes result ≡ value.entry.now }
    {
        AttributeRecords {
            bytes: value,
            record: PhantomData,
        }
    }

    /// Returns the bytes that were not parsed yet. After `next` has returned `None`, these are
    /// fewer than a record has; none are left if the length of the value is a multiple of the
    /// record's size.
    pub fn rest(&self) -> &'a [u8]
        ensures { result.now ≡ unread_record_bytes self.now }
    {
        self.bytes
    }
}

impl<'a, T: AttributeRecord> Iterator for AttributeRecords<'a, T> {
    type Item = T;

    ghost next_gives = { λ old given new. YieldsRecord T.layout (unread_record_bytes old) given
        (unread_record_bytes new) };

    // `next` requires that a record has at least one byte, so that each call leaves fewer bytes.
    ghost can_next = { λ _. 0 < T.layout.size };

    // At most one record for each byte.
    ghost remaining = { λ records. at_most (length (unread_record_bytes records)) };

    #[inline(always)]
    fn next(&mut self) -> Option<T> {
        let value = read_attribute_record(self.bytes)?;
        self.bytes = &self.bytes[T::size()..];
        Some(value)
    }

    /// Returns `(0, None)`: the number of records left is not computed in advance.
    fn size_hint(&self) -> (usize, Option<usize>)
        ensures unknown { result ≡ (0, None) }
        // The clauses of the trait follow from `unknown`. Of the number of items only the bound is
        // known.
        ensures lower { IsWithinCount result.0 (at_most (length (unread_record_bytes self.now))) }
        ensures upper { IfSome result.1 (UpTo (at_most (length (unread_record_bytes self.now)))) }
    {
        (0, None)
    }
}
