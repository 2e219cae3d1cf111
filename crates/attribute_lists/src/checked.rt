//! An iterator that checks the attributes of a reply as it yields them.

ghost use Rattle.std.specs.Prelude.{◌≡◌, ◌+◌, ◌/◌, length, None, IfSome};
ghost use Rattle.std.specs.Iterator.{UpTo, at_most};
ghost use Rattle.std.specs.Iterator.SizeHint.{IsWithinCount};
ghost use Rattle.attribute_lists.specs.CheckedModel.{YieldsDecoded, unchecked_bytes};

use netlink_core::{DecodeError, FamilyView, NlasIterator};
use std::marker::PhantomData;

/// An iterator over the attributes in bytes, in order, each of which is parsed and checked when it
/// is yielded. It does not allocate, and reads each attribute once.
///
/// The first error of the framing or of a value is the last item. So the bytes are valid if the
/// iterator ends without an error. `V` is the family's borrowed attribute (`FamilyView`), by whose
/// set of types a value is checked.
#[derive(Drop)]
pub struct CheckedNlas<'a, V> {
    walk: NlasIterator<'a>,
    view: PhantomData<V>,
}

impl<'a, V> CheckedNlas<'a, V> {
    /// Returns an iterator over the attributes in the bytes.
    pub fn new(bytes: &'a [u8]) -> CheckedNlas<'a, V>
        ensures { unchecked_bytes result ≡ bytes.entry.now }
    {
        CheckedNlas {
            walk: NlasIterator::new(bytes),
            view: PhantomData,
        }
    }
}

impl<'a, V: FamilyView<'a>> Iterator for CheckedNlas<'a, V> {
    type Item = Result<V, DecodeError>;

    ghost next_gives = { YieldsDecoded V.attribute_set V.model };

    // At most one item for each four bytes that are left, rounded up, since an attribute has at
    // least 4 bytes and an error is the last item.
    ghost remaining = { λ nlas. at_most ((length (unchecked_bytes nlas) + 3) / 4) };

    /// Returns the value of the attribute at the start of the bytes that are left, and continues
    /// after its padding. Returns the first error if these bytes do not start with an attribute, or
    /// if its value is rejected; then no bytes are left. Returns `None` if and only if no bytes
    /// were left.
    #[inline(always)]
    fn next(&mut self) -> Option<Result<V, DecodeError>> {
        let nla = match self.walk.next()? {
            Ok(nla) => nla,
            Err(error) => return Some(Err(error)),
        };
        let view = V::read_view(&nla);
        if view.is_err() {
            // An error is the last item: no bytes are left.
            self.walk = NlasIterator::new(&[]);
        }
        Some(view)
    }

    /// Returns `(0, None)`: the number of items is known only after iterating.
    fn size_hint(&self) -> (usize, Option<usize>)
        ensures unknown { result ≡ (0, None) }
        // The clauses of the trait, which follow from `unknown`.
        ensures lower { IsWithinCount result.0
            (at_most ((length (unchecked_bytes self.now) + 3) / 4)) }
        ensures upper { IfSome result.1
            (UpTo (at_most ((length (unchecked_bytes self.now) + 3) / 4))) }
    {
        (0, None)
    }
}
