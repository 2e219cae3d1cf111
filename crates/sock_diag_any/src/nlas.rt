//! The attributes of a reply about a socket of any family, in order.

ghost use Rattle.std.specs.Prelude.{◌≡◌, IfSome, length, option_map};
ghost use Rattle.std.specs.Iterator.{UpTo, at_most};
ghost use Rattle.std.specs.Iterator.SizeHint.{IsWithinCount};
ghost use Rattle.netlink_core.specs.Walk.{buffered_attribute};
ghost use Rattle.sock_diag_any.specs.AnyItems.{items_in, items_left, rejection};
ghost use Rattle.sock_diag_any.specs.Pieces.{YieldsFirstPiece};

use crate::nla::{AnyNla, Sockets};
use netlink_core::{DecodeError, NlaBuffer, NlasIterator};

/// An attribute that was rejected, or bytes that are not an attribute, with the error.
#[derive(Clone, Copy, Debug)]
pub enum Rejected<'a> {
    /// An attribute whose value is invalid for its kind. Others may follow it.
    Attribute(NlaBuffer<'a>, DecodeError),
    /// Bytes that do not start with an attribute. Nothing follows them.
    Framing(DecodeError),
}

impl<'a> Rejected<'a> {
    /// Returns the error.
    pub fn error(&self) -> DecodeError
        ensures { result ≡ (rejection self.now).error }
    {
        match self {
            Rejected::Attribute(_, error) | Rejected::Framing(error) => *error,
        }
    }

    /// Returns the rejected attribute, or `None` for bytes that are not an attribute.
    pub fn attribute(&self) -> Option<NlaBuffer<'a>>
        ensures { option_map buffered_attribute result ≡ (rejection self.now).attribute }
    {
        match self {
            Rejected::Attribute(nla, _) => Some(*nla),
            Rejected::Framing(_) => None,
        }
    }
}

/// An iterator over the attributes of a reply about a socket of any family, in order. It yields
/// each attribute with what it says, or rejects it and continues. Bytes that are not an attribute
/// are the last item. A strict reader stops at the first error.
#[derive(Drop)]
pub struct AnyNlas<'a> {
    sockets: Sockets,
    walk: NlasIterator<'a>,
}

impl<'a> AnyNlas<'a> {
    /// Returns an iterator over the attributes in the bytes, which follow the header of a reply
    /// about these sockets.
    pub fn new(sockets: Sockets, bytes: &'a [u8]) -> AnyNlas<'a>
        ensures { items_left result ≡ items_in sockets bytes.entry.now }
    {
        AnyNlas {
            sockets,
            walk: NlasIterator::new(bytes),
        }
    }
}

// Returns the next attribute, or the error of the remaining bytes. Returns `None` at the end, and
// after an error.
#[tactic(auto, using(crate::proofs::PieceWalk::iterator_step_rules))]
#[inline(always)]
fn next_piece<'a>(walk: &mut NlasIterator<'a>) -> Option<Result<NlaBuffer<'a>, DecodeError>>
    ensures { YieldsFirstPiece walk.old result walk.new }
{
    walk.next()
}

impl<'a> Iterator for AnyNlas<'a> {
    ghost use Rattle.sock_diag_any.specs.AnyItems.{YieldsItem};

    type Item = Result<(NlaBuffer<'a>, AnyNla<'a>), Rejected<'a>>;

    ghost next_gives = { YieldsItem };

    ghost remaining = { λ nlas. at_most (length (items_left nlas)) };

    #[inline(always)]
    fn next(&mut self) -> Option<Result<(NlaBuffer<'a>, AnyNla<'a>), Rejected<'a>>> {
        let nla = match next_piece(&mut self.walk)? {
            Ok(nla) => nla,
            Err(error) => return Some(Err(Rejected::Framing(error))),
        };
        Some(match AnyNla::read(self.sockets, &nla) {
            Ok(read) => Ok((nla, read)),
            Err(error) => Err(Rejected::Attribute(nla, error)),
        })
    }

    /// Returns `(0, None)`: the number of attributes left is not computed in advance.
    fn size_hint(&self) -> (usize, Option<usize>)
        ensures unknown { result ≡ (0, None) }
        // The clauses of the trait, which follow from `unknown`.
        ensures lower { IsWithinCount result.0 (at_most (length (items_left self.now))) }
        ensures upper { IfSome result.1 (UpTo (at_most (length (items_left self.now)))) }
    {
        (0, None)
    }
}
