//! The name of a UNIX socket. In the contracts `socket_name_model vec_items name` is an owned name
//! with its bytes as a list, and `name_view_model name` a borrowed one. `name_bytes` are the bytes
//! that such a name serializes to, including its zero.

ghost use Rattle.std.specs.Prelude.{◌≡◌, ◌≤◌, length, IfOk, IsOk};
ghost use Rattle.std.specs.Prelude.{MatchOption, MatchResult, Ok, Err, true, refl, vec_items, ⊤};
ghost use Rattle.netlink_core.specs.Bytes.{HoldsAtStart, IsBytes};
ghost use Rattle.sock_diag_attributes.specs.Name.{HasU32Length, parse_name, name_bytes, name_codec};
ghost use Rattle.sock_diag_attributes.specs.laws.Name.{HasNoZero, IsFirstZero, name_codec_laws};

use netlink_core::fields::write_bytes;
use netlink_core::{
    CanonError, DecodeError, Emitable, HasCodec, Parseable, Readable, Wire, copy_list, write_new,
};
use std::alloc::{AllocError, Global};

/// The name that a UNIX socket is bound to (`UNIX_DIAG_NAME`). `B` holds its bytes: `Vec<u8>`, or
/// `&[u8]` in a borrowed name. Only a borrowed name is `Copy`, and in Rattle only it is `Clone`.
///
/// The first byte of an abstract name is zero. Any other name is a path, whose last byte is its
/// only zero.
#[derive(Copy, Debug, Drop, PartialEq, Eq)]
pub enum SocketName<B> {
    /// The path of a file, without its terminating NUL. It is serialized with the NUL.
    Pathname(B),
    /// The bytes after the leading zero byte of an abstract name. They may contain zeros.
    Abstract(B),
}

// Not derived: a derived impl would give an owned name a `clone` without an allocator.
impl<B: Copy> Clone for SocketName<B> {
    ghost is_clone = { λ name copy. copy ≡ name };

    ghost is_infallible = { λ _. ⊤ };

    fn clone(&self) -> Result<Self, AllocError> {
        Ok(*self)
    }
}

/// The name that a UNIX socket is bound to, with owned bytes.
pub type UnixDiagName = SocketName<Vec<u8>>;

/// The name that a UNIX socket is bound to, with borrowed bytes.
pub type NameView<'a> = SocketName<&'a [u8]>;

impl UnixDiagName {
    ghost use Rattle.sock_diag_attributes.specs.NameModel.{name_view_model, socket_name_model};

    /// Returns an equal name: a path for a path, and an abstract name for an abstract one, with the
    /// same bytes. Fails only if an allocation fails. A name that serializes to one byte, its zero,
    /// needs no allocation.
    pub fn clone(&self, alloc: Global) -> Result<Self, AllocError>
        ensures equal { IfOk result (λ name. socket_name_model vec_items name
            ≡ socket_name_model vec_items self.now) }
        ensures needs_no_memory { length (name_bytes (socket_name_model vec_items self.now)) ≤ 1
            → IsOk result }
    {
        self.view().to_owned(alloc)
    }

    // Returns the name with borrowed bytes: a path for a path, and an abstract name for an abstract
    // one, with the same bytes.
    pub(crate) fn view(&self) -> NameView<'_>
        ensures { name_view_model result ≡ socket_name_model vec_items self.now }
    {
        match self {
            UnixDiagName::Pathname(path) => NameView::Pathname(path),
            UnixDiagName::Abstract(address) => NameView::Abstract(address),
        }
    }
}

impl<'a> NameView<'a> {
    ghost use Rattle.sock_diag_attributes.specs.NameModel.{name_view_model, socket_name_model};

    /// Parses all of the bytes as a name. Returns `NameEmpty` if there are no bytes. If the first
    /// byte is zero, the name is abstract, with the bytes after it. Otherwise it is a path, without
    /// the zero at its end: returns `NameInnerZero`, with the index, if the first zero is before
    /// the last byte, and `NameWithoutEnd` if there is no zero.
    #[inline(always)]
    #[tactic(auto, using(crate::specs::laws::Name::parse_name_rules))]
    pub fn parse(bytes: &'a [u8]) -> Result<NameView<'a>, DecodeError>
        ensures { MatchResult result
            (λ name. parse_name bytes.entry.now ≡ Ok (name_view_model name))
            (λ e. parse_name bytes.entry.now ≡ Err e) }
    {
        let Some((last, path)) = bytes.split_last() else {
            return Err(DecodeError::NameEmpty);
        };
        if bytes[0] == 0 {
            return Ok(NameView::Abstract(&bytes[1..]));
        }
        match first_zero(path) {
            Some(index) => Err(DecodeError::NameInnerZero { index }),
            None if *last == 0 => Ok(NameView::Pathname(path)),
            None => Err(DecodeError::NameWithoutEnd),
        }
    }

    /// Returns the name that [`NameView::parse`] returns. Requires that `parse` accepts the bytes.
    /// They are not searched for zeros again.
    #[inline(always)]
    #[tactic(auto, using(crate::specs::laws::Name::accepted_name_rules))]
    pub fn new(bytes: &'a [u8]) -> NameView<'a>
        requires { IsOk (parse_name bytes.now) }
        ensures { parse_name bytes.entry.now ≡ Ok (name_view_model result) }
    {
        if bytes[0] == 0 {
            return NameView::Abstract(&bytes[1..]);
        }
        NameView::Pathname(&bytes[..bytes.len() - 1])
    }

    // Returns the number of bytes that the name serializes to, including its zero.
    pub(crate) fn len(&self) -> usize
        ensures { result ≡ length (name_bytes (name_view_model self.now)) }
    {
        match self {
            NameView::Pathname(path) => path.len() + 1,
            NameView::Abstract(address) => address.len() + 1,
        }
    }

    // Writes the name with its zero at the start of `buffer`, which has to be long enough. The
    // bytes after it are unchanged.
    #[tactic(auto, using(crate::specs::laws::Name::name_in_range_rules))]
    pub(crate) fn emit_name(&self, buffer: &mut [u8])
        requires { length (name_bytes (name_view_model self.now)) ≤ length buffer.old }
        ensures written { HoldsAtStart (name_bytes (name_view_model self.now))
            buffer.old buffer.new }
        // Each byte is below 256, as each `u8` is; this is stated for the codec laws.
        ensures in_range { IsBytes (name_bytes (name_view_model self.now)) }
    {
        match self {
            NameView::Pathname(path) => {
                write_bytes(path, &mut buffer[..path.len()]);
                buffer[path.len()] = 0;
            }
            NameView::Abstract(address) => {
                buffer[0] = 0;
                write_bytes(address, &mut buffer[1..1 + address.len()]);
            }
        }
    }

    /// Returns the name with owned bytes: a path for a path, and an abstract name for an abstract
    /// one. Fails only if an allocation fails. A name that serializes to one byte, its zero, needs
    /// no allocation.
    pub fn to_owned(&self, alloc: Global) -> Result<UnixDiagName, AllocError>
        ensures equal { IfOk result (λ name.
            socket_name_model vec_items name ≡ name_view_model self.now) }
        ensures needs_no_memory { length (name_bytes (name_view_model self.now)) ≤ 1 → IsOk result }
    {
        Ok(match self {
            NameView::Pathname(path) => UnixDiagName::Pathname(copy_list(alloc, path)?),
            NameView::Abstract(address) => UnixDiagName::Abstract(copy_list(alloc, address)?),
        })
    }
}

impl Readable for UnixDiagName {
    const TAKES_MEMORY: bool = true;

    // Its parsers copy the bytes of the name, and so may return `Memory`.
    ghost TAKES_MEMORY = { true };
}

impl<'a> Parseable<&'a [u8]> for UnixDiagName {
    /// Parses all of the bytes as a name, as [`NameView::parse`] does, and copies its bytes.
    fn parse(alloc: Global, bytes: &'a [u8]) -> Result<Self, DecodeError> {
        Ok(NameView::parse(bytes)?.to_owned(alloc)?)
    }
}

impl Emitable for UnixDiagName {
    ghost use Rattle.sock_diag_attributes.specs.NameModel.{socket_name_model};

    ghost bytes = { λ v. name_bytes (socket_name_model vec_items v) };

    ghost writable = { λ v. HasU32Length (socket_name_model vec_items v) };

    ghost in_range = { λ v. IsBytes (name_bytes (socket_name_model vec_items v)) };

    fn is_writable(&self) -> bool {
        self.view().len() <= u32::MAX as usize
    }

    fn buffer_len(&self) -> usize {
        self.view().len()
    }

    fn emit(&self, buffer: &mut [u8]) {
        self.view().emit_name(buffer);
    }
}

impl Emitable for NameView<'_> {
    ghost use Rattle.sock_diag_attributes.specs.NameModel.{name_view_model};

    ghost bytes = { λ v. name_bytes (name_view_model v) };

    ghost writable = { λ v. HasU32Length (name_view_model v) };

    ghost in_range = { λ v. IsBytes (name_bytes (name_view_model v)) };

    fn is_writable(&self) -> bool {
        self.len() <= u32::MAX as usize
    }

    fn buffer_len(&self) -> usize {
        self.len()
    }

    fn emit(&self, buffer: &mut [u8]) {
        self.emit_name(buffer);
    }
}

impl HasCodec for UnixDiagName {
    ghost use Rattle.sock_diag_attributes.specs.NameModel.{socket_name_model};
    ghost use Rattle.sock_diag_attributes.specs.laws.EqualName.{names_equal};
    ghost use Rattle.sock_diag_attributes.specs.laws.AttributeParts.{byte_list_type};

    type Param = ();

    ghost codec = { name_codec };

    ghost model = { socket_name_model vec_items };

    // 0, since a name is not a netlink message, and so has no message type.
    ghost serialized_type = { λ _. 0 };

    ghost eq_is_model = { names_equal byte_list_type _ vec_items (λ _ _. refl) };

    ghost laws = { name_codec_laws };
}

impl Wire for UnixDiagName {
    fn read(alloc: Global, bytes: &[u8], _param: ()) -> Result<Self, DecodeError> {
        UnixDiagName::parse(alloc, bytes)
    }

    fn rewrite(alloc: Global, bytes: &[u8], _param: ()) -> Result<Vec<u8>, CanonError> {
        write_new(alloc, &NameView::parse(bytes)?)
    }

    ghost bytes_by_codec = { λ _. refl };

    ghost writable_by_codec = { λ _. (λ h. h, λ h. h) };

    ghost in_range_by_codec = { λ _ h. h };
}

// Returns the index of the first zero, or `None` if there is none. Usually there is none, which
// `contains` finds out faster than a search byte by byte.
fn first_zero(bytes: &[u8]) -> Option<usize>
    ensures { MatchOption result (HasNoZero bytes.now) (IsFirstZero bytes.now) }
{
    if !bytes.contains(&0) {
        return None;
    }
    bytes.iter().position(|byte| *byte == 0)
}
