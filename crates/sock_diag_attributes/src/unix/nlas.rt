//! The attributes of a reply about a UNIX socket, and the types of their values. In the contracts
//! `unix_attribute_set` is the set of the known attributes. `N.name` returns a name with its bytes
//! as a list, `L.numbers` the numbers of a list, and `O.attribute` the type field and the value of
//! a raw attribute.

ghost use Rattle.std.specs.Prelude.{◌≡◌, [], Ok, Err, IsOk, IfOk, MatchResult, true};
ghost use Rattle.netlink_core.specs.Attribute.{FitsLengthField, attribute_bytes};
ghost use Rattle.netlink_core.specs.AttributeSet.{decode_attribute, encode_attribute};
ghost use Rattle.netlink_core.specs.AttributeSet.{NeedsNoMemoryIn, IsInRangeIn};
ghost use Rattle.netlink_core.specs.Walk.{buffered_attribute};
ghost use Rattle.sock_diag_attributes.specs.private.Value.{value_bytes, IsValueInRange};

use crate::accepted::{accepted_record, accepted_u8, accepted_u32, accepted_u32_pair};
use crate::borrowed::{BorrowName, BorrowNumbers, OtherNla};
pub use crate::numbers::{NumbersIterator, NumbersView};
use crate::numbers::{exact_u8, exact_u32, exact_u32_pair};
pub use crate::unix::name::{NameView, SocketName, UnixDiagName};
use crate::value::Value;
use netlink_core::{
    DecodeError, DefaultNla, Emitable, Nla as NlaTrait, NlaBuffer, Parseable, Readable, emit_nla,
    nla_len,
};
use sock_diag_records::constants::*;
pub use sock_diag_values::unix::{MEM_INFO_LEN, MemInfo, MemInfoBuffer, VFS_LEN, Vfs, VfsBuffer};
use std::alloc::{AllocError, Global};
use std::default::MadeWith;

/// An attribute of a reply about a UNIX socket. `N` is the type of a name, `L` of a list of inodes,
/// and `O` of an attribute of another kind.
#[derive(Clone, Debug, Drop, PartialEq, Eq)]
pub enum UnixNla<N, L, O> {
    // First, so that a `Peer` of inode 0, which fills the unused slots of a `SmallVec`, is all
    // zeros.
    /// Inode of the peer (`UNIX_DIAG_PEER`).
    Peer(u32),
    /// Name that the socket is bound to (`UNIX_DIAG_NAME`).
    Name(N),
    /// File that the socket is bound to (`UNIX_DIAG_VFS`).
    Vfs(Vfs),
    /// Inodes of the sockets that connected, one for each connection that waits to be accepted; 0
    /// if that socket was closed (`UNIX_DIAG_ICONS`).
    PendingConnections(L),
    /// Lengths of the queues (`udiag_rqueue` and `udiag_wqueue` of `unix_diag_rqlen`,
    /// `UNIX_DIAG_RQLEN`). If the socket listens: the number of connections that wait to be
    /// accepted, and the limit on it. If it does not listen: the number of bytes that wait to be
    /// read, of a datagram socket only those of the first datagram, and the memory in bytes of sent
    /// data that was not read yet.
    ReceiveQueueLength(u32, u32),
    /// Socket memory (`UNIX_DIAG_MEMINFO`).
    MemInfo(MemInfo),
    /// Directions that are shut down (`UNIX_DIAG_SHUTDOWN`), as the kernel reports them: 1 for
    /// receiving, 2 for sending, 3 for both.
    Shutdown(u8),
    /// An attribute of another kind, raw, with its complete type field (`nla_type`).
    Other(O),
}

/// An attribute of a reply about a UNIX socket, owned.
pub type Nla = UnixNla<UnixDiagName, Vec<u32>, DefaultNla>;

/// An attribute of a reply about a UNIX socket, borrowed: an [`Nla`] whose name, numbers and bytes
/// are borrowed.
pub type NlaView<'a> = UnixNla<NameView<'a>, NumbersView<'a>, NlaBuffer<'a>>;

impl Readable for Nla {
    const TAKES_MEMORY: bool = true;

    // Its parsers copy what the attribute owns, and so may return `Memory`.
    ghost TAKES_MEMORY = { true };
}

impl<N: BorrowName, L: BorrowNumbers, O: OtherNla> Emitable for UnixNla<N, L, O> {
    ghost use Rattle.sock_diag_attributes.specs.UnixAttributes.{unix_attribute_set};
    ghost use Rattle.sock_diag_attributes.specs.UnixModel.{unix_nla_attribute, unix_nla_value};

    ghost bytes = { λ v. attribute_bytes (unix_nla_attribute N.name L.numbers O.attribute v) };

    ghost writable = { λ v. FitsLengthField (unix_nla_attribute N.name L.numbers O.attribute v) };

    ghost in_range = { λ v. IsInRangeIn unix_attribute_set
        (unix_nla_value N.name L.numbers O.attribute v) };

    fn is_writable(&self) -> bool {
        self.value_fits()
    }

    fn buffer_len(&self) -> usize {
        nla_len(self)
    }

    fn emit(&self, buffer: &mut [u8]) {
        emit_nla(self, buffer);
    }
}

// Fills the unused slots of a `SmallVec`. All bytes of a `Peer` of inode 0 are 0, since it is the
// first variant. Fresh memory has these bytes, so that filling costs nothing.
impl MadeWith<Global> for Nla {
    ghost use Rattle.sock_diag_attributes.specs.declared.unix.nlas.UnixNla.TheVariants.{Peer};

    ghost is_made_with = { λ nla. nla ≡ Peer 0 };

    fn made_with(_alloc: Global) -> Self {
        Nla::Peer(0)
    }
}

impl Nla {
    ghost use Rattle.sock_diag_attributes.specs.UnixAttributes.{unix_attribute_set};
    ghost use Rattle.sock_diag_attributes.specs.UnixModel.{unix_nla_model};

    /// Returns an equal attribute: of the same kind, with an equal value. Fails only if an
    /// allocation fails. Only a name, a list that is not empty, and an `Other` with bytes, may need
    /// an allocation.
    pub fn clone(&self, alloc: Global) -> Result<Self, AllocError>
        ensures equal { IfOk result (λ copy. unix_nla_model copy ≡ unix_nla_model self.now) }
        ensures needs_no_memory { NeedsNoMemoryIn unix_attribute_set (unix_nla_model self.now)
            → IsOk result }
        ensures empty { (encode_attribute unix_attribute_set (unix_nla_model self.now)).value ≡ []
            → IsOk result }
    {
        self.owned(alloc)
    }
}

impl<N: BorrowName, L: BorrowNumbers, O: OtherNla> UnixNla<N, L, O> {
    ghost use Rattle.sock_diag_attributes.specs.UnixAttributes.{unix_attribute_set};
    ghost use Rattle.sock_diag_attributes.specs.UnixModel.{unix_nla_attribute, unix_nla_model};
    ghost use Rattle.sock_diag_attributes.specs.UnixModel.{unix_nla_value};

    // Returns the attribute with an owned name, owned numbers and owned bytes. Fails only if an
    // allocation fails. Only a name, a list that is not empty, and an `Other` with bytes, may need
    // one.
    #[inline(always)]
    #[tactic(auto, using(crate::specs::laws::Number::no_numbers))]
    fn owned(&self, alloc: Global) -> Result<Nla, AllocError>
        ensures equal { IfOk result (λ nla.
            unix_nla_model nla ≡ unix_nla_value N.name L.numbers O.attribute self.now) }
        ensures needs_no_memory { NeedsNoMemoryIn unix_attribute_set
            (unix_nla_value N.name L.numbers O.attribute self.now)
            → IsOk result }
        ensures empty { (unix_nla_attribute N.name L.numbers O.attribute self.now).value ≡ []
            → IsOk result }
    {
        Ok(match self {
            UnixNla::Name(name) => Nla::Name(name.borrow_name().to_owned(alloc)?),
            UnixNla::Vfs(vfs) => Nla::Vfs(vfs.clone()?),
            UnixNla::Peer(inode) => Nla::Peer(*inode),
            UnixNla::PendingConnections(inodes) => Nla::PendingConnections(inodes.to_list(alloc)?),
            UnixNla::ReceiveQueueLength(rqueue, wqueue) => {
                Nla::ReceiveQueueLength(*rqueue, *wqueue)
            }
            UnixNla::MemInfo(info) => Nla::MemInfo(*info),
            UnixNla::Shutdown(state) => Nla::Shutdown(*state),
            UnixNla::Other(nla) => Nla::Other(nla.to_owned_nla(alloc)?),
        })
    }

    // Returns the type field and the value that the attribute serializes as.
    #[inline(always)]
    pub(super) fn type_and_value(&self) -> (u16, Value<'_>)
        ensures kind { result.0
            ≡ (unix_nla_attribute N.name L.numbers O.attribute self.now).type_word }
        ensures value { value_bytes result.1
            ≡ (unix_nla_attribute N.name L.numbers O.attribute self.now).value }
        // Proof only, for the codec laws: if the returned value is in range, as every Rust value
        // is, then the decoded value of the attribute (`unix_nla_value`) is in range.
        ensures in_range { IsValueInRange result.1
            → IsInRangeIn unix_attribute_set
            (unix_nla_value N.name L.numbers O.attribute self.now) }
    {
        match self {
            UnixNla::Name(name) => (UNIX_DIAG_NAME, Value::Name(name.borrow_name())),
            UnixNla::Vfs(vfs) => (UNIX_DIAG_VFS, Value::Vfs(vfs)),
            UnixNla::Peer(inode) => (UNIX_DIAG_PEER, Value::U32(*inode)),
            UnixNla::PendingConnections(inodes) => (UNIX_DIAG_ICONS, inodes.borrow_value()),
            UnixNla::ReceiveQueueLength(rqueue, wqueue) => {
                (UNIX_DIAG_RQLEN, Value::U32Pair(*rqueue, *wqueue))
            }
            UnixNla::MemInfo(info) => (UNIX_DIAG_MEMINFO, Value::UnixMemInfo(info)),
            UnixNla::Shutdown(state) => (UNIX_DIAG_SHUTDOWN, Value::U8(*state)),
            UnixNla::Other(nla) => (nla.type_word(), Value::Bytes(nla.bytes())),
        }
    }
}

impl<'a> NlaView<'a> {
    ghost use Rattle.sock_diag_attributes.specs.UnixAttributes.{unix_attribute_set};
    ghost use Rattle.sock_diag_attributes.specs.UnixModel.{unix_nla_model, unix_nla_view_model};

    /// Parses the value by the kind of the attribute, whatever its two flag bits. An attribute of
    /// an unknown kind is returned as `Other`, with its complete type field. Fails with the error
    /// of the value: `BufferTooSmall` if a record is too short, `WrongLength`, with the kind, if a
    /// number or a pair has another length, `NotMultipleOfFour` if the length of a list of numbers
    /// is not a multiple of 4, or the error of [`NameView::parse`].
    #[inline(always)]
    pub fn parse(nla: &NlaBuffer<'a>) -> Result<NlaView<'a>, DecodeError>
        ensures { MatchResult result
            (λ view. decode_attribute unix_attribute_set (buffered_attribute nla.now)
            ≡ Ok (unix_nla_view_model view))
            (λ e. decode_attribute unix_attribute_set (buffered_attribute nla.now) ≡ Err e) }
    {
        let value = nla.value();
        Ok(match nla.kind() {
            UNIX_DIAG_NAME => NlaView::Name(NameView::parse(value)?),
            UNIX_DIAG_VFS => {
                // As two numbers: a whole `Vfs` is copied through the memory of the enum, which
                // then is set to zeros for each attribute.
                let file = Vfs::parse(value)?;
                NlaView::Vfs(Vfs::new(file.inode(), file.device()))
            }
            UNIX_DIAG_PEER => NlaView::Peer(exact_u32(UNIX_DIAG_PEER, value)?),
            UNIX_DIAG_ICONS => NlaView::PendingConnections(NumbersView::parse(value)?),
            UNIX_DIAG_RQLEN => {
                let (rqueue, wqueue) = exact_u32_pair(UNIX_DIAG_RQLEN, value)?;
                NlaView::ReceiveQueueLength(rqueue, wqueue)
            }
            UNIX_DIAG_MEMINFO => NlaView::MemInfo(MemInfo::parse(value)?),
            UNIX_DIAG_SHUTDOWN => NlaView::Shutdown(exact_u8(UNIX_DIAG_SHUTDOWN, value)?),
            _ => NlaView::Other(*nla),
        })
    }

    /// Returns the view that [`NlaView::parse`] returns. Requires that `parse` accepts the
    /// attribute. No length is tested again, and a name is not searched for zeros again.
    #[inline(always)]
    pub fn new(nla: &NlaBuffer<'a>) -> NlaView<'a>
        requires { IsOk (decode_attribute unix_attribute_set (buffered_attribute nla.now)) }
        ensures { decode_attribute unix_attribute_set (buffered_attribute nla.now)
            ≡ Ok (unix_nla_view_model result) }
    {
        let value = nla.value();
        match nla.kind() {
            UNIX_DIAG_NAME => NlaView::Name(NameView::new(value)),
            UNIX_DIAG_VFS => NlaView::Vfs(accepted_record(value)),
            UNIX_DIAG_PEER => NlaView::Peer(accepted_u32::<UNIX_DIAG_PEER>(value)),
            UNIX_DIAG_ICONS => NlaView::PendingConnections(NumbersView::new(value)),
            UNIX_DIAG_RQLEN => {
                let (rqueue, wqueue) = accepted_u32_pair::<UNIX_DIAG_RQLEN>(value);
                NlaView::ReceiveQueueLength(rqueue, wqueue)
            }
            UNIX_DIAG_MEMINFO => NlaView::MemInfo(accepted_record(value)),
            UNIX_DIAG_SHUTDOWN => NlaView::Shutdown(accepted_u8::<UNIX_DIAG_SHUTDOWN>(value)),
            _ => NlaView::Other(*nla),
        }
    }

    /// Returns the attribute with an owned name, owned numbers and owned bytes: of the same kind,
    /// with an equal value. Fails only if an allocation fails. Only a name, a list that is not
    /// empty, and an `Other` with bytes, may need an allocation.
    #[inline(always)]
    pub fn to_owned(&self, alloc: Global) -> Result<Nla, AllocError>
        ensures equal { IfOk result (λ nla. unix_nla_model nla ≡ unix_nla_view_model self.now) }
        ensures needs_no_memory { NeedsNoMemoryIn unix_attribute_set (unix_nla_view_model self.now)
            → IsOk result }
        ensures empty { (encode_attribute unix_attribute_set (unix_nla_view_model self.now)).value
            ≡ [] → IsOk result }
    {
        self.owned(alloc)
    }
}

impl<'a> Parseable<NlaBuffer<'a>> for Nla {
    /// Parses the value by the kind of the attribute, whatever its flag bits. An attribute of an
    /// unknown kind is kept raw, as `Other`.
    fn parse(alloc: Global, buf: NlaBuffer<'a>) -> Result<Self, DecodeError> {
        Ok(NlaView::parse(&buf)?.to_owned(alloc)?)
    }
}

impl<N: BorrowName, L: BorrowNumbers, O: OtherNla> NlaTrait for UnixNla<N, L, O> {
    ghost use Rattle.sock_diag_attributes.specs.UnixAttributes.{unix_attribute_set};
    ghost use Rattle.sock_diag_attributes.specs.UnixModel.{unix_nla_attribute, unix_nla_value};

    ghost attribute = { unix_nla_attribute N.name L.numbers O.attribute };

    ghost in_range = { λ v. IsInRangeIn unix_attribute_set
        (unix_nla_value N.name L.numbers O.attribute v) };

    fn value_len(&self) -> usize {
        self.type_and_value().1.len()
    }

    fn kind(&self) -> u16 {
        self.type_and_value().0
    }

    fn emit_value(&self, buffer: &mut [u8]) {
        self.type_and_value().1.emit(buffer);
    }
}
