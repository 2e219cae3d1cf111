//! The attributes of a reply about an IPv4 or IPv6 socket, and the types of their values. In the
//! contracts `inet_attribute_set` is the set of the known attributes. `T.text` returns the bytes of
//! a text, and `O.attribute` the type field and the value of a raw attribute.

ghost use Rattle.std.specs.Prelude.{◌≡◌, [], Ok, Err, IsOk, IfOk, MatchResult, true};
ghost use Rattle.netlink_core.specs.Attribute.{FitsLengthField, attribute_bytes};
ghost use Rattle.netlink_core.specs.AttributeSet.{decode_attribute, encode_attribute};
ghost use Rattle.netlink_core.specs.AttributeSet.{NeedsNoMemoryIn, IsInRangeIn};
ghost use Rattle.netlink_core.specs.Walk.{buffered_attribute};
ghost use Rattle.sock_diag_attributes.specs.private.Value.{value_bytes, IsValueInRange};

use crate::accepted::{accepted_record, accepted_str, accepted_u8, accepted_u32};
use crate::borrowed::OtherNla;
use crate::numbers::{exact_flag, exact_u8, exact_u32};
use crate::value::Value;
use netlink_core::{
    DecodeError, DefaultNla, Emitable, Nla as NlaTrait, NlaBuffer, Parseable, Readable, emit_nla,
    nla_len, parse_str,
};
use sock_diag_records::constants::*;
pub use sock_diag_values::inet::{
    LEGACY_MEM_INFO_LEN, LegacyMemInfo, LegacyMemInfoBuffer, MEM_INFO_EIGHT_LEN, MEM_INFO_LEN,
    MEM_INFO_SEVEN_LEN, MemInfo, MemInfoBuffer, MemInfoBytes, TCP_INFO_LEN, TcpInfo, TcpInfoBuffer,
};
use std::alloc::{AllocError, Global};
use std::convert::AsStr;
use std::default::MadeWith;

/// An attribute of a reply about an IPv4 or IPv6 socket. `T` is the type of a text, and `O` the
/// type of an attribute of another kind.
#[derive(Clone, Debug, Drop, PartialEq, Eq)]
pub enum InetNla<T, O> {
    /// Socket memory in the format of old kernels (`INET_DIAG_MEMINFO`).
    LegacyMemInfo(LegacyMemInfo),
    /// Information about the TCP connection (`INET_DIAG_INFO`).
    TcpInfo(TcpInfo),
    /// Name of the congestion control algorithm (`INET_DIAG_CONG`). It is serialized with a
    /// terminating NUL.
    Congestion(T),
    /// Type of service (`INET_DIAG_TOS`).
    Tos(u8),
    /// Traffic class of an IPv6 socket (`INET_DIAG_TCLASS`).
    Tc(u8),
    /// Socket memory (`INET_DIAG_SKMEMINFO`).
    MemInfo(MemInfo),
    /// Directions that are shut down (`INET_DIAG_SHUTDOWN`), as the kernel reports them: 1 for
    /// receiving, 2 for sending, 3 for both.
    Shutdown(u8),
    /// Protocol, `IPPROTO_..` (`INET_DIAG_PROTOCOL`).
    Protocol(u8),
    /// Whether the socket is restricted to IPv6 (`INET_DIAG_SKV6ONLY`).
    SkV6Only(bool),
    /// Mark of the socket (`INET_DIAG_MARK`).
    Mark(u32),
    /// Traffic class id (net_cls) of the socket's control group, or the priority of the socket,
    /// `SO_PRIORITY` of socket(7), if that id is 0 (`INET_DIAG_CLASS_ID`).
    ClassId(u32),
    /// An attribute of another kind, raw, with its complete type field (`nla_type`).
    Other(O),
}

/// An attribute of a reply about an IPv4 or IPv6 socket, owned.
pub type Nla = InetNla<String, DefaultNla>;

/// An attribute of a reply about an IPv4 or IPv6 socket, borrowed: an [`Nla`] whose text and bytes
/// are borrowed.
pub type NlaView<'a> = InetNla<&'a str, NlaBuffer<'a>>;

impl Readable for Nla {
    const TAKES_MEMORY: bool = true;

    // Its parsers copy what the attribute owns, and so may return `Memory`.
    ghost TAKES_MEMORY = { true };
}

impl<T: AsStr, O: OtherNla> Emitable for InetNla<T, O> {
    ghost use Rattle.sock_diag_attributes.specs.InetAttributes.{inet_attribute_set};
    ghost use Rattle.sock_diag_attributes.specs.InetModel.{inet_nla_attribute, inet_nla_value};

    ghost bytes = { λ v. attribute_bytes (inet_nla_attribute T.text O.attribute v) };

    ghost writable = { λ v. FitsLengthField (inet_nla_attribute T.text O.attribute v) };

    ghost in_range = { λ v. IsInRangeIn inet_attribute_set (inet_nla_value T.text O.attribute v) };

    fn is_writable(&self) -> bool {
        self.value_fits()
    }

    fn buffer_len(&self) -> usize {
        nla_len(self)
    }

    fn emit(&self, buffer: &mut [u8]) {
        emit_nla(self, buffer);
    }
}

// Fills the unused slots of a `SmallVec`. All bytes of a `LegacyMemInfo` of zeros are 0, since it
// is the first variant. Fresh memory has these bytes, so that filling costs nothing.
impl MadeWith<Global> for Nla {
    ghost use Rattle.sock_diag_attributes.specs.declared.inet.nlas.InetNla.TheVariants as variants;

    ghost is_made_with = { λ nla. nla ≡ variants.LegacyMemInfo (record {
      receive_queue = 0;
      bottom_send_queue = 0;
      cache = 0;
      send_queue = 0;
    }) };

    #[inline(always)]
    fn made_with(_alloc: Global) -> Self {
        Nla::LegacyMemInfo(LegacyMemInfo {
            receive_queue: 0,
            bottom_send_queue: 0,
            cache: 0,
            send_queue: 0,
        })
    }
}

impl Nla {
    ghost use Rattle.sock_diag_attributes.specs.InetAttributes.{inet_attribute_set};
    ghost use Rattle.sock_diag_attributes.specs.InetModel.{inet_nla_model};

    /// Returns an equal attribute: of the same kind, with an equal value. Fails only if an
    /// allocation fails. Only a text, and an `Other` with bytes, may need an allocation.
    pub fn clone(&self, alloc: Global) -> Result<Self, AllocError>
        ensures equal { IfOk result (λ copy. inet_nla_model copy ≡ inet_nla_model self.now) }
        ensures needs_no_memory { NeedsNoMemoryIn inet_attribute_set (inet_nla_model self.now)
            → IsOk result }
        ensures empty { (encode_attribute inet_attribute_set (inet_nla_model self.now)).value ≡ []
            → IsOk result }
    {
        self.owned(alloc)
    }
}

impl<T: AsStr, O: OtherNla> InetNla<T, O> {
    ghost use Rattle.sock_diag_attributes.specs.InetAttributes.{inet_attribute_set};
    ghost use Rattle.sock_diag_attributes.specs.InetModel.{inet_nla_attribute, inet_nla_model};
    ghost use Rattle.sock_diag_attributes.specs.InetModel.{inet_nla_value};

    // Returns the attribute with an owned text and owned bytes. Fails only if an allocation fails.
    // Only a text, and an `Other` with bytes, may need one.
    #[inline(always)]
    fn owned(&self, alloc: Global) -> Result<Nla, AllocError>
        ensures equal { IfOk result (λ nla. inet_nla_model nla
            ≡ inet_nla_value T.text O.attribute self.now) }
        ensures needs_no_memory { NeedsNoMemoryIn inet_attribute_set
            (inet_nla_value T.text O.attribute self.now)
            → IsOk result }
        ensures empty { (inet_nla_attribute T.text O.attribute self.now).value ≡ []
            → IsOk result }
    {
        Ok(match self {
            InetNla::LegacyMemInfo(info) => Nla::LegacyMemInfo(info.clone()?),
            InetNla::TcpInfo(info) => Nla::TcpInfo(info.clone()?),
            InetNla::Congestion(text) => {
                Nla::Congestion(String::from_str(alloc, text.as_str())?)
            }
            InetNla::Tos(tos) => Nla::Tos(*tos),
            InetNla::Tc(class) => Nla::Tc(*class),
            InetNla::MemInfo(info) => Nla::MemInfo(info.clone()?),
            InetNla::Shutdown(state) => Nla::Shutdown(*state),
            InetNla::Protocol(protocol) => Nla::Protocol(*protocol),
            InetNla::SkV6Only(only) => Nla::SkV6Only(*only),
            InetNla::Mark(mark) => Nla::Mark(*mark),
            InetNla::ClassId(class) => Nla::ClassId(*class),
            InetNla::Other(nla) => Nla::Other(nla.to_owned_nla(alloc)?),
        })
    }

    // Returns the type field and the value that the attribute serializes as.
    #[inline(always)]
    pub(super) fn type_and_value(&self) -> (u16, Value<'_>)
        ensures kind { result.0 ≡ (inet_nla_attribute T.text O.attribute self.now).type_word }
        ensures value { value_bytes result.1
            ≡ (inet_nla_attribute T.text O.attribute self.now).value }
        // Proof only, for the codec laws: if the returned value is in range, as every Rust value
        // is, then the decoded value of the attribute (`inet_nla_value`) is in range.
        ensures in_range { IsValueInRange result.1
            → IsInRangeIn inet_attribute_set (inet_nla_value T.text O.attribute self.now) }
    {
        match self {
            InetNla::LegacyMemInfo(info) => (INET_DIAG_MEMINFO, Value::LegacyMemInfo(info)),
            InetNla::TcpInfo(info) => (INET_DIAG_INFO, Value::TcpInfo(info)),
            InetNla::Congestion(text) => (INET_DIAG_CONG, Value::Text(text.as_str())),
            InetNla::Tos(tos) => (INET_DIAG_TOS, Value::U8(*tos)),
            InetNla::Tc(class) => (INET_DIAG_TCLASS, Value::U8(*class)),
            InetNla::MemInfo(info) => (INET_DIAG_SKMEMINFO, Value::MemInfo(info)),
            InetNla::Shutdown(state) => (INET_DIAG_SHUTDOWN, Value::U8(*state)),
            InetNla::Protocol(protocol) => (INET_DIAG_PROTOCOL, Value::U8(*protocol)),
            InetNla::SkV6Only(only) => (INET_DIAG_SKV6ONLY, Value::U8(u8::from(*only))),
            InetNla::Mark(mark) => (INET_DIAG_MARK, Value::U32(*mark)),
            InetNla::ClassId(class) => (INET_DIAG_CLASS_ID, Value::U32(*class)),
            InetNla::Other(nla) => (nla.type_word(), Value::Bytes(nla.bytes())),
        }
    }
}

impl<'a> NlaView<'a> {
    ghost use Rattle.sock_diag_attributes.specs.InetAttributes.{inet_attribute_set};
    ghost use Rattle.sock_diag_attributes.specs.InetModel.{inet_nla_model, inet_nla_view_model};

    /// Parses the value by the kind of the attribute, whatever its two flag bits. An attribute of
    /// an unknown kind is returned as `Other`, with its complete type field. Fails with the error
    /// of the value: `BufferTooSmall` if a record is too short, `WrongLength`, with the kind, if a
    /// number or a flag has another length, `NotUtf8` if a text is not valid UTF-8.
    #[inline(always)]
    pub fn parse(nla: &NlaBuffer<'a>) -> Result<NlaView<'a>, DecodeError>
        ensures { MatchResult result
            (λ view. decode_attribute inet_attribute_set (buffered_attribute nla.now)
            ≡ Ok (inet_nla_view_model view))
            (λ e. decode_attribute inet_attribute_set (buffered_attribute nla.now) ≡ Err e) }
    {
        let value = nla.value();
        Ok(match nla.kind() {
            INET_DIAG_MEMINFO => NlaView::LegacyMemInfo(LegacyMemInfo::parse(value)?),
            INET_DIAG_INFO => NlaView::TcpInfo(TcpInfo::parse(value)?),
            INET_DIAG_CONG => NlaView::Congestion(parse_str(value)?),
            INET_DIAG_TOS => NlaView::Tos(exact_u8(INET_DIAG_TOS, value)?),
            INET_DIAG_TCLASS => NlaView::Tc(exact_u8(INET_DIAG_TCLASS, value)?),
            INET_DIAG_SKMEMINFO => NlaView::MemInfo(MemInfo::parse(value)?),
            INET_DIAG_SHUTDOWN => NlaView::Shutdown(exact_u8(INET_DIAG_SHUTDOWN, value)?),
            INET_DIAG_PROTOCOL => NlaView::Protocol(exact_u8(INET_DIAG_PROTOCOL, value)?),
            INET_DIAG_SKV6ONLY => NlaView::SkV6Only(exact_flag(INET_DIAG_SKV6ONLY, value)?),
            INET_DIAG_MARK => NlaView::Mark(exact_u32(INET_DIAG_MARK, value)?),
            INET_DIAG_CLASS_ID => NlaView::ClassId(exact_u32(INET_DIAG_CLASS_ID, value)?),
            _ => NlaView::Other(*nla),
        })
    }

    /// Returns the view that [`NlaView::parse`] returns. Requires that `parse` accepts the
    /// attribute. Tested again is only the length of a [`MemInfo`], which has a variable number of
    /// fields.
    #[inline(always)]
    pub fn new(nla: &NlaBuffer<'a>) -> NlaView<'a>
        requires { IsOk (decode_attribute inet_attribute_set (buffered_attribute nla.now)) }
        ensures { decode_attribute inet_attribute_set (buffered_attribute nla.now)
            ≡ Ok (inet_nla_view_model result) }
    {
        let value = nla.value();
        match nla.kind() {
            INET_DIAG_MEMINFO => NlaView::LegacyMemInfo(accepted_record(value)),
            INET_DIAG_INFO => NlaView::TcpInfo(accepted_record(value)),
            INET_DIAG_CONG => NlaView::Congestion(accepted_str(value)),
            INET_DIAG_TOS => NlaView::Tos(accepted_u8::<INET_DIAG_TOS>(value)),
            INET_DIAG_TCLASS => NlaView::Tc(accepted_u8::<INET_DIAG_TCLASS>(value)),
            INET_DIAG_SKMEMINFO => NlaView::MemInfo(accepted_record(value)),
            INET_DIAG_SHUTDOWN => NlaView::Shutdown(accepted_u8::<INET_DIAG_SHUTDOWN>(value)),
            INET_DIAG_PROTOCOL => NlaView::Protocol(accepted_u8::<INET_DIAG_PROTOCOL>(value)),
            INET_DIAG_SKV6ONLY => NlaView::SkV6Only(accepted_u8::<INET_DIAG_SKV6ONLY>(value) != 0),
            INET_DIAG_MARK => NlaView::Mark(accepted_u32::<INET_DIAG_MARK>(value)),
            INET_DIAG_CLASS_ID => NlaView::ClassId(accepted_u32::<INET_DIAG_CLASS_ID>(value)),
            _ => NlaView::Other(*nla),
        }
    }

    /// Returns the attribute with an owned text and owned bytes: of the same kind, with an equal
    /// value. Fails only if an allocation fails. Only a text, and an `Other` with bytes, may need
    /// an allocation.
    #[inline(always)]
    pub fn to_owned(&self, alloc: Global) -> Result<Nla, AllocError>
        ensures equal { IfOk result (λ nla. inet_nla_model nla ≡ inet_nla_view_model self.now) }
        ensures needs_no_memory { NeedsNoMemoryIn inet_attribute_set (inet_nla_view_model self.now)
            → IsOk result }
        ensures empty { (encode_attribute inet_attribute_set (inet_nla_view_model self.now)).value
            ≡ [] → IsOk result }
    {
        self.owned(alloc)
    }
}

impl<'a> Parseable<NlaBuffer<'a>> for Nla {
    /// Parses the value by the kind of the attribute, whatever its flag bits. An attribute of an
    /// unknown kind is kept raw, as `Other`.
    fn parse(alloc: Global, buf: NlaBuffer<'a>) -> Result<Self, DecodeError> {
        Ok(NlaView::parse(&buf)?.to_owned(alloc)?)
    }
}

impl<T: AsStr, O: OtherNla> NlaTrait for InetNla<T, O> {
    ghost use Rattle.sock_diag_attributes.specs.InetAttributes.{inet_attribute_set};
    ghost use Rattle.sock_diag_attributes.specs.InetModel.{inet_nla_attribute, inet_nla_value};

    ghost attribute = { inet_nla_attribute T.text O.attribute };

    ghost in_range = { λ v. IsInRangeIn inet_attribute_set (inet_nla_value T.text O.attribute v) };

    fn value_len(&self) -> usize {
        self.type_and_value().1.len()
    }

    fn kind(&self) -> u16 {
        self.type_and_value().0
    }

    fn emit_value(&self, buffer: &mut [u8]) {
        self.type_and_value().1.emit(buffer);
    }
}
