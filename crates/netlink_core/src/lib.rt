//! Common parts of netlink message crates: decode errors, attributes, netlink messages, and codecs
//! with the properties that relate parsing and serializing.
#![tactic(auto)]

mod attribute;
mod canonical_form;
mod codec;
mod datagram;
mod equality;
mod error;
mod family;
pub mod fields;
mod header;
pub mod laws;
mod message;
mod nla;
mod parse;
mod record;
mod wire;

pub use crate::attribute::{NLA_HEADER_SIZE, NlaBuffer, NlasIterator, padded};
pub use crate::canonical_form::{CanonError, canonical};
pub use crate::codec::{Emitable, Input, Parseable, ParseableParametrized, ReadParam, Readable};
pub use crate::datagram::{FramedMessages, MessageStrings};
pub use crate::error::{DecodeError, RecordName};
pub use crate::family::{FamilyNla, FamilyView};
pub use crate::header::{NETLINK_HEADER_LEN, NetlinkHeader};
pub use crate::message::{
    NLM_F_ACK, NLM_F_ACK_TLVS, NLM_F_ATOMIC, NLM_F_CAPPED, NLM_F_DUMP, NLM_F_DUMP_FILTERED,
    NLM_F_DUMP_INTR, NLM_F_ECHO, NLM_F_MATCH, NLM_F_MULTI, NLM_F_REQUEST, NLM_F_ROOT, NLMSG_DONE,
    NLMSG_ERROR, NLMSG_NOOP, NLMSG_OVERRUN, NetlinkDeserializable, NetlinkMessage, NetlinkPayload,
    NetlinkSerializable, error_number,
};
pub use crate::nla::{
    DefaultNla, Nla, WireNla, copy_list, emit_nla, emit_nlas, nla_len, nlas_len, nlas_len_within,
    nlas_writable,
};
pub use crate::parse::{emit_u32, parse_str, parse_string, parse_u8, parse_u32, text_bytes};
pub use crate::record::{Fills, Record, RecordBuffer, read_record};
pub use crate::wire::{HasCodec, Wire, write_new};
pub use exact_values::Exact;
