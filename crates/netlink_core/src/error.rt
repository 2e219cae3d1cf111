//! Decode errors: why bytes are rejected. Lengths and offsets are in bytes.

ghost use Rattle.std.specs.Prelude.{◌≡◌};
ghost use Rattle.netlink_core.specs.Errors.{error_code, with_missing_kind};
ghost use Rattle.netlink_core.specs.declared.error.DecodeError.TheVariants.{Memory};

use std::alloc::{AllocError, AllocFailed};
use std::fmt;
use thiserror::Error;

/// The records that have a minimal length, named by sock_diag(7) and the kernel's headers.
#[derive(Clone, Copy, Debug, PartialEq, Eq)]
pub enum RecordName {
    /// `inet_diag_sockid`, 48 bytes.
    SocketId,
    /// `inet_diag_req_v2`, 56 bytes.
    InetRequest,
    /// `inet_diag_msg`, 72 bytes.
    InetResponseHeader,
    /// `unix_diag_req`, 24 bytes.
    UnixRequest,
    /// `unix_diag_msg`, 16 bytes.
    UnixResponseHeader,
    /// The value of `INET_DIAG_MEMINFO`, 16 bytes.
    LegacyMemInfo,
    /// The value of `INET_DIAG_SKMEMINFO`, 28, 32 or 36 bytes.
    MemInfo,
    /// The value of `INET_DIAG_INFO`, 232 bytes.
    TcpInfo,
    /// The value of `UNIX_DIAG_VFS`, 8 bytes.
    Vfs,
    /// The value of `UNIX_DIAG_MEMINFO`, 36 bytes.
    UnixMemInfo,
    /// A request for sockets of another family, a number `AF_..`.
    FamilyRequest { family: u8 },
    /// The header of a reply about a socket of another family, a number `AF_..`.
    FamilyResponseHeader { family: u8 },
    /// The value of an attribute of this kind, in a reply about a socket of another family.
    FamilyAttribute { family: u8, kind: u16 },
}

impl fmt::Display for RecordName {
    fn fmt<W: fmt::Write>(&self, f: &mut fmt::Formatter<W>) -> fmt::Result {
        write!(f, "{self:?}")
    }
}

/// A decode error: why a parser rejected its bytes, or that an allocation failed. The codes of the
/// variants are from 1 on, in this order.
#[derive(Clone, Copy, Debug, PartialEq, Eq, Error)]
pub enum DecodeError {
    /// An allocation failed.
    #[error("out of memory")]
    Memory,
    /// A record has fewer bytes than it needs.
    #[error("{which}: buffer of {got} bytes, at least {need} needed")]
    BufferTooSmall {
        which: RecordName,
        got: usize,
        need: usize,
    },
    /// The family of an internet socket is neither `AF_INET` nor `AF_INET6`.
    #[error("unsupported address family {family}: expected AF_INET (2) or AF_INET6 (10)")]
    UnsupportedFamily {
        family: u8,
    },
    /// A message has fewer than 2 bytes: its family, and the byte after it.
    #[error("invalid buffer: length is {got} but packets are at least 2 bytes")]
    MessageTooShort {
        got: usize,
    },
    /// The family, which is the first byte of a message, is not one that the call takes.
    #[error("unknown address family {family}")]
    UnknownFamily {
        family: u8,
    },
    /// The type of a message is not `SOCK_DIAG_BY_FAMILY`.
    #[error("unknown message type {message_type}")]
    UnknownMessageType {
        message_type: u16,
    },
    /// Fewer bytes are left than the 4 of an attribute's header.
    ///
    /// `left` is their number.
    #[error("attribute header cut: {left} bytes left")]
    AttributeHeaderCut {
        left: usize,
    },
    /// The length field of an attribute is below 4, the length of its header.
    #[error("attribute length {length} is under 4")]
    AttributeLengthUnder4 {
        length: u16,
    },
    /// The length field of an attribute is above the number of bytes from its first byte to the
    /// end.
    #[error("attribute length {length} is past the {left} bytes left")]
    AttributeLengthPast {
        length: u16,
        left: usize,
    },
    /// A value does not have the length that its kind requires.
    ///
    /// The kind is `None` if the value was parsed by itself.
    #[error("value of {got} bytes, {need} needed")]
    WrongLength {
        kind: Option<u16>,
        got: usize,
        need: usize,
    },
    /// The length of a list of 32-bit numbers is not a multiple of 4.
    #[error("value of {got} bytes is no multiple of 4")]
    NotMultipleOfFour {
        got: usize,
    },
    /// A text is not valid UTF-8.
    #[error("text is not UTF-8")]
    NotUtf8,
    /// A socket's name has no bytes.
    #[error("name is empty")]
    NameEmpty,
    /// A pathname contains a NUL before its last byte.
    ///
    /// `index` is the index of the first NUL.
    #[error("pathname holds a zero at {index}")]
    NameInnerZero {
        index: usize,
    },
    /// A pathname contains no NUL.
    #[error("pathname is not null-terminated")]
    NameWithoutEnd,
    /// A message has fewer bytes than the 16 of its netlink header.
    #[error("message header cut: {got} bytes")]
    EnvelopeCut {
        got: usize,
    },
    /// The length field of a message is below 16, the length of its netlink header.
    #[error("message length {length} is under 16")]
    EnvelopeLengthUnder16 {
        length: u32,
    },
    /// The length field of a message is above the number of bytes.
    #[error("message length {length} is past the {got} bytes given")]
    EnvelopeLengthPast {
        length: u32,
        got: usize,
    },
}

impl DecodeError {
    /// Returns the error code, from 1 to 18.
    pub fn number(&self) -> u8
        ensures { result ≡ error_code self.now }
    {
        match self {
            DecodeError::Memory => 1,
            DecodeError::BufferTooSmall { .. } => 2,
            DecodeError::UnsupportedFamily { .. } => 3,
            DecodeError::MessageTooShort { .. } => 4,
            DecodeError::UnknownFamily { .. } => 5,
            DecodeError::UnknownMessageType { .. } => 6,
            DecodeError::AttributeHeaderCut { .. } => 7,
            DecodeError::AttributeLengthUnder4 { .. } => 8,
            DecodeError::AttributeLengthPast { .. } => 9,
            DecodeError::WrongLength { .. } => 10,
            DecodeError::NotMultipleOfFour { .. } => 11,
            DecodeError::NotUtf8 => 12,
            DecodeError::NameEmpty => 13,
            DecodeError::NameInnerZero { .. } => 14,
            DecodeError::NameWithoutEnd => 15,
            DecodeError::EnvelopeCut { .. } => 16,
            DecodeError::EnvelopeLengthUnder16 { .. } => 17,
            DecodeError::EnvelopeLengthPast { .. } => 18,
        }
    }

    /// Returns the error. If it is a `WrongLength` without a kind, it gets this kind; any other
    /// error is unchanged.
    pub fn with_kind(self, kind: u16) -> Self
        ensures { result ≡ with_missing_kind kind self }
    {
        match self {
            DecodeError::WrongLength {
                kind: None,
                got,
                need,
            } => DecodeError::WrongLength {
                kind: Some(kind),
                got,
                need,
            },
            other => other,
        }
    }
}

impl From<AllocError> for DecodeError {
    ghost from_gives = { λ _ e. e ≡ Memory };

    fn from(_e: AllocError) -> DecodeError {
        DecodeError::Memory
    }
}

impl<T: Drop> From<AllocFailed<T>> for DecodeError {
    ghost from_gives = { λ _ e. e ≡ Memory };

    fn from(_e: AllocFailed<T>) -> DecodeError {
        DecodeError::Memory
    }
}
