//! The header of a netlink message.

ghost use Rattle.std.specs.Prelude.{◌≡◌, length, MatchResult};
ghost use Rattle.netlink_core.specs.Header.{HasHeader, IsMessageError, header_fields};
ghost use Rattle.netlink_core.specs.Header.{header_bytes, header_values};
ghost use Rattle.netlink_core.specs.Table.{FitFields};

use crate::error::DecodeError;
use crate::fields::{write_u16s, write_u32s};
use byteorder::{ByteOrder, LittleEndian};

/// The size of the header of a netlink message, in bytes.
pub const NETLINK_HEADER_LEN: usize = 16;

/// The header of a netlink message (`nlmsghdr` in netlink(7)): 16 bytes, with little-endian fields.
///
/// All fields of the default header are 0.
#[derive(Clone, Debug, Default, Drop, PartialEq, Eq)]
pub struct NetlinkHeader {
    /// Length of the message in bytes, including these 16 (`nlmsg_len`). At offset 0, 4 bytes.
    pub length: u32,
    /// Type of the message (`nlmsg_type`): one of the `NLMSG_` types, or a type of the protocol. At
    /// offset 4, 2 bytes.
    pub message_type: u16,
    /// The `NLM_F_` flags (`nlmsg_flags`). At offset 6, 2 bytes.
    pub flags: u16,
    /// Sequence number, which a reply repeats (`nlmsg_seq`). At offset 8, 4 bytes.
    pub sequence_number: u32,
    /// Port id (`nlmsg_pid`). A request has the port id of its sender, or 0. An answer of the
    /// kernel has the port id of the socket that sent the request. At offset 12, 4 bytes.
    pub port_number: u32,
}

impl NetlinkHeader {
    /// Parses the header of the message at the start of the bytes. The message must be complete,
    /// that is, its length field is at least 16 and at most the number of bytes. The bytes after
    /// the header are not looked at. Nothing is allocated.
    ///
    /// Fails with `EnvelopeCut` if there are fewer than 16 bytes, then with `EnvelopeLengthUnder16`
    /// if the length field is below 16, then with `EnvelopeLengthPast` if it is above the number of
    /// bytes.
    #[inline(always)]
    pub fn from_prefix(bytes: &[u8]) -> Result<Self, DecodeError>
        ensures { MatchResult result (HasHeader bytes.now) (IsMessageError bytes.now) }
    {
        let got = bytes.len();
        if got < NETLINK_HEADER_LEN {
            return Err(DecodeError::EnvelopeCut { got });
        }
        let length = LittleEndian::read_u32(bytes);
        if (length as usize) < NETLINK_HEADER_LEN {
            return Err(DecodeError::EnvelopeLengthUnder16 { length });
        }
        if length as usize > got {
            return Err(DecodeError::EnvelopeLengthPast { length, got });
        }
        Ok(NetlinkHeader {
            length,
            message_type: LittleEndian::read_u16(&bytes[4..]),
            flags: LittleEndian::read_u16(&bytes[6..]),
            sequence_number: LittleEndian::read_u32(&bytes[8..]),
            port_number: LittleEndian::read_u32(&bytes[12..]),
        })
    }

    // Replaces the content of the buffer by the five fields. The buffer must have exactly 16 bytes.
    pub(crate) fn write_fields(&self, buffer: &mut [u8])
        requires { length buffer.old ≡ NETLINK_HEADER_LEN }
        ensures written { buffer.new ≡ header_bytes self.now }
        ensures in_range { FitFields header_fields (header_values self.now) }
    {
        let (length, after_length) = buffer.split_at_mut(4);
        let (type_and_flags, sequence_and_port) = after_length.split_at_mut(4);
        write_u32s(&[self.length], length);
        write_u16s(&[self.message_type, self.flags], type_and_flags);
        write_u32s(&[self.sequence_number, self.port_number], sequence_and_port);
    }
}
