//! Reasons why a block of a pcapng file is invalid.

ghost use Rattle.std.specs.Prelude.{◌≡◌};
ghost use Rattle.netlink_captures.specs.ErrorText.{block_error_text};

/// The reason why a block of a pcapng file is invalid.
#[derive(Clone, Copy, Debug, PartialEq, Eq)]
pub enum BlockError {
    /// The length of the block, at offset 4, is less than its fields need, greater than 16777216,
    /// or not a multiple of 4.
    Length,
    /// The length in the last four bytes of the block differs from the one at offset 4.
    EndLength,
    /// The byte-order magic of a section header is unknown.
    ByteOrderMagic,
    /// The major version of a section is not 1.
    Version,
    /// An option of an interface is longer than the rest of the block, or the option
    /// `if_tsresol` does not have one byte.
    Options,
    /// The unit of the timestamps of an interface (`if_tsresol`) is neither a microsecond nor a
    /// nanosecond.
    Resolution,
    /// The section has more than 4096 interfaces.
    TooManyInterfaces,
    /// The section has not described the interface of a packet.
    NoInterface,
    /// The captured length of a packet exceeds its block.
    CapturedLength,
    /// The capture time of a packet has 2^32 seconds or more.
    Time,
}

impl BlockError {
    /// Returns the text of the error up to the offset of the block, which follows it.
    pub(crate) fn text(self) -> &'static str
        ensures { result.now ≡ block_error_text self }
    {
        match self {
            BlockError::Length => "invalid length of the block at offset ",
            BlockError::EndLength => "two different lengths of the block at offset ",
            BlockError::ByteOrderMagic => "unknown byte order of the section at offset ",
            BlockError::Version => {
                "unsupported pcapng version, expected 1, of the section at offset "
            }
            BlockError::Options => "invalid options of the interface at offset ",
            BlockError::Resolution => "unsupported time resolution of the interface at offset ",
            BlockError::TooManyInterfaces => "more than 4096 interfaces in the section, at offset ",
            BlockError::NoInterface => "unknown interface of the packet at offset ",
            BlockError::CapturedLength => "invalid captured length of the packet at offset ",
            BlockError::Time => "unsupported time (2106 or later) of the packet at offset ",
        }
    }
}
