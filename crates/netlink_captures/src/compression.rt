//! Formats of compressed files, in which captures are often stored. They are recognized, and not
//! decompressed.

ghost use Rattle.std.specs.Prelude.{◌≡◌};
ghost use Rattle.netlink_captures.specs.Compression.{compression_of, compression_text};

/// A format of compressed files.
#[derive(Clone, Copy, Debug, PartialEq, Eq)]
pub enum Compression {
    /// The format of gzip(1). The first two bytes are `1f 8b`.
    Gzip,
    /// The format of bzip2(1). The first three bytes are `42 5a 68`.
    Bzip2,
    /// The format of xz(1). The first four bytes are `fd 37 7a 58`.
    Xz,
    /// The format of zstd(1). The first four bytes are `28 b5 2f fd`.
    Zstd,
}

impl Compression {
    /// Returns the format of a file whose first four bytes are `first`, as a big-endian number.
    /// Returns `None` if they belong to none of the formats.
    pub(crate) fn find(first: u32) -> Option<Compression>
        ensures { result ≡ compression_of first }
    {
        // The first two, three or four bytes, as listed at the variants.
        if first >> 16 == 0x1f8b {
            Some(Compression::Gzip)
        } else if first >> 8 == 0x0042_5a68 {
            Some(Compression::Bzip2)
        } else if first == 0xfd37_7a58 {
            Some(Compression::Xz)
        } else if first == 0x28b5_2ffd {
            Some(Compression::Zstd)
        } else {
            None
        }
    }

    /// Returns the text about a file in this format, with the command that decompresses it.
    pub fn text(self) -> &'static str
        ensures { result.now ≡ compression_text self }
    {
        match self {
            Compression::Gzip => "compressed by gzip; decompress it first, with gzip -dc",
            Compression::Bzip2 => "compressed by bzip2; decompress it first, with bzip2 -dc",
            Compression::Xz => "compressed by xz; decompress it first, with xz -dc",
            Compression::Zstd => "compressed by zstd; decompress it first, with zstd -dc",
        }
    }
}
