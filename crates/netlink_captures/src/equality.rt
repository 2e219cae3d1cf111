//! Proof only: `==` and `clone` of headers, errors and units compare and copy the whole value.

ghost use Rattle.std.proofs.Common.{rules};

use crate::block_error::BlockError;
use crate::captures::{ByteOrder, CaptureError, FileHeader, PacketHeader, TimeUnit};
use crate::compression::Compression;
use exact_values::Exact;

impl Exact for Compression {
    ghost exact = { Prim.search rules };
}

impl Exact for BlockError {
    ghost exact = { Prim.search rules };
}

impl Exact for ByteOrder {
    ghost exact = { Prim.search rules };
}

impl Exact for TimeUnit {
    ghost exact = { Prim.search rules };
}

impl Exact for PacketHeader {
    ghost exact = { Prim.search rules };
}

impl Exact for FileHeader {
    ghost exact = { Prim.search rules };
}

impl Exact for CaptureError {
    ghost exact = { Prim.search rules };
}
