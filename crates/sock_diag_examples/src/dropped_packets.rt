//! A record in the value of an attribute, with `sock_diag_values`.

ghost use Rattle.std.specs.Prelude.{◌≤◌, length, drop, SomeIff};
ghost use Rattle.byteorder.specs.Endian.{little_number};

use sock_diag_values::inet::MemInfo;

/// Returns the number of packets that a socket dropped: `SK_MEMINFO_DROPS`, the little-endian u32
/// at offset 32 in the value of its `INET_DIAG_SKMEMINFO`. Returns `None` if the value has fewer
/// than 36 bytes, as on older kernels.
pub fn dropped(value: &[u8]) -> Option<u32>
    ensures { SomeIff result (36 ≤ length value.now) (little_number 4 (drop 32 value.now)) }
{
    MemInfo::parse(value).ok()?.drops
}
