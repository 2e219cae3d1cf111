//! Attributes whose value is one number: UNIX_DIAG_UID and INET_DIAG_CGROUP_ID.

ghost use Rattle.std.specs.Prelude.{◌≡◌, length, SomeIff};
ghost use Rattle.byteorder.specs.Endian.{little_number};

use byteorder::{ByteOrder, LittleEndian};

/// Parses the value of `UNIX_DIAG_UID`, a little-endian `u32`: the user id of the UNIX socket's
/// owner. Returns `None` if the length is not 4.
pub fn parse_uid(value: &[u8]) -> Option<u32>
    ensures { SomeIff result (length value.now ≡ 4) (little_number 4 value.now) }
{
    if value.len() != 4 {
        return None;
    }
    Some(LittleEndian::read_u32(value))
}

/// Parses the value of `INET_DIAG_CGROUP_ID`, a little-endian `u64`: the id of the control group
/// (cgroup v2) of the IPv4 or IPv6 socket. Returns `None` if the length is not 8.
pub fn parse_cgroup_id(value: &[u8]) -> Option<u64>
    ensures { SomeIff result (length value.now ≡ 8) (little_number 8 value.now) }
{
    if value.len() != 8 {
        return None;
    }
    Some(LittleEndian::read_u64(value))
}
