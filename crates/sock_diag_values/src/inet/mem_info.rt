//! The value of `INET_DIAG_SKMEMINFO`: the memory of a socket.

ghost use Rattle.std.specs.Prelude.{ℕ, ◌≡◌, ◌≤◌, ◌+◌, ◌*◌, ◌↔◌, ◌<◌, ◌^◌, length, take, drop};
ghost use Rattle.std.specs.Prelude.{SomeIff, IfSome, IsSome};
ghost use Rattle.std.proofs.Common.{rules};
ghost use Rattle.netlink_core.specs.Layout.{parse_record, record_bytes, IsInRange};
ghost use Rattle.netlink_core.proofs.LayoutLaws.{record_laws};
ghost use Rattle.sock_diag_values.specs.MemInfo.{mem_info_u32_count, mem_info};
ghost use Rattle.sock_diag_values.specs.MemInfo.{mem_info_buffer_bytes};
ghost use Rattle.sock_diag_values.specs.laws.MemInfo.{mem_info_sound};
ghost use Rattle.sock_diag_values.specs.laws.MemInfoEqual.{buffer_equal, bytes_equal};
ghost use Rattle.sock_diag_values.specs.laws.MemInfoEqual.{mem_info_equal};
ghost use Rattle.byteorder.specs.Endian.{little_number};

use byteorder::{ByteOrder, LittleEndian};
use netlink_core::fields::{u32s_at, write_u32s};
use netlink_core::{DecodeError, Exact, Record, RecordName, read_record};

/// Size of the value of `INET_DIAG_SKMEMINFO` in bytes, with all nine `u32`.
pub const MEM_INFO_LEN: usize = 36;

/// Size in bytes of the value of `INET_DIAG_SKMEMINFO` with eight `u32`: no drops.
pub const MEM_INFO_EIGHT_LEN: usize = 32;

/// Size in bytes of the value of `INET_DIAG_SKMEMINFO` with seven `u32`, the fewest that are
/// accepted: neither backlog nor drops.
pub const MEM_INFO_SEVEN_LEN: usize = 28;

/// The memory of an IPv4 or IPv6 socket (`INET_DIAG_SKMEMINFO`): the fields `SK_MEMINFO_*` of
/// `linux/sock_diag.h`.
///
/// The value of the attribute is an array of `u32`, little-endian. It has nine elements, 36 bytes.
/// Older kernels send seven (28 bytes) or eight (32 bytes).
#[derive(Clone, Debug, Drop, PartialEq, Eq)]
pub struct MemInfo {
    /// Memory that the receive queue uses, in bytes (`SK_MEMINFO_RMEM_ALLOC`), at offset 0.
    pub receive_queue: u32,
    /// Receive buffer limit in bytes (`SK_MEMINFO_RCVBUF`), at offset 4.
    pub receive_queue_max: u32,
    /// Memory of packets that were committed to the device queue, in bytes
    /// (`SK_MEMINFO_WMEM_ALLOC`), at offset 8.
    pub bottom_send_queues: u32,
    /// Send buffer limit in bytes (`SK_MEMINFO_SNDBUF`), at offset 12.
    pub send_queue_max: u32,
    /// Memory that the socket has reserved and does not use yet, in bytes (`SK_MEMINFO_FWD_ALLOC`),
    /// at offset 16.
    pub cache: u32,
    /// Memory that the send queue uses, in bytes (`SK_MEMINFO_WMEM_QUEUED`), at offset 20. TCP
    /// keeps a sent segment there until it is acknowledged.
    pub send_queue: u32,
    /// Memory of the socket's options in bytes (`SK_MEMINFO_OPTMEM`), at offset 24.
    pub options: u32,
    /// Memory of received packets that wait while a process has locked the socket, in bytes
    /// (`SK_MEMINFO_BACKLOG`), at offset 28. `None` if the kernel sent seven elements.
    pub backlog_queue_length: Option<u32>,
    /// Number of dropped packets (`SK_MEMINFO_DROPS`), at offset 32. `None` if the kernel sent
    /// seven or eight elements. If this is `Some` and the backlog is `None`, the backlog is
    /// serialized as 0.
    pub drops: Option<u32>,
}

/// The 28, 32 or 36 bytes of a [`MemInfo`].
#[derive(Clone, Debug, Drop, PartialEq, Eq)]
pub struct MemInfoBuffer {
    bytes: MemInfoBytes,
}

/// An array of seven, eight or nine `u32` fields, as bytes.
#[derive(Clone, Copy, Debug, PartialEq, Eq)]
pub enum MemInfoBytes {
    /// Seven fields: neither backlog nor drops.
    Seven([u8; MEM_INFO_SEVEN_LEN]),
    /// Eight fields: a backlog, and no drops.
    Eight([u8; MEM_INFO_EIGHT_LEN]),
    /// All nine fields.
    Nine([u8; MEM_INFO_LEN]),
}

impl Exact for MemInfo {
    ghost exact = { (mem_info_equal, Prim.search rules, Prim.search rules) };
}

impl Exact for MemInfoBytes {
    ghost exact = { (bytes_equal, Prim.search rules, Prim.search rules) };
}

impl Exact for MemInfoBuffer {
    ghost exact = { (buffer_equal, Prim.search rules, Prim.search rules) };
}

impl Record for MemInfo {
    type Param = ();

    // The tag is the number of `u32`: 7, 8 or 9.
    ghost Tag = { ℕ };

    ghost layout = { mem_info };

    fn name_and_least() -> (RecordName, usize) {
        (RecordName::MemInfo, MEM_INFO_SEVEN_LEN)
    }

    fn size(&self) -> usize {
        match (self.backlog_queue_length, self.drops) {
            (_, Some(_)) => MEM_INFO_LEN,
            (Some(_), None) => MEM_INFO_EIGHT_LEN,
            (None, None) => MEM_INFO_SEVEN_LEN,
        }
    }

    /// Parses as many `u32` as the bytes contain, at most nine, and ignores the bytes after them.
    /// There have to be 28 bytes: the caller checks this first, and reports
    /// [`DecodeError::BufferTooSmall`].
    fn from_fields(payload: &[u8], _param: ()) -> Result<Self, DecodeError> {
        let [
            receive_queue,
            receive_queue_max,
            bottom_send_queues,
            send_queue_max,
            cache,
            send_queue,
            options,
        ] = u32s_at::<7>(payload, 0);
        Ok(MemInfo {
            receive_queue,
            receive_queue_max,
            bottom_send_queues,
            send_queue_max,
            cache,
            send_queue,
            options,
            backlog_queue_length: u32_if_present(payload, 28),
            drops: u32_if_present(payload, 32),
        })
    }

    fn write_fields(&self, buffer: &mut [u8]) {
        let (first_seven, others) = buffer.split_at_mut(MEM_INFO_SEVEN_LEN);
        write_u32s(
            &[
                self.receive_queue,
                self.receive_queue_max,
                self.bottom_send_queues,
                self.send_queue_max,
                self.cache,
                self.send_queue,
                self.options,
            ],
            first_seven,
        );
        match (self.backlog_queue_length, self.drops) {
            // The drops are the ninth `u32`: a missing backlog before them is written as 0.
            (backlog, Some(drops)) => write_u32s(&[backlog.unwrap_or(0), drops], others),
            (Some(backlog), None) => write_u32s(&[backlog], others),
            (None, None) => {}
        }
    }

    ghost laws = { record_laws mem_info mem_info_sound };
}

impl MemInfo {
    /// Parses the longest prefix of 36, 32 or 28 bytes, and ignores the bytes after it. A prefix of
    /// 32 bytes has no drops, and one of 28 bytes neither a backlog nor drops: these fields are
    /// `None`. Fewer than 28 bytes are [`DecodeError::BufferTooSmall`].
    pub fn parse(payload: &[u8]) -> Result<Self, DecodeError>
        ensures { result ≡ parse_record mem_info tt payload.now }
    {
        read_record(payload, ())
    }
}

impl MemInfoBuffer {
    /// Copies the longest prefix of 36, 32 or 28 bytes, and ignores the bytes after it. Returns
    /// `None` if and only if there are fewer than 28 bytes.
    pub fn read_prefix(payload: &[u8]) -> Option<Self>
        ensures enough { IsSome result ↔ MEM_INFO_SEVEN_LEN ≤ length payload.now }
        ensures bytes { IfSome result
            (λ buffer. mem_info_buffer_bytes buffer.bytes
            ≡ take (4 * mem_info_u32_count (length payload.now)) payload.now) }
    {
        // Each variant determines the length of its chunk: 36, 32 or 28 bytes.
        let bytes = if let Some(bytes) = payload.first_chunk() {
            MemInfoBytes::Nine(*bytes)
        } else if let Some(bytes) = payload.first_chunk() {
            MemInfoBytes::Eight(*bytes)
        } else {
            MemInfoBytes::Seven(*payload.first_chunk()?)
        };
        Some(MemInfoBuffer { bytes })
    }

    /// Returns the 28, 32 or 36 bytes, in the variant `Seven`, `Eight` or `Nine`.
    pub fn to_bytes(&self) -> MemInfoBytes
        ensures { result ≡ self.now.bytes }
    {
        self.bytes
    }
}

impl From<&MemInfo> for MemInfoBuffer {
    // The value is in range, as each Rust value is. This is stated for proofs about the bytes.
    ghost from_gives = { λ value buffer.
        (mem_info_buffer_bytes buffer.bytes ≡ record_bytes mem_info value.now)
        × IsInRange mem_info value.now };

    fn from(value: &MemInfo) -> Self {
        // Each variant determines the `N` of `to_array`: 36, 32 or 28.
        let bytes = match (value.backlog_queue_length, value.drops) {
            (_, Some(_)) => MemInfoBytes::Nine(to_array(value)),
            (Some(_), None) => MemInfoBytes::Eight(to_array(value)),
            (None, None) => MemInfoBytes::Seven(to_array(value)),
        };
        MemInfoBuffer { bytes }
    }
}

impl MemInfoBytes {
    /// Returns the 28, 32 or 36 bytes as a slice.
    pub fn as_slice(&self) -> &[u8]
        ensures { result.now ≡ mem_info_buffer_bytes self.now }
    {
        match self {
            MemInfoBytes::Seven(bytes) => bytes,
            MemInfoBytes::Eight(bytes) => bytes,
            MemInfoBytes::Nine(bytes) => bytes,
        }
    }
}

// Returns the little-endian `u32` at the offset, or `None` if the payload does not contain all of
// its four bytes.
fn u32_if_present(payload: &[u8], offset: usize) -> Option<u32>
    // The end of the field, `offset + 4`, does not overflow a `usize`.
    requires { offset + 4 < 2 ^ 64 }
    ensures { SomeIff result (offset + 4 ≤ length payload.now)
        (little_number 4 (drop offset payload.now)) }
{
    Some(LittleEndian::read_u32(payload.get(offset..offset + 4)?))
}

// Returns the bytes that the value serializes to. Requires that there are exactly `N` of them.
fn to_array<const N: usize>(value: &MemInfo) -> [u8; N]
    requires { length (record_bytes mem_info value.now) ≡ N }
    ensures written { result ≡ record_bytes mem_info value.now }
    // Each number of the value fits its field, as in each Rust value; stated for proofs about the
    // bytes.
    ensures in_range { IsInRange mem_info value.now }
{
    let mut buffer = [0; N];
    value.write_fields(&mut buffer);
    buffer
}
