//! Memory counters and records as C structs, and a helper that splits a header off a payload. In
//! the contracts `o` is the value before a call, or None.

ghost use Rattle.std.specs.Prelude.{◌≡◌, drop, IfErr, IfOk, Ok, Err, Option, Some};
ghost use Rattle.std.specs.Option.{option_or};
ghost use Rattle.netlink_core.specs.Layout.{parse_record};
ghost use Rattle.sock_diag_values.specs.declared.inet.mem_info.MemInfo.{MemInfo as MemInfoModel};
ghost use Rattle.sockdiag_c.specs.Details.{memory_struct, optional_number, optional_record};

use crate::details::Number;
use netlink_core::{DecodeError, Record, read_record};
use sock_diag_values::inet::MemInfo;

/// Memory of a socket: the fields `SK_MEMINFO_..` of `linux/sock_diag.h`. A reply contains the
/// first seven fields together, or none of them.
#[repr(C)]
#[derive(Clone, Copy, Default)]
pub struct Memory {
    /// Memory in use by the receive queue, in bytes (`SK_MEMINFO_RMEM_ALLOC`, at 0).
    pub receive_queue: Number,
    /// Receive buffer limit in bytes (`SK_MEMINFO_RCVBUF`, at 4).
    pub receive_queue_max: Number,
    /// Memory of packets committed to the device queue, in bytes (`SK_MEMINFO_WMEM_ALLOC`, at 8).
    pub bottom_send_queues: Number,
    /// Send buffer limit in bytes (`SK_MEMINFO_SNDBUF`, at 12).
    pub send_queue_max: Number,
    /// Memory that is allocated to the socket and not in use, in bytes (`SK_MEMINFO_FWD_ALLOC`, at
    /// 16).
    pub cache: Number,
    /// Memory in use by the send queue, in bytes (`SK_MEMINFO_WMEM_QUEUED`, at 20).
    pub send_queue: Number,
    /// Memory of the socket options, in bytes (`SK_MEMINFO_OPTMEM`, at 24).
    pub options: Number,
    /// Memory of packets that wait while the socket is locked, in bytes (`SK_MEMINFO_BACKLOG`, at
    /// 28). Older kernels do not send it.
    pub backlog_queue_length: Number,
    /// Number of dropped packets (`SK_MEMINFO_DROPS`, at 32). Older kernels do not send it.
    pub drops: Number,
}

const _: () = prove!(std::mem::size_of::<Memory>() == 72);

impl From<Option<u32>> for Number {
    ghost from_gives = { λ value number. number ≡ optional_number value };

    fn from(value: Option<u32>) -> Number {
        value.map_or(Number::default(), |value| Number { is_set: 1, value })
    }
}

impl From<MemInfo> for Memory {
    ghost from_gives = { λ value memory. memory ≡ memory_struct (Some value) };

    fn from(memory: MemInfo) -> Memory {
        Memory {
            receive_queue: Number::from(Some(memory.receive_queue)),
            receive_queue_max: Number::from(Some(memory.receive_queue_max)),
            bottom_send_queues: Number::from(Some(memory.bottom_send_queues)),
            send_queue_max: Number::from(Some(memory.send_queue_max)),
            cache: Number::from(Some(memory.cache)),
            send_queue: Number::from(Some(memory.send_queue)),
            options: Number::from(Some(memory.options)),
            backlog_queue_length: Number::from(memory.backlog_queue_length),
            drops: Number::from(memory.drops),
        }
    }
}

impl Memory {
    /// Sets the memory, unless it is set already.
    pub(crate) fn set(&mut self, memory: MemInfo)
        ensures { (o : Option MemInfoModel) → self.old ≡ memory_struct o
            → self.new ≡ memory_struct (option_or o (Some memory)) }
    {
        if self.receive_queue.is_set == 0 {
            *self = Memory::from(memory);
        }
    }
}

/// Sets the record, unless one is set already: `is_set` is 1 if one is, else 0.
pub(crate) fn set_record<T: Copy>(found: T, is_set: &mut u32, record: &mut T)
    // `zero` is what `record` contains if none is set.
    ensures { (zero : T) (o : Option T) → (is_set.old, record.old) ≡ optional_record zero o
        → (is_set.new, record.new) ≡ optional_record zero (option_or o (Some found)) }
{
    if *is_set == 0 {
        *is_set = 1;
        *record = found;
    }
}

/// Parses the header at the start of the payload. Returns it and the bytes after it, or fails with
/// its error.
#[tactic(auto, using(netlink_core::proofs::LayoutLaws::parsed_by_fields))]
#[inline(always)]
pub(crate) fn split_header<H: Record<Param = ()>>(payload: &[u8]) -> Result<(H, &[u8]), DecodeError>
    ensures header { IfOk result (λ (header, rest). parse_record H.layout tt payload.entry.now
        ≡ Ok header) }
    ensures rest { IfOk result (λ (header, rest). rest.now
        ≡ drop H.layout.least payload.entry.now) }
    ensures error { IfErr result (λ error. parse_record H.layout tt payload.entry.now
        ≡ Err error) }
{
    let header = read_record::<H>(payload, ())?;
    let (_, least) = H::name_and_least();
    Ok((header, &payload[least..]))
}
