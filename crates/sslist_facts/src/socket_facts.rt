//! The facts of UNIX, IPv4 and IPv6 sockets, and of the memory of any socket. If a function of this
//! module fails, an allocation failed, and the content of the sink is not specified. In the
//! contracts, `AddsFacts old new facts` states that the sink shows these facts after what it showed
//! before. `S.content sink.old` and `S.content sink.new` are what the sink shows before and after
//! the call.

ghost use Rattle.std.specs.Prelude.{◌≡◌, OnOk};
ghost use Rattle.sslist_facts.specs.Facts.{AddsFacts};
ghost use Rattle.sslist_facts.specs.SocketFacts.{bbr_facts, dctcp_facts, legacy_memory_facts};
ghost use Rattle.sslist_facts.specs.SocketFacts.{memory_facts, memory_group, option_facts};
ghost use Rattle.sslist_facts.specs.SocketFacts.{queue_facts, vegas_facts, vfs_facts};

use crate::facts::{
    FactSink, NumberRow, Shown, flag, hidden, show_group, show_json_group, show_numbers, shown,
};
use sock_diag_extras::{BbrInfo, DctcpInfo, VegasInfo};
use sock_diag_values::inet::{LegacyMemInfo, MemInfo};
use std::alloc::AllocError;

/// Shows the inode and the device of the file of a UNIX socket.
pub fn show_vfs<S: FactSink>(sink: &mut S, inode: u32, device: u32) -> Result<(), AllocError>
    ensures { OnOk result (AddsFacts (S.content sink.old) (S.content sink.new)
        (vfs_facts inode device)) }
{
    // The table has ` vfs:(INODE,DEVICE)`.
    let rows: [NumberRow<'_>; 2] = [
        shown!(b" vfs:(", "ino", inode),
        (Shown::Closed, b",", Some("dev"), Some(device as u64)),
    ];
    show_json_group(sink, "vfs", &rows)
}

/// Shows the lengths of the queues of a UNIX socket.
pub fn show_queues<S: FactSink>(sink: &mut S, receive: u32, send: u32) -> Result<(), AllocError>
    ensures { OnOk result (AddsFacts (S.content sink.old) (S.content sink.new)
        (queue_facts receive send)) }
{
    let rows: [NumberRow<'_>; 2] = [hidden!("rqueue", receive), hidden!("wqueue", send)];
    show_json_group(sink, "rqlen", &rows)
}

/// Shows the memory of a socket, in bytes, as ss(8) does, and as the object `member` in JSON. The
/// backlog and the drops are shown only if the value has them.
pub fn show_memory<S: FactSink>(
    sink: &mut S,
    member: &str,
    memory: &MemInfo,
) -> Result<(), AllocError>
    ensures { OnOk result (AddsFacts (S.content sink.old) (S.content sink.new)
        (memory_facts member.now memory.now)) }
{
    let (backlog, drops) = (memory.backlog_queue_length, memory.drops);
    show_memory_group(sink, member, memory, widened(backlog), widened(drops))
}

/// Shows the memory of a socket, with its backlog and its drops as `u64`, as the object `member` in
/// JSON. A `None` is not shown. The rows are in the order of the constants `SK_MEMINFO_..`.
#[tactic(auto, unfolding(crate::specs::SocketFacts::memory_group))]
fn show_memory_group<S: FactSink>(
    sink: &mut S,
    member: &str,
    memory: &MemInfo,
    backlog: Option<u64>,
    drops: Option<u64>,
) -> Result<(), AllocError>
    ensures { OnOk result (AddsFacts (S.content sink.old) (S.content sink.new)
        (memory_group member.now memory.now backlog drops)) }
{
    let rows: [NumberRow<'_>; 9] = [
        shown!(b"r", "rmem_alloc", memory.receive_queue),
        shown!(b",rb", "rcvbuf", memory.receive_queue_max),
        shown!(b",t", "wmem_alloc", memory.bottom_send_queues),
        shown!(b",tb", "sndbuf", memory.send_queue_max),
        shown!(b",f", "fwd_alloc", memory.cache),
        shown!(b",w", "wmem_queued", memory.send_queue),
        shown!(b",o", "optmem", memory.options),
        (Shown::Always, b",bl", Some("backlog"), backlog),
        (Shown::Always, b",d", Some("drops"), drops),
    ];
    show_group(sink, b" skmem:(", b")", member, &rows)
}

/// Returns the same number as a `u64`, or `None` for `None`.
fn widened(number: Option<u32>) -> Option<u64>
    // In a contract numbers have no width.
    ensures { result ≡ number }
{
    match number {
        Some(number) => Some(number.into()),
        None => None,
    }
}

/// Shows the memory of a socket, in bytes, in the format of old kernels (`INET_DIAG_MEMINFO`).
#[tactic(auto, unfolding(crate::specs::SocketFacts::legacy_memory_facts))]
pub fn show_legacy_memory<S: FactSink>(
    sink: &mut S,
    memory: &LegacyMemInfo,
) -> Result<(), AllocError>
    ensures { OnOk result (AddsFacts (S.content sink.old) (S.content sink.new)
        (legacy_memory_facts memory.now)) }
{
    let rows: [NumberRow<'_>; 4] = [
        shown!(b"r", "rmem", memory.receive_queue),
        shown!(b",w", "wmem", memory.bottom_send_queue),
        shown!(b",f", "fmem", memory.cache),
        shown!(b",t", "tmem", memory.send_queue),
    ];
    show_group(sink, b" mem:(", b")", "meminfo", &rows)
}

/// Shows the options of a socket (`INET_DIAG_SOCKOPT`) by their bits: as a number in JSON, and the
/// name of each in the table.
#[tactic(auto, unfolding(crate::specs::SocketFacts::option_facts))]
pub fn show_option_bits<S: FactSink>(sink: &mut S, bits: u16) -> Result<(), AllocError>
    ensures { OnOk result (AddsFacts (S.content sink.old) (S.content sink.new)
        (option_facts bits)) }
{
    // The bits are in the order of the fields of `struct inet_diag_sockopt`.
    let rows: [NumberRow<'_>; 12] = [
        hidden!("sockopt", bits),
        flag!(1, b" recverr", bits),
        flag!(2, b" is_icsk", bits),
        flag!(4, b" freebind", bits),
        flag!(8, b" hdrincl", bits),
        flag!(16, b" mc_loop", bits),
        flag!(32, b" transparent", bits),
        flag!(64, b" mc_all", bits),
        flag!(128, b" nodefrag", bits),
        flag!(256, b" bind_address_no_port", bits),
        flag!(512, b" recverr_rfc4884", bits),
        flag!(1024, b" defer_connect", bits),
    ];
    show_numbers(sink, &rows)
}

/// Shows the measurements of TCP Vegas (`INET_DIAG_VEGASINFO`), as a group.
#[tactic(auto, unfolding(crate::specs::SocketFacts::vegas_facts))]
pub fn show_vegas<S: FactSink>(sink: &mut S, info: &VegasInfo) -> Result<(), AllocError>
    ensures { OnOk result (AddsFacts (S.content sink.old) (S.content sink.new)
        (vegas_facts info.now)) }
{
    let rows: [NumberRow<'_>; 4] = [
        shown!(b"enabled:", "enabled", info.enabled),
        shown!(b",rttcnt:", "rttcnt", info.rtt_count),
        shown!(b",rtt:", "rtt", info.rtt),
        shown!(b",minrtt:", "minrtt", info.min_rtt),
    ];
    show_group(sink, b" vegas:(", b")", "vegasinfo", &rows)
}

/// Shows the measurements of DCTCP (`INET_DIAG_DCTCPINFO`), as a group.
#[tactic(auto, unfolding(crate::specs::SocketFacts::dctcp_facts))]
pub fn show_dctcp<S: FactSink>(sink: &mut S, info: &DctcpInfo) -> Result<(), AllocError>
    ensures { OnOk result (AddsFacts (S.content sink.old) (S.content sink.new)
        (dctcp_facts info.now)) }
{
    let rows: [NumberRow<'_>; 5] = [
        shown!(b"enabled:", "enabled", info.enabled),
        shown!(b",ce_state:", "ce_state", info.ce_state),
        shown!(b",alpha:", "alpha", info.alpha),
        shown!(b",ab_ecn:", "ab_ecn", info.marked_bytes),
        shown!(b",ab_tot:", "ab_tot", info.acked_bytes),
    ];
    show_group(sink, b" dctcp:(", b")", "dctcpinfo", &rows)
}

/// Shows the measurements of BBR (`INET_DIAG_BBRINFO`), as a group.
#[tactic(auto, unfolding(crate::specs::SocketFacts::bbr_facts))]
pub fn show_bbr<S: FactSink>(sink: &mut S, info: &BbrInfo) -> Result<(), AllocError>
    ensures { OnOk result (AddsFacts (S.content sink.old) (S.content sink.new)
        (bbr_facts info.now)) }
{
    let rows: [NumberRow<'_>; 4] = [
        shown!(b"bw:", "bw", info.bandwidth),
        shown!(b",mrtt:", "min_rtt", info.min_rtt),
        shown!(b",pacing_gain:", "pacing_gain", info.pacing_gain),
        shown!(b",cwnd_gain:", "cwnd_gain", info.window_gain),
    ];
    show_group(sink, b" bbr:(", b")", "bbrinfo", &rows)
}
