//! The facts of the attributes of netlink, packet and XDP sockets. If a function of this module
//! fails, an allocation failed, and the content of the sink is not specified.
//!
//! In the contracts, `AddsFacts old new facts` states that the sink shows these facts after what it
//! showed before. `S.content sink.old` and `S.content sink.new` are what the sink shows before and
//! after the call.

ghost use Rattle.std.specs.Prelude.{◌≡◌, ◌≤◌, ◌*◌, ◌++◌, IfOk, OnOk, flat_map, length};
ghost use Rattle.sslist_facts.specs.Facts.{AddsFacts};
ghost use Rattle.sslist_facts.specs.FamilyFacts.{fanout_facts, group_of_bit, groups_facts};
ghost use Rattle.sslist_facts.specs.FamilyFacts.{groups_from, groups_in, groups_in_byte};
ghost use Rattle.sslist_facts.specs.FamilyFacts.{netlink_flags_facts};
ghost use Rattle.sslist_facts.specs.FamilyFacts.{packet_facts, packet_ring_facts, umem_facts};
ghost use Rattle.sslist_facts.specs.FamilyFacts.{xdp_facts, xdp_ring_facts};
ghost use Rattle.sslist_facts.specs.FamilyFacts.{xdp_statistics_facts};

use crate::facts::{
    FactSink, NumberRow, Shown, flag, hidden, show_group, show_json_group, show_numbers, shown,
};
use sock_diag_families::packet::{PacketInfo, PacketRing};
use sock_diag_families::xdp::{XdpInfo, XdpStatistics, XdpUmem};
use std::alloc::{AllocError, Global};

/// The bits of a byte, and the index of each.
static GROUP_BITS: [(u8, u8); 8] = [
    (1, 0),
    (2, 1),
    (4, 2),
    (8, 3),
    (16, 4),
    (32, 5),
    (64, 6),
    (128, 7),
];

/// Number of bytes that no attribute has, since its length field has 16 bits.
const MAX_MASK_LENGTH: usize = 65536;

/// Shows the groups of a netlink socket (`NETLINK_DIAG_GROUPS`): a number for each bit that is set.
pub fn show_groups<S: FactSink>(sink: &mut S, alloc: Global, mask: &[u8]) -> Result<(), AllocError>
    ensures { OnOk result (AddsFacts (S.content sink.old) (S.content sink.new)
        (groups_facts mask.now)) }
{
    let groups = groups_in(alloc, mask)?;
    sink.list(b" groups:", b",", "groups", groups.as_slice())
}

/// Returns the groups whose bits are set in a mask, in order. Of a mask that is longer than any
/// attribute only the first `MAX_MASK_LENGTH` bytes count.
#[tactic(auto, using(std::proofs::lemmas::List::take_min))]
fn groups_in(alloc: Global, mask: &[u8]) -> Result<Vec<u64>, AllocError>
    ensures { IfOk result (λ groups. groups.items ≡ groups_in mask.now) }
{
    let mut groups = Vec::new(alloc);
    push_mask(&mut groups, &mask[..MAX_MASK_LENGTH.min(mask.len())])?;
    Ok(groups)
}

/// Appends the groups whose bits are set in a mask, the lowest bit of which is group 1.
fn push_mask(groups: &mut Vec<u64>, mask: &[u8]) -> Result<(), AllocError>
    requires { length mask.now ≤ MAX_MASK_LENGTH }
    ensures { OnOk result (groups.new.items ≡ groups.old.items ++ groups_from 1 mask.now) }
{
    let mut first = 1u64;
    for byte in mask {
        push_groups(groups, first, *byte)?;
        first += 8;
    }
    Ok(())
}

/// Appends the groups whose bits are set in a byte of a mask, the lowest bit of which is the group
/// `first`.
fn push_groups(groups: &mut Vec<u64>, first: u64, byte: u8) -> Result<(), AllocError>
    requires { first ≤ 8 * MAX_MASK_LENGTH }
    ensures { OnOk result (groups.new.items ≡ groups.old.items ++ groups_in_byte first byte) }
{
    push_set_bits(groups, first, byte, &GROUP_BITS)
}

/// Appends the groups of those bits in the rows that are set in a byte.
fn push_set_bits(
    groups: &mut Vec<u64>,
    first: u64,
    byte: u8,
    rows: &[(u8, u8)],
) -> Result<(), AllocError>
    requires { first ≤ 8 * MAX_MASK_LENGTH }
    ensures { OnOk result (groups.new.items
        ≡ groups.old.items ++ flat_map (group_of_bit first byte) rows.now) }
{
    for &(bit, index) in rows {
        if byte & bit != 0 {
            groups.push(first + u64::from(index))?;
        }
    }
    Ok(())
}

/// Shows the flags of a netlink socket (`NETLINK_DIAG_FLAGS`).
#[tactic(auto, unfolding(crate::specs::FamilyFacts::netlink_flags_facts))]
pub fn show_netlink_flags<S: FactSink>(sink: &mut S, bits: u32) -> Result<(), AllocError>
    ensures { OnOk result (AddsFacts (S.content sink.old) (S.content sink.new)
        (netlink_flags_facts bits)) }
{
    // The bits are `NDIAG_FLAG_CB_RUNNING`, `PKTINFO`, `BROADCAST_ERROR`, `NO_ENOBUFS`,
    // `LISTEN_ALL_NSID` and `CAP_ACK` of linux/netlink_diag.h.
    let rows: [NumberRow<'_>; 7] = [
        hidden!("flags", bits),
        flag!(1, b" cb_running", bits),
        flag!(2, b" pktinfo", bits),
        flag!(4, b" broadcast_error", bits),
        flag!(8, b" no_enobufs", bits),
        flag!(16, b" listen_all_nsid", bits),
        flag!(32, b" cap_ack", bits),
    ];
    show_numbers(sink, &rows)
}

/// Shows the settings of a packet socket (`PACKET_DIAG_INFO`).
#[tactic(auto, unfolding(crate::specs::FamilyFacts::packet_facts))]
pub fn show_packet<S: FactSink>(sink: &mut S, info: &PacketInfo) -> Result<(), AllocError>
    ensures { OnOk result (AddsFacts (S.content sink.old) (S.content sink.new)
        (packet_facts info.now)) }
{
    // The bits are `PDI_RUNNING`, `PDI_AUXDATA`, `PDI_ORIGDEV`, `PDI_VNETHDR` and `PDI_LOSS` of
    // linux/packet_diag.h.
    let rows: [NumberRow<'_>; 11] = [
        hidden!("index", info.interface),
        shown!(b" ver:", "version", info.version),
        hidden!("reserve", info.reserve),
        shown!(b" cpy_thresh:", "copy_thresh", info.copy_threshold),
        hidden!("tstamp", info.timestamp),
        hidden!("flags", info.flags),
        flag!(1, b" running", info.flags),
        flag!(2, b" auxdata", info.flags),
        flag!(4, b" origdev", info.flags),
        flag!(8, b" vnethdr", info.flags),
        flag!(16, b" loss", info.flags),
    ];
    show_json_group(sink, "info", &rows)
}

/// Shows a ring of a packet socket (`PACKET_DIAG_RX_RING` or `PACKET_DIAG_TX_RING`): after the text
/// `opening` in the table, and as the object `member` in JSON.
#[tactic(auto, unfolding(crate::specs::FamilyFacts::packet_ring_facts))]
pub fn show_packet_ring<S: FactSink>(
    sink: &mut S,
    opening: &[u8],
    member: &str,
    ring: &PacketRing,
) -> Result<(), AllocError>
    ensures { OnOk result (AddsFacts (S.content sink.old) (S.content sink.new)
        (packet_ring_facts opening.now member.now ring.now)) }
{
    let rows: [NumberRow<'_>; 7] = [
        shown!(b"blk_size:", "block_size", ring.block_size),
        shown!(b",blk_nr:", "block_nr", ring.blocks),
        shown!(b",frm_size:", "frame_size", ring.frame_size),
        shown!(b",frm_nr:", "frame_nr", ring.frames),
        shown!(b",tmo:", "retire_tmo", ring.retire_timeout),
        hidden!("sizeof_priv", ring.private_size),
        (
            Shown::Hex,
            b",features:0x",
            Some("features"),
            Some(ring.features as u64),
        ),
    ];
    show_group(sink, opening, b")", member, &rows)
}

/// Shows the fanout group of a packet socket (`PACKET_DIAG_FANOUT`): its id, which is the low 16
/// bits of the number, and its mode, which is the high 16 bits.
#[tactic(auto, unfolding(crate::specs::FamilyFacts::fanout_facts))]
pub fn show_fanout<S: FactSink>(sink: &mut S, number: u32) -> Result<(), AllocError>
    ensures { OnOk result (AddsFacts (S.content sink.old) (S.content sink.new)
        (fanout_facts number)) }
{
    let rows: [NumberRow<'_>; 2] = [
        shown!(b"id:", "id", number % 65536),
        (
            Shown::FanoutMode,
            b",type:",
            Some("type"),
            Some((number / 65536) as u64),
        ),
    ];
    show_group(sink, b" fanout(", b")", "fanout", &rows)
}

/// Shows the interface and the queue of an XDP socket (`XDP_DIAG_INFO`). Only JSON has them here,
/// since the table has a column for them.
#[tactic(auto, unfolding(crate::specs::FamilyFacts::xdp_facts))]
pub fn show_xdp<S: FactSink>(sink: &mut S, info: &XdpInfo) -> Result<(), AllocError>
    ensures { OnOk result (AddsFacts (S.content sink.old) (S.content sink.new)
        (xdp_facts info.now)) }
{
    let rows: [NumberRow<'_>; 2] = [
        hidden!("ifindex", info.interface),
        hidden!("queue_id", info.queue),
    ];
    show_json_group(sink, "info", &rows)
}

/// Shows a ring of an XDP socket (`XDP_DIAG_.._RING`) with this number of entries: after the text
/// `opening` in the table, and as the object `member` in JSON.
#[tactic(auto, unfolding(crate::specs::FamilyFacts::xdp_ring_facts))]
pub fn show_xdp_ring<S: FactSink>(
    sink: &mut S,
    opening: &[u8],
    member: &str,
    entries: u32,
) -> Result<(), AllocError>
    ensures { OnOk result (AddsFacts (S.content sink.old) (S.content sink.new)
        (xdp_ring_facts opening.now member.now entries)) }
{
    let rows: [NumberRow<'_>; 1] = [shown!(b"entries:", "entries", entries)];
    show_group(sink, opening, b")", member, &rows)
}

/// Shows the memory that an XDP socket shares with its program (`XDP_DIAG_UMEM`).
#[tactic(auto, unfolding(crate::specs::FamilyFacts::umem_facts))]
pub fn show_umem<S: FactSink>(sink: &mut S, umem: &XdpUmem) -> Result<(), AllocError>
    ensures { OnOk result (AddsFacts (S.content sink.old) (S.content sink.new)
        (umem_facts umem.now)) }
{
    let rows: [NumberRow<'_>; 10] = [
        shown!(b"id:", "id", umem.id),
        shown!(b",size:", "size", umem.size),
        shown!(b",num_pages:", "num_pages", umem.pages),
        shown!(b",chunk_size:", "chunk_size", umem.chunk_size),
        shown!(b",headroom:", "headroom", umem.headroom),
        shown!(b",ifindex:", "ifindex", umem.interface),
        shown!(b",qid:", "queue_id", umem.queue),
        // The lowest bit is `XDP_DU_F_ZEROCOPY`.
        (Shown::Always, b",zc:", None, Some((umem.flags % 2) as u64)),
        hidden!("flags", umem.flags),
        shown!(b",refs:", "refs", umem.references),
    ];
    show_group(sink, b" umem(", b")", "umem", &rows)
}

/// Shows the counters of an XDP socket (`XDP_DIAG_STATS`).
#[tactic(auto, unfolding(crate::specs::FamilyFacts::xdp_statistics_facts))]
pub fn show_xdp_statistics<S: FactSink>(
    sink: &mut S,
    counters: &XdpStatistics,
) -> Result<(), AllocError>
    ensures { OnOk result (AddsFacts (S.content sink.old) (S.content sink.new)
        (xdp_statistics_facts counters.now)) }
{
    let rows: [NumberRow<'_>; 6] = [
        shown!(b"rx dropped:", "rx_dropped", counters.received_dropped),
        shown!(b",rx invalid:", "rx_invalid", counters.received_invalid),
        shown!(b",rx queue full:", "rx_full", counters.received_full),
        shown!(
            b",rx fill ring empty:",
            "fill_ring_empty",
            counters.fill_ring_empty
        ),
        shown!(b",tx invalid:", "tx_invalid", counters.sent_invalid),
        shown!(
            b",tx ring empty:",
            "tx_ring_empty",
            counters.send_ring_empty
        ),
    ];
    show_group(sink, b" stats(", b")", "stats", &rows)
}
