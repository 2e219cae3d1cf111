//! Tests of replies with rejected attributes, of acknowledgements, and of the attributes that the
//! port lacks. The bytes are derived by hand from sock_diag(7) and `linux/inet_diag.h`, except for
//! the bytes that Linux sent, as noted below.

use super::{assert_debug, items};
use netlink_core::{DecodeError, NlaBuffer, NlasIterator};
use sock_diag_any::{AnyReply, InfoFormat};
use sock_diag_extras::{
    AckAttributes, AckView, AttributeRecord, AttributeRecords, BbrInfo, BpfStorage, DctcpInfo,
    FilterInstruction, Md5Signature, MptcpField, MptcpInfoBytes, NestedNlas, PacketMembership,
    SocketOption, SocketOptions, StoredAddress, SubflowField, SubflowInfo, TcpField, TcpInfoBytes,
    TlsField, TlsInfo, UlpInfo, VegasInfo, read_attribute_record, write_attribute_record,
};
use std::alloc::Global;
use std::fmt::Debug;
use std::process::Abort;

/// Returns the bytes of a reply: a header of `header` bytes, zero after the family, and attributes.
fn reply(rt: &impl Abort, alloc: Global, family: u8, header: usize, attributes: &[u8]) -> Vec<u8> {
    let mut bytes = Vec::from_slice(alloc, &[family]).expect(rt, "memory");
    bytes.resize(header, 0).expect(rt, "memory");
    bytes.extend_from_slice(attributes).expect(rt, "memory");
    bytes
}

/// Returns the `Debug` output of the record in the bytes, and `true` if it serializes to the same
/// bytes, else `false`.
fn record<T: AttributeRecord + Debug + Drop>(
    rt: &impl Abort,
    alloc: Global,
    bytes: &[u8],
) -> String {
    let parsed = read_attribute_record::<T>(bytes).expect(rt, "too short");
    let mut serialized = vec![in alloc; 1; bytes.len()].expect(rt, "memory");
    write_attribute_record(&parsed, &mut serialized);
    let is_same = serialized.as_slice() == bytes;
    format!(in alloc; "{parsed:?} {is_same}").expect(rt, "memory")
}

/// Returns the port, the IP address and the scope of a stored address. Its bytes are `front`,
/// padded with zeros.
fn address(rt: &impl Abort, alloc: Global, front: &[u8]) -> String {
    let mut value = Vec::from_slice(alloc, front).expect(rt, "memory");
    value.resize(128, 0).expect(rt, "memory");
    let parsed = read_attribute_record::<StoredAddress>(&value).expect(rt, "too short");
    format!(in alloc; "{} {:?} {}", parsed.port, parsed.ip(), parsed.scope_id).expect(rt, "memory")
}

/// Returns the content of an acknowledgement as text, or `nothing` if it could not be parsed.
fn acknowledgement(rt: &impl Abort, alloc: Global, ack: Option<AckView<'_>>) -> String {
    let Some(ack) = ack else {
        return String::from_str(alloc, "nothing").expect(rt, "memory");
    };
    let numbers = acknowledged(&ack);
    let parsed = ack.attributes().expect(rt, "refused");
    let attributes = attributes_text(rt, alloc, &parsed);
    format!(in alloc; "{numbers:?} {attributes}").expect(rt, "memory")
}

/// Returns the error number of an acknowledgement, and the length and the sequence number of its
/// request.
fn acknowledged(ack: &AckView<'_>) -> (i32, usize, Option<u32>) {
    let sequence = ack.request_header().map(|header| header.sequence_number);
    (ack.number(), ack.request().len(), sequence)
}

/// Returns as text, in this order: the message, the offset, the length of the policy, and what
/// [`missing`] returns.
fn attributes_text(rt: &impl Abort, alloc: Global, parsed: &AckAttributes<'_>) -> String {
    let policy = parsed.policy().map(|policy| policy.len());
    let message = parsed.message().expect(rt, "refused");
    let offset = parsed.offset().expect(rt, "refused");
    let missing = missing(rt, parsed);
    format!(in alloc; "{message:?} {offset:?} {policy:?} {missing:?}").expect(rt, "memory")
}

/// Returns the kind of a missing attribute, the offset of the nest that lacks it, and the cookie;
/// `None` for each that is not there.
fn missing<'a>(
    rt: &impl Abort,
    parsed: &AckAttributes<'a>,
) -> (Option<u32>, Option<u32>, Option<&'a [u8]>) {
    let kind = parsed.missing_kind().expect(rt, "refused");
    let nest = parsed.missing_nest().expect(rt, "refused");
    (kind, nest, parsed.cookie())
}

/// Returns the upper layer protocol of a connection as text: its name, and fields of TLS and MPTCP
/// if the value has them.
fn upper_protocol(rt: &impl Abort, alloc: Global, value: &[u8]) -> Result<String, DecodeError> {
    let info = UlpInfo::parse(value)?;
    let name = info.name()?;
    let tls = tls_part(rt, alloc, &info)?;
    let subflow = subflow_part(rt, alloc, &info)?;
    Ok(format!(in alloc; "{name:?}{tls}{subflow}").expect(rt, "memory"))
}

/// Returns the text of the fields of TLS that the value has, or nothing if it has none.
fn tls_part(rt: &impl Abort, alloc: Global, info: &UlpInfo<'_>) -> Result<String, DecodeError> {
    match info.tls()? {
        Some(tls) => tls_text(rt, alloc, &tls),
        None => Ok(String::new(alloc)),
    }
}

/// Returns the text of the fields of MPTCP that the value has, or nothing if it has none.
fn subflow_part(rt: &impl Abort, alloc: Global, info: &UlpInfo<'_>) -> Result<String, DecodeError> {
    match info.mptcp()? {
        Some(subflow) => subflow_text(rt, alloc, &subflow),
        None => Ok(String::new(alloc)),
    }
}

/// Returns fields of TLS as text: `tls_numbers`, and whether it sends without copying, and expects
/// no padding.
fn tls_text(rt: &impl Abort, alloc: Global, tls: &TlsInfo) -> Result<String, DecodeError> {
    let numbers = tls_numbers(tls)?;
    let flags = (tls.sends_without_copy(), tls.expects_no_padding());
    Ok(format!(in alloc; " {numbers:?} {flags:?}").expect(rt, "memory"))
}

/// Returns the version of TLS, how the kernel decrypts what the socket receives: 1 to 4,
/// `TLS_CONF_BASE` to `TLS_CONF_HW_RECORD`, and the maximum length of the data in a record.
fn tls_numbers(tls: &TlsInfo) -> Result<(Option<u64>, Option<u64>, Option<u64>), DecodeError> {
    let version = tls.get(TlsField::Version)?;
    let receiving = tls.get(TlsField::Receiving)?;
    let payload = tls.get(TlsField::SendingMaxPayload)?;
    Ok((version, receiving, payload))
}

/// Returns fields of a subflow of MPTCP as text: those of `subflow_numbers`.
fn subflow_text(
    rt: &impl Abort,
    alloc: Global,
    subflow: &SubflowInfo,
) -> Result<String, DecodeError> {
    let (sequence, id) = subflow_numbers(subflow)?;
    Ok(format!(in alloc; " {sequence:?} {id:?}").expect(rt, "memory"))
}

/// Returns the sequence number at which the mapping begins, and the local id.
fn subflow_numbers(subflow: &SubflowInfo) -> Result<(Option<u64>, Option<u64>), DecodeError> {
    let sequence = subflow.get(SubflowField::MapSequence)?;
    let id = subflow.get(SubflowField::LocalId)?;
    Ok((sequence, id))
}

/// Returns the variants of an enum, each with its name.
macro_rules! with_names {
    ($type:ident: $($name:ident),*) => { [$(($type::$name, stringify!($name))),*] };
}

/// The fields of `struct mptcp_info`, in order, each with its name.
const MPTCP_FIELDS: [(MptcpField, &str); 25] = with_names![
    MptcpField: Subflows, AddAddrSignal, AddAddrAccepted, SubflowsMax, AddAddrSignalMax,
    AddAddrAcceptedMax, Flags, Token, WriteSeq, SndUna, RcvNxt, LocalAddrUsed, LocalAddrMax,
    CsumEnabled, Retransmits, BytesRetrans, BytesSent, BytesReceived, BytesAcked, SubflowsTotal,
    EndpLaminarMax, EndpFullmeshMax, LastDataSent, LastDataRecv, LastAckRecv
];

/// Returns, in hexadecimal, the fields of `struct mptcp_info` that the bytes contain, with `-` for
/// each field that they lack; and the number of bytes after them.
fn connection(rt: &impl Abort, alloc: Global, bytes: &[u8]) -> String {
    let info = MptcpInfoBytes::new(bytes);
    let mut text = String::new(alloc);
    for (field, _) in &MPTCP_FIELDS {
        let shown = number_text(rt, alloc, info.get(*field));
        text.push_str(shown.as_str()).expect(rt, "memory");
    }
    let rest = format!(in alloc; "{}", info.rest().len()).expect(rt, "memory");
    text.push_str(rest.as_str()).expect(rt, "memory");
    text
}

/// The bit fields of the last number of `struct tcp_info`.
const BIT_FIELDS: [TcpField; 4] = [
    TcpField::EcnMode,
    TcpField::AccecnOptSeen,
    TcpField::AccecnFailMode,
    TcpField::Options2,
];

/// Returns, in hexadecimal, the bit fields of a `struct tcp_info` that ends with the bytes, and the
/// number of bytes after 280.
fn bit_fields(rt: &impl Abort, alloc: Global, last: &[u8]) -> String {
    let mut value = vec![in alloc; 0; 276].expect(rt, "memory");
    value.extend_from_slice(last).expect(rt, "memory");
    let info = TcpInfoBytes::new(&value);
    let mut text = String::new(alloc);
    for field in &BIT_FIELDS {
        let shown = number_text(rt, alloc, info.get(*field));
        text.push_str(shown.as_str()).expect(rt, "memory");
    }
    let rest = format!(in alloc; "{}", info.rest().len()).expect(rt, "memory");
    text.push_str(rest.as_str()).expect(rt, "memory");
    text
}

/// Returns a number in hexadecimal and a space, or `- ` if there is none.
fn number_text(rt: &impl Abort, alloc: Global, number: Option<u64>) -> String {
    let text = match number {
        Some(number) => format!(in alloc; "{number:x} "),
        None => String::from_str(alloc, "- "),
    };
    text.expect(rt, "memory")
}

/// Returns as text the map id and the value of each storage of BPF programs in `value`, the value
/// of an attribute `INET_DIAG_SK_BPF_STORAGES`.
fn storages(rt: &impl Abort, alloc: Global, value: &[u8]) -> String {
    let mut text = String::new(alloc);
    for item in NlasIterator::new(value) {
        let line = storage(rt, alloc, &item.expect(rt, "refused"));
        text.push_str(line.as_str()).expect(rt, "memory");
    }
    text
}

/// Returns the map id and the value of one storage as text, or `other` if the attribute is not a
/// storage.
fn storage(rt: &impl Abort, alloc: Global, nla: &NlaBuffer) -> String {
    let line = match BpfStorage::parse(nla).expect(rt, "refused") {
        Some(parsed) => {
            let id = parsed.map_id().expect(rt, "refused");
            format!(in alloc; "{id:?} {:?};", parsed.map_value())
        }
        None => String::from_str(alloc, "other;"),
    };
    line.expect(rt, "memory")
}

/// Returns the content of the bytes as text. The word, with which a row starts, selects the parser;
/// a number is the flags of an `NLMSG_ERROR`.
fn content_text(rt: &impl Abort, alloc: Global, word: &str, bytes: &[u8]) -> String {
    match word {
        "reply" => items_of_reply(rt, alloc, &reply(rt, alloc, 2, 72, bytes)),
        "unix" => items_of_reply(rt, alloc, &reply(rt, alloc, 1, 16, bytes)),
        "vegas" => record::<VegasInfo>(rt, alloc, bytes),
        "dctcp" => record::<DctcpInfo>(rt, alloc, bytes),
        "bbr" => record::<BbrInfo>(rt, alloc, bytes),
        "options" => record::<SocketOptions>(rt, alloc, bytes),
        "instruction" => record::<FilterInstruction>(rt, alloc, bytes),
        "membership" => record::<PacketMembership>(rt, alloc, bytes),
        "address" => address(rt, alloc, bytes),
        "storages" => storages(rt, alloc, bytes),
        "ulp" => upper_protocol_or_error(rt, alloc, bytes),
        "mptcp" => connection(rt, alloc, bytes),
        "tcp" => bit_fields(rt, alloc, bytes),
        // The flags `NLM_F_MULTI` (2) and `NLM_F_ACK_TLVS` (512).
        "done" => acknowledgement(rt, alloc, AckView::of_done(514, bytes)),
        flags => error_message(rt, alloc, flags, bytes),
    }
}

/// Returns the items of a reply under `SOCK_DIAG_BY_FAMILY` (20).
fn items_of_reply(rt: &impl Abort, alloc: Global, bytes: &[u8]) -> String {
    let reply = AnyReply::parse(bytes, 20).expect(rt, "refused");
    items(rt, alloc, reply.attributes(InfoFormat::Unknown))
}

/// Returns the upper layer protocol of a connection as text, or the text of the error.
fn upper_protocol_or_error(rt: &impl Abort, alloc: Global, value: &[u8]) -> String {
    let text = match upper_protocol(rt, alloc, value) {
        Ok(text) => Ok(text),
        Err(error) => format!(in alloc; "{error}"),
    };
    text.expect(rt, "memory")
}

/// Returns the content of an `NLMSG_ERROR` as text. The flags are a decimal number.
fn error_message(rt: &impl Abort, alloc: Global, flags: &str, bytes: &[u8]) -> String {
    let flags = flags.parse::<u16>().expect(rt, "no number");
    acknowledgement(rt, alloc, AckView::of_error(flags, bytes))
}

// A row has a word, bytes in hexadecimal, and after `|` the expected text, which `content_text`
// makes of the bytes by the word: of `reply` and `unix` the items of a reply about an IPv4 or a
// UNIX socket with these attributes, each with its value or its error. Linux 6.18 sent the bytes of
// the rows 512, 256 and `done`, of the first rows 768 and 0, of the `ulp` row about MPTCP, and of
// the first two rows `mptcp`.
//
// A number in place of the word is the flags of an `NLMSG_ERROR`: 256 is `NLM_F_CAPPED`, 512 is
// `NLM_F_ACK_TLVS`, and 768 is both. The text of an acknowledgement has what `acknowledged`
// returns, and then the text of `attributes_text`. In the first row 0 the length field of the
// request is 17; in those with `nothing` it is 15, less than a header, and 21, more than there are
// bytes.
//
// Linux 7.2 sent the bytes of the second row `ulp`; the last two have errors. The bytes of a row
// `tcp` are the last ones of `struct tcp_info`. Linux 7.2 sent those of the second to fourth row:
// of connections with ECN as in RFC 3168 and with accurate ECN, and of one that is not established
// yet. The text has their bit fields in order, in hexadecimal, and then the number of bytes after
// them.
//
// The text of `mptcp` has the fields of `MPTCP_FIELDS` in order, in hexadecimal, and then the
// number of bytes after them. In the third row `mptcp` each byte is its own offset. The rows after
// it lack fields.
const ROWS: &str = "\
reply |
reply 08000200010203040500080001000000|\
Some(2) TcpInfo: buffer of 4 bytes, at least 232 needed;Shutdown(1);
reply 05000880010000000300|Shutdown(1);None attribute header cut: 2 bytes left;
unix |
unix 060000006100000006000000006200000800020007000000|\
Name(Pathname([97]));Name(Abstract([98]));Peer(7);
unix 0c00010005000000060000000c00030008000000090000000c0004000100000002000000|\
Vfs(Vfs { inode: 5, device: 6 });\
PendingConnections(NumbersView { bytes: [8, 0, 0, 0, 9, 0, 0, 0] });QueueLengths(1, 2);
unix 0800050001000000050006000300000008000700e80300000300|\
Some(5) UnixMemInfo: buffer of 4 bytes, at least 36 needed;Shutdown(3);\
Owner(1000);None attribute header cut: 2 bytes left;
vegas 01000000020000000300000004000000|\
VegasInfo { enabled: 1, rtt_count: 2, rtt: 3, min_rtt: 4 } true
dctcp 01000200030000000400000005000000|\
DctcpInfo { enabled: 1, ce_state: 2, alpha: 3, marked_bytes: 4, acked_bytes: 5 } true
bbr 0100000002000000030000000400000005000000|\
BbrInfo { bandwidth: 8589934593, min_rtt: 3, pacing_gain: 4, window_gain: 5 } true
options 0504|SocketOptions { bits: 1029 } true
instruction 1500000800080000|\
FilterInstruction { code: 21, jump_if_met: 0, jump_if_not_met: 8, operand: 2048 } true
membership 0200000001000000000006000180c200000300000000000000000000000000000000000000000000\
00000000|\
PacketMembership { interface: 2, count: 1, kind: 0, address_length: 6, address: [1, 128, 194, 0, \
0, 3, 0, 0, 0, 0, 0, 0, 0, 0, 0, 0, 0, 0, 0, 0, 0, 0, 0, 0, 0, 0, 0, 0, 0, 0, 0, 0] } true
512 \
deffffff2800000013000500070000000000000000000000010000000000000000000000060004006162000027000100\
417474726962757465206661696c656420706f6c6963792076616c69646174696f6e0000080002002000000024000480\
0c00040000000000000000000c000500ffffffff000000000800010004000000|\
(-34, 40, Some(7)) Some(\"Attribute failed policy validation\") Some(32) Some(32) \
(None, None, None)
768 \
deffffff2800000013000500070000000000000027000100417474726962757465206661696c656420706f6c69637920\
76616c69646174696f6e00000800020020000000240004800c00040000000000000000000c000500ffffffff00000000\
0800010004000000|\
(-34, 16, Some(7)) Some(\"Attribute failed policy validation\") Some(32) Some(32) \
(None, None, None)
0 eaffffff1100000014000500070000000000000002000000|\
(-22, 17, Some(7)) None None None (None, None, None)
256 0000000020000000120005000700000000000000|\
(0, 16, Some(7)) None None None (None, None, None)
768 \
eaffffff100000001400050007000000000000000700030008090a00080005000b0000000800060024000000|\
(-22, 16, Some(7)) None None None (Some(11), Some(36), Some([8, 9, 10]))
done \
eaffffff32000100496e76616c69642076616c75657320696e2068656164657220666f72204649422064756d70207265\
7175657374000000|\
(-22, 0, None) Some(\"Invalid values in header for FIB dump request\") None None (None, None, None)
0 0000000020000000120005000700000000000000|\
(0, 16, Some(7)) None None None (None, None, None)
0 eaffffff0f00000014000500070000000000000002000000|nothing
0 eaffffff1500000014000500070000000000000002000000|nothing
ulp 08000100746c73002000028006000100030300000600020033000000060004000200000004000500|\
Some(\"tls\") (Some(771), Some(2), None) (true, false)
ulp \
08000100746c73002c000200060001000303000006000200330000000600030002000000060004000200000006000700\
00400000|Some(\"tls\") (Some(771), Some(2), Some(16384)) (false, false)
ulp \
0a0001006d7074637000000058000300080001000000000008000200e27c38a508000800c10000000500090000000000\
05000a000000000008000300010000000c0004007e979b806ef3664d080005000100000008000600020ef3da06000700\
05000000|Some(\"mptcp\") Some(5577412844474570622) Some(0)
ulp |None
ulp 0c0002800800010003030000|value of 4 bytes, 2 needed
ulp 0800028008000100|attribute length 8 is past the 4 bytes left
mptcp \
030303070305000002000000d403802806746f1e94a6f07306746f1e94a6f073bf8368338c619d0603030100000000008\
87f0100000000008de201000000000000000000000000008de201000000000004010000cc0000003c1d000000000000|\
3 3 3 7 3 5 2 288003d4 73f0a6941e6f7406 73f0a6941e6f7406 69d618c336883bf 3 3 1 0 17f88 1e28d 0 \
1e28d 4 1 0 cc 1d3c 0 0
mptcp \
03030307030500000200000051dfa4cb825e146f58d34e5b815e146f58d34e5b7dbdc407df050be503030100050000000\
00000000000000000000000000000000000000000000000000000000000000004010000741000007410000074100000|\
3 3 3 7 3 5 2 cba4df51 5b4ed3586f145e82 5b4ed3586f145e81 e50b05df07c4bd7d 3 3 1 5 0 0 0 0 4 1 \
0 1074 1074 1074 0
mptcp \
000102030405060708090a0b0c0d0e0f101112131415161718191a1b1c1d1e1f202122232425262728292a2b2c2d2e2f3\
03132333435363738393a3b3c3d3e3f404142434445464748494a4b4c4d4e4f505152535455565758595a5b5c5d5e5f60\
616263|\
0 1 2 3 4 5 b0a0908 f0e0d0c 1716151413121110 1f1e1d1c1b1a1918 2726252423222120 28 29 2a \
2f2e2d2c 3736353433323130 3f3e3d3c3b3a3938 4746454443424140 4f4e4d4c4b4a4948 50 51 52 57565554 \
5b5a5958 5f5e5d5c 4
mptcp \
03030307030500000200000051dfa4cb825e146f58d34e5b815e146f58d34e5b7dbdc407df050be5|\
3 3 3 7 3 5 2 cba4df51 5b4ed3586f145e82 5b4ed3586f145e81 e50b05df07c4bd7d - - - - - - - - - - - \
- - - 0
mptcp \
03030307030500000200000051dfa4cb825e146f58d34e5b815e146f58d34e5b7dbdc407df050be50303010005000000|\
3 3 3 7 3 5 2 cba4df51 5b4ed3586f145e82 5b4ed3586f145e81 e50b05df07c4bd7d 3 3 1 5 - - - - - - - \
- - - 0
mptcp \
000102030405060708090a0b0c0d0e0f101112131415161718191a1b1c1d1e1f202122232425262728292a2b2c2d2e2f3\
03132333435363738393a3b3c3d3e3f404142434445464748494a4b4c4d4e4f505152535455565758595a5b5c5d5e|\
0 1 2 3 4 5 b0a0908 f0e0d0c 1716151413121110 1f1e1d1c1b1a1918 2726252423222120 28 29 2a \
2f2e2d2c 3736353433323130 3f3e3d3c3b3a3938 4746454443424140 4f4e4d4c4b4a4948 50 51 52 57565554 \
5b5a5958 - 0
mptcp |- - - - - - - - - - - - - - - - - - - - - - - - - 0
tcp 00000000|0 0 0 0 0
tcp 01000000|1 0 0 0 0
tcp 0a000000|2 2 0 0 0
tcp 03000000|3 0 0 0 0
tcp f0000000|0 0 f 0 0
tcp 9634128007|2 1 9 801234 1
tcp 963412|- - - - 0
address 020000507f000001|80 Some(127.0.0.1) 0
address 0a00005000000001fe80000000000000000000000000000102000000|80 Some(fe80::1) 2
address 0100|0 None 0
storages 0400020014000180080002000900000005000300070000000c0001800800030001000000|\
other;Some(9) Some([7]);None Some([1, 0, 0, 0]);";

/// Asserts that the content of the bytes in a row is the text in it.
fn assert_row(rt: &impl Abort, alloc: Global, row: &str) {
    let (input, text) = row.split_once('|').expect(rt, "no text");
    let (word, digits) = input.split_once(' ').expect(rt, "no word");
    let bytes = hex::decode(alloc, digits).expect(rt, "digits");
    let shown = content_text(rt, alloc, word, &bytes);
    assert!(rt; shown.as_str() == text, "{row}");
}

#[test]
fn rows(rt: HostRuntime) {
    for row in ROWS.lines() {
        assert_row(&rt, rt.alloc(), row);
    }
}

/// Asserts what `Debug` prints for two fields of `struct tcp_info` (total retransmissions, and
/// bytes received with the ECN mark CE), and for whether the bytes contain all of the port's
/// record.
fn assert_tcp_fields(rt: &impl Abort, alloc: Global, bytes: &[u8], text: &str) {
    let info = TcpInfoBytes::new(bytes);
    let resent = info.get(TcpField::TotalRetrans);
    let marked = info.get(TcpField::ReceivedCeBytes);
    assert_debug(rt, alloc, &(resent, marked, info.whole().is_some()), text);
}

/// Checks values of several lengths. A field has a value only if the bytes contain all of it.
#[test]
fn as_far_as_the_bytes_go(rt: HostRuntime) {
    // `tcpi_total_retrans` is the `u32` at offset 100. The `u32` at 272 with the bytes 0, 1 is 256.
    let mut value = [0; 280];
    value[100] = 7;
    value[273] = 1;
    assert_tcp_fields(&rt, rt.alloc(), &value[..103], "(None, None, false)");
    assert_tcp_fields(&rt, rt.alloc(), &value[..104], "(Some(7), None, false)");
    assert_tcp_fields(&rt, rt.alloc(), &value[..275], "(Some(7), None, true)");
    assert_tcp_fields(&rt, rt.alloc(), &value, "(Some(7), Some(256), true)");
}

/// Checks a record of 100 bytes, whose start, up to the key, Linux 6.18 sent. It is padded with
/// zeros, and 7 bytes remain after the record.
#[test]
fn signatures(rt: HostRuntime) {
    let digits = "022006007f000002000000000000000000000000736563726574";
    let mut value = hex::decode(rt.alloc(), digits).expect(&rt, "digits");
    value.resize(107, 0).expect(&rt, "memory");
    let mut records = AttributeRecords::<Md5Signature>::new(&value);
    let parsed = records.next().expect(&rt, "too short");
    assert_signature(&rt, &parsed);
    assert!(&rt; records.next().is_none() && records.rest().len() == 7);
}

/// Asserts that the record is the one of `signatures`: for 127.0.0.2/32, with the key `secret`.
fn assert_signature(rt: &impl Abort, parsed: &Md5Signature) {
    assert!(rt; parsed.family == 2 && parsed.prefix_length == 32 && parsed.key_length == 6);
    assert!(rt; parsed.address.starts_with(&[127, 0, 0, 2]) && parsed.key.starts_with(b"secret\0"));
}

/// Returns the bytes of an attribute of type 1 with this value.
fn attribute(rt: &impl Abort, alloc: Global, value: &[u8]) -> Vec<u8> {
    let length = u16::try_from(value.len().saturating_add(4)).expect(rt, "too long");
    let [low, high] = length.to_le_bytes();
    let mut bytes = Vec::from_slice(alloc, &[low, high, 1, 0]).expect(rt, "memory");
    bytes.extend_from_slice(value).expect(rt, "memory");
    bytes
}

/// Asserts that `Debug` prints the value as this text, in parentheses after the name.
fn assert_debug_in_parentheses<T: Debug>(
    rt: &impl Abort,
    alloc: Global,
    value: &T,
    name: &str,
    text: &str,
) {
    assert_debug(
        rt,
        alloc,
        value,
        in_parentheses(rt, alloc, name, text).as_str(),
    );
}

/// Returns the text in parentheses after the name.
fn in_parentheses(rt: &impl Abort, alloc: Global, name: &str, text: &str) -> String {
    format!(in alloc; "{name}({text})").expect(rt, "memory")
}

/// Asserts that `Debug` prints the bytes of each type that borrows an attribute with this value.
fn assert_debug_of_nested(rt: &impl Abort, alloc: Global, value: &[u8]) {
    let bytes = attribute(rt, alloc, value);
    let nested = NestedNlas::parse(&bytes).expect(rt, "refused");
    let text = fields_text(rt, alloc, "NestedNlas", &bytes);
    assert_debug(rt, alloc, &nested, text.as_str());
    assert_debug_in_parentheses(rt, alloc, &UlpInfo(nested), "UlpInfo", text.as_str());
    assert_debug_in_parentheses(rt, alloc, &TlsInfo(nested), "TlsInfo", text.as_str());
    assert_debug_in_parentheses(
        rt,
        alloc,
        &SubflowInfo(nested),
        "SubflowInfo",
        text.as_str(),
    );
    assert_debug_in_parentheses(rt, alloc, &BpfStorage(nested), "BpfStorage", text.as_str());
    assert_debug_in_parentheses(
        rt,
        alloc,
        &AckAttributes(nested),
        "AckAttributes",
        text.as_str(),
    );
}

/// Asserts that `Debug` prints the bytes of each type that borrows this value.
fn assert_debug_of_values(rt: &impl Abort, alloc: Global, value: &[u8]) {
    let text = fields_text(rt, alloc, "TcpInfoBytes", value);
    assert_debug(rt, alloc, &TcpInfoBytes::new(value), text.as_str());
    let text = fields_text(rt, alloc, "MptcpInfoBytes", value);
    assert_debug(rt, alloc, &MptcpInfoBytes::new(value), text.as_str());
}

/// Returns the text of a struct of this name with one field, `bytes`.
fn fields_text(rt: &impl Abort, alloc: Global, name: &str, bytes: &[u8]) -> String {
    format!(in alloc; "{name} {{ bytes: {bytes:?} }}").expect(rt, "memory")
}

/// Lengths of the values of the attributes that `Debug` prints.
const VALUE_SIZES: [usize; 7] = [0, 1, 2, 232, 280, 300, 65_531];

#[test]
fn values_have_texts(rt: HostRuntime) {
    for &size in &VALUE_SIZES {
        let value = vec![in rt.alloc(); 7; size].expect(&rt, "memory");
        assert_debug_of_nested(&rt, rt.alloc(), &value);
        assert_debug_of_values(&rt, rt.alloc(), &value);
    }
}

#[test]
fn an_acknowledgement_has_a_text(rt: HostRuntime) {
    let alloc = rt.alloc();
    let text = "AckView { number: 1, request: [], attributes: [9] }";
    // The flag is `NLM_F_ACK_TLVS`, so what follows the error number is attributes.
    let ack = AckView::of_done(512, &[1, 0, 0, 0, 9]).expect(&rt, "too short");
    assert_debug(&rt, alloc, &ack, text);
}

#[test]
fn items_have_texts(rt: HostRuntime) {
    let alloc = rt.alloc();
    // A peer of 1 byte instead of 4, with a flag bit in its type field, and two bytes more.
    let bytes = reply(&rt, alloc, 1, 16, &[5, 0, 2, 128, 7, 0, 0, 0, 0, 0]);
    let reply = AnyReply::parse(&bytes, 20).expect(&rt, "refused");
    let mut attributes = reply.attributes(InfoFormat::Unknown);
    let three = [attributes.next(), attributes.next(), attributes.next()];
    let text = "[Some(Err(Attribute(NlaBuffer { type_word: 32770, value: [7] }, WrongLength { \
        kind: Some(2), got: 1, need: 4 }))), Some(Err(Framing(AttributeHeaderCut { left: 2 }))), \
        None]";
    assert_debug(&rt, alloc, &three, text);
}

/// The fields of `struct tcp_info`, in order, each with its name. Only the test of `Debug` output
/// uses them.
const TCP_FIELDS: [(TcpField, &str); 70] = with_names![
    TcpField: State, CaState, Retransmits, Probes, Backoff, Options, Wscale,
    DeliveryRateAppLimited, Rto, Ato, SndMss, RcvMss, Unacked, Sacked, Lost, Retrans, Fackets,
    LastDataSent, LastAckSent, LastDataRecv, LastAckRecv, Pmtu, RcvSsthresh, Rtt, Rttvar,
    SndSsthresh, SndCwnd, Advmss, Reordering, RcvRtt, RcvSpace, TotalRetrans, PacingRate,
    MaxPacingRate, BytesAcked, BytesReceived, SegsOut, SegsIn, NotsentBytes, MinRtt, DataSegsIn,
    DataSegsOut, DeliveryRate, BusyTime, RwndLimited, SndbufLimited, Delivered, DeliveredCe,
    BytesSent, BytesRetrans, DsackDups, ReordSeen, RcvOoopack, SndWnd, RcvWnd, Rehash, TotalRto,
    TotalRtoRecoveries, TotalRtoTime, ReceivedCe, DeliveredE1Bytes, DeliveredE0Bytes,
    DeliveredCeBytes, ReceivedE1Bytes, ReceivedE0Bytes, ReceivedCeBytes, EcnMode,
    AccecnOptSeen, AccecnFailMode, Options2
];

/// The options of a socket, in the order of their bits, each with its name.
const OPTIONS: [(SocketOption, &str); 11] = with_names![
    SocketOption: RecvErr, IsIcsk, FreeBind, HdrIncl, McLoop, Transparent, McAll, NoDefrag,
    BindAddressNoPort, RecvErrRfc4884, DeferConnect
];

/// The fields of TLS, each with its name.
const TLS_FIELDS: [(TlsField, &str); 5] = with_names![
    TlsField: Version, Cipher, Sending, Receiving, SendingMaxPayload
];

/// The fields of a subflow of MPTCP, each with its name.
const SUBFLOW_FIELDS: [(SubflowField, &str); 10] = with_names![
    SubflowField: RemoteToken, LocalToken, RelativeWriteSequence, MapSequence, MapSubflowSequence,
    SequenceOffset, MapLength, Flags, RemoteId, LocalId
];

/// Asserts that `Debug` prints each value as its name.
fn assert_debug_names<T: Debug>(rt: &impl Abort, alloc: Global, values: &[(T, &str)]) {
    for (value, name) in values {
        assert_debug(rt, alloc, value, *name);
    }
}

#[test]
fn fields_have_texts(rt: HostRuntime) {
    assert_debug_names(&rt, rt.alloc(), &TCP_FIELDS);
    assert_debug_names(&rt, rt.alloc(), &MPTCP_FIELDS);
    assert_debug_names(&rt, rt.alloc(), &OPTIONS);
    assert_debug_names(&rt, rt.alloc(), &TLS_FIELDS);
    assert_debug_names(&rt, rt.alloc(), &SUBFLOW_FIELDS);
}

/// Asserts that `Debug` prints the record that consists of zeros as this text.
fn assert_debug_of_zeros<T: AttributeRecord + Debug + Drop>(
    rt: &impl Abort,
    alloc: Global,
    text: &str,
) {
    let record = read_attribute_record::<T>(&[0; 128]).expect(rt, "too short");
    assert_debug(rt, alloc, &record, text);
}

/// The `Debug` output of the address that consists of zeros.
const NO_ADDRESS: &str = "\
StoredAddress { family: 0, port: 0, front: [0, 0, 0, 0], segments: [0, 0, 0, 0, 0, 0, 0, 0], \
scope_id: 0, rest: [0, 0, 0, 0, 0, 0, 0, 0, 0, 0, 0, 0, 0, 0, 0, 0, 0, 0, 0, 0, 0, 0, 0, 0, \
0, 0, 0, 0, 0, 0, 0, 0, 0, 0, 0, 0, 0, 0, 0, 0, 0, 0, 0, 0, 0, 0, 0, 0, 0, 0, 0, 0, 0, 0, 0, \
0, 0, 0, 0, 0, 0, 0, 0, 0, 0, 0, 0, 0, 0, 0, 0, 0, 0, 0, 0, 0, 0, 0, 0, 0, 0, 0, 0, 0, 0, 0, \
0, 0, 0, 0, 0, 0, 0, 0, 0, 0, 0, 0, 0, 0] }";

/// The `Debug` output of the signature that consists of zeros.
const NO_SIGNATURE: &str = "\
Md5Signature { family: 0, prefix_length: 0, key_length: 0, address: [0, 0, 0, 0, 0, 0, 0, 0, \
0, 0, 0, 0, 0, 0, 0, 0], key: [0, 0, 0, 0, 0, 0, 0, 0, 0, 0, 0, 0, 0, 0, 0, 0, 0, 0, 0, 0, 0, \
0, 0, 0, 0, 0, 0, 0, 0, 0, 0, 0, 0, 0, 0, 0, 0, 0, 0, 0, 0, 0, 0, 0, 0, 0, 0, 0, 0, 0, 0, 0, \
0, 0, 0, 0, 0, 0, 0, 0, 0, 0, 0, 0, 0, 0, 0, 0, 0, 0, 0, 0, 0, 0, 0, 0, 0, 0, 0, 0] }";

#[test]
fn records_have_texts(rt: HostRuntime) {
    assert_debug_of_zeros::<StoredAddress>(&rt, rt.alloc(), NO_ADDRESS);
    assert_debug_of_zeros::<Md5Signature>(&rt, rt.alloc(), NO_SIGNATURE);
}
