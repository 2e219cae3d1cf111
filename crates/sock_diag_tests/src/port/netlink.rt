//! Tests of `netlink_core`.

use super::attribute_sizes::SIZES;
use super::{assert_bytes, assert_debug, assert_emits, assert_items, assert_text};
use netlink_core::{
    CanonError, DecodeError, DefaultNla, Emitable, MessageStrings, Nla, NlaBuffer, NlasIterator,
    Parseable, RecordBuffer, RecordName, canonical, copy_list, emit_nla, emit_nlas, emit_u32,
    nla_len, nlas_len, nlas_writable, parse_string, parse_u8, parse_u32, write_new,
};
use sock_diag_attributes::inet::nlas as inet;
use sock_diag_attributes::unix::nlas as unix;
use std::alloc::Global;
use std::process::Abort;

#[test]
fn an_attribute_is_borrowed(rt: HostRuntime) {
    let alloc = rt.alloc();
    // An attribute of 5 bytes of type 6, with the flag `NLA_F_NESTED`, and one more byte.
    let bytes: &[u8] = &[5, 0, 6, 0x80, 2, 0xaa];
    let nla = NlaBuffer::new_checked(bytes).expect(&rt, "refused");
    let fields = [nla.length(), nla.type_word(), nla.kind()];
    assert_debug(&rt, alloc, &fields, "[5, 32774, 6]");
    let flags = [nla.nested_flag(), nla.network_byte_order_flag()];
    assert_debug(&rt, alloc, &flags, "[true, false]");
    let owned = DefaultNla::parse(alloc, nla)
        .expect(&rt, "refused")
        .clone(alloc)
        .expect(&rt, "refused");
    let text = "DefaultNla { kind: 32774, value: [2] }";
    assert_debug(&rt, alloc, &owned, text);
}

#[test]
fn a_record_buffer_is_printed(rt: HostRuntime) {
    let record = RecordBuffer::<u8, 2>::read_prefix(&[5, 0, 6]);
    let text = "Some(RecordBuffer { bytes: [5, 0], of: PhantomData<_> })";
    assert_debug(&rt, rt.alloc(), &record, text);
}

#[test]
fn attributes_and_their_errors(rt: HostRuntime) {
    let alloc = rt.alloc();
    // An attribute with 3 bytes of padding, one without a value, and one byte more.
    let two: &[u8] = &[5, 0, 7, 0, 1, 0xee, 0xee, 0xee, 4, 0, 8, 0, 1];
    let text = "[Ok(NlaBuffer { type_word: 7, value: [1] }), \
        Ok(NlaBuffer { type_word: 8, value: [] }), Err(AttributeHeaderCut { left: 1 })]";
    assert_items(&rt, alloc, NlasIterator::new(two), text);
    // After its error the iterator yields nothing.
    let mut walk = NlasIterator::new(&two[8..]);
    let items = [walk.next(), walk.next(), walk.next(), walk.next()];
    let text = "[Some(Ok(NlaBuffer { type_word: 8, value: [] })), \
        Some(Err(AttributeHeaderCut { left: 1 })), None, None]";
    assert_debug(&rt, alloc, &items, text);
    let text = "[Ok(NlaBuffer { type_word: 7, value: [1] })]";
    assert_items(&rt, alloc, NlasIterator::new(&two[..5]), text);
    assert_canonical_form(&rt, alloc, two, "Ok([5, 0, 7, 0, 1, 0, 0, 0])");
    let text = "Err(Refused(AttributeLengthPast { length: 5, left: 4 }))";
    assert_canonical_form(&rt, alloc, &two[..4], text);
    let text = "Err(Refused(AttributeHeaderCut { left: 3 }))";
    assert_canonical_form(&rt, alloc, &two[..3], text);
    let text = "Err(Refused(AttributeHeaderCut { left: 0 }))";
    assert_canonical_form(&rt, alloc, &[], text);
    let text = "Err(Refused(AttributeLengthUnder4 { length: 3 }))";
    assert_canonical_form(&rt, alloc, &[3, 0, 6, 0], text);
}

// Asserts that `Debug` prints the canonical form of the attribute in the bytes, or why there is
// none, as this text.
fn assert_canonical_form(rt: &impl Abort, alloc: Global, bytes: &[u8], text: &str) {
    assert_debug(rt, alloc, &canonical::<DefaultNla>(alloc, bytes, ()), text);
}

// A message of type 16 with one byte after its header and three bytes of padding, and a message of
// type 3 without payload.
const TWO: [u8; 36] = [
    17, 0, 0, 0, 16, 0, 0, 0, 0, 0, 0, 0, 0, 0, 0, 0, 7, 0xee, 0xee, 0xee, 16, 0, 0, 0, 3, 0, 0, 0,
    0, 0, 0, 0, 0, 0, 0, 0,
];

#[test]
fn messages_of_a_datagram(rt: HostRuntime) {
    let one = "[Ok([17, 0, 0, 0, 16, 0, 0, 0, 0, 0, 0, 0, 0, 0, 0, 0, 7])]";
    let two = "[Ok([17, 0, 0, 0, 16, 0, 0, 0, 0, 0, 0, 0, 0, 0, 0, 0, 7]), \
        Ok([16, 0, 0, 0, 3, 0, 0, 0, 0, 0, 0, 0, 0, 0, 0, 0])]";
    let cut = "[Ok([17, 0, 0, 0, 16, 0, 0, 0, 0, 0, 0, 0, 0, 0, 0, 0, 7]), \
        Err(EnvelopeCut { got: 15 })]";
    // The first message without its padding, with a part of it, and with all of it; then with a
    // truncated second message, and with the whole one.
    assert_messages(&rt, rt.alloc(), &TWO[..17], one);
    assert_messages(&rt, rt.alloc(), &TWO[..19], one);
    assert_messages(&rt, rt.alloc(), &TWO[..20], one);
    assert_messages(&rt, rt.alloc(), &TWO[..35], cut);
    assert_messages(&rt, rt.alloc(), &TWO, two);
}

// Asserts that `Debug` prints the messages in the bytes, or the errors, as this text.
fn assert_messages(rt: &impl Abort, alloc: Global, bytes: &[u8], text: &str) {
    assert_items(rt, alloc, MessageStrings::new(bytes), text);
}

// Returns each error, in the order of the codes.
fn all_errors() -> [DecodeError; 18] {
    let which = RecordName::Vfs;
    let (kind, got, need) = (Some(2), 7, 8);
    let (left, index, family) = (3, 4, 5);
    [
        DecodeError::Memory,
        DecodeError::BufferTooSmall { which, got, need },
        DecodeError::UnsupportedFamily { family },
        DecodeError::MessageTooShort { got },
        DecodeError::UnknownFamily { family },
        DecodeError::UnknownMessageType { message_type: 21 },
        DecodeError::AttributeHeaderCut { left },
        DecodeError::AttributeLengthUnder4 { length: 2 },
        DecodeError::AttributeLengthPast { length: 6, left },
        DecodeError::WrongLength { kind, got, need },
        DecodeError::NotMultipleOfFour { got },
        DecodeError::NotUtf8,
        DecodeError::NameEmpty,
        DecodeError::NameInnerZero { index },
        DecodeError::NameWithoutEnd,
        DecodeError::EnvelopeCut { got },
        DecodeError::EnvelopeLengthUnder16 { length: 15 },
        DecodeError::EnvelopeLengthPast { length: 9, got },
    ]
}

// For each error of `all_errors`, in this order: its code, its text, and its `Debug` output.
const FAULTS: &str = "\
(1, \"out of memory\", Memory)
(2, \"Vfs: buffer of 7 bytes, at least 8 needed\", BufferTooSmall { which: Vfs, got: 7, need: 8 })
(3, \"unsupported address family 5: expected AF_INET (2) or AF_INET6 (10)\", UnsupportedFamily { \
family: 5 })
(4, \"invalid buffer: length is 7 but packets are at least 2 bytes\", MessageTooShort { got: 7 })
(5, \"unknown address family 5\", UnknownFamily { family: 5 })
(6, \"unknown message type 21\", UnknownMessageType { message_type: 21 })
(7, \"attribute header cut: 3 bytes left\", AttributeHeaderCut { left: 3 })
(8, \"attribute length 2 is under 4\", AttributeLengthUnder4 { length: 2 })
(9, \"attribute length 6 is past the 3 bytes left\", AttributeLengthPast { length: 6, left: 3 })
(10, \"value of 7 bytes, 8 needed\", WrongLength { kind: Some(2), got: 7, need: 8 })
(11, \"value of 7 bytes is no multiple of 4\", NotMultipleOfFour { got: 7 })
(12, \"text is not UTF-8\", NotUtf8)
(13, \"name is empty\", NameEmpty)
(14, \"pathname holds a zero at 4\", NameInnerZero { index: 4 })
(15, \"pathname is not null-terminated\", NameWithoutEnd)
(16, \"message header cut: 7 bytes\", EnvelopeCut { got: 7 })
(17, \"message length 15 is under 16\", EnvelopeLengthUnder16 { length: 15 })
(18, \"message length 9 is past the 7 bytes given\", EnvelopeLengthPast { length: 9, got: 7 })
";

// Asserts that `Debug` prints the code of the error, its text and the error itself as `expected`.
fn assert_code_and_text(rt: &impl Abort, alloc: Global, error: &DecodeError, expected: &str) {
    let text = format!(in alloc; "{error}").expect(rt, "memory");
    assert_debug(rt, alloc, &(error.number(), text, error), expected);
}

#[test]
fn errors_have_codes_and_texts(rt: HostRuntime) {
    let mut lines = FAULTS.lines();
    for error in &all_errors() {
        assert_code_and_text(&rt, rt.alloc(), error, lines.next().expect(&rt, "no line"));
    }
    let reasons = [CanonError::Unwritable, CanonError::Memory];
    assert_debug(&rt, rt.alloc(), &reasons, "[Unwritable, Memory]");
}

#[test]
fn record_names_have_texts(rt: HostRuntime) {
    for (name, text) in &RECORDS {
        let shown = format!(in rt.alloc(); "{name}").expect(&rt, "memory");
        assert_text(&rt, shown.as_str(), text);
    }
}

/// In each row: the name of a record, of the port or of another family, and its text.
const RECORDS: [(RecordName, &str); 13] = [
    (RecordName::SocketId, "SocketId"),
    (RecordName::InetRequest, "InetRequest"),
    (RecordName::InetResponseHeader, "InetResponseHeader"),
    (RecordName::UnixRequest, "UnixRequest"),
    (RecordName::UnixResponseHeader, "UnixResponseHeader"),
    (RecordName::LegacyMemInfo, "LegacyMemInfo"),
    (RecordName::MemInfo, "MemInfo"),
    (RecordName::TcpInfo, "TcpInfo"),
    (RecordName::Vfs, "Vfs"),
    (RecordName::UnixMemInfo, "UnixMemInfo"),
    (
        RecordName::FamilyRequest { family: 16 },
        "FamilyRequest { family: 16 }",
    ),
    (
        RecordName::FamilyResponseHeader { family: 44 },
        "FamilyResponseHeader { family: 44 }",
    ),
    (
        RecordName::FamilyAttribute {
            family: 17,
            kind: 2,
        },
        "FamilyAttribute { family: 17, kind: 2 }",
    ),
];

// Asserts that there is memory for `size` bytes: to parse a text, to copy a list, and to clone an
// attribute, serialize it and return its canonical form. An attribute is writable if its value has
// at most 65,531 bytes.
fn assert_size_fits(rt: &impl Abort, alloc: Global, size: usize) {
    let bytes = vec![in alloc; b'a'; size].expect(rt, "memory");
    parse_string(alloc, &bytes).expect(rt, "refused");
    copy_list(alloc, &bytes).expect(rt, "memory");
    let nla = DefaultNla::new(7, bytes).clone(alloc);
    let nla = nla.expect(rt, "memory");
    let written = write_new(alloc, &nla);
    let fits = [nla.value_fits(), nla.is_writable(), written.is_ok()];
    assert!(rt; fits == [size <= 65_531; 3]);
    if let Ok(bytes) = written {
        assert!(rt; canonical::<DefaultNla>(alloc, &bytes, ()).is_ok());
    }
}

#[test]
fn sizes(rt: HostRuntime) {
    for size in 0..301 {
        assert_size_fits(&rt, rt.alloc(), size);
    }
    for &size in &SIZES {
        assert_size_fits(&rt, rt.alloc(), size);
    }
}

#[test]
fn numbers_and_texts(rt: HostRuntime) {
    let alloc = rt.alloc();
    let texts = [
        parse_string(alloc, b""),
        parse_string(alloc, b"a\0\0"),
        parse_string(alloc, b"\xff"),
    ];
    assert_debug(&rt, alloc, &texts, r#"[Ok(""), Ok("a\0"), Err(NotUtf8)]"#);
    let bytes = [parse_u8(&[7]), parse_u8(&[]), parse_u8(&[7, 8])];
    let text = "[Ok(7), Err(WrongLength { kind: None, got: 0, need: 1 }), \
        Err(WrongLength { kind: None, got: 2, need: 1 })]";
    assert_debug(&rt, alloc, &bytes, text);
    let short = parse_u32(&[1, 2, 3]);
    // Of two calls of `with_kind`, the first one sets the kind.
    let words = [
        parse_u32(&[1, 2, 3, 4]),
        short,
        short.map_err(|error| error.with_kind(2).with_kind(3)),
    ];
    let text = "[Ok(67305985), Err(WrongLength { kind: None, got: 3, need: 4 }), \
        Err(WrongLength { kind: Some(2), got: 3, need: 4 })]";
    assert_debug(&rt, alloc, &words, text);
}

// Asserts what a buffer of 0xff bytes contains after a call that writes to its start: `value` after
// `emit_value`, and `bytes` after `emit_nla`. Both are at least as long as what the call writes.
fn assert_left_in_buffers<T: Nla>(
    rt: &impl Abort,
    alloc: Global,
    nla: &T,
    value: &[u8],
    bytes: &[u8],
) {
    let fits = nla.value_fits() && nla.value_len() <= value.len() && nla_len(nla) <= bytes.len();
    assert!(rt; fits);
    let mut buffer = vec![in alloc; 0xff; value.len()].expect(rt, "memory");
    nla.emit_value(&mut buffer);
    assert_bytes(rt, &buffer, value);
    let mut buffer = vec![in alloc; 0xff; bytes.len()].expect(rt, "memory");
    emit_nla(nla, &mut buffer);
    assert_bytes(rt, &buffer, bytes);
}

#[test]
fn serializers_leave_the_rest_of_a_buffer(rt: HostRuntime) {
    let alloc = rt.alloc();
    let value = Vec::from_slice(alloc, &[2]).expect(&rt, "memory");
    let nla = DefaultNla::new(0x8007, value);
    // Length 5, the type field, the value 2 and padding.
    assert_emits(&rt, alloc, &nla, b"\x05\0\x07\x80\x02\0\0\0");
    let bytes = b"\x05\0\x07\x80\x02\0\0\0\xff\xff";
    assert_left_in_buffers(&rt, alloc, &nla, b"\x02\xff\xff", bytes);
    let bytes = b"\x05\0\x06\0\x03\0\0\0\xff\xff";
    assert_left_in_buffers(&rt, alloc, &unix::Nla::Shutdown(3), b"\x03\xff\xff", bytes);
    let bytes = b"\x05\0\x0b\0\x01\0\0\0\xff\xff";
    assert_left_in_buffers(
        &rt,
        alloc,
        &inet::Nla::SkV6Only(true),
        b"\x01\xff\xff",
        bytes,
    );
    let nlas = [nla, DefaultNla::new(8, Vec::new(alloc))];
    // The attributes have 8 and 4 bytes; the buffer has 2 more.
    let mut buffer = [0xff; 14];
    assert!(rt; nlas_writable(&nlas) && nlas_len(&nlas) <= 14);
    emit_nlas(&nlas, &mut buffer);
    assert_bytes(
        &rt,
        &buffer,
        b"\x05\0\x07\x80\x02\0\0\0\x04\0\x08\0\xff\xff",
    );
    let mut buffer = [0xff; 6];
    emit_u32(&mut buffer, 0x0102_0304);
    assert_bytes(&rt, &buffer, b"\x04\x03\x02\x01\xff\xff");
}
