//! The upper layer protocol of a TCP connection: INET_DIAG_ULP_INFO.

ghost use Rattle.std.specs.Prelude.{◌≡◌, ◌↔◌, ℕ, List, [], IfErr, IfOk, IsSome, IsTrue, Some};
ghost use Rattle.std.specs.Prelude.{option_copied, option_map};
ghost use Rattle.netlink_core.specs.Attribute.{HasAttributeError};
ghost use Rattle.netlink_core.specs.AttributeSet.{decode_attribute};
ghost use Rattle.netlink_core.specs.Errors.{map_ok};
ghost use Rattle.sock_diag_extras.specs.Models.{nested_bytes};
ghost use Rattle.sock_diag_extras.specs.Nested.{first_value_in, nested_number_in, nested_text_in};

use crate::constants::{
    INET_ULP_INFO_MPTCP, INET_ULP_INFO_NAME, INET_ULP_INFO_TLS, MPTCP_SUBFLOW_ATTR_FLAGS,
    MPTCP_SUBFLOW_ATTR_ID_LOC, MPTCP_SUBFLOW_ATTR_ID_REM, MPTCP_SUBFLOW_ATTR_MAP_DATALEN,
    MPTCP_SUBFLOW_ATTR_MAP_SEQ, MPTCP_SUBFLOW_ATTR_MAP_SFSEQ, MPTCP_SUBFLOW_ATTR_RELWRITE_SEQ,
    MPTCP_SUBFLOW_ATTR_SSN_OFFSET, MPTCP_SUBFLOW_ATTR_TOKEN_LOC, MPTCP_SUBFLOW_ATTR_TOKEN_REM,
    TLS_INFO_CIPHER, TLS_INFO_RX_NO_PAD, TLS_INFO_RXCONF, TLS_INFO_TX_MAX_PAYLOAD_LEN,
    TLS_INFO_TXCONF, TLS_INFO_VERSION, TLS_INFO_ZC_RO_TX,
};
use crate::nested::NestedNlas;
use netlink_core::DecodeError;

/// The upper layer protocol of a TCP connection, borrowed: the attributes `INET_ULP_INFO_..` of
/// `linux/inet_diag.h` in the value of `INET_DIAG_ULP_INFO`. Each getter uses the first attribute
/// of its kind, and returns `None` if there is none.
#[derive(Clone, Copy, Debug, PartialEq, Eq)]
pub struct UlpInfo<'a>(pub NestedNlas<'a>);

impl<'a> UlpInfo<'a> {
    /// Borrows the attributes in the value. Returns the first framing error, if there is one.
    pub fn parse(value: &'a [u8]) -> Result<UlpInfo<'a>, DecodeError>
        ensures kept { IfOk result (λ info. nested_bytes info.0 ≡ value.entry.now) }
        ensures error { IfErr result (HasAttributeError (decode_attribute []) value.entry.now) }
    {
        Ok(UlpInfo(NestedNlas::parse(value)?))
    }

    /// Returns the name of the protocol, such as `tls` or `mptcp`: the first `INET_ULP_INFO_NAME`,
    /// without one terminating NUL if it has one. Returns `Ok(None)` if there is none. A name that
    /// is not valid UTF-8 is `NotUtf8`.
    pub fn name(&self) -> Result<Option<&'a str>, DecodeError>
        ensures { map_ok option_copied result
            ≡ nested_text_in INET_ULP_INFO_NAME (nested_bytes self.now.0) }
    {
        self.0.text_of(INET_ULP_INFO_NAME)
    }

    /// Returns the information about TLS in the kernel, the attributes nested in the first
    /// `INET_ULP_INFO_TLS`, or `Ok(None)` if there is none. Returns the first framing error in its
    /// value, if there is one.
    pub fn tls(&self) -> Result<Option<TlsInfo<'a>>, DecodeError>
        ensures kept { IfOk result (λ found. option_map (λ tls. nested_bytes tls.0) found
            ≡ first_value_in INET_ULP_INFO_TLS (nested_bytes self.now.0)) }
        ensures error { IfErr result (λ e. (value : List ℕ)
            × (first_value_in INET_ULP_INFO_TLS (nested_bytes self.now.0) ≡ Some value)
            × HasAttributeError (decode_attribute []) value e) }
    {
        match self.0.nested_of(INET_ULP_INFO_TLS)? {
            Some(nested) => Ok(Some(TlsInfo(nested))),
            None => Ok(None),
        }
    }

    /// Returns the information about the subflow of an MPTCP connection, the attributes nested in
    /// the first `INET_ULP_INFO_MPTCP`, or `Ok(None)` if there is none. Returns the first framing
    /// error in its value, if there is one.
    pub fn mptcp(&self) -> Result<Option<SubflowInfo<'a>>, DecodeError>
        ensures kept { IfOk result (λ found. option_map (λ subflow. nested_bytes subflow.0) found
            ≡ first_value_in INET_ULP_INFO_MPTCP (nested_bytes self.now.0)) }
        ensures error { IfErr result (λ e. (value : List ℕ)
            × (first_value_in INET_ULP_INFO_MPTCP (nested_bytes self.now.0) ≡ Some value)
            × HasAttributeError (decode_attribute []) value e) }
    {
        match self.0.nested_of(INET_ULP_INFO_MPTCP)? {
            Some(nested) => Ok(Some(SubflowInfo(nested))),
            None => Ok(None),
        }
    }
}

/// Information about TLS in the kernel, borrowed: the attributes `TLS_INFO_..` of `linux/tls.h`.
#[derive(Clone, Copy, Debug, PartialEq, Eq)]
pub struct TlsInfo<'a>(pub NestedNlas<'a>);

/// A `u16` field of [`TlsInfo`].
#[derive(Clone, Copy, Debug, PartialEq, Eq)]
pub enum TlsField {
    /// The version, `TLS_INFO_VERSION`: 0x303 for TLS 1.2, 0x304 for 1.3.
    Version,
    /// The cipher, `TLS_INFO_CIPHER`: one of `TLS_CIPHER_..`.
    Cipher,
    /// How sent data is encrypted, `TLS_INFO_TXCONF`, one of `TLS_CONF_..`: 1 not in the kernel, 2
    /// in software, 3 in hardware, 4 in hardware that also makes the records.
    Sending,
    /// How received data is decrypted, `TLS_INFO_RXCONF`, one of `TLS_CONF_..` as for `Sending`.
    Receiving,
    /// Maximum length of the data in a record that is sent, `TLS_INFO_TX_MAX_PAYLOAD_LEN`, in
    /// bytes. Linux 6.18 does not send it.
    SendingMaxPayload,
}

impl TlsField {
    ghost use Rattle.sock_diag_extras.specs.UlpInfo.{tls_row};

    /// Returns the kind of the field's attribute, and the length of its value in bytes.
    pub fn row(self) -> (u16, usize)
        ensures { result ≡ tls_row self }
    {
        match self {
            TlsField::Version => (TLS_INFO_VERSION, 2),
            TlsField::Cipher => (TLS_INFO_CIPHER, 2),
            TlsField::Sending => (TLS_INFO_TXCONF, 2),
            TlsField::Receiving => (TLS_INFO_RXCONF, 2),
            TlsField::SendingMaxPayload => (TLS_INFO_TX_MAX_PAYLOAD_LEN, 2),
        }
    }
}

impl TlsInfo<'_> {
    ghost use Rattle.sock_diag_extras.specs.UlpInfo.{tls_row};

    /// Returns the value of the field, a little-endian number in the first attribute of its kind,
    /// or `Ok(None)` if there is none. A length of the attribute's value other than the field's
    /// (`row`) is `WrongLength`, with the kind.
    pub fn get(&self, field: TlsField) -> Result<Option<u64>, DecodeError>
        ensures { result ≡ nested_number_in (tls_row field) (nested_bytes self.now.0) }
    {
        let (kind, width) = field.row();
        self.0.number_of(kind, width)
    }

    /// Returns whether files are sent without a copy: whether `TLS_INFO_ZC_RO_TX` is present.
    pub fn sends_without_copy(&self) -> bool
        ensures { IsTrue result
            ↔ IsSome (first_value_in TLS_INFO_ZC_RO_TX (nested_bytes self.now.0)) }
    {
        self.0.value_of(TLS_INFO_ZC_RO_TX).is_some()
    }

    /// Returns whether received records are expected to have no padding: whether
    /// `TLS_INFO_RX_NO_PAD` is present.
    pub fn expects_no_padding(&self) -> bool
        ensures { IsTrue result
            ↔ IsSome (first_value_in TLS_INFO_RX_NO_PAD (nested_bytes self.now.0)) }
    {
        self.0.value_of(TLS_INFO_RX_NO_PAD).is_some()
    }
}

/// Information about the subflow of an MPTCP connection, borrowed: the attributes
/// `MPTCP_SUBFLOW_ATTR_..` of `linux/mptcp.h`.
#[derive(Clone, Copy, Debug, PartialEq, Eq)]
pub struct SubflowInfo<'a>(pub NestedNlas<'a>);

/// A field of [`SubflowInfo`].
#[derive(Clone, Copy, Debug, PartialEq, Eq)]
pub enum SubflowField {
    /// Token of the connection at the remote end, `MPTCP_SUBFLOW_ATTR_TOKEN_REM`, 32 bits.
    RemoteToken,
    /// Token of the connection at the local end, `MPTCP_SUBFLOW_ATTR_TOKEN_LOC`, 32 bits.
    LocalToken,
    /// Sequence number of the data written, relative to the start of the subflow,
    /// `MPTCP_SUBFLOW_ATTR_RELWRITE_SEQ`, 32 bits.
    RelativeWriteSequence,
    /// Sequence number in the connection at which the mapped data starts,
    /// `MPTCP_SUBFLOW_ATTR_MAP_SEQ`, 64 bits.
    MapSequence,
    /// Sequence number in the subflow at which the mapped data starts,
    /// `MPTCP_SUBFLOW_ATTR_MAP_SFSEQ`, 32 bits.
    MapSubflowSequence,
    /// First sequence number of the peer in the subflow, `MPTCP_SUBFLOW_ATTR_SSN_OFFSET`, 32 bits.
    SequenceOffset,
    /// Length of the mapped data in bytes, `MPTCP_SUBFLOW_ATTR_MAP_DATALEN`, 16 bits.
    MapLength,
    /// Flags of the subflow, `MPTCP_SUBFLOW_ATTR_FLAGS`, 32 bits: bits `MPTCP_SUBFLOW_FLAG_..`.
    Flags,
    /// Id of the remote address, `MPTCP_SUBFLOW_ATTR_ID_REM`, 8 bits.
    RemoteId,
    /// Id of the local address, `MPTCP_SUBFLOW_ATTR_ID_LOC`, 8 bits.
    LocalId,
}

impl SubflowField {
    ghost use Rattle.sock_diag_extras.specs.UlpInfo.{subflow_row};

    /// Returns the kind of the field's attribute, and the length of its value in bytes.
    pub fn row(self) -> (u16, usize)
        ensures { result ≡ subflow_row self }
    {
        match self {
            SubflowField::RemoteToken => (MPTCP_SUBFLOW_ATTR_TOKEN_REM, 4),
            SubflowField::LocalToken => (MPTCP_SUBFLOW_ATTR_TOKEN_LOC, 4),
            SubflowField::RelativeWriteSequence => (MPTCP_SUBFLOW_ATTR_RELWRITE_SEQ, 4),
            SubflowField::MapSequence => (MPTCP_SUBFLOW_ATTR_MAP_SEQ, 8),
            SubflowField::MapSubflowSequence => (MPTCP_SUBFLOW_ATTR_MAP_SFSEQ, 4),
            SubflowField::SequenceOffset => (MPTCP_SUBFLOW_ATTR_SSN_OFFSET, 4),
            SubflowField::MapLength => (MPTCP_SUBFLOW_ATTR_MAP_DATALEN, 2),
            SubflowField::Flags => (MPTCP_SUBFLOW_ATTR_FLAGS, 4),
            SubflowField::RemoteId => (MPTCP_SUBFLOW_ATTR_ID_REM, 1),
            SubflowField::LocalId => (MPTCP_SUBFLOW_ATTR_ID_LOC, 1),
        }
    }
}

impl SubflowInfo<'_> {
    ghost use Rattle.sock_diag_extras.specs.UlpInfo.{subflow_row};

    /// Returns the value of the field, a little-endian number in the first attribute of its kind,
    /// or `Ok(None)` if there is none. A length of the attribute's value other than the field's
    /// (`row`) is `WrongLength`, with the kind.
    pub fn get(&self, field: SubflowField) -> Result<Option<u64>, DecodeError>
        ensures { result ≡ nested_number_in (subflow_row field) (nested_bytes self.now.0) }
    {
        let (kind, width) = field.row();
        self.0.number_of(kind, width)
    }
}
