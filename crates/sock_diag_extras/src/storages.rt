//! Local storage of BPF programs for a socket: INET_DIAG_SK_BPF_STORAGES.

ghost use Rattle.std.specs.Prelude.{◌≡◌, ◌≢◌, [], IfErr, IfOk, MatchOption, option_copied};
ghost use Rattle.netlink_core.specs.Attribute.{HasAttributeError, attribute_kind};
ghost use Rattle.netlink_core.specs.AttributeSet.{decode_attribute};
ghost use Rattle.netlink_core.specs.Walk.{buffered_attribute};
ghost use Rattle.sock_diag_extras.specs.Models.{nested_bytes};
ghost use Rattle.sock_diag_extras.specs.Nested.{first_value_in, nested_u32_in};

use crate::constants::{
    SK_DIAG_BPF_STORAGE, SK_DIAG_BPF_STORAGE_MAP_ID, SK_DIAG_BPF_STORAGE_MAP_VALUE,
};
use crate::nested::NestedNlas;
use netlink_core::{DecodeError, NlaBuffer};

/// The borrowed entry of a socket in one BPF map: an attribute `SK_DIAG_BPF_STORAGE`
/// (`linux/sock_diag.h`) in the value of `INET_DIAG_SK_BPF_STORAGES`. A `NlasIterator` over that
/// value yields these attributes. A getter returns `None` if its attribute is not present.
#[derive(Clone, Copy, Debug, PartialEq, Eq)]
pub struct BpfStorage<'a>(pub NestedNlas<'a>);

impl<'a> BpfStorage<'a> {
    /// Borrows the attributes nested in the value of an attribute. Returns `Ok(None)` if the kind
    /// of the attribute is not `SK_DIAG_BPF_STORAGE` (1). Otherwise returns the first framing error
    /// in the value, if there is one.
    pub fn parse(nla: &NlaBuffer<'a>) -> Result<Option<BpfStorage<'a>>, DecodeError>
        ensures kept { IfOk result (λ found. MatchOption found
            (attribute_kind (buffered_attribute nla.now) ≢ SK_DIAG_BPF_STORAGE)
            (λ storage. (attribute_kind (buffered_attribute nla.now) ≡ SK_DIAG_BPF_STORAGE)
            × (nested_bytes storage.0 ≡ (buffered_attribute nla.now).value))) }
        ensures error { IfErr result (λ e.
            (attribute_kind (buffered_attribute nla.now) ≡ SK_DIAG_BPF_STORAGE)
            × HasAttributeError (decode_attribute []) (buffered_attribute nla.now).value e) }
    {
        if nla.kind() != SK_DIAG_BPF_STORAGE {
            return Ok(None);
        }
        Ok(Some(BpfStorage(NestedNlas::parse(nla.value())?)))
    }

    /// Returns the id of the map, the little-endian `u32` in the first
    /// `SK_DIAG_BPF_STORAGE_MAP_ID`, or `Ok(None)` if there is none. A length other than 4 is
    /// `WrongLength`, without the kind.
    pub fn map_id(&self) -> Result<Option<u32>, DecodeError>
        ensures { result ≡ nested_u32_in SK_DIAG_BPF_STORAGE_MAP_ID (nested_bytes self.now.0) }
    {
        self.0.word_of(SK_DIAG_BPF_STORAGE_MAP_ID)
    }

    /// Returns the bytes that the map stores for the socket: the value of the first
    /// `SK_DIAG_BPF_STORAGE_MAP_VALUE`, or `None` if there is none.
    pub fn map_value(&self) -> Option<&'a [u8]>
        ensures { option_copied result
            ≡ first_value_in SK_DIAG_BPF_STORAGE_MAP_VALUE (nested_bytes self.now.0) }
    {
        self.0.value_of(SK_DIAG_BPF_STORAGE_MAP_VALUE)
    }
}
