//! Iterating over attributes, with `netlink_core`.

ghost use Rattle.std.specs.Prelude.{◌≡◌, List, [], length, IfOk, IfErr};
ghost use Rattle.netlink_core.specs.Attribute.{Attribute, SplitsIntoAttributes, SplitsUntilError};
ghost use Rattle.netlink_core.specs.Attribute.{IsFramingError};

use netlink_core::{DecodeError, NlasIterator};

/// Returns the number of attributes that the bytes consist of, without parsing their values. If
/// attributes, or none, are followed by bytes that do not start with an attribute, returns the
/// framing error of these bytes. In the contract the bytes are `attributes`, and no bytes are left
/// (`[]`); or they are the attributes `before`, and then bytes with this error.
#[tactic(auto, using(crate::proofs::Counted::counting_rules))]
pub fn count_attributes(bytes: &[u8]) -> Result<usize, DecodeError>
    ensures count { IfOk result (λ count. (attributes : List Attribute)
        × SplitsIntoAttributes bytes.now attributes [] × (length attributes ≡ count)) }
    ensures error { IfErr result (λ error. (before : List Attribute)
        × SplitsUntilError IsFramingError bytes.now before error) }
{
    let mut count = 0;
    for item in NlasIterator::new(bytes) {
        let _attribute = item?;
        count += 1;
    }
    Ok(count)
}
