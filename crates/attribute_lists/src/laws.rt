//! Properties of the values that are found in bytes. Proof only: the contracts state them.

ghost use Rattle.std.specs.Prelude.{◌≡◌, ◌↔◌, ℕ, List, []};
ghost use Rattle.netlink_core.specs.Attribute.{Attribute, DecodeTo};
ghost use Rattle.netlink_core.specs.AttributeSet.{AttributeValue, decode_attribute};
ghost use Rattle.netlink_core.specs.Bytes.{IsBytes};
ghost use Rattle.attribute_lists.specs.AttributesIn.{HasNoAttributeError, decoded_in};

use netlink_core::FamilyNla;

/// In bytes without an error, the values that are found (`decoded_in`) are exactly the values that
/// the attributes of the bytes decode to, in order (`decoded`). By the empty set of types, in which
/// each attribute decodes to itself, they are exactly the attributes of the bytes (`undecoded`).
pub fn found_values_are_the_attributes<T: FamilyNla>()
    ensures decoded { (bytes : List ℕ) (values : List (AttributeValue T.attribute_set))
        → IsBytes bytes → HasNoAttributeError (decode_attribute T.attribute_set) bytes
        → ((decoded_in (decode_attribute T.attribute_set) bytes ≡ values)
        ↔ DecodeTo (decode_attribute T.attribute_set) bytes values) }
    // By the set without types no value is rejected, so that only the framing can have an error.
    ensures undecoded { (bytes : List ℕ) (attributes : List Attribute)
        → IsBytes bytes → HasNoAttributeError (decode_attribute []) bytes
        → ((decoded_in (decode_attribute []) bytes ≡ attributes)
        ↔ DecodeTo (decode_attribute []) bytes attributes) }
{}
