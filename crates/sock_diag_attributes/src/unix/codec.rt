//! The codec of one attribute of a reply about a UNIX socket.

ghost use Rattle.std.specs.Prelude.{refl, vec_items};
ghost use Rattle.netlink_core.specs.DefaultNla.{raw_attribute};
ghost use Rattle.netlink_core.specs.FirstAttribute.{first_attribute_codec};
ghost use Rattle.netlink_core.specs.laws.FirstAttribute.{first_attribute_codec_laws};
ghost use Rattle.sock_diag_attributes.specs.UnixAttributes.{unix_attribute_set};
ghost use Rattle.sock_diag_attributes.specs.laws.UnixAttribute.{unix_laws};
ghost use Rattle.sock_diag_attributes.specs.UnixModel.{unix_nla_model};
ghost use Rattle.sock_diag_attributes.specs.NameModel.{socket_name_model};
ghost use Rattle.sock_diag_attributes.specs.laws.EqualUnix.{unix_nlas_equal};
ghost use Rattle.sock_diag_attributes.specs.laws.EqualName.{same_names};
ghost use Rattle.sock_diag_attributes.specs.laws.AttributeParts.{byte_list_type, default_nla_type};
ghost use Rattle.sock_diag_attributes.specs.laws.AttributeParts.{list_type};
ghost use Rattle.sock_diag_attributes.specs.laws.AttributeParts.{name_type};

use super::nlas::{Nla, NlaView};
use netlink_core::{CanonError, DecodeError, HasCodec, NlaBuffer, Wire, WireNla, write_new};
use std::alloc::Global;

impl HasCodec for Nla {
    type Param = ();

    ghost codec = { first_attribute_codec unix_attribute_set };

    ghost model = { unix_nla_model };

    // 0, since an attribute is not a netlink message, and so has no message type.
    ghost serialized_type = { λ _. 0 };

    ghost eq_is_model = { unix_nlas_equal name_type list_type default_nla_type _ _ _
        (socket_name_model vec_items) vec_items
        raw_attribute (same_names byte_list_type _ vec_items (λ _ _. refl)) (λ _ _. refl)
        (λ _ _. refl) };

    ghost laws = { first_attribute_codec_laws unix_attribute_set unix_laws };
}

impl Wire for Nla {
    fn read(alloc: Global, bytes: &[u8], _param: ()) -> Result<Self, DecodeError> {
        // Splits off and decodes the first attribute, and copies its name, list or bytes.
        Ok(NlaView::parse(&NlaBuffer::new_checked(bytes)?)?.to_owned(alloc)?)
    }

    fn rewrite(alloc: Global, bytes: &[u8], _param: ()) -> Result<Vec<u8>, CanonError> {
        // Splits off and decodes the first attribute, and serializes the view.
        write_new(alloc, &NlaView::parse(&NlaBuffer::new_checked(bytes)?)?)
    }

    ghost bytes_by_codec = { λ _. refl };

    ghost writable_by_codec = { λ _. (λ h. h, λ h. h) };

    ghost in_range_by_codec = { λ _ h. h };
}

impl WireNla for Nla {
    ghost bytes_by_attribute = { λ _. refl };

    ghost writable_by_attribute = { λ _. (λ h. h, λ h. h) };
}
