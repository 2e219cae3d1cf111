//! The attribute set of replies about IPv4 and IPv6 sockets.

ghost use Rattle.std.specs.Prelude.{refl};
ghost use Rattle.sock_diag_attributes.specs.InetAttributes.{inet_attribute_set};
ghost use Rattle.sock_diag_attributes.specs.InetModel.{inet_nla_model, inet_nla_view_model};
ghost use Rattle.sock_diag_attributes.specs.contracts.inet.codec.NlaHasCodec.TheImpl.Laws.{
  eq_is_model-law as same_nla,
};

use super::nlas::{Nla, NlaView};
use netlink_core::{DecodeError, FamilyNla, FamilyView, HasCodec, NlaBuffer};
use sock_diag_records::constants::INET_DIAG_INFO;
use std::alloc::{AllocError, Global};

impl<'a> FamilyView<'a> for NlaView<'a> {
    ghost attribute_set = { inet_attribute_set };

    ghost model = { inet_nla_view_model };

    ghost attribute_by_model = { λ _. refl };

    #[inline(always)]
    fn read_view(nla: &NlaBuffer<'a>) -> Result<Self, DecodeError> {
        NlaView::parse(nla)
    }

    #[inline(always)]
    fn read_accepted(nla: &NlaBuffer<'a>) -> Self {
        NlaView::new(nla)
    }
}

impl FamilyNla for Nla {
    // A `TcpInfo` is much larger than the values of all other kinds.
    const LARGE_KIND: Option<u16> = Some(INET_DIAG_INFO);

    ghost attribute_set = { inet_attribute_set };

    ghost model = { inet_nla_model };

    #[inline(always)]
    fn own_accepted(alloc: Global, nla: &NlaBuffer<'_>) -> Result<Self, AllocError> {
        NlaView::new(nla).to_owned(alloc)
    }

    fn copy_nla(&self, alloc: Global) -> Result<Self, AllocError> {
        self.clone(alloc)
    }

    ghost attribute_by_model = { λ _. refl };

    ghost in_range_by_model = { λ _ h. h };

    ghost eq_is_model = { same_nla };
}
