//! Properties of constants. Proof only: the contract of the function states the property.

ghost use Rattle.std.specs.Prelude.{[], ◌∷◌};
ghost use Rattle.sock_diag_records.specs.Constants.{PairsAreEqual};

use crate::link::{IFLA_IFNAME, IFLA_MTU};
use crate::listening_tcp::REQUEST_LENGTH;

/// States the value of each constant.
pub fn use_constants_have_their_values()
    ensures { PairsAreEqual ((REQUEST_LENGTH, 72) ∷ (IFLA_IFNAME, 3) ∷
        (IFLA_MTU, 4) ∷ []) }
{}
