//! Proof only: `==` and `clone` of plain types compare and copy the whole value. [`Exact`] says
//! what the parts of each proof `exact` state.

ghost use Rattle.std.proofs.Common.{rules};
ghost use Rattle.sslist_texts.specs.laws.EqualListError.{list_error_equal};

use crate::list_error::ListError;
use exact_values::Exact;

impl Exact for ListError {
    ghost exact = { (list_error_equal, Prim.search rules, Prim.search rules) };
}
