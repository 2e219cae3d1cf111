//! Lists of the attributes of a reply, for any family: checks, iterates over, measures and
//! serializes borrowed attributes, and copies them to owned ones.
#![tactic(auto)]

mod checked;
pub mod laws;
mod owned;
mod views;

pub use checked::CheckedNlas;
pub use owned::{copy_nlas, emit_values, own_nlas, values_len, values_len_within};
pub use views::{check_nlas, check_nlas_len, emit_views, next_view, views_len};
