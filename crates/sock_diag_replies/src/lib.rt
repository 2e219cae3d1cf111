//! Replies of sock_diag(7), borrowed and owned: a header followed by attributes.
#![tactic(auto)]

pub mod inet;
mod reply;
mod response;
pub mod unix;
mod view;

pub use attribute_lists::CheckedNlas;
pub use reply::same_views;
pub use view::{AttributeViews, ReplyHeader, ReplyView, ReplyViews};
