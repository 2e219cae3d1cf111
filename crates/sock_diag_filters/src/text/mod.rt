//! Filters by text, in the words of ss(8).

mod facts;
mod keywords;
mod lookup;
mod numbers;
mod parsed;
mod postfix;
mod reader;
mod states;
mod values;

pub use crate::text::facts::SocketFacts;
pub use crate::text::lookup::value_of;
pub use crate::text::numbers::index_of;
pub use crate::text::parsed::{FilterTextError, MAX_PARSED_PROGRAM, MAX_PARTS, ParsedFilter, Part};
pub use crate::text::states::states_named;
pub use crate::text::values::ip_in;
