//! Short examples about UNIX sockets. The repository's README has the contract of `path`.

mod comparing;
mod counting;
mod reading;
mod replying;
mod requesting;

pub use comparing::{are_same_reply, rewrite};
pub use counting::listening;
pub use reading::path;
pub use replying::listener;
pub use requesting::request;
