//! Filters for IPv4 and IPv6 sockets, also by text: bytecode that the kernel runs on each socket,
//! and requests that carry it. Requests of seven families can also be parsed, for a test kernel.
#![tactic(auto)]

mod any;
mod assembly;
mod codes;
mod condition;
mod equality;
mod filter;
pub mod laws;
mod request;
mod text;
pub mod uses;
mod view;

pub use crate::any::{AnyRequestView, RecordRequestView};
pub use crate::assembly::{AssembleError, MAX_PROGRAM, assemble};
pub use crate::codes::{
    INET_DIAG_BC_AUTO, INET_DIAG_BC_CGROUP_COND, INET_DIAG_BC_D_COND, INET_DIAG_BC_D_EQ,
    INET_DIAG_BC_D_GE, INET_DIAG_BC_D_LE, INET_DIAG_BC_DEV_COND, INET_DIAG_BC_JMP,
    INET_DIAG_BC_MARK_COND, INET_DIAG_BC_NOP, INET_DIAG_BC_S_COND, INET_DIAG_BC_S_EQ,
    INET_DIAG_BC_S_GE, INET_DIAG_BC_S_LE,
};
pub use crate::condition::{Comparison, Condition, Host, Prefix};
pub use crate::filter::Filter;
pub use crate::request::{
    INET_DIAG_REQ_BYTECODE, INET_DIAG_REQ_PROTOCOL, REQUEST_FRONT, RequestAttribute,
    RequestWithAttributes,
};
pub use crate::text::{
    FilterTextError, MAX_PARSED_PROGRAM, MAX_PARTS, ParsedFilter, Part, SocketFacts, index_of,
    ip_in, states_named, value_of,
};
pub use crate::view::RequestView;
