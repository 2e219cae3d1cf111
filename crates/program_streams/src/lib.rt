//! The streams of the programs. It reads and writes with errors that name the cause, and answers
//! the lines of an input. Lines are not decoded here.
#![tactic(auto)]

mod equality;
mod error_text;
pub mod laws;
mod lines;
mod streams;

pub use error_text::{ErrorText, hex_digits};
pub use lines::{LineAnswers, PromptRead, RunError, RunStart, serve};
pub use streams::{ReadError, Sink, Source, WriteError, os_error_end, send, try_send};
