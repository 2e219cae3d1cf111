//! The tests of the extensions: replies of any family, newer attributes and filters.

use netlink_core::NlaBuffer;
use sock_diag_any::{AnyNla, AnyNlas, Rejected};
use std::alloc::{AllocError, Global};
use std::fmt::Debug;
use std::process::Abort;

mod any;
mod extras;
mod filters;

/// Asserts that two texts are equal.
fn assert_text(rt: &impl Abort, shown: &str, text: &str) {
    assert!(rt; shown == text, "{shown}");
}

/// Asserts that `Debug` prints the value as this text.
fn assert_debug<T: Debug>(rt: &impl Abort, alloc: Global, value: &T, text: &str) {
    let shown = format!(in alloc; "{value:?}").expect(rt, "memory");
    assert_text(rt, shown.as_str(), text);
}

/// Returns the `Debug` output of what each attribute says, or the kind and the error of a rejected
/// one.
fn items(rt: &impl Abort, alloc: Global, nlas: AnyNlas<'_>) -> String {
    let mut text = String::new(alloc);
    for item in nlas {
        let line = item_text(alloc, &item).expect(rt, "memory");
        text.push_str(line.as_str()).expect(rt, "memory");
    }
    text
}

/// Returns the text of one attribute.
fn item_text(
    alloc: Global,
    item: &Result<(NlaBuffer<'_>, AnyNla<'_>), Rejected<'_>>,
) -> Result<String, AllocError> {
    match item {
        Ok((_, read)) => format!(in alloc; "{read:?};"),
        Err(rejected) => {
            let kind = rejected.attribute().map(|nla| nla.kind());
            format!(in alloc; "{kind:?} {};", rejected.error())
        }
    }
}
