//! What the tests say of a row of a table.

use std::process::Abort;

/// Fails the test where a row is not met, and names it. The proof of a function that says something
/// takes long, and so one function says it for all.
pub(crate) fn assert_row(rt: &impl Abort, is_met: bool, row: &str) {
    assert!(rt; is_met, "{row}");
}
