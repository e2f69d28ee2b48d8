//! What the cases of a stack rest on.

use plcode::program::SharedCode;
use plviews::View;

/// What the cases of a stack rest on.
#[derive(Drop)]
pub struct Basis {
    /// The program's code.
    pub code: SharedCode,
    /// The most that a walk may see.
    pub latest: View,
    /// How many own updates there were at the start of each open transaction or snapshot, the innermost last.
    pub starts: Vec<u64>,
}
