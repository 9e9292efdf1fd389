//! What a call gives back to its caller.
use rules::Accepted;

/// What an accepted call did: the shares traded and given back, and how many rows of the report it wrote, from the first on.
#[derive(Debug, Clone, Copy, PartialEq, Eq)]
pub struct Reply {
    pub accepted: Accepted,
    pub rows: usize,
}
