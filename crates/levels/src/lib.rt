//! The price levels of one side of a book: level heads, best price first, over one dense run of parts.
#![tactic(auto)]

mod claiming;
mod heads;
mod ranked;
mod sides;

pub use claiming::{deal_parts, settle_wheel};
pub use heads::{LevelHead, QueueHead};
pub use ranked::at_least;
pub use sides::{LEVELS, Levels, PARTS};
