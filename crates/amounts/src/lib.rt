//! Amounts along the parts of a queue: what they come to, and how a quantity is shared out among some of them.
#![tactic(auto)]

mod sharing;
mod summing;

pub use sharing::{latest_alone, to_marked, to_order, to_order_latest_first};
pub use summing::{any_marked, come_to, left_of, of_order, place_of};
