//! Orders at rest on a side: its best price, the setter mark, shares taken off, and reserve shown anew.
#![tactic(auto)]

mod halts;
mod marks;
mod offs;
mod replenishing;
mod reserves;

pub use halts::unmark;
pub use marks::{MarkTerms, best_price, has_mark};
pub use offs::{take_off, take_off_side};
pub use reserves::{is_low, join_later_part, show_new_part};
