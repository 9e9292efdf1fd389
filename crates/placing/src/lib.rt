//! What is left of an order comes to rest, and a book's memory is tidied.
#![tactic(auto)]

mod placing;
mod sides;
mod tidying;

pub use placing::place_order;
pub use tidying::tidy;
