//! An arriving order trades with one side: price by price, step by step, part by part.
#![tactic(auto)]

mod laws;
mod prices;
mod reports;
mod sorted;
mod states;
mod steps;

pub use laws::rows_fit;
pub use reports::write_rows;
pub use states::{Progress, Reach, Terms};
