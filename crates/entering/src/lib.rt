//! An order arrives, trades, and what is left of it is placed or given back.
#![tactic(auto)]

mod entering;
mod refusing;
mod stages;

pub use entering::enter;
pub use stages::{Arrived, Placed, Traded};
