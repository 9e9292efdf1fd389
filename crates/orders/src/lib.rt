//! The table of orders at rest.
#![tactic(auto)]

mod tables;

pub use tables::{ORDERS, OrderTable, Resting};
