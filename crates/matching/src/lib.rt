//! An arriving order trades with the book's memory: with the other side, the order table and reserve.
#![tactic(auto)]

mod arrivals;
mod opposites;
mod renewals;

pub use arrivals::match_order;
