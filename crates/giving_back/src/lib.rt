//! What rests of an order is given back: a cancel, a reduction, a close.
#![tactic(auto)]

mod cancelling;
mod closing;
mod offs;
mod reducing;
mod reports;

pub use cancelling::cancel;
pub use closing::close;
pub use reducing::reduce;
