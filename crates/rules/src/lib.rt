//! The venue's rule book: its words as types, its rules as definitions, its laws over every run of calls.
#![tactic(auto)]

mod answers;
mod calls;
mod laws;
mod orders;
mod phases;

pub use answers::{Accepted, Answer, Columns, Refusal, Row, answer_code, given_back, traded};
pub use calls::Call;
pub use laws::{cases_come_out, laws_hold, readings_come_out};
pub use orders::{Category, Kind, Order, Part, Side};
pub use phases::{Phase, Step};
