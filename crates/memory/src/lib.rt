//! The whole memory of a book, and which book of the rules it stands for.
#![tactic(auto)]

mod replies;
mod sides;
mod standing;
mod states;
mod viewing;

pub use replies::Reply;
pub use standing::Standing;
pub use states::{Sides, State};
