//! The calls of a book on its memory: what is refused, and the phase and the call together decide the rest.
#![tactic(auto)]

mod deciding;
mod inputs;
mod phases;

pub use deciding::call;
