//! The book: made, called and looked at. No call of it asks anything of its caller.
#![tactic(auto)]

mod books;
mod laws;

pub use books::Book;
pub use laws::letters_answer_alike;
