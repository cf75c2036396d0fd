//! A day file's words: their parts, values within limits, rows of values, and what can be wrong with a word.
#![tactic(auto)]

pub mod fault;
pub mod head;
pub mod reader;
pub mod value;

pub use fault::WordFault;
pub use head::{Sign, Word};
pub use reader::Reader;
pub use value::Limits;
