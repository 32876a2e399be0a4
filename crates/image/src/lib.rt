// Stored images: a whole bench as bytes and back, by value. Writing and reading stand in crates of their own.
#![tactic(auto)]

pub use reading::read;
pub use writing::write;
