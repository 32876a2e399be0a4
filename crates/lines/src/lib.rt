// The listing's lines: bytes filled into a buffer that the caller lends.
#![tactic(auto)]

mod text; // text.rt: a text under way: bytes and decimal numbers
mod lines; // lines.rt: the header, a refused opening, the events
mod purses; // purses.rt: the purse lines and the last line

pub use lines::{events, header, refused};
pub use purses::foot;
