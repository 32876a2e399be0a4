// The bench program's listing: the opening bytes of its input read, and its events listed piece by piece. The lines are crate lines.
#![tactic(auto)]

mod pieces; // pieces.rt: the events of a piece of the input
mod input; // input.rt: purse count and balances

use desk::Held;
pub use input::{balance_bytes, read_opening};
pub use lines::{events, foot, header, refused};
pub use pieces::piece;

// The balances of an opening, on 32 places, and how many they are: none where opening is to answer 20.
#[derive(Clone, Copy)]
pub struct Opening {
    pub count: usize,
    pub balances: [u32; 32],
}

// What the bench holds after a piece of events, how many they were, and how many bytes their lines are.
#[derive(Clone, Copy)]
pub struct Listed {
    pub held: Held,
    pub events: usize,
    pub length: usize,
}
