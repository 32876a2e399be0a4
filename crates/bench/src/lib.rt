// The bench: takes hostile events one by one on a table of purses, the messages between them and the issuer's archive. All is by value: what
// the bench holds goes in, and comes back.
#![tactic(auto)]

use desk::Held;

mod runs; // runs.rt: many events
mod step; // step.rt: an event at the whole bench

pub use runs::run;
pub use step::event;

// How many events a run took, and what the bench then holds.
#[repr(C)]
#[derive(Clone, Copy)]
pub struct Ran {
    pub taken: usize,
    pub held: Held,
}
