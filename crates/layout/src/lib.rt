// Stored images as definitions, in specs/: what bytes a bench's image has, what bench an image gives, and which refusal comes first; and, in
// proofs/, that each undoes the other. The code is the crates parts, writing, reading and image.
#![tactic(auto)]

pub mod widths; // widths.rt: how many bytes each part takes

ghost use Rattle.std.specs.Prelude.{◌≡◌};
ghost use Rattle.layout.specs.Head.{image_length};

use crate::widths::{ENTRY_WIDTH, HEAD_WIDTH, MESSAGE_WIDTH, PURSE_WIDTH};

pub const VERSION: u16 = 1;

// What writing answers, and how long the image is.
#[repr(C)]
#[derive(Clone, Copy)]
pub struct Written {
    pub answer: u8,
    pub length: usize,
}

// How long an image of so many purses, messages and entries is.
pub fn image_length(purses: u8, messages: u16, entries: u16) -> usize
    ensures { result ≡ image_length purses messages entries }
{
    HEAD_WIDTH
        + PURSE_WIDTH * usize::from(purses)
        + MESSAGE_WIDTH * usize::from(messages)
        + ENTRY_WIDTH * usize::from(entries)
}
