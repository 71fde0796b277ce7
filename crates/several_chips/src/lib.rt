// Several chips on one wire: what one chip of a list is, and what it makes of a sample.
#![tactic(auto)]

mod numbered;
mod step;
mod take;

use bus_session_bytes::SIZE;
pub use step::{mid_read, sees, step_member};

// How many bytes a record has: one more than that of a chip read alone.
pub const RECORD: usize = 8;

// A chip of the list. C declares the same struct, so that it holds numbers alone, any of which may be handed in.
#[repr(C)]
#[derive(Clone, Copy)]
pub struct Member {
    // The bytes of its session.
    pub session: [u8; SIZE],
    // 1 where another chip's select was low at an edge of the read byte under way, else 0.
    pub contended: u8,
    // Its ranges of the bank memory: the active and the buffer stage.
    pub active_start: usize,
    pub active_length: usize,
    pub buffer_start: usize,
    pub buffer_length: usize,
}

// Whose turn it is: a chip at a sample, with so many bytes of records put before it.
#[derive(Clone, Copy)]
pub struct Turn {
    pub sample: usize,
    pub chip: usize,
    pub at: usize,
}

// What a turn leads to: the chip after it, and the next turn.
#[derive(Clone, Copy)]
pub struct Stepped {
    pub member: Member,
    pub turn: Turn,
}
