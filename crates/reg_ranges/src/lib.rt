// Two ranges of one bank memory as the active and the buffer stage of a newer chip: each rule for two banks, done there.
#![tactic(auto)]

mod banks;
mod effects;
mod reading;
mod rise;

pub use banks::{reset_within, transfer_within};
pub use effects::{apply_within, effect_within, write_within};
pub use reading::due_within;
pub use rise::end_within;

// How many bytes each of a chip's two ranges has, and where they start in the memory.
#[derive(Clone, Copy)]
pub struct Ranges {
    pub n: usize,
    pub active: usize,
    pub buffer: usize,
}
