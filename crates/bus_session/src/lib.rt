// The session of the serial control interface. Its port is what the samples alone decide: what one sample makes of it, and what the
// sample completes; no map and no registers come in. Whether it is armed goes by what was completed, and by the map.
#![tactic(auto)]

mod events;
mod state;
mod step;

use bus_settings::{InUse, Settings};
pub use events::is_data;
pub use state::resting;
pub use step::{is_counted, left_after, may_stall, runs_out, takes_bit};

// The lines of a sample, by their bits.
pub const CSB: u8 = 0;

pub const SCLK: u8 = 1;

pub const SDIO: u8 = 2;

pub const SDO: u8 = 3;

// The bytes left where a run of an older chip streams.
pub const STREAMS: u8 = 4;

#[derive(Clone, Copy, Debug, PartialEq, Eq)]
pub enum Phase {
    // With CSB high; or with CSB low, where an older chip passes bits over.
    Rest,
    Instruction,
    Data,
}

// What the samples alone decide.
#[derive(Clone, Copy, Debug, PartialEq, Eq)]
pub struct Port {
    // The last levels of CSB and SCLK.
    pub csb: bool,
    pub sclk: bool,
    pub phase: Phase,
    // How many bits of the present instruction or byte are taken, and their value.
    pub bits: u8,
    pub value: u16,
    pub address: u16,
    pub read: bool,
    pub settings: Settings,
    pub in_use: InUse,
    // Of an older chip in data: how many bytes of its run are left, 1 to 3, or 4 where it streams; else 0.
    pub left: u8,
}

#[derive(Clone, Copy, Debug, PartialEq, Eq)]
pub struct Session {
    pub port: Port,
    // Whether the end of this frame moves the buffered registers: a whole byte of it went to one of them.
    pub armed: bool,
}

// What a sample completes.
#[derive(Clone, Copy, Debug, PartialEq, Eq)]
pub enum Event {
    Nothing,
    // A whole byte of data at an address.
    Whole { read: bool, address: u16, byte: u8 },
    // An instruction or a byte that the rise of CSB broke off, after so many of its bits.
    Aborted { address: u16, bits: u8, data: bool },
    // The end of a frame that breaks nothing off.
    Ended,
}
