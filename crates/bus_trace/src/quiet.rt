// Samples that give no event.
ghost use Rattle.std.specs.Prelude.{◌≡◌, true, false, cond, ◌≤◌, length};
ghost use Rattle.bus_session.specs.State.{sound_port};
ghost use Rattle.bus_trace.specs.Progress.{last_of, source_line, Reached};

use crate::high::past_high;
use crate::scan::{Piece, Progress, take_each};
use base_chip::Chip;
use bus_session::{Phase, Port, SDIO, SDO};

// How many bits come before the last of a piece: seven in data, and in no other phase.
pub fn last_of(phase: Phase) -> u8
    ensures { result ≡ last_of phase }
{
    match phase {
        Phase::Rest => 0,
        Phase::Instruction => 15,
        Phase::Data => 7,
    }
}

// The line that bits come from, as its place in a sample.
pub fn line_of(chip: Chip, port: Port) -> u8
    ensures { result ≡ source_line chip port }
{
    if (last_of(port.phase) == 7) & port.read & port.in_use.counting(chip).sdo_active {
        SDO
    } else {
        SDIO
    }
}

// The level of SCLK as a sample has it.
pub fn level_of(sclk: bool) -> u8
    ensures { result ≡ cond sclk 2 0 }
{
    if sclk { 2 } else { 0 }
}

// Samples with CSB high, until it falls.
fn high(chip: Chip, port: Port, samples: &[u8], from: usize) -> Progress
    requires { (port.csb ≡ true) × (sound_port chip port ≡ true) × (from ≤ length samples.now) }
    ensures { Reached chip samples.now port from result }
{
    let past = past_high(samples, level_of(port.sclk), from);
    Progress {
        level: past.level,
        bits: port.bits,
        value: port.value,
        at: past.at,
    }
}

// Samples with CSB low, until the piece ends.
fn low(chip: Chip, port: Port, samples: &[u8], from: usize) -> Progress
    requires { (port.csb ≡ false) × (sound_port chip port ≡ true) × (from ≤ length samples.now) }
    ensures { Reached chip samples.now port from result }
{
    let start = Progress {
        level: level_of(port.sclk),
        bits: port.bits,
        value: port.value,
        at: from,
    };
    let piece = Piece {
        line: line_of(chip, port),
        lsb_first: port.in_use.lsb_first,
        last: last_of(port.phase),
    };
    take_each(samples, piece, start)
}

// Samples that give no event, from a place on.
pub fn quiet(chip: Chip, port: Port, samples: &[u8], from: usize) -> Progress
    requires { (sound_port chip port ≡ true) × (from ≤ length samples.now) }
    ensures { Reached chip samples.now port from result }
{
    if port.csb {
        return high(chip, port, samples, from);
    }
    low(chip, port, samples, from)
}
