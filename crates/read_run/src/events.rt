// A whole byte and the end of a frame, taken, or only counted where no record is put.
ghost use Rattle.std.specs.Prelude.{◌≡◌, eqb};
ghost use Rattle.bus_session.specs.declared.Event.TheVariants.{Whole};
ghost use Rattle.reg_banks.specs.Banks.{banks};
ghost use Rattle.reg_write.specs.Rise.{moves_at_rise};
ghost use Rattle.read_records.specs.Promises.{end_of};
ghost use Rattle.read_run.specs.Promises.{pass_of, PassBefore, PassAfter};

use crate::scanning::{LAST_OF_BYTE, ScanPort};
use base_chip::{Chip, is_newer};
use base_sizes::RECORD;
use read_records::{EventOutcome, take_byte, take_end};
use reg_write::moves_at_rise;

// What stays the same for a whole pass: the chip, and whether it is a newer one; whether the end of a frame moves bytes; whether records
// are put.
#[derive(Clone, Copy)]
pub(crate) struct Pass {
    pub(crate) chip: Chip,
    pub(crate) newer: bool,
    pub(crate) moves: bool,
    pub(crate) storing: bool,
}

pub(crate) fn pass_of(chip: Chip, storing: bool, map: &[u8]) -> Pass
    ensures { result ≡ pass_of chip storing map.now }
{
    Pass {
        chip,
        newer: is_newer(chip),
        moves: moves_at_rise(chip, map),
        storing,
    }
}

// Takes a whole byte, or only counts its record.
pub(crate) fn pass_byte(
    pass: Pass,
    map: &[u8],
    active: &mut [u8],
    buffer: &mut [u8],
    words: &mut [u64],
    s: ScanPort,
    byte: u8,
    told: EventOutcome,
    records: &mut [u8],
) -> EventOutcome
    requires { (PassBefore pass.chip pass.storing map.now (banks active.old buffer.old) words.old s.port.settings
        (Whole s.port.read s.port.address byte) records.old told.at)
        × (pass.moves ≡ moves_at_rise pass.chip map.now) }
    ensures { PassAfter pass.chip pass.storing map.now told.armed (banks active.old buffer.old)
        words.old s.port.settings (Whole s.port.read s.port.address byte) records.old told.at
        (banks active.new buffer.new) words.new records.new result }
{
    if pass.storing {
        return take_byte(
            pass.chip,
            pass.moves,
            map,
            active,
            buffer,
            words,
            s.port.settings,
            told.armed,
            s.port.read,
            s.port.address,
            byte,
            records,
            told.at,
        );
    }
    EventOutcome {
        at: told.at + RECORD,
        ..told
    }
}

// Takes the end of a frame, or only counts its record.
pub(crate) fn pass_end(
    pass: Pass,
    map: &[u8],
    active: &mut [u8],
    buffer: &mut [u8],
    words: &mut [u64],
    s: ScanPort,
    told: EventOutcome,
    records: &mut [u8],
) -> EventOutcome
    requires { PassBefore pass.chip pass.storing map.now (banks active.old buffer.old) words.old s.port.settings
        (end_of s.port.address s.port.bits (eqb s.last 7)) records.old told.at }
    ensures { PassAfter pass.chip pass.storing map.now told.armed (banks active.old buffer.old)
        words.old s.port.settings (end_of s.port.address s.port.bits (eqb s.last 7)) records.old told.at
        (banks active.new buffer.new) words.new records.new result }
{
    if pass.storing {
        return take_end(
            pass.chip,
            map,
            active,
            buffer,
            words,
            s.port.settings,
            told.armed,
            s.port.address,
            s.port.bits,
            s.last == LAST_OF_BYTE,
            records,
            told.at,
        );
    }
    if s.port.bits == 0 {
        return told;
    }
    EventOutcome {
        at: told.at + RECORD,
        ..told
    }
}
