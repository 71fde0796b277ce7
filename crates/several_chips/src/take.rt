// What an event of one chip does to its ranges of the bank memory, and the record that it gives.
ghost use Rattle.std.specs.Prelude.{◌≡◌, false};
ghost use Rattle.base_chip.specs.declared.Chip.TheVariants.{Newer};
ghost use Rattle.reg_write.specs.Rise.{rise_banks};
ghost use Rattle.reg_ranges.specs.Ranges.{banks_in, placed, RangesWithin};
ghost use Rattle.several_chips.specs.Step.{TakingWithin, TakenWithin};

use crate::RECORD;
use crate::numbered::{put_abort, put_read, put_write};
use base_chip::Chip;
use bus_session::Event;
use bus_settings::Settings;
use read_records::EventOutcome;
use reg_ranges::{Ranges, due_within, end_within, write_within};
use reg_write::{armed_on, moves_at_rise};

// The end of a frame: what the rise moves, and a session that is not armed. The next place is the given one.
fn take_end_within(
    map: &[u8],
    memory: &mut [u8],
    ranges: Ranges,
    armed: bool,
    at: usize,
) -> EventOutcome
    requires { RangesWithin map.now memory.old ranges.n ranges.active ranges.buffer }
    ensures { (memory.new
        ≡ placed memory.old ranges.active ranges.buffer (rise_banks Newer map.now armed (banks_in memory.old ranges.n ranges.active ranges.buffer)))
        × (result ≡ record { at = at; armed = false }) }
{
    end_within(map, memory, ranges, armed);
    EventOutcome { at, armed: false }
}

// Does what an event does to the two ranges of a chip, and puts its record at a place.
pub(crate) fn take_within(
    map: &[u8],
    memory: &mut [u8],
    ranges: Ranges,
    settings: Settings,
    armed: bool,
    event: Event,
    chip: u8,
    contended: bool,
    records: &mut [u8],
    at: usize,
) -> EventOutcome
    requires { TakingWithin map.now memory.old ranges.n ranges.active ranges.buffer settings event chip contended records.old at }
    ensures { TakenWithin map.now memory.old ranges.n ranges.active ranges.buffer settings armed event chip contended records.old at
        memory.new records.new result }
{
    match event {
        Event::Nothing => EventOutcome { at, armed },
        Event::Whole {
            read,
            address,
            byte,
        } => {
            if read {
                let due = due_within(map, memory, ranges, settings, address);
                put_read(records, at, chip, contended, address, due, byte);
                return EventOutcome {
                    at: at + RECORD,
                    armed,
                };
            }
            let written = write_within(map, memory, ranges, settings, address, byte);
            put_write(records, at, chip, address, byte, written);
            let moves = moves_at_rise(Chip::Newer, map);
            let armed = armed_on(moves, armed, written.effect);
            EventOutcome {
                at: at + RECORD,
                armed,
            }
        }
        Event::Aborted {
            address,
            bits,
            data,
        } => {
            put_abort(records, at, chip, address, bits, data);
            take_end_within(map, memory, ranges, armed, at + RECORD)
        }
        Event::Ended => take_end_within(map, memory, ranges, armed, at),
    }
}
