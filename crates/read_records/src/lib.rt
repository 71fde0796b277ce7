// What an event does to the banks, and the bytes that it is recorded as.
#![tactic(auto)]

ghost use Rattle.std.specs.Prelude.{◌≡◌, true, ◌+◌, ◌*◌, ◌<◌, ◌≤◌, length};
ghost use Rattle.std.proofs.lemmas.List.Edits.{sets};
ghost use Rattle.base_sizes.specs.Sizes.{record_size};
ghost use Rattle.bus_session.specs.declared.Event.TheVariants.{Whole};
ghost use Rattle.reg_banks.specs.Banks.{banks};
ghost use Rattle.read_records.specs.Records.{kind_number, records_in, record_bytes, write_record, read_record, abort_record};
ghost use Rattle.reg_write.specs.Write.{touches_on};
ghost use Rattle.reg_write.specs.Rise.{moves_at_rise};
ghost use Rattle.read_records.specs.Promises.{end_of, touched_on, EventBefore, EventAfter};

mod slow;

use base_chip::Chip;
use base_sizes::RECORD;
use bus_session::Event;
use bus_settings::Settings;
use reg_touched::touch;
use reg_write::{Written, armed_on, end_frame, touches};
pub use slow::count_slow;

// What a record is of: the number that is its first byte.
#[derive(Clone, Copy)]
enum RecordKind {
    Write = 1,
    Read = 2,
    Abort = 3,
}

impl From<RecordKind> for u8 {
    ghost from_gives = { λ kind number. number ≡ kind_number kind };

    fn from(kind: RecordKind) -> u8 {
        kind as u8
    }
}

// How many records an event gives.
pub fn records_in(event: Event) -> usize
    ensures { result ≡ records_in event }
{
    match event {
        Event::Nothing => 0,
        Event::Whole { .. } | Event::Aborted { .. } => 1,
        Event::Ended => 0,
    }
}

// Puts a record at a place.
fn put_record(
    records: &mut [u8],
    at: usize,
    kind: RecordKind,
    address: u16,
    third: u8,
    fourth: u8,
    fifth: u8,
    moved: u8,
)
    requires { at + record_size ≤ length records.old }
    ensures { records.new ≡ sets records.old at (record_bytes (kind_number kind) address third fourth fifth moved) }
{
    let [high, low] = address.to_be_bytes();
    let kind = u8::from(kind);
    let bytes = [kind, high, low, third, fourth, fifth, moved];
    records[at..at + RECORD].copy_from_slice(&bytes);
}

// Puts the record of a write at a place: the byte written, and what the write answered.
pub fn put_write(records: &mut [u8], at: usize, address: u16, byte: u8, written: Written)
    requires { at + record_size ≤ length records.old }
    ensures { records.new ≡ sets records.old at (write_record address byte written) }
{
    put_record(
        records,
        at,
        RecordKind::Write,
        address,
        byte,
        written.byte,
        written.effect,
        written.moved,
    );
}

// Puts the record of a read at a place: the due byte, the byte on the line, and whether they differ.
pub fn put_read(records: &mut [u8], at: usize, address: u16, due: u8, line: u8)
    requires { at + record_size ≤ length records.old }
    ensures { records.new ≡ sets records.old at (read_record address due line) }
{
    let other = u8::from(due != line);
    put_record(records, at, RecordKind::Read, address, due, line, other, 0);
}

// Puts the record of an abort at a place.
pub fn put_abort(records: &mut [u8], at: usize, address: u16, bits: u8, in_data: bool)
    requires { at + record_size ≤ length records.old }
    ensures { records.new ≡ sets records.old at (abort_record address bits in_data) }
{
    let part = u8::from(in_data);
    put_record(records, at, RecordKind::Abort, address, bits, part, 0, 0);
}

// Where an event leads: the place after its record, and whether the session is armed.
#[derive(Clone, Copy)]
pub struct EventOutcome {
    pub at: usize,
    pub armed: bool,
}

// Touches the register that a write with the effect of this number was to.
fn touch_written(words: &mut [u64], address: u16, effect: u8)
    requires { touches_on effect ≡ true → address < 64 * length words.old }
    ensures { words.new ≡ touched_on words.old address effect }
{
    if touches(effect) {
        touch(words, address as usize);
    }
}

// Does what the end of a frame does to the banks, and puts the record of what it breaks off, if there is any. It touches no register.
pub fn take_end(
    chip: Chip,
    map: &[u8],
    active: &mut [u8],
    buffer: &mut [u8],
    words: &mut [u64],
    settings: Settings,
    armed: bool,
    address: u16,
    bits: u8,
    in_data: bool,
    records: &mut [u8],
    at: usize,
) -> EventOutcome
    requires { EventBefore chip map.now (banks active.old buffer.old) words.old settings (end_of address bits in_data) records.old at }
    ensures { EventAfter chip map.now armed (banks active.old buffer.old) words.old settings
        (end_of address bits in_data) records.old at (banks active.new buffer.new) words.new
        records.new result }
{
    end_frame(chip, map, active, buffer, armed);
    if bits == 0 {
        return EventOutcome { at, armed: false };
    }
    put_abort(records, at, address, bits, in_data);
    EventOutcome {
        at: at + RECORD,
        armed: false,
    }
}

// Does what a whole byte does to the banks and to the words of touched registers, and puts its record at a place. Whether the end of a
// frame can move bytes is told, since it is the same for all bytes.
pub fn take_byte(
    chip: Chip,
    moves: bool,
    map: &[u8],
    active: &mut [u8],
    buffer: &mut [u8],
    words: &mut [u64],
    settings: Settings,
    armed: bool,
    read: bool,
    address: u16,
    byte: u8,
    records: &mut [u8],
    at: usize,
) -> EventOutcome
    requires { (EventBefore chip map.now (banks active.old buffer.old) words.old settings (Whole read address byte) records.old at)
        × (moves ≡ moves_at_rise chip map.now) }
    ensures { EventAfter chip map.now armed (banks active.old buffer.old) words.old settings
        (Whole read address byte) records.old at (banks active.new buffer.new) words.new
        records.new result }
{
    if read {
        let due = reg_banks::due_byte(chip, map, active, buffer, settings, address);
        put_read(records, at, address, due, byte);
        return EventOutcome {
            at: at + RECORD,
            armed,
        };
    }
    let written = reg_write::write(chip, map, active, buffer, settings, address, byte);
    touch_written(words, address, written.effect);
    put_write(records, at, address, byte, written);
    let armed = armed_on(moves, armed, written.effect);
    EventOutcome {
        at: at + RECORD,
        armed,
    }
}
