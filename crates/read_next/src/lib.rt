// The next record: samples are read up to and with the first that gives a record, so that a host knows at which sample each
// record stands.
//
// One public call, `next_record`, also for the older parts and for any chip, with no `requires`; it refuses as `read` does, before
// anything is changed.
#![tactic(auto)]

ghost use Rattle.std.specs.Prelude.{◌≡◌, true};
ghost use Rattle.base_numbers.specs.Numbers.{number_of};
ghost use Rattle.base_chip.specs.declared.Chip.TheVariants.{Newer, Older};
ghost use Rattle.bus_session.specs.State.{sound_port};
ghost use Rattle.read_run.specs.Reading.{reader_state};
ghost use Rattle.read_calls.specs.Calls.{outcome};
ghost use Rattle.read_next.specs.NextRecord.{samples_number, found_by, next_outcome, next_of};
ghost use Rattle.read_next.specs.Promises.{SearchAfter};

use base_chip::{Chip, Part};
use base_numbers::Refusal;
use base_sizes::RECORD;
use bus_session::{Port, Session};
use bus_soundness::sound;
use bus_trace::next_event;
use map_test::check_map;
use read_records::records_in;
use read_refusals::check_read;
use read_run::run_samples;

// What the call finds: how many records there are, none or one, and how many samples were read.
#[derive(Clone, Copy)]
pub struct NextRecord {
    pub count: usize,
    pub taken: usize,
}

// Room for the records of any samples that are not refused: 65,536 give at most 21,846.
const ROOM: usize = RECORD * 21846;

// Whether the samples, or what comes before them, are refused; then only the room is left to test.
fn check_samples(
    chip: Chip,
    map: &[u8],
    session: Session,
    active: &[u8],
    buffer: &[u8],
    words: &[u64],
    samples: &[u8],
) -> Result<(), Refusal>
    ensures { number_of result
        ≡ samples_number chip map.now (reader_state session active.now buffer.now words.now)
        samples.now }
{
    match check_map(chip, map) {
        Ok(()) => check_read(chip, map, session, active, buffer, words, samples, ROOM),
        Err(_) if !sound(chip, session) => Err(Refusal::BadSession),
        Err(refused) => Err(refused),
    }
}

// Looks for the first sample that gives a record. `next_event` moves the place by as many samples as it passes, which no `for` does.
fn first_record(chip: Chip, port: Port, samples: &[u8]) -> NextRecord
    requires { sound_port chip port ≡ true }
    ensures { SearchAfter chip port samples.now result.taken result.count }
{
    let mut s = port;
    let mut taken = 0;
    while taken < samples.len() {
        let next = next_event(chip, s, samples, taken);
        let count = records_in(next.event);
        s = next.port;
        taken = next.at;
        if count != 0 {
            return NextRecord { count, taken };
        }
    }
    NextRecord { count: 0, taken }
}

// Reads samples of any chip up to and with the first that gives a record, or all of them.
pub fn next_on(
    chip: Chip,
    map: &[u8],
    session: &mut Session,
    active: &mut [u8],
    buffer: &mut [u8],
    words: &mut [u64],
    samples: &[u8],
    records: &mut [u8],
) -> Result<NextRecord, Refusal>
    ensures { next_outcome
        (outcome (number_of result) (reader_state session.new active.new buffer.new words.new)
        (found_by result).count records.new) (found_by result).taken
        ≡ next_of chip map.now (reader_state session.old active.old buffer.old words.old)
        samples.now records.old }
{
    let given = *session;
    check_samples(chip, map, given, active, buffer, words, samples)?;
    let first = first_record(chip, given.port, samples);
    if records.len() < RECORD * first.count {
        return Err(Refusal::ShortRecords);
    }
    let read = &samples[..first.taken];
    let passed = run_samples(chip, true, map, given, active, buffer, words, read, records);
    *session = passed.session;
    Ok(NextRecord {
        count: passed.size / RECORD,
        taken: first.taken,
    })
}

// Reads samples up to and with the first that gives a record, or all of them.
pub fn next_record(
    map: &[u8],
    session: &mut Session,
    active: &mut [u8],
    buffer: &mut [u8],
    words: &mut [u64],
    samples: &[u8],
    records: &mut [u8],
) -> Result<NextRecord, Refusal>
    ensures { next_outcome
        (outcome (number_of result) (reader_state session.new active.new buffer.new words.new)
        (found_by result).count records.new) (found_by result).taken
        ≡ next_of Newer map.now (reader_state session.old active.old buffer.old words.old)
        samples.now records.old }
{
    next_on(
        Chip::Newer,
        map,
        session,
        active,
        buffer,
        words,
        samples,
        records,
    )
}

// The same for an older part with the highest address that it has.
pub fn next_record_older(
    part: Part,
    top: u64,
    map: &[u8],
    session: &mut Session,
    active: &mut [u8],
    buffer: &mut [u8],
    words: &mut [u64],
    samples: &[u8],
    records: &mut [u8],
) -> Result<NextRecord, Refusal>
    ensures { next_outcome
        (outcome (number_of result) (reader_state session.new active.new buffer.new words.new)
        (found_by result).count records.new) (found_by result).taken
        ≡ next_of (Older part top) map.now (reader_state session.old active.old buffer.old words.old)
        samples.now records.old }
{
    let chip = Chip::Older { part, top };
    next_on(chip, map, session, active, buffer, words, samples, records)
}
