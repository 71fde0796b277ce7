// The reader: sampled line levels and a register map in, records and both stages of every register out.
//
// Two public calls, `open` and `read`, each also for the older parts and for any chip, with no `requires`: anything may be handed in, and
// what cannot be read is refused with document 01's number before anything is changed.
#![tactic(auto)]

ghost use Rattle.std.specs.Prelude.{◌≡◌};
ghost use Rattle.base_numbers.specs.Numbers.{number_of, amount_of};
ghost use Rattle.base_chip.specs.declared.Chip.TheVariants.{Newer, Older};
ghost use Rattle.map_test.specs.MapTest.{map_number};
ghost use Rattle.reg_banks.specs.Banks.{banks};
ghost use Rattle.read_run.specs.Reading.{reader_state};
ghost use Rattle.read_calls.specs.Calls.{opening, open_of, outcome, read_of};

use base_chip::{Chip, Part};
use base_numbers::Refusal;
use base_sizes::RECORD;
use bus_session::Session;
use bus_soundness::{opened, sound};
use map_test::check_map;
use read_refusals::{check_open, check_read};
use read_run::run_samples;

// Puts each default in both banks. The session is the opened one always. `open` and `open_older` are this call for one kind of chip;
// a program that has the chip as a value calls it by itself.
pub fn open_on(
    chip: Chip,
    map: &[u8],
    session: &mut Session,
    active: &mut [u8],
    buffer: &mut [u8],
) -> Result<(), Refusal>
    ensures { opening (number_of result) session.new (banks active.new buffer.new)
        ≡ open_of chip map.now (banks active.old buffer.old) }
{
    let tested = check_open(chip, check_map(chip, map), map, active, buffer);
    *session = opened();
    tested?;
    reg_banks::reset(map, active, buffer);
    Ok(())
}

// Reads samples on a map that is known to be good, as opening has shown it, and says how many records there are. This is no public
// call: it is for a program that reads one trace in many pieces and tests the map once.
pub fn read_tested(
    chip: Chip,
    map: &[u8],
    session: &mut Session,
    active: &mut [u8],
    buffer: &mut [u8],
    words: &mut [u64],
    samples: &[u8],
    records: &mut [u8],
) -> Result<usize, Refusal>
    requires { map_number chip map.now ≡ 0 }
    ensures { outcome (number_of result) (reader_state session.new active.new buffer.new words.new)
        (amount_of result) records.new
        ≡ read_of chip map.now (reader_state session.old active.old buffer.old words.old)
        samples.now records.old }
{
    let room = records.len();
    let given = *session;
    check_read(chip, map, given, active, buffer, words, samples, room)?;
    let done = run_samples(
        chip, true, map, given, active, buffer, words, samples, records,
    );
    *session = done.session;
    Ok(done.size / RECORD)
}

// Reads samples of any chip, as `read` and `read_older` do of one kind.
pub fn read_on(
    chip: Chip,
    map: &[u8],
    session: &mut Session,
    active: &mut [u8],
    buffer: &mut [u8],
    words: &mut [u64],
    samples: &[u8],
    records: &mut [u8],
) -> Result<usize, Refusal>
    ensures { outcome (number_of result) (reader_state session.new active.new buffer.new words.new)
        (amount_of result) records.new
        ≡ read_of chip map.now (reader_state session.old active.old buffer.old words.old)
        samples.now records.old }
{
    match check_map(chip, map) {
        Ok(()) => read_tested(chip, map, session, active, buffer, words, samples, records),
        Err(_) if !sound(chip, *session) => Err(Refusal::BadSession),
        Err(refused) => Err(refused),
    }
}

// Puts each default in both banks. The session is the opened one always.
pub fn open(
    map: &[u8],
    session: &mut Session,
    active: &mut [u8],
    buffer: &mut [u8],
) -> Result<(), Refusal>
    ensures { opening (number_of result) session.new (banks active.new buffer.new)
        ≡ open_of Newer map.now (banks active.old buffer.old) }
{
    open_on(Chip::Newer, map, session, active, buffer)
}

// The same for an older part with the highest address that it has.
pub fn open_older(
    part: Part,
    top: u64,
    map: &[u8],
    session: &mut Session,
    active: &mut [u8],
    buffer: &mut [u8],
) -> Result<(), Refusal>
    ensures { opening (number_of result) session.new (banks active.new buffer.new)
        ≡ open_of (Older part top) map.now (banks active.old buffer.old) }
{
    let chip = Chip::Older { part, top };
    open_on(chip, map, session, active, buffer)
}

// Reads samples: the session, the banks and the words of touched registers that they lead to, and their records, from the buffer's start.
pub fn read(
    map: &[u8],
    session: &mut Session,
    active: &mut [u8],
    buffer: &mut [u8],
    words: &mut [u64],
    samples: &[u8],
    records: &mut [u8],
) -> Result<usize, Refusal>
    ensures { outcome (number_of result) (reader_state session.new active.new buffer.new words.new)
        (amount_of result) records.new
        ≡ read_of Newer map.now (reader_state session.old active.old buffer.old words.old)
        samples.now records.old }
{
    read_on(
        Chip::Newer,
        map,
        session,
        active,
        buffer,
        words,
        samples,
        records,
    )
}

// The same for an older part with the highest address that it has.
pub fn read_older(
    part: Part,
    top: u64,
    map: &[u8],
    session: &mut Session,
    active: &mut [u8],
    buffer: &mut [u8],
    words: &mut [u64],
    samples: &[u8],
    records: &mut [u8],
) -> Result<usize, Refusal>
    ensures { outcome (number_of result) (reader_state session.new active.new buffer.new words.new)
        (amount_of result) records.new
        ≡ read_of (Older part top) map.now (reader_state session.old active.old buffer.old words.old)
        samples.now records.old }
{
    let chip = Chip::Older { part, top };
    read_on(chip, map, session, active, buffer, words, samples, records)
}
