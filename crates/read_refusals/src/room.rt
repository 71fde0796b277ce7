// What can be said of samples before any is read: whether they are samples, and whether their records have room.
ghost use Rattle.std.specs.Prelude.{◌≡◌, true, ◌*◌, ◌≤◌, leb, length};
ghost use Rattle.base_sizes.specs.Sizes.{record_size};
ghost use Rattle.bus_session.specs.State.{sound_session};
ghost use Rattle.read_run.specs.Reading.{record_count};
ghost use Rattle.read_refusals.specs.Numbers.{samples_good};

use base_chip::Chip;
use base_sizes::RECORD;
use bus_session::Session;
use read_run::run_samples;

// Whether no sample has any of bits 4 to 7: what bits they have together is tested once, at the end.
pub fn samples_good(samples: &[u8]) -> bool
    ensures { result ≡ samples_good samples.now }
{
    let mut together = 0;
    for x in samples {
        together |= *x;
    }
    together <= 15
}

// How many records the samples give: a pass over them with nothing to put, no map, no banks and no words.
fn count_records(chip: Chip, session: Session, samples: &[u8]) -> usize
    requires { (sound_session chip session ≡ true) × (length samples.now ≤ 65536) }
    ensures { result ≡ record_count chip session.port samples.now }
{
    let passed = run_samples(
        chip,
        false,
        &[],
        session,
        &mut [],
        &mut [],
        &mut [],
        samples,
        &mut [],
    );
    passed.size / RECORD
}

// Whether the records of the samples have room. They are counted only where the room may not suffice.
pub fn room_suffices(chip: Chip, session: Session, samples: &[u8], room: usize) -> bool
    requires { (sound_session chip session ≡ true) × (length samples.now ≤ 65536) }
    ensures { result ≡ leb (record_size * record_count chip session.port samples.now) room }
{
    if RECORD * ((samples.len() + 2) / 3) <= room {
        return true;
    }
    RECORD * count_records(chip, session, samples) <= room
}
