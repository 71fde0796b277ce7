// Whether the reader's two calls are refused: document 01's refusals in their order. Nothing is changed here.
#![tactic(auto)]

ghost use Rattle.std.specs.Prelude.{◌≡◌, ◌+◌, ◌/◌, ◌≤◌, eqb, length};
ghost use Rattle.base_numbers.specs.Numbers.{number_of};
ghost use Rattle.map_test.specs.MapTest.{map_number};
ghost use Rattle.reg_banks.specs.Banks.{banks};
ghost use Rattle.read_run.specs.Reading.{reader_state};
ghost use Rattle.read_refusals.specs.Numbers.{open_number, read_number};

mod room;

use base_chip::Chip;
use base_numbers::Refusal;
use bus_session::Session;
use bus_soundness::sound;
use map_test::top_fits;
use room::{room_suffices, samples_good};

// Whether opening is refused, by what the map test says.
pub fn check_open(
    chip: Chip,
    tested: Result<(), Refusal>,
    map: &[u8],
    active: &[u8],
    buffer: &[u8],
) -> Result<(), Refusal>
    requires { number_of tested ≡ map_number chip map.now }
    ensures { number_of result ≡ open_number chip map.now (banks active.now buffer.now) }
{
    tested?;
    let count = map_format::count(map);
    let fit = (active.len() == count) & (buffer.len() == count);
    if !fit {
        return Err(Refusal::BadBank);
    }
    if !top_fits(chip, map) {
        return Err(Refusal::BadTop);
    }
    Ok(())
}

// Whether there are as many words of touched registers as a map of so many registers needs.
fn words_fit(count: usize, words: &[u64]) -> bool
    requires { count ≤ 8192 }
    ensures { result ≡ eqb (length words.now) ((count + 63) / 64) }
{
    words.len() == (count + 63) / 64
}

// Whether reading is refused, on a map that the chip can have.
pub fn check_read(
    chip: Chip,
    map: &[u8],
    session: Session,
    active: &[u8],
    buffer: &[u8],
    words: &[u64],
    samples: &[u8],
    room: usize,
) -> Result<(), Refusal>
    requires { map_number chip map.now ≡ 0 }
    ensures { number_of result
        ≡ read_number chip map.now (reader_state session active.now buffer.now words.now)
        samples.now room }
{
    if !sound(chip, session) {
        return Err(Refusal::BadSession);
    }
    check_open(chip, Ok(()), map, active, buffer)?;
    if !words_fit(map_format::count(map), words) {
        return Err(Refusal::BadWords);
    }
    if 65536 < samples.len() {
        return Err(Refusal::BadSamples);
    }
    if !samples_good(samples) {
        return Err(Refusal::BadSamples);
    }
    if !room_suffices(chip, session, samples, room) {
        return Err(Refusal::ShortRecords);
    }
    Ok(())
}
