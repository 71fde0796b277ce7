// What the benchmark calls: the reader from the opening on, on byte slices and numbers, since a session is no type of C's.
#![tactic(auto)]

ghost use Rattle.std.specs.Prelude.{◌≡◌};
ghost use Rattle.base_numbers.specs.Numbers.{number_of, amount_of};
ghost use Rattle.base_chip.specs.declared.Part.TheVariants.{Ad9557};
ghost use Rattle.base_chip.specs.declared.Chip.TheVariants.{Newer, Older};
ghost use Rattle.reg_banks.specs.Banks.{banks};
ghost use Rattle.read_calls.specs.Calls.{open_of};
ghost use Rattle.host_benchmark.specs.Fresh.{left, read_from};

use base_chip::{Chip, Part};
use base_numbers::{Refusal, number_of};
use bus_soundness::opened;
use read_calls::{open_on, read_on};

// Opens, and reads samples from the opened session: how many records there are.
fn read_fresh(
    chip: Chip,
    map: &[u8],
    active: &mut [u8],
    buffer: &mut [u8],
    words: &mut [u64],
    samples: &[u8],
    records: &mut [u8],
) -> Result<usize, Refusal>
    ensures { left (number_of result) (amount_of result) (banks active.new buffer.new) words.new records.new
        ≡ read_from chip map.now (open_of chip map.now (banks active.old buffer.old))
        words.old samples.now records.old }
{
    let mut session = opened();
    let own = &mut session;
    open_on(chip, map, own, active, buffer)?;
    read_on(chip, map, own, active, buffer, words, samples, records)
}

// Tells C how many records there are, and the number.
fn tell(answer: Result<usize, Refusal>, count: &mut u64) -> u32
    ensures number { result ≡ number_of answer }
    ensures count { count.new ≡ amount_of answer }
{
    *count = answer.unwrap_or(0) as u64;
    number_of(answer) as u32
}

// The same of a newer chip.
#[unsafe(no_mangle)]
pub extern "C" fn benchmark_read(
    map: &[u8],
    active: &mut [u8],
    buffer: &mut [u8],
    words: &mut [u64],
    samples: &[u8],
    records: &mut [u8],
    count: &mut u64,
) -> u32
    ensures { left result count.new (banks active.new buffer.new) words.new records.new
        ≡ read_from Newer map.now (open_of Newer map.now (banks active.old buffer.old))
        words.old samples.now records.old }
{
    let chip = Chip::Newer;
    let answer = read_fresh(chip, map, active, buffer, words, samples, records);
    tell(answer, count)
}

// The same of an AD9557 with the highest address that it has.
#[unsafe(no_mangle)]
pub extern "C" fn benchmark_read_older(
    top: u64,
    map: &[u8],
    active: &mut [u8],
    buffer: &mut [u8],
    words: &mut [u64],
    samples: &[u8],
    records: &mut [u8],
    count: &mut u64,
) -> u32
    ensures { left result count.new (banks active.new buffer.new) words.new records.new
        ≡ read_from (Older Ad9557 top) map.now
        (open_of (Older Ad9557 top) map.now (banks active.old buffer.old)) words.old
        samples.now records.old }
{
    let chip = Chip::Older {
        part: Part::Ad9557,
        top,
    };
    let answer = read_fresh(chip, map, active, buffer, words, samples, records);
    tell(answer, count)
}
