// Whether the bytes that are handed over are samples of so many chips.
ghost use Rattle.std.specs.Prelude.{◌≡◌, ◌&&◌, not, ◌-◌, ◌^◌, ◌≤◌, leb};
ghost use Rattle.base_bits.specs.Bits.{bit_at};
ghost use Rattle.several_chips.specs.Samples.{all_good, samples_in};
ghost use Rattle.several_chips.specs.Numbers.{several_samples_good};

use base_bits::bit_at;
use bus_session::CSB;

// The bytes of 65,536 samples.
const MOST_BYTES: usize = 2 * 65536;

// The least byte of selects in which those of absent chips are high.
fn least_selects(chips: usize) -> u8
    requires { chips ≤ 8 }
    ensures { result ≡ 2 ^ 8 - 2 ^ chips }
{
    (256 - (1u16 << chips)) as u8
}

// Whether of the lines bit 0 and bits 4 to 7 are zero.
fn lines_good(lines: u8) -> bool
    ensures { result ≡ (leb lines 15 && not (bit_at lines 0)) }
{
    (lines <= 15) & !bit_at(lines, CSB)
}

// Whether each sample of so many chips is good.
fn all_good(chips: usize, samples: &[u8]) -> bool
    requires { chips ≤ 8 }
    ensures { result ≡ all_good chips (samples_in samples.now) }
{
    let least = least_selects(chips);
    let mut good = true;
    for sample in samples.chunks_exact(2) {
        good = good & ((least <= sample[0]) & lines_good(sample[1]));
    }
    good
}

// Whether there is an even number of bytes, of up to 65,536 samples, and each sample is good.
pub(crate) fn samples_good(chips: usize, samples: &[u8]) -> bool
    requires { chips ≤ 8 }
    ensures { result ≡ several_samples_good chips samples.now }
{
    if (samples.len() % 2 == 0) & (samples.len() <= MOST_BYTES) {
        return all_good(chips, samples);
    }
    false
}
