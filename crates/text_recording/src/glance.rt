// What is looked for in the samples beside the reader, for words to the person at the bench.
ghost use Rattle.std.specs.Prelude.{◌≡◌, position, nat_lt};
ghost use Rattle.text_recording.specs.Glance.{falls_at, rises_at, seen_of, good_before};

use base_bits::bit_at;
use bus_session::{CSB, SCLK};

// What has been seen of a recording: its last sample; whether the select has fallen; and whether a clock edge has come with the
// select low, after which nothing more is looked for.
#[derive(Clone, Copy)]
pub struct Seen {
    pub last: u8,
    pub fell: bool,
    pub rose: bool,
}

impl Default for Seen {
    ghost use Rattle.std.specs.Prelude.{◌≡◌};
    ghost use Rattle.text_recording.specs.Glance.{nothing_seen};

    ghost is_default = { λ s. s ≡ nothing_seen };

    // Before the first sample the levels are those of the opened session: CSB high and SCLK low.
    fn default() -> Seen {
        Seen {
            last: 1,
            fell: false,
            rose: false,
        }
    }
}

// Whether CSB falls from one sample to the next.
fn falls(last: u8, x: u8) -> bool
    ensures { result ≡ falls_at last x }
{
    bit_at(last, CSB) & !bit_at(x, CSB)
}

// Whether SCLK rises from one sample to the next, with CSB low in both.
fn rises(last: u8, x: u8) -> bool
    ensures { result ≡ rises_at last x }
{
    !bit_at(last, CSB) & !bit_at(x, CSB) & !bit_at(last, SCLK) & bit_at(x, SCLK)
}

// Looks at more samples, up to the first clock edge with the select low.
pub fn look(seen: Seen, samples: &[u8]) -> Seen
    ensures { result ≡ seen_of seen samples.now }
{
    let mut seen = seen;
    for x in samples {
        if seen.rose {
            return seen;
        }
        seen = Seen {
            last: *x,
            fell: seen.fell | falls(seen.last, *x),
            rose: rises(seen.last, *x),
        };
    }
    seen
}

// The first sample that has any of bits 4 to 7.
fn first_bad(samples: &[u8]) -> Option<usize>
    ensures { result ≡ position (λ x. nat_lt 15 x) samples.now }
{
    samples.iter().position(|x| *x > 15)
}

// How many samples come before it, or how many there are.
pub fn good_before(samples: &[u8]) -> usize
    ensures { result ≡ good_before samples.now }
{
    first_bad(samples).unwrap_or(samples.len())
}
