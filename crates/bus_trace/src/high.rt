// Samples with CSB high.
ghost use Rattle.std.specs.Prelude.{◌≡◌, ◌≤◌, length};
ghost use Rattle.bus_words.specs.Lanes.{Level};
ghost use Rattle.bus_trace.specs.Scan.{Rested};

use bus_words::{highs, level_at, lows, word_at};

// Where CSB falls, or the end, and the level of SCLK before it.
#[derive(Clone, Copy)]
pub(crate) struct Past {
    pub(crate) at: usize,
    pub(crate) level: u8,
}

// Past samples with CSB high, one by one.
fn past_each(samples: &[u8], level: u8, from: usize) -> Past
    requires { (Level level) × (from ≤ length samples.now) }
    ensures { Rested samples.now level from result }
{
    let mut level = level;
    for at in from..samples.len() {
        let x = samples[at];
        let falls = x % 2 == 0;
        if falls {
            return Past { at, level };
        }
        level = x & 2;
    }
    Past {
        at: samples.len(),
        level,
    }
}

// Past samples with CSB high, eight at a time. The place is counted, since the answer and the rest go by it: `chunks_exact` has none.
pub(crate) fn past_high(samples: &[u8], level: u8, from: usize) -> Past
    requires { (Level level) × (from ≤ length samples.now) }
    ensures { Rested samples.now level from result }
{
    let mut sclk = level;
    let mut at = from;
    while 8 <= samples.len() - at {
        let word = word_at(samples, at);
        if highs(!word) != 0 {
            let stop = lows(!word);
            return Past {
                at: at + stop,
                level: level_at(word, sclk, stop),
            };
        }
        sclk = samples[at + 7] & 2;
        at += 8;
    }
    past_each(samples, sclk, at)
}
