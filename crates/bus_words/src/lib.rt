// Eight samples at a time, as one number: the first sample is its lowest byte.
#![tactic(auto)]

ghost use Rattle.std.specs.Prelude.{◌≡◌, ◌+◌, ◌<◌, ◌≤◌, length};
ghost use Rattle.base_bits.specs.Bits.{bit_at};
ghost use Rattle.bus_words.specs.Words.{word_of};
ghost use Rattle.bus_words.specs.Lanes.{Level, levels_in, highs_in, lows_in, level_in, rises_in, nibble};

// CSB and SCLK of each of eight samples.
const LEVELS: u64 = 0x0303_0303_0303_0303;

// SCLK of each of eight samples.
const CLOCKS: u64 = 0x0202_0202_0202_0202;

// One in each of eight samples.
const EACH: u64 = 0x0101_0101_0101_0101;

// One in every second of eight samples.
const SECONDS: u64 = 0x0001_0001_0001_0001;

// The eight samples from a place on. One expression, so that the compiler reads them at once.
pub fn word_at(samples: &[u8], at: usize) -> u64
    requires { at + 8 ≤ length samples.now }
    ensures { result ≡ word_of samples.now at 8 }
{
    u64::from_le_bytes([
        samples[at],
        samples[at + 1],
        samples[at + 2],
        samples[at + 3],
        samples[at + 4],
        samples[at + 5],
        samples[at + 6],
        samples[at + 7],
    ])
}

// CSB and SCLK, in each of eight samples.
pub fn levels(word: u64) -> u64
    ensures { result ≡ levels_in 8 word }
{
    word & LEVELS
}

// CSB high, in each of eight samples.
pub fn highs(word: u64) -> u64
    ensures { result ≡ highs_in 8 word }
{
    word & EACH
}

// How many of eight samples come before the first with CSB high.
pub fn lows(word: u64) -> usize
    ensures { result ≡ lows_in 8 word }
{
    (u64::trailing_zeros(word & EACH) / 8) as usize
}

// The level of SCLK before one of eight samples, by the level before them all.
pub fn level_at(word: u64, level: u8, lane: usize) -> u8
    requires { (Level level) × (lane < 8) }
    ensures { result ≡ level_in lane level word }
{
    ((((word << 8) | level as u64) >> (8 * lane)) & 2) as u8
}

// The rises of SCLK in eight samples, as one bit in each, by the level before them; those before CSB is high.
pub fn rises(word: u64, level: u8) -> u64
    requires { Level level }
    ensures { result ≡ rises_in (lows_in 8 word) level word }
{
    let clock = word & CLOCKS;
    let rising = clock & (clock ^ ((clock << 8) | level as u64));
    let high = word & EACH;
    if high == 0 {
        return rising;
    }
    rising & (high - 1)
}

// The levels of a line in every second of eight samples, as four bits: the first of them is the highest.
pub fn four_bits(word: u64, line: u8) -> u8
    requires { line < 4 }
    ensures { result ≡ nibble (bit_at word (8 + line)) (bit_at word (24 + line)) (bit_at word (40 + line)) (bit_at word (56 + line)) }
{
    let x = (word >> (8 + line)) & SECONDS;
    let t = (x << 1) | (x >> 16);
    (((t << 2) | (t >> 32)) % 16) as u8
}
