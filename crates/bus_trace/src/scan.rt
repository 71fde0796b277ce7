// Samples scanned eight at a time.
ghost use Rattle.std.specs.Prelude.{◌≡◌, Bool, ◌+◌, ◌/◌, ◌^◌, ◌<◌, ◌≤◌, length};
ghost use Rattle.std.specs.Int.Count.{count_trailing_zeros};
ghost use Rattle.bus_words.specs.Words.{word_of};
ghost use Rattle.bus_words.specs.Lanes.{highs_in, nibble};
ghost use Rattle.bus_trace.specs.Scan.{ProgressBounds, LowScanAfter, RisesAhead, BitsAfter, ScanAfter, shifted_three, shifted_four};

use crate::high::past_high;
use base_bits::{bit_at, shift_in};
use base_card::Card;
use bus_words::{four_bits, highs, level_at, levels, lows, rises, word_at};

// SCLK low and high in turn in eight samples, with CSB low: each bit takes two samples.
const DENSE: u64 = 0x0200_0200_0200_0200;

// What samples without an event change of a port, the level of SCLK (0 or 2), the bits taken and their value; and the place
// of the next sample.
#[derive(Clone, Copy)]
pub struct Progress {
    pub level: u8,
    pub bits: u8,
    pub value: u16,
    pub at: usize,
}

// What a scan of one piece goes by: the line of its bits, whether the lowest comes first, and how many come before the last.
#[derive(Clone, Copy)]
pub(crate) struct Piece {
    pub(crate) line: u8,
    pub(crate) lsb_first: bool,
    pub(crate) last: u8,
    ghost wired: { line < 4 },
}

// The bits taken of eight samples, their value, and the rises that are left.
#[derive(Clone, Copy)]
struct Bits {
    bits: u8,
    value: u16,
    rising: u64,
}

// The place of a word's lowest bit, in bytes.
fn lane(rising: u64) -> usize
    ensures { result ≡ count_trailing_zeros 64 rising / 8 }
{
    (u64::trailing_zeros(rising) / 8) as usize
}

// A bit of the line at each of the rises, up to so many.
fn bits_at(samples: &[u8], piece: Piece, from: Progress, rises: u64) -> Bits
    requires { (ProgressBounds samples.now piece.last from) × (RisesAhead samples.now from rises) }
    ensures { BitsAfter samples.now piece.line piece.lsb_first piece.last from result }
{
    let at = from.at;
    let mut bits = from.bits;
    let mut value = from.value;
    let mut rising = rises;
    while rising != 0 {
        if bits == piece.last {
            return Bits {
                bits,
                value,
                rising,
            };
        }
        let x = samples[at + lane(rising)];
        value = shift_in(piece.lsb_first, value, bits, bit_at(x, piece.line));
        bits += 1;
        rising = rising & (rising - 1);
    }
    Bits {
        bits,
        value,
        rising,
    }
}

// The value of some bits with four more, the highest of which came first; the card turns them where the lowest goes
// first.
fn with_four(card: &Card, lsb_first: bool, value: u16, bits: u8, more: u8) -> u16
    requires { (value < 2 ^ bits) × (bits + 4 ≤ 16) × (more < 16) }
    ensures { (a b c d : Bool) → more ≡ nibble a b c d → result ≡ shifted_four lsb_first value bits a b c d }
{
    if lsb_first {
        return value + ((card.turn(more * 16) as u16) << bits);
    }
    value * 16 + more as u16
}

// The same with the first three of them. No const parameter makes the two one: their clauses are two definitions.
fn with_three(card: &Card, lsb_first: bool, value: u16, bits: u8, more: u8) -> u16
    requires { (value < 2 ^ bits) × (bits + 4 ≤ 16) × (more < 16) }
    ensures { (a b c d : Bool) → more ≡ nibble a b c d → result ≡ shifted_three lsb_first value bits a b c }
{
    if lsb_first {
        return value + (((card.turn(more * 16) % 8) as u16) << bits);
    }
    value * 8 + (more / 2) as u16
}

// Samples with CSB low, one by one, until the piece ends.
pub(crate) fn take_each(samples: &[u8], piece: Piece, from: Progress) -> Progress
    requires { ProgressBounds samples.now piece.last from }
    ensures { LowScanAfter samples.now piece.line piece.lsb_first piece.last from result }
{
    let mut level = from.level;
    let mut bits = from.bits;
    let mut value = from.value;
    for at in from.at..samples.len() {
        let x = samples[at];
        let now = x % 4;
        if now % 2 == 1 {
            return Progress {
                level,
                bits,
                value,
                at,
            };
        }
        let rises = level < now;
        if rises {
            if bits == piece.last {
                return Progress {
                    level,
                    bits,
                    value,
                    at,
                };
            }
            value = shift_in(piece.lsb_first, value, bits, bit_at(x, piece.line));
            bits += 1;
        }
        level = now;
    }
    Progress {
        level,
        bits,
        value,
        at: samples.len(),
    }
}

// Samples with CSB low, up to the first of eight that has it high, or until the piece ends before it.
fn take_before_high(samples: &[u8], word: u64, piece: Piece, from: Progress) -> Progress
    requires { (ProgressBounds samples.now piece.last from)
        × (from.at + 8 ≤ length samples.now)
        × (word ≡ word_of samples.now from.at 8)
        × (0 < highs_in 8 word) }
    ensures { LowScanAfter samples.now piece.line piece.lsb_first piece.last from result }
{
    let at = from.at;
    let b = bits_at(samples, piece, from, rises(word, from.level));
    if b.rising != 0 {
        return Progress {
            level: 0,
            bits: b.bits,
            value: b.value,
            at: at + lane(b.rising),
        };
    }
    let stop = lows(word);
    Progress {
        level: level_at(word, from.level, stop),
        bits: b.bits,
        value: b.value,
        at: at + stop,
    }
}

// Samples with CSB low, until the piece ends: eight at a time, and of these rise by rise. The place is counted, since the progress has it.
fn take_words(samples: &[u8], piece: Piece, from: Progress) -> Progress
    requires { ProgressBounds samples.now piece.last from }
    ensures { LowScanAfter samples.now piece.line piece.lsb_first piece.last from result }
{
    let mut p = from;
    while 8 <= samples.len() - p.at {
        let at = p.at;
        let word = word_at(samples, at);
        if highs(word) != 0 {
            return take_before_high(samples, word, piece, p);
        }
        let b = bits_at(samples, piece, p, rises(word, p.level));
        if b.rising != 0 {
            return Progress {
                level: 0,
                bits: b.bits,
                value: b.value,
                at: at + lane(b.rising),
            };
        }
        p.level = samples[at + 7] & 2;
        p.bits = b.bits;
        p.value = b.value;
        p.at = at + 8;
    }
    take_each(samples, piece, p)
}

// Samples with CSB low, until the piece ends: the bits of a line at the rises of SCLK, up to so many. Where each takes two samples,
// eight are taken at once, or seven before the last.
fn take(card: &Card, samples: &[u8], piece: Piece, from: Progress) -> Progress
    requires { ProgressBounds samples.now piece.last from }
    ensures { LowScanAfter samples.now piece.line piece.lsb_first piece.last from result }
{
    let mut p = from;
    while 16 <= samples.len() - p.at {
        let at = p.at;
        let first = word_at(samples, at);
        if levels(first) != DENSE {
            break;
        }
        let second = word_at(samples, at + 8);
        if levels(second) != DENSE {
            break;
        }
        if piece.last < p.bits + 7 {
            break;
        }
        let value = with_four(
            card,
            piece.lsb_first,
            p.value,
            p.bits,
            four_bits(first, piece.line),
        );
        let more = four_bits(second, piece.line);
        if p.bits + 7 == piece.last {
            return Progress {
                level: 0,
                bits: piece.last,
                value: with_three(card, piece.lsb_first, value, p.bits + 4, more),
                at: at + 15,
            };
        }
        p.level = 2;
        p.value = with_four(card, piece.lsb_first, value, p.bits + 4, more);
        p.bits = p.bits + 8;
        p.at = at + 16;
    }
    take_words(samples, piece, p)
}

// Samples up to one that ends the piece, or with CSB high up to one that lets it fall.
pub fn next_stop(
    card: &Card,
    csb: bool,
    samples: &[u8],
    from: Progress,
    line: u8,
    lsb_first: bool,
    last: u8,
) -> Progress
    requires { (ProgressBounds samples.now last from) × (line < 4) }
    ensures { ScanAfter samples.now csb line lsb_first last from result }
{
    if csb {
        let past = past_high(samples, from.level, from.at);
        return Progress {
            level: past.level,
            at: past.at,
            ..from
        };
    }
    let piece = Piece {
        line,
        lsb_first,
        last,
    };
    take(card, samples, piece, from)
}
