// The text that the bench program prints.
#![tactic(auto)]

ghost use Rattle.std.specs.Prelude.{◌≡◌, ◌++◌, ◌+◌, ◌≤◌, length};
ghost use Rattle.base_bits.specs.Buffer.{Put};
ghost use Rattle.text_lines.specs.Text.{bytes_of};
ghost use Rattle.text_report.specs.Numbers.{decimal_of};
ghost use Rattle.text_report.specs.Text.{map_line, counts_line, refused_line};
ghost use Rattle.text_report.specs.Put.{Printed, LinesPut};

use base_sizes::RECORD;
use std::cmp::min;
use text_lines::{LINE, Pairs};

// The bytes of the last line at most: three words, each with its number of up to 20 digits, and a byte to end it.
pub const LAST_LINE: usize = 84;

// The lines of as many records as there are and as fit; how many that is.
pub fn put_lines(pairs: &Pairs, records: &[u8], out: &mut [u8]) -> usize
    ensures { LinesPut records.now out.old out.new result }
{
    let lines = min(records.len() / RECORD, out.len() / LINE);
    for n in 0..lines {
        let line = pairs.line_of(&records[n * RECORD..]);
        out[n * LINE..(n + 1) * LINE].copy_from_slice(&line);
    }
    lines
}

// Text that is put into a lent buffer, and the place after it.
#[derive(Drop)]
struct Text<'a> {
    out: &'a mut [u8],
    at: usize,
}

impl<'a> Text<'a> {
    // Puts more bytes.
    fn put(&mut self, bytes: &[u8])
        requires { self.old.at + length bytes.now ≤ length self.old.out.now }
        ensures same { self.new.out.ghost_name ≡ self.old.out.ghost_name }
        ensures put { Put self.old.out.now self.old.at bytes.now self.new.at self.new.out.now }
    {
        let end = self.at + bytes.len();
        self.out[self.at..end].copy_from_slice(bytes);
        self.at = end;
    }

    // Puts a word, and after it a number in decimal.
    fn put_number(&mut self, word: &[u8], n: u64)
        requires { self.old.at + length word.now + 20 ≤ length self.old.out.now }
        ensures same { self.new.out.ghost_name ≡ self.old.out.ghost_name }
        ensures put { Put self.old.out.now self.old.at (word.now ++ decimal_of n) self.new.at self.new.out.now }
    {
        let mut digits = [0u8; 20];
        let k = io::decimal(n, &mut digits);
        self.put(word);
        self.put(&digits[..k]);
    }
}

// A line of a word and a number; how many bytes it is.
fn put_line(word: &[u8], n: u64, out: &mut [u8; 64]) -> usize
    requires { length word.now ≤ 43 }
    ensures { Printed (word.now ++ decimal_of n ++ bytes_of "\n") out.old out.new result }
{
    let mut text = Text { out, at: 0 };
    text.put_number(word, n);
    text.put(b"\n");
    text.at
}

// The first line, with the number of registers; how many bytes it is.
pub fn put_map_line(n: u64, out: &mut [u8; 64]) -> usize
    ensures { Printed (map_line n) out.old out.new result }
{
    put_line(b"map ", n, out)
}

// The line of a refusal, with its number; how many bytes it is.
pub fn put_refused_line(number: u8, out: &mut [u8; 64]) -> usize
    ensures { Printed (refused_line number) out.old out.new result }
{
    put_line(b"refused ", u64::from(number), out)
}

// The last line, with the numbers of records, of samples and, but for an older part, of writes that ask for slow; how many bytes it is.
pub fn put_count_line(
    records: u64,
    samples: u64,
    slow: Option<u64>,
    out: &mut [u8; LAST_LINE],
) -> usize
    ensures { Printed (counts_line records samples slow) out.old out.new result }
{
    let mut line = Text { out, at: 0 };
    line.put_number(b"records ", records);
    line.put_number(b" samples ", samples);
    if let Some(slow) = slow {
        line.put_number(b" slow ", slow);
    }
    line.put(b"\n");
    line.at
}
