// What goes to a file: the lines of document 01's text. Each call answers whether it went out, or why not.
ghost use Rattle.std.specs.Prelude.{◌≡◌, ◌≤◌, length};
ghost use Rattle.base_numbers.specs.Numbers.{refusal_number};
ghost use Rattle.text_report.specs.Put.{Printed};
ghost use Rattle.text_recording.specs.Sizes.{text_space};
ghost use Rattle.text_recording.specs.Tally.{last_line};

use crate::tally::Tally;
use base_chip::Chip;
use base_numbers::Refusal;
use base_sizes::RECORD;
use std::io;
use std::io::Write;
use text_lines::{LINE, Pairs};
use text_report::LAST_LINE;

// The bytes for the lines that are written at a time.
pub const TEXT_SPACE: usize = 5040;

// How many lines those are.
const LINES: usize = TEXT_SPACE / LINE;

// Writes the first line.
pub fn write_map_line<W: Write>(to: &mut W, n: usize) -> io::Result<()> {
    let mut line = [0u8; 64];
    let count = text_report::put_map_line(n as u64, &mut line);
    to.write_all(&line[..count])
}

// Puts the last line into a buffer; how many bytes it is. An older part has no slow setting, so its line does not count it.
fn put_last_line(chip: Chip, tally: Tally, line: &mut [u8; LAST_LINE]) -> usize
    ensures { Printed (last_line chip tally) line.old line.new result }
{
    let slow = match chip {
        Chip::Newer => Some(tally.slow),
        Chip::Older { .. } => None,
    };
    text_report::put_count_line(tally.records, tally.samples, slow, line)
}

// Writes the last line.
pub fn write_count_line<W: Write>(chip: Chip, to: &mut W, tally: Tally) -> io::Result<()> {
    let mut line = [0u8; LAST_LINE];
    let count = put_last_line(chip, tally, &mut line);
    to.write_all(&line[..count])
}

// Writes the line of a refusal. Neither 6 is among them, since the records of a piece have room, nor 12: the top is the map's.
pub fn write_refused_line<W: Write>(to: &mut W, refusal: Refusal) -> io::Result<()>
    requires { refusal_number refusal ≤ 5 }
{
    let mut line = [0u8; 64];
    let count = text_report::put_refused_line(u8::from(refusal), &mut line);
    to.write_all(&line[..count])
}

// Writes the lines of records, as many at a time as the lent text has room for: each part is put whole.
pub fn write_lines<W: Write>(
    to: &mut W,
    records: &[u8],
    pairs: &Pairs,
    text: &mut [u8; TEXT_SPACE],
) -> io::Result<()>
    requires { length text.old ≡ text_space }
{
    for part in records.chunks(RECORD * LINES) {
        let lines = text_report::put_lines(pairs, part, text);
        prove!(lines == part.len() / RECORD);
        to.write_all(&text[..LINE * lines])?;
    }
    Ok(())
}
