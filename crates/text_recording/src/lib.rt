// Reads a recording: a map and the samples after it come from files, and document 01's text goes to another. Here are input, output
// and buffers alone: what is refused and recorded is the reader's, and what is printed report's. A file is any reader or writer of
// the standard library, so that a program gives its standard input and output, and a test its bytes.
//
// What a file holds is the system's, and no contract can say it. So the promises here are of how a reading ends, of what is told
// beside it, and that no buffer is left.
//
// The buffers, with those of the calls, are at most 65,473 bytes together.
#![tactic(auto)]

ghost use Rattle.std.specs.Prelude.{◌≡◌, true, ◌≤◌, ◌+◌, ◌-◌, ◌/◌, min, length};
ghost use Rattle.base_numbers.specs.Numbers.{refusal_number};
ghost use Rattle.map_format.specs.Format.{count_of, most_count};
ghost use Rattle.map_test.specs.MapTest.{map_number, top_fits};
ghost use Rattle.read_refusals.specs.Numbers.{words_fit};
ghost use Rattle.text_recording.specs.Ends.{Known, Known-prop};
ghost use Rattle.text_recording.specs.Tally.{nothing_read};
ghost use Rattle.text_recording.specs.Families.{chip_of};

mod glance;
mod input;
mod output;
mod tally;

use base_chip::{Chip, Part};
use base_numbers::Refusal;
use base_sizes::RECORD;
use bus_session::Session;
use bus_soundness::opened;
pub use input::{MAP_SPACE, read_map};
use map_format::MOST_COUNT;
use output::TEXT_SPACE;
use read_calls::read_tested;
use std::cmp::min;
use std::io::{Error, ErrorKind, Read, Write};
use tally::Tally;
use text_lines::Pairs;

// The samples of a piece.
const PIECE: usize = 4096;

// The bytes for the records of a piece.
const RECORD_SPACE: usize = 9562;

// The words of touched registers of the largest map.
const MOST_WORDS: usize = 128;

// What a recording is of: a newer chip, or an older part, whose highest address its map tells. This is no Option: no part is missing.
#[derive(Clone, Copy)]
pub enum Family {
    Newer,
    Older(Part),
}

// Why a reading ended before its last sample: by a refusal of the reader's, or by a file that failed, with the reason. A call of the
// system's that failed has left that in errno too.
#[derive(Clone, Copy)]
pub enum Failure {
    Refused(Refusal),
    MapFailed(Error),
    SamplesFailed(Error),
    OutputFailed(Error),
}

// What came of a recording: how it ended; how many records were written; how many samples were read, which on number 5 is the
// number of the first bad one, counted from 0; and whether the select fell and a clock edge came with the select low.
#[derive(Clone, Copy)]
pub struct Reading {
    pub end: Result<(), Failure>,
    pub records: u64,
    pub samples: u64,
    pub fell: bool,
    pub rose: bool,
    pub ghost known: { Known end } by { Known-prop end },
}

// A reading that ended after so much of the recording.
fn ended(end: Result<(), Failure>, tally: Tally) -> Reading
    requires { Known end }
    ensures { result.end ≡ end }
{
    Reading {
        end,
        records: tally.records,
        samples: tally.samples,
        fell: tally.seen.fell,
        rose: tally.seen.rose,
    }
}

// The end of a reading that is refused, once the line of it is written.
fn refuse<W: Write>(to: &mut W, refusal: Refusal) -> Result<(), Failure>
    requires { refusal_number refusal ≤ 5 }
    ensures { Known result }
{
    output::write_refused_line(to, refusal).map_err(Failure::OutputFailed)?;
    Err(Failure::Refused(refusal))
}

// Reads the samples to their end, 4,096 at a time, on a map that opening has tested. A loop has to end by itself: this one would
// before 2 ^ 64 samples.
fn read_trace<S: Read, W: Write>(
    chip: Chip,
    map: &[u8],
    mut session: Session,
    active: &mut [u8],
    buffer: &mut [u8],
    words: &mut [u64],
    from: &mut S,
    to: &mut W,
    tally: &mut Tally,
) -> Result<(), Failure>
    requires map { (map_number chip map.now ≡ 0) × (top_fits chip map.now ≡ true) × (words_fit map.now words.old ≡ true) }
    requires start { tally.old ≡ nothing_read }
    ensures { Known result }
{
    let mut samples = [0u8; PIECE];
    let mut found = [0u8; RECORD_SPACE];
    let mut text = [0u8; TEXT_SPACE];
    let pairs = Pairs::new();
    while tally.samples < u64::MAX - PIECE as u64 {
        let got = input::fill(from, &mut samples, 0, PIECE).map_err(Failure::SamplesFailed)?;
        let piece = &samples[..got];
        let outcome = read_tested(
            chip,
            map,
            &mut session,
            active,
            buffer,
            words,
            piece,
            &mut found,
        );
        let count = match outcome {
            Ok(count) => count,
            Err(refusal) => {
                tally.count_good(piece);
                return refuse(to, refusal);
            }
        };
        let records = &found[..RECORD * count];
        output::write_lines(to, records, &pairs, &mut text).map_err(Failure::OutputFailed)?;
        tally.count(piece, records);
        if got < PIECE {
            return output::write_count_line(chip, to, *tally).map_err(Failure::OutputFailed);
        }
    }
    Err(Failure::SamplesFailed(too_many_samples()))
}

// Why a recording of 2 ^ 64 samples or so is not read to its end.
fn too_many_samples() -> Error {
    Error::new(ErrorKind::FileTooLarge, "more samples than can be counted")
}

// The last address of a map, n less 1. One without registers is refused, whatever this is.
fn last_address(map: &[u8]) -> u64
    ensures { result ≡ count_of map.now - 1 }
{
    map_format::count(map).saturating_sub(1) as u64
}

// The chip that a map is for.
fn chip_of(family: Family, map: &[u8]) -> Chip
    ensures { result ≡ chip_of family map.now }
{
    match family {
        Family::Newer => Chip::Newer,
        Family::Older(part) => Chip::Older {
            part,
            top: last_address(map),
        },
    }
}

// Opens the map and reads the samples after it. A refused map prints nothing else.
fn read_opened<S: Read, W: Write>(
    family: Family,
    map: &[u8],
    active: &mut [u8],
    buffer: &mut [u8],
    words: &mut [u64],
    from: &mut S,
    to: &mut W,
    tally: &mut Tally,
) -> Result<(), Failure>
    requires words { length words.old ≡ (min (count_of map.now) most_count + 63) / 64 }
    requires start { tally.old ≡ nothing_read }
    ensures { Known result }
{
    let chip = chip_of(family, map);
    let mut session = opened();
    if let Err(refusal) = read_calls::open_on(chip, map, &mut session, active, buffer) {
        return refuse(to, refusal);
    }
    output::write_map_line(to, map_format::count(map)).map_err(Failure::OutputFailed)?;
    read_trace(chip, map, session, active, buffer, words, from, to, tally)
}

// Reads the samples of a recording whose map has been read, and writes its text. No map that can be opened has more than 8,192 registers,
// so there are no banks of more.
pub fn read_samples<S: Read, W: Write>(
    family: Family,
    map: &[u8],
    samples_file: &mut S,
    to: &mut W,
) -> Reading
    ensures { Known result.end }
{
    let mut active = [0u8; MOST_COUNT];
    let mut buffer = [0u8; MOST_COUNT];
    let mut words = [0u64; MOST_WORDS];
    let n = min(map_format::count(map), MOST_COUNT);
    let mut tally = Tally::nothing_read();
    let end = read_opened(
        family,
        map,
        &mut active[..n],
        &mut buffer[..n],
        &mut words[..n.div_ceil(64)],
        samples_file,
        to,
        &mut tally,
    );
    ended(end, tally)
}

// Reads the recording in two files, the map's own and the samples', or in one that holds the samples after the map and is then given
// twice; and writes its text to a third.
fn read_files<M: Read, S: Read, W: Write>(
    family: Family,
    map_file: &mut M,
    own: bool,
    samples_file: &mut S,
    to: &mut W,
) -> Reading
    ensures { Known result.end }
{
    let mut map = [0u8; MAP_SPACE];
    match input::read_map(map_file, own, &mut map) {
        Ok(length) => read_samples(family, &map[..length], samples_file, to),
        Err(reason) => ended(Err(Failure::MapFailed(reason)), Tally::nothing_read()),
    }
}

// Reads the recording of a newer chip.
pub fn read_recording<M: Read, S: Read, W: Write>(
    map_file: &mut M,
    own: bool,
    samples_file: &mut S,
    to: &mut W,
) -> Reading
    ensures { Known result.end }
{
    read_files(Family::Newer, map_file, own, samples_file, to)
}

// Reads the recording of an older part.
pub fn read_older_recording<M: Read, S: Read, W: Write>(
    part: Part,
    map_file: &mut M,
    own: bool,
    samples_file: &mut S,
    to: &mut W,
) -> Reading
    ensures { Known result.end }
{
    read_files(Family::Older(part), map_file, own, samples_file, to)
}
