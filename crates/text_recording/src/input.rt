// What comes from a file: the map, and pieces of the samples.
ghost use Rattle.std.specs.Prelude.{◌≡◌, ◌+◌, ◌*◌, ◌≤◌, length};
ghost use Rattle.text_recording.specs.Sizes.{map_space};
ghost use Rattle.text_recording.specs.Bounds.{FilledWithin, map_end};

use map_format::{LEAST_SIZE, LENGTH_SIZE, MOST_SIZE};
use std::io;
use std::io::Read;

// The least and the most that a map's length field says.
const LEAST_LENGTH: usize = LEAST_SIZE - LENGTH_SIZE;

const MOST_LENGTH: usize = MOST_SIZE - LENGTH_SIZE;

// The bytes for the largest map, and one more by which a file is seen to be longer than its map.
pub const MAP_SPACE: usize = MOST_SIZE + 1;

// Fills a buffer from a file up to an end, in as many portions as it takes; how many bytes it then has, fewer than were asked for where
// the file has ended. That a full buffer is as long as asked, and not as long as the portions say, is what tells the compiler that a piece
// has no more than 4,096 samples: it then drops the counting of records, and the loop of the reader stands at one place only.
pub fn fill<R: Read>(file: &mut R, space: &mut [u8], from: usize, end: usize) -> io::Result<usize>
    requires { (from ≤ end) × (end ≤ length space.old) }
    ensures { FilledWithin result end }
{
    let mut at = from;
    while at < end {
        let more = file.read(&mut space[at..end])?;
        if more == 0 {
            return Ok(at);
        }
        at += more;
    }
    Ok(end)
}

// Where the map that starts with this length field ends: the field is 3 + 3n, or 4 + 3n in version 2.
fn map_end(high: u8, low: u8) -> usize
    ensures { result ≡ map_end (high * 256 + low) }
{
    let length = usize::from(u16::from_be_bytes([high, low]));
    if (LEAST_LENGTH <= length) & (length <= MOST_LENGTH) & (length % 3 <= 1) {
        return 2 + length;
    }
    2
}

// Takes the map from a file: its length field, and what that announces. Of a file that is the map's own a byte more is taken, if
// there is one: the map test then refuses what is longer than its map.
pub fn read_map<R: Read>(file: &mut R, own: bool, map: &mut [u8]) -> io::Result<usize>
    requires { map_space ≤ length map.old }
    ensures { FilledWithin result map_space }
{
    let got = fill(file, map, 0, 2)?;
    if got < 2 {
        return Ok(got);
    }
    let end = map_end(map[0], map[1]);
    if own {
        return fill(file, map, 2, end + 1);
    }
    fill(file, map, 2, end)
}
