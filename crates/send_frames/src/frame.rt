// The order of one stretch, put into a buffer. Each function here gives the place after what it puts, as those of `send_samples` do.
ghost use Rattle.std.specs.Prelude.{◌≡◌, cond, [], ◌∷◌, ◌++◌, ◌+◌, ◌-◌, ◌<◌, ◌≤◌, length, get_or};
ghost use Rattle.base_bits.specs.Bytes.{word_bytes};
ghost use Rattle.base_bits.specs.Buffer.{Put};
ghost use Rattle.send_setup.specs.Form.{listed_bytes};
ghost use Rattle.send_frames.specs.Frames.{stretch, data_of, frame_of};
ghost use Rattle.send_frames.specs.Calls.{most_registers};

use send_setup::{LEAST_LENGTH, VERSION};

// The direction of a write.
const WRITE: u8 = 0;

// Puts two bytes.
fn put_pair(first: u8, second: u8, out: &mut [u8], at: usize) -> usize
    requires { at + 2 ≤ length out.old }
    ensures { Put out.old at (first ∷ second ∷ []) result out.new }
{
    out[at] = first;
    out[at + 1] = second;
    at + 2
}

// Puts sixteen bits, big-endian.
fn put_word(x: u16, out: &mut [u8], at: usize) -> usize
    requires { at + 2 ≤ length out.old }
    ensures { Put out.old at (word_bytes x) result out.new }
{
    let bytes = x.to_be_bytes();
    put_pair(bytes[0], bytes[1], out, at)
}

// Puts what stands before the data of a write: its length, version, direction, start and count.
fn put_head(start: u16, count: u16, out: &mut [u8], at: usize) -> usize
    requires { (count ≤ most_registers) × (at + 8 ≤ length out.old) }
    ensures { Put out.old at (word_bytes (6 + count) ++ (1 ∷ 0 ∷ (word_bytes start ++ word_bytes count))) result out.new }
{
    let a = put_word(LEAST_LENGTH as u16 + count, out, at);
    let b = put_pair(VERSION, WRITE, out, a);
    let c = put_word(start, out, b);
    put_word(count, out, c)
}

// The byte that goes out at a place of the data: descending, the last first.
fn byte_at(ascending: bool, bytes: &[u8], i: usize) -> u8
    requires { i < length bytes.now }
    ensures { result ≡ get_or (data_of ascending bytes.now) i 0 }
{
    if ascending {
        bytes[i]
    } else {
        bytes[bytes.len() - 1 - i]
    }
}

// Puts the data of a run over a stretch.
fn put_data(ascending: bool, bytes: &[u8], out: &mut [u8], at: usize) -> usize
    requires { at + length bytes.now ≤ length out.old }
    ensures { Put out.old at (data_of ascending bytes.now) result out.new }
{
    let mut n = at;
    for i in 0..bytes.len() {
        out[n] = byte_at(ascending, bytes, i);
        n += 1;
    }
    n
}

// Where a run over a stretch starts: at its lowest register, or descending at its highest.
fn start_of(ascending: bool, lowest: u16, count: u16) -> u16
    requires { (1 ≤ count) × (lowest + count ≤ 0x8000) }
    ensures { result ≡ cond ascending lowest (lowest + count - 1) }
{
    if ascending {
        lowest
    } else {
        lowest + count - 1
    }
}

// Puts the order that writes a stretch.
pub fn put_frame(ascending: bool, lowest: u16, bytes: &[u8], out: &mut [u8], at: usize) -> usize
    requires in_bounds { (1 ≤ length bytes.now) × (length bytes.now ≤ most_registers) × (lowest + length bytes.now ≤ 0x8000) }
    requires bytes_in_bounds { at + 8 + length bytes.now ≤ length out.old }
    ensures { Put out.old at (listed_bytes (frame_of ascending (stretch lowest bytes.now))) result out.new }
{
    let count = bytes.len() as u16;
    let n = put_head(start_of(ascending, lowest, count), count, out, at);
    put_data(ascending, bytes, out, n)
}
