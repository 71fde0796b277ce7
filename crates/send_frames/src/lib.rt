// The fewest frames: as few streaming write orders as can be, made of single registers and their bytes.
#![tactic(auto)]

ghost use Rattle.std.specs.Prelude.{◌≡◌, Bool, true, ◌+◌, ◌<◌, length, get_or, drop};
ghost use Rattle.base_bits.specs.Buffer.{Put};
ghost use Rattle.base_bits.specs.Tests.{every};
ghost use Rattle.base_numbers.specs.Numbers.{number_of, amount_of};
ghost use Rattle.send_frames.specs.Frames.{wanted_of, stretches_of};
ghost use Rattle.send_frames.specs.Calls.{registers_tests, frames_bytes, frames_number, making, make_of};
ghost use Rattle.send_frames.specs.Rows.{neighbours, stretches_size};

mod frame;
mod registers;

use base_numbers::Refusal;
use frame::put_frame;
use registers::registers_good;
use send_setup::DATA_AT;

// The place after the stretch that begins at a place.
fn stretch_end(addresses: &[u16], from: usize) -> usize
    requires { from < length addresses.now }
    ensures { result ≡ from + 1 + neighbours (get_or addresses.now from 0) (drop (from + 1) addresses.now) }
{
    let mut last = addresses[from] as u32;
    for end in from + 1..addresses.len() {
        let next = addresses[end] as u32;
        if next != last + 1 {
            return end;
        }
        last = next;
    }
    addresses.len()
}

// How many bytes the orders take: those before the data, and the data, of each. No range counts the turns of this walk and of the one
// below: each stretch tells where the next one begins.
fn frames_size(addresses: &[u16], bytes: &[u8]) -> usize
    requires { every (registers_tests addresses.now bytes.now) ≡ true }
    ensures { result ≡ stretches_size (stretches_of (wanted_of addresses.now bytes.now)) }
{
    let mut size: usize = 0;
    let mut from: usize = 0;
    while from < addresses.len() {
        let end = stretch_end(addresses, from);
        size += DATA_AT + bytes[from..end].len();
        from = end;
    }
    size
}

// Whether a call with so much room is refused, in either direction.
fn check_frames(addresses: &[u16], bytes: &[u8], room: usize) -> Result<(), Refusal>
    ensures { (up : Bool) → number_of result ≡ frames_number up addresses.now bytes.now room }
{
    if !registers_good(addresses, bytes) {
        return Err(Refusal::BadRegisters);
    }
    if room < frames_size(addresses, bytes) {
        return Err(Refusal::ShortOut);
    }
    Ok(())
}

// Puts the orders of all stretches, from the lowest up; how many bytes they are.
fn put_frames(ascending: bool, addresses: &[u16], bytes: &[u8], out: &mut [u8]) -> usize
    requires { frames_number ascending addresses.now bytes.now (length out.old) ≡ 0 }
    ensures { Put out.old 0 (frames_bytes ascending addresses.now bytes.now) result out.new }
{
    let mut from: usize = 0;
    let mut n: usize = 0;
    while from < addresses.len() {
        let end = stretch_end(addresses, from);
        n = put_frame(ascending, addresses[from], &bytes[from..end], out, n);
        from = end;
    }
    n
}

// Puts the fewest streaming write orders of one direction that write each listed register once with its byte, and no other, at the
// start of the outgoing buffer, and tells how many bytes they are. A refusal leaves the buffer as it was.
pub fn fewest_frames(
    ascending: bool,
    addresses: &[u16],
    bytes: &[u8],
    out: &mut [u8],
) -> Result<usize, Refusal>
    ensures { making (number_of result) (amount_of result) out.new ≡ make_of ascending addresses.now bytes.now out.old }
{
    check_frames(addresses, bytes, out.len())?;
    Ok(put_frames(ascending, addresses, bytes, out))
}
