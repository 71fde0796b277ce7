// The converter: a map made one of the other version, or a refusal.
#![tactic(auto)]

ghost use Rattle.std.specs.Prelude.{◌≡◌, ◌+◌, ◌≤◌, length, drop};
ghost use Rattle.base_bits.specs.Buffer.{Put};
ghost use Rattle.base_numbers.specs.Numbers.{number_of, amount_of};
ghost use Rattle.map_format.specs.Format.{most_count};
ghost use Rattle.map_convert.specs.Convert.{head_bytes, converted_to, convert_number, converting, convert_of};

use base_numbers::Refusal;
use map_format::{ENTRY_SIZE, FLAGGED, LENGTH_SIZE, count, flags, head, head_size, version};
use map_test::map_test;

// Whether a call may be made: refused as by the map test, by 13 for going back with a flag set, by 11 for a buffer too short.
fn check(wished: u8, map: &[u8], room: usize) -> Result<(), Refusal>
    ensures { number_of result ≡ convert_number wished map.now room }
{
    map_test(map)?;
    let flags_kept = (wished == FLAGGED) | (flags(map) == 0);
    if !flags_kept {
        return Err(Refusal::FlagLost);
    }
    if room < head_size(wished) + ENTRY_SIZE * count(map) {
        return Err(Refusal::ShortOut);
    }
    Ok(())
}

// Puts the head of a map of n registers at the start of the buffer; the place after it.
fn put_head(wished: u8, n: usize, out: &mut [u8]) -> usize
    requires { (n ≤ most_count) × (length (head_bytes wished n) ≤ length out.old) }
    ensures { Put out.old 0 (head_bytes wished n) result out.new }
{
    let size = head_size(wished);
    let length = size - LENGTH_SIZE + ENTRY_SIZE * n;
    let [length_high, length_low] = u16::to_be_bytes(length as u16);
    let [count_high, count_low] = u16::to_be_bytes(n as u16);
    let flagged = [length_high, length_low, wished, count_high, count_low, 0];
    out[..size].copy_from_slice(&flagged[..size]);
    size
}

// Puts the bytes of a map from one place on at a place of the buffer; the place after them. Byte by byte: copied as a slice of any length
// they would need memmove, which a host without a C library may not have.
fn put_rest(map: &[u8], from: usize, out: &mut [u8], at: usize) -> usize
    requires { (from ≤ length map.now) × (at + length (drop from map.now) ≤ length out.old) }
    ensures { Put out.old at (drop from map.now) result out.new }
{
    let mut n = at;
    for i in from..map.len() {
        out[n] = map[i];
        n += 1;
    }
    n
}

// Puts a map that is not refused, in the wished version; how many bytes it is.
fn put_map(wished: u8, map: &[u8], out: &mut [u8]) -> usize
    requires { convert_number wished map.now (length out.old) ≡ 0 }
    ensures { Put out.old 0 (converted_to wished map.now) result out.new }
{
    if version(map) == wished {
        return put_rest(map, 0, out, 0);
    }
    let n = put_head(wished, count(map), out);
    put_rest(map, head(map), out, n)
}

// Puts a map in the wished version at the start of the outgoing buffer; how many bytes it is. A refusal leaves the buffer as it was.
fn convert(wished: u8, map: &[u8], out: &mut [u8]) -> Result<usize, Refusal>
    ensures { converting (number_of result) (amount_of result) out.new ≡ convert_of wished map.now out.old }
{
    check(wished, map, out.len())?;
    Ok(put_map(wished, map, out))
}

// A map as one of version 1. With bit 0 of its flags set it is refused: version 1 has no place for it.
pub fn to_version_1(map: &[u8], out: &mut [u8]) -> Result<usize, Refusal>
    ensures { converting (number_of result) (amount_of result) out.new ≡ convert_of 1 map.now out.old }
{
    convert(1, map, out)
}

// A map as one of version 2, with flags 0 if it had none.
pub fn to_version_2(map: &[u8], out: &mut [u8]) -> Result<usize, Refusal>
    ensures { converting (number_of result) (amount_of result) out.new ≡ convert_of 2 map.now out.old }
{
    convert(2, map, out)
}
