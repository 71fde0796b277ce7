// Mending a map: an entry that breaks a rule is corrected in the map's own bytes, and listed as it was.
#![tactic(auto)]

ghost use Rattle.std.specs.Prelude.{◌≡◌, ◌+◌, ◌<◌, ◌≤◌, length};
ghost use Rattle.std.proofs.lemmas.List.Edits.{sets};
ghost use Rattle.base_bits.specs.Buffer.{Put};
ghost use Rattle.base_numbers.specs.Numbers.{number_of, amount_of};
ghost use Rattle.map_format.specs.Format.{most_count, entry_start};
ghost use Rattle.map_test.specs.MapTest.{Formed};
ghost use Rattle.map_mend.specs.Mend.{entry_bytes, altered_at, altered_of, mend_number, MendedEntries, mending, mend_of};

mod entry;

use base_numbers::Refusal;
use entry::{is_altered, mended};
use map_format::{ENTRY_SIZE, Entry, count, entry_at, head};
use map_test::{form_good, product_good};

// The bytes that an altered entry has in the list: its address and the entry as it was.
const LISTED_SIZE: usize = 2 + ENTRY_SIZE;

// How many bytes of the list an entry takes.
fn listed_size(address: usize, entry: Entry) -> usize
    ensures { result ≡ length (altered_at address entry) }
{
    if is_altered(address, entry) {
        LISTED_SIZE
    } else {
        0
    }
}

// How many bytes the list of a map has.
fn list_length(map: &[u8]) -> usize
    requires { Formed map.now }
    ensures { result ≡ length (altered_of map.now) }
{
    let n = count(map);
    let mut length = 0;
    for address in 0..n {
        length += listed_size(address, entry_at(map, n, address));
    }
    length
}

// Whether a call may be made: refused by 2 for the form, by 18 for the product number, by 6 for a list that is too long for its room.
fn check(map: &[u8], room: usize) -> Result<(), Refusal>
    ensures { number_of result ≡ mend_number map.now room }
{
    if !form_good(map) {
        return Err(Refusal::BadMapForm);
    }
    if !product_good(map) {
        return Err(Refusal::BadProduct);
    }
    if room < list_length(map) {
        return Err(Refusal::ShortRecords);
    }
    Ok(())
}

// Puts an entry, if mending alters it, at a place of the list; the place after it.
fn put_listed(list: &mut [u8], at: usize, address: usize, entry: Entry) -> usize
    requires { (address < most_count) × (at + length (altered_at address entry) ≤ length list.old) }
    ensures { Put list.old at (altered_at address entry) result list.new }
{
    if is_altered(address, entry) {
        let end = at + LISTED_SIZE;
        let [high, low] = u16::to_be_bytes(address as u16);
        list[at..end].copy_from_slice(&[high, low, entry.kind, entry.mask, entry.default]);
        return end;
    }
    at
}

// Puts an entry into the map, at its address.
fn put_entry(map: &mut [u8], address: usize, entry: Entry)
    requires { (address < most_count) × (entry_start map.old (address + 1) ≤ length map.old) }
    ensures { map.new ≡ sets map.old (entry_start map.old address) (entry_bytes entry) }
{
    let at = head(map) + ENTRY_SIZE * address;
    map[at..at + ENTRY_SIZE].copy_from_slice(&[entry.kind, entry.mask, entry.default]);
}

// Mends the entries of a map that is not refused, and lists those that it alters; how many bytes of the list they are.
fn mend_entries(map: &mut [u8], list: &mut [u8]) -> usize
    requires { mend_number map.old (length list.old) ≡ 0 }
    ensures { MendedEntries map.old list.old result map.new list.new }
{
    let n = count(map);
    let mut length = 0;
    for address in 0..n {
        let old = entry_at(map, n, address);
        let new = mended(address, old);
        length = put_listed(list, length, address, old);
        put_entry(map, address, new);
    }
    length
}

// Corrects a map in its own bytes, and lists each entry that it alters at the start of the list; how many bytes of it they are.
// A refusal leaves both as they were.
pub fn mend(map: &mut [u8], list: &mut [u8]) -> Result<usize, Refusal>
    ensures { mending (number_of result) (amount_of result) map.new list.new ≡ mend_of map.old list.old }
{
    check(map, list.len())?;
    Ok(mend_entries(map, list))
}
