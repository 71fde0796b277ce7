// The map test: whether a register map may be used. It is refused by 2 or 3, the lowest that applies; for an older part then by 12.
#![tactic(auto)]

ghost use Rattle.std.specs.Prelude.{◌≡◌, [], ◌<◌, ◌≤◌, ◌-◌, length};
ghost use Rattle.base_bits.specs.Tests.{every};
ghost use Rattle.base_numbers.specs.Numbers.{number_of};
ghost use Rattle.base_chip.specs.declared.Chip.TheVariants.{Newer, Older};
ghost use Rattle.map_format.specs.Format.{least_count, count_of, register_at};
ghost use Rattle.map_test.specs.MapTest.{form_tests, Formed, kind_rule, older_kinds, entries_good, product_good, further_tests};
ghost use Rattle.map_test.specs.MapTest.{rules_good, map_number, top_fits, map_test_number};

mod places;

use base_chip::{Chip, Part, top_good};
use base_numbers::Refusal;
use map_format::{
    BLANK, BUFFERED, CONTROL, ENTRY_SIZE, Entry, FLAGGED, HEAD_SIZE, LEAST_COUNT, LENGTH_SIZE,
    MOST_COUNT, PLAIN, READ_ONLY, count, flags, head,
};
use places::{
    AD9508_KINDS, AD9557_KINDS, PLACE_KINDS, PRODUCT_HIGH_PLACE, PRODUCT_LOW_PLACE, place_good,
};
pub use places::{
    FREE, SCRATCH_MASK, SCRATCH_PLACE, VENDOR_HIGH_PLACE, VENDOR_LOW_PLACE, place_kind,
};

// Whether the head is right, with no reserved flag, and the slice as long as the map.
pub fn form_good(map: &[u8]) -> bool
    ensures { result ≡ every (form_tests map.now) }
{
    if map.len() < HEAD_SIZE {
        return false;
    }
    let n = count(map);
    let size = head(map) + ENTRY_SIZE * n;
    let length = u16::from_be_bytes([map[0], map[1]]) as usize;
    let version = map[2];
    (LENGTH_SIZE + length == size)
        & ((version == 1) | (version == FLAGGED))
        & (LEAST_COUNT <= n)
        & (n <= MOST_COUNT)
        & (map.len() == size)
        & (flags(map) <= 1)
}

// Whether mask and default are as the kind asks.
fn kind_good(entry: Entry) -> bool
    ensures { result ≡ kind_rule entry }
{
    let changes = (entry.kind == PLAIN) | (entry.kind == BUFFERED);
    let fixed = (entry.kind == BLANK) | (entry.kind == CONTROL);
    changes | (entry.mask == 0) & ((entry.kind == READ_ONLY) | fixed & (entry.default == 0))
}

// The lent bytes of a map whose form is good.
#[derive(Clone, Copy)]
struct FormedMap<'a> {
    bytes: &'a [u8],
    ghost formed: { Formed bytes.now },
}

impl<'a> FormedMap<'a> {
    // The entry of a register that the map has.
    fn register_at(self, address: usize) -> Entry
        requires { address < count_of self.bytes.now }
        ensures { result ≡ register_at self.entry.bytes.now address }
    {
        let at = head(self.bytes) + ENTRY_SIZE * address;
        Entry {
            kind: self.bytes[at],
            mask: self.bytes[at + 1],
            default: self.bytes[at + 2],
        }
    }

    // Whether the entries at the places of a table are good.
    fn places_good(self, kinds: &[u8]) -> bool
        requires { length kinds.now ≤ least_count }
        ensures { result ≡ entries_good kinds.now self.entry.bytes.now 0 (length kinds.now) }
    {
        let mut good = true;
        for (address, place) in kinds.iter().enumerate() {
            let entry = self.register_at(address);
            good = good & kind_good(entry) & place_good(*place, entry.kind);
        }
        good
    }

    // Whether the entries from an address on are good, where all places are free.
    fn others_good(self, first: usize) -> bool
        requires { first ≤ least_count }
        ensures { result ≡ entries_good [] self.entry.bytes.now first (count_of self.entry.bytes.now - first) }
    {
        let mut good = true;
        for address in first..count(self.bytes) {
            let entry = self.register_at(address);
            good = good & kind_good(entry) & (entry.kind != CONTROL);
        }
        good
    }

    // Whether all entries are good by a table: at its places, and beyond them.
    fn entries_good(self, kinds: &[u8]) -> bool
        requires { length kinds.now ≤ least_count }
        ensures { result ≡ entries_good kinds.now self.entry.bytes.now 0 (count_of self.entry.bytes.now) }
    {
        self.places_good(kinds) & self.others_good(kinds.len())
    }

    // Whether all entries are good on an older part.
    fn older_good(self, part: Part) -> bool
        ensures { result ≡ entries_good (older_kinds part) self.entry.bytes.now 0 (count_of self.entry.bytes.now) }
    {
        match part {
            Part::Ad9557 => self.entries_good(&AD9557_KINDS),
            Part::Ad9508 => self.entries_good(&AD9508_KINDS),
        }
    }

    // Whether the product number is neither 0x0000 nor 0xFFFF.
    fn product_good(self) -> bool
        ensures { result ≡ product_good self.entry.bytes.now }
    {
        let low = self.register_at(PRODUCT_LOW_PLACE).default;
        let high = self.register_at(PRODUCT_HIGH_PLACE).default;
        let product = u16::from_be_bytes([high, low]);
        (product != 0x0000) & (product != 0xFFFF)
    }

    // Whether the vendor bytes, the product number and the mask of scratch are right.
    fn further_good(self) -> bool
        ensures { result ≡ every (further_tests Newer self.entry.bytes.now) }
    {
        let vendor = b"\x56\x04";
        (self.register_at(VENDOR_LOW_PLACE).default == vendor[0])
            & (self.register_at(VENDOR_HIGH_PLACE).default == vendor[1])
            & self.product_good()
            & (self.register_at(SCRATCH_PLACE).mask == SCRATCH_MASK)
    }

    // Whether the entries and the further rules are good on a chip.
    fn rules_good(self, chip: Chip) -> bool
        ensures { result ≡ rules_good chip self.entry.bytes.now }
    {
        match chip {
            Chip::Newer => self.entries_good(&PLACE_KINDS) & self.further_good(),
            Chip::Older { part, top: _ } => self.older_good(part),
        }
    }
}

// Whether the product number of a map of good form is neither 0x0000 nor 0xFFFF.
pub fn product_good(map: &[u8]) -> bool
    requires { Formed map.now }
    ensures { result ≡ product_good map.now }
{
    FormedMap { bytes: map }.product_good()
}

// Whether a chip can have a map, whatever its top: refused by 2 where the form is wrong, or by 3 where an entry breaks a rule.
pub fn check_map(chip: Chip, map: &[u8]) -> Result<(), Refusal>
    ensures { number_of result ≡ map_number chip map.now }
{
    if !form_good(map) {
        return Err(Refusal::BadMapForm);
    }
    let formed = FormedMap { bytes: map };
    if !formed.rules_good(chip) {
        return Err(Refusal::BadMapEntry);
    }
    Ok(())
}

// Whether the top of an older part is one that it can have, and the last address of the map.
pub fn top_fits(chip: Chip, map: &[u8]) -> bool
    ensures { result ≡ top_fits chip map.now }
{
    match chip {
        Chip::Newer => true,
        Chip::Older { part: _, top } => {
            if top_good(chip) {
                return top + 1 == count(map) as u64;
            }
            false
        }
    }
}

// Whether a map may be used with a newer chip: refused by 2 or 3.
pub fn map_test(map: &[u8]) -> Result<(), Refusal>
    ensures { number_of result ≡ map_number Newer map.now }
{
    check_map(Chip::Newer, map)
}

// Whether a map may be used with an older part whose highest address is top: refused by 2, 3 or 12.
pub fn map_test_older(part: Part, top: u64, map: &[u8]) -> Result<(), Refusal>
    ensures { number_of result ≡ map_test_number (Older part top) map.now }
{
    let chip = Chip::Older { part, top };
    check_map(chip, map)?;
    if top_fits(chip, map) {
        return Ok(());
    }
    Err(Refusal::BadTop)
}
