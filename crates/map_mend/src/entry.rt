// What mending makes of one entry.
ghost use Rattle.std.specs.Prelude.{◌≡◌, not};
ghost use Rattle.map_mend.specs.Entry.{mended_kind, cleared, with_fixed_bytes, mended_at, same_entry};

use map_format::{BLANK, BUFFERED, CONTROL, Entry, READ_ONLY};
use map_test::{
    FREE, SCRATCH_MASK, SCRATCH_PLACE, VENDOR_HIGH_PLACE, VENDOR_LOW_PLACE, place_kind,
};

// The kind: what the place asks for, and at a free place its own, if it is one that may stand there.
fn mended_kind(address: usize, kind: u8) -> u8
    ensures { result ≡ mended_kind address kind }
{
    let place = place_kind(address);
    if place == FREE {
        if kind <= BUFFERED {
            return kind;
        }
        return BLANK;
    }
    place
}

// The entry without a mask or a default that its kind may not have.
fn clear(entry: Entry) -> Entry
    ensures { result ≡ cleared entry }
{
    if (entry.kind == BLANK) | (entry.kind == CONTROL) {
        return Entry {
            mask: 0,
            default: 0,
            ..entry
        };
    }
    if entry.kind == READ_ONLY {
        return Entry { mask: 0, ..entry };
    }
    entry
}

// The entry with the single bytes that its place fixes: the mask of scratch, the vendor bytes.
fn with_fixed_bytes(address: usize, entry: Entry) -> Entry
    ensures { result ≡ with_fixed_bytes address entry }
{
    let [low, high] = *b"\x56\x04";
    if address == SCRATCH_PLACE {
        return Entry {
            mask: SCRATCH_MASK,
            ..entry
        };
    }
    if address == VENDOR_LOW_PLACE {
        return Entry {
            default: low,
            ..entry
        };
    }
    if address == VENDOR_HIGH_PLACE {
        return Entry {
            default: high,
            ..entry
        };
    }
    entry
}

// The entry at an address, mended.
pub fn mended(address: usize, entry: Entry) -> Entry
    ensures { result ≡ mended_at address entry }
{
    let placed = Entry {
        kind: mended_kind(address, entry.kind),
        ..entry
    };
    with_fixed_bytes(address, clear(placed))
}

// Whether mending alters the entry at an address.
pub fn is_altered(address: usize, entry: Entry) -> bool
    ensures { result ≡ not (same_entry (mended_at address entry) entry) }
{
    let new = mended(address, entry);
    new != entry
}
