// What each place of a map asks of the kind of its register.
ghost use Rattle.std.specs.Prelude.{◌≡◌};
ghost use Rattle.map_test.specs.MapTest.{place_kind, as_asked};

use map_format::{BLANK, CONTROL, PLAIN, READ_ONLY};

// A place where any kind but control may stand.
pub const FREE: u8 = 9;

// Where a newer chip has its product number.
pub const PRODUCT_LOW_PLACE: usize = 0x0004;

pub const PRODUCT_HIGH_PLACE: usize = 0x0005;

// Where it has the vendor bytes.
pub const VENDOR_LOW_PLACE: usize = 0x000C;

pub const VENDOR_HIGH_PLACE: usize = 0x000D;

// Where it has scratch.
pub const SCRATCH_PLACE: usize = 0x000A;

// The mask of scratch.
pub const SCRATCH_MASK: u8 = 0xFF;

// The places of a newer chip that ask for a kind: 0x0000 to 0x000F.
const PLACES: usize = 16;

// The kind that each of them asks for.
pub const PLACE_KINDS: [u8; PLACES] = [
    CONTROL, CONTROL, FREE, READ_ONLY, READ_ONLY, READ_ONLY, READ_ONLY, BLANK, FREE, FREE, PLAIN,
    READ_ONLY, READ_ONLY, READ_ONLY, BLANK, CONTROL,
];

// The same of the older parts: control at 0x0000, 0x0005 and, for the AD9557, 0x0004. Each has its table, since one made by a
// test of the part is no plainer.
pub const AD9557_KINDS: [u8; 6] = [CONTROL, FREE, FREE, FREE, CONTROL, CONTROL];

pub const AD9508_KINDS: [u8; 6] = [CONTROL, FREE, FREE, FREE, FREE, CONTROL];

// The kind that an address asks for on a newer chip; from 0x0010 on all places are free.
pub fn place_kind(address: usize) -> u8
    ensures { result ≡ place_kind address }
{
    if address < PLACES {
        PLACE_KINDS[address]
    } else {
        FREE
    }
}

// Whether a kind is what its place asks for.
pub fn place_good(place: u8, kind: u8) -> bool
    ensures { result ≡ as_asked place kind }
{
    if place == FREE {
        kind != CONTROL
    } else {
        kind == place
    }
}
