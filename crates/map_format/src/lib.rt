// The register map: bytes that a caller lends. Nothing of them is copied.
#![tactic(auto)]

ghost use Rattle.std.specs.Prelude.{◌≡◌};
ghost use Rattle.base_bits.specs.Bytes.{byte_at};
ghost use Rattle.map_format.specs.Format.{count_of, flags_of, head_of, head_size_in, version_of};

mod in_use;

pub use in_use::{RegisterMap, entry_at};

// The kinds of register.
pub const BLANK: u8 = 0;

pub const READ_ONLY: u8 = 1;

pub const PLAIN: u8 = 2;

pub const BUFFERED: u8 = 3;

pub const CONTROL: u8 = 4;

// The least and the most registers of a map.
pub const LEAST_COUNT: usize = 16;

pub const MOST_COUNT: usize = 8192;

// The version with a flag byte after n.
pub const FLAGGED: u8 = 2;

// The bytes of the length, which it does not count; of the head, which is length, version and n, and with the flags; and of an entry.
pub const LENGTH_SIZE: usize = 2;

pub const HEAD_SIZE: usize = 5;

pub const FLAGGED_HEAD_SIZE: usize = 6;

pub const ENTRY_SIZE: usize = 3;

// The bytes of the smallest and of the largest map.
pub const LEAST_SIZE: usize = HEAD_SIZE + ENTRY_SIZE * LEAST_COUNT;

pub const MOST_SIZE: usize = FLAGGED_HEAD_SIZE + ENTRY_SIZE * MOST_COUNT;

// What the map says of the register at one address.
#[derive(Clone, Copy, Debug, PartialEq, Eq)]
pub struct Entry {
    pub kind: u8,
    pub mask: u8,
    pub default: u8,
}

// The byte at a place of the map, 0 beyond its end.
fn byte_at(map: &[u8], at: usize) -> u8
    ensures { result ≡ byte_at map.now at }
{
    if at < map.len() { map[at] } else { 0 }
}

// The bytes of the head of a map in a version.
pub fn head_size(version: u8) -> usize
    ensures { result ≡ head_size_in version }
{
    if version == FLAGGED {
        FLAGGED_HEAD_SIZE
    } else {
        HEAD_SIZE
    }
}

// The version that the map says it has.
pub fn version(map: &[u8]) -> u8
    ensures { result ≡ version_of map.now }
{
    byte_at(map, 2)
}

// Where the entries begin.
pub fn head(map: &[u8]) -> usize
    ensures { result ≡ head_of map.now }
{
    head_size(version(map))
}

// The bit of the flags that asks for a transfer when the select rises.
pub const RISE_FLAG: u8 = 0;

// The flags of the map; version 1 has none.
pub fn flags(map: &[u8]) -> u8
    ensures { result ≡ flags_of map.now }
{
    if version(map) == FLAGGED {
        byte_at(map, HEAD_SIZE)
    } else {
        0
    }
}

// How many registers the map says that it has.
pub fn count(map: &[u8]) -> usize
    ensures { result ≡ count_of map.now }
{
    u16::from_be_bytes([byte_at(map, 3), byte_at(map, 4)]) as usize
}
