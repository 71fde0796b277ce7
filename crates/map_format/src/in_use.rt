// A map in use: it refers to the lent map bytes and copies none of them.
ghost use Rattle.std.specs.Prelude.{◌≡◌, cond, ◌+◌, ltb};
ghost use Rattle.base_bits.specs.Bytes.{byte_at};
ghost use Rattle.map_format.specs.Format.{entry_start, entry_at};

use crate::{ENTRY_SIZE, Entry, byte_at, head};

// The lent bytes of a map, and n.
#[derive(Clone, Copy)]
pub struct RegisterMap<'a> {
    pub bytes: &'a [u8],
    pub count: usize,
}

impl<'a> RegisterMap<'a> {
    // A byte of the entry at an address, counted from the entry's first; 0 beyond the map's registers.
    fn part(self, address: usize, part: u8) -> u8
        ensures { result ≡ cond (ltb address self.entry.count) (byte_at self.entry.bytes.now (entry_start self.entry.bytes.now address + part)) 0 }
    {
        if self.count <= address {
            return 0;
        }
        // No slice reaches the entry at such an address, and its place may not fit a usize.
        if 0x4000_0000_0000_0000 <= address {
            return 0;
        }
        byte_at(
            self.bytes,
            head(self.bytes) + ENTRY_SIZE * address + part as usize,
        )
    }

    // The kind of the register at an address.
    pub fn kind(self, address: usize) -> u8
        ensures { result ≡ (entry_at self.entry.bytes.now self.entry.count address).kind }
    {
        self.part(address, 0)
    }

    // The mask of the register at an address.
    pub fn mask(self, address: usize) -> u8
        ensures { result ≡ (entry_at self.entry.bytes.now self.entry.count address).mask }
    {
        self.part(address, 1)
    }

    // The default of the register at an address.
    pub fn default(self, address: usize) -> u8
        ensures { result ≡ (entry_at self.entry.bytes.now self.entry.count address).default }
    {
        self.part(address, 2)
    }
}

// The entry at an address of a map of `count` registers; blank beyond them.
pub fn entry_at(map: &[u8], count: usize, address: usize) -> Entry
    ensures { result ≡ entry_at map.now count address }
{
    let in_use = RegisterMap { bytes: map, count };
    Entry {
        kind: in_use.kind(address),
        mask: in_use.mask(address),
        default: in_use.default(address),
    }
}
