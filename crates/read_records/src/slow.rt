// How many records are writes that ask for the slow setting, which is gone.
ghost use Rattle.std.specs.Prelude.{◌≡◌, ◌≤◌, length};
ghost use Rattle.base_sizes.specs.Sizes.{record_size};
ghost use Rattle.read_records.specs.Slow.{asks_slow, slow_of};

use crate::RecordKind;
use base_bits::bit_at;
use base_chip::CONFIGURATION_B;
use base_sizes::RECORD;
use bus_settings::SLOW_BIT;

// Whether the record at the start of a slice is such a write: to 0x0001, with bit 4 set.
fn asks_slow(bytes: &[u8]) -> bool
    requires { record_size ≤ length bytes.now }
    ensures { result ≡ asks_slow bytes.now }
{
    let address = u16::from_be_bytes([bytes[1], bytes[2]]);
    (bytes[0] == RecordKind::Write as u8)
        & (address == CONFIGURATION_B)
        & bit_at(bytes[3], SLOW_BIT)
}

// How many of the records are such writes.
pub fn count_slow(records: &[u8]) -> usize
    ensures { result ≡ slow_of records.now }
{
    let mut slow = 0;
    for record in records.chunks_exact(RECORD) {
        slow += asks_slow(record) as usize;
    }
    slow
}
