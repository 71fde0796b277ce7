// The call that reads several chips on one wire (document 02, Ask 10), for hosts.
ghost use Rattle.std.specs.Prelude.{◌≡◌};
ghost use Rattle.several_chips.specs.Calls.{several_outcome, several_of};

use crate::told;
use several_chips::Member;
use several_read::read_several;

// Reads the samples of all chips: the chips and the bank memory that they lead to, and how many records they gave, from the record
// buffer's start. A refusal says 0 records and leaves all as it was.
#[unsafe(no_mangle)]
pub extern "C" fn couplingnut_read_several(
    map: &[u8],
    chips: &mut [Member],
    memory: &mut [u8],
    samples: &[u8],
    records: &mut [u8],
    count: &mut u64,
) -> u32
    ensures { several_outcome result chips.new memory.new count.new records.new
        ≡ several_of map.now chips.old memory.old samples.now records.old }
{
    told(read_several(map, chips, memory, samples, records), count)
}
