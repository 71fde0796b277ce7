// The calls on the words of touched registers (document 02, Ask 7), for hosts.
ghost use Rattle.std.specs.Prelude.{◌≡◌};
ghost use Rattle.reg_touched.specs.Calls.{marking, mark_of, touched_count, touched_count_of, searching, search_of};

use crate::told;
use base_numbers::number_of;
use reg_touched::mark;

// Clears the bit of every register. A refusal is 16, for more than 128 words, and leaves them as they were.
#[unsafe(no_mangle)]
pub extern "C" fn couplingnut_touched_mark(words: &mut [u64]) -> u32
    ensures { marking result words.new ≡ mark_of words.old }
{
    number_of(mark(words)) as u32
}

// Says how many registers were touched. A refusal, 16, says 0.
#[unsafe(no_mangle)]
pub extern "C" fn couplingnut_touched_count(words: &[u64], count: &mut u64) -> u32
    ensures { touched_count result count.new ≡ touched_count_of words.now }
{
    let counted = reg_touched::count(words);
    told(counted, count)
}

// Says which register was touched next from an address on, that one included, or 64 times the number of words if none was. A refusal,
// 16, says 0.
#[unsafe(no_mangle)]
pub extern "C" fn couplingnut_touched_next(words: &[u64], from: u64, address: &mut u64) -> u32
    ensures { searching result address.new ≡ search_of words.now from }
{
    let found = reg_touched::next(words, from);
    told(found, address)
}
