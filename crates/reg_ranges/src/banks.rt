// Defaults and transfer, done by the rules for two banks: one range is lent after the other, or the memory is cut between the two.
ghost use Rattle.std.specs.Prelude.{◌≡◌};
ghost use Rattle.reg_banks.specs.Banks.{default_banks, transferred};
ghost use Rattle.reg_ranges.specs.Ranges.{banks_in, placed, RangesWithin};

use crate::Ranges;
use reg_banks::{put_defaults, transfer};

// Puts each default in both ranges: opening, and a soft reset.
pub fn reset_within(map: &[u8], memory: &mut [u8], ranges: Ranges)
    requires { RangesWithin map.now memory.old ranges.n ranges.active ranges.buffer }
    ensures { memory.new ≡ placed memory.old ranges.active ranges.buffer (default_banks map.now) }
{
    let Ranges { n, active, buffer } = ranges;
    put_defaults(map, &mut memory[active..active + n]);
    put_defaults(map, &mut memory[buffer..buffer + n]);
}

// Moves the byte of each buffered register from the buffer range to the active one.
pub fn transfer_within(map: &[u8], memory: &mut [u8], ranges: Ranges)
    requires { RangesWithin map.now memory.old ranges.n ranges.active ranges.buffer }
    ensures { memory.new
        ≡ placed memory.old ranges.active ranges.buffer
        (transferred map.now (banks_in memory.old ranges.n ranges.active ranges.buffer)) }
{
    let Ranges { n, active, buffer } = ranges;
    if active < buffer {
        let (low, high) = memory.split_at_mut(buffer);
        transfer(map, &mut low[active..active + n], &high[..n]);
        return;
    }
    let (low, high) = memory.split_at_mut(active);
    transfer(map, &mut high[..n], &low[buffer..buffer + n]);
}
