// Transfer when the select rises.
ghost use Rattle.std.specs.Prelude.{◌≡◌};
ghost use Rattle.base_chip.specs.declared.Chip.TheVariants.{Newer};
ghost use Rattle.reg_write.specs.Rise.{rise_banks};
ghost use Rattle.reg_ranges.specs.Ranges.{banks_in, placed, RangesWithin};

use crate::{Ranges, transfer_within};
use base_chip::Chip;
use reg_write::moves_at_rise;

// The end of a frame: of an armed session, the byte of each buffered register moves to the active range.
pub fn end_within(map: &[u8], memory: &mut [u8], ranges: Ranges, armed: bool)
    requires { RangesWithin map.now memory.old ranges.n ranges.active ranges.buffer }
    ensures { memory.new
        ≡ placed memory.old ranges.active ranges.buffer
        (rise_banks Newer map.now armed (banks_in memory.old ranges.n ranges.active ranges.buffer)) }
{
    if armed & moves_at_rise(Chip::Newer, map) {
        transfer_within(map, memory, ranges);
    }
}
