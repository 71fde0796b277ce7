// The byte that is due at a read. A read changes no memory.
ghost use Rattle.std.specs.Prelude.{◌≡◌};
ghost use Rattle.base_chip.specs.declared.Chip.TheVariants.{Newer};
ghost use Rattle.reg_banks.specs.Read.{due_byte};
ghost use Rattle.reg_ranges.specs.Ranges.{banks_in, RangesWithin};

use crate::Ranges;
use base_chip::Chip;
use bus_settings::Settings;
use reg_banks::due_byte;

// The byte that a read of the register at an address is due.
pub fn due_within(map: &[u8], memory: &[u8], ranges: Ranges, settings: Settings, address: u16) -> u8
    requires { RangesWithin map.now memory.now ranges.n ranges.active ranges.buffer }
    ensures { result ≡ due_byte Newer map.now (banks_in memory.now ranges.n ranges.active ranges.buffer) settings address }
{
    let Ranges { n, active, buffer } = ranges;
    due_byte(
        Chip::Newer,
        map,
        &memory[active..active + n],
        &memory[buffer..buffer + n],
        settings,
        address,
    )
}
