// The byte that is due at a read. A read changes no register.
ghost use Rattle.std.specs.Prelude.{◌≡◌};
ghost use Rattle.reg_banks.specs.Banks.{banks, Mapped};
ghost use Rattle.reg_banks.specs.Read.{due_byte};

use base_chip::{Chip, reads_buffer};
use bus_settings::Settings;
use map_format::{BLANK, BUFFERED, CONTROL, entry_at};

// The byte that a read of the register at an address is due.
pub fn due_byte(
    chip: Chip,
    map: &[u8],
    active: &[u8],
    buffer: &[u8],
    settings: Settings,
    address: u16,
) -> u8
    requires { Mapped map.now (banks active.now buffer.now) }
    ensures { result ≡ due_byte chip map.now (banks active.now buffer.now) settings address }
{
    let at = address as usize;
    let kind = entry_at(map, active.len(), at).kind;
    if kind == BLANK {
        return 0;
    }
    if kind == CONTROL {
        return settings.reading(chip, address);
    }
    if (kind == BUFFERED) & (settings.readback & reads_buffer(chip)) {
        return buffer[at];
    }
    active[at]
}
