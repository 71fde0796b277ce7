// Transfer when the select rises: which writes arm a session, and what the end of its frame does.
ghost use Rattle.std.specs.Prelude.{◌≡◌};
ghost use Rattle.reg_banks.specs.Banks.{banks, Mapped};
ghost use Rattle.reg_write.specs.Rise.{moves_at_rise, armed_on, rise_banks};

use crate::{EFFECT_BUFFER, EFFECT_RESET};
use base_bits::bit_at;
use base_chip::{Chip, is_newer};
use map_format::{RISE_FLAG, flags};
use reg_banks::transfer;

// Whether the end of a frame can move bytes: on a newer chip, with a map that asks for it.
pub fn moves_at_rise(chip: Chip, map: &[u8]) -> bool
    ensures { result ≡ moves_at_rise chip map.now }
{
    is_newer(chip) & bit_at(flags(map), RISE_FLAG)
}

// Whether the session is armed after a write with the effect of this number, by whether the end of a frame can move bytes.
pub fn armed_on(moves: bool, armed: bool, effect: u8) -> bool
    ensures { result ≡ armed_on moves armed effect }
{
    if effect == EFFECT_RESET {
        return false;
    }
    armed | ((effect == EFFECT_BUFFER) & moves)
}

// The end of a frame: of an armed session, the byte of each buffered register moves to the active stage.
pub fn end_frame(chip: Chip, map: &[u8], active: &mut [u8], buffer: &[u8], armed: bool)
    requires { Mapped map.now (banks active.old buffer.now) }
    ensures { banks active.new buffer.now
        ≡ rise_banks chip map.now armed (banks active.old buffer.now) }
{
    if armed {
        if moves_at_rise(chip, map) {
            transfer(map, active, buffer);
        }
    }
}
