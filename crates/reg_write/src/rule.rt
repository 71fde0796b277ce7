// What a write does: the writing rule. It decides by the register's entry and its two bytes before, and changes nothing.
ghost use Rattle.std.specs.Prelude.{◌≡◌};
ghost use Rattle.reg_write.specs.Effect.{configuration_effect, control_effect, effect_of};

use crate::{Effect, Stages, one_of};
use base_bits::merge;
use base_card::is_mirror;
use base_chip::{CONFIGURATION_A, Chip, is_newer};
use bus_settings::{asks_reset, transfers_at};
use map_format::{BUFFERED, CONTROL, Entry, PLAIN};

// What a write of v to 0x0000 of a newer chip does.
fn configuration_effect(v: u8) -> Effect
    ensures { result ≡ configuration_effect v }
{
    if is_mirror(v) {
        if asks_reset(v) {
            return Effect::Reset;
        }
        return Effect::Control;
    }
    Effect::Ignored
}

// What a write of v to a control register does.
fn control_effect(chip: Chip, address: u16, v: u8) -> Effect
    ensures { result ≡ control_effect chip address v }
{
    if is_newer(chip) & (address == CONFIGURATION_A) {
        return configuration_effect(v);
    }
    if transfers_at(chip, address, v) {
        return Effect::Transfer;
    }
    Effect::Control
}

// What a write of v to a register does, by its entry and its bytes of both stages.
pub fn effect_of(chip: Chip, register: Entry, stages: Stages, address: u16, v: u8) -> Effect
    ensures { result ≡ effect_of chip register stages address v }
{
    let buffered = register.kind == BUFFERED;
    if (register.kind == PLAIN) | buffered {
        let old = one_of(buffered, stages.buffer, stages.active);
        let byte = merge(old, v, register.mask);
        return Effect::Byte {
            buffered,
            address,
            byte,
            moved: old ^ byte,
        };
    }
    if register.kind == CONTROL {
        return control_effect(chip, address, v);
    }
    Effect::Nothing
}
