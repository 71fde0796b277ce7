// The write of one register in its ranges: its effect is decided first, then done to the memory and answered.
ghost use Rattle.std.specs.Prelude.{◌≡◌};
ghost use Rattle.base_chip.specs.declared.Chip.TheVariants.{Newer};
ghost use Rattle.reg_write.specs.Write.{effect_at, applied, ByteBelow};
ghost use Rattle.reg_ranges.specs.Ranges.{banks_in, placed, RangesWithin, WroteWithin};

use crate::{Ranges, reset_within, transfer_within};
use base_chip::Chip;
use bus_settings::Settings;
use reg_write::{Effect, Written, answer, effect_at};

// What a write of v to the register at an address does. Nothing changes yet.
pub fn effect_within(map: &[u8], memory: &[u8], ranges: Ranges, address: u16, v: u8) -> Effect
    requires { RangesWithin map.now memory.now ranges.n ranges.active ranges.buffer }
    ensures { result ≡ effect_at Newer map.now (banks_in memory.now ranges.n ranges.active ranges.buffer) address v }
{
    let Ranges { n, active, buffer } = ranges;
    effect_at(
        Chip::Newer,
        map,
        &memory[active..active + n],
        &memory[buffer..buffer + n],
        address,
        v,
    )
}

// Does an effect to both ranges. It is no twin of reg_write's `apply`, which is private and stores to both banks: here one byte is put.
pub fn apply_within(map: &[u8], memory: &mut [u8], ranges: Ranges, effect: Effect)
    requires { (RangesWithin map.now memory.old ranges.n ranges.active ranges.buffer) × (ByteBelow ranges.n effect) }
    ensures { memory.new
        ≡ placed memory.old ranges.active ranges.buffer
        (applied map.now (banks_in memory.old ranges.n ranges.active ranges.buffer) effect) }
{
    match effect {
        Effect::Nothing => {}
        Effect::Byte {
            buffered,
            address,
            byte,
            moved: _,
        } => {
            let at = address as usize;
            if buffered {
                memory[ranges.buffer + at] = byte;
            } else {
                memory[ranges.active + at] = byte;
            }
        }
        Effect::Control => {}
        Effect::Transfer => {
            transfer_within(map, memory, ranges);
        }
        Effect::Reset => {
            reset_within(map, memory, ranges);
        }
        Effect::Ignored => {}
    }
}

// Writes v to the register at an address. The settings are those before the write.
pub fn write_within(
    map: &[u8],
    memory: &mut [u8],
    ranges: Ranges,
    settings: Settings,
    address: u16,
    v: u8,
) -> Written
    requires { RangesWithin map.now memory.old ranges.n ranges.active ranges.buffer }
    ensures { WroteWithin map.now memory.old ranges.n ranges.active ranges.buffer settings address v result memory.new }
{
    let effect = effect_within(map, memory, ranges, address, v);
    apply_within(map, memory, ranges, effect);
    answer(Chip::Newer, settings, address, v, effect)
}
