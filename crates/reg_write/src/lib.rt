// The write of one register: its effect is decided first, then applied to the two banks and answered.
#![tactic(auto)]

ghost use Rattle.std.specs.Prelude.{◌≡◌, cond, ◌<◌, length};
ghost use Rattle.reg_banks.specs.Banks.{banks, Mapped};
ghost use Rattle.reg_write.specs.Write.{stages_at, effect_at, with_byte, applied, ByteBelow, touches_on, written, control_written, written_by, Wrote};

mod rise;
mod rule;

use base_chip::Chip;
use bus_settings::Settings;
use map_format::entry_at;
use reg_banks::{reset, transfer};
pub use rise::{armed_on, end_frame, moves_at_rise};
pub use rule::effect_of;

// The numbers of the effects: none; the active byte of a register was written; its buffer byte was; a control register; a transfer; a
// soft reset. Numbers and no enum: a record carries them to C, and the theorems on records are of these numbers.
const EFFECT_NONE: u8 = 0;

const EFFECT_ACTIVE: u8 = 1;

const EFFECT_BUFFER: u8 = 2;

const EFFECT_CONTROL: u8 = 3;

const EFFECT_TRANSFER: u8 = 4;

const EFFECT_RESET: u8 = 5;

// What a write does to the registers.
#[derive(Clone, Copy, Debug, PartialEq, Eq)]
pub enum Effect {
    Nothing,
    // The active byte at an address becomes this one, or the buffer byte if the register is buffered; these bits of it differ from the
    // old one. (The address goes with it for the reader's speed too: an effect of four bytes is returned as one word.)
    Byte {
        buffered: bool,
        address: u16,
        byte: u8,
        moved: u8,
    },
    // Settings alone may change.
    Control,
    // Every buffered register's active byte takes its buffer byte.
    Transfer,
    // Every default goes into both banks.
    Reset,
    // A byte to 0x0000 that is not its own mirror: nothing changes.
    Ignored,
}

// What the write of one register answers: the byte to record, the number of the effect, and the bits of the byte that moved.
#[derive(Clone, Copy, Debug, PartialEq, Eq)]
pub struct Written {
    pub byte: u8,
    pub effect: u8,
    pub moved: u8,
}

// Whether the effect of this number is on the byte of one register, which is then touched.
pub fn touches(effect: u8) -> bool
    ensures { result ≡ touches_on effect }
{
    (effect == EFFECT_ACTIVE) | (effect == EFFECT_BUFFER)
}

// The bytes of one register in both stages.
#[derive(Clone, Copy, Debug, PartialEq, Eq)]
pub struct Stages {
    pub active: u8,
    pub buffer: u8,
}

// The first byte if so, else the second. A caller for whom neither can be predicted has no branch this way.
fn one_of(first: bool, a: u8, b: u8) -> u8
    ensures { result ≡ cond first a b }
{
    if first { a } else { b }
}

// The bytes at an address of the two banks.
fn stages_at(active: &[u8], buffer: &[u8], at: usize) -> Stages
    requires { (length buffer.now ≡ length active.now) × (at < length active.now) }
    ensures { result ≡ stages_at (banks active.now buffer.now) at }
{
    Stages {
        active: active[at],
        buffer: buffer[at],
    }
}

// What a write that changes nothing answers, with the byte to record.
fn untaken(byte: u8) -> Written
    ensures { result ≡ written byte 0 0 }
{
    Written {
        byte,
        effect: EFFECT_NONE,
        moved: 0,
    }
}

// What a write of v to a control register answers: its reading afterwards, and the number of the effect.
fn control_answer(chip: Chip, settings: Settings, address: u16, v: u8, effect: u8) -> Written
    ensures { result ≡ control_written chip settings address v effect }
{
    // Field by field, so that a write to any other register copies no settings.
    let before = Settings {
        lsb_first: settings.lsb_first,
        ascending: settings.ascending,
        sdo_active: settings.sdo_active,
        single_instruction: settings.single_instruction,
        readback: settings.readback,
    };
    let after = before.after(chip, address, v);
    Written {
        byte: after.reading(chip, address),
        effect,
        moved: 0,
    }
}

// What a write of v to the register at an address does. Nothing changes yet.
pub fn effect_at(
    chip: Chip,
    map: &[u8],
    active: &[u8],
    buffer: &[u8],
    address: u16,
    v: u8,
) -> Effect
    requires { Mapped map.now (banks active.now buffer.now) }
    ensures { result ≡ effect_at chip map.now (banks active.now buffer.now) address v }
{
    let at = address as usize;
    // Beyond the banks a register is blank.
    if active.len() <= at {
        return Effect::Nothing;
    }
    let register = entry_at(map, active.len(), at);
    let stages = stages_at(active, buffer, at);
    effect_of(chip, register, stages, address, v)
}

// Puts a byte into one stage of a register. Which of the two comes next can't be predicted, so that there is no branch between them:
// both banks are stored to, one of them what it had.
fn put_byte(active: &mut [u8], buffer: &mut [u8], at: usize, buffered: bool, byte: u8)
    requires { (length buffer.old ≡ length active.old) × (at < length active.old) }
    ensures { banks active.new buffer.new
        ≡ with_byte buffered (banks active.old buffer.old) at byte }
{
    let before = stages_at(active, buffer, at);
    active[at] = one_of(buffered, before.active, byte);
    buffer[at] = one_of(buffered, byte, before.buffer);
}

// Does an effect to the two banks.
fn apply(map: &[u8], active: &mut [u8], buffer: &mut [u8], effect: Effect)
    requires { (Mapped map.now (banks active.old buffer.old)) × (ByteBelow (length active.old) effect) }
    ensures { banks active.new buffer.new
        ≡ applied map.now (banks active.old buffer.old) effect }
{
    match effect {
        Effect::Nothing | Effect::Control | Effect::Ignored => {}
        Effect::Byte {
            buffered,
            address,
            byte,
            ..
        } => {
            put_byte(active, buffer, address as usize, buffered, byte);
        }
        Effect::Transfer => {
            transfer(map, active, buffer);
        }
        Effect::Reset => {
            reset(map, active, buffer);
        }
    }
}

// What a write of v answers, by its effect and the settings before it.
pub fn answer(chip: Chip, settings: Settings, address: u16, v: u8, effect: Effect) -> Written
    ensures { result ≡ written_by chip settings address v effect }
{
    match effect {
        Effect::Nothing => untaken(0),
        Effect::Byte {
            buffered,
            byte,
            moved,
            ..
        } => Written {
            byte,
            effect: one_of(buffered, EFFECT_BUFFER, EFFECT_ACTIVE),
            moved,
        },
        Effect::Control => control_answer(chip, settings, address, v, EFFECT_CONTROL),
        Effect::Transfer => control_answer(chip, settings, address, v, EFFECT_TRANSFER),
        Effect::Reset => control_answer(chip, settings, address, v, EFFECT_RESET),
        Effect::Ignored => untaken(settings.reading(chip, address)),
    }
}

// Writes v to the register at an address. The settings are those before the write.
pub fn write(
    chip: Chip,
    map: &[u8],
    active: &mut [u8],
    buffer: &mut [u8],
    settings: Settings,
    address: u16,
    v: u8,
) -> Written
    requires { Mapped map.now (banks active.old buffer.old) }
    ensures { Wrote chip map.now (banks active.old buffer.old) settings address v result
        (banks active.new buffer.new) }
{
    let effect = effect_at(chip, map, active, buffer, address, v);
    apply(map, active, buffer, effect);
    answer(chip, settings, address, v, effect)
}
