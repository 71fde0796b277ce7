// The ports that a sample leads to, phase by phase. Each is made by `fresh`: a new field changes it.
ghost use Rattle.std.specs.Prelude.{◌≡◌};
ghost use Rattle.bus_session.specs.State.{fresh, with_bits, at_address, idle, resting, passing, instructing, starting, in_data};

use crate::{Phase, Port};
use bus_settings::{InUse, Settings, none_in_use};

// In a phase, with nothing taken. Field by field and not from a default: a new field has to be given here.
fn fresh(csb: bool, sclk: bool, phase: Phase, settings: Settings, in_use: InUse) -> Port
    ensures { result ≡ fresh csb sclk phase settings in_use }
{
    Port {
        csb,
        sclk,
        phase,
        bits: 0,
        value: 0,
        address: 0,
        read: false,
        settings,
        in_use,
        left: 0,
    }
}

impl Port {
    // With some bits of a piece taken.
    fn with_bits(self, bits: u8, value: u16) -> Port
        ensures { result ≡ with_bits self bits value }
    {
        Port {
            bits,
            value,
            ..self
        }
    }

    // At an address, in a direction, with so many bytes left of a run that is counted.
    fn at_address(self, address: u16, read: bool, left: u8) -> Port
        ensures { result ≡ at_address self address read left }
    {
        Port {
            address,
            read,
            left,
            ..self
        }
    }
}

// The zeros of rest, with the last levels.
fn idle(csb: bool, sclk: bool, settings: Settings) -> Port
    ensures { result ≡ idle csb sclk settings }
{
    fresh(csb, sclk, Phase::Rest, settings, none_in_use())
}

// At rest: CSB is high.
pub fn resting(sclk: bool, settings: Settings) -> Port
    ensures { result ≡ resting sclk settings }
{
    idle(true, sclk, settings)
}

// Passing bits over, with the select low.
pub(crate) fn passing(sclk: bool, settings: Settings) -> Port
    ensures { result ≡ passing sclk settings }
{
    idle(false, sclk, settings)
}

// In an instruction, with some of its bits taken.
pub(crate) fn instructing(
    sclk: bool,
    bits: u8,
    value: u16,
    settings: Settings,
    in_use: InUse,
) -> Port
    ensures { result ≡ instructing sclk bits value settings in_use }
{
    fresh(false, sclk, Phase::Instruction, settings, in_use).with_bits(bits, value)
}

// At the start of an instruction, which takes the settings as they stand.
pub(crate) fn starting(sclk: bool, settings: Settings) -> Port
    ensures { result ≡ starting sclk settings }
{
    fresh(false, sclk, Phase::Instruction, settings, settings.in_use())
}

// In the data at an address, with some bits of a byte taken.
pub(crate) fn in_data(
    sclk: bool,
    bits: u8,
    value: u16,
    address: u16,
    read: bool,
    left: u8,
    settings: Settings,
    in_use: InUse,
) -> Port
    ensures { result ≡ in_data sclk bits value address read left settings in_use }
{
    fresh(false, sclk, Phase::Data, settings, in_use)
        .with_bits(bits, value)
        .at_address(address, read, left)
}
