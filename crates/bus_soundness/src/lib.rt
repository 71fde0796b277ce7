// Which sessions a call takes, and which one opening hands back.
#![tactic(auto)]

ghost use Rattle.std.specs.Prelude.{◌≡◌, ◌^◌, ltb};
ghost use Rattle.bus_session.specs.State.{length_good, may_arm, sound_port, sound_session};
ghost use Rattle.bus_soundness.specs.Opened.{opened_session};

use base_chip::{Chip, is_newer};
use bus_session::{Phase, Port, STREAMS, Session, is_counted, may_stall, resting};
use bus_settings::{all_clear, none_in_use};

// The session as opening leaves it.
pub fn opened() -> Session
    ensures { result ≡ opened_session }
{
    Session {
        port: resting(false, all_clear()),
        armed: false,
    }
}

// Whether a value is one of so many bits.
fn value_fits(value: u16, bits: u8) -> bool
    ensures { result ≡ ltb value (2 ^ bits) }
{
    if bits < 16 {
        return value >> bits == 0;
    }
    true
}

// Whether a run in data is one that the chip can have: on an older one streaming or 1 to 3 bytes left, at an address up to the top.
fn length_good(chip: Chip, left: u8, address: u16) -> bool
    ensures { result ≡ length_good chip left address }
{
    match chip {
        Chip::Newer => left == 0,
        Chip::Older { top, .. } => {
            (is_counted(left) | (left == STREAMS)) & ((address as u64) <= top)
        }
    }
}

// Whether the port is sound. The list of conditions is complete: a sound port need not be one that samples lead to.
fn sound_port(chip: Chip, port: Port) -> bool
    ensures { result ≡ sound_port chip port }
{
    match port.phase {
        Phase::Rest => {
            (port.csb | !is_newer(chip))
                & (port.bits == 0)
                & (port.value == 0)
                & (port.address == 0)
                & !port.read
                & (port.left == 0)
                & (port.in_use == none_in_use())
        }
        Phase::Instruction => {
            !port.csb
                & (port.bits <= 15)
                & value_fits(port.value, port.bits)
                & (port.address == 0)
                & !port.read
                & (port.left == 0)
        }
        Phase::Data => {
            (!port.csb | may_stall(port.left, port.bits))
                & (port.bits <= 7)
                & value_fits(port.value, port.bits)
                & (port.address <= 0x7FFF)
                & length_good(chip, port.left, port.address)
        }
    }
}

// Whether a session with this port may be armed: inside a frame of a newer chip.
fn may_arm(chip: Chip, port: Port) -> bool
    ensures { result ≡ may_arm chip port }
{
    is_newer(chip) & matches!(port.phase, Phase::Instruction | Phase::Data)
}

// Whether the session is sound: its port is, and it is armed only where it may be.
pub fn sound(chip: Chip, session: Session) -> bool
    ensures { result ≡ sound_session chip session }
{
    let Session { port, armed } = session;
    sound_port(chip, port) & (!armed | may_arm(chip, port))
}
