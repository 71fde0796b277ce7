// What a sample completes.
ghost use Rattle.std.specs.Prelude.{◌≡◌};
ghost use Rattle.bus_session.specs.State.{is_data, PortBounds};
ghost use Rattle.bus_session.specs.Event.{event_of};

use crate::step::{data_line, may_stall, takes_bit};
use crate::{CSB, Event, Phase, Port};
use base_bits::{bit_at, shift_in};
use base_chip::Chip;

// Whether the phase is data.
pub fn is_data(phase: Phase) -> bool
    ensures { result ≡ is_data phase }
{
    matches!(phase, Phase::Data)
}

impl Port {
    // What the sample completes: the eighth bit of data makes a byte whole, and the end of a frame breaks off what has bits.
    pub fn event(self, chip: Chip, sample: u8) -> Event
        requires { PortBounds self }
        ensures { result ≡ event_of chip self sample }
    {
        let data = is_data(self.phase);
        if takes_bit(self.csb, self.sclk, sample) {
            if !data | (self.bits < 7) {
                return Event::Nothing;
            }
            let bit = data_line(self.read, self.in_use.counting(chip).sdo_active, sample);
            let value = shift_in(self.in_use.lsb_first, self.value, self.bits, bit);
            return Event::Whole {
                read: self.read,
                address: self.address,
                byte: value as u8,
            };
        }
        let rises = !self.csb & bit_at(sample, CSB);
        if !rises | may_stall(self.left, self.bits) {
            return Event::Nothing;
        }
        if self.bits == 0 {
            return Event::Ended;
        }
        Event::Aborted {
            address: self.address,
            bits: self.bits,
            data,
        }
    }
}
