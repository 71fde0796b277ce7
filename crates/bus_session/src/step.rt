// The next port after one sample.
ghost use Rattle.std.specs.Prelude.{◌≡◌, cond, not, ◌&&◌, ◌||◌, ◌-◌, ◌<◌, eqb};
ghost use Rattle.bus_settings.specs.Settings.{settings_after};
ghost use Rattle.bus_session.specs.declared.Phase.TheVariants.{Data};
ghost use Rattle.bus_session.specs.State.{is_counted, PortBounds};
ghost use Rattle.bus_session.specs.Step.{csb_of, sclk_of, sdio_of, sdo_of, entered, with_instruction_bit, runs_out, after_byte, with_data_bit, step_of};

use crate::state::{in_data, instructing, passing, resting, starting};
use crate::{CSB, Phase, Port, SCLK, SDIO, SDO};
use base_bits::{bit_at, shift_in};
use base_chip::Chip;
use bus_settings::{InUse, Settings, next_address};

// Whether the sample gives one bit, by the levels before it.
pub fn takes_bit(csb: bool, sclk: bool, sample: u8) -> bool
    ensures { result ≡ (not csb && not (csb_of sample) && not sclk && sclk_of sample) }
{
    !csb & !bit_at(sample, CSB) & !sclk & bit_at(sample, SCLK)
}

// The level that a bit of data is read from.
pub(crate) fn data_line(read: bool, sdo_active: bool, sample: u8) -> bool
    ensures { result ≡ cond (read && sdo_active) (sdo_of sample) (sdio_of sample) }
{
    if read & sdo_active {
        bit_at(sample, SDO)
    } else {
        bit_at(sample, SDIO)
    }
}

// The settings after a whole byte v at an address: a read changes none.
fn settings_on_byte(chip: Chip, settings: Settings, read: bool, address: u16, v: u8) -> Settings
    ensures { result ≡ cond read settings (settings_after chip settings address v) }
{
    if read {
        return settings;
    }
    settings.after(chip, address, v)
}

// Whether so many bytes left are those of a run that is counted.
pub fn is_counted(left: u8) -> bool
    ensures { result ≡ is_counted left }
{
    (1 <= left) & (left <= 3)
}

// Whether the select may rise here and the run resume: before a data byte of a run that is counted.
pub fn may_stall(left: u8, bits: u8) -> bool
    ensures { result ≡ (is_counted left && eqb bits 0) }
{
    is_counted(left) & (bits == 0)
}

// The port after a whole instruction.
fn entered(chip: Chip, value: u16, settings: Settings, in_use: InUse) -> Port
    ensures { result ≡ entered chip value settings in_use }
{
    match chip {
        Chip::Newer => in_data(
            true,
            0,
            0,
            value % 0x8000,
            0x8000 <= value,
            0,
            settings,
            in_use,
        ),
        Chip::Older { top, .. } => {
            let start = value % 0x2000;
            if (start as u64) <= top {
                let left = (value / 0x2000 % 4 + 1) as u8;
                return in_data(true, 0, 0, start, 0x8000 <= value, left, settings, in_use);
            }
            passing(true, settings)
        }
    }
}

// Whether a run ends with the byte at an address, of so many that are left.
pub fn runs_out(chip: Chip, left: u8, address: u16, lsb_first: bool) -> bool
    ensures { result ≡ runs_out chip left address lsb_first }
{
    match chip {
        Chip::Newer => false,
        Chip::Older { top, .. } => {
            if lsb_first {
                return (left == 1) | ((address as u64) == top);
            }
            (left == 1) | (address == 0)
        }
    }
}

// How many bytes are left after one.
pub fn left_after(left: u8) -> u8
    ensures { result ≡ cond (is_counted left) (left - 1) left }
{
    if is_counted(left) { left - 1 } else { left }
}

impl Port {
    // With one more bit of an instruction.
    fn with_instruction_bit(self, chip: Chip, bit: bool) -> Port
        requires { PortBounds self }
        ensures { result ≡ with_instruction_bit chip self bit }
    {
        let value = shift_in(self.in_use.lsb_first, self.value, self.bits, bit);
        let settings = self.settings;
        let in_use = self.in_use;
        if self.bits < 15 {
            return instructing(true, self.bits + 1, value, settings, in_use);
        }
        entered(chip, value, settings, in_use)
    }

    // After a whole byte, under the settings as they now stand: a new instruction, bits to pass over, or data at the next address.
    fn after_byte(self, chip: Chip, settings: Settings) -> Port
        requires { self.address < 0x8000 }
        ensures { result ≡ after_byte chip self settings }
    {
        let in_use = self.in_use;
        let counting = in_use.counting(chip);
        if counting.single_instruction {
            return starting(true, settings);
        }
        if runs_out(chip, self.left, self.address, self.in_use.lsb_first) {
            return passing(true, settings);
        }
        let next = next_address(counting.ascending, self.address);
        in_data(
            true,
            0,
            0,
            next,
            self.read,
            left_after(self.left),
            settings,
            in_use,
        )
    }

    // With one more bit of data.
    fn with_data_bit(self, chip: Chip, bit: bool) -> Port
        requires { (PortBounds self) × (self.phase ≡ Data) }
        ensures { result ≡ with_data_bit chip self bit }
    {
        let settings = self.settings;
        let in_use = self.in_use;
        let value = shift_in(in_use.lsb_first, self.value, self.bits, bit);
        if self.bits < 7 {
            return in_data(
                true,
                self.bits + 1,
                value,
                self.address,
                self.read,
                self.left,
                settings,
                in_use,
            );
        }
        let settings = settings_on_byte(chip, settings, self.read, self.address, value as u8);
        self.after_byte(chip, settings)
    }

    // The next port. A bit at rest is passed over.
    pub fn step(mut self, chip: Chip, sample: u8) -> Port
        requires { PortBounds self }
        ensures { result ≡ step_of chip self sample }
    {
        let csb_before = self.csb;
        let takes_bit = takes_bit(self.csb, self.sclk, sample);
        self.csb = bit_at(sample, CSB);
        self.sclk = bit_at(sample, SCLK);
        let settings = self.settings;
        if csb_before & !self.csb & (self.left == 0) {
            return starting(self.sclk, settings);
        }
        if takes_bit {
            return match self.phase {
                Phase::Rest => self,
                Phase::Instruction => self.with_instruction_bit(chip, bit_at(sample, SDIO)),
                Phase::Data => {
                    let sdo_active = self.in_use.counting(chip).sdo_active;
                    self.with_data_bit(chip, data_line(self.read, sdo_active, sample))
                }
            };
        }
        if !csb_before & self.csb & !may_stall(self.left, self.bits) {
            return resting(self.sclk, settings);
        }
        self
    }
}
