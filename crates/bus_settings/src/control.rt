// What a write to a control register makes of the settings, and what a control register reads as.
ghost use Rattle.std.specs.Prelude.{◌≡◌, ◌*◌};
ghost use Rattle.base_bits.specs.Bits.{bit_of};
ghost use Rattle.bus_settings.specs.Settings.{newer_after, older_after, settings_after, newer_reading, older_reading, control_reading, resets, transfers_at};

use crate::Settings;
use base_bits::bit_at;
use base_card::is_mirror;
use base_chip::{
    CONFIGURATION_A, CONFIGURATION_B, Chip, OLDER_TRANSFER, Part, READBACK_CONTROL, SERIAL_CONTROL,
    TRANSFER, part_reads_buffer,
};

// The bits of configuration A, which has each setting twice: of each pair the higher one. An older chip has LSB first at the same bit.
const RESET_BIT: u8 = 7;

const LSB_FIRST_BIT: u8 = 6;

const ASCENDING_BIT: u8 = 5;

const SDO_ACTIVE_BIT: u8 = 4;

// Those of configuration B. Slow is no setting.
const SINGLE_INSTRUCTION_BIT: u8 = 7;

const BUFFER_READBACK_BIT: u8 = 5;

pub const SLOW_BIT: u8 = 4;

// That of the transfer, of every chip, and that of the AD9557's readback control.
const TRANSFER_BIT: u8 = 0;

const READBACK_CONTROL_BIT: u8 = 0;

// Whether a byte that takes effect at 0x0000 of a newer chip asks for a soft reset.
pub fn asks_reset(v: u8) -> bool
    ensures { result ≡ resets v }
{
    bit_at(v, RESET_BIT)
}

// Whether a byte written to a control register asks for a transfer.
pub fn transfers_at(chip: Chip, address: u16, v: u8) -> bool
    ensures { result ≡ transfers_at chip address v }
{
    match chip {
        Chip::Newer => (address == TRANSFER) & bit_at(v, TRANSFER_BIT),
        Chip::Older { .. } => (address == OLDER_TRANSFER) & bit_at(v, TRANSFER_BIT),
    }
}

// The mask where a setting is on, else 0.
fn flag(on: bool, mask: u8) -> u8
    ensures { result ≡ bit_of on * mask }
{
    if on { mask } else { 0 }
}

impl Settings {
    // The settings of a newer chip after v is written to an address. At 0x0000 a byte that is not its own mirror changes none.
    fn after_newer(mut self, address: u16, v: u8) -> Settings
        ensures { result ≡ newer_after self address v }
    {
        if address == CONFIGURATION_A {
            if !is_mirror(v) {
                return self;
            }
            self.lsb_first = bit_at(v, LSB_FIRST_BIT);
            self.ascending = bit_at(v, ASCENDING_BIT);
            self.sdo_active = bit_at(v, SDO_ACTIVE_BIT);
            if asks_reset(v) {
                self.single_instruction = false;
                self.readback = false;
            }
            return self;
        }
        if address == CONFIGURATION_B {
            self.single_instruction = bit_at(v, SINGLE_INSTRUCTION_BIT);
            self.readback = bit_at(v, BUFFER_READBACK_BIT);
        }
        self
    }

    // The settings of an older part after v is written to an address.
    fn after_older(mut self, part: Part, address: u16, v: u8) -> Settings
        ensures { result ≡ older_after part self address v }
    {
        if address == SERIAL_CONTROL {
            self.lsb_first = bit_at(v, LSB_FIRST_BIT);
            return self;
        }
        if (address == READBACK_CONTROL) & part_reads_buffer(part) {
            self.readback = bit_at(v, READBACK_CONTROL_BIT);
        }
        self
    }

    // The settings after v is written to an address.
    pub fn after(self, chip: Chip, address: u16, v: u8) -> Settings
        ensures { result ≡ settings_after chip self address v }
    {
        match chip {
            Chip::Newer => self.after_newer(address, v),
            Chip::Older { part, .. } => self.after_older(part, address, v),
        }
    }

    // What the control register of a newer chip at an address reads as.
    fn reading_newer(self, address: u16) -> u8
        ensures { result ≡ newer_reading self address }
    {
        if address == CONFIGURATION_A {
            return flag(self.lsb_first, 0x42)
                + flag(self.ascending, 0x24)
                + flag(self.sdo_active, 0x18);
        }
        if address == CONFIGURATION_B {
            return flag(self.single_instruction, 0x80) + flag(self.readback, 0x20);
        }
        0
    }

    // What the control register of an older part at an address reads as: its one stored bit.
    fn reading_older(self, address: u16) -> u8
        ensures { result ≡ older_reading self address }
    {
        if address == SERIAL_CONTROL {
            return flag(self.lsb_first, 0x40);
        }
        if address == READBACK_CONTROL {
            return flag(self.readback, 0x01);
        }
        0
    }

    // What the control register at an address reads as.
    pub fn reading(self, chip: Chip, address: u16) -> u8
        ensures { result ≡ control_reading chip self address }
    {
        match chip {
            Chip::Newer => self.reading_newer(address),
            Chip::Older { .. } => self.reading_older(address),
        }
    }
}
