// The settings of the serial control interface: the five of a session, the four that an instruction has in use, those that count on a
// chip, and which way they send the address. What a write to a control register makes of them, and what it reads as, is in control.rt.
#![tactic(auto)]

ghost use Rattle.std.specs.Prelude.{◌≡◌, ◌<◌};
ghost use Rattle.bus_settings.specs.Settings.{all_clear, none_in_use, in_use_of, counting, next_address};

mod control;

use base_chip::Chip;
pub use control::{SLOW_BIT, asks_reset, transfers_at};

#[derive(Clone, Copy, Debug, Default, PartialEq, Eq)]
pub struct Settings {
    pub lsb_first: bool,
    pub ascending: bool,
    pub sdo_active: bool,
    pub single_instruction: bool,
    pub readback: bool,
}

// The settings in use: those that an instruction took when it started.
#[derive(Clone, Copy, Debug, Default, PartialEq, Eq)]
pub struct InUse {
    pub lsb_first: bool,
    pub ascending: bool,
    pub sdo_active: bool,
    pub single_instruction: bool,
}

// All settings clear, as opening leaves them.
pub fn all_clear() -> Settings
    ensures { result ≡ all_clear }
{
    Settings::default()
}

// The settings in use at rest: none.
pub fn none_in_use() -> InUse
    ensures { result ≡ none_in_use }
{
    InUse::default()
}

impl Settings {
    // The settings that an instruction takes when it starts.
    pub fn in_use(self) -> InUse
        ensures { result ≡ in_use_of self }
    {
        InUse {
            lsb_first: self.lsb_first,
            ascending: self.ascending,
            sdo_active: self.sdo_active,
            single_instruction: self.single_instruction,
        }
    }
}

impl InUse {
    // Those that count on a chip.
    pub fn counting(self, chip: Chip) -> InUse
        ensures { result ≡ counting chip self }
    {
        match chip {
            Chip::Newer => self,
            Chip::Older { .. } => InUse {
                lsb_first: self.lsb_first,
                ascending: self.lsb_first,
                ..none_in_use()
            },
        }
    }
}

// The address after a whole byte.
pub fn next_address(ascending: bool, address: u16) -> u16
    requires { address < 0x8000 }
    ensures { result ≡ next_address ascending address }
{
    if ascending {
        (address + 1) % 0x8000
    } else {
        (address + 0x7FFF) % 0x8000
    }
}
