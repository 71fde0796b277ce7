// The chips that are read and sent to: the newer ones, and the older clock chips (document 02, Ask 1).
#![tactic(auto)]

ghost use Rattle.std.specs.Prelude.{◌≡◌};
ghost use Rattle.base_chip.specs.Chip.{is_newer, part_reads_buffer, reads_buffer, top_good};

// The control registers of a newer chip: configuration A and B, and the transfer.
pub const CONFIGURATION_A: u16 = 0x0000;

pub const CONFIGURATION_B: u16 = 0x0001;

pub const TRANSFER: u16 = 0x000F;

// Those of an older one: the bit order, what stage the AD9557 reads, and the transfer.
pub const SERIAL_CONTROL: u16 = 0x0000;

pub const READBACK_CONTROL: u16 = 0x0004;

pub const OLDER_TRANSFER: u16 = 0x0005;

// The older parts. They differ in one thing: the AD9557 can read the buffer stage.
#[derive(Clone, Copy, Debug, PartialEq, Eq)]
pub enum Part {
    Ad9557,
    Ad9508,
}

// A newer chip, or an older part with the highest address that it has. The address is as wide as a caller can name it.
#[derive(Clone, Copy, Debug, PartialEq, Eq)]
pub enum Chip {
    Newer,
    Older { part: Part, top: u64 },
}

// Whether a chip is one of the newer ones.
pub fn is_newer(chip: Chip) -> bool
    ensures { result ≡ is_newer chip }
{
    matches!(chip, Chip::Newer)
}

// Whether an older part can read the buffer stage.
pub fn part_reads_buffer(part: Part) -> bool
    ensures { result ≡ part_reads_buffer part }
{
    matches!(part, Part::Ad9557)
}

// Whether buffer readback, if it is set, counts on a chip.
pub fn reads_buffer(chip: Chip) -> bool
    ensures { result ≡ reads_buffer chip }
{
    match chip {
        Chip::Newer => true,
        Chip::Older { part, .. } => part_reads_buffer(part),
    }
}

// Whether the highest address of an older part is one that an older part can have.
pub fn top_good(chip: Chip) -> bool
    ensures { result ≡ top_good chip }
{
    match chip {
        Chip::Newer => true,
        Chip::Older { top, .. } => (0x000F <= top) & (top <= 0x1FFF),
    }
}
