// The reader's calls, for hosts: opening, reading and the next record, with the session as bytes.
ghost use Rattle.std.specs.Prelude.{◌≡◌};
ghost use Rattle.base_chip.specs.declared.Part.TheVariants.{Ad9557, Ad9508};
ghost use Rattle.base_chip.specs.declared.Chip.TheVariants.{Newer, Older};
ghost use Rattle.reg_banks.specs.Banks.{banks};
ghost use Rattle.host_calls.specs.Calls.{host_opening, host_open_of, host_outcome, host_read_of, host_next, host_next_of};

use base_chip::{Chip, Part};
use bus_session_bytes::SIZE;
use host_calls::{next_record, open, read};

// Puts each default in both banks. The opened session is handed back always; a refusal, 2 to 4, leaves the banks as they were.
#[unsafe(no_mangle)]
pub extern "C" fn couplingnut_open(
    map: &[u8],
    session: &mut [u8; SIZE],
    active: &mut [u8],
    buffer: &mut [u8],
) -> u32
    ensures { host_opening result session.new (banks active.new buffer.new)
        ≡ host_open_of Newer map.now (banks active.old buffer.old) }
{
    open(Chip::Newer, map, session, active, buffer)
}

// The same for the AD9557 whose highest address is top. A refusal may also be 12, after 4.
#[unsafe(no_mangle)]
pub extern "C" fn couplingnut_open_ad9557(
    top: u64,
    map: &[u8],
    session: &mut [u8; SIZE],
    active: &mut [u8],
    buffer: &mut [u8],
) -> u32
    ensures { host_opening result session.new (banks active.new buffer.new)
        ≡ host_open_of (Older Ad9557 top) map.now (banks active.old buffer.old) }
{
    let chip = Chip::Older {
        part: Part::Ad9557,
        top,
    };
    open(chip, map, session, active, buffer)
}

// The same for the AD9508.
#[unsafe(no_mangle)]
pub extern "C" fn couplingnut_open_ad9508(
    top: u64,
    map: &[u8],
    session: &mut [u8; SIZE],
    active: &mut [u8],
    buffer: &mut [u8],
) -> u32
    ensures { host_opening result session.new (banks active.new buffer.new)
        ≡ host_open_of (Older Ad9508 top) map.now (banks active.old buffer.old) }
{
    let chip = Chip::Older {
        part: Part::Ad9508,
        top,
    };
    open(chip, map, session, active, buffer)
}

// Reads samples: the session and the banks that they lead to, and how many records they gave, from the record buffer's start. A
// refusal, 1 to 6, says 0 records and leaves all as it was.
#[unsafe(no_mangle)]
pub extern "C" fn couplingnut_read(
    map: &[u8],
    session: &mut [u8; SIZE],
    active: &mut [u8],
    buffer: &mut [u8],
    words: &mut [u64],
    samples: &[u8],
    records: &mut [u8],
    count: &mut u64,
) -> u32
    ensures { host_outcome result session.new (banks active.new buffer.new) words.new count.new
        records.new
        ≡ host_read_of Newer map.now session.old (banks active.old buffer.old)
        words.old samples.now records.old }
{
    read(
        Chip::Newer,
        map,
        session,
        active,
        buffer,
        words,
        samples,
        records,
        count,
    )
}

// The same for the AD9557 whose highest address is top. A refusal may also be 12, after 4.
#[unsafe(no_mangle)]
pub extern "C" fn couplingnut_read_ad9557(
    top: u64,
    map: &[u8],
    session: &mut [u8; SIZE],
    active: &mut [u8],
    buffer: &mut [u8],
    words: &mut [u64],
    samples: &[u8],
    records: &mut [u8],
    count: &mut u64,
) -> u32
    ensures { host_outcome result session.new (banks active.new buffer.new) words.new count.new
        records.new
        ≡ host_read_of (Older Ad9557 top) map.now session.old (banks active.old buffer.old)
        words.old samples.now records.old }
{
    let chip = Chip::Older {
        part: Part::Ad9557,
        top,
    };
    read(
        chip, map, session, active, buffer, words, samples, records, count,
    )
}

// The same for the AD9508.
#[unsafe(no_mangle)]
pub extern "C" fn couplingnut_read_ad9508(
    top: u64,
    map: &[u8],
    session: &mut [u8; SIZE],
    active: &mut [u8],
    buffer: &mut [u8],
    words: &mut [u64],
    samples: &[u8],
    records: &mut [u8],
    count: &mut u64,
) -> u32
    ensures { host_outcome result session.new (banks active.new buffer.new) words.new count.new
        records.new
        ≡ host_read_of (Older Ad9508 top) map.now session.old (banks active.old buffer.old)
        words.old samples.now records.old }
{
    let chip = Chip::Older {
        part: Part::Ad9508,
        top,
    };
    read(
        chip, map, session, active, buffer, words, samples, records, count,
    )
}

// Reads samples up to and with the first that gives a record, or all of them, and says how many it read. A refusal says that none
// was, and leaves all as it was.
#[unsafe(no_mangle)]
pub extern "C" fn couplingnut_next_record(
    map: &[u8],
    session: &mut [u8; SIZE],
    active: &mut [u8],
    buffer: &mut [u8],
    words: &mut [u64],
    samples: &[u8],
    records: &mut [u8],
    count: &mut u64,
    taken: &mut u64,
) -> u32
    ensures { host_next
        (host_outcome result session.new (banks active.new buffer.new) words.new count.new records.new)
        taken.new
        ≡ host_next_of Newer map.now session.old (banks active.old buffer.old)
        words.old samples.now records.old }
{
    next_record(
        Chip::Newer,
        map,
        session,
        active,
        buffer,
        words,
        samples,
        records,
        count,
        taken,
    )
}

// The same for the AD9557 whose highest address is top. A refusal may also be 12, after 4.
#[unsafe(no_mangle)]
pub extern "C" fn couplingnut_next_record_ad9557(
    top: u64,
    map: &[u8],
    session: &mut [u8; SIZE],
    active: &mut [u8],
    buffer: &mut [u8],
    words: &mut [u64],
    samples: &[u8],
    records: &mut [u8],
    count: &mut u64,
    taken: &mut u64,
) -> u32
    ensures { host_next
        (host_outcome result session.new (banks active.new buffer.new) words.new count.new records.new)
        taken.new
        ≡ host_next_of (Older Ad9557 top) map.now session.old (banks active.old buffer.old)
        words.old samples.now records.old }
{
    let chip = Chip::Older {
        part: Part::Ad9557,
        top,
    };
    next_record(
        chip, map, session, active, buffer, words, samples, records, count, taken,
    )
}

// The same for the AD9508.
#[unsafe(no_mangle)]
pub extern "C" fn couplingnut_next_record_ad9508(
    top: u64,
    map: &[u8],
    session: &mut [u8; SIZE],
    active: &mut [u8],
    buffer: &mut [u8],
    words: &mut [u64],
    samples: &[u8],
    records: &mut [u8],
    count: &mut u64,
    taken: &mut u64,
) -> u32
    ensures { host_next
        (host_outcome result session.new (banks active.new buffer.new) words.new count.new records.new)
        taken.new
        ≡ host_next_of (Older Ad9508 top) map.now session.old (banks active.old buffer.old)
        words.old samples.now records.old }
{
    let chip = Chip::Older {
        part: Part::Ad9508,
        top,
    };
    next_record(
        chip, map, session, active, buffer, words, samples, records, count, taken,
    )
}
