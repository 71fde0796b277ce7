// The reader's calls as a host makes them, on any chip: a session crosses as its bytes, which the crate `bus_session_bytes` puts together
// and takes apart.
#![tactic(auto)]

ghost use Rattle.std.specs.Prelude.{◌≡◌};
ghost use Rattle.reg_banks.specs.Banks.{banks};
ghost use Rattle.host_calls.specs.Calls.{host_opening, host_open_of, host_outcome, host_read_of, host_next, host_next_of};

use base_chip::Chip;
use base_numbers::{Refusal, number_of};
use bus_session_bytes::{SIZE, are_session, bytes_of, session_of};
use bus_soundness::opened;
use read_calls::{open_on, read_on};
use read_next::{NextRecord, next_on};

// Puts each default in both banks. The opened session is handed back always; a refusal leaves the banks as they were.
pub fn open(
    chip: Chip,
    map: &[u8],
    session: &mut [u8; SIZE],
    active: &mut [u8],
    buffer: &mut [u8],
) -> u32
    ensures { host_opening result session.new (banks active.new buffer.new)
        ≡ host_open_of chip map.now (banks active.old buffer.old) }
{
    let mut fresh = opened();
    let opening = open_on(chip, map, &mut fresh, active, buffer);
    *session = bytes_of(fresh);
    number_of(opening) as u32
}

// Reads samples: the session, the banks and the words that they lead to, and how many records they gave, from the record buffer's start. A
// refusal says 0 records and leaves all as it was; bytes that are no session are refused with 1.
pub fn read(
    chip: Chip,
    map: &[u8],
    session: &mut [u8; SIZE],
    active: &mut [u8],
    buffer: &mut [u8],
    words: &mut [u64],
    samples: &[u8],
    records: &mut [u8],
    count: &mut u64,
) -> u32
    ensures { host_outcome result session.new (banks active.new buffer.new) words.new count.new
        records.new
        ≡ host_read_of chip map.now session.old (banks active.old buffer.old) words.old
        samples.now records.old }
{
    if !are_session(session) {
        *count = 0;
        return u8::from(Refusal::BadSession) as u32;
    }
    let given = &mut session_of(session);
    let answer = read_on(chip, map, given, active, buffer, words, samples, records);
    *session = bytes_of(*given);
    *count = answer.unwrap_or(0) as u64;
    number_of(answer) as u32
}

// Reads samples up to and with the first that gives a record, or all of them, and says how many it read. A refusal says that none
// was, and leaves all as it was.
pub fn next_record(
    chip: Chip,
    map: &[u8],
    session: &mut [u8; SIZE],
    active: &mut [u8],
    buffer: &mut [u8],
    words: &mut [u64],
    samples: &[u8],
    records: &mut [u8],
    count: &mut u64,
    taken: &mut u64,
) -> u32
    ensures { host_next
        (host_outcome result session.new (banks active.new buffer.new) words.new count.new records.new)
        taken.new
        ≡ host_next_of chip map.now session.old (banks active.old buffer.old) words.old
        samples.now records.old }
{
    if !are_session(session) {
        *count = 0;
        *taken = 0;
        return u8::from(Refusal::BadSession) as u32;
    }
    let given = &mut session_of(session);
    let found = next_on(chip, map, given, active, buffer, words, samples, records);
    *session = bytes_of(*given);
    let next = found.unwrap_or(NextRecord { count: 0, taken: 0 });
    *count = next.count as u64;
    *taken = next.taken as u64;
    number_of(found) as u32
}
