// What a list of samples does, in one pass over them from stop to stop: the session, the banks and the words that they lead to, and
// their records, put or only counted.
#![tactic(auto)]

ghost use Rattle.std.specs.Prelude.{◌≡◌};
ghost use Rattle.read_run.specs.Reading.{reader_state};
ghost use Rattle.read_run.specs.Promises.{none_told, run_end, RunBefore, RunAfter};

mod events;
mod scanning;

use crate::events::{pass_byte, pass_end, pass_of};
use crate::scanning::{
    LAST_OF_BYTE, LAST_OF_INSTRUCTION, ScanPort, after_byte, byte_at, clocked, enter, port_of,
    rest, scan, scan_port, scanned, start, with_levels,
};
use base_card::Card;
use base_chip::Chip;
use bus_session::{Session, may_stall};
use read_records::EventOutcome;

// Where a pass ended: the session, and how many bytes the records have.
#[derive(Clone, Copy)]
pub struct RunEnd {
    pub session: Session,
    pub size: usize,
}

// Before the first event: no record is put.
fn none_told(armed: bool) -> EventOutcome
    ensures { result ≡ none_told armed }
{
    EventOutcome { at: 0, armed }
}

// Where it ends, by the port and what was put last.
fn run_end(s: ScanPort, told: EventOutcome) -> RunEnd
    ensures { result ≡ run_end s told }
{
    let session = Session {
        port: port_of(s),
        armed: told.armed,
    };
    RunEnd {
        session,
        size: told.at,
    }
}

// Reads samples; or only counts their records where none is put. This is the one hot loop. Every way through it ends at its last line, and
// what it calls is small or has no other caller: how it is cut decides how fast it is (docs/decisions/layout.md). No `for` fits: each scan
// moves the place by as many samples as it passes.
pub fn run_samples(
    chip: Chip,
    storing: bool,
    map: &[u8],
    session: Session,
    active: &mut [u8],
    buffer: &mut [u8],
    words: &mut [u64],
    samples: &[u8],
    records: &mut [u8],
) -> RunEnd
    requires { RunBefore chip storing map.now (reader_state session active.old buffer.old words.old) samples.now records.old }
    ensures { RunAfter chip storing map.now (reader_state session active.old buffer.old words.old)
        samples.now records.old
        (reader_state result.session active.new buffer.new words.new) result.size records.new }
{
    let card = Card::new();
    let pass = pass_of(chip, storing, map);
    let mut s = scan_port(pass.newer, session.port);
    let mut told = none_told(session.armed);
    let mut i: usize = 0;
    while i < samples.len() {
        let p = scan(&card, samples, s, i);
        s = scanned(s, p);
        i = p.at;
        if samples.len() <= i {
            break;
        }
        let x = samples[i];
        if s.port.csb {
            // CSB falls: a frame starts, or a run that stalls goes on.
            s = with_levels(s, false, x);
            if s.port.left == 0 {
                s = start(s);
            }
        } else if x % 2 == 1 {
            // CSB rises: the frame ends, or a run stalls.
            s = with_levels(s, true, x);
            if !may_stall(s.port.left, s.port.bits) {
                told = pass_end(pass, map, active, buffer, words, s, told, records);
                s = rest(s);
            }
        } else if s.last == LAST_OF_INSTRUCTION {
            s = enter(chip, pass.newer, s, x);
        } else if s.last == LAST_OF_BYTE {
            let byte = byte_at(s, x);
            told = pass_byte(pass, map, active, buffer, words, s, byte, told, records);
            s = after_byte(chip, pass.newer, s, byte);
        } else {
            s = clocked(s);
        }
        i += 1;
    }
    run_end(s, told)
}
