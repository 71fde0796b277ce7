// One chip's turn at one sample.
ghost use Rattle.std.specs.Prelude.{◌≡◌, ◌+◌, ◌^◌, ◌<◌, ◌≤◌};
ghost use Rattle.several_chips.specs.Samples.{sample, seen_by, other_low};
ghost use Rattle.several_chips.specs.State.{mid_read};
ghost use Rattle.several_chips.specs.Members.{member_with};
ghost use Rattle.several_chips.specs.Promises.{next_turn, Stepping, HasStepped};
ghost use Rattle.several_chips.specs.Step.{only_levels, with_clock, state, Moving, HasMoved};

use crate::take::take_within;
use crate::{Member, Stepped, Turn};
use base_bits::bit_at;
use base_chip::Chip;
use bus_session::{CSB, Port, SCLK, Session, is_data, takes_bit};
use bus_session_bytes::{bytes_of, session_of};
use reg_ranges::Ranges;

// What a chip sees of a sample, as if it were alone: the lines, and its own select as CSB.
pub fn sees(selects: u8, lines: u8, chip: u8) -> u8
    requires { (lines ≤ 15) × (chip < 8) }
    ensures { result ≡ seen_by chip (sample selects lines) }
{
    bit_at(selects, chip) as u8 + lines
}

// Whether the select of another chip is low.
fn other_low(selects: u8, lines: u8, chip: u8) -> bool
    requires { chip < 8 }
    ensures { result ≡ other_low chip (sample selects lines) }
{
    (selects | (1 << chip)) != 0xFF
}

// Whether bits of a read byte are taken.
pub fn mid_read(port: Port) -> bool
    ensures { result ≡ mid_read port }
{
    let phase = port.phase;
    is_data(phase) & (port.read & (0 < port.bits))
}

// Whether a sample moves the last levels alone: CSB is as it was, and no bit is taken.
fn only_levels(csb: bool, sclk: bool, seen: u8) -> bool
    ensures { result ≡ only_levels csb sclk seen }
{
    let high = bit_at(seen, CSB);
    (csb & high) | (!csb & (!high & (sclk | !bit_at(seen, SCLK))))
}

// The chip with another last level of SCLK.
fn with_clock(mut member: Member, sclk: bool) -> Member
    ensures { result ≡ with_clock member sclk }
{
    member.session[2] = sclk as u8;
    member
}

// The chip with another session and mark. Fields are set in the chip that came, so that the bytes between its fields, which C has, stay
// as they were lent: a new struct would have others there.
fn with_session(mut member: Member, session: Session, contended: bool) -> Member
    ensures { result ≡ member_with member (state session contended) }
{
    member.session = bytes_of(session);
    member.contended = contended as u8;
    member
}

// The turn after one: that of the next chip, or at the next sample that of the first.
fn next_turn(turn: Turn, chips: usize, at: usize) -> Turn
    requires { (turn.chip < 8) × (turn.sample + 1 < 2 ^ 64) }
    ensures { result ≡ next_turn chips turn at }
{
    let chip = turn.chip + 1;
    if chip < chips {
        return Turn { chip, at, ..turn };
    }
    Turn {
        sample: turn.sample + 1,
        chip: 0,
        at,
    }
}

// Where a sample leads a chip: the chip after it, and the place after its record.
#[derive(Clone, Copy)]
struct Moved {
    member: Member,
    at: usize,
}

// The chip after a sample, with its session taken out of its bytes and put back.
fn move_member(
    map: &[u8],
    member: Member,
    memory: &mut [u8],
    selects: u8,
    lines: u8,
    chip: u8,
    records: &mut [u8],
    at: usize,
) -> Moved
    requires { Moving map.now member memory.old (sample selects lines) chip records.old at }
    ensures { HasMoved map.now member memory.old (sample selects lines) chip records.old at result
        memory.new records.new }
{
    let bytes = member.session;
    let session = session_of(&bytes);
    let port = session.port;
    let settings = port.settings;
    let seen = sees(selects, lines, chip);
    let edge = takes_bit(port.csb, port.sclk, seen);
    let contended = (member.contended == 1) | (edge & other_low(selects, lines, chip));
    let event = port.event(Chip::Newer, seen);
    let after = port.step(Chip::Newer, seen);
    let ranges = Ranges {
        n: member.active_length,
        active: member.active_start,
        buffer: member.buffer_start,
    };
    let took = take_within(
        map,
        memory,
        ranges,
        settings,
        session.armed,
        event,
        chip,
        contended,
        records,
        at,
    );
    let next = Session {
        port: after,
        armed: took.armed,
    };
    Moved {
        member: with_session(member, next, mid_read(after) & contended),
        at: took.at,
    }
}

// Gives a chip its turn. Where a sample moves the last levels alone, as most do, one byte of the chip changes and nothing else.
pub fn step_member(
    map: &[u8],
    member: Member,
    chips: usize,
    memory: &mut [u8],
    samples: &[u8],
    records: &mut [u8],
    turn: Turn,
) -> Stepped
    requires { Stepping map.now member memory.old samples.now records.old turn }
    ensures { HasStepped map.now member chips memory.old samples.now records.old turn result
        memory.new records.new }
{
    let sample = turn.sample;
    let selects = samples[2 * sample];
    let lines = samples[2 * sample + 1];
    let chip = turn.chip as u8;
    let seen = sees(selects, lines, chip);
    if only_levels(member.session[1] == 1, member.session[2] == 1, seen) {
        return Stepped {
            member: with_clock(member, bit_at(seen, SCLK)),
            turn: next_turn(turn, chips, turn.at),
        };
    }
    let Moved { member, at } = move_member(
        map, member, memory, selects, lines, chip, records, turn.at,
    );
    Stepped {
        member,
        turn: next_turn(turn, chips, at),
    }
}
