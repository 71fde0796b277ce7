// The loop over the lent list of chips: a turn for each chip at each sample, on the list itself.
#![tactic(auto)]

ghost use Rattle.std.specs.Prelude.{◌≡◌, ◌/◌, length};
ghost use Rattle.base_numbers.specs.Numbers.{number_of, amount_of};
ghost use Rattle.several_chips.specs.Promises.{turn, AllBytes};
ghost use Rattle.several_chips.specs.Numbers.{several_number, several_record_size};
ghost use Rattle.several_chips.specs.Calls.{several_outcome, several_of};

use base_numbers::Refusal;
use several_chips::{Member, RECORD, Turn, step_member};
use several_refusals::check_several;

// The first turn.
fn first_turn() -> Turn
    ensures { result ≡ turn 0 0 0 }
{
    Turn {
        sample: 0,
        chip: 0,
        at: 0,
    }
}

// Reads the samples of all chips of a call that is not refused. It answers how many bytes of records there are.
fn step_all(
    map: &[u8],
    members: &mut [Member],
    memory: &mut [u8],
    samples: &[u8],
    records: &mut [u8],
) -> usize
    requires number { 0 ≡ several_number map.now members.old (length memory.old) samples.now (length records.old) }
    requires bytes { AllBytes members.old }
    ensures { several_outcome 0 members.new memory.new (result / several_record_size) records.new
        ≡ several_of map.now members.old memory.old samples.now records.old }
{
    let end = samples.len() / 2;
    let mut turn = first_turn();
    // No plainer as a `for`: what goes on is the turn, to the next chip or to the next sample.
    while turn.sample < end {
        let chip = turn.chip;
        let member = members[chip];
        let stepped = step_member(map, member, members.len(), memory, samples, records, turn);
        let next = stepped.member;
        members[chip] = next;
        turn = stepped.turn;
    }
    turn.at
}

// Reads the samples of all chips and says how many records they gave, from the record buffer's start. A refusal leaves all as it was.
pub fn read_several(
    map: &[u8],
    members: &mut [Member],
    memory: &mut [u8],
    samples: &[u8],
    records: &mut [u8],
) -> Result<usize, Refusal>
    ensures { several_outcome (number_of result) members.new memory.new (amount_of result) records.new
        ≡ several_of map.now members.old memory.old samples.now records.old }
{
    check_several(map, members, memory.len(), samples, records.len())?;
    let size = step_all(map, members, memory, samples, records);
    Ok(size / RECORD)
}
