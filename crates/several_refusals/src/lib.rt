// The numbers of reading several chips, in their order. Nothing is changed here.
#![tactic(auto)]

ghost use Rattle.std.specs.Prelude.{◌≡◌};
ghost use Rattle.base_numbers.specs.Numbers.{number_of};
ghost use Rattle.several_chips.specs.Numbers.{several_number};
ghost use Rattle.several_chips.specs.Promises.{AllBytes};
ghost use Rattle.several_refusals.specs.Group.{no_group, gathered, group_number};

mod members;
mod memory;
mod room;
mod samples;

use base_chip::Chip;
use base_numbers::Refusal;
use map_test::check_map;
pub use members::all_sound;
use memory::{ranges_fit, ranges_good};
use room::room_suffices;
use samples::samples_good;
use several_chips::Member;

// Whether reading several chips is refused, with a bank memory of some size and a record buffer of some room. The number is also that of
// a copy of the list, chip by chip. Where nothing is refused the sessions hold bytes: a list that is lent does not say so.
pub fn check_several(
    map: &[u8],
    members: &[Member],
    size: usize,
    samples: &[u8],
    room: usize,
) -> Result<(), Refusal>
    ensures number { number_of result ≡ several_number map.now members.now size samples.now room }
    ensures copied { number_of result ≡ group_number map.now (gathered no_group members.now) size samples.now room }
    ensures bytes { number_of result ≡ 0 → AllBytes members.now }
{
    let none = members.len() < 1;
    let many = 8 < members.len();
    let miscounted = none | many;
    if miscounted {
        return Err(Refusal::BadChips);
    }
    if !ranges_good(members, size) {
        return Err(Refusal::BadChips);
    }
    if !all_sound(members) {
        return Err(Refusal::BadSession);
    }
    check_map(Chip::Newer, map)?;
    if !ranges_fit(members, map_format::count(map)) {
        return Err(Refusal::BadBank);
    }
    if !samples_good(members.len(), samples) {
        return Err(Refusal::BadSamples);
    }
    if !room_suffices(members, samples, room) {
        return Err(Refusal::ShortRecords);
    }
    Ok(())
}
