// The ranges of the bank memory that the chips have.
ghost use Rattle.std.specs.Prelude.{◌≡◌, ◌+◌, leb};
ghost use Rattle.several_chips.specs.Numbers.{apart, apart_from, ranges_fit, ranges_good, ranges_of};
ghost use Rattle.several_refusals.specs.Ranges.{range_of, active_of, buffer_of};

use several_chips::Member;

// Where a range starts, and how long it is.
#[derive(Clone, Copy)]
struct Range {
    start: usize,
    size: usize,
}

// The active range of a chip.
fn active_of(member: &Member) -> Range
    ensures { range_of result ≡ active_of member.now }
{
    Range {
        start: member.active_start,
        size: member.active_length,
    }
}

// The buffer range of a chip.
fn buffer_of(member: &Member) -> Range
    ensures { range_of result ≡ buffer_of member.now }
{
    Range {
        start: member.buffer_start,
        size: member.buffer_length,
    }
}

// Whether a range ends at a place or before it. The end itself may be more than a number holds.
fn ends_by(range: Range, place: usize) -> bool
    ensures { result ≡ leb (range.start + range.size) place }
{
    if range.start <= place {
        return range.size <= place - range.start;
    }
    false
}

// Whether two ranges share no byte.
fn apart(range: Range, other: Range) -> bool
    ensures { result ≡ apart (range_of range) (range_of other) }
{
    let none = (range.size == 0) | (other.size == 0);
    none | (ends_by(range, other.start) | ends_by(other, range.start))
}

// Whether a range lies apart from those of some chips.
fn apart_from(range: Range, members: &[Member]) -> bool
    ensures { result ≡ apart_from (range_of range) (ranges_of members.now) }
{
    let mut good = true;
    for member in members {
        let active = apart(range, active_of(member));
        let buffer = apart(range, buffer_of(member));
        good = good & (active & buffer);
    }
    good
}

// Whether all ranges lie in a memory of some size, and apart from each other.
pub(crate) fn ranges_good(members: &[Member], size: usize) -> bool
    ensures { result ≡ ranges_good size (ranges_of members.now) }
{
    let mut good = true;
    for (i, member) in members.iter().enumerate() {
        let active = active_of(member);
        let buffer = buffer_of(member);
        let later = &members[i + 1..];
        let inside = ends_by(active, size) & ends_by(buffer, size);
        let own = apart(active, buffer);
        let others = apart_from(active, later) & apart_from(buffer, later);
        good = good & (inside & (own & others));
    }
    good
}

// Whether each range has a length.
pub(crate) fn ranges_fit(members: &[Member], length: usize) -> bool
    ensures { result ≡ ranges_fit length members.now }
{
    members.iter().all(|member| (member.active_length == length) & (member.buffer_length == length))
}
