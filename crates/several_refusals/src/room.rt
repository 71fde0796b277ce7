// Whether the records of all chips have room.
ghost use Rattle.std.specs.Prelude.{◌≡◌, ◌*◌, leb};
ghost use Rattle.base_chip.specs.declared.Chip.TheVariants.{Newer};
ghost use Rattle.bus_session_bytes.specs.Layout.{session_of};
ghost use Rattle.read_run.specs.Reading.{record_count};
ghost use Rattle.several_chips.specs.Samples.{all_seen_by, samples_in};
ghost use Rattle.several_chips.specs.Numbers.{count_from, several_record_size};
ghost use Rattle.several_refusals.specs.Counting.{CountingOne, CountingAll};

use base_chip::Chip;
use bus_session::Port;
use bus_session_bytes::session_of;
use read_records::records_in;
use several_chips::{Member, RECORD, sees};

// The port that the bytes of a chip have.
fn port_of(member: Member) -> Port
    ensures { result ≡ (session_of member.session).port }
{
    let bytes = member.session;
    let session = session_of(&bytes);
    session.port
}

// How many records the samples give of a chip with a port.
fn count_records(port: Port, chip: u8, samples: &[u8]) -> usize
    requires { CountingOne port chip (samples_in samples.now) }
    ensures { result ≡ record_count Newer port (all_seen_by chip (samples_in samples.now)) }
{
    let mut now = port;
    let mut count: usize = 0;
    for sample in samples.chunks_exact(2) {
        let x = sees(sample[0], sample[1], chip);
        count += records_in(now.event(Chip::Newer, x));
        now = now.step(Chip::Newer, x);
    }
    count
}

// How many records the samples give of all chips.
fn count_all(members: &[Member], samples: &[u8]) -> usize
    requires { CountingAll members.now samples.now }
    ensures { result ≡ count_from 0 members.now (samples_in samples.now) }
{
    let mut count: usize = 0;
    for (i, member) in members.iter().enumerate() {
        count += count_records(port_of(*member), i as u8, samples);
    }
    count
}

// Whether the records have room. They are counted only where it may not suffice: each takes three samples, but for a chip's first.
pub(crate) fn room_suffices(members: &[Member], samples: &[u8], room: usize) -> bool
    requires { CountingAll members.now samples.now }
    ensures { result ≡ leb (several_record_size * count_from 0 members.now (samples_in samples.now)) room }
{
    if RECORD * (members.len() * ((samples.len() / 2 + 2) / 3)) <= room {
        return true;
    }
    RECORD * count_all(members, samples) <= room
}
