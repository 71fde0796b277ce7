// The samples of a trace, from event to event.
#![tactic(auto)]

ghost use Rattle.std.specs.Prelude.{◌≡◌, true, ◌<◌, length};
ghost use Rattle.bus_session.specs.State.{sound_port};
ghost use Rattle.bus_trace.specs.Path.{NextAfter, happens};

mod high;
mod quiet;
mod scan;

use crate::quiet::quiet;
pub use crate::quiet::{last_of, level_of};
pub use crate::scan::{Progress, next_stop};
use base_chip::Chip;
use bus_session::{Event, Port};

// An event, or nothing at the end of the samples; the port after it, and the place of the next sample.
#[derive(Clone, Copy)]
pub struct NextEvent {
    pub event: Event,
    pub port: Port,
    pub at: usize,
}

// Whether there is an event.
fn happened(event: Event) -> bool
    ensures { result ≡ happens event }
{
    !matches!(event, Event::Nothing)
}

// The samples from a place on up to the next event, or to their end. The place goes on by what `quiet` passes, not by one.
pub fn next_event(chip: Chip, port: Port, samples: &[u8], from: usize) -> NextEvent
    requires { (sound_port chip port ≡ true) × (from < length samples.now) }
    ensures { NextAfter chip samples.now port from result.event result.port result.at }
{
    let mut event = Event::Nothing;
    let mut s = port;
    let mut at = from;
    while at < samples.len() {
        let p = quiet(chip, s, samples, at);
        s.sclk = p.level == 2;
        s.bits = p.bits;
        s.value = p.value;
        at = p.at;
        if samples.len() <= at {
            break;
        }
        let x = samples[at];
        event = s.event(chip, x);
        s = s.step(chip, x);
        at += 1;
        if happened(event) {
            return NextEvent { event, port: s, at };
        }
    }
    NextEvent { event, port: s, at }
}
