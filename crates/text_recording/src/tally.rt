// How much of a recording has been read.
ghost use Rattle.std.specs.Prelude.{◌≡◌, ◌+◌, ◌<◌, ◌^◌, length};
ghost use Rattle.text_recording.specs.Tally.{Room, nothing_read, counted_of, up_to_bad};

use crate::glance;
use crate::glance::Seen;
use base_sizes::RECORD;
use read_records::count_slow;

// How many records, samples, and writes that ask for slow there were; and what has been seen of the samples.
#[derive(Clone, Copy, Default)]
pub struct Tally {
    pub records: u64,
    pub samples: u64,
    pub slow: u64,
    pub seen: Seen,
}

impl Tally {
    // Before the first sample.
    pub fn nothing_read() -> Tally
        ensures { result ≡ nothing_read }
    {
        Tally::default()
    }

    // Counts one more piece and its records.
    pub fn count(&mut self, piece: &[u8], records: &[u8])
        requires { Room self.old piece.now records.now }
        ensures { self.new ≡ counted_of self.old piece.now records.now }
    {
        self.records += (records.len() / RECORD) as u64;
        self.samples += piece.len() as u64;
        self.slow += count_slow(records) as u64;
        self.seen = glance::look(self.seen, piece);
    }

    // Counts up to the first bad sample of a piece.
    pub fn count_good(&mut self, piece: &[u8])
        requires { self.old.samples + length piece.now < 2 ^ 64 }
        ensures { self.new ≡ up_to_bad self.old piece.now }
    {
        self.samples += glance::good_before(piece) as u64;
    }
}
