// The sender's calls, for hosts: one order, a whole setup, and the fewest frames.
ghost use Rattle.std.specs.Prelude.{◌≡◌, not, eqb};
ghost use Rattle.base_chip.specs.declared.Part.{Part};
ghost use Rattle.base_chip.specs.declared.Chip.TheVariants.{Newer, Older};
ghost use Rattle.send_order.specs.Order.{order};
ghost use Rattle.send_samples.specs.Calls.{sending, send_of};
ghost use Rattle.send_setup.specs.Calls.{setup_of};
ghost use Rattle.send_frames.specs.Calls.{making, make_of};

use crate::told;
use send_frames::fewest_frames;
use send_samples::{send, send_older};
use send_setup::send_setup;

// Puts the samples of an order at the start of the outgoing buffer, and says how many they are. A refusal,
// 7 to 11, says 0 samples and leaves the buffer as it was.
#[unsafe(no_mangle)]
pub extern "C" fn couplingnut_send(
    direction: u64,
    settings: u64,
    start: u64,
    count: u64,
    data: &[u8],
    out: &mut [u8],
    samples: &mut u64,
) -> u32
    ensures { sending result samples.new out.new
        ≡ send_of Newer (order direction settings start count «data».now) out.old }
{
    let sent = send(direction, settings, start, count, data, out);
    told(sent, samples)
}

// The same to an older chip whose highest address is top; the samples are the same for either part. A refusal is 12, 7, 8, 9 or 11.
#[unsafe(no_mangle)]
pub extern "C" fn couplingnut_send_older(
    top: u64,
    direction: u64,
    settings: u64,
    start: u64,
    count: u64,
    data: &[u8],
    out: &mut [u8],
    samples: &mut u64,
) -> u32
    ensures { (part : Part) → sending result samples.new out.new
        ≡ send_of (Older part top) (order direction settings start count «data».now) out.old }
{
    let older = send_older(top, direction, settings, start, count, data, out);
    told(older, samples)
}

// Puts the samples of all orders of a list at the start of the outgoing buffer, and says how many they are. A refusal, 7 to 11,
// 14 or 15, says 0 samples and leaves the buffer as it was.
#[unsafe(no_mangle)]
pub extern "C" fn couplingnut_send_setup(
    settings: u64,
    list: &[u8],
    out: &mut [u8],
    samples: &mut u64,
) -> u32
    ensures { sending result samples.new out.new ≡ setup_of settings list.now out.old }
{
    let setup = send_setup(settings, list, out);
    told(setup, samples)
}

// Puts the fewest streaming write orders that write each listed register once with its byte, and no other, at the start of the
// outgoing buffer, and says how many bytes they are: descending for 0, else ascending. A refusal, 19 or 11, says 0 bytes and leaves the
// buffer as it was.
#[unsafe(no_mangle)]
pub extern "C" fn couplingnut_fewest_frames(
    ascending: u64,
    addresses: &[u16],
    bytes: &[u8],
    out: &mut [u8],
    length: &mut u64,
) -> u32
    ensures { making result length.new out.new
        ≡ make_of (not (eqb ascending 0)) addresses.now bytes.now out.old }
{
    let frames = fewest_frames(ascending != 0, addresses, bytes, out);
    told(frames, length)
}
