// The sender to an older chip: its run is that of a newer chip which ascends with LSB first, with its length over the address.
ghost use Rattle.std.specs.Prelude.{◌≡◌, cond, false, [], ◌+◌, ◌*◌, ◌≤◌, length};
ghost use Rattle.base_bits.specs.Buffer.{Put};
ghost use Rattle.base_numbers.specs.Numbers.{number_of, amount_of};
ghost use Rattle.base_chip.specs.Chip.{is_newer};
ghost use Rattle.base_chip.specs.declared.Part.{Part};
ghost use Rattle.base_chip.specs.declared.Chip.{Chip};
ghost use Rattle.base_chip.specs.declared.Chip.TheVariants.{Older};
ghost use Rattle.send_order.specs.Order.{order, with_data, is_read};
ghost use Rattle.send_order.specs.Samples.{length_bits, samples_of};
ghost use Rattle.send_samples.specs.Calls.{sending, send_of};

use crate::samples::put_all;
use base_card::Card;
use base_chip::{Chip, Part};
use base_numbers::Refusal;
use send_order::{Order, check};

// Times the settings number of an older chip: that of the same run on a newer one, where ascending goes with LSB first.
const LSB_ASCENDING: u64 = 3;

// The two length bits of a run: one byte, two, three, or a stream.
fn length_bits(count: usize) -> u16
    requires { 1 ≤ count }
    ensures { result ≡ length_bits count }
{
    if count <= 3 { (count - 1) as u16 } else { 3 }
}

// Puts all samples of an order that is not refused, at the start of the buffer.
fn put_older(order: Order, data: &[u8], out: &mut [u8]) -> usize
    requires settings_bound { (order.settings ≤ 1) × (order.start ≤ 0x1FFF) × (1 ≤ order.count) }
    requires data_len { length «data».now ≡ cond (is_read (with_data order [])) 0 order.count }
    requires count_in_bounds { 35 + 16 * order.count ≤ length out.old }
    ensures { (c : Chip) → is_newer c ≡ false → Put out.old 0 (samples_of c (with_data order «data».now)) result out.new }
{
    let on_newer = Order {
        settings: order.settings * LSB_ASCENDING,
        ..order
    };
    let lower = length_bits(order.count as usize) * 0x2000 + order.start as u16;
    put_all(&Card::new(), on_newer, lower, data, out)
}

// Puts the samples of an order to an older chip at the start of the outgoing buffer, and tells how many they are. A refusal leaves the
// buffer as it was. The caller names the chip's highest address, and no part: what is sent does not depend on it.
pub fn send_older(
    top: u64,
    direction: u64,
    settings: u64,
    start: u64,
    count: u64,
    data: &[u8],
    out: &mut [u8],
) -> Result<usize, Refusal>
    ensures { (part : Part) → sending (number_of result) (amount_of result) out.new
        ≡ send_of (Older part top) (order direction settings start count «data».now) out.old }
{
    let chip = Chip::Older {
        part: Part::Ad9557,
        top,
    };
    let order = Order {
        direction,
        settings,
        start,
        count,
    };
    check(chip, order, data, out.len())?;
    Ok(put_older(order, data, out))
}
