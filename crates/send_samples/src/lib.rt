// The sender: the samples of one read or write run, from an order, or why it is refused.
#![tactic(auto)]

ghost use Rattle.std.specs.Prelude.{◌≡◌, [], ◌≤◌};
ghost use Rattle.base_numbers.specs.Numbers.{number_of, amount_of};
ghost use Rattle.base_chip.specs.declared.Chip.TheVariants.{Newer};
ghost use Rattle.send_order.specs.Order.{order, with_data};
ghost use Rattle.send_samples.specs.Calls.{sending, send_of};
ghost use Rattle.send_samples.specs.Run.{order_run};

mod older;
mod samples;

use base_bits::bit_at;
use base_card::Card;
use base_chip::Chip;
use base_numbers::Refusal;
pub use older::send_older;
pub use samples::put_samples;
use send_order::{ORDER_ASCENDING, ORDER_LSB_FIRST, ORDER_SINGLE_INSTRUCTION, Order, check};

// How the run of an order goes: its direction, and its settings by name.
#[derive(Clone, Copy)]
struct RunSettings {
    read: bool,
    lsb_first: bool,
    ascending: bool,
    single_instruction: bool,
}

// The run of an order, by its direction and its settings number. It is no `From`, which could not require a number that fits.
fn run_of(order: Order) -> RunSettings
    requires { order.settings ≤ 7 }
    ensures { result ≡ order_run Newer (with_data order []) }
{
    let s = order.settings as u8;
    RunSettings {
        read: order.direction == 1,
        lsb_first: bit_at(s, ORDER_LSB_FIRST),
        ascending: bit_at(s, ORDER_ASCENDING),
        single_instruction: bit_at(s, ORDER_SINGLE_INSTRUCTION),
    }
}

// Puts the samples of an order, as C gives it, to a newer chip at the start of the outgoing buffer, and tells how many they are. A refusal
// leaves the buffer as it was.
pub fn send(
    direction: u64,
    settings: u64,
    start: u64,
    count: u64,
    data: &[u8],
    out: &mut [u8],
) -> Result<usize, Refusal>
    ensures { sending (number_of result) (amount_of result) out.new
        ≡ send_of Newer (order direction settings start count «data».now) out.old }
{
    let order = Order {
        direction,
        settings,
        start,
        count,
    };
    check(Chip::Newer, order, data, out.len())?;
    Ok(put_samples(&Card::new(), order, data, out))
}
