// An order to the sender: whether it is refused, and with which number.
#![tactic(auto)]

ghost use Rattle.std.specs.Prelude.{◌≡◌, true, cond, ◌&&◌, List, [], ℕ, ◌+◌, ◌*◌, ◌<◌, ◌≤◌, leb, length};
ghost use Rattle.base_bits.specs.Bits.{bit_at};
ghost use Rattle.base_bits.specs.Tests.{every};
ghost use Rattle.base_numbers.specs.Numbers.{number_of};
ghost use Rattle.base_chip.specs.Chip.{top_good};
ghost use Rattle.send_order.specs.Order.{with_data, goes_up, is_single, run_from};
ghost use Rattle.send_order.specs.Number.{configures_early, count_tests, most_settings, up_to, addresses_good, send_number};

use base_chip::{CONFIGURATION_A, CONFIGURATION_B, Chip, is_newer, top_good};
use base_numbers::Refusal;
use bus_settings::next_address;

// The bits of a settings number.
pub const ORDER_LSB_FIRST: u8 = 0;

pub const ORDER_ASCENDING: u8 = 1;

pub const ORDER_SINGLE_INSTRUCTION: u8 = 2;

// An order as it is given, with its data lent beside it: a direction, a settings number, a start address and a count.
#[derive(Clone, Copy)]
pub struct Order {
    pub direction: u64,
    pub settings: u64,
    pub start: u64,
    pub count: u64,
}

// Whether an order has a setting, by its bit of the settings number, which may be any.
fn has(order: Order, setting: u8) -> bool
    requires { setting < 3 }
    ensures { result ≡ bit_at order.settings setting }
{
    (order.settings >> setting) % 2 == 1
}

// Whether the addresses of an order's run go up on a chip.
fn goes_up(chip: Chip, order: Order) -> bool
    ensures { result ≡ goes_up chip (with_data order []) }
{
    if is_newer(chip) {
        has(order, ORDER_ASCENDING)
    } else {
        has(order, ORDER_LSB_FIRST)
    }
}

// Whether each byte of an order's run has its own instruction.
fn is_single(chip: Chip, order: Order) -> bool
    ensures { result ≡ is_single chip (with_data order []) }
{
    is_newer(chip) & has(order, ORDER_SINGLE_INSTRUCTION)
}

// The highest settings number that names settings of a chip.
fn most_settings(chip: Chip) -> u64
    ensures { result ≡ most_settings chip }
{
    if is_newer(chip) { 7 } else { 1 }
}

// Whether the direction and the settings number are ones that a chip has.
fn is_named(chip: Chip, order: Order) -> bool
    ensures { result ≡ (leb order.direction 1 && leb order.settings (most_settings chip)) }
{
    (order.direction <= 1) & (order.settings <= most_settings(chip))
}

// Whether the count is 1 to 1,000, and the data as long as it says.
fn count_fits(order: Order, data: &[u8]) -> bool
    ensures { result ≡ every (count_tests (with_data order «data».now)) }
{
    let length = data.len() as u64;
    let due = if order.direction == 1 { 0 } else { order.count };
    (1 <= order.count) & (order.count <= 1000) & (length == due)
}

// Whether the addresses of so many bytes are 0 to the top.
fn stays_up_to(top: u64, up: bool, start: u64, count: u64) -> bool
    requires { (top < 0x7FFF) × (1 ≤ count) }
    ensures { (bytes : List ℕ) → length bytes ≡ count → result ≡ up_to top (run_from up start bytes) }
{
    if top < start {
        return false;
    }
    if up {
        return count <= top - start + 1;
    }
    count <= start + 1
}

// Whether a chip has the addresses of an order.
fn addresses_good(chip: Chip, order: Order) -> bool
    requires { (top_good chip ≡ true) × (1 ≤ order.count) }
    ensures { (bytes : List ℕ) → every (count_tests (with_data order bytes)) ≡ true → result ≡ addresses_good chip (with_data order bytes) }
{
    match chip {
        Chip::Newer => order.start <= 0x7FFF,
        Chip::Older { part: _, top } => {
            stays_up_to(top, goes_up(chip, order), order.start, order.count)
        },
    }
}

// Whether a write in single instruction has 0x0000 or 0x0001 anywhere but last.
fn configures_early(single_write: bool, ascending: bool, start: u16, data: &[u8]) -> bool
    requires { start < 0x8000 }
    ensures { result ≡ (single_write && configures_early (run_from ascending start «data».now)) }
{
    if !single_write {
        return false;
    }
    let mut address = start;
    for _ in 1..data.len() {
        if (address == CONFIGURATION_A) | (address == CONFIGURATION_B) {
            return true;
        }
        address = next_address(ascending, address);
    }
    false
}

// How many samples so many runs take, of so many bytes in all.
pub fn sample_count(single_instruction: bool, runs: usize, bytes: usize) -> usize
    requires { (runs ≤ 64) × (bytes ≤ 64000) }
    ensures { result ≡ cond single_instruction (3 * runs + 48 * bytes) (35 * runs + 16 * bytes) }
{
    if single_instruction {
        3 * runs + 48 * bytes
    } else {
        35 * runs + 16 * bytes
    }
}

// Whether an order to a chip with so much room is refused: by the first test that fails.
#[inline]
pub fn check(chip: Chip, order: Order, data: &[u8], room: usize) -> Result<(), Refusal>
    ensures { number_of result ≡ send_number chip (with_data order «data».now) room }
{
    if !top_good(chip) {
        return Err(Refusal::BadTop);
    }
    if !is_named(chip, order) {
        return Err(Refusal::BadOrder);
    }
    if !count_fits(order, data) {
        return Err(Refusal::BadCount);
    }
    if !addresses_good(chip, order) {
        return Err(Refusal::BadStart);
    }
    let single_instruction = is_single(chip, order);
    let single_write = single_instruction & (order.direction != 1);
    if configures_early(single_write, goes_up(chip, order), order.start as u16, data) {
        return Err(Refusal::BadSingle);
    }
    if room < sample_count(single_instruction, 1, order.count as usize) {
        return Err(Refusal::ShortOut);
    }
    Ok(())
}
