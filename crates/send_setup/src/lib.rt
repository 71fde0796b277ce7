// A whole setup in one call: the orders of a list, each sent after the one before it.
#![tactic(auto)]

ghost use Rattle.std.specs.Prelude.{◌≡◌, true, ◌+◌, ◌≤◌, length, drop};
ghost use Rattle.base_bits.specs.Buffer.{Put};
ghost use Rattle.base_bits.specs.Bytes.{word_at};
ghost use Rattle.base_bits.specs.Tests.{every, unless};
ghost use Rattle.base_numbers.specs.Numbers.{bad_list, refusal_number, number_of, amount_of};
ghost use Rattle.base_chip.specs.declared.Chip.TheVariants.{Newer};
ghost use Rattle.send_order.specs.Samples.{samples_of, all_samples};
ghost use Rattle.send_order.specs.Number.{send_number};
ghost use Rattle.send_samples.specs.Calls.{sending};
ghost use Rattle.send_setup.specs.Form.{whole_tests, first_listed, order_with, list_good};
ghost use Rattle.send_setup.specs.Calls.{orders_of, own_number, setup_number, setup_of};
ghost use Rattle.send_setup.specs.Look.{LookAfter};

mod list;

use base_card::Card;
use base_chip::Chip;
use base_numbers::Refusal;
pub use list::{DATA_AT, LEAST_LENGTH, VERSION};
use list::{MOST_ORDERS, after, count_at, end_at, order_at};
use send_order::{check, sample_count};
use send_samples::put_samples;

// The most samples of a whole setup.
const MOST_SAMPLES: usize = 65536;

// More than an order can need, whatever its count says: the compiler then drops the test for it.
const ROOM_FOR_ANY: usize = 0x40_0000;

// Whether the order at a place of the list is refused by itself; the place after it is given.
fn check_at(settings: u64, list: &[u8], at: usize, end: usize) -> Result<(), Refusal>
    requires { (every (whole_tests (drop at list.now)) ≡ true) × (end ≡ at + 2 + word_at list.now at) }
    ensures { number_of result ≡ own_number (order_with settings (first_listed (drop at list.now))) }
{
    let from = at + DATA_AT;
    let order = order_at(settings, list, at);
    check(Chip::Newer, order, &list[from..end], ROOM_FOR_ANY)
}

// Whether whole orders stand from a place on, up to so many, and nothing after them. No range counts the turns of this walk and of the two
// below: each order tells where the next one stands.
fn good_from(list: &[u8], from: usize, most: u8) -> bool
    requires { from ≤ length list.now }
    ensures { result ≡ list_good most (drop from list.now) }
{
    let mut at = from;
    let mut left = most;
    while at < list.len() {
        let Some(end) = end_at(list, at, left) else {
            return false;
        };
        at = end;
        left -= 1;
    }
    true
}

// The refusal of a list whose first bad order is refused: that, or 14 for what comes after it.
fn stopped(bad: Refusal, list: &[u8], at: usize, left: u8) -> Refusal
    requires { at ≤ length list.now }
    ensures { refusal_number result ≡ unless (list_good left (drop at list.now)) bad_list (refusal_number bad) }
{
    if good_from(list, at, left) {
        bad
    } else {
        Refusal::BadList
    }
}

// Looks over the list in one walk, up to the first bad order, and changes nothing: how many samples all orders take. Single instruction
// is read from the settings number as it is: with an empty list that may be any.
fn look_over(settings: u64, list: &[u8]) -> Result<usize, Refusal>
    ensures { LookAfter settings list.now (number_of result) (amount_of result) }
{
    let mut at: usize = 0;
    let mut left: u8 = MOST_ORDERS;
    let mut bytes: usize = 0;
    while at < list.len() {
        let Some(end) = end_at(list, at, left) else {
            return Err(Refusal::BadList);
        };
        if let Err(bad) = check_at(settings, list, at, end) {
            return Err(stopped(bad, list, at, left));
        }
        bytes += count_at(list, at);
        at = end;
        left -= 1;
    }
    Ok(sample_count(
        (settings >> 2) % 2 == 1,
        (MOST_ORDERS - left) as usize,
        bytes,
    ))
}

// Whether a setup with so much room is refused.
fn check_setup(settings: u64, list: &[u8], room: usize) -> Result<(), Refusal>
    ensures { number_of result ≡ setup_number settings list.now room }
{
    let total = look_over(settings, list)?;
    let long = MOST_SAMPLES < total;
    if long {
        return Err(Refusal::LongSetup);
    }
    if room < total {
        return Err(Refusal::ShortOut);
    }
    Ok(())
}

// Puts the samples of the order at a place of the list into the part of the buffer from n on, and gives the place after them.
fn send_at(card: &Card, settings: u64, list: &[u8], at: usize, out: &mut [u8], n: usize) -> usize
    requires list_value { (every (whole_tests (drop at list.now)) ≡ true) × (n ≤ length out.old) }
    requires out_value { send_number Newer (order_with settings (first_listed (drop at list.now))) (length (drop n out.old)) ≡ 0 }
    ensures { Put out.old n (samples_of Newer (order_with settings (first_listed (drop at list.now)))) result out.new }
{
    let from = at + DATA_AT;
    let end = after(list, at);
    let order = order_at(settings, list, at);
    n + put_samples(card, order, &list[from..end], &mut out[n..])
}

// Sends all orders of a list that is not refused, one after the other. The card is built once for all of them. The next place is read
// before anything is put: read after that, it would have to wait.
fn send_all(settings: u64, list: &[u8], out: &mut [u8]) -> usize
    requires { setup_number settings list.now (length out.old) ≡ 0 }
    ensures { Put out.old 0 (all_samples Newer (orders_of settings list.now)) result out.new }
{
    let card = Card::new();
    let mut at: usize = 0;
    let mut n: usize = 0;
    while at < list.len() {
        let next = after(list, at);
        n = send_at(&card, settings, list, at, out, n);
        at = next;
    }
    n
}

// Puts the samples of all orders of a list at the start of the outgoing buffer, and tells how many they are. A refusal leaves the buffer
// as it was.
pub fn send_setup(settings: u64, list: &[u8], out: &mut [u8]) -> Result<usize, Refusal>
    ensures { sending (number_of result) (amount_of result) out.new ≡ setup_of settings list.now out.old }
{
    check_setup(settings, list, out.len())?;
    Ok(send_all(settings, list, out))
}
