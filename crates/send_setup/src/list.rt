// A list of orders as bytes: whether an order stands at a place of it, and which.
ghost use Rattle.std.specs.Prelude.{◌≡◌, true, ◌+◌, ◌≤◌, length, drop};
ghost use Rattle.base_bits.specs.Bytes.{word_at};
ghost use Rattle.base_bits.specs.Tests.{every};
ghost use Rattle.send_order.specs.Order.{with_data};
ghost use Rattle.send_setup.specs.Form.{whole_tests, first_listed, order_with};
ghost use Rattle.send_setup.specs.Look.{order_end};

use send_order::Order;

// The most orders that a list may have.
pub const MOST_ORDERS: u8 = 64;

// The version of the form of an order.
pub const VERSION: u8 = 1;

// The bytes of an order's length, which it does not count; the least that it may say; and the bytes of the smallest order.
const LENGTH_SIZE: usize = 2;

pub const LEAST_LENGTH: usize = 6;

const LEAST_SIZE: usize = LENGTH_SIZE + LEAST_LENGTH;

// Where the data of an order begins.
pub const DATA_AT: usize = 8;

// Sixteen bits at a place, big-endian.
fn word_at(list: &[u8], at: usize) -> usize
    requires { at + 2 ≤ length list.now }
    ensures { result ≡ word_at list.now at }
{
    u16::from_be_bytes([list[at], list[at + 1]]) as usize
}

// The place after the order at a place, where so many orders may stand, if one may and stands whole. It is worked out before the tests:
// a walk waits for it, and for none of them.
pub fn end_at(list: &[u8], at: usize, left: u8) -> Option<usize>
    requires { at ≤ length list.now }
    ensures { result ≡ order_end list.now at left }
{
    if left == 0 {
        return None;
    }
    if list.len() - at < LEAST_SIZE {
        return None;
    }
    let size = word_at(list, at);
    let end = at + LENGTH_SIZE + size;
    if (LEAST_LENGTH <= size) & (end <= list.len()) & (list[at + 2] == VERSION) {
        return Some(end);
    }
    None
}

// The place after the order that stands at a place. No struct with an invariant holds the list and the place at which an order stands
// whole: a clause would say `order.entry.list.now` and `order.entry.at` for `list.now` and `at`, and a walk would make one at each place.
pub fn after(list: &[u8], at: usize) -> usize
    requires { every (whole_tests (drop at list.now)) ≡ true }
    ensures { result ≡ at + 2 + word_at list.now at }
{
    at + LENGTH_SIZE + word_at(list, at)
}

// The count of the order that stands at a place.
pub fn count_at(list: &[u8], at: usize) -> usize
    requires { every (whole_tests (drop at list.now)) ≡ true }
    ensures { result ≡ (first_listed (drop at list.now)).count }
{
    word_at(list, at + 6)
}

// The order that stands at a place, but for its data.
pub fn order_at(settings: u64, list: &[u8], at: usize) -> Order
    requires { every (whole_tests (drop at list.now)) ≡ true }
    ensures { with_data result (first_listed (drop at list.now)).bytes ≡ order_with settings (first_listed (drop at list.now)) }
{
    Order {
        direction: list[at + 3] as u64,
        settings,
        start: word_at(list, at + 4) as u64,
        count: count_at(list, at) as u64,
    }
}
