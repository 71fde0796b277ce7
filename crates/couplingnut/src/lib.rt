// The library for hosts: every public call, on numbers and bytes alone. A session crosses as its bytes. What goes by the chip is a call
// for the newer ones, and beside it one for each older part (document 02, Ask 1), so that no other part can be named.
#![tactic(auto)]

ghost use Rattle.std.specs.Prelude.{◌≡◌};
ghost use Rattle.base_numbers.specs.Numbers.{number_of, amount_of};

mod maps;
mod reading;
mod sending;
mod several_calls;
mod touched_words;

use base_numbers::{Refusal, number_of};

// The number of a call, and how much it gave: nothing where it is refused.
fn told(outcome: Result<usize, Refusal>, amount: &mut u64) -> u32
    ensures { (result ≡ number_of outcome) × (amount.new ≡ amount_of outcome) }
{
    *amount = outcome.unwrap_or(0) as u64;
    number_of(outcome) as u32
}
