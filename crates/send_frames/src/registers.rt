// The registers that are listed: whether orders can be made of them.
ghost use Rattle.std.specs.Prelude.{◌≡◌};
ghost use Rattle.base_bits.specs.Tests.{every};
ghost use Rattle.send_frames.specs.Calls.{rising, may_be_listed, all_may_be_listed, registers_tests};

use base_chip::{CONFIGURATION_A, CONFIGURATION_B, TRANSFER};

// The most registers that may be listed.
const MOST_REGISTERS: usize = 1000;

// Whether each address is above the one before it.
fn rises(addresses: &[u16]) -> bool
    ensures { result ≡ rising addresses.now }
{
    for pair in addresses.windows(2) {
        if pair[1] <= pair[0] {
            return false;
        }
    }
    true
}

// Whether an address may be listed: it is up to 0x7FFF, and no control register.
fn may_be_listed(address: u16) -> bool
    ensures { result ≡ may_be_listed address }
{
    (address <= 0x7FFF)
        & !((address == CONFIGURATION_A) | (address == CONFIGURATION_B) | (address == TRANSFER))
}

// Whether each may.
fn all_may_be_listed(addresses: &[u16]) -> bool
    ensures { result ≡ all_may_be_listed addresses.now }
{
    for address in addresses {
        if !may_be_listed(*address) {
            return false;
        }
    }
    true
}

// Whether a list is some registers and not too many, in order, that may be listed, with a byte for each.
pub fn registers_good(addresses: &[u16], bytes: &[u8]) -> bool
    ensures { result ≡ every (registers_tests addresses.now bytes.now) }
{
    let n = addresses.len();
    (1 <= n)
        & (n <= MOST_REGISTERS)
        & rises(addresses)
        & all_may_be_listed(addresses)
        & (bytes.len() == n)
}
