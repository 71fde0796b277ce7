// Single bits of bytes and of the values that travel on the bus.
#![tactic(auto)]

ghost use Rattle.std.specs.Prelude.{◌≡◌, ◌^◌, ◌<◌};
ghost use Rattle.base_bits.specs.Bits.{bit_at, merged, shifted_in};

// Whether bit i of x is one.
pub fn bit_at(x: u8, i: u8) -> bool
    requires { i < 8 }
    ensures { result ≡ bit_at x i }
{
    (x >> i) % 2 == 1
}

// The bits of new where mask has ones, and those of old elsewhere.
pub fn merge(old: u8, new: u8, mask: u8) -> u8
    ensures { result ≡ merged 8 old new mask }
{
    (old & !mask) | (new & mask)
}

// The value of `bits` bits with one more taken.
pub fn shift_in(lsb_first: bool, value: u16, bits: u8, bit: bool) -> u16
    requires { (bits < 16) × (value < 2 ^ bits) }
    ensures { result ≡ shifted_in lsb_first value bits bit }
{
    let b = bit as u16;
    if lsb_first {
        value | (b << bits)
    } else {
        (value << 1) | b
    }
}
