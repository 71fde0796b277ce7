// The line of text that the bench program prints for a record.
#![tactic(auto)]

ghost use Rattle.std.specs.Prelude.{◌≡◌, ◌/◌, ◌%◌, ◌<◌, ◌≤◌, length};
ghost use Rattle.base_sizes.specs.Sizes.{record_size};
ghost use Rattle.text_lines.specs.Text.{digit_of};
ghost use Rattle.text_lines.specs.Pairs.{pair_of, Paired};
ghost use Rattle.text_lines.specs.Line.{hex_of, letter_of, line_of};

// The bytes of a line.
pub const LINE: usize = 18;

// The entries of the table of digits: one for each byte.
const PAIRS: usize = 256;

// The digits, in order of their value.
const DIGITS: [u8; 16] = *b"0123456789ABCDEF";

// A digit below 16.
fn digit(d: u8) -> u8
    requires { d < 16 }
    ensures { result ≡ digit_of d }
{
    DIGITS[d as usize]
}

// The two digits of a byte as one number, the first lowest.
fn pair_of(x: u8) -> u16
    ensures { result ≡ pair_of x }
{
    u16::from_le_bytes([digit(x / 16), digit(x % 16)])
}

// The letter of a record's kind.
fn letter(kind: u8) -> u8
    ensures { result ≡ letter_of kind }
{
    match kind {
        1 => b'W',
        2 => b'R',
        _ => b'C',
    }
}

// The two digits of each byte. It is made once and lent, since a constant table would be built again for each digit.
#[derive(Drop)]
pub struct Pairs {
    table: [u16; PAIRS],
    ghost paired: { Paired table },
}

impl Pairs {
    // The whole table.
    pub fn new() -> Pairs {
        let mut table = [0u16; PAIRS];
        for x in 0..PAIRS {
            table[x] = pair_of(x as u8);
        }
        Pairs { table }
    }

    // The two digits of a byte.
    fn digits(&self, x: u8) -> [u8; 2]
        ensures { result ≡ hex_of x }
    {
        self.table[x as usize].to_le_bytes()
    }

    // The line of the record at the start of a slice.
    pub fn line_of(&self, bytes: &[u8]) -> [u8; LINE]
        requires { record_size ≤ length bytes.now }
        ensures { result ≡ line_of bytes.now }
    {
        let high = self.digits(bytes[1]);
        let low = self.digits(bytes[2]);
        let third = self.digits(bytes[3]);
        let fourth = self.digits(bytes[4]);
        let fifth = self.digits(bytes[5]);
        let moved = self.digits(bytes[6]);
        [
            letter(bytes[0]),
            b' ',
            high[0],
            high[1],
            low[0],
            low[1],
            b' ',
            third[0],
            third[1],
            b' ',
            fourth[0],
            fourth[1],
            b' ',
            fifth[1],
            b' ',
            moved[0],
            moved[1],
            b'\n',
        ]
    }
}
