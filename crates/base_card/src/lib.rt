// The turning of a byte, read from the technicians' card.
#![tactic(auto)]

ghost use Rattle.std.specs.Prelude.{◌≡◌, cond};
ghost use Rattle.base_card.specs.Card.{turned, IsCard, is_mirror};

// The card: the nibbles 0 to F in order, the bits of each the other way round.
const CARD: [u8; 16] = [
    0x0, 0x8, 0x4, 0xC, 0x2, 0xA, 0x6, 0xE, 0x1, 0x9, 0x5, 0xD, 0x3, 0xB, 0x7, 0xF,
];

// The card at hand. A const that is used is built anew each time: who turns many bytes makes one of these and lends it.
#[derive(Clone, Copy)]
pub struct Card {
    nibbles: [u8; 16],
    ghost mirrored: { IsCard nibbles },
}

impl Card {
    pub fn new() -> Card {
        Card { nibbles: CARD }
    }

    // A byte, its bits the other way round: each nibble as the card has it, and the two exchanged.
    pub fn turn(&self, byte: u8) -> u8
        ensures { result ≡ turned 8 byte }
    {
        let low = (byte % 16) as usize;
        let high = (byte / 16) as usize;
        self.nibbles[low] * 16 + self.nibbles[high]
    }

    // A byte in the order in which its bits travel: turned where the lowest goes first. The same takes it back.
    pub fn in_order(&self, lsb_first: bool, byte: u8) -> u8
        ensures { result ≡ cond lsb_first (turned 8 byte) byte }
    {
        if lsb_first { self.turn(byte) } else { byte }
    }
}

// Whether a byte reads the same from both ends.
pub fn is_mirror(byte: u8) -> bool
    ensures { result ≡ is_mirror byte }
{
    Card::new().turn(byte) == byte
}
