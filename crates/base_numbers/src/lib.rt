// Why a call is refused. What each refusal means, and in which order they come, the definitions say.
#![tactic(auto)]

ghost use Rattle.std.specs.Prelude.{◌≡◌};
ghost use Rattle.base_numbers.specs.Numbers.{refusal_number, number_of};

// The refusals, in order of their numbers, which C is given.
#[derive(Clone, Copy, Debug, PartialEq, Eq)]
pub enum Refusal {
    BadSession = 1,
    BadMapForm = 2,
    BadMapEntry = 3,
    BadBank = 4,
    BadSamples = 5,
    ShortRecords = 6,
    BadOrder = 7,
    BadCount = 8,
    BadStart = 9,
    BadSingle = 10,
    ShortOut = 11,
    BadTop = 12,
    FlagLost = 13,
    BadList = 14,
    LongSetup = 15,
    BadWords = 16,
    BadChips = 17,
    BadProduct = 18,
    BadRegisters = 19,
}

impl From<Refusal> for u8 {
    ghost from_gives = { λ refusal number. number ≡ refusal_number refusal };

    fn from(refusal: Refusal) -> u8 {
        refusal as u8
    }
}

// The number that a call gives back: 0 where nothing is refused.
pub fn number_of<T: Copy>(outcome: Result<T, Refusal>) -> u8
    ensures { result ≡ number_of outcome }
{
    match outcome {
        Ok(_) => 0,
        Err(refusal) => u8::from(refusal),
    }
}
