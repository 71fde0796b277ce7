// The touched registers: a bit a register in lent 64-bit words, address a at bit a mod 64 of word a div 64.
#![tactic(auto)]

ghost use Rattle.std.specs.Prelude.{◌≡◌, ◌+◌, ◌*◌, ◌<◌, ◌≤◌, length, drop};
ghost use Rattle.base_numbers.specs.Numbers.{number_of, amount_of};
ghost use Rattle.reg_touched.specs.Touched.{touched_bits, touched_words, trues, first_true, next_true};
ghost use Rattle.reg_touched.specs.Calls.{most_words, words_number, marking, mark_of, touched_count, touched_count_of, searching, search_of};

use base_numbers::Refusal;

// How many registers a word has bits for.
const WORD: usize = 64;

// As many words as the largest map needs.
const MOST_WORDS: usize = 128;

// Sets the bit of an address, for a write with effect 1 or 2, whether a bit of the register moves or not.
pub fn touch(words: &mut [u64], address: usize)
    requires { address < 64 * length words.old }
    ensures { words.new ≡ touched_words words.old address }
{
    let at = address / WORD;
    let bit = address % WORD;
    words[at] = words[at] | 1u64 << bit;
}

// Whether a call on so many words may be made: refused by 16 for too many.
fn check(words: &[u64]) -> Result<(), Refusal>
    ensures { number_of result ≡ words_number words.now }
{
    if MOST_WORDS < words.len() {
        return Err(Refusal::BadWords);
    }
    Ok(())
}

// A mark: from now on only what is written after it counts as touched. A refusal leaves the words as they were.
pub fn mark(words: &mut [u64]) -> Result<(), Refusal>
    ensures { marking (number_of result) words.new ≡ mark_of words.old }
{
    check(words)?;
    words.fill(0);
    Ok(())
}

// That the words are few is a clause of this and the two searches. As a struct's ghost field the proof didn't close: of words in a
// struct nothing says that each fits 64 bits.
// How many bits are set.
fn count_ones(words: &[u64]) -> usize
    requires { length words.now ≤ most_words }
    ensures { result ≡ trues (touched_bits words.now) }
{
    words
        .iter()
        .map(|word| u64::count_ones(*word) as usize)
        .sum()
}

// How many registers were touched.
pub fn count(words: &[u64]) -> Result<usize, Refusal>
    ensures { touched_count (number_of result) (amount_of result) ≡ touched_count_of words.now }
{
    check(words)?;
    Ok(count_ones(words))
}

// The first bit that is set in the words from one of them on; past the last bit if there is none.
fn first_in_words(words: &[u64], from: usize) -> usize
    requires { (length words.now ≤ most_words) × (from ≤ length words.now) }
    ensures { result ≡ 64 * from + first_true (touched_bits (drop from words.now)) }
{
    for at in from..words.len() {
        let word = words[at];
        if word != 0 {
            return WORD * at + u64::trailing_zeros(word) as usize;
        }
    }
    WORD * words.len()
}

// The first bit that is set from an address on: in what is left of its word, or in the words after it.
fn first_from(words: &[u64], address: usize) -> usize
    requires { length words.now ≤ most_words }
    ensures { result ≡ next_true (touched_bits words.now) address }
{
    let end = WORD * words.len();
    if end <= address {
        return end;
    }
    let at = address / WORD;
    let rest = words[at] >> (address % WORD);
    if rest != 0 {
        return address + u64::trailing_zeros(rest) as usize;
    }
    first_in_words(words, at + 1)
}

// The first register that was touched from an address on, that one included; 64 times the number of words if there is none.
pub fn next(words: &[u64], from: u64) -> Result<usize, Refusal>
    ensures { searching (number_of result) (amount_of result) ≡ search_of words.now from }
{
    check(words)?;
    Ok(first_from(words, from as usize))
}
