ghost use Rattle.std.specs.Prelude.{◌≡◌, ◌<◌, ◌≤◌, ◌+◌, ◌*◌, ◌/◌, ◌==◌, ℕ, cond, length, IfSome, IfNone, OnOk};
ghost use Rattle.std.specs.Int.{bit_at};
ghost use Rattle.ctl_state.specs.Bits.{as_bit, bit_in};

use std::alloc::AllocError;

// The word with one bit as it is told.
fn word_with(word: u64, bit: u32, on: bool) -> u64
    requires few { bit < 64 }
    ensures { (i : ℕ) → i < 64 → bit_at result i ≡ cond (i == bit) (as_bit on) (bit_at word i) }
{
    if on {
        return word | (1 << bit);
    }
    word & !(1 << bit)
}

/// Sets or clears a bit of a row of words.
pub fn set_bit(words: &mut Vec<u64>, place: usize, on: bool)
    requires there { place / 64 < length words.old.items }
    ensures long { length words.new.items ≡ length words.old.items }
    ensures each { (k : ℕ) → bit_in words.new.items k
        ≡ cond (k == place) (as_bit on) (bit_in words.old.items k) }
{
    let word = words[place / 64];
    words[place / 64] = word_with(word, (place % 64) as u32, on);
}

/// Room for the bit at a place, where those before it have theirs.
pub(crate) fn more_bits(words: &mut Vec<u64>, place: usize) -> Result<(), AllocError>
    requires next { place / 64 ≤ length words.old.items }
    ensures same { (k : ℕ) → bit_in words.new.items k ≡ bit_in words.old.items k }
    ensures long { length words.old.items ≤ length words.new.items }
    ensures room { OnOk result (place / 64 < length words.new.items) }
{
    if words.len() <= place / 64 {
        words.push(0)?;
    }
    Ok(())
}

/// Clears the bits from one place up to another.
pub(crate) fn clear_bits(words: &mut Vec<u64>, from: usize, to: usize)
    requires order { from ≤ to }
    requires there { to ≤ 64 * length words.old.items }
    ensures long { length words.new.items ≡ length words.old.items }
    ensures before { (k : ℕ) → k < from → bit_in words.new.items k ≡ bit_in words.old.items k }
    ensures clear { (k : ℕ) → from ≤ k → k < to → bit_in words.new.items k ≡ 0 }
    ensures behind { (k : ℕ) → to ≤ k → bit_in words.new.items k ≡ bit_in words.old.items k }
{
    'each: for place in from..to {
        set_bit(words, place, false);
    }
}

/// The lowest bit that is set, by its word and its place there. It costs a look at each word up to it.
pub fn lowest_bit(words: &[u64]) -> Option<(usize, u32)>
    ensures some { IfSome result (λ at. (k : ℕ) → k < 64 * at.0 + at.1 → bit_in words.now k ≡ 0) }
    ensures set { IfSome result (λ at. (at.1 < 64) × (bit_in words.now (64 * at.0 + at.1) ≡ 1)) }
    ensures none { IfNone result ((k : ℕ) → bit_in words.now k ≡ 0) }
{
    let many = words.len();
    'each: for place in 0..many {
        let word = words[place];
        if word != 0 {
            return Some((place, word.trailing_zeros()));
        }
    }
    None
}
