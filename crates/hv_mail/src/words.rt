// Bits of words: bit k is bit k % 64 of word k / 64.
ghost use Rattle.std.specs.Prelude.{◌≡◌, ℕ, ◌+◌, ◌*◌, ◌/◌, ◌%◌, ◌<◌, ◌≤◌, ◌==◌, ◌||◌, ◌&&◌, not, true, false};
ghost use Rattle.std.specs.Prelude.{length, map, IfSome, IsNone};
ghost use Rattle.std.specs.List.{range_with_len};
ghost use Rattle.hv_mail.specs.Words.{has_bit, byte_of};

// Whether the bit is set.
#[tactic(auto, using(crate::proofs::WordBits::clear_tested))]
pub(crate) fn is_bit_set(words: &[u64], at: usize) -> bool
    requires { at / 64 < length words.now }
    ensures { result ≡ has_bit words.now at }
{
    words[at / 64] & 1u64 << (at % 64) != 0
}

// Sets the bit. Returns `true` if it was clear.
#[tactic(auto, using(crate::proofs::WordBits::bit_set, crate::proofs::WordBits::clear_tested))]
pub(crate) fn set_bit(words: &mut [u64], at: usize) -> bool
    requires { at / 64 < length words.old }
    ensures was_clear { result ≡ not (has_bit words.old at) }
    ensures length { length words.new ≡ length words.old }
    ensures bits { (k : ℕ) → has_bit words.new k ≡ ((k == at) || has_bit words.old k) }
{
    let word = &mut words[at / 64];
    let mask = 1u64 << (at % 64);
    let was_clear = *word & mask == 0;
    *word |= mask;
    was_clear
}

// Clears the bit.
#[tactic(auto, using(crate::proofs::WordBits::bit_cleared))]
pub(crate) fn clear_bit(words: &mut [u64], at: usize)
    requires { at / 64 < length words.old }
    ensures length { length words.new ≡ length words.old }
    ensures bits { (k : ℕ) → has_bit words.new k ≡ (not (k == at) && has_bit words.old k) }
{
    words[at / 64] &= !(1u64 << (at % 64));
}

// The highest bit that is set.
pub(crate) fn highest_bit(words: &[u64]) -> Option<usize>
    requires { length words.now ≤ 4 }
    ensures none { IsNone result → (k : ℕ) → has_bit words.now k ≡ false }
    ensures some { IfSome result (λ at. has_bit words.now at ≡ true) }
    ensures highest { IfSome result (λ at. (k : ℕ) → at < k → has_bit words.now k ≡ false) }
{
    let mut place = words.len();
    while place > 0 {
        place -= 1;
        let word = words[place];
        if word != 0 {
            return Some(place * 64 + (63 - word.leading_zeros() as usize));
        }
    }
    None
}

// Copies whole words, from word `first` on, into bytes, the lowest byte of a word first.
pub(crate) fn copy_words(words: &[u64], first: usize, bytes: &mut [u8])
    requires whole { length bytes.old % 8 ≡ 0 }
    requires within { 8 * first + length bytes.old ≤ 8 * length words.now }
    ensures { bytes.new ≡ map (λ i. byte_of words.now (8 * first + i)) (range_with_len 0 (length bytes.old)) }
{
    for i in 0..bytes.len() / 8 {
        bytes[8 * i..8 * i + 8].copy_from_slice(&words[first + i].to_le_bytes());
    }
}
