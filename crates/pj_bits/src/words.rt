//! What matrices and rows do to the words that hold their bits.

ghost use Rattle.std.specs.Prelude.{◌≡◌, ℕ, ◌+◌, ◌*◌, ◌^◌, ◌<◌, ◌≤◌, ◌⊎◌, true, false, length, slice_index, bit_and, bit_or, bit_xor, MatchOption};
ghost use Rattle.std.specs.Int.{bit_at, bit_not, w64};
ghost use Rattle.pj_bits.specs.Words.{column_bit};

/// Joins to each of the `width` words from `into` on the word as far behind `from`.
/// The two ranges are one or have no word in common.
pub fn or_words(words: &mut [u64], into: usize, from: usize, width: usize)
    requires into_fits { into + width ≤ length words.old }
    requires from_fits { from + width ≤ length words.old }
    requires apart { (into ≡ from) ⊎ (into + width ≤ from) ⊎ (from + width ≤ into) }
    ensures len { length words.new ≡ length words.old }
    ensures joined { (k : ℕ) → k < width → slice_index words.new (into + k) ≡ bit_or (slice_index words.old (into + k)) (slice_index words.old (from + k)) }
    ensures below { (k : ℕ) → k < into → slice_index words.new k ≡ slice_index words.old k }
    ensures above { (k : ℕ) → into + width ≤ k → slice_index words.new k ≡ slice_index words.old k }
{
    for k in 0..width {
        words[into + k] |= words[from + k];
    }
}

/// Takes out of each of the `width` words from `into` on the bits of the word as far behind `from`.
/// The two ranges are one or have no word in common.
pub fn and_not_words(words: &mut [u64], into: usize, from: usize, width: usize)
    requires into_fits { into + width ≤ length words.old }
    requires from_fits { from + width ≤ length words.old }
    requires apart { (into ≡ from) ⊎ (into + width ≤ from) ⊎ (from + width ≤ into) }
    ensures fit { (k : ℕ) → slice_index words.old k < 2 ^ 64 }
    ensures len { length words.new ≡ length words.old }
    ensures taken { (k : ℕ) → k < width → slice_index words.new (into + k) ≡ bit_and (slice_index words.old (into + k)) (bit_not w64 (slice_index words.old (from + k))) }
    ensures below { (k : ℕ) → k < into → slice_index words.new k ≡ slice_index words.old k }
    ensures above { (k : ℕ) → into + width ≤ k → slice_index words.new k ≡ slice_index words.old k }
{
    for k in 0..width {
        words[into + k] &= !words[from + k];
    }
}

/// Joins to each word the bits of the other one's.
pub fn join_words(into: &mut [u64], from: &[u64])
    requires { length from.now ≡ length into.old }
    ensures len { length into.new ≡ length into.old }
    ensures joined { (k : ℕ) → k < length into.old → slice_index into.new k ≡ bit_or (slice_index into.old k) (slice_index from.now k) }
{
    for k in 0..into.len() {
        into[k] |= from[k];
    }
}

/// Moves to the words `to` the bits that `chosen` has.
pub fn move_common(rest: &mut [u64], to: &mut [u64], chosen: &[u64])
    requires to_len { length to.old ≡ length rest.old }
    requires chosen_len { length chosen.now ≡ length rest.old }
    ensures fit { (k : ℕ) → slice_index rest.old k < 2 ^ 64 }
    ensures fit_chosen { (k : ℕ) → slice_index chosen.now k < 2 ^ 64 }
    ensures len { length rest.new ≡ length rest.old }
    ensures to_len { length to.new ≡ length to.old }
    ensures kept { (k : ℕ) → k < length rest.old → slice_index rest.new k ≡ bit_and (slice_index rest.old k) (bit_not w64 (slice_index chosen.now k)) }
    ensures moved { (k : ℕ) → k < length rest.old → slice_index to.new k ≡ bit_or (slice_index to.old k) (bit_and (slice_index rest.old k) (slice_index chosen.now k)) }
{
    for k in 0..rest.len() {
        to[k] |= rest[k] & chosen[k];
        rest[k] &= !chosen[k];
    }
}

/// Moves to the words `to` the bits that `chosen` does not have.
pub fn move_others(rest: &mut [u64], to: &mut [u64], chosen: &[u64])
    requires to_len { length to.old ≡ length rest.old }
    requires chosen_len { length chosen.now ≡ length rest.old }
    ensures fit_chosen { (k : ℕ) → slice_index chosen.now k < 2 ^ 64 }
    ensures len { length rest.new ≡ length rest.old }
    ensures to_len { length to.new ≡ length to.old }
    ensures kept { (k : ℕ) → k < length rest.old → slice_index rest.new k ≡ bit_and (slice_index rest.old k) (slice_index chosen.now k) }
    ensures moved { (k : ℕ) → k < length rest.old → slice_index to.new k ≡ bit_or (slice_index to.old k) (bit_and (slice_index rest.old k) (bit_not w64 (slice_index chosen.now k))) }
{
    for k in 0..rest.len() {
        to[k] |= rest[k] & !chosen[k];
        rest[k] &= chosen[k];
    }
}

/// Adds the bits of `carry`, and leaves in it those that were set on both sides.
pub fn add_words(sum: &mut [u64], carry: &mut [u64])
    requires { length carry.old ≡ length sum.old }
    ensures len { length sum.new ≡ length sum.old }
    ensures carry_len { length carry.new ≡ length carry.old }
    ensures sum { (k : ℕ) → k < length sum.old → slice_index sum.new k ≡ bit_xor (slice_index sum.old k) (slice_index carry.old k) }
    ensures carried { (k : ℕ) → k < length sum.old → slice_index carry.new k ≡ bit_and (slice_index sum.old k) (slice_index carry.old k) }
{
    for k in 0..sum.len() {
        let both = sum[k] & carry[k];
        sum[k] ^= carry[k];
        carry[k] = both;
    }
}

/// Takes the bits of `borrow`, and leaves in it those that were lacking. Joins to `seen` what is left.
pub fn subtract_words(rest: &mut [u64], borrow: &mut [u64], seen: &mut [u64])
    requires borrow_len { length borrow.old ≡ length rest.old }
    requires seen_len { length seen.old ≡ length rest.old }
    ensures fit { (k : ℕ) → slice_index rest.old k < 2 ^ 64 }
    ensures len { length rest.new ≡ length rest.old }
    ensures borrow_len { length borrow.new ≡ length borrow.old }
    ensures seen_len { length seen.new ≡ length seen.old }
    ensures left { (k : ℕ) → k < length rest.old → slice_index rest.new k ≡ bit_xor (slice_index rest.old k) (slice_index borrow.old k) }
    ensures borrowed { (k : ℕ) → k < length rest.old → slice_index borrow.new k ≡ bit_and (bit_not w64 (slice_index rest.old k)) (slice_index borrow.old k) }
    ensures seen { (k : ℕ) → k < length rest.old → slice_index seen.new k ≡ bit_or (slice_index seen.old k) (slice_index rest.new k) }
{
    for k in 0..rest.len() {
        let lacking = !rest[k] & borrow[k];
        rest[k] ^= borrow[k];
        borrow[k] = lacking;
        seen[k] |= rest[k];
    }
}

/// The bits of a word, without those of the columns before `from`. Its first bit is that of the column `first`.
fn bits_from(word: u64, first: usize, from: usize) -> u64
    ensures fits { result < 2 ^ 64 }
    ensures before { (j : ℕ) → j < 64 → first + j < from → bit_at result j ≡ 0 }
    ensures others { (j : ℕ) → j < 64 → from ≤ first + j → bit_at result j ≡ bit_at word j }
{
    if from <= first {
        word
    } else if from - first < 64 {
        word & (u64::MAX << (from - first))
    } else {
        0
    }
}

/// The first of the first `size` columns, from `from` on, whose bit is set.
pub fn next_bit(words: &[u64], from: u32, size: u32) -> Option<u32>
    requires { size ≤ 64 * length words.now }
    ensures { MatchOption result
        ((c : ℕ) → from ≤ c → c < size → column_bit words.now c ≡ false)
        (λ column. (from ≤ column) × (column < size) × (column_bit words.now column ≡ true) × ((c : ℕ) → from ≤ c → c < column → column_bit words.now c ≡ false)) }
{
    for at in from as usize / 64..(size as usize).div_ceil(64) {
        let word = bits_from(words[at], at * 64, from as usize);
        if word != 0 {
            let column = at * 64 + word.trailing_zeros() as usize;
            return if column < size as usize {
                Some(column as u32)
            } else {
                None
            };
        }
    }
    None
}
