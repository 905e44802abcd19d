// Kernels on a slice of words.
//
// The other processor paths of arch.rs are left out. Every public function is total: no slice, index or region is asked for.
#![tactic(auto)]

ghost use Rattle.std.specs.Prelude.{◌≡◌, ◌+◌, ◌*◌, ◌^◌, ◌<◌, ◌≤◌, length, set, slice_index, slice_set};
ghost use Rattle.word.specs.Sets.{choose};
ghost use Rattle.word.specs.Words.{all_ones};
ghost use Rattle.arch.specs.Scans.{Alike, first_other, word_found, nonzero_len, is_zero, count_set, filled_words, filled};
ghost use Rattle.arch.specs.Kernels.{places_in, filled_places};

use word::Word;

// Word k; 0 past the end.
pub fn word_at(words: &[u64], k: usize) -> u64
    ensures { result ≡ slice_index words.now k }
{
    words.get(k).copied().unwrap_or(0)
}

// Some bit is set where one of the eight words is not x.
fn others(eight: &[u64; 8], x: u64) -> u64
    ensures { result ≡ 0 → Alike eight.now x 0 8 }
{
    let mut some = 0;
    for word in eight {
        some |= *word ^ x;
    }
    some
}

// How many words from the start are x, as far as eights tell.
fn equal_eights(words: &[u64], x: u64) -> usize
    ensures { (result ≤ length words.now) × Alike words.now x 0 result }
{
    let (eights, _) = words.as_chunks::<8>();
    let passed = eights.iter().position(|eight| others(eight, x) != 0);
    8 * passed.unwrap_or(eights.len())
}

// The first word other than x, with its index. Long scans test eight words at a time. By index: where `position` finds it, the word is read once more.
fn first_other(words: &[u64], x: u64) -> Option<(usize, u64)>
    ensures { result ≡ word_found words.now (first_other x words.now) }
{
    for i in equal_eights(words, x)..words.len() {
        let word = words[i];
        if word != x {
            return Some((i, word));
        }
    }
    None
}

// The first word that is not zero, with its index.
pub fn first_nonzero(words: &[u64]) -> Option<(usize, u64)>
    ensures { result ≡ word_found words.now (first_other 0 words.now) }
{
    first_other(words, 0)
}

// The first word that is not all ones, with its index.
pub fn first_not_ones(words: &[u64]) -> Option<(usize, u64)>
    ensures { result ≡ word_found words.now (first_other all_ones words.now) }
{
    first_other(words, Word::ONES)
}

// An index from which on every word is zero, as far as eights tell.
fn zero_eights(words: &[u64]) -> usize
    ensures { (result ≤ length words.now) × Alike words.now 0 result (length words.now) }
{
    let (rest, eights) = words.as_rchunks::<8>();
    match eights.iter().rposition(|eight| others(eight, 0) != 0) {
        Some(last) => rest.len() + 8 * (last + 1),
        None => rest.len(),
    }
}

// The length without trailing zero words.
pub fn nonzero_len(words: &[u64]) -> usize
    ensures { result ≡ nonzero_len words.now }
{
    let end = zero_eights(words);
    match words[..end].iter().rposition(|word| *word != 0) {
        Some(last) => last + 1,
        None => 0,
    }
}

// Is every word zero?
pub fn is_zero(words: &[u64]) -> bool
    ensures { result ≡ is_zero words.now }
{
    first_nonzero(words).is_none()
}

// The number of set bits, of which the low 64 bits are kept: a store within the limit has fewer.
pub fn count_set_bits(words: &[u64]) -> usize
    ensures { result ≡ count_set words.now }
{
    words.iter().fold(0, |n: usize, word| n.wrapping_add(Word::count_ones(*word)))
}

// The words from index a on, below e, become x, as far as they are there.
pub fn fill_words(words: &mut [u64], a: usize, e: usize, x: u64)
    ensures { words.new ≡ filled_words a e x words.old }
{
    let end = e.min(words.len());
    if a < end {
        words[a..end].fill(x);
    }
}

// All bits set, or none.
fn all(value: bool) -> u64
    ensures { result ≡ choose value all_ones 0 }
{
    if value { Word::ONES } else { 0 }
}

// The bits of word k that lie from `from` on, below `end`.
fn places(from: usize, end: usize, k: usize) -> u64
    requires { 64 * k < 2 ^ 64 }
    ensures { result ≡ places_in from end k }
{
    let below = Word::low_mask(from.saturating_sub(64 * k));
    Word::low_mask(end.saturating_sub(64 * k)) & !below
}

// Word k with `value` at the places of the mask, if the word is there.
fn overlay(words: &mut [u64], k: usize, mask: u64, value: bool)
    ensures { words.new ≡ slice_set words.old k (filled_places (slice_index words.old k) mask value) }
{
    if k < words.len() {
        if value {
            words[k] |= mask;
        } else {
            words[k] &= !mask;
        }
    }
}

// Every bit from `from` on, below `end`, becomes `value`, as far as the words go: the two edge words by masks, the words between whole.
pub fn fill_region(words: &mut [u64], from: usize, end: usize, value: bool)
    ensures { words.new ≡ filled from end value words.old }
{
    let first = from / 64;
    let last = end / 64;
    overlay(words, first, places(from, end, first), value);
    fill_words(words, first + 1, last, all(value));
    overlay(words, last, places(from, end, last), value);
}
