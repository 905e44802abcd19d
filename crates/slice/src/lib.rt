// Reading calls and strict fields within the words in use: single bits, fields and equality.
//
// A read past the end gives zeros. Each call on a bitmap looks at its store first: 1, then 2.
#![tactic(auto, using(storage::proofs::Checks::passed, storage::proofs::Checks::passed_two, storage::proofs::Checks::reading_raised, storage::proofs::Checks::both_raised, std::proofs::lemmas::Grind::moves))]

ghost use Rattle.std.specs.Prelude.{◌≡◌, ◌+◌, ◌<◌, length, get_or, set, Ok, Err};
ghost use Rattle.storage.specs.Stores.{reading, reading_both, Changes};
ghost use Rattle.slice.specs.Slices.{front_part, equal, field_at, setting_field_inside};
ghost use Rattle.slice.specs.Kernels.{overlaid};

use pairs::SetOp;
use storage::{Bitmap, Refusal, Refused};
use word::Word;

// The words without trailing zero words: the front part of the caller's words.
pub fn trimmed(words: &[u64]) -> &[u64]
    ensures { result.now ≡ front_part words.now }
{
    let n = arch::nonzero_len(words);
    &words[..n]
}

// Bit i; false past the end.
pub fn get(words: &[u64], b: Bitmap, i: usize) -> Result<bool, Refusal>
    ensures { result ≡ reading words.now b Err (λ s. Ok (s.members i)) }
{
    let n = b.count;
    storage::check(words, b)?;
    let k = i / 64;
    if k >= n {
        return Ok(false);
    }
    Ok((words[k] >> (i % 64)) & 1 != 0)
}

// The bits from i on, below i + width, as a number; zeros past the end, whatever i. 3 over 64 bits.
pub fn get_field(words: &[u64], b: Bitmap, i: usize, width: usize) -> Result<u64, Refusal>
    ensures { result ≡ reading words.now b Err (field_at i width) }
{
    let n = b.count;
    storage::check(words, b)?;
    if width > 64 {
        return Err(Refusal::WidthOver);
    }
    let k = i / 64;
    let lo = arch::word_at(&words[..n], k);
    let hi = arch::word_at(&words[..n], k + 1);
    let from = Word::funnel(lo, hi, i % 64, 64 - i % 64);
    Ok(from & Word::low_mask(width))
}

// Word k takes the bits of x at the places of the mask. arch has another, which gives all places one value.
fn overlay(words: &mut [u64], k: usize, x: u64, mask: u64)
    requires { k < length words.old }
    ensures { words.new ≡ set words.old k (overlaid (get_or words.old k 0) x mask) }
{
    words[k] = (words[k] & !mask) | (x & mask);
}

// The bits from i on, below i + width, become the low bits of value. 3 over 64 bits; 5 if one of them is past the length, before anything is written.
pub fn set_field_strict(
    words: &mut [u64],
    b: Bitmap,
    i: usize,
    value: u64,
    width: usize,
) -> Result<Bitmap, Refused>
    ensures { Changes (setting_field_inside i value width) words.old b result words.new }
{
    let n = b.count;
    storage::check(words, b)?;
    if width > 64 {
        return Err(Refused(Refusal::WidthOver, b));
    }
    if width == 0 {
        return Ok(b);
    }
    if width > (64 * n).saturating_sub(i) {
        return Err(Refused(Refusal::PastLength, b));
    }
    let k = i / 64;
    let r = i % 64;
    overlay(words, k, value << r, Word::low_mask(width) << r);
    if r + width <= 64 {
        return Ok(b);
    }
    let done = 64 - r;
    overlay(words, k + 1, value >> done, Word::low_mask(width - done));
    Ok(b)
}

// Do both have the same bits set? Trailing zero words do not count.
pub fn eq(words: &[u64], b: Bitmap, other: &[u64], o: Bitmap) -> Result<bool, Refusal>
    ensures { result ≡ reading_both words.now b other.now o Err (λ s t. Ok (equal s t)) }
{
    let n = b.count;
    let m = o.count;
    storage::check_two(words, b, other, o)?;
    let x = trimmed(&words[..n]);
    let y = trimmed(&other[..m]);
    if x.len() != y.len() {
        return Ok(false);
    }
    // Not `x == y`: that compares a word a step and takes 1.3 to 1.9 times as long on 1,000 words.
    Ok(pairs::is_zero(SetOp::Xor, x, y))
}
