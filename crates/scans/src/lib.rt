// Searches within the words in use: the first and the last set bit, the first clear one, the next of either from a place on; and the number of set bits.
//
// Each call looks at its store first: 1, then 2.
#![tactic(auto, using(storage::proofs::Checks::passed, storage::proofs::Checks::reading_raised, std::proofs::lemmas::Grind::moves, arch::proofs::Scans::nonzero_le, crate::proofs::Scans::zeros_le))]

ghost use Rattle.std.specs.Prelude.{◌≡◌, ◌+◌, Ok, Err};
ghost use Rattle.storage.specs.Stores.{reading, size, next_from};
ghost use Rattle.scans.specs.Searches.{last_set, next_clear};

use storage::{Bitmap, Refusal};
use word::Word;

// The lowest set bit.
pub fn first_set(words: &[u64], b: Bitmap) -> Result<Option<usize>, Refusal>
    ensures { result ≡ reading words.now b Err (λ s. next_from s 0) }
{
    next_set(words, b, 0)
}

// The highest set bit.
pub fn last_set(words: &[u64], b: Bitmap) -> Result<Option<usize>, Refusal>
    ensures { result ≡ reading words.now b Err last_set }
{
    let n = b.count;
    storage::check(words, b)?;
    let m = arch::nonzero_len(&words[..n]);
    if m == 0 {
        return Ok(None);
    }
    Ok(Some(64 * m - 1 - Word::leading_zeros(words[m - 1])))
}

// The lowest clear bit; the length if every bit below it is set.
pub fn first_clear(words: &[u64], b: Bitmap) -> Result<usize, Refusal>
    ensures { result ≡ reading words.now b Err (λ s. Ok (next_clear s 0)) }
{
    next_clear(words, b, 0)
}

// The number of set bits.
pub fn count_set_bits(words: &[u64], b: Bitmap) -> Result<usize, Refusal>
    ensures { result ≡ reading words.now b Err (λ s. Ok (size s)) }
{
    let n = b.count;
    storage::check(words, b)?;
    Ok(arch::count_set_bits(&words[..n]))
}

// The first set bit from i on: in the word of i by itself, then in the first word after it that is not zero.
pub fn next_set(words: &[u64], b: Bitmap, i: usize) -> Result<Option<usize>, Refusal>
    ensures { result ≡ reading words.now b Err (λ s. next_from s i) }
{
    let n = b.count;
    storage::check(words, b)?;
    let k = i / 64;
    if k >= n {
        return Ok(None);
    }
    let t = (words[k] >> (i % 64)) << (i % 64);
    if t != 0 {
        return Ok(Some(64 * k + Word::trailing_zeros(t)));
    }
    let next = k + 1;
    let Some((p, x)) = arch::first_nonzero(&words[next..n]) else {
        return Ok(None);
    };
    Ok(Some(64 * (next + p) + Word::trailing_zeros(x)))
}

// The first clear bit from i on; from the length on that is i.
// Not one function with next_set: it calls another kernel, on complements, and has a place to answer where that one has none.
pub fn next_clear(words: &[u64], b: Bitmap, i: usize) -> Result<usize, Refusal>
    ensures { result ≡ reading words.now b Err (λ s. Ok (next_clear s i)) }
{
    let n = b.count;
    storage::check(words, b)?;
    let k = i / 64;
    if k >= n {
        return Ok(i);
    }
    let t = (!words[k] >> (i % 64)) << (i % 64);
    if t != 0 {
        return Ok(64 * k + Word::trailing_zeros(t));
    }
    let next = k + 1;
    match arch::first_not_ones(&words[next..n]) {
        Some((p, x)) => Ok(64 * (next + p) + Word::trailing_zeros(!x)),
        None => Ok(64 * n),
    }
}
