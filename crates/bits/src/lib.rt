// Single-bit and whole-bitmap updates and counts within the length: toggle, complement, reverse, counts, rank and select.
#![tactic(auto, using(storage::proofs::Checks::passed, storage::proofs::Checks::reading_raised, std::proofs::lemmas::Grind::moves))]

ghost use Rattle.std.specs.Prelude.{◌≡◌, not, suc, ◌+◌, ◌-◌, ◌*◌, ◌≤◌, ◌<◌, length, MatchOption, Ok, Err};
ghost use Rattle.word.specs.Sets.{count_below};
ghost use Rattle.word.specs.Places.{bit, member, words_of};
ghost use Rattle.storage.specs.Stores.{store_limit, reading, Changes};
ghost use Rattle.bitwise.specs.Bitwise.{toggling_inside, inverting, reversing, clear_size, count_region, rank_of, selected};
ghost use Rattle.bits.specs.Kernels.{Passing, Meets};

use storage::{Bitmap, Refusal, Refused};
use word::Word;

// Flips bit i; 5 past the length.
pub fn toggle(words: &mut [u64], b: Bitmap, i: usize) -> Result<Bitmap, Refused>
    ensures { Changes (toggling_inside i) words.old b result words.new }
{
    let n = b.count;
    storage::check(words, b)?;
    let k = i / 64;
    if k >= n {
        return Err(Refused(Refusal::PastLength, b));
    }
    words[k] ^= Word::bit(i);
    Ok(b)
}

// Every bit of the words flipped.
pub fn invert_words(words: &mut [u64])
    ensures { words.new ≡ words_of (λ i. not (member words.old i)) (length words.old) }
{
    for x in words.iter_mut() {
        *x = !*x;
    }
}

// Flips every bit below the length. `reverse` differs in two lines: a function of both needs a longer contract than they have, as `keep_count` of shift.
pub fn invert(words: &mut [u64], b: Bitmap) -> Result<Bitmap, Refused>
    ensures { Changes inverting words.old b result words.new }
{
    let n = b.count;
    storage::check(words, b)?;
    invert_words(&mut words[..n]);
    Ok(b)
}

// The bits of the words in the other order: from both ends, two words trade places, each reversed.
pub fn reverse_words(words: &mut [u64])
    ensures { words.new ≡ words_of (λ i. member words.old (64 * length words.old - suc i)) (length words.old) }
{
    let n = words.len();
    // By index, as a step writes two words: the words in reverse order and then each word reversed would be two passes.
    for lo in 0..n.div_ceil(2) {
        let hi = n - 1 - lo;
        let low = Word::reverse_bits(words[lo]);
        let high = Word::reverse_bits(words[hi]);
        words[lo] = high;
        words[hi] = low;
    }
}

// Bit i goes to the length less i less 1.
pub fn reverse(words: &mut [u64], b: Bitmap) -> Result<Bitmap, Refused>
    ensures { Changes reversing words.old b result words.new }
{
    let n = b.count;
    storage::check(words, b)?;
    reverse_words(&mut words[..n]);
    Ok(b)
}

// The number of clear bits below the length.
pub fn count_clear_bits(words: &[u64], b: Bitmap) -> Result<usize, Refusal>
    ensures { result ≡ reading words.now b Err (λ s. Ok (clear_size s)) }
{
    let n = b.count;
    storage::check(words, b)?;
    Ok(64 * n - arch::count_set_bits(&words[..n]))
}

// The set bits of x from place `from` on, below `end`.
fn count_places(x: u64, from: usize, end: usize) -> usize
    requires { (from < 64) × (from ≤ end) × (end ≤ 64) }
    ensures { result ≡ count_below (λ j. bit x (from + j)) (end - from) }
{
    Word::count_ones((x >> from) & Word::low_mask(end - from))
}

// The set bits from i on, below `end`: the two edge words by their places, the words between whole. The guard gives `store_limit`, here and below: a type for
// such words would be built at each call.
fn count_between(words: &[u64], i: usize, end: usize) -> usize
    requires { (i ≤ end) × (end ≤ 64 * length words.now) × (length words.now ≤ store_limit) }
    ensures { result ≡ count_below (λ j. member words.now (i + j)) (end - i) }
{
    if i == end {
        return 0;
    }
    let first = i / 64;
    let last = end / 64;
    if first == last {
        return count_places(words[first], i % 64, end % 64);
    }
    let head = count_places(words[first], i % 64, 64);
    let body = arch::count_set_bits(&words[first + 1..last]);
    if end % 64 == 0 {
        return head + body;
    }
    head + body + count_places(words[last], 0, end % 64)
}

// The number of set bits among the k bits from i on; it stops at the length.
pub fn count_region(words: &[u64], b: Bitmap, i: usize, k: usize) -> Result<usize, Refusal>
    ensures { result ≡ reading words.now b Err (λ s. Ok (count_region i k s)) }
{
    let n = b.count;
    storage::check(words, b)?;
    if i >= 64 * n {
        return Ok(0);
    }
    let end = i + k.min(64 * n - i);
    Ok(count_between(&words[..n], i, end))
}

// The number of set bits below bit i.
pub fn rank(words: &[u64], b: Bitmap, i: usize) -> Result<usize, Refusal>
    ensures { result ≡ reading words.now b Err (λ s. Ok (rank_of i s)) }
{
    let n = b.count;
    storage::check(words, b)?;
    Ok(count_between(&words[..n], 0, i.min(64 * n)))
}

// Where a rank is met: the words before index `at` are counted, and `left` of the rank remains.
#[derive(Clone, Copy, Debug, PartialEq, Eq)]
struct Skip {
    at: usize,
    left: usize,
}

// Passes eight words a step by their count.
fn skip_eights(words: &[u64], r: usize) -> Skip
    requires { length words.now ≤ store_limit }
    ensures { Passing words.now r result.at result.left }
{
    let (eights, _) = words.as_chunks::<8>();
    let mut left = r;
    for (k, eight) in eights.iter().enumerate() {
        let c = arch::count_set_bits(eight);
        if left < c {
            return Skip { at: 8 * k, left };
        }
        left -= c;
    }
    Skip {
        at: 8 * eights.len(),
        left,
    }
}

// Passes words until one has more set bits than are left of the rank, if there is one.
fn skip_words(words: &[u64], r: usize) -> Option<Skip>
    requires { length words.now ≤ store_limit }
    ensures { MatchOption result (count_below (member words.now) (64 * length words.now) ≤ r) (λ s. Meets words.now r s.at s.left) }
{
    let from = skip_eights(words, r);
    let mut left = from.left;
    // By index, as that is what is answered: `enumerate` and `skip` would say no more.
    for at in from.at..words.len() {
        let c = Word::count_ones(words[at]);
        if left < c {
            return Some(Skip { at, left });
        }
        left -= c;
    }
    None
}

// The set bit with exactly r set bits below it.
pub fn select(words: &[u64], b: Bitmap, r: usize) -> Result<Option<usize>, Refusal>
    ensures { result ≡ reading words.now b Err (selected r) }
{
    let n = b.count;
    storage::check(words, b)?;
    let Some(Skip { at, left }) = skip_words(&words[..n], r) else {
        return Ok(None);
    };
    Ok(Some(64 * at + select::select_u64(words[at], left)))
}
