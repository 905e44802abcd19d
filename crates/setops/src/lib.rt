// Set operations of a bitmap with another, in place.
//
// Every call refuses for its own store and then for the other's.
//
// The calls differ in the operation alone: C calls each by its own name.
#![tactic(auto)]

ghost use Rattle.std.specs.Prelude.{◌≡◌, ◌≤◌, ◌⊎◌, max, length, get_or, take};
ghost use Rattle.arch.specs.Scans.{nonzero_len};
ghost use Rattle.pairs.specs.Pairs.{word_by, words_by, end_by};
ghost use Rattle.pairs.specs.declared.SetOp.TheVariants.{And, AndNot, Xor};
ghost use Rattle.storage.specs.Stores.{beside, Changes};
ghost use Rattle.storage.specs.Kernels.{Put};
ghost use Rattle.setops.specs.Setops.{combining, uniting};

use pairs::SetOp;
use storage::{Bitmap, Refusal, Refused};

// The operation on the words below e, in place: a store can't be lent twice, so combine has its own, which writes into a third.
fn zip_words(op: SetOp, words: &mut [u64], other: &[u64], e: usize)
    requires { (e ≤ length words.old) × (e ≤ length other.now) }
    ensures { Put (λ k. word_by op (get_or words.old k 0) (get_or other.now k 0)) 0 e words.old words.new }
{
    for (k, word) in words[..e].iter_mut().enumerate() {
        *word = op.word(*word, other[k]);
    }
}

// The words that the operation makes of those in use and the other's, in place, as above. A word that comes into use is zero before, one that falls out of
// use after.
fn put(op: SetOp, words: &mut [u64], n: usize, other: &[u64], end: usize)
    requires { (n ≤ length words.old) × (end ≤ length words.old) × (end ≡ end_by op n (length other.now)) }
    ensures { Put (λ k. get_or (words_by op (take n words.old) other.now) k 0) 0 (max n end)
        words.old words.new }
{
    storage::zero_words(words, n, end);
    zip_words(op, words, other, end.min(other.len()));
    storage::zero_words(words, end, n);
}

// How many of the other's words an operation on n words needs: zero words at the other's end need no space, and are looked for only where n is too little,
// or where the operation would go through them and change nothing.
fn needed(op: SetOp, n: usize, other: &[u64]) -> usize
    ensures { (result ≡ nonzero_len other.now) ⊎ ((result ≡ length other.now) × (end_by op n result ≤ n)) }
{
    if op != SetOp::Xor && pairs::end_of(op, n, other.len()) <= n {
        return other.len();
    }
    arch::nonzero_len(other)
}

// The members that the operation makes of the two bitmaps, in place; drops trailing zero words. It is taken into each call, where the operation is known.
#[inline(always)]
fn combine_in_place(
    op: SetOp,
    words: &mut [u64],
    b: Bitmap,
    other: &[u64],
    o: Bitmap,
) -> Result<Bitmap, Refused>
    ensures { Changes (beside other.now o (combining op)) words.old b result words.new }
{
    storage::check_two(words, b, other, o)?;
    let last = needed(op, b.count, &other[..o.count]);
    let end = pairs::end_of(op, b.count, last);
    if end > words.len() {
        return Err(Refused(Refusal::NoSpace, b));
    }
    put(op, words, b.count, &other[..last], end);
    Ok(Bitmap {
        count: arch::nonzero_len(&words[..end]),
        ..b
    })
}

// The members of both bitmaps, in place; drops trailing zero words.
pub fn and(words: &mut [u64], b: Bitmap, other: &[u64], o: Bitmap) -> Result<Bitmap, Refused>
    ensures { Changes (beside other.now o (combining And)) words.old b result words.new }
{
    combine_in_place(SetOp::And, words, b, other, o)
}

// The members of the first bitmap that are not in the second, in place; drops trailing zero words.
pub fn andnot(words: &mut [u64], b: Bitmap, other: &[u64], o: Bitmap) -> Result<Bitmap, Refused>
    ensures { Changes (beside other.now o (combining AndNot)) words.old b result words.new }
{
    combine_in_place(SetOp::AndNot, words, b, other, o)
}

// The members of either bitmap, in place; grows to the longer and drops nothing, so it shares `put` alone with the others.
pub fn or(words: &mut [u64], b: Bitmap, other: &[u64], o: Bitmap) -> Result<Bitmap, Refused>
    ensures { Changes (beside other.now o uniting) words.old b result words.new }
{
    storage::check_two(words, b, other, o)?;
    let end = b.count.max(o.count);
    if end > words.len() {
        return Err(Refused(Refusal::NoSpace, b));
    }
    put(SetOp::Or, words, b.count, &other[..o.count], end);
    Ok(Bitmap { count: end, ..b })
}

// The members of one bitmap only, in place; drops trailing zero words. Zero words at the other's end need no space.
pub fn xor(words: &mut [u64], b: Bitmap, other: &[u64], o: Bitmap) -> Result<Bitmap, Refused>
    ensures { Changes (beside other.now o (combining Xor)) words.old b result words.new }
{
    combine_in_place(SetOp::Xor, words, b, other, o)
}
