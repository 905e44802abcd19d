// Set operations of two bitmaps into another store. What that store held before is discarded.
//
// Every call refuses for the store that is written, then for the two that are read. The words of the result are counted before one is written.
//
// The calls differ in the operation alone: C calls each by its own name.
#![tactic(auto)]

mod kernels;

ghost use Rattle.std.specs.Prelude.{◌≤◌, length};
ghost use Rattle.arch.specs.Scans.{nonzero_len};
ghost use Rattle.pairs.specs.Pairs.{words_by, end_by};
ghost use Rattle.pairs.specs.declared.SetOp.TheVariants.{And, AndNot, Xor};
ghost use Rattle.storage.specs.Stores.{view, within, Leaves, Changes, Makes};
ghost use Rattle.combine.specs.Combine.{combining_from, uniting_from, beside_both};

use pairs::SetOp;
use storage::{Bitmap, Refusal, Refused};

// The first m words that the operation makes of the words in use of two bitmaps; those that fall out of use become zero.
#[inline(always)]
fn put(
    op: SetOp,
    words: &mut [u64],
    b: Bitmap,
    left: &[u64],
    right: &[u64],
    m: usize,
) -> Result<Bitmap, Refused>
    requires holds { nonzero_len (words_by op left.now right.now) ≤ m }
    requires within { m ≤ end_by op (length left.now) (length right.now) }
    ensures { Leaves (within (length words.old) (view (words_by op left.now right.now) m)) words.old b result words.new }
{
    if m > words.len() {
        return Err(Refused(Refusal::NoSpace, b));
    }
    kernels::zip_words(op, words, left, right, left.len().min(right.len()).min(m));
    kernels::copy_tail(words, left, right, m);
    storage::zero_words(words, m, b.count);
    Ok(Bitmap { count: m, ..b })
}

// What the operation makes of two bitmaps, in the fewest words. It is taken into each call, where the operation is known.
#[inline(always)]
fn fewest_from(
    op: SetOp,
    words: &mut [u64],
    b: Bitmap,
    left: &[u64],
    l: Bitmap,
    right: &[u64],
    r: Bitmap,
) -> Result<Bitmap, Refused>
    ensures { Changes (beside_both left.now l right.now r (combining_from op)) words.old b result words.new }
{
    storage::check_three(words, b, left, l, right, r)?;
    let x = &left[..l.count];
    let y = &right[..r.count];
    put(op, words, b, x, y, pairs::nonzero_len(op, x, y))
}

// The members of both bitmaps, in the fewest words.
pub fn and_from(
    words: &mut [u64],
    b: Bitmap,
    left: &[u64],
    l: Bitmap,
    right: &[u64],
    r: Bitmap,
) -> Result<Bitmap, Refused>
    ensures { Changes (beside_both left.now l right.now r (combining_from And)) words.old b result words.new }
{
    fewest_from(SetOp::And, words, b, left, l, right, r)
}

// The members of the left bitmap that are not in the right one, in the fewest words.
pub fn andnot_from(
    words: &mut [u64],
    b: Bitmap,
    left: &[u64],
    l: Bitmap,
    right: &[u64],
    r: Bitmap,
) -> Result<Bitmap, Refused>
    ensures { Changes (beside_both left.now l right.now r (combining_from AndNot)) words.old b result words.new }
{
    fewest_from(SetOp::AndNot, words, b, left, l, right, r)
}

// The members of either bitmap, in as many words as the longer, which no zero at its end is dropped from: so it shares `put` alone with the others.
pub fn or_from(
    words: &mut [u64],
    b: Bitmap,
    left: &[u64],
    l: Bitmap,
    right: &[u64],
    r: Bitmap,
) -> Result<Bitmap, Refused>
    ensures { Changes (beside_both left.now l right.now r uniting_from) words.old b result words.new }
{
    storage::check_three(words, b, left, l, right, r)?;
    let m = l.count.max(r.count);
    put(SetOp::Or, words, b, &left[..l.count], &right[..r.count], m)
}

// The members of one bitmap only, in the fewest words.
pub fn xor_from(
    words: &mut [u64],
    b: Bitmap,
    left: &[u64],
    l: Bitmap,
    right: &[u64],
    r: Bitmap,
) -> Result<Bitmap, Refused>
    ensures { Changes (beside_both left.now l right.now r (combining_from Xor)) words.old b result words.new }
{
    fewest_from(SetOp::Xor, words, b, left, l, right, r)
}

// The members of both bitmaps, into a store with no earlier count.
pub fn dup_and(
    words: &mut [u64],
    left: &[u64],
    l: Bitmap,
    right: &[u64],
    r: Bitmap,
) -> Result<Bitmap, Refused>
    ensures { Makes (beside_both left.now l right.now r (combining_from And)) words.old result words.new }
{
    and_from(words, storage::EMPTY, left, l, right, r)
}

// The members of the left bitmap that are not in the right one, into a store with no earlier count.
pub fn dup_andnot(
    words: &mut [u64],
    left: &[u64],
    l: Bitmap,
    right: &[u64],
    r: Bitmap,
) -> Result<Bitmap, Refused>
    ensures { Makes (beside_both left.now l right.now r (combining_from AndNot)) words.old result words.new }
{
    andnot_from(words, storage::EMPTY, left, l, right, r)
}

// The members of either bitmap, into a store with no earlier count.
pub fn dup_or(
    words: &mut [u64],
    left: &[u64],
    l: Bitmap,
    right: &[u64],
    r: Bitmap,
) -> Result<Bitmap, Refused>
    ensures { Makes (beside_both left.now l right.now r uniting_from) words.old result words.new }
{
    or_from(words, storage::EMPTY, left, l, right, r)
}

// The members of one bitmap only, into a store with no earlier count.
pub fn dup_xor(
    words: &mut [u64],
    left: &[u64],
    l: Bitmap,
    right: &[u64],
    r: Bitmap,
) -> Result<Bitmap, Refused>
    ensures { Makes (beside_both left.now l right.now r (combining_from Xor)) words.old result words.new }
{
    xor_from(words, storage::EMPTY, left, l, right, r)
}
