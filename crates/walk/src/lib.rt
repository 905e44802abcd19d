// Walks over the numbers that two bitmaps make together, with no result built. The shorter bitmap reads as zero past its words.
//
// Every call refuses for the first store and then for the second, and changes nothing. Each kernel takes the words in use of the two bitmaps.
//
// The calls differ in the operation alone: C calls each by its own name.
#![tactic(auto)]

mod kernels;

ghost use Rattle.std.specs.Prelude.{◌≡◌};
ghost use Rattle.pairs.specs.declared.SetOp.TheVariants.{And, AndNot, Or, Xor};
ghost use Rattle.walk.specs.Walks.{walk_of};

use pairs::SetOp;
use storage::{Bitmap, Refusal};

// The least number from i on that the operation makes of the two bitmaps, or nothing. It is taken into each call, where the operation is known: called with
// any, it takes half as long again.
#[inline(always)]
fn walk(
    op: SetOp,
    words: &[u64],
    b: Bitmap,
    other: &[u64],
    o: Bitmap,
    i: usize,
) -> Result<Option<usize>, Refusal>
    ensures { result ≡ walk_of op words.now b other.now o i }
{
    storage::check_two(words, b, other, o)?;
    let first = &words[..b.count];
    let second = &other[..o.count];
    if let Some(p) = kernels::near(op, first, second, i) {
        return Ok(Some(p));
    }
    Ok(kernels::far(op, first, second, i / 64 + 2))
}

// The least number from i on that is in both bitmaps, or nothing.
pub fn iter_and(
    words: &[u64],
    b: Bitmap,
    other: &[u64],
    o: Bitmap,
    i: usize,
) -> Result<Option<usize>, Refusal>
    ensures { result ≡ walk_of And words.now b other.now o i }
{
    walk(SetOp::And, words, b, other, o, i)
}

// The least number from i on that is in either bitmap, or nothing.
pub fn iter_or(
    words: &[u64],
    b: Bitmap,
    other: &[u64],
    o: Bitmap,
    i: usize,
) -> Result<Option<usize>, Refusal>
    ensures { result ≡ walk_of Or words.now b other.now o i }
{
    walk(SetOp::Or, words, b, other, o, i)
}

// The least number from i on that is in one bitmap and not in both, or nothing.
pub fn iter_xor(
    words: &[u64],
    b: Bitmap,
    other: &[u64],
    o: Bitmap,
    i: usize,
) -> Result<Option<usize>, Refusal>
    ensures { result ≡ walk_of Xor words.now b other.now o i }
{
    walk(SetOp::Xor, words, b, other, o, i)
}

// The least number from i on that is in the first bitmap and not in the second, or nothing.
pub fn iter_andnot(
    words: &[u64],
    b: Bitmap,
    other: &[u64],
    o: Bitmap,
    i: usize,
) -> Result<Option<usize>, Refusal>
    ensures { result ≡ walk_of AndNot words.now b other.now o i }
{
    walk(SetOp::AndNot, words, b, other, o, i)
}
