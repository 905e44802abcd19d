// Walks to the lowest set bit, from a place on, of what an operation makes of the words in use of two bitmaps; the shorter list reads as zero past its end.
//
// A walk is cut in two where a call seldom goes on: each part is short enough for the compiler to take it into the call, with the operation known. The guard
// gives `store_limit`: a type for such words would be built at each call.
ghost use Rattle.std.specs.Prelude.{◌+◌, ◌/◌, ◌≤◌, length};
ghost use Rattle.pairs.specs.Pairs.{words_by};
ghost use Rattle.storage.specs.Stores.{store_limit};
ghost use Rattle.walk.specs.Kernels.{NextBelow, NextBeyond};

use pairs::SetOp;
use word::Word;

// The place of the lowest set bit from i on, in the word of i or in the next, or nothing.
pub(crate) fn near(op: SetOp, a: &[u64], b: &[u64], i: usize) -> Option<usize>
    requires a_short { length a.now ≤ store_limit }
    requires b_short { length b.now ≤ store_limit }
    ensures { NextBelow (words_by op a.now b.now) i (i / 64 + 2) result }
{
    let first = i / 64;
    let t = (pairs::word_at(op, a, b, first) >> (i % 64)) << (i % 64);
    if t != 0 {
        return Some(64 * first + Word::trailing_zeros(t));
    }
    let u = pairs::word_at(op, a, b, first + 1);
    if u != 0 {
        return Some(64 * (first + 1) + Word::trailing_zeros(u));
    }
    None
}

// The place of the lowest set bit from word `from` on, or nothing.
pub(crate) fn far(op: SetOp, a: &[u64], b: &[u64], from: usize) -> Option<usize>
    requires a_short { length a.now ≤ store_limit }
    requires b_short { length b.now ≤ store_limit }
    ensures { NextBeyond (words_by op a.now b.now) from result }
{
    let end = pairs::end_of(op, a.len(), b.len());
    let k = (pairs::zero_eights(op, a, b, from)..end).find(|k| pairs::word_at(op, a, b, *k) != 0)?;
    Some(64 * k + Word::trailing_zeros(pairs::word_at(op, a, b, k)))
}
