// Set algebra between two bitmaps that builds no result: tests and counts. The shorter bitmap reads as zero past its words.
//
// Every call refuses for the first store and then for the second, and changes nothing. Each kernel takes the words in use of the two bitmaps.
//
// The calls differ in the operation alone: C calls each by its own name.
#![tactic(auto)]

ghost use Rattle.std.specs.Prelude.{◌≡◌};
ghost use Rattle.arch.specs.Scans.{count_set};
ghost use Rattle.pairs.specs.Pairs.{words_by};
ghost use Rattle.pairs.specs.declared.SetOp.TheVariants.{And, AndNot, Or, Xor};
ghost use Rattle.algebra.specs.Algebra.{empty_of, count_of};

use pairs::SetOp;
use storage::{Bitmap, Refusal};
use word::Word;

// Does the operation make no member of the two bitmaps?
fn makes_none(
    op: SetOp,
    words: &[u64],
    b: Bitmap,
    other: &[u64],
    o: Bitmap,
) -> Result<bool, Refusal>
    ensures { result ≡ empty_of op words.now b other.now o }
{
    storage::check_two(words, b, other, o)?;
    Ok(pairs::is_zero(op, &words[..b.count], &other[..o.count]))
}

// Is every member of the first bitmap one of the second? The empty bitmap's are.
pub fn is_subset(words: &[u64], b: Bitmap, other: &[u64], o: Bitmap) -> Result<bool, Refusal>
    ensures { result ≡ empty_of AndNot words.now b other.now o }
{
    makes_none(SetOp::AndNot, words, b, other, o)
}

// Have the two bitmaps no member in common?
pub fn is_disjoint(words: &[u64], b: Bitmap, other: &[u64], o: Bitmap) -> Result<bool, Refusal>
    ensures { result ≡ empty_of And words.now b other.now o }
{
    makes_none(SetOp::And, words, b, other, o)
}

// The set bits that the operation makes, of which the low 64 bits are kept: words within the limit have fewer.
fn set_bits(op: SetOp, a: &[u64], b: &[u64]) -> usize
    ensures { result ≡ count_set (words_by op a.now b.now) }
{
    let both = a.len().min(b.len());
    let mut sum: usize = 0;
    // A `zip` of the two takes more than twice as long.
    for k in 0..both {
        sum = sum.wrapping_add(Word::count_ones(op.word(a[k], b[k])));
    }
    for x in &a[both..] {
        sum = sum.wrapping_add(Word::count_ones(op.word(*x, 0)));
    }
    for y in &b[both..] {
        sum = sum.wrapping_add(Word::count_ones(op.word(0, *y)));
    }
    sum
}

// How many members does the operation make of the two bitmaps?
fn count(op: SetOp, words: &[u64], b: Bitmap, other: &[u64], o: Bitmap) -> Result<usize, Refusal>
    ensures { result ≡ count_of op words.now b other.now o }
{
    storage::check_two(words, b, other, o)?;
    Ok(set_bits(op, &words[..b.count], &other[..o.count]))
}

// How many numbers are in both bitmaps.
pub fn and_count(words: &[u64], b: Bitmap, other: &[u64], o: Bitmap) -> Result<usize, Refusal>
    ensures { result ≡ count_of And words.now b other.now o }
{
    count(SetOp::And, words, b, other, o)
}

// How many numbers are in either bitmap.
pub fn or_count(words: &[u64], b: Bitmap, other: &[u64], o: Bitmap) -> Result<usize, Refusal>
    ensures { result ≡ count_of Or words.now b other.now o }
{
    count(SetOp::Or, words, b, other, o)
}

// How many numbers are in one bitmap and not in both.
pub fn xor_count(words: &[u64], b: Bitmap, other: &[u64], o: Bitmap) -> Result<usize, Refusal>
    ensures { result ≡ count_of Xor words.now b other.now o }
{
    count(SetOp::Xor, words, b, other, o)
}

// How many numbers are in the first bitmap and not in the second.
pub fn andnot_count(words: &[u64], b: Bitmap, other: &[u64], o: Bitmap) -> Result<usize, Refusal>
    ensures { result ≡ count_of AndNot words.now b other.now o }
{
    count(SetOp::AndNot, words, b, other, o)
}
