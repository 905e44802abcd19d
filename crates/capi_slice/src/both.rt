// Two bitmaps compared, counted and walked.
ghost use Rattle.std.specs.Prelude.{Err};
ghost use Rattle.storage.specs.Stores.{reading_both, bitmap_of};
ghost use Rattle.slice.specs.Slices.{equal};
ghost use Rattle.pairs.specs.declared.SetOp.TheVariants.{And, AndNot, Or, Xor};
ghost use Rattle.algebra.specs.Algebra.{empty_of, count_of};
ghost use Rattle.walk.specs.Walks.{walk_of};
ghost use Rattle.answers.specs.Answers.{FoundOut, AmountOut, TruthOut};

use storage::{Bitmap, EMPTY};

// Whether both hold the same set.
#[unsafe(no_mangle)]
pub extern "C" fn taxolbin_eq(
    words: &[u64],
    count: usize,
    other: &[u64],
    ocount: usize,
    value: &mut usize,
) -> u32
    ensures { TruthOut (reading_both words.now (bitmap_of count) other.now (bitmap_of ocount) Err
        (λ s t. Ok (equal s t))) result value.new }
{
    let o = Bitmap {
        count: ocount,
        ..EMPTY
    };
    let a = slice::eq(words, Bitmap { count, ..EMPTY }, other, o);
    answers::truth(a, value)
}

// Whether every set bit of the first is set in the second.
#[unsafe(no_mangle)]
pub extern "C" fn taxolbin_is_subset(
    words: &[u64],
    count: usize,
    other: &[u64],
    ocount: usize,
    value: &mut usize,
) -> u32
    ensures { TruthOut (empty_of AndNot words.now (bitmap_of count) other.now (bitmap_of ocount)) result value.new }
{
    let o = Bitmap {
        count: ocount,
        ..EMPTY
    };
    let a = algebra::is_subset(words, Bitmap { count, ..EMPTY }, other, o);
    answers::truth(a, value)
}

// Whether no bit is set in both.
#[unsafe(no_mangle)]
pub extern "C" fn taxolbin_is_disjoint(
    words: &[u64],
    count: usize,
    other: &[u64],
    ocount: usize,
    value: &mut usize,
) -> u32
    ensures { TruthOut (empty_of And words.now (bitmap_of count) other.now (bitmap_of ocount)) result value.new }
{
    let o = Bitmap {
        count: ocount,
        ..EMPTY
    };
    let a = algebra::is_disjoint(words, Bitmap { count, ..EMPTY }, other, o);
    answers::truth(a, value)
}

// How many bits are set in both.
#[unsafe(no_mangle)]
pub extern "C" fn taxolbin_and_count(
    words: &[u64],
    count: usize,
    other: &[u64],
    ocount: usize,
    value: &mut usize,
) -> u32
    ensures { AmountOut (count_of And words.now (bitmap_of count) other.now (bitmap_of ocount)) result value.new }
{
    let o = Bitmap {
        count: ocount,
        ..EMPTY
    };
    let a = algebra::and_count(words, Bitmap { count, ..EMPTY }, other, o);
    answers::amount(a, value)
}

// How many bits are set in either.
#[unsafe(no_mangle)]
pub extern "C" fn taxolbin_or_count(
    words: &[u64],
    count: usize,
    other: &[u64],
    ocount: usize,
    value: &mut usize,
) -> u32
    ensures { AmountOut (count_of Or words.now (bitmap_of count) other.now (bitmap_of ocount)) result value.new }
{
    let o = Bitmap {
        count: ocount,
        ..EMPTY
    };
    let a = algebra::or_count(words, Bitmap { count, ..EMPTY }, other, o);
    answers::amount(a, value)
}

// How many bits are set in one only.
#[unsafe(no_mangle)]
pub extern "C" fn taxolbin_xor_count(
    words: &[u64],
    count: usize,
    other: &[u64],
    ocount: usize,
    value: &mut usize,
) -> u32
    ensures { AmountOut (count_of Xor words.now (bitmap_of count) other.now (bitmap_of ocount)) result value.new }
{
    let o = Bitmap {
        count: ocount,
        ..EMPTY
    };
    let a = algebra::xor_count(words, Bitmap { count, ..EMPTY }, other, o);
    answers::amount(a, value)
}

// How many bits are set in the first only.
#[unsafe(no_mangle)]
pub extern "C" fn taxolbin_andnot_count(
    words: &[u64],
    count: usize,
    other: &[u64],
    ocount: usize,
    value: &mut usize,
) -> u32
    ensures { AmountOut (count_of AndNot words.now (bitmap_of count) other.now (bitmap_of ocount)) result value.new }
{
    let o = Bitmap {
        count: ocount,
        ..EMPTY
    };
    let a = algebra::andnot_count(words, Bitmap { count, ..EMPTY }, other, o);
    answers::amount(a, value)
}

// The least bit from i on that is set in both.
#[unsafe(no_mangle)]
pub extern "C" fn taxolbin_iter_and(
    words: &[u64],
    count: usize,
    other: &[u64],
    ocount: usize,
    i: usize,
    found: &mut usize,
    place: &mut usize,
) -> u32
    ensures { FoundOut (walk_of And words.now (bitmap_of count) other.now
        (bitmap_of ocount) i) result found.new place.new }
{
    let o = Bitmap {
        count: ocount,
        ..EMPTY
    };
    let a = walk::iter_and(words, Bitmap { count, ..EMPTY }, other, o, i);
    answers::found(a, found, place)
}

// The least bit from i on that is set in either.
#[unsafe(no_mangle)]
pub extern "C" fn taxolbin_iter_or(
    words: &[u64],
    count: usize,
    other: &[u64],
    ocount: usize,
    i: usize,
    found: &mut usize,
    place: &mut usize,
) -> u32
    ensures { FoundOut (walk_of Or words.now (bitmap_of count) other.now
        (bitmap_of ocount) i) result found.new place.new }
{
    let o = Bitmap {
        count: ocount,
        ..EMPTY
    };
    let a = walk::iter_or(words, Bitmap { count, ..EMPTY }, other, o, i);
    answers::found(a, found, place)
}

// The least bit from i on that is set in one only.
#[unsafe(no_mangle)]
pub extern "C" fn taxolbin_iter_xor(
    words: &[u64],
    count: usize,
    other: &[u64],
    ocount: usize,
    i: usize,
    found: &mut usize,
    place: &mut usize,
) -> u32
    ensures { FoundOut (walk_of Xor words.now (bitmap_of count) other.now (bitmap_of ocount) i) result
        found.new place.new }
{
    let o = Bitmap {
        count: ocount,
        ..EMPTY
    };
    let a = walk::iter_xor(words, Bitmap { count, ..EMPTY }, other, o, i);
    answers::found(a, found, place)
}

// The least bit from i on that is set in the first only.
#[unsafe(no_mangle)]
pub extern "C" fn taxolbin_iter_andnot(
    words: &[u64],
    count: usize,
    other: &[u64],
    ocount: usize,
    i: usize,
    found: &mut usize,
    place: &mut usize,
) -> u32
    ensures { FoundOut (walk_of AndNot words.now (bitmap_of count) other.now (bitmap_of ocount) i) result
        found.new place.new }
{
    let o = Bitmap {
        count: ocount,
        ..EMPTY
    };
    let a = walk::iter_andnot(words, Bitmap { count, ..EMPTY }, other, o, i);
    answers::found(a, found, place)
}
