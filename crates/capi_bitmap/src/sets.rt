// Set operations: of a bitmap with another, of two into a third store, and of two into a store with no earlier count.
ghost use Rattle.storage.specs.Stores.{beside, bitmap_of};
ghost use Rattle.pairs.specs.declared.SetOp.TheVariants.{And, AndNot, Xor};
ghost use Rattle.setops.specs.Setops.{combining, uniting};
ghost use Rattle.combine.specs.Combine.{combining_from, uniting_from, beside_both};
ghost use Rattle.calls.specs.Calls.{Changed};

use storage::{Bitmap, EMPTY};

// Keeps the bits that are set in both.
#[unsafe(no_mangle)]
pub extern "C" fn taxolbin_and(
    words: &mut [u64],
    count: &mut usize,
    other: &[u64],
    ocount: usize,
) -> u32
    ensures { Changed (beside other.now (bitmap_of ocount) (combining And)) words.old
        count.old result words.new count.new }
{
    let n = *count;
    let o = Bitmap {
        count: ocount,
        ..EMPTY
    };
    let a = setops::and(words, Bitmap { count: n, ..EMPTY }, other, o);
    answers::change(a, count)
}

// Clears the bits that are set in the other.
#[unsafe(no_mangle)]
pub extern "C" fn taxolbin_andnot(
    words: &mut [u64],
    count: &mut usize,
    other: &[u64],
    ocount: usize,
) -> u32
    ensures { Changed (beside other.now (bitmap_of ocount) (combining AndNot)) words.old
        count.old result words.new count.new }
{
    let n = *count;
    let o = Bitmap {
        count: ocount,
        ..EMPTY
    };
    let a = setops::andnot(words, Bitmap { count: n, ..EMPTY }, other, o);
    answers::change(a, count)
}

// Sets the bits that are set in the other.
#[unsafe(no_mangle)]
pub extern "C" fn taxolbin_or(
    words: &mut [u64],
    count: &mut usize,
    other: &[u64],
    ocount: usize,
) -> u32
    ensures { Changed (beside other.now (bitmap_of ocount) uniting) words.old count.old result
        words.new count.new }
{
    let n = *count;
    let o = Bitmap {
        count: ocount,
        ..EMPTY
    };
    let a = setops::or(words, Bitmap { count: n, ..EMPTY }, other, o);
    answers::change(a, count)
}

// Keeps the bits that are set in one only.
#[unsafe(no_mangle)]
pub extern "C" fn taxolbin_xor(
    words: &mut [u64],
    count: &mut usize,
    other: &[u64],
    ocount: usize,
) -> u32
    ensures { Changed (beside other.now (bitmap_of ocount) (combining Xor)) words.old
        count.old result words.new count.new }
{
    let n = *count;
    let o = Bitmap {
        count: ocount,
        ..EMPTY
    };
    let a = setops::xor(words, Bitmap { count: n, ..EMPTY }, other, o);
    answers::change(a, count)
}

// The bits that are set in both.
#[unsafe(no_mangle)]
pub extern "C" fn taxolbin_and_from(
    words: &mut [u64],
    count: &mut usize,
    left: &[u64],
    lcount: usize,
    right: &[u64],
    rcount: usize,
) -> u32
    ensures { Changed (beside_both left.now (bitmap_of lcount) right.now (bitmap_of rcount)
        (combining_from And)) words.old count.old result words.new count.new }
{
    let n = *count;
    let l = Bitmap {
        count: lcount,
        ..EMPTY
    };
    let r = Bitmap {
        count: rcount,
        ..EMPTY
    };
    let a = combine::and_from(words, Bitmap { count: n, ..EMPTY }, left, l, right, r);
    answers::change(a, count)
}

// The bits that are set in the left only.
#[unsafe(no_mangle)]
pub extern "C" fn taxolbin_andnot_from(
    words: &mut [u64],
    count: &mut usize,
    left: &[u64],
    lcount: usize,
    right: &[u64],
    rcount: usize,
) -> u32
    ensures { Changed (beside_both left.now (bitmap_of lcount) right.now (bitmap_of rcount)
        (combining_from AndNot)) words.old count.old result words.new count.new }
{
    let n = *count;
    let l = Bitmap {
        count: lcount,
        ..EMPTY
    };
    let r = Bitmap {
        count: rcount,
        ..EMPTY
    };
    let a = combine::andnot_from(words, Bitmap { count: n, ..EMPTY }, left, l, right, r);
    answers::change(a, count)
}

// The bits that are set in either.
#[unsafe(no_mangle)]
pub extern "C" fn taxolbin_or_from(
    words: &mut [u64],
    count: &mut usize,
    left: &[u64],
    lcount: usize,
    right: &[u64],
    rcount: usize,
) -> u32
    ensures { Changed (beside_both left.now (bitmap_of lcount) right.now (bitmap_of rcount) uniting_from)
        words.old count.old result words.new count.new }
{
    let n = *count;
    let l = Bitmap {
        count: lcount,
        ..EMPTY
    };
    let r = Bitmap {
        count: rcount,
        ..EMPTY
    };
    let a = combine::or_from(words, Bitmap { count: n, ..EMPTY }, left, l, right, r);
    answers::change(a, count)
}

// The bits that are set in one only.
#[unsafe(no_mangle)]
pub extern "C" fn taxolbin_xor_from(
    words: &mut [u64],
    count: &mut usize,
    left: &[u64],
    lcount: usize,
    right: &[u64],
    rcount: usize,
) -> u32
    ensures { Changed (beside_both left.now (bitmap_of lcount) right.now (bitmap_of rcount)
        (combining_from Xor)) words.old count.old result words.new count.new }
{
    let n = *count;
    let l = Bitmap {
        count: lcount,
        ..EMPTY
    };
    let r = Bitmap {
        count: rcount,
        ..EMPTY
    };
    let a = combine::xor_from(words, Bitmap { count: n, ..EMPTY }, left, l, right, r);
    answers::change(a, count)
}

// The bits that are set in both; no earlier count.
#[unsafe(no_mangle)]
pub extern "C" fn taxolbin_dup_and(
    words: &mut [u64],
    count: &mut usize,
    left: &[u64],
    lcount: usize,
    right: &[u64],
    rcount: usize,
) -> u32
    ensures { Changed (beside_both left.now (bitmap_of lcount) right.now (bitmap_of rcount)
        (combining_from And)) words.old 0 result words.new count.new }
{
    let l = Bitmap {
        count: lcount,
        ..EMPTY
    };
    let r = Bitmap {
        count: rcount,
        ..EMPTY
    };
    let a = combine::dup_and(words, left, l, right, r);
    answers::change(a, count)
}

// The bits that are set in the left only; no earlier count.
#[unsafe(no_mangle)]
pub extern "C" fn taxolbin_dup_andnot(
    words: &mut [u64],
    count: &mut usize,
    left: &[u64],
    lcount: usize,
    right: &[u64],
    rcount: usize,
) -> u32
    ensures { Changed (beside_both left.now (bitmap_of lcount) right.now (bitmap_of rcount)
        (combining_from AndNot)) words.old 0 result words.new count.new }
{
    let l = Bitmap {
        count: lcount,
        ..EMPTY
    };
    let r = Bitmap {
        count: rcount,
        ..EMPTY
    };
    let a = combine::dup_andnot(words, left, l, right, r);
    answers::change(a, count)
}

// The bits that are set in either; no earlier count.
#[unsafe(no_mangle)]
pub extern "C" fn taxolbin_dup_or(
    words: &mut [u64],
    count: &mut usize,
    left: &[u64],
    lcount: usize,
    right: &[u64],
    rcount: usize,
) -> u32
    ensures { Changed (beside_both left.now (bitmap_of lcount) right.now (bitmap_of rcount) uniting_from)
        words.old 0 result words.new count.new }
{
    let l = Bitmap {
        count: lcount,
        ..EMPTY
    };
    let r = Bitmap {
        count: rcount,
        ..EMPTY
    };
    let a = combine::dup_or(words, left, l, right, r);
    answers::change(a, count)
}

// The bits that are set in one only; no earlier count.
#[unsafe(no_mangle)]
pub extern "C" fn taxolbin_dup_xor(
    words: &mut [u64],
    count: &mut usize,
    left: &[u64],
    lcount: usize,
    right: &[u64],
    rcount: usize,
) -> u32
    ensures { Changed (beside_both left.now (bitmap_of lcount) right.now (bitmap_of rcount)
        (combining_from Xor)) words.old 0 result words.new count.new }
{
    let l = Bitmap {
        count: lcount,
        ..EMPTY
    };
    let r = Bitmap {
        count: rcount,
        ..EMPTY
    };
    let a = combine::dup_xor(words, left, l, right, r);
    answers::change(a, count)
}
