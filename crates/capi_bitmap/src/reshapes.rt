// Flips, shifts, resizing, splitting, joining and gaps, growing and trimming.
ghost use Rattle.storage.specs.Stores.{beside, bitmap_of};
ghost use Rattle.shapes.specs.Shapes.{toggling, toggling_region, raising, lowering, truncating, resizing, appending};
ghost use Rattle.gap.specs.Gaps.{opening, closing};
ghost use Rattle.calls.specs.Calls.{Changed, SplitOff};

use storage::{Bitmap, EMPTY};

// Flips bit i; grows to its word.
#[unsafe(no_mangle)]
pub extern "C" fn taxolbin_toggle(words: &mut [u64], count: &mut usize, i: usize) -> u32
    ensures { Changed (toggling i) words.old count.old result words.new count.new }
{
    let n = *count;
    let a = shape::toggle(words, Bitmap { count: n, ..EMPTY }, i);
    answers::change(a, count)
}

// Flips the k bits from i on; grows to the last one's word.
#[unsafe(no_mangle)]
pub extern "C" fn taxolbin_toggle_region(
    words: &mut [u64],
    count: &mut usize,
    i: usize,
    k: usize,
) -> u32
    ensures { Changed (toggling_region i k) words.old count.old result words.new count.new }
{
    let n = *count;
    let a = shape::toggle_region(words, Bitmap { count: n, ..EMPTY }, i, k);
    answers::change(a, count)
}

// Moves every bit k up; grows to the greatest one's word.
#[unsafe(no_mangle)]
pub extern "C" fn taxolbin_shift_left(words: &mut [u64], count: &mut usize, k: usize) -> u32
    ensures { Changed (raising k) words.old count.old result words.new count.new }
{
    let n = *count;
    let a = shape::shift_left(words, Bitmap { count: n, ..EMPTY }, k);
    answers::change(a, count)
}

// Moves every bit k down and trims.
#[unsafe(no_mangle)]
pub extern "C" fn taxolbin_shift_right(words: &mut [u64], count: &mut usize, k: usize) -> u32
    ensures { Changed (lowering k) words.old count.old result words.new count.new }
{
    let n = *count;
    let a = shape::shift_right(words, Bitmap { count: n, ..EMPTY }, k);
    answers::change(a, count)
}

// Clears the bits from k on and trims.
#[unsafe(no_mangle)]
pub extern "C" fn taxolbin_truncate_bits(words: &mut [u64], count: &mut usize, k: usize) -> u32
    ensures { Changed (truncating k) words.old count.old result words.new count.new }
{
    let n = *count;
    let a = shape::truncate_bits(words, Bitmap { count: n, ..EMPTY }, k);
    answers::change(a, count)
}

// Clears the bits from k on; exactly the words that k bits need.
#[unsafe(no_mangle)]
pub extern "C" fn taxolbin_resize_bits(words: &mut [u64], count: &mut usize, k: usize) -> u32
    ensures { Changed (resizing k) words.old count.old result words.new count.new }
{
    let n = *count;
    let a = shape::resize_bits(words, Bitmap { count: n, ..EMPTY }, k);
    answers::change(a, count)
}

// The other bitmap goes behind the words in use.
#[unsafe(no_mangle)]
pub extern "C" fn taxolbin_append(
    words: &mut [u64],
    count: &mut usize,
    other: &[u64],
    ocount: usize,
) -> u32
    ensures { Changed (beside other.now (bitmap_of ocount) appending) words.old count.old result
        words.new count.new }
{
    let n = *count;
    let o = Bitmap {
        count: ocount,
        ..EMPTY
    };
    let a = shape::append(words, Bitmap { count: n, ..EMPTY }, other, o);
    answers::change(a, count)
}

// The bits from `at` on go to the tail's store, which has no earlier count; both are trimmed.
#[unsafe(no_mangle)]
pub extern "C" fn taxolbin_split_off(
    words: &mut [u64],
    count: &mut usize,
    at: usize,
    tail: &mut [u64],
    tcount: &mut usize,
) -> u32
    ensures { SplitOff at words.old count.old tail.old result words.new count.new
        tail.new tcount.new }
{
    let n = *count;
    let a = shape::split_off(words, Bitmap { count: n, ..EMPTY }, at, tail);
    answers::split(a, count, tcount)
}

// Opens k clear places at bit p: the bits from p on move up.
#[unsafe(no_mangle)]
pub extern "C" fn taxolbin_open_gap(words: &mut [u64], count: &mut usize, p: usize, k: usize) -> u32
    ensures { Changed (opening p k) words.old count.old result words.new count.new }
{
    let n = *count;
    let a = gap::open_gap(words, Bitmap { count: n, ..EMPTY }, p, k);
    answers::change(a, count)
}

// Closes the k places from bit p on: the bits behind them move down.
#[unsafe(no_mangle)]
pub extern "C" fn taxolbin_close_gap(
    words: &mut [u64],
    count: &mut usize,
    p: usize,
    k: usize,
) -> u32
    ensures { Changed (closing p k) words.old count.old result words.new count.new }
{
    let n = *count;
    let a = gap::close_gap(words, Bitmap { count: n, ..EMPTY }, p, k);
    answers::change(a, count)
}
