// Changes within the length: the count stays.
ghost use Rattle.slice.specs.Slices.{setting_field_inside};
ghost use Rattle.bitwise.specs.Bitwise.{toggling_inside, inverting, reversing};
ghost use Rattle.shifts.specs.Shifts.{shifting_left, shifting_right, rotating_left, rotating_right};
ghost use Rattle.calls.specs.Calls.{Changed};

use storage::{Bitmap, EMPTY};

// Writes the low `width` bits of the value from bit i on; 5 where one of them is past the length.
#[unsafe(no_mangle)]
pub extern "C" fn taxolbin_set_field_strict(
    words: &mut [u64],
    count: &mut usize,
    i: usize,
    value: u64,
    width: usize,
) -> u32
    ensures { Changed (setting_field_inside i value width) words.old count.old result words.new count.new }
{
    let n = *count;
    let a = slice::set_field_strict(words, Bitmap { count: n, ..EMPTY }, i, value, width);
    answers::change(a, count)
}

// Flips bit i; 5 past the length.
#[unsafe(no_mangle)]
pub extern "C" fn taxolbin_slice_toggle(words: &mut [u64], count: &mut usize, i: usize) -> u32
    ensures { Changed (toggling_inside i) words.old count.old result words.new count.new }
{
    let n = *count;
    let a = bits::toggle(words, Bitmap { count: n, ..EMPTY }, i);
    answers::change(a, count)
}

// Flips every bit within the length.
#[unsafe(no_mangle)]
pub extern "C" fn taxolbin_invert(words: &mut [u64], count: &mut usize) -> u32
    ensures { Changed inverting words.old count.old result words.new count.new }
{
    let n = *count;
    let a = bits::invert(words, Bitmap { count: n, ..EMPTY });
    answers::change(a, count)
}

// Mirrors the bits within the length.
#[unsafe(no_mangle)]
pub extern "C" fn taxolbin_reverse(words: &mut [u64], count: &mut usize) -> u32
    ensures { Changed reversing words.old count.old result words.new count.new }
{
    let n = *count;
    let a = bits::reverse(words, Bitmap { count: n, ..EMPTY });
    answers::change(a, count)
}

// Moves every bit k up; those that pass the length are lost.
#[unsafe(no_mangle)]
pub extern "C" fn taxolbin_slice_shift_left(words: &mut [u64], count: &mut usize, k: usize) -> u32
    ensures { Changed (shifting_left k) words.old count.old result words.new count.new }
{
    let n = *count;
    let a = shift::shift_left(words, Bitmap { count: n, ..EMPTY }, k);
    answers::change(a, count)
}

// Moves every bit k down; those that pass 0 are lost.
#[unsafe(no_mangle)]
pub extern "C" fn taxolbin_slice_shift_right(words: &mut [u64], count: &mut usize, k: usize) -> u32
    ensures { Changed (shifting_right k) words.old count.old result words.new count.new }
{
    let n = *count;
    let a = shift::shift_right(words, Bitmap { count: n, ..EMPTY }, k);
    answers::change(a, count)
}

// Turns the bits k up.
#[unsafe(no_mangle)]
pub extern "C" fn taxolbin_rotate_left(words: &mut [u64], count: &mut usize, k: usize) -> u32
    ensures { Changed (rotating_left k) words.old count.old result words.new count.new }
{
    let n = *count;
    let a = shift::rotate_left(words, Bitmap { count: n, ..EMPTY }, k);
    answers::change(a, count)
}

// Turns the bits k down.
#[unsafe(no_mangle)]
pub extern "C" fn taxolbin_rotate_right(words: &mut [u64], count: &mut usize, k: usize) -> u32
    ensures { Changed (rotating_right k) words.old count.old result words.new count.new }
{
    let n = *count;
    let a = shift::rotate_right(words, Bitmap { count: n, ..EMPTY }, k);
    answers::change(a, count)
}
