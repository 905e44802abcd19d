// Changes that grow and trim.
ghost use Rattle.bitmaps.specs.Bitmaps.{trimming, setting, unsetting, setting_many, setting_region, setting_field, keeping_bit, dropping_bit, flipping_bit};
ghost use Rattle.calls.specs.Calls.{Changed, truth};

use storage::{Bitmap, EMPTY};

// Drops trailing zero words.
#[unsafe(no_mangle)]
pub extern "C" fn taxolbin_trim(words: &[u64], count: &mut usize) -> u32
    ensures { Changed trimming words.now count.old result words.now count.new }
{
    let n = *count;
    let a = bitmap::trim(words, Bitmap { count: n, ..EMPTY });
    answers::change(a, count)
}

// Sets bit i; grows to its word.
#[unsafe(no_mangle)]
pub extern "C" fn taxolbin_set(words: &mut [u64], count: &mut usize, i: usize) -> u32
    ensures { Changed (setting i) words.old count.old result words.new count.new }
{
    let n = *count;
    let a = bitmap::set(words, Bitmap { count: n, ..EMPTY }, i);
    answers::change(a, count)
}

// Clears bit i.
#[unsafe(no_mangle)]
pub extern "C" fn taxolbin_unset(words: &mut [u64], count: &mut usize, i: usize) -> u32
    ensures { Changed (unsetting i) words.old count.old result words.new count.new }
{
    let n = *count;
    let a = bitmap::unset(words, Bitmap { count: n, ..EMPTY }, i);
    answers::change(a, count)
}

// Sets every listed bit; grows to the words of all.
#[unsafe(no_mangle)]
pub extern "C" fn taxolbin_set_many(words: &mut [u64], count: &mut usize, bits: &[usize]) -> u32
    ensures { Changed (setting_many bits.now) words.old count.old result words.new count.new }
{
    let n = *count;
    let a = bitmap::set_many(words, Bitmap { count: n, ..EMPTY }, bits);
    answers::change(a, count)
}

// Sets the k bits from i on, or clears them where the value is 0.
#[unsafe(no_mangle)]
pub extern "C" fn taxolbin_set_region(
    words: &mut [u64],
    count: &mut usize,
    i: usize,
    value: u32,
    k: usize,
) -> u32
    ensures { Changed (setting_region i (truth value) k) words.old count.old result words.new count.new }
{
    let n = *count;
    let a = bitmap::set_region(words, Bitmap { count: n, ..EMPTY }, i, value != 0, k);
    answers::change(a, count)
}

// Writes the low `width` bits of the value from bit i on.
#[unsafe(no_mangle)]
pub extern "C" fn taxolbin_set_field(
    words: &mut [u64],
    count: &mut usize,
    i: usize,
    value: u64,
    width: usize,
) -> u32
    ensures { Changed (setting_field i value width) words.old count.old result words.new count.new }
{
    let n = *count;
    let a = bitmap::set_field(words, Bitmap { count: n, ..EMPTY }, i, value, width);
    answers::change(a, count)
}

// Clears the other bits of the word of bit i; trims where that word is the last and is then zero.
#[unsafe(no_mangle)]
pub extern "C" fn taxolbin_andi(words: &mut [u64], count: &mut usize, i: usize) -> u32
    ensures { Changed (keeping_bit i) words.old count.old result words.new count.new }
{
    let n = *count;
    let a = bitmap::andi(words, Bitmap { count: n, ..EMPTY }, i);
    answers::change(a, count)
}

// Clears bit i; trims where its word was the last and is then zero.
#[unsafe(no_mangle)]
pub extern "C" fn taxolbin_andnoti(words: &mut [u64], count: &mut usize, i: usize) -> u32
    ensures { Changed (dropping_bit i) words.old count.old result words.new count.new }
{
    let n = *count;
    let a = bitmap::andnoti(words, Bitmap { count: n, ..EMPTY }, i);
    answers::change(a, count)
}

// Flips bit i; grows to its word, and trims where that is the last and is then zero.
#[unsafe(no_mangle)]
pub extern "C" fn taxolbin_xori(words: &mut [u64], count: &mut usize, i: usize) -> u32
    ensures { Changed (flipping_bit i) words.old count.old result words.new count.new }
{
    let n = *count;
    let a = bitmap::xori(words, Bitmap { count: n, ..EMPTY }, i);
    answers::change(a, count)
}
