// What one bitmap holds: bits, fields, scans and counts.
ghost use Rattle.std.specs.Prelude.{Ok, Err};
ghost use Rattle.storage.specs.Stores.{reading, next_from, size, bitmap_of};
ghost use Rattle.slice.specs.Slices.{field_at};
ghost use Rattle.scans.specs.Searches.{last_set, next_clear};
ghost use Rattle.bitwise.specs.Bitwise.{clear_size, count_region, rank_of, selected};
ghost use Rattle.answers.specs.Answers.{FoundOut, AmountOut, TruthOut};

use storage::{Bitmap, EMPTY};

// Whether bit i is set; it is not past the length.
#[unsafe(no_mangle)]
pub extern "C" fn taxolbin_get(words: &[u64], count: usize, i: usize, value: &mut usize) -> u32
    ensures { TruthOut (reading words.now (bitmap_of count) Err (λ s. Ok (s.members i))) result value.new }
{
    let a = slice::get(words, Bitmap { count, ..EMPTY }, i);
    answers::truth(a, value)
}

// The field of `width` bits from i on, with zeros past the length.
#[unsafe(no_mangle)]
pub extern "C" fn taxolbin_get_field(
    words: &[u64],
    count: usize,
    i: usize,
    width: usize,
    value: &mut u64,
) -> u32
    ensures { AmountOut (reading words.now (bitmap_of count) Err (field_at i width)) result value.new }
{
    let a = slice::get_field(words, Bitmap { count, ..EMPTY }, i, width);
    answers::field(a, value)
}

// The least set bit.
#[unsafe(no_mangle)]
pub extern "C" fn taxolbin_first_set(
    words: &[u64],
    count: usize,
    found: &mut usize,
    place: &mut usize,
) -> u32
    ensures { FoundOut (reading words.now (bitmap_of count) Err (λ s. next_from s 0)) result found.new place.new }
{
    let a = scans::first_set(words, Bitmap { count, ..EMPTY });
    answers::found(a, found, place)
}

// The greatest set bit.
#[unsafe(no_mangle)]
pub extern "C" fn taxolbin_last_set(
    words: &[u64],
    count: usize,
    found: &mut usize,
    place: &mut usize,
) -> u32
    ensures { FoundOut (reading words.now (bitmap_of count) Err last_set) result found.new place.new }
{
    let a = scans::last_set(words, Bitmap { count, ..EMPTY });
    answers::found(a, found, place)
}

// The least set bit from i on.
#[unsafe(no_mangle)]
pub extern "C" fn taxolbin_next_set(
    words: &[u64],
    count: usize,
    i: usize,
    found: &mut usize,
    place: &mut usize,
) -> u32
    ensures { FoundOut (reading words.now (bitmap_of count) Err (λ s. next_from s i)) result found.new place.new }
{
    let a = scans::next_set(words, Bitmap { count, ..EMPTY }, i);
    answers::found(a, found, place)
}

// The set bit of a rank, from 0 on.
#[unsafe(no_mangle)]
pub extern "C" fn taxolbin_select(
    words: &[u64],
    count: usize,
    rank: usize,
    found: &mut usize,
    place: &mut usize,
) -> u32
    ensures { FoundOut (reading words.now (bitmap_of count) Err (selected rank)) result found.new place.new }
{
    let a = bits::select(words, Bitmap { count, ..EMPTY }, rank);
    answers::found(a, found, place)
}

// The least clear bit; the length where all are set.
#[unsafe(no_mangle)]
pub extern "C" fn taxolbin_first_clear(words: &[u64], count: usize, value: &mut usize) -> u32
    ensures { AmountOut (reading words.now (bitmap_of count) Err (λ s. Ok (next_clear s 0))) result value.new }
{
    let a = scans::first_clear(words, Bitmap { count, ..EMPTY });
    answers::amount(a, value)
}

// The least clear bit from i on; i itself past the length.
#[unsafe(no_mangle)]
pub extern "C" fn taxolbin_next_clear(
    words: &[u64],
    count: usize,
    i: usize,
    value: &mut usize,
) -> u32
    ensures { AmountOut (reading words.now (bitmap_of count) Err (λ s. Ok (next_clear s i))) result value.new }
{
    let a = scans::next_clear(words, Bitmap { count, ..EMPTY }, i);
    answers::amount(a, value)
}

// How many bits are set.
#[unsafe(no_mangle)]
pub extern "C" fn taxolbin_count_set_bits(words: &[u64], count: usize, value: &mut usize) -> u32
    ensures { AmountOut (reading words.now (bitmap_of count) Err (λ s. Ok (size s))) result value.new }
{
    let a = scans::count_set_bits(words, Bitmap { count, ..EMPTY });
    answers::amount(a, value)
}

// How many bits within the length are clear.
#[unsafe(no_mangle)]
pub extern "C" fn taxolbin_count_clear_bits(words: &[u64], count: usize, value: &mut usize) -> u32
    ensures { AmountOut (reading words.now (bitmap_of count) Err (λ s. Ok (clear_size s))) result value.new }
{
    let a = bits::count_clear_bits(words, Bitmap { count, ..EMPTY });
    answers::amount(a, value)
}

// How many of the k bits from i on are set.
#[unsafe(no_mangle)]
pub extern "C" fn taxolbin_count_region(
    words: &[u64],
    count: usize,
    i: usize,
    k: usize,
    value: &mut usize,
) -> u32
    ensures { AmountOut (reading words.now (bitmap_of count) Err (λ s. Ok (count_region i k s))) result value.new }
{
    let a = bits::count_region(words, Bitmap { count, ..EMPTY }, i, k);
    answers::amount(a, value)
}

// How many bits below i are set.
#[unsafe(no_mangle)]
pub extern "C" fn taxolbin_rank(words: &[u64], count: usize, i: usize, value: &mut usize) -> u32
    ensures { AmountOut (reading words.now (bitmap_of count) Err (λ s. Ok (rank_of i s))) result value.new }
{
    let a = bits::rank(words, Bitmap { count, ..EMPTY }, i);
    answers::amount(a, value)
}
