// Calls that grow and trim a bitmap.
#![tactic(auto, using(storage::proofs::Checks::passed, std::proofs::lemmas::Grind::moves))]

ghost use Rattle.std.specs.Prelude.{◌≡◌, ◌≤◌, ◌<◌, length};
ghost use Rattle.storage.specs.Stores.{Changes};
ghost use Rattle.bitmaps.specs.Bitmaps.{trimming, setting, unsetting, setting_many, setting_region};
ghost use Rattle.bitmaps.specs.Bitmaps.{setting_field, keeping_bit, dropping_bit, flipping_bit, reach_of};
ghost use Rattle.bitmap.specs.Kernels.{SetsListed, tidy_count, masking};

use storage::{Bitmap, Refusal, Refused};
use word::Word;

// Drops trailing zero words.
pub fn trim(words: &[u64], b: Bitmap) -> Result<Bitmap, Refused>
    ensures { Changes trimming words.now b result words.now }
{
    let n = b.count;
    storage::check(words, b)?;
    Ok(Bitmap {
        count: arch::nonzero_len(&words[..n]),
        ..b
    })
}

// Sets bit i; grows to its word.
pub fn set(words: &mut [u64], b: Bitmap, i: usize) -> Result<Bitmap, Refused>
    ensures { Changes (setting i) words.old b result words.new }
{
    storage::check(words, b)?;
    let k = i / 64;
    let grown = storage::grow(words, b, k + 1)?;
    words[k] |= Word::bit(i);
    Ok(grown)
}

// Clears bit i; never grows. Not by `keep_places`: the word count stays.
pub fn unset(words: &mut [u64], b: Bitmap, i: usize) -> Result<Bitmap, Refused>
    ensures { Changes (unsetting i) words.old b result words.new }
{
    let n = b.count;
    storage::check(words, b)?;
    let k = i / 64;
    if k >= n {
        return Ok(b);
    }
    words[k] &= !Word::bit(i);
    Ok(b)
}

// The words up to those of all listed bits.
fn reach(bits: &[usize]) -> usize
    ensures { result ≡ reach_of bits.now }
{
    bits.iter().fold(0, |most: usize, i| most.max(*i / 64 + 1))
}

// Sets the listed bits, all within the words.
fn set_listed(words: &mut [u64], bits: &[usize])
    requires { reach_of bits.now ≤ length words.old }
    ensures { SetsListed words.old bits.now words.new }
{
    for i in bits {
        words[*i / 64] |= Word::bit(*i);
    }
}

// Sets every listed bit; grows once, and writes nothing where one has no space.
pub fn set_many(words: &mut [u64], b: Bitmap, bits: &[usize]) -> Result<Bitmap, Refused>
    ensures { Changes (setting_many bits.now) words.old b result words.new }
{
    storage::check(words, b)?;
    let grown = storage::grow(words, b, reach(bits))?;
    set_listed(words, bits);
    Ok(grown)
}

// The k bits from i on become `value`: true grows to the last one's word, false clears what is there. k 0 does nothing. 4 where the last index passes
// 2^64 - 1, whatever the value; then 6.
pub fn set_region(
    words: &mut [u64],
    b: Bitmap,
    i: usize,
    value: bool,
    k: usize,
) -> Result<Bitmap, Refused>
    ensures { Changes (setting_region i value k) words.old b result words.new }
{
    let n = b.count;
    storage::check(words, b)?;
    if k == 0 {
        return Ok(b);
    }
    let Some(last) = i.checked_add(k - 1) else {
        return Err(Refused(Refusal::IndexOver, b));
    };
    if !value {
        arch::fill_region(&mut words[..n], i, last.min(64 * n) + 1, false);
        return Ok(b);
    }
    let grown = storage::grow(words, b, last / 64 + 1)?;
    arch::fill_region(words, i, last + 1, true);
    Ok(grown)
}

// The bits from i on, below i + width, become the low bits of value: zeros clear what is there, another value grows to the last one's word. Width 0 does
// nothing, whatever i. 3 over 64 bits; 4 where the last index passes 2^64 - 1, whatever the value; then 6.
pub fn set_field(
    words: &mut [u64],
    b: Bitmap,
    i: usize,
    value: u64,
    width: usize,
) -> Result<Bitmap, Refused>
    ensures { Changes (setting_field i value width) words.old b result words.new }
{
    storage::check(words, b)?;
    if width > 64 {
        return Err(Refused(Refusal::WidthOver, b));
    }
    // Width 0 has no bits, so it is here too.
    if value & Word::low_mask(width) == 0 {
        return set_region(words, b, i, false, width);
    }
    let Some(last) = i.checked_add(width - 1) else {
        return Err(Refused(Refusal::IndexOver, b));
    };
    let grown = storage::grow(words, b, last / 64 + 1)?;
    slice::set_field_strict(words, grown, i, value, width)
}

// The count when word k was worked on: trailing zero words go where it is the last and is zero.
fn tidy(words: &[u64], n: usize, k: usize) -> usize
    requires { (k < n) × (n ≤ length words.now) }
    ensures { result ≡ tidy_count words.now n k }
{
    if k + 1 < n {
        return n;
    }
    if words[k] != 0 {
        return n;
    }
    arch::nonzero_len(&words[..n])
}

// Of word i / 64 the places of the mask stay; never grows. Trailing zero words go where that word is the last and is then zero.
fn keep_places(words: &mut [u64], b: Bitmap, i: usize, mask: u64) -> Result<Bitmap, Refused>
    ensures { Changes (masking i mask) words.old b result words.new }
{
    let n = b.count;
    storage::check(words, b)?;
    let k = i / 64;
    if k >= n {
        return Ok(b);
    }
    words[k] &= mask;
    Ok(Bitmap {
        count: tidy(words, n, k),
        ..b
    })
}

// Of word i / 64 only bit i stays; never grows. Trailing zero words go where that word is the last and is then zero.
pub fn andi(words: &mut [u64], b: Bitmap, i: usize) -> Result<Bitmap, Refused>
    ensures { Changes (keeping_bit i) words.old b result words.new }
{
    keep_places(words, b, i, Word::bit(i))
}

// Clears bit i; never grows. Trailing zero words go where its word is the last and is then zero.
pub fn andnoti(words: &mut [u64], b: Bitmap, i: usize) -> Result<Bitmap, Refused>
    ensures { Changes (dropping_bit i) words.old b result words.new }
{
    keep_places(words, b, i, !Word::bit(i))
}

// Flips bit i; grows to its word. Trailing zero words go where that word is the last and is then zero: after `set` it never is, and one function of both
// would look all the same.
pub fn xori(words: &mut [u64], b: Bitmap, i: usize) -> Result<Bitmap, Refused>
    ensures { Changes (flipping_bit i) words.old b result words.new }
{
    storage::check(words, b)?;
    let k = i / 64;
    let grown = storage::grow(words, b, k + 1)?;
    words[k] ^= Word::bit(i);
    Ok(Bitmap {
        count: tidy(words, grown.count, k),
        ..grown
    })
}
