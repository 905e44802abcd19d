// A gap in a bitmap: places opened, so that the bits behind them move up, and places closed, so that those behind them move down.
//
// A change sheet composes both of `split_off`, shifts and `or`, with a second store for the tail. Here they are done in place, word by word.
#![tactic(auto, using(shift::proofs::Guards::part_of_store))]

ghost use Rattle.std.specs.Prelude.{◌≡◌, length};
ghost use Rattle.word.specs.Places.{member, words_of};
ghost use Rattle.storage.specs.Stores.{Changes};
ghost use Rattle.gap.specs.Gaps.{opening, closing};
ghost use Rattle.gap.specs.Kernels.{gap_opened, gap_closed};

use storage::{Bitmap, Refusal, Refused};
use word::Word;

// The bits from p on go k up; those that pass the end are lost.
fn open_words(words: &mut [u64], p: usize, k: usize)
    ensures { words.new ≡ words_of (gap_opened p k (member words.old)) (length words.old) }
{
    let a = p / 64;
    if a >= words.len() {
        return;
    }
    let mask = Word::low_mask(p % 64);
    let low = words[a];
    words[a] = low & !mask;
    shift::left_words(&mut words[a..], k);
    words[a] = (words[a] & !mask) | (low & mask);
}

// The bits from p + k on go k down; those from p on, below p + k, are lost. Not one function with `open_words`, handed the shift: its contract would have
// to say what the shift does.
fn close_words(words: &mut [u64], p: usize, k: usize)
    ensures { words.new ≡ words_of (gap_closed p k (member words.old)) (length words.old) }
{
    let a = p / 64;
    if a >= words.len() {
        return;
    }
    let mask = Word::low_mask(p % 64);
    let low = words[a];
    shift::right_words(&mut words[a..], k);
    words[a] = (words[a] & !mask) | (low & mask);
}

// Opens k places at p: bits from p on go k up. Grows to the word of the highest and drops trailing zero words; 4 where the highest passes the last index.
pub fn open_gap(words: &mut [u64], b: Bitmap, p: usize, k: usize) -> Result<Bitmap, Refused>
    ensures { Changes (opening p k) words.old b result words.new }
{
    let top = match scans::last_set(words, b).map_err(|why| Refused(why, b))? {
        Some(i) if i >= p => i,
        _ => return bitmap::trim(words, b),
    };
    let Some(end) = top.checked_add(k) else {
        return Err(Refused(Refusal::IndexOver, b));
    };
    let need = end / 64 + 1;
    let m = storage::grow(words, b, need)?.count;
    open_words(&mut words[..m], p, k);
    Ok(Bitmap { count: need, ..b })
}

// Closes k places at p: bits from p on, below p + k, go, and those behind them go k down. Drops trailing zero words, as `shift_right` of shape does: with
// the kernel handed in, either would say no less.
pub fn close_gap(words: &mut [u64], b: Bitmap, p: usize, k: usize) -> Result<Bitmap, Refused>
    ensures { Changes (closing p k) words.old b result words.new }
{
    let n = b.count;
    storage::check(words, b)?;
    close_words(&mut words[..n], p, k);
    Ok(Bitmap {
        count: arch::nonzero_len(&words[..n]),
        ..b
    })
}
