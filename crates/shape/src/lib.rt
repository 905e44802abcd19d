// Calls that flip, shift, resize, split and join a bitmap, growing and trimming it.
#![tactic(auto, using(shift::proofs::Guards::part_of_store))]

ghost use Rattle.std.specs.Prelude.{◌≡◌, ◌+◌, ◌-◌, ◌/◌, ◌≤◌, ◌<◌, length, Ok, Err};
ghost use Rattle.word.specs.Places.{member, words_of};
ghost use Rattle.storage.specs.Stores.{reading, beside, Changes};
ghost use Rattle.shifts.specs.Shifts.{moved_down};
ghost use Rattle.shapes.specs.Shapes.{toggling, toggling_region, raising, lowered, lowering, truncating, resizing, appending, Splits};
ghost use Rattle.shape.specs.Kernels.{Flipped};

use storage::{Bitmap, Refusal, Refused};
use word::Word;

// Flips bit i; grows to its word. As `toggle_region` of one bit it takes a twelfth longer.
pub fn toggle(words: &mut [u64], b: Bitmap, i: usize) -> Result<Bitmap, Refused>
    ensures { Changes (toggling i) words.old b result words.new }
{
    storage::check(words, b)?;
    let k = i / 64;
    let grown = storage::grow(words, b, k + 1)?;
    words[k] ^= Word::bit(i);
    Ok(grown)
}

// Flips the bits from i to `last`: whole words, and the other bits of both edge words once more.
fn flip_region(words: &mut [u64], i: usize, last: usize)
    requires { (i ≤ last) × (last / 64 < length words.old) }
    ensures { Flipped i (last + 1) words.old words.new }
{
    let a = i / 64;
    let w = last / 64;
    words[a] = words[a] ^ Word::low_mask(i % 64);
    words[w] = words[w] ^ !Word::low_mask(last % 64 + 1);
    bits::invert_words(&mut words[a..w + 1]);
}

// Flips the k bits from i on; grows to the last one's word. k 0 does nothing.
pub fn toggle_region(words: &mut [u64], b: Bitmap, i: usize, k: usize) -> Result<Bitmap, Refused>
    ensures { Changes (toggling_region i k) words.old b result words.new }
{
    storage::check(words, b)?;
    if k == 0 {
        return Ok(b);
    }
    let Some(last) = i.checked_add(k - 1) else {
        return Err(Refused(Refusal::IndexOver, b));
    };
    let grown = storage::grow(words, b, last / 64 + 1)?;
    flip_region(words, i, last);
    Ok(grown)
}

// Moves every bit k up; grows to the word of the highest. With no bit set nothing changes.
pub fn shift_left(words: &mut [u64], b: Bitmap, k: usize) -> Result<Bitmap, Refused>
    ensures { Changes (raising k) words.old b result words.new }
{
    let Some(top) = scans::last_set(words, b).map_err(|why| Refused(why, b))? else {
        return Ok(b);
    };
    let Some(end) = top.checked_add(k) else {
        return Err(Refused(Refusal::IndexOver, b));
    };
    let grown = storage::grow(words, b, end / 64 + 1)?;
    shift::left_words(&mut words[..grown.count], k);
    Ok(grown)
}

// Moves every bit k down; drops trailing zero words.
pub fn shift_right(words: &mut [u64], b: Bitmap, k: usize) -> Result<Bitmap, Refused>
    ensures { Changes (lowering k) words.old b result words.new }
{
    let n = b.count;
    storage::check(words, b)?;
    shift::right_words(&mut words[..n], k);
    Ok(Bitmap {
        count: arch::nonzero_len(&words[..n]),
        ..b
    })
}

// Clears the bits from k on; drops trailing zero words. `shift_right` has one other line: a function of both needs a longer contract than they have.
pub fn truncate_bits(words: &mut [u64], b: Bitmap, k: usize) -> Result<Bitmap, Refused>
    ensures { Changes (truncating k) words.old b result words.new }
{
    let n = b.count;
    storage::check(words, b)?;
    arch::fill_region(&mut words[..n], k, 64 * n, false);
    Ok(Bitmap {
        count: arch::nonzero_len(&words[..n]),
        ..b
    })
}

// Clears the bits from k on; exactly the words that k bits need stay in use.
pub fn resize_bits(words: &mut [u64], b: Bitmap, k: usize) -> Result<Bitmap, Refused>
    ensures { Changes (resizing k) words.old b result words.new }
{
    storage::check(words, b)?;
    let need = k.div_ceil(64);
    let m = storage::grow(words, b, need)?.count;
    arch::fill_region(&mut words[..m], k, 64 * m, false);
    Ok(Bitmap { count: need, ..b })
}

// The words that the bits from `at` on need, counted from 0.
fn tail_len(words: &[u64], b: Bitmap, at: usize) -> Result<usize, Refusal>
    ensures { result ≡ reading words.now b Err (λ s. Ok (lowered at s).count) }
{
    match scans::last_set(words, b)? {
        Some(p) if p >= at => Ok((p - at) / 64 + 1),
        _ => Ok(0),
    }
}

// The bits of the words from `at` on, into every word of `tail`.
fn lower_into(words: &[u64], at: usize, tail: &mut [u64])
    requires { length tail.old ≤ length words.now - at / 64 }
    ensures { tail.new ≡ words_of (moved_down at (member words.now)) (length tail.old) }
{
    let whole = at / 64;
    let down = at % 64;
    let up = 64 - down;
    for (j, word) in tail.iter_mut().enumerate() {
        *word = Word::funnel(
            words[j + whole],
            arch::word_at(words, j + whole + 1),
            down,
            up,
        );
    }
}

// The bits from `at` on go to the start of the tail's store, those below stay. Both drop trailing zero words.
pub fn split_off(
    words: &mut [u64],
    b: Bitmap,
    at: usize,
    tail: &mut [u64],
) -> Result<(Bitmap, Bitmap), Refused>
    ensures { Splits at words.old b tail.old result words.new tail.new }
{
    let n = b.count;
    let m = tail_len(words, b, at).map_err(|why| Refused(why, b))?;
    storage::check(tail, storage::EMPTY).map_err(|Refused(why, _)| Refused(why, b))?;
    if m > tail.len() {
        return Err(Refused(Refusal::NoSpace, b));
    }
    lower_into(&words[..n], at, &mut tail[..m]);
    arch::fill_region(&mut words[..n], at, 64 * n, false);
    let head = Bitmap {
        count: arch::nonzero_len(&words[..n]),
        ..b
    };
    let rest = Bitmap {
        count: m,
        ..storage::EMPTY
    };
    Ok((head, rest))
}

// The second bitmap behind the first, at a word boundary.
pub fn append(words: &mut [u64], b: Bitmap, other: &[u64], o: Bitmap) -> Result<Bitmap, Refused>
    ensures { Changes (beside other.now o appending) words.old b result words.new }
{
    let n = b.count;
    let m = o.count;
    storage::check_two(words, b, other, o)?;
    if n + m > words.len() {
        return Err(Refused(Refusal::NoSpace, b));
    }
    words[n..n + m].copy_from_slice(&other[..m]);
    Ok(Bitmap { count: n + m, ..b })
}
