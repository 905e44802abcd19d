// Shifts and rotations of the words in use, within their length, in place. Whole words, odd bits and what these leave of 64 are worked out ahead of
// the walk, and a step makes one word of two neighbours; where there are no odd bits, `moves` moves the words.
#![tactic(auto, using(crate::proofs::Guards::part_of_store))]

ghost use Rattle.std.specs.Prelude.{◌≡◌, ℕ, ◌+◌, ◌*◌, ◌<◌, Bool, length};
ghost use Rattle.std.specs.Fn.{FnOnceReturnsAtMut};
ghost use Rattle.word.specs.Places.{member, words_of};
ghost use Rattle.storage.specs.Stores.{Op, Changes};
ghost use Rattle.shifts.specs.Shifts.{
  moved_up,
  moved_down,
  turned_up,
  turned_down,
  shifting_left,
  shifting_right,
  rotating_left,
  rotating_right,
};
ghost use Rattle.shifts.specs.Steps.{stepped};
ghost use Rattle.shift.specs.Kernels.{LeavesWords, KeepsCount};

use storage::{Bitmap, Refused};

// One step: the pair's 64 bits from place `down` up, lo below hi. A walk to the left comes down by what its odd bits leave of 64, one to the right
// by the odd bits, and works both amounts out once.
fn step(lo: u64, hi: u64, down: usize, up: usize) -> u64
    requires { (0 < down) × (0 < up) × (down + up ≡ 64) }
    ensures { result ≡ stepped 64 lo hi down }
{
    // They have no place in common. Joined by `|` they are compiled to a double shift, one word at a time and slow on some processors; so they
    // are two shifts, of several words at a time.
    (lo >> down) ^ (hi << up)
}

// Bit i goes to i + k; bits that pass the end are lost.
pub fn left_words(words: &mut [u64], k: usize)
    ensures { words.new ≡ words_of (moved_up k (member words.old)) (length words.old) }
{
    let n = words.len();
    let whole = k / 64;
    let up = k % 64;
    let down = 64 - up;
    if whole >= n {
        arch::fill_words(words, 0, n, 0);
        return;
    }
    if up == 0 {
        moves::move_up(words, whole);
        arch::fill_words(words, 0, whole, 0);
        return;
    }
    // From the top down, so that each word is read before it is overwritten. By index, as in `turn_up`: over `iter_mut` one word is made at a time.
    for i in (whole + 1..n).rev() {
        words[i] = step(words[i - whole - 1], words[i - whole], down, up);
    }
    words[whole] = step(0, words[0], down, up);
    arch::fill_words(words, 0, whole, 0);
}

// Bit i goes to i - k; bits below k are lost. It is no one function with `left_words`: order, neighbours, edges and fill would all be arguments.
pub fn right_words(words: &mut [u64], k: usize)
    ensures { words.new ≡ words_of (moved_down k (member words.old)) (length words.old) }
{
    let n = words.len();
    let whole = k / 64;
    let down = k % 64;
    let up = 64 - down;
    if whole >= n {
        arch::fill_words(words, 0, n, 0);
        return;
    }
    if down == 0 {
        moves::move_down(words, whole);
        arch::fill_words(words, n - whole, n, 0);
        return;
    }
    // From the bottom up, so that each word is read before it is overwritten. By index, as in `turn_up`.
    let last = n - whole - 1;
    for i in 0..last {
        words[i] = step(words[i + whole], words[i + whole + 1], down, up);
    }
    words[last] = step(words[n - 1], 0, down, up);
    arch::fill_words(words, last + 1, n, 0);
}

// A move of the words in use within their length; keeps the count.
fn keep_count<F: FnOnce(&mut [u64])>(
    words: &mut [u64],
    b: Bitmap,
    kernel: F,
) -> Result<Bitmap, Refused>
    requires { F.IsAlwaysCallable kernel }
    ensures { (op : Op) (f : ℕ → (ℕ → Bool) → ℕ → Bool)
        → LeavesWords (λ ws ws'. FnOnceReturnsAtMut F.FnOnce kernel ws tt ws') f → KeepsCount op f
        → Changes op words.old b result words.new }
{
    let n = b.count;
    storage::check(words, b)?;
    kernel(&mut words[..n]);
    Ok(b)
}

// Moves every bit k up; keeps the count.
pub fn shift_left(words: &mut [u64], b: Bitmap, k: usize) -> Result<Bitmap, Refused>
    ensures { Changes (shifting_left k) words.old b result words.new }
{
    keep_count(words, b, |part| left_words(part, k))
}

// Moves every bit k down; keeps the count.
pub fn shift_right(words: &mut [u64], b: Bitmap, k: usize) -> Result<Bitmap, Refused>
    ensures { Changes (shifting_right k) words.old b result words.new }
{
    keep_count(words, b, |part| right_words(part, k))
}

// Each bit goes `up` places up, within its word or into the next; those that pass the end go to the start.
fn turn_up(words: &mut [u64], up: usize)
    requires { (0 < length words.old) × (up < 64) }
    ensures { words.new
        ≡ words_of (turned_up (64 * length words.old) up (member words.old)) (length words.old) }
{
    if up == 0 {
        return;
    }
    let down = 64 - up;
    // From the top down, so that each word is read before it is overwritten; the first word needs the old last one. Over `iter_mut`, with the old
    // neighbour carried along, one word is made at a time: that takes 1.3 times as long here and 2.1 times as long in `turn_down`.
    let n = words.len();
    let last = words[n - 1];
    for i in (1..n).rev() {
        words[i] = step(words[i - 1], words[i], down, up);
    }
    words[0] = step(last, words[0], down, up);
}

// Each bit goes `down` places down, within its word or into the one before; those that pass the start go to the end.
// Not one function with `turn_up`: order, neighbour and edge would all be arguments.
fn turn_down(words: &mut [u64], down: usize)
    requires { (0 < length words.old) × (down < 64) }
    ensures { words.new
        ≡ words_of (turned_down (64 * length words.old) down (member words.old)) (length words.old) }
{
    if down == 0 {
        return;
    }
    let up = 64 - down;
    // From the bottom up, so that each word is read before it is overwritten; the last word needs the old first one.
    let end = words.len() - 1;
    let first = words[0];
    for i in 0..end {
        words[i] = step(words[i], words[i + 1], down, up);
    }
    words[end] = step(words[end], first, down, up);
}

// Bit i goes to i + k, counted on from the start past the end.
pub fn turn_left(words: &mut [u64], k: usize)
    ensures { words.new ≡ words_of (turned_up (64 * length words.old) k (member words.old)) (length words.old) }
{
    let n = words.len();
    if n == 0 {
        return;
    }
    moves::turn_words(words, (k / 64) % n);
    turn_up(words, k % 64);
}

// Bit i goes to i - k, counted on from the end past the start. As a turn to the left by what is left of the length, a small k takes 1.3 times as long.
pub fn turn_right(words: &mut [u64], k: usize)
    ensures { words.new
        ≡ words_of (turned_down (64 * length words.old) k (member words.old)) (length words.old) }
{
    let n = words.len();
    if n == 0 {
        return;
    }
    // Down by whole words is up by what they leave of the length.
    moves::turn_words(words, (n - (k / 64) % n) % n);
    turn_down(words, k % 64);
}

// Rotates every bit k up within the length; keeps the count.
pub fn rotate_left(words: &mut [u64], b: Bitmap, k: usize) -> Result<Bitmap, Refused>
    ensures { Changes (rotating_left k) words.old b result words.new }
{
    keep_count(words, b, |part| turn_left(part, k))
}

// Rotates every bit k down within the length; keeps the count.
pub fn rotate_right(words: &mut [u64], b: Bitmap, k: usize) -> Result<Bitmap, Refused>
    ensures { Changes (rotating_right k) words.old b result words.new }
{
    keep_count(words, b, |part| turn_right(part, k))
}
