// A bitmap printed as list text in a style: its runs upward, in the plain style as `0-3, 5-7, 11`. A run is one piece, or one for each number. The call
// measures first and writes only what fits. Runs and digits have their home here, for other prints too: `run_from`, `decimal_len`, `put_decimal`.
#![tactic(auto)]

ghost use Rattle.std.specs.Prelude.{◌≡◌, ◌+◌, ◌-◌, ◌*◌, ◌≤◌, ◌<◌, leb, ◌++◌, length};
ghost use Rattle.storage.specs.Guards.{Passed};
ghost use Rattle.text.specs.Lists.{list_limit, range};
ghost use Rattle.style.specs.Promises.{Allowed};
ghost use Rattle.print.specs.Texts.{AnswersRun, decimal, decimal_len, PutsDecimal, cut, printed, text_of, Prints};
ghost use Rattle.print.specs.Kernels.{NextRun, Printable, range_of, separator, pieces_at, put_at, Puts};

use storage::{Bitmap, Refusal};
use style::Style;
use text::{COMMA, ZERO};

const SPACE: u8 = 32;

// A run: its first bit, and the clear bit after its last.
#[derive(Clone, Copy, Debug, PartialEq, Eq)]
pub struct Run {
    pub low: usize,
    pub end: usize,
}

// How many digits x has. By comparing: std's logarithm, and a test for more than ten digits, take more of `write_list`'s time.
fn digits(x: usize) -> usize
    requires { x < 10_000_000_000 }
    ensures { result ≡ length (decimal x) }
{
    if x < 100_000 {
        if x < 100 {
            return if x < 10 { 1 } else { 2 };
        }
        if x < 10_000 {
            return if x < 1_000 { 3 } else { 4 };
        }
        return 5;
    }
    if x < 10_000_000 {
        return if x < 1_000_000 { 6 } else { 7 };
    }
    if x < 1_000_000_000 {
        return if x < 100_000_000 { 8 } else { 9 };
    }
    10
}

// How many digits any number has: 1 for 9, 2 for 10.
pub fn decimal_len(x: usize) -> usize
    ensures { result ≡ decimal_len x }
{
    if x < 10_000_000_000 {
        return digits(x);
    }
    10 + digits(x / 10_000_000_000)
}

// The length of what stands before a piece.
fn gap_len(at: usize, blank: bool) -> usize
    ensures { result ≡ length (separator blank at) }
{
    if at == 0 {
        return 0;
    }
    if blank { 2 } else { 1 }
}

// The length of a range of two numbers or more. `Allowed` and `Printable` are asked, here and below, and no types: six of the eight contracts that ask them
// have a bound of places or numbers beside, which would stay.
fn pair_len(a: usize, b: usize, style: Style) -> usize
    requires { Allowed style × (a < b) × (b ≤ list_limit) }
    ensures { result ≡ length (printed style (range a b)) }
{
    digits(a + style.first) + 1 + digits(b + style.first)
}

// Whether a run is written as a range, and not number by number.
fn is_range(run: Run, style: Style) -> bool
    requires { Printable run }
    ensures { result ≡ leb style.shortest (run.end - run.low) }
{
    run.end - run.low >= style.shortest
}

// The place after a run that begins at a place, with what stands before it.
fn run_end(at: usize, run: Run, style: Style) -> usize
    requires { Allowed style × Printable run × (at ≤ 23 * run.low) }
    ensures { result ≡ at + length (pieces_at style at (cut style.shortest (range_of run))) }
{
    if is_range(run, style) {
        return at + gap_len(at, style.blank) + pair_len(run.low, run.end - 1, style);
    }
    let mut p = at;
    for x in run.low..run.end {
        p = p + gap_len(p, style.blank) + digits(x + style.first);
    }
    p
}

// From here on the same pieces are put. The lengths above work out no digit, so a walk shared by both would still need two functions for each piece. `out`
// and `at` go side by side, as the buffer is lent and each contract says the whole of it: a struct that borrows it would say the same of its field.

// Puts the digits of x up to a place, the last two first. By hand, since std's `Display` writes to a `fmt::Write`, which a part of a lent buffer is not; two
// digits a turn, so that a `for` would count the turns and work the place out again.
fn put_digits(out: &mut [u8], at: usize, end: usize, x: usize)
    requires { (end ≡ at + length (decimal x)) × (end ≤ length out.old) }
    ensures { out.new ≡ put_at at (decimal x) out.old }
{
    let mut p = end;
    let mut y = x;
    while p - at >= 2 {
        let two = y % 100;
        out[p - 1] = ZERO + (two % 10) as u8;
        out[p - 2] = ZERO + (two / 10) as u8;
        y = y / 100;
        p -= 2;
    }
    if p > at {
        out[at] = ZERO + (y % 10) as u8;
    }
}

// Puts the digits of x; the place after them.
fn put_number(out: &mut [u8], at: usize, x: usize) -> usize
    requires { (x < 10_000_000_000) × (at + length (decimal x) ≤ length out.old) }
    ensures { Puts at (decimal x) result out.old out.new }
{
    let end = at + digits(x);
    put_digits(out, at, end, x);
    end
}

// Puts the digits of x at a place, where the buffer has room for them; the place after them, or the same place where nothing is put, as `PutsDecimal` says.
// `put_number` does not test the room: its contract asks for it, and its callers have measured.
pub fn put_decimal(out: &mut [u8], at: usize, x: usize) -> usize
    ensures { PutsDecimal at x result out.old out.new }
{
    if at > out.len() {
        return at;
    }
    let len = decimal_len(x);
    if len > out.len() - at {
        return at;
    }
    put_digits(out, at, at + len, x);
    at + len
}

// Puts what stands between two pieces, if one came before; the place after it.
fn put_gap(out: &mut [u8], at: usize, blank: bool) -> usize
    requires { at + length (separator blank at) ≤ length out.old }
    ensures { Puts at (separator blank at) result out.old out.new }
{
    if at == 0 {
        return 0;
    }
    out[at] = COMMA;
    if blank {
        out[at + 1] = SPACE;
        return at + 2;
    }
    at + 1
}

// Puts a number, after what stands before it; the place after it.
fn put_single(out: &mut [u8], at: usize, x: usize, style: Style) -> usize
    requires { Allowed style × (x ≤ list_limit) × (at + (length (separator style.blank at) + length (printed style (range x x))) ≤ length out.old) }
    ensures { Puts at (separator style.blank at ++ printed style (range x x)) result out.old out.new }
{
    let start = put_gap(out, at, style.blank);
    put_number(out, start, x + style.first)
}

// Puts a range of two numbers or more, after what stands before it; the place after it.
fn put_pair(out: &mut [u8], at: usize, a: usize, b: usize, style: Style) -> usize
    requires { Allowed style × (a < b) × (b ≤ list_limit) × (at + (length (separator style.blank at) + length (printed style (range a b))) ≤ length out.old) }
    ensures { Puts at (separator style.blank at ++ printed style (range a b)) result out.old out.new }
{
    let start = put_gap(out, at, style.blank);
    let next = put_number(out, start, a + style.first);
    out[next] = style.joiner as u8;
    put_number(out, next + 1, b + style.first)
}

// Puts a run, after what stands before it; the place after it.
fn put_run(out: &mut [u8], at: usize, run: Run, style: Style) -> usize
    requires { Allowed style × Printable run × (at + length (pieces_at style at (cut style.shortest (range_of run))) ≤ length out.old) }
    ensures { Puts at (pieces_at style at (cut style.shortest (range_of run))) result out.old out.new }
{
    if is_range(run, style) {
        return put_pair(out, at, run.low, run.end - 1, style);
    }
    let mut p = at;
    for x in run.low..run.end {
        p = put_single(out, p, x, style);
    }
    p
}

// A bitmap that the guard let pass.
#[derive(Clone, Copy)]
pub struct Held<'a> {
    pub words: &'a [u64],
    pub bitmap: Bitmap,
    pub ghost passes: { Passed words.now bitmap },
}

impl Held<'_> {
    ghost use Rattle.print.specs.Held.{bits_of};

    // The next run from i on; an empty one at the length where there is none.
    fn next_run(&self, i: usize) -> Run
        requires { i ≤ 64 * self.now.bitmap.count }
        ensures { NextRun (bits_of self.now).members (64 * self.now.bitmap.count) i result }
    {
        let end = 64 * self.bitmap.count;
        let none = Run { low: end, end: end };
        let low = match scans::next_set(self.words, self.bitmap, i) {
            Ok(Some(low)) => low,
            Ok(None) => return none,
            Err(_) => return none,
        };
        let next = low + 1;
        // A run of one bit needs no second scan.
        if next / 64 < self.bitmap.count {
            if (self.words[next / 64] >> (next % 64)) & 1 == 0 {
                return Run { low, end: next };
            }
        }
        let Ok(end) = scans::next_clear(self.words, self.bitmap, next) else {
            return none;
        };
        Run { low, end }
    }

    // The length of a bitmap's text. Here and in `print` a loop goes from run to run, and no index is counted: `run_from_means` says that after the last run
    // comes an empty one at the length, so its answer is no `Option`.
    fn text_len(&self, style: Style) -> usize
        requires { Allowed style }
        ensures { result ≡ length (text_of style (bits_of self.now)) }
    {
        let mut at = 0;
        let mut run = self.next_run(0);
        while run.low < run.end {
            at = run_end(at, run, style);
            run = self.next_run(run.end);
        }
        at
    }

    // Puts the text of a bitmap.
    fn print(&self, out: &mut [u8], style: Style)
        requires { Allowed style × (length (text_of style (bits_of self.now)) ≤ length out.old) }
        ensures { out.new ≡ put_at 0 (text_of style (bits_of self.now)) out.old }
    {
        let mut at = 0;
        let mut run = self.next_run(0);
        while run.low < run.end {
            at = put_run(out, at, run, style);
            run = self.next_run(run.end);
        }
    }
}

// The next run from i on; one that began before i is taken from i on. Where there is none, an empty one at the length; where 1 or 2 applies, at 0.
// {3, 7, 8}: from 4 on it is 7 to 8, from 8 on 8 alone. Empty runs, and no `Option`, as `AnswersRun` says.
pub fn run_from(words: &[u64], b: Bitmap, i: usize) -> Run
    ensures { AnswersRun words.now b i result }
{
    let Ok(()) = storage::check(words, b) else {
        return Run { low: 0, end: 0 };
    };
    let held = Held { words, bitmap: b };
    let end = 64 * b.count;
    if i > end {
        return Run { low: end, end: end };
    }
    held.next_run(i)
}

// Prints the bitmap as a list in a style; the text's length. 15 if the style is not allowed, then 6 if the buffer is shorter, before a byte is written;
// bytes past the text are untouched. From 1, with `:` and shortest run 3, {0, 1, 2, 4, 5} is `1:3, 5, 6`.
pub fn write_list(words: &[u64], b: Bitmap, out: &mut [u8], style: Style) -> Result<usize, Refusal>
    ensures { Prints style words.now b out.old result out.new }
{
    storage::check(words, b)?;
    let held = Held { words, bitmap: b };
    if !style::is_allowed(style) {
        return Err(Refusal::BadStyle);
    }
    let len = held.text_len(style);
    if len > out.len() {
        return Err(Refusal::NoSpace);
    }
    held.print(out, style);
    Ok(len)
}
