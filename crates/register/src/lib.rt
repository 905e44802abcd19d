// A bitmap printed as a note register, on pages of 50 lines of 72 bytes and a line end: a run on a line, upward, and on the last line of a page its
// number, the number of pages and the number of set bits. The call measures first and writes only what fits.
#![tactic(auto)]

ghost use Rattle.std.specs.Prelude.{◌≡◌, ◌+◌, ◌*◌, ◌≤◌, ◌<◌, length, replicate};
ghost use Rattle.storage.specs.Stores.{size};
ghost use Rattle.text.specs.Lists.{space};
ghost use Rattle.print.specs.Texts.{runs};
ghost use Rattle.print.specs.Kernels.{put_at, Puts};
ghost use Rattle.print.specs.Held.{bits_of};
ghost use Rattle.register.specs.Register.{column, ended, line, pages_for, line_of, register_of, Registers};
ghost use Rattle.register.specs.Kernels.{Narrow, row_for, NextLine, Ready};

use print::{Held, Run};
use storage::{Bitmap, Refusal};

const SPACE: u8 = 32;

const LINE_END: u8 = 10;

// The bytes of a column, of a line without its end and with it, and those behind its three columns.
const COLUMN: usize = 12;

const WIDTH: usize = 72;

const LINE: usize = 73;

const REST: usize = 36;

// The lines of a page, and its runs: all lines but the last.
const LINES: usize = 50;

const RUNS: usize = 49;

// Puts n blanks at a place; the place after them. The buffer is lent, and each contract says the whole of it, so `out` and `at` stay side by side.
fn put_blanks(out: &mut [u8], at: usize, n: usize) -> usize
    requires { at + n ≤ length out.old }
    ensures { Puts at (replicate n space) result out.old out.new }
{
    let end = at + n;
    out[at..end].fill(SPACE);
    end
}

// Puts a number, right-aligned in its column; the place after it. Numbers are reckoned on the way, so a type for a narrow one would be built for each.
fn put_column(out: &mut [u8], at: usize, x: usize) -> usize
    requires { Narrow x × (at + 12 ≤ length out.old) }
    ensures { Puts at (column x) result out.old out.new }
{
    let p = put_blanks(out, at, COLUMN - print::decimal_len(x));
    print::put_decimal(out, p, x)
}

// Puts blanks and the line's end; the place after it.
fn put_end(out: &mut [u8], at: usize, n: usize) -> usize
    requires { at + n + 1 ≤ length out.old }
    ensures { Puts at (ended n) result out.old out.new }
{
    let p = put_blanks(out, at, n);
    out[p] = LINE_END;
    p + 1
}

// Puts a line of three numbers.
fn put_line(out: &mut [u8], at: usize, a: usize, b: usize, c: usize)
    requires { Narrow a × Narrow b × Narrow c × (at + 73 ≤ length out.old) }
    ensures { out.new ≡ put_at at (line a b c) out.old }
{
    let p = put_column(out, at, a);
    let q = put_column(out, p, b);
    let s = put_column(out, q, c);
    put_end(out, s, REST);
}

// Puts the line of a run, blank for an empty one.
fn put_row(out: &mut [u8], at: usize, run: Run)
    requires { Narrow run.end × (at + 73 ≤ length out.old) }
    ensures { out.new ≡ put_at at (row_for run) out.old }
{
    if run.low < run.end {
        put_line(out, at, run.low, run.end - 1, run.end - run.low);
        return;
    }
    put_end(out, at, WIDTH);
}

// Puts line k, where `run` is the next to be printed; the run that is then the next.
fn put_next(held: &Held<'_>, out: &mut [u8], k: usize, run: Run, pages: usize, count: usize) -> Run
    requires { Ready (bits_of held.now) pages count out.old × NextLine (bits_of held.now) k run × (k < 50 * pages) }
    ensures { NextLine (bits_of held.now) (k + 1) result × (out.new ≡ put_at (73 * k) (line_of (bits_of held.now) k) out.old) }
{
    if k % LINES == RUNS {
        put_line(out, LINE * k, k / LINES + 1, pages, count);
        return run;
    }
    put_row(out, LINE * k, run);
    print::run_from(held.words, held.bitmap, run.end)
}

// Puts all lines.
fn put_lines(held: &Held<'_>, out: &mut [u8], pages: usize, count: usize)
    requires { Ready (bits_of held.now) pages count out.old }
    ensures { out.new ≡ put_at 0 (register_of (bits_of held.now)) out.old }
{
    let lines = LINES * pages;
    let mut run = print::run_from(held.words, held.bitmap, 0);
    // By number, as `put_next` tells by it the last line of a page, and where the line stands.
    for k in 0..lines {
        run = put_next(held, out, k, run, pages, count);
    }
}

// How many runs there are. From run to run: `run_from` answers an empty one after the last, as `run_from_means` says.
fn count_runs(held: &Held<'_>) -> usize
    ensures { result ≡ length (runs (bits_of held.now)) }
{
    let mut n = 0;
    let mut run = print::run_from(held.words, held.bitmap, 0);
    while run.low < run.end {
        n += 1;
        run = print::run_from(held.words, held.bitmap, run.end);
    }
    n
}

// How many pages some runs take: one where there is none.
fn page_count(runs: usize) -> usize
    ensures { result ≡ pages_for runs }
{
    runs.div_ceil(RUNS).max(1)
}

// How many set bits there are. The guard has let the bitmap pass, so no refusal comes and the 0 is never taken.
fn count_bits(held: &Held<'_>) -> usize
    ensures { result ≡ size (bits_of held.now) }
{
    scans::count_set_bits(held.words, held.bitmap).unwrap_or(0)
}

// Prints the bitmap as a register; the text's length, 3,650 bytes a page. 6 if the buffer is shorter, before a byte is written; bytes past the text are
// untouched. {7} is a line of 7, 7 and 1, 48 blank lines, and a line of 1, 1 and 1.
pub fn write_register(words: &[u64], b: Bitmap, out: &mut [u8]) -> Result<usize, Refusal>
    ensures { Registers words.now b out.old result out.new }
{
    storage::check(words, b)?;
    let held = Held { words, bitmap: b };
    let pages = page_count(count_runs(&held));
    let len = LINE * LINES * pages;
    if len > out.len() {
        return Err(Refusal::NoSpace);
    }
    put_lines(&held, out, pages, count_bits(&held));
    Ok(len)
}
