// Prints a small register. Then replays a list of sets with the registers of a model in another language: oracle/register tells of both. Prints what
// was met by number, and a line for each mismatch.
#![tactic(auto)]

ghost use Rattle.std.specs.Prelude.{◌<◌, length};

mod case;
mod list;
mod small;

use crate::case::Case;
use listing::{End, Row};
use std::io;
use std::io::Read;

// The bytes that no list has.
const MOST: usize = 1_048_576;

// Stands for a capacity on the last line, which has its own number and no more: a number of the list.
const LAST: u64 = 15;

// Replays the case of a line. As in styles but for the tally: one function of both would be handed the replay and the count.
fn one(rt: &impl Print, line: u64, case: Case<'_>, tally: &mut Row<17>) -> io::Result<()> {
    let number = case.number;
    let shown = case.replay();
    tally.add(number as usize, shown.is_err());
    if let Err(mismatch) = shown {
        println!(rt; "line {line}: number {number} is right, and {mismatch}")?;
    }
    Ok(())
}

// The first line and what is behind it.
fn split_line(list: &[u8]) -> (&[u8], &[u8])
    ensures { 0 < length list.now → length result.1.now < length list.now }
{
    match list.iter().position(|byte| *byte == b'\n') {
        Some(k) => list.split_at(k + 1),
        None => (list, &[]),
    }
}

// Every line and the text behind it, up to the last or one that can't be read: how the list ends.
fn lines(rt: &impl Print, list: &[u8], tally: &mut Row<17>) -> io::Result<End> {
    let mut room = [0u64; case::LONGEST];
    let mut last = 0u64;
    let mut rest = list;
    // Not `split_inclusive`, as in styles: the text behind a line has line ends too, and the line says how long it is.
    while !rest.is_empty() {
        last = last.saturating_add(1);
        let (line, behind) = split_line(rest);
        let numbers = list::read(line, &mut room);
        if numbers == Some([LAST, last].as_slice()) {
            let whole = behind.is_empty();
            return Ok(if whole { End::Whole } else { End::More(last) });
        }
        if let Some(numbers) = numbers
            && let Some((case, behind)) = Case::split(numbers, behind)
        {
            one(rt, last, case, tally)?;
            last = last.saturating_add(case.lines());
            rest = behind;
        } else {
            return Ok(End::Unread(last));
        }
    }
    Ok(End::Cut(last))
}

// Reads until the room is full or the input ends: how many bytes there are then.
fn load(rt: &impl Input, room: &mut [u8; MOST]) -> io::Result<usize> {
    let mut left = &mut room[..];
    let n = io::copy(&mut rt.reader().take(MOST as u64), &mut left)?;
    Ok(n as usize)
}

// The list is the first n bytes; where it fills the room, some may be missing.
fn replay(rt: &impl Print, room: &[u8; MOST], n: usize) -> io::Result<()> {
    if n >= MOST {
        return println!(rt; "the list is too long");
    }
    let mut tally = Row::new();
    let end = lines(rt, &room[..n], &mut tally)?;
    println!(rt; "registers printed: {tally}")?;
    print!(rt; "{end}")
}

fn main(rt: HostRuntime) -> io::Result<()> {
    small::print(&rt)?;
    let mut room = [0u8; MOST];
    let n = load(&rt, &mut room)?;
    replay(&rt, &room, n)
}
