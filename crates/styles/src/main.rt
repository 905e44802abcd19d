// Replays a list of texts and sets in house styles with the answers of a model in another language: oracle/style tells of both. Prints what was met
// by part and number, and a line for each mismatch.
#![tactic(auto)]

mod case;
mod list;
mod tally;

use crate::case::Case;
use crate::tally::Tally;
use listing::End;
use std::io;
use std::io::Read;

// The bytes that no list has.
const MOST: usize = 1_048_576;

// Stands for a part on the last line, which has its own number and no more: a number of the list.
const LAST: u64 = 15;

// Replays the case of a line. As in registers but for the tally: one function of both would be handed the replay and the count.
fn one(rt: &impl Print, line: u64, case: &Case<'_>, tally: &mut Tally) -> io::Result<()> {
    let number = case.number;
    let shown = case.replay();
    tally.add(case.part, number as usize, shown.is_err());
    if let Err(mismatch) = shown {
        println!(rt; "line {line}: number {number} is right, and {mismatch}")?;
    }
    Ok(())
}

// Every line, up to the last or one that can't be read: how the list ends.
fn lines(rt: &impl Print, list: &[u8], tally: &mut Tally) -> io::Result<End> {
    let mut room = [0u64; case::LONGEST];
    let mut last = 0u64;
    let mut whole = false;
    for line in list.split_inclusive(|byte| *byte == b'\n') {
        if whole {
            return Ok(End::More(last));
        }
        last = last.saturating_add(1);
        let numbers = list::read(line, &mut room);
        if numbers == Some([LAST, last].as_slice()) {
            whole = true;
        } else if let Some(case) = numbers.and_then(Case::of) {
            one(rt, last, &case, tally)?;
        } else {
            return Ok(End::Unread(last));
        }
    }
    Ok(if whole { End::Whole } else { End::Cut(last) })
}

// Reads until the room is full or the input ends: how many bytes there are then.
fn load(rt: &impl Input, room: &mut [u8; MOST]) -> io::Result<usize> {
    let mut left = &mut room[..];
    let n = io::copy(&mut rt.reader().take(MOST as u64), &mut left)?;
    Ok(n as usize)
}

// The list is the first n bytes; where it fills the room, some may be missing.
fn replay(rt: &impl Print, room: &[u8; MOST], n: usize) -> io::Result<()> {
    if n >= MOST {
        return println!(rt; "the list is too long");
    }
    let mut tally = Tally::new();
    let end = lines(rt, &room[..n], &mut tally)?;
    tally.report(rt)?;
    print!(rt; "{end}")
}

fn main(rt: HostRuntime) -> io::Result<()> {
    let mut room = [0u8; MOST];
    let n = load(&rt, &mut room)?;
    replay(&rt, &room, n)
}
