// Replays a list of sheets and writer calls with the answers of a model in another language: oracle/sheet tells of both. Prints what was met by
// part and number, and a line for each mismatch.
#![tactic(auto)]

mod calls;
mod readings;
mod scan;
mod tally;

use crate::calls::Buffer;
use crate::readings::Stores;
use crate::scan::Scan;
use crate::tally::{Case, Tally};
use listing::End;
use std::io;
use std::io::Read;

// The bytes that no list has.
const MOST: usize = 1_048_576;

// What a line tells: a case, what the next ones work on, or the number of the last line.
#[derive(Clone, Copy)]
enum Line {
    Case(Case),
    Lent,
    Last(u64),
}

// Where the replay stands.
#[derive(Drop)]
struct Desk {
    buffer: Buffer,
    stores: Stores,
}

impl Desk {
    // A line, by its letter: one of the hexadecimal digits, as the list has them.
    fn line(&mut self, scan: &mut Scan<'_>) -> Option<Line> {
        match scan.number()? {
            0xa => Some(Line::Case(self.buffer.call(scan)?)),
            0xb => {
                self.buffer.lend(scan)?;
                Some(Line::Lent)
            }
            0xc => {
                self.stores = Stores::read(scan)?;
                Some(Line::Lent)
            }
            0xe => Some(Line::Case(self.stores.reading(scan, self.buffer.sheet()?)?)),
            0xf => Some(Line::Last(scan.number()?)),
            _ => None,
        }
    }
}

fn one(rt: &impl Print, line: u64, case: Case, tally: &mut Tally) -> io::Result<()> {
    tally.add(case);
    if !case.agrees {
        let number = case.number;
        println!(rt; "line {line}: another answer than number {number}")?;
    }
    Ok(())
}

// Every line, and how the list ends.
fn lines(rt: &impl Print, list: &[u8], tally: &mut Tally) -> io::Result<End> {
    let mut desk = Desk {
        buffer: Buffer::new(),
        stores: Stores::new(),
    };
    let mut last = 0u64;
    let mut whole = false;
    for bytes in list.split_inclusive(|byte| *byte == b'\n') {
        if whole {
            return Ok(End::More(last));
        }
        last = last.saturating_add(1);
        let mut scan = Scan::of(bytes);
        match desk.line(&mut scan) {
            Some(Line::Case(case)) => one(rt, last, case, tally)?,
            Some(Line::Lent) => {}
            Some(Line::Last(number)) if number == last => whole = true,
            _ => return Ok(End::Unread(last)),
        }
        if !scan.is_at_end() {
            return Ok(End::Unread(last));
        }
    }
    Ok(if whole { End::Whole } else { End::Cut(last) })
}

// Reads until the room is full or the input ends: how many bytes there are then.
fn load(rt: &impl Input, room: &mut [u8; MOST]) -> io::Result<usize> {
    let mut left = &mut room[..];
    let n = io::copy(&mut rt.reader().take(MOST as u64), &mut left)?;
    Ok(n as usize)
}

// The list is the first n bytes; where it fills the room, some may be missing.
fn replay(rt: &impl Print, room: &[u8; MOST], n: usize) -> io::Result<()> {
    if n >= MOST {
        return println!(rt; "the list is too long");
    }
    let mut tally = Tally::new();
    let end = lines(rt, &room[..n], &mut tally)?;
    tally.report(rt)?;
    // Not the text of `End`: the output of this program has one message for all three.
    match end {
        End::Whole => Ok(()),
        End::Cut(line) | End::Unread(line) | End::More(line) => {
            println!(rt; "the list can't be read from line {line} on")
        }
    }
}

fn main(rt: HostRuntime) -> io::Result<()> {
    let mut room = [0u8; MOST];
    let n = load(&rt, &mut room)?;
    replay(&rt, &room, n)
}
