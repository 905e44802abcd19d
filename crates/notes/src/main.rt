// Reads a change sheet from standard input and prints what each edition makes of it, from an empty bitmap: edition, number, record, word count, and
// the list unless it is empty.
#![tactic(auto)]

use sheet::ReadError;
use std::io;
use std::io::Read;
use storage::{Bitmap, EMPTY, Refusal};
use style::PLAIN;

// The bytes that no sheet has.
const MOST: usize = 65_536;

// A blank and the list; nothing for an empty one.
fn list(rt: &impl Print, words: &[u64], b: Bitmap) -> io::Result<()> {
    let mut out = [0u8; MOST];
    if let Ok(n) = print::write_list(words, b, &mut out, PLAIN)
        && n > 0
    {
        rt.write_all(b" ")?;
        rt.write_all(&out[..n])?;
    }
    Ok(())
}

// One edition's line. It is printed as numbers, 0 where the sheet is read.
fn line(rt: &impl Print, edition: usize, sheet: &[u8]) -> io::Result<()> {
    let mut store = [0; 128];
    let (number, record, b) = match reader::read(edition, sheet, &[0], EMPTY, &mut store) {
        Ok((records, b)) => (0, records, b),
        Err(ReadError(why, record)) => (why.number(), record, EMPTY),
    };
    let count = b.count;
    print!(rt; "{edition} {number} {record} {count}")?;
    list(rt, &store, b)?;
    println!(rt)
}

fn main(rt: HostRuntime) -> io::Result<()> {
    let mut room = [0u8; MOST];
    let mut left = &mut room[..];
    let n = io::copy(&mut rt.reader().take(MOST as u64), &mut left)? as usize;
    if n >= MOST {
        let number = Refusal::NoSpace.number();
        return println!(rt; "0 {number} 0 0");
    }
    line(&rt, 1, &room[..n])?;
    line(&rt, 2, &room[..n])
}
