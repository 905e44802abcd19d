// How an answer is printed: the number of document 01, then what the answer carries, then every word of the store.
use std::{fmt, io};
use storage::{Bitmap, Refused};

// Every word, those not in use too.
#[derive(Clone, Copy)]
pub(crate) struct Words<'a>(pub &'a [u64]);

impl fmt::Display for Words<'_> {
    fn fmt<W: fmt::Write>(&self, f: &mut fmt::Formatter<W>) -> fmt::Result {
        f.write_str("|")?;
        for word in self.0 {
            write!(f, " {word:x}")?;
        }
        Ok(())
    }
}

// Printed as numbers: the refusal's, or 0 where there is none, the word count, the words.
pub(crate) fn change(rt: &impl Print, c: Result<Bitmap, Refused>, words: &[u64]) -> io::Result<()> {
    let (number, count) = match c {
        Ok(b) => (0, b.count),
        Err(Refused(why, b)) => (why.number(), b.count),
    };
    println!(rt; " {number} {count} {}", Words(words))
}

// The record that a call answers, for the next one.
pub(crate) fn record(c: Result<Bitmap, Refused>) -> Bitmap {
    match c {
        Ok(b) | Err(Refused(_, b)) => b,
    }
}
