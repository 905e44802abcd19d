// The sheet of the buffer, read by an edition: number, record, count and every word of the result store against those of the list.
ghost use Rattle.std.specs.Prelude.{◌≤◌};

use crate::scan::Scan;
use crate::tally::{Case, Part};
use sheet::ReadError;
use std::array;
use storage::{Bitmap, EMPTY};

// The most words of an old bitmap and of a result store.
const OLDEST: usize = 64;

const STORE: usize = 128;

// Says of a result store that it must be as it was, where the list would give how many words follow: a number of the list.
const UNTOUCHED: u64 = 256;

// What every word of a result store holds before the reading, with its place added.
const PATTERN: u64 = 0xa5a5_a5a5_a5a5_a500;

// Number of document 01, 0 for no refusal, record and word count: as the list has them.
#[derive(Clone, Copy, PartialEq)]
struct Answer {
    number: u64,
    record: u64,
    count: u64,
}

impl From<Result<(usize, Bitmap), ReadError>> for Answer {
    fn from(reading: Result<(usize, Bitmap), ReadError>) -> Answer {
        match reading {
            Ok((records, b)) => Answer {
                number: 0,
                record: records as u64,
                count: b.count as u64,
            },
            Err(ReadError(why, record)) => Answer {
                number: u64::from(why.number()),
                record: record as u64,
                count: 0,
            },
        }
    }
}

// The old bitmap, and the capacity of the result's store.
#[derive(Clone, Copy)]
pub struct Stores {
    words: [u64; OLDEST],
    length: usize,
    count: usize,
    capacity: usize,
    ghost old_has_room: { length ≤ 64 },
    ghost result_has_room: { capacity ≤ 128 },
}

impl Stores {
    pub(crate) fn new() -> Stores {
        Stores {
            words: [0; OLDEST],
            length: 0,
            count: 0,
            capacity: 0,
        }
    }

    pub(crate) fn read(scan: &mut Scan<'_>) -> Option<Stores> {
        let [capacity, count, length] = scan.numbers::<3>()?;
        let (capacity, count, length) = (capacity as usize, count as usize, length as usize);
        let mut words = [0; OLDEST];
        if capacity > STORE {
            return None;
        }
        scan.fill(words.get_mut(..length)?)?;
        Some(Stores {
            words,
            length,
            count,
            capacity,
        })
    }

    // The result's store before the reading; what is behind it is compared too.
    fn result(&self) -> [u64; STORE] {
        array::from_fn(|k| {
            if k < self.capacity {
                PATTERN + (k % 256) as u64
            } else {
                0
            }
        })
    }

    // The store that the list wants: as it was, or words that follow and zeros after them.
    fn wanted(&self, scan: &mut Scan<'_>, follow: u64) -> Option<[u64; STORE]> {
        if follow == UNTOUCHED {
            return Some(self.result());
        }
        let mut wanted = [0; STORE];
        scan.fill(wanted[..self.capacity].get_mut(..follow as usize)?)?;
        Some(wanted)
    }

    // A reading of the sheet by one edition, and what it answers and leaves against what is right.
    pub(crate) fn reading(&self, scan: &mut Scan<'_>, sheet: &[u8]) -> Option<Case> {
        let [part, edition, number, record, count, follow] = scan.numbers::<6>()?;
        let wanted = self.wanted(scan, follow)?;
        let mut store = self.result();
        let got = reader::read(
            edition as usize,
            sheet,
            &self.words[..self.length],
            Bitmap {
                count: self.count,
                ..EMPTY
            },
            &mut store[..self.capacity],
        );
        let right = Answer {
            number,
            record,
            count,
        };
        Some(Case {
            part: Part::from(part),
            number,
            agrees: Answer::from(got) == right && store == wanted,
        })
    }
}
