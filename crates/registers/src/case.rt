// One case: a call on memory that is filled as the line says, and what it answers and leaves compared with the line and the text behind it.
ghost use Rattle.std.specs.Prelude.{◌≤◌, length, IfSome};

use listing::{Mismatch, unwritten};
use std::array;
use storage::{Bitmap, EMPTY};
use told::Told;

// The most words of a store, and the bytes of a buffer: ten pages have room.
const STORE: usize = 1_600;

const BUFFER: usize = 40_000;

// The most numbers of a line: those that each case has, and the words.
pub(crate) const LONGEST: usize = 5 + STORE;

// The largest number of an answer.
const NUMBERS: u64 = 16;

// The bytes of a register's line.
const LINE: usize = 73;

// Whether the bytes of a buffer from a place on are unwritten. Each is looked at, which takes less time than to stop at the first that is not.
fn is_unwritten(bytes: &[u8], from: usize) -> bool {
    let bytes = bytes.iter().enumerate();
    bytes.fold(
        true,
        |all: bool, (k, byte)| all & (*byte == unwritten(from.wrapping_add(k))),
    )
}

// All words of a store and their count, the number that is right, the register, empty where it is refused, and the size of the buffer.
#[derive(Clone, Copy)]
pub struct Case<'a> {
    words: &'a [u64],
    count: usize,
    pub number: u64,
    text: &'a [u8],
    size: usize,
    ghost has_room: { size ≤ 40000 },
}

impl<'a> Case<'a> {
    // The case that has exactly these numbers and its text first in the list, if there is one with room here; and the rest of the list.
    pub(crate) fn split<'l: 'a>(numbers: &'a [u64], list: &'l [u8]) -> Option<(Case<'a>, &'l [u8])>
        ensures { IfSome result (λ p. length p.1.now ≤ length list.now) }
    {
        let (&[capacity, count, number, length, size], words) = numbers.split_first_chunk::<5>()?;
        let (text, rest) = list.split_at_checked(length as usize)?;
        let (count, size) = (count as usize, size as usize);
        let fits = words.len() <= STORE && text.len() <= BUFFER && size <= BUFFER;
        if words.len() as u64 != capacity || number > NUMBERS || !fits {
            return None;
        }
        Some((
            Case {
                words,
                count,
                number,
                text,
                size,
            },
            rest,
        ))
    }

    // How many lines of the list the text is.
    pub(crate) fn lines(&self) -> u64 {
        (self.text.len() / LINE) as u64
    }

    // Whether a buffer has the text, and is unwritten behind it: part by part, as a second buffer would take as much stack again.
    fn is_left(&self, out: &[u8; BUFFER]) -> bool {
        match out.split_at_checked(self.text.len()) {
            Some((text, behind)) => *text == *self.text && is_unwritten(behind, text.len()),
            None => false,
        }
    }

    fn answered(&self, got: Told) -> bool {
        u64::from(got.number) == self.number && got.value == self.text.len() as u64
    }

    // Prints the register of the set into the first bytes of a buffer, and compares the answer and the buffer.
    pub(crate) fn replay(&self) -> Result<(), Mismatch> {
        let mut out: [u8; BUFFER] = array::from_fn(unwritten);
        let record = Bitmap {
            count: self.count,
            ..EMPTY
        };
        let got = register::write_register(self.words, record, &mut out[..self.size]);
        if !self.answered(told::amount(got)) {
            Err(Mismatch::Answer)
        } else if !self.is_left(&out) {
            Err(Mismatch::Memory)
        } else {
            Ok(())
        }
    }
}
