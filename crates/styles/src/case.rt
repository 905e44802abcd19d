// One case: a call on memory that is filled as the line says, and what it answers and leaves compared with the line.
ghost use Rattle.std.specs.Prelude.{◌≤◌};

use listing::{Mismatch, unwritten};
use storage::{Bitmap, EMPTY};
use style::Style;
use told::Told;

// The words of a store, and the bytes of a buffer or a text.
const STORE: usize = 4;

const BUFFER: usize = 2_048;

// The most numbers of a line: those that each case has, and the text's.
pub(crate) const LONGEST: usize = 19 + BUFFER / 8;

// The largest number of an answer.
const NUMBERS: u64 = 16;

// Whether the bytes of a buffer from a place on are unwritten. Each is looked at, which takes less time than to stop at the first that is not.
fn is_unwritten(bytes: &[u8], from: usize) -> bool {
    let bytes = bytes.iter().enumerate();
    bytes.fold(
        true,
        |all: bool, (k, byte)| all & (*byte == unwritten(from.wrapping_add(k))),
    )
}

// What a case does.
#[derive(Clone, Copy)]
pub enum Part {
    // A text is read,
    Text,
    // a set printed,
    Set,
    // a set printed and read back.
    RoundTrip,
}

// A part that no case has.
#[derive(Clone, Copy, Debug)]
pub struct UnknownPart;

impl TryFrom<u64> for Part {
    type Error = UnknownPart;

    fn try_from(part: u64) -> Result<Part, UnknownPart> {
        match part {
            0 => Ok(Part::Text),
            1 => Ok(Part::Set),
            2 => Ok(Part::RoundTrip),
            _ => Err(UnknownPart),
        }
    }
}

// The part, style, capacity and count of the store, what is right, number and count or length; the size of the buffer, the length of the text, the words
// of the store before and after the call, and the text, eight bytes a number, so that its length stands beside it.
#[derive(Drop)]
pub struct Case<'a> {
    pub part: Part,
    style: Style,
    capacity: usize,
    count: usize,
    pub number: u64,
    answer: u64,
    size: usize,
    length: usize,
    before: [u64; STORE],
    after: [u64; STORE],
    text: &'a [u64],
    ghost store_has_room: { capacity ≤ 4 },
    ghost buffer_has_room: { size ≤ 2048 },
    ghost text_has_room: { length ≤ 2048 },
}

impl<'a> Case<'a> {
    // The case that has exactly these numbers, if there is one with room here.
    pub(crate) fn of(numbers: &'a [u64]) -> Option<Case<'a>> {
        let (&[part, first, joiner, blank, shortest], rest) = numbers.split_first_chunk::<5>()?;
        let (&[capacity, count, number, answer, size, length], rest) = rest.split_first_chunk::<
            6,
        >()?;
        let (&before, rest) = rest.split_first_chunk::<STORE>()?;
        let (&after, text) = rest.split_first_chunk::<STORE>()?;
        let (capacity, size, length) = (capacity as usize, size as usize, length as usize);
        let fits = capacity <= STORE && size <= BUFFER && length <= BUFFER;
        if blank > 1 || number > NUMBERS || !fits || text.len() != length.div_ceil(8) {
            return None;
        }
        Some(Case {
            part: Part::try_from(part).ok()?,
            style: Style {
                first: first as usize,
                joiner: joiner as usize,
                blank: blank == 1,
                shortest: shortest as usize,
            },
            capacity,
            count: count as usize,
            number,
            answer,
            size,
            length,
            before,
            after,
            text,
        })
    }

    // Makes a buffer what it is before the call.
    fn fill(&self, out: &mut [u8; BUFFER]) {
        for (k, byte) in out.iter_mut().enumerate() {
            *byte = unwritten(k);
        }
        if matches!(self.part, Part::Text) {
            for (part, word) in out[..self.length].chunks_mut(8).zip(self.text) {
                for (byte, right) in part.iter_mut().zip(word.to_be_bytes()) {
                    *byte = right;
                }
            }
        }
    }

    // Whether a buffer has the text, and is unwritten behind it.
    fn is_left(&self, out: &[u8; BUFFER]) -> bool {
        let (text, behind) = out.split_at(self.length);
        for (part, word) in text.chunks(8).zip(self.text) {
            for (byte, right) in part.iter().zip(word.to_be_bytes()) {
                if *byte != right {
                    return false;
                }
            }
        }
        is_unwritten(behind, self.length)
    }

    fn compare(&self, got: Told, same_memory: bool) -> Result<(), Mismatch> {
        if u64::from(got.number) != self.number || got.value != self.answer {
            Err(Mismatch::Answer)
        } else if same_memory {
            Ok(())
        } else {
            Err(Mismatch::Memory)
        }
    }

    // Reads a text into a store of which so many words are in use.
    fn read(&self, store: &mut [u64; STORE], count: usize, text: &[u8]) -> Result<(), Mismatch> {
        let record = Bitmap { count, ..EMPTY };
        let got = text::from_list(&mut store[..self.capacity], record, text, self.style);
        self.compare(told::change(got), *store == self.after)
    }

    // Prints the set into a buffer.
    fn print(&self, out: &mut [u8]) -> Told {
        let record = Bitmap {
            count: self.count,
            ..EMPTY
        };
        told::amount(print::write_list(&self.before[..self.capacity], record, out, self.style))
    }

    fn printed(&self, out: &mut [u8; BUFFER]) -> Result<(), Mismatch> {
        let got = self.print(&mut out[..self.size]);
        self.compare(got, self.is_left(out))
    }

    // Where the set is not printed, its number is the answer. It is read into a store of ones, all in use.
    fn round_trip(&self, out: &mut [u8; BUFFER]) -> Result<(), Mismatch> {
        let got = self.print(&mut out[..]);
        if got.number != 0 {
            return self.compare(got, true);
        }
        let n = BUFFER.min(got.value as usize);
        let mut store = [0; STORE];
        store[..self.capacity].fill(u64::MAX);
        self.read(&mut store, self.capacity, &out[..n])
    }

    // Makes the call, and compares its answer and what it leaves.
    pub(crate) fn replay(&self) -> Result<(), Mismatch> {
        // One for all parts, and none that is moved: each would stand on the stack by itself.
        let mut buffer = [0; BUFFER];
        self.fill(&mut buffer);
        match self.part {
            Part::Text => {
                let mut store = self.before;
                self.read(&mut store, self.count, &buffer[..self.length])
            }
            Part::Set => self.printed(&mut buffer),
            Part::RoundTrip => self.round_trip(&mut buffer),
        }
    }
}
