// Writer calls on the buffer: number, length and every byte of it against those of the list, which alone writes a second buffer.
ghost use Rattle.std.specs.Prelude.{◌≤◌};

use crate::scan::Scan;
use crate::tally::{Case, Part};
use sheet::Fields;
use storage::Refusal;

// The most bytes of a buffer and of a payload that is given, and the most places that a call is to change.
const BUFFER: usize = 200_000;

const PAYLOAD: usize = 65_600;

const CHANGES: u64 = 16;

// Stands for a start, where an addition has its duty: a number of the list.
const START: u64 = 2;

// A number of document 01, 0 for no refusal, and the length of the sheet: as the list has them, so that they are compared as numbers.
#[derive(Clone, Copy, PartialEq)]
struct Answer {
    number: u64,
    length: u64,
}

impl From<Result<usize, Refusal>> for Answer {
    fn from(added: Result<usize, Refusal>) -> Answer {
        match added {
            Ok(length) => Answer {
                number: 0,
                length: length as u64,
            },
            Err(why) => Answer {
                number: u64::from(why.number()),
                length: 0,
            },
        }
    }
}

// A call as the list has it.
#[derive(Clone, Copy)]
enum Call {
    Start,
    Add {
        duty: bool,
        kind: usize,
        fields: Fields,
    },
}

impl Call {
    fn read(scan: &mut Scan<'_>) -> Option<Call> {
        let [duty, kind, p, k, flag, width, value, size] = scan.numbers::<8>()?;
        if duty == START {
            return Some(Call::Start);
        }
        Some(Call::Add {
            duty: duty == 1,
            kind: kind as usize,
            fields: Fields {
                p: (p % 4_294_967_296) as u32,
                k: (k % 4_294_967_296) as u32,
                flag: flag == 1,
                width: width as usize,
                value,
                size: size as usize,
            },
        })
    }
}

// The bytes of a buffer: from a place on those of the seed, then its first ones from the list.
fn filled(scan: &mut Scan<'_>, from: usize, seed: usize, out: &mut [u8]) -> Option<()> {
    for (k, byte) in out.iter_mut().enumerate().skip(from) {
        *byte = ((k % 256 * 3 + seed % 256) % 256) as u8;
    }
    scan.bytes(out)?;
    Some(())
}

// How many bytes of a buffer are lent, and the length of its sheet.
#[derive(Clone, Copy)]
struct Lent {
    size: usize,
    length: u64,
    ghost has_room: { size ≤ 200000 },
}

// The buffer, and the bytes that it should have. Arrays of the most bytes, made once for all lines: `lent` says how many of them a line lends.
#[derive(Drop)]
pub struct Buffer {
    bytes: [u8; BUFFER],
    wanted: [u8; BUFFER],
    lent: Lent,
}

impl Buffer {
    pub(crate) fn new() -> Buffer {
        Buffer {
            bytes: [0; BUFFER],
            wanted: [0; BUFFER],
            lent: Lent { size: 0, length: 0 },
        }
    }

    // A buffer: its size and seed, from where on the seed's bytes stand, the length of its sheet, and its first bytes.
    pub(crate) fn lend(&mut self, scan: &mut Scan<'_>) -> Option<()> {
        let [size, seed, from, length] = scan.numbers::<4>()?;
        let (size, seed, from) = (size as usize, seed as usize, from as usize);
        if size > BUFFER {
            return None;
        }
        self.lent = Lent { size, length };
        let mut again = *scan;
        filled(&mut again, from, seed, &mut self.wanted[..size])?;
        filled(scan, from, seed, &mut self.bytes[..size])
    }

    // The sheet; none where a writer call was told of a longer one than the buffer.
    pub(crate) fn sheet(&self) -> Option<&[u8]> {
        self.bytes.get(..self.lent.length as usize)
    }

    // The places that a call is to change, and the bytes there.
    fn change(&mut self, scan: &mut Scan<'_>, places: u64) -> Option<()> {
        if places > CHANGES {
            return None;
        }
        for _ in 0..places {
            let place = scan.number()?;
            scan.bytes(self.wanted[..self.lent.size].get_mut(place as usize..)?)?;
        }
        Some(())
    }

    fn answer(&mut self, call: Call, payload: &[u8]) -> Answer {
        let Lent { size, length } = self.lent;
        let buffer = &mut self.bytes[..size];
        Answer::from(match call {
            Call::Start => writer::start(buffer),
            Call::Add { duty, kind, fields } => {
                writer::add(buffer, length as usize, duty, kind, fields, payload)
            }
        })
    }

    // A call, and what it answers and leaves against what is right.
    pub(crate) fn call(&mut self, scan: &mut Scan<'_>) -> Option<Case> {
        let mut payload = [0u8; PAYLOAD];
        let part = Part::from(scan.number()?);
        let call = Call::read(scan)?;
        let n = scan.bytes(&mut payload)?;
        let [number, length, places] = scan.numbers::<3>()?;
        self.change(scan, places)?;
        let same_answer = self.answer(call, &payload[..n]) == Answer { number, length };
        let same_bytes = self.bytes[..self.lent.size] == self.wanted[..self.lent.size];
        if number == 0 {
            self.lent.length = length;
        }
        Some(Case {
            part,
            number,
            agrees: same_answer && same_bytes,
        })
    }
}
