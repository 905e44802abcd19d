// A line of the list: hexadecimal numbers with a comma between, byte 10 at the end. A number without digits is 0; a tilde before it stands for its
// complement.
use crate::case::Case;
use crate::store::{BYTES, WORDS};
use std::io;
use std::io::Read;

// The bytes that are read at once.
const AHEAD: usize = 65_536;

// The most bytes of a line; what is behind them is another line.
const LONGEST: usize = 20_000;

// The most numbers of a line: those that each case has, the words of the three stores and of the result, and the list.
const NUMBERS: usize = 17 + 4 * WORDS + BYTES;

// The most digits of a number.
const DIGITS: u32 = 16;

// Bytes of the input, and which of them are not yet taken: a `BufReader` would take memory.
#[derive(Drop)]
pub struct Ahead {
    bytes: [u8; AHEAD],
    at: usize,
    end: usize,
}

impl Ahead {
    pub(crate) fn new() -> Ahead {
        Ahead {
            bytes: [0; AHEAD],
            at: 0,
            end: 0,
        }
    }

    // The next byte; none where the input ends.
    fn next(&mut self, rt: &impl Input) -> io::Result<Option<u8>> {
        if self.at >= self.end {
            let mut left = &mut self.bytes[..];
            self.end = io::copy(&mut rt.reader().take(AHEAD as u64), &mut left)? as usize;
            self.at = 0;
        }
        if self.at >= self.end {
            return Ok(None);
        }
        let byte = self.bytes.get(self.at).copied();
        self.at += 1;
        Ok(byte)
    }
}

// The line at hand: its numbers, and whether it is a line of the list at all. One that is not keeps its numbers: it is reported by its call.
#[derive(Drop)]
pub struct Line {
    numbers: [u64; NUMBERS],
    count: usize,
    sound: bool,
}

impl Line {
    pub(crate) fn new() -> Line {
        Line {
            numbers: [0; NUMBERS],
            count: 0,
            sound: false,
        }
    }

    // Reads the next line; false where there is none. One that is too long ends before its last byte, as if that were its end.
    pub(crate) fn read(&mut self, rt: &impl Input, ahead: &mut Ahead) -> io::Result<bool> {
        let mut number = Number::new();
        self.count = 0;
        self.sound = true;
        for place in 0..LONGEST {
            match ahead.next(rt)? {
                Some(b',') => {
                    self.push(number);
                    number = Number::new();
                }
                Some(b'\n') => {
                    self.push(number);
                    return Ok(true);
                }
                Some(byte) if place + 1 < LONGEST => number.take(byte),
                _ => {
                    self.push(number);
                    self.sound = false;
                    return Ok(place > 0);
                }
            }
        }
        self.sound = false;
        Ok(true)
    }

    fn push(&mut self, number: Number) {
        self.sound &= number.sound && self.count < NUMBERS;
        if self.count < NUMBERS {
            self.numbers[self.count] = number.value ^ number.flip;
            self.count += 1;
        }
    }

    // The call, as far as a malformed line has it.
    pub(crate) fn call(&self) -> u64 {
        self.numbers[0]
    }

    // The case or title that the line is.
    pub(crate) fn case(&self) -> Option<Case<'_>> {
        if self.sound {
            Case::of(self.numbers.get(..self.count)?)
        } else {
            None
        }
    }
}

// What the bytes between two commas make: the digits' value and how many there are, all ones after a tilde, and whether all that is a number.
#[derive(Clone, Copy)]
struct Number {
    value: u64,
    digits: u32,
    flip: u64,
    sound: bool,
}

impl Number {
    // Of no bytes.
    fn new() -> Number {
        Number {
            value: 0,
            digits: 0,
            flip: 0,
            sound: true,
        }
    }

    // One more byte. The tilde is the first; a byte that is no digit counts as 16, for the call that a malformed line is reported with.
    fn take(&mut self, byte: u8) {
        if byte == b'~' {
            self.sound &= self.digits == 0 && self.flip == 0;
            self.flip = u64::MAX;
        } else {
            let digit = listing::digit(byte);
            self.sound &= digit.is_some() && self.digits < DIGITS;
            self.value = self.value << 4 | u64::from(digit.unwrap_or(16));
            self.digits = self.digits.saturating_add(1);
        }
    }
}
