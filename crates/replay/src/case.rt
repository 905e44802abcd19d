// One case: the call made on stores that are filled as the line says, and what it answers and leaves compared with the line.
use crate::call;
use crate::store::{BYTES, Given, Pattern, Text, WORDS};
use std::{array, fmt};
use storage::Refusal;
use style::PLAIN;
use told::Told;

// Numbers of the list. In place of a call: the list names the call whose cases stand above.
const TITLE: u64 = 256;

const SPLIT_OFF: u64 = 0xf2;

// The tag of an answer where the call may have changed its store: a number of told's and of the list.
const CHANGED: u64 = 2;

// How a case differs from its line. Not listing's `Mismatch`, which has one name for all memory and none for a line that can't be read.
#[derive(Clone, Copy)]
pub enum Mismatch {
    Answer,
    Words,
    Output,
    Malformed,
}

impl fmt::Display for Mismatch {
    fn fmt<W: fmt::Write>(&self, f: &mut fmt::Formatter<W>) -> fmt::Result {
        f.write_str(match self {
            Mismatch::Answer => "answers otherwise",
            Mismatch::Words => "leaves other words",
            Mismatch::Output => "leaves another second output",
            Mismatch::Malformed => "is malformed",
        })
    }
}

// An answer in the numbers of the list: not a `Told`, whose number is a `u32`, where a line may have any.
#[derive(Clone, Copy, PartialEq)]
struct Answer {
    number: u64,
    tag: u64,
    value: u64,
    also: u64,
}

impl Answer {
    // The first of the numbers, and the rest.
    fn split(numbers: &[u64]) -> Option<(Answer, &[u64])> {
        let (&[number, tag, value, also], rest) = numbers.split_first_chunk::<4>()?;
        Some((
            Answer {
                number,
                tag,
                value,
                also,
            },
            rest,
        ))
    }
}

impl From<Told> for Answer {
    fn from(told: Told) -> Answer {
        Answer {
            number: u64::from(told.number),
            tag: told.tag,
            value: told.value,
            also: told.also,
        }
    }
}

// The arguments of a call.
#[derive(Clone, Copy)]
pub struct Arguments {
    pub x: usize,
    pub y: usize,
    pub z: u64,
}

impl Arguments {
    // The first of the numbers, and the rest.
    fn split(numbers: &[u64]) -> Option<(Arguments, &[u64])> {
        let (&[x, y, z], rest) = numbers.split_first_chunk::<3>()?;
        let (x, y) = (x as usize, y as usize);
        Some((Arguments { x, y, z }, rest))
    }
}

fn agree<T: PartialEq>(got: &T, want: &T, otherwise: Mismatch) -> Result<(), Mismatch> {
    if got == want { Ok(()) } else { Err(otherwise) }
}

// The call, its arguments and answer, the stores in the order of its arguments, and behind their words the result's and the list.
#[derive(Clone, Copy)]
pub struct Case<'a> {
    pub call: u64,
    pub arguments: Arguments,
    pattern: Pattern,
    answer: Answer,
    pub first: Given<'a>,
    pub second: Given<'a>,
    pub third: Given<'a>,
    result: &'a [u64],
    list: &'a [u64],
}

impl<'a> Case<'a> {
    // The case that has exactly these numbers, if there is one with room here.
    pub(crate) fn of(numbers: &'a [u64]) -> Option<Case<'a>> {
        let (&[call, seed], rest) = numbers.split_first_chunk::<2>()?;
        let (arguments, rest) = Arguments::split(rest)?;
        let (answer, rest) = Answer::split(rest)?;
        let (&[c0, n0, c1, n1, c2, n2, words, bytes], rest) = rest.split_first_chunk::<8>()?;
        if seed % 2 == 0 || words > WORDS as u64 || bytes > BYTES as u64 {
            return None;
        }
        let (first, rest) = Given::split(Pattern { seed, store: 0 }, c0, n0, rest)?;
        let (second, rest) = Given::split(Pattern { seed, store: 1 }, c1, n1, rest)?;
        let (third, rest) = Given::split(Pattern { seed, store: 2 }, c2, n2, rest)?;
        let (result, list) = rest.split_at_checked(words as usize)?;
        if list.len() as u64 != bytes {
            return None;
        }
        Some(Case {
            call,
            arguments,
            pattern: Pattern { seed, store: 0 },
            answer,
            first,
            second,
            third,
            result,
            list,
        })
    }

    // The name that a title has.
    pub(crate) fn title(&self) -> Option<Text> {
        if self.call == TITLE {
            Some(Text::of(self.list, self.pattern))
        } else {
            None
        }
    }

    // Makes the call, on as much of its stores as the line says.
    pub(crate) fn replay(&self) -> Result<(), Mismatch> {
        let mut first = self.first.filled();
        let mut second = self.second.filled();
        self.make(
            &mut first[..self.first.capacity],
            &mut second[..self.second.capacity],
        )?;
        agree(&first, &self.first_after(), Mismatch::Words)?;
        agree(&second, &self.second_after(), Mismatch::Output)
    }

    // What the call is to leave in the first store: where it may have changed, the result's words, zeros up to the words that were in use, and the rest
    // as it was.
    fn first_after(&self) -> [u64; WORDS] {
        if self.answer.tag != CHANGED {
            return self.first.filled();
        }
        array::from_fn(|k| match self.result.get(k) {
            Some(word) => *word,
            None if k < self.first.words.len() => 0,
            None => self.first.word(k),
        })
    }

    // What it is to leave in the second: a tail that is split off, and the rest as it was.
    fn second_after(&self) -> [u64; WORDS] {
        if self.answer.tag != CHANGED || self.call != SPLIT_OFF {
            return self.second.filled();
        }
        array::from_fn(|k| match self.list.get(k) {
            Some(word) => *word,
            None => self.second.word(k),
        })
    }

    fn make(&self, words: &mut [u64], other: &mut [u64]) -> Result<(), Mismatch> {
        let record = self.first.record();
        // Here the calls that read the list, are compared with it, or write the second store, by their numbers as in `call`.
        let got = match self.call {
            0xf1 => self.set_many(words),
            SPLIT_OFF => told::split(shape::split_off(words, record, self.arguments.x, other)),
            0xf3 => return self.write_list(words),
            0xf4 => self.from_list(words),
            _ => call::on_words(self, words, other).ok_or(Mismatch::Malformed)?,
        };
        self.compare(got)
    }

    fn compare(&self, got: Told) -> Result<(), Mismatch> {
        agree(&Answer::from(got), &self.answer, Mismatch::Answer)
    }

    fn set_many(&self, words: &mut [u64]) -> Told {
        let indexes: [usize; WORDS] = array::from_fn(|k| self
            .list
            .get(k)
            .map_or(0, |index| *index as usize));
        let n = self.list.len().min(WORDS);
        told::change(bitmap::set_many(words, self.first.record(), &indexes[..n]))
    }

    // The Rust has one parse error, for which the list has 7; here it is 7 or 16.
    fn from_list(&self, words: &mut [u64]) -> Told {
        let text = Text::of(self.list, self.pattern);
        let got = told::change(text::from_list(words, self.first.record(), text.as_slice(), PLAIN));
        let number = if got.number == Refusal::NumberOver.number() {
            Refusal::NotList.number()
        } else {
            got.number
        };
        Told { number, ..got }
    }

    // Writes into x bytes, which are a pattern before.
    fn write_list(&self, words: &[u64]) -> Result<(), Mismatch> {
        let mut out = Text::of(&[], self.pattern).bytes;
        let n = self.arguments.x.min(BYTES);
        let got = print::write_list(words, self.first.record(), &mut out[..n], PLAIN);
        self.compare(told::amount(got))?;
        agree(
            &out,
            &Text::of(self.list, self.pattern).bytes,
            Mismatch::Output,
        )
    }
}
