// What the programs that replay a list have in common: hexadecimal numbers, unwritten memory, the cases by what they should answer, how a case differs
// from its line, and how a list ends. Each has its own loop over the lines, as what a line is differs: a shared one would be handed all but the count.
#![tactic(auto)]

ghost use Rattle.std.specs.Prelude.{◌≡◌, ◌+◌, ◌%◌};
ghost use Rattle.listing.specs.Numbers.{digit_of, number_from};
ghost use Rattle.listing.specs.Rows.{NoCase, OneMore};

use std::fmt;

// The value of a hexadecimal digit. `char::to_digit` takes capitals too, which no list has.
pub fn digit(byte: u8) -> Option<u8>
    ensures { result ≡ digit_of byte }
{
    match byte {
        b'0'..=b'9' => Some(byte - b'0'),
        b'a'..=b'f' => Some(byte - b'a' + 10),
        _ => None,
    }
}

// A hexadecimal number below 2^64; 0 without digits, which `u64::from_str_radix` refuses.
pub fn number(digits: &[u8]) -> Option<u64>
    ensures { result ≡ number_from 0 digits.now }
{
    let mut number = 0u64;
    for byte in digits {
        let digit = digit(*byte)?;
        number = number.checked_mul(16)?.checked_add(u64::from(digit))?;
    }
    Some(number)
}

// What stands in byte k of a buffer before a call; no text has such a byte.
pub fn unwritten(k: usize) -> u8
    ensures { result ≡ 128 + k % 128 }
{
    (128 + k % 128) as u8
}

// The cases by the numbers below N that they should answer, all of them, and the mismatches.
#[derive(Clone, Copy, Debug, PartialEq, Eq)]
pub struct Row<const N: usize> {
    pub by_number: [u64; N],
    pub cases: u64,
    pub wrong: u64,
}

impl<const N: usize> Row<N> {
    pub fn new() -> Row<N>
        ensures { NoCase N result.by_number result.cases result.wrong }
    {
        Row {
            by_number: [0; N],
            cases: 0,
            wrong: 0,
        }
    }

    // A case, the number that is right, and whether it is a mismatch. No count goes past its type's end.
    pub fn add(&mut self, number: usize, wrong: bool)
        ensures { OneMore N number wrong self.old.by_number self.old.cases self.old.wrong self.new.by_number self.new.cases self.new.wrong }
    {
        if number < N {
            self.by_number[number] = self.by_number[number].saturating_add(1);
        }
        self.cases = self.cases.saturating_add(1);
        if wrong {
            self.wrong = self.wrong.saturating_add(1);
        }
    }
}

impl<const N: usize> fmt::Display for Row<N> {
    fn fmt<W: fmt::Write>(&self, f: &mut fmt::Formatter<W>) -> fmt::Result {
        let (cases, wrong) = (self.cases, self.wrong);
        write!(f, "{cases} cases, {wrong} mismatches; by number")?;
        for (number, cases) in self.by_number.iter().enumerate() {
            if *cases > 0 {
                write!(f, " {number}:{cases}")?;
            }
        }
        Ok(())
    }
}

// How a case differs from its line.
#[derive(Clone, Copy, Debug, PartialEq, Eq)]
pub enum Mismatch {
    Answer,
    Memory,
}

impl fmt::Display for Mismatch {
    fn fmt<W: fmt::Write>(&self, f: &mut fmt::Formatter<W>) -> fmt::Result {
        f.write_str(match self {
            Mismatch::Answer => "something else is answered",
            Mismatch::Memory => "something else is left in memory",
        })
    }
}

// How a list ends: after its last line, before it, at a line that can't be read, or with more behind its last line; the number is the line's.
// No `Result`: all four are how a list ends, and each is printed; an error of reading or printing goes by `io::Result` beside it.
#[derive(Clone, Copy, Debug, PartialEq, Eq)]
pub enum End {
    Whole,
    Cut(u64),
    Unread(u64),
    More(u64),
}

// A line of its own where the list is not whole.
impl fmt::Display for End {
    fn fmt<W: fmt::Write>(&self, f: &mut fmt::Formatter<W>) -> fmt::Result {
        match self {
            End::Whole => Ok(()),
            End::Cut(line) => writeln!(f, "the list is cut after line {line}"),
            End::Unread(line) => writeln!(f, "line {line} can't be read"),
            End::More(line) => writeln!(f, "the list goes on after its last line, {line}"),
        }
    }
}
