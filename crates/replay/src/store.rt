// Stores and texts as a line gives them.
ghost use Rattle.std.specs.Prelude.{◌≤◌};

use std::array;
use storage::{Bitmap, EMPTY};

// The words of a store here, and the bytes of a text.
pub const WORDS: usize = 64;

pub const BYTES: usize = 512;

// Which words or bytes stand where the line gives none: another for each place where the seed is odd, and the words odd too.
#[derive(Clone, Copy)]
pub struct Pattern {
    pub seed: u64,
    pub store: u64,
}

impl Pattern {
    fn word(self, k: usize) -> u64 {
        let place = self.store << 6 | k as u64;
        self.seed
            .wrapping_mul(0x9e37_79b9_7f4a_7c15)
            .wrapping_mul(place << 1 | 1)
    }
}

// A store that a call reads, and the record of its words in use.
#[derive(Clone, Copy)]
pub struct Lent<'a> {
    pub words: &'a [u64],
    pub record: Bitmap,
}

// A store that a call writes.
#[derive(Drop)]
pub struct LentMut<'a> {
    pub words: &'a mut [u64],
    pub record: Bitmap,
}

// A store before the call: its capacity and word count, the words in use as far as the store goes, and the pattern behind them.
#[derive(Clone, Copy)]
pub struct Given<'a> {
    pub capacity: usize,
    count: usize,
    pub words: &'a [u64],
    pattern: Pattern,
    ghost has_room: { capacity ≤ 64 },
}

impl<'a> Given<'a> {
    // The store whose words are the first of the numbers, and the rest of these; none where the store has no room here.
    pub(crate) fn split(
        pattern: Pattern,
        capacity: u64,
        count: u64,
        numbers: &'a [u64],
    ) -> Option<(Given<'a>, &'a [u64])> {
        let capacity = capacity as usize;
        let count = count as usize;
        if capacity > WORDS {
            return None;
        }
        let (words, rest) = numbers.split_at_checked(capacity.min(count))?;
        Some((
            Given {
                capacity,
                count,
                words,
                pattern,
            },
            rest,
        ))
    }

    pub(crate) fn record(&self) -> Bitmap {
        Bitmap {
            count: self.count,
            ..EMPTY
        }
    }

    // Word k: the words in use, and the pattern behind them.
    pub(crate) fn word(&self, k: usize) -> u64 {
        match self.words.get(k) {
            Some(word) => *word,
            None => self.pattern.word(k),
        }
    }

    pub(crate) fn filled(&self) -> [u64; WORDS] {
        array::from_fn(|k| self.word(k))
    }
}

// Bytes as a list gives them, and the pattern behind them: an array, as a call writes a part of it and the whole is compared.
#[derive(Clone, Copy)]
pub struct Text {
    pub bytes: [u8; BYTES],
    length: usize,
    ghost has_room: { length ≤ 512 },
}

impl Text {
    pub(crate) fn of(list: &[u64], pattern: Pattern) -> Text {
        let bytes = array::from_fn(|k| match list.get(k) {
            Some(x) => byte(*x),
            None => byte(pattern.word(k) % 256),
        });
        Text {
            bytes,
            length: list.len().min(BYTES),
        }
    }

    pub(crate) fn as_slice(&self) -> &[u8] {
        &self.bytes[..self.length]
    }
}

fn byte(x: u64) -> u8 {
    u8::try_from(x).unwrap_or(u8::MAX)
}
