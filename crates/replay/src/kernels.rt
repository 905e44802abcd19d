// The calls of word and arch, and storage's own: kinds 0 to 2.
use crate::case::Arguments;
use storage::{Bitmap, EMPTY};
use told::Told;
use word::Word;

// The most words of a store that only the guard gets.
const GUARDED: usize = 1_000;

pub(crate) fn of_word(call: u64, arguments: Arguments) -> Option<Told> {
    let Arguments { x, y, .. } = arguments;
    let word = x as u64;
    let got = match call {
        0x00 => told::size(Word::count_ones(word)),
        0x01 => told::size(Word::trailing_zeros(word)),
        0x02 => told::size(Word::leading_zeros(word)),
        0x03 => told::value(Word::reverse_bits(word)),
        0x04 => told::value(Word::clear_lowest_set(word)),
        0x05 => told::value(Word::low_mask(x)),
        0x06 => told::value(Word::bit(x)),
        0x07 => told::value(Word::wrapping_mul(word, y as u64)),
        _ => return None,
    };
    Some(got)
}

// How many words the front part has, and the last of them.
fn front(words: &[u64]) -> Told {
    let part = slice::trimmed(words);
    told::pair(part.len() as u64, part.last().copied().unwrap_or(0))
}

pub(crate) fn scan(call: u64, words: &[u64]) -> Option<Told> {
    let got = match call {
        0x10 => told::found_word(arch::first_nonzero(words)),
        0x11 => told::found_word(arch::first_not_ones(words)),
        0x12 => told::size(arch::nonzero_len(words)),
        0x13 => told::test(arch::is_zero(words)),
        0x14 => told::size(arch::count_set_bits(words)),
        0x15 => front(words),
        _ => return None,
    };
    Some(got)
}

// The guard of a store of x words and a count; an answer that no line has where x is more than the list may ask for: `None` would say that there is no
// such call.
fn guard(x: usize, y: usize) -> Told {
    let store = [0u64; GUARDED];
    match store.get(..x) {
        Some(words) => told::guard(storage::check(words, Bitmap { count: y, ..EMPTY })),
        None => told::changed(),
    }
}

pub(crate) fn kernel(call: u64, words: &mut [u64], arguments: Arguments) -> Option<Told> {
    let Arguments { x, y, z } = arguments;
    match call {
        0x20 => arch::fill_region(words, x, y, z != 0),
        0x21 => arch::fill_words(words, x, y, z),
        0x22 => return Some(told::size(select::select_u64(z, x))),
        0x23 => storage::zero_words(words, x, y),
        0x24 => return Some(guard(x, y)),
        _ => return None,
    }
    Some(told::changed())
}
