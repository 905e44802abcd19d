// The calls by their numbers in the list, 16 times the kind and the place in it. No variants: each would be one more name for the call in its arm.
use crate::case::{Arguments, Case};
use crate::store::{Lent, LentMut};
use crate::{changing, kernels, reading};
use told::Told;

// The calls that change nothing: kinds 3 to 7, and get_field.
fn read(case: &Case<'_>, words: &[u64], other: Lent<'_>) -> Option<Told> {
    let call = case.call;
    let Arguments { x, y, .. } = case.arguments;
    let record = case.first.record();
    let store = Lent { words, record };
    match call >> 4 {
        0x3 => reading::search(call, store, x),
        0x4 => reading::count(call, store, x, y),
        0x5 => reading::test(call, store, other, x),
        0x6 => reading::pair_count(call, store, other),
        0x7 => reading::walk(call, store, other, x),
        _ if call == 0xf0 => Some(told::field(slice::get_field(words, record, x, y))),
        _ => None,
    }
}

// The calls on two stores more: kinds 13 and 14.
fn combined(case: &Case<'_>, words: &mut [u64], left: Lent<'_>) -> Option<Told> {
    let call = case.call;
    let record = case.first.record();
    let third = case.third.filled();
    let right = Lent {
        words: &third[..case.third.capacity],
        record: case.third.record(),
    };
    match call >> 4 {
        0xd => changing::combine(call, LentMut { words, record }, left, right),
        _ => changing::dup(call, words, left, right),
    }
}

// The call on the first store and those that it reads; none where no call of words has the number.
pub(crate) fn on_words(case: &Case<'_>, words: &mut [u64], other: &[u64]) -> Option<Told> {
    let call = case.call;
    let arguments = case.arguments;
    let x = arguments.x;
    let record = case.first.record();
    let other = Lent {
        words: other,
        record: case.second.record(),
    };
    match call >> 4 {
        0x0 => kernels::of_word(call, arguments),
        0x1 => kernels::scan(call, words),
        0x2 => kernels::kernel(call, words, arguments),
        0x8 => changing::within(call, LentMut { words, record }, x),
        0x9 => changing::bit(call, LentMut { words, record }, x),
        0xa => changing::reshape(call, LentMut { words, record }, x),
        0xb => changing::range(call, LentMut { words, record }, arguments),
        0xc => changing::pair(call, LentMut { words, record }, other),
        0xd | 0xe => combined(case, words, other),
        _ => read(case, words, other),
    }
}
