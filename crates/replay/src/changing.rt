// The calls that change a store: kinds 8 to 14.
use crate::case::Arguments;
use crate::store::{Lent, LentMut};
use told::Told;

pub(crate) fn within(call: u64, store: LentMut<'_>, x: usize) -> Option<Told> {
    let LentMut { words, record } = store;
    let got = match call {
        0x80 => bits::toggle(words, record, x),
        0x81 => bits::invert(words, record),
        0x82 => bits::reverse(words, record),
        0x83 => shift::shift_left(words, record, x),
        0x84 => shift::shift_right(words, record, x),
        0x85 => shift::rotate_left(words, record, x),
        0x86 => shift::rotate_right(words, record, x),
        _ => return None,
    };
    Some(told::change(got))
}

pub(crate) fn bit(call: u64, store: LentMut<'_>, x: usize) -> Option<Told> {
    let LentMut { words, record } = store;
    let got = match call {
        0x90 => bitmap::trim(words, record),
        0x91 => bitmap::set(words, record, x),
        0x92 => bitmap::unset(words, record, x),
        0x93 => bitmap::andi(words, record, x),
        0x94 => bitmap::andnoti(words, record, x),
        0x95 => bitmap::xori(words, record, x),
        _ => return None,
    };
    Some(told::change(got))
}

pub(crate) fn reshape(call: u64, store: LentMut<'_>, x: usize) -> Option<Told> {
    let LentMut { words, record } = store;
    let got = match call {
        0xa0 => shape::toggle(words, record, x),
        0xa1 => shape::shift_left(words, record, x),
        0xa2 => shape::shift_right(words, record, x),
        0xa3 => shape::truncate_bits(words, record, x),
        0xa4 => shape::resize_bits(words, record, x),
        _ => return None,
    };
    Some(told::change(got))
}

pub(crate) fn range(call: u64, store: LentMut<'_>, arguments: Arguments) -> Option<Told> {
    let LentMut { words, record } = store;
    let Arguments { x, y, z } = arguments;
    let got = match call {
        0xb0 => slice::set_field_strict(words, record, x, z, y),
        0xb1 => bitmap::set_field(words, record, x, z, y),
        0xb2 => bitmap::set_region(words, record, x, z != 0, y),
        0xb3 => shape::toggle_region(words, record, x, y),
        0xb4 => gap::open_gap(words, record, x, y),
        0xb5 => gap::close_gap(words, record, x, y),
        _ => return None,
    };
    Some(told::change(got))
}

pub(crate) fn pair(call: u64, store: LentMut<'_>, other: Lent<'_>) -> Option<Told> {
    let LentMut { words, record } = store;
    let got = match call {
        0xc0 => setops::and(words, record, other.words, other.record),
        0xc1 => setops::andnot(words, record, other.words, other.record),
        0xc2 => setops::or(words, record, other.words, other.record),
        0xc3 => setops::xor(words, record, other.words, other.record),
        0xc4 => shape::append(words, record, other.words, other.record),
        _ => return None,
    };
    Some(told::change(got))
}

// The store that is written comes first, then the left and the right bitmap.
pub(crate) fn combine(
    call: u64,
    store: LentMut<'_>,
    left: Lent<'_>,
    right: Lent<'_>,
) -> Option<Told> {
    let LentMut { words, record } = store;
    let (l, r) = (left.record, right.record);
    let got = match call {
        0xd0 => combine::and_from(words, record, left.words, l, right.words, r),
        0xd1 => combine::andnot_from(words, record, left.words, l, right.words, r),
        0xd2 => combine::or_from(words, record, left.words, l, right.words, r),
        0xd3 => combine::xor_from(words, record, left.words, l, right.words, r),
        _ => return None,
    };
    Some(told::change(got))
}

// In a store with no earlier count.
pub(crate) fn dup(call: u64, words: &mut [u64], left: Lent<'_>, right: Lent<'_>) -> Option<Told> {
    let (l, r) = (left.record, right.record);
    let got = match call {
        0xe0 => combine::dup_and(words, left.words, l, right.words, r),
        0xe1 => combine::dup_andnot(words, left.words, l, right.words, r),
        0xe2 => combine::dup_or(words, left.words, l, right.words, r),
        0xe3 => combine::dup_xor(words, left.words, l, right.words, r),
        _ => return None,
    };
    Some(told::change(got))
}
