// The calls that change nothing: kinds 3 to 7.
use crate::store::Lent;
use told::Told;

pub(crate) fn search(call: u64, store: Lent<'_>, x: usize) -> Option<Told> {
    let Lent { words, record } = store;
    let got = match call {
        0x30 => scans::first_set(words, record),
        0x31 => scans::last_set(words, record),
        0x32 => scans::next_set(words, record, x),
        0x33 => bits::select(words, record, x),
        _ => return None,
    };
    Some(told::found(got))
}

pub(crate) fn count(call: u64, store: Lent<'_>, x: usize, y: usize) -> Option<Told> {
    let Lent { words, record } = store;
    let got = match call {
        0x40 => scans::first_clear(words, record),
        0x41 => scans::next_clear(words, record, x),
        0x42 => scans::count_set_bits(words, record),
        0x43 => bits::count_clear_bits(words, record),
        0x44 => bits::count_region(words, record, x, y),
        0x45 => bits::rank(words, record, x),
        _ => return None,
    };
    Some(told::amount(got))
}

pub(crate) fn test(call: u64, left: Lent<'_>, right: Lent<'_>, x: usize) -> Option<Told> {
    let (l, r) = (left.record, right.record);
    let got = match call {
        0x50 => slice::get(left.words, l, x),
        0x51 => slice::eq(left.words, l, right.words, r),
        0x52 => algebra::is_subset(left.words, l, right.words, r),
        0x53 => algebra::is_disjoint(left.words, l, right.words, r),
        _ => return None,
    };
    Some(told::truth(got))
}

pub(crate) fn pair_count(call: u64, left: Lent<'_>, right: Lent<'_>) -> Option<Told> {
    let (l, r) = (left.record, right.record);
    let got = match call {
        0x60 => algebra::and_count(left.words, l, right.words, r),
        0x61 => algebra::or_count(left.words, l, right.words, r),
        0x62 => algebra::xor_count(left.words, l, right.words, r),
        0x63 => algebra::andnot_count(left.words, l, right.words, r),
        _ => return None,
    };
    Some(told::amount(got))
}

pub(crate) fn walk(call: u64, left: Lent<'_>, right: Lent<'_>, x: usize) -> Option<Told> {
    let (l, r) = (left.record, right.record);
    let got = match call {
        0x70 => walk::iter_and(left.words, l, right.words, r, x),
        0x71 => walk::iter_or(left.words, l, right.words, r, x),
        0x72 => walk::iter_xor(left.words, l, right.words, r, x),
        0x73 => walk::iter_andnot(left.words, l, right.words, r, x),
        _ => return None,
    };
    Some(told::found(got))
}
