// What a call answers, as four numbers: what crosses to C of it, and what a list of calls has of it and two answers are compared by.
#![tactic(auto)]

ghost use Rattle.word.specs.Sets.{val};
ghost use Rattle.storage.specs.Refusals.{number_of};
ghost use Rattle.told.specs.Tellings.{SameNumbers, four, truth_told, amount_told, found_told, word_told, guard_told, change_told, split_told};

use storage::{Bitmap, Refusal, Refused};

// Document 01's number; a tag, 0 where there is no value, 1 where there is one, 2 where the call may have changed its store; the value, for a
// changing call the word count; a second value.
// Without `PartialEq`: replay compares all four as the numbers of its list, and the lists of styles and registers have the number and the value alone.
#[derive(Clone, Copy)]
pub struct Told {
    pub number: u32,
    pub tag: u64,
    pub value: u64,
    pub also: u64,
}

fn four(number: u32, tag: u64, value: u64, also: u64) -> Told
    ensures { SameNumbers result (four number tag value also) }
{
    Told {
        number,
        tag,
        value,
        also,
    }
}

// A value and a second one.
pub fn pair(x: u64, y: u64) -> Told
    ensures { SameNumbers result (four 0 1 x y) }
{
    four(0, 1, x, y)
}

// A value alone.
pub fn value(x: u64) -> Told
    ensures { SameNumbers result (four 0 1 x 0) }
{
    four(0, 1, x, 0)
}

// A count or a place.
pub fn size(n: usize) -> Told
    ensures { SameNumbers result (four 0 1 n 0) }
{
    four(0, 1, n as u64, 0)
}

// 1 for true.
pub fn test(yes: bool) -> Told
    ensures { SameNumbers result (four 0 1 (val yes) 0) }
{
    four(0, 1, yes as u64, 0)
}

// Done, and no value.
pub fn nothing() -> Told
    ensures { SameNumbers result (four 0 0 0 0) }
{
    four(0, 0, 0, 0)
}

// A refusal, with no value.
pub fn refused(e: Refusal) -> Told
    ensures { SameNumbers result (four (number_of e) 0 0 0) }
{
    four(e.number(), 0, 0, 0)
}

// A call that works on a store and has no word count.
pub fn changed() -> Told
    ensures { SameNumbers result (four 0 2 0 0) }
{
    four(0, 2, 0, 0)
}

// The answers of each kind by a function with a name, as a call then says which answer is told. `amount` and `field` are two: std has no `From<usize>` for
// `u64`, and one function of both would need a trait of its own for two lines.

// What is tested, or the refusal.
pub fn truth(t: Result<bool, Refusal>) -> Told
    ensures { SameNumbers result (truth_told t) }
{
    match t {
        Ok(yes) => test(yes),
        Err(e) => refused(e),
    }
}

// What is counted, or the refusal.
pub fn amount(n: Result<usize, Refusal>) -> Told
    ensures { SameNumbers result (amount_told n) }
{
    match n {
        Ok(k) => size(k),
        Err(e) => refused(e),
    }
}

// A field's bits, or the refusal.
pub fn field(f: Result<u64, Refusal>) -> Told
    ensures { SameNumbers result (amount_told f) }
{
    match f {
        Ok(x) => value(x),
        Err(e) => refused(e),
    }
}

// The place of what is found, nothing, or the refusal.
pub fn found(f: Result<Option<usize>, Refusal>) -> Told
    ensures { SameNumbers result (found_told f) }
{
    match f {
        Ok(Some(i)) => size(i),
        Ok(None) => nothing(),
        Err(e) => refused(e),
    }
}

// The index, and the word there.
pub fn found_word(f: Option<(usize, u64)>) -> Told
    ensures { SameNumbers result (word_told f) }
{
    match f {
        Some((k, w)) => pair(k as u64, w),
        None => nothing(),
    }
}

// A store that passes, or the refusal.
pub fn guard(g: Result<(), Refused>) -> Told
    ensures { SameNumbers result (guard_told g) }
{
    match g {
        Ok(()) => nothing(),
        Err(Refused(e, _)) => refused(e),
    }
}

// The word count that is returned, done or refused.
pub fn change(c: Result<Bitmap, Refused>) -> Told
    ensures { SameNumbers result (change_told c) }
{
    match c {
        Ok(b) => four(0, 2, b.count as u64, 0),
        Err(Refused(e, b)) => four(e.number(), 0, b.count as u64, 0),
    }
}

// Both word counts; a refusal has none for the tail.
pub fn split(s: Result<(Bitmap, Bitmap), Refused>) -> Told
    ensures { SameNumbers result (split_told s) }
{
    match s {
        Ok((b, tail)) => four(0, 2, b.count as u64, tail.count as u64),
        Err(Refused(e, b)) => four(e.number(), 0, b.count as u64, 0),
    }
}
