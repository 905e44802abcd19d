// How each kind of answer crosses to C: of what is told of it the number is returned, and the rest goes out by parameters.
#![tactic(auto)]

ghost use Rattle.answers.specs.Answers.{ChangeOut, SplitOut, FoundOut, AmountOut, TruthOut, ValueOut, ReadingOut, AddedOut};

use sheet::ReadError;
use storage::{Bitmap, Refusal, Refused};
use told::Told;

// The number, and the value.
fn hand(t: Told, value: &mut usize) -> u32
    ensures { ValueOut t result value.new }
{
    *value = t.value as usize;
    t.number
}

// A change's count.
pub fn change(a: Result<Bitmap, Refused>, count: &mut usize) -> u32
    ensures { ChangeOut a result count.new }
{
    hand(told::change(a), count)
}

// Both counts of a bitmap that is split.
pub fn split(a: Result<(Bitmap, Bitmap), Refused>, count: &mut usize, tcount: &mut usize) -> u32
    ensures { SplitOut a result count.new tcount.new }
{
    let t = told::split(a);
    *tcount = t.also as usize;
    hand(t, count)
}

// 1 and the place of what is found; 0 and 0 for nothing.
pub fn found(a: Result<Option<usize>, Refusal>, found: &mut usize, place: &mut usize) -> u32
    ensures { FoundOut a result found.new place.new }
{
    let t = told::found(a);
    *found = t.tag as usize;
    hand(t, place)
}

// A number.
pub fn amount(a: Result<usize, Refusal>, value: &mut usize) -> u32
    ensures { AmountOut a result value.new }
{
    hand(told::amount(a), value)
}

// A field's bits, which go out as another type than a number does: C's parameter is a `uint64_t`.
pub fn field(a: Result<u64, Refusal>, value: &mut u64) -> u32
    ensures { AmountOut a result value.new }
{
    let t = told::field(a);
    *value = t.value;
    t.number
}

// 1 for true. By cases, each of which stores: where they meet before the store, `get` takes longer.
pub fn truth(a: Result<bool, Refusal>, value: &mut usize) -> u32
    ensures { TruthOut a result value.new }
{
    match a {
        Ok(yes) => hand(told::test(yes), value),
        Err(e) => hand(told::refused(e), value),
    }
}

// A reading's record and count.
pub fn reading(a: Result<(usize, Bitmap), ReadError>, at: &mut usize, count: &mut usize) -> u32
    ensures { ReadingOut a result at.new count.new }
{
    match a {
        Ok((k, b)) => {
            *at = k;
            *count = b.count;
            0
        }
        Err(ReadError(e, k)) => {
            *at = k;
            *count = 0;
            e.number()
        }
    }
}

// A sheet's length, which a refusal leaves.
pub fn added(a: Result<usize, Refusal>, length: &mut usize) -> u32
    ensures { AddedOut a length.old result length.new }
{
    match a {
        Ok(n) => {
            *length = n;
            0
        }
        Err(e) => e.number(),
    }
}
