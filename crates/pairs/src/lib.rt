// Kernels on two slices of words: what a set operation makes of them, looked at without being built. The shorter slice reads as zero past its end.
//
// Every public function is total. One function serves every operation, and a call names one: where the body is short enough the compiler takes it into the
// call, with no test of the operation left in its loops.
//
// The eights are not those of arch: an eight is looked at in two slices here, where both have it. All other words are looked at one by one.
#![tactic(auto)]

ghost use Rattle.std.specs.Prelude.{◌≡◌, ◌↔◌, ◌+◌, ◌≤◌, min, length, get_or};
ghost use Rattle.arch.specs.Scans.{Alike, nonzero_len, is_zero};
ghost use Rattle.pairs.specs.Pairs.{word_by, words_by, end_by, zero_eights};

// A set operation, by what it makes of two memberships: an enum, as definitions and theorems take the operation as a value.
#[derive(Clone, Copy, Debug, PartialEq, Eq, Hash)]
pub enum SetOp {
    And,
    AndNot,
    Or,
    Xor,
}

impl SetOp {
    // The operation at every place of two words.
    pub fn word(self, x: u64, y: u64) -> u64
        ensures { result ≡ word_by self x y }
    {
        match self {
            SetOp::And => x & y,
            SetOp::AndNot => x & !y,
            SetOp::Or => x | y,
            SetOp::Xor => x ^ y,
        }
    }
}

// Word k of what the operation makes; 0 past the end.
pub fn word_at(op: SetOp, a: &[u64], b: &[u64], k: usize) -> u64
    ensures { result ≡ get_or (words_by op a.now b.now) k 0 }
{
    op.word(arch::word_at(a, k), arch::word_at(b, k))
}

// The words past which the operation makes only zeros of n words and m.
pub fn end_of(op: SetOp, n: usize, m: usize) -> usize
    ensures { result ≡ end_by op n m }
{
    match op {
        SetOp::And => n.min(m),
        SetOp::AndNot => n,
        SetOp::Or | SetOp::Xor => n.max(m),
    }
}

// Some bit is set exactly where one of the eight words from i on is not zero.
fn some_in_eight(op: SetOp, a: &[u64], b: &[u64], i: usize) -> u64
    requires in_a { i + 8 ≤ length a.now }
    requires in_b { i + 8 ≤ length b.now }
    ensures { (result ≡ 0) ↔ Alike (words_by op a.now b.now) 0 i (i + 8) }
{
    let mut some = 0;
    // By index: on two slices of eight the compiler does not take it into its calls.
    for k in 0..8 {
        some |= op.word(a[i + k], b[i + k]);
    }
    some
}

// The index behind the eights from `from` on that are all zero, as far as both slices have whole ones.
pub fn zero_eights(op: SetOp, a: &[u64], b: &[u64], from: usize) -> usize
    ensures { result ≡ zero_eights (words_by op a.now b.now) (min (length a.now) (length b.now)) from }
{
    let whole = a.len().min(b.len()).saturating_sub(from) / 8;
    // By index, as `some_in_eight` takes it.
    for i in 0..whole {
        let k = from + 8 * i;
        if some_in_eight(op, a, b, k) != 0 {
            return k;
        }
    }
    from + 8 * whole
}

// Is every word zero?
pub fn is_zero(op: SetOp, a: &[u64], b: &[u64]) -> bool
    ensures { result ≡ is_zero (words_by op a.now b.now) }
{
    let end = end_of(op, a.len(), b.len());
    (zero_eights(op, a, b, 0)..end).all(|k| word_at(op, a, b, k) == 0)
}

// An index up to `from` from which on every word is zero, as far as eights tell: where both slices have the words below it. Other places than those of
// `zero_eights`, another order and another answer: what is common is `some_in_eight`.
fn zero_eights_down(op: SetOp, a: &[u64], b: &[u64], from: usize) -> usize
    ensures { (result ≤ from) × Alike (words_by op a.now b.now) 0 result from }
{
    if from > a.len().min(b.len()) {
        return from;
    }
    // By index, as `some_in_eight` takes it.
    for i in 0..from / 8 {
        let end = from - 8 * i;
        if some_in_eight(op, a, b, end - 8) != 0 {
            return end;
        }
    }
    from % 8
}

// The length without trailing zero words.
pub fn nonzero_len(op: SetOp, a: &[u64], b: &[u64]) -> usize
    ensures { result ≡ nonzero_len (words_by op a.now b.now) }
{
    let end = zero_eights_down(op, a, b, end_of(op, a.len(), b.len()));
    match (0..end).rfind(|k| word_at(op, a, b, *k) != 0) {
        Some(last) => last + 1,
        None => 0,
    }
}
