// The words that an operation makes of two slices, each of them written: those that both slices have, and then the longer one's own.
ghost use Rattle.std.specs.Prelude.{◌≤◌, min, max, length, get_or};
ghost use Rattle.pairs.specs.Pairs.{words_by};
ghost use Rattle.pairs.specs.declared.SetOp.TheVariants.{Or};
ghost use Rattle.storage.specs.Kernels.{Put};

use pairs::SetOp;

// The operation on the words below e, which both slices have.
pub(crate) fn zip_words(op: SetOp, words: &mut [u64], left: &[u64], right: &[u64], e: usize)
    requires { (e ≤ length words.old) × (e ≤ length left.now) × (e ≤ length right.now) }
    ensures { Put (λ k. get_or (words_by op left.now right.now) k 0) 0 e words.old words.new }
{
    for (k, word) in words[..e].iter_mut().enumerate() {
        *word = op.word(left[k], right[k]);
    }
}

// The words that only the longer slice has, as far as m.
pub(crate) fn copy_tail(words: &mut [u64], left: &[u64], right: &[u64], m: usize)
    requires { (m ≤ length words.old) × (m ≤ max (length left.now) (length right.now)) }
    ensures { Put (λ k. get_or (words_by Or left.now right.now) k 0) (min (length left.now) (length right.now)) m
        words.old words.new }
{
    let both = left.len().min(right.len());
    if both < m {
        let longer = if left.len() > both { left } else { right };
        words[both..m].copy_from_slice(&longer[both..m]);
    }
}
