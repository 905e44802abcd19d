// Moves of whole words in place. A piece is read whole before any of it is written, so that the compiler makes one memory move of it.
#![tactic(auto)]

ghost use Rattle.std.specs.Prelude.{◌≡◌, ◌+◌, ◌-◌, ◌≤◌, min, length};
ghost use Rattle.moves.specs.Moves.{up_words, down_words, turned_words};
ghost use Rattle.moves.specs.Kernels.{Moved, Swapped};

// The most words that move as one piece.
const PIECE: usize = 1024;

// The most words of the shorter part that std's `rotate_right` holds outside while the others move. What is longer it turns by blocks and then reverses
// twice, which takes up to twice as long as blocks alone.
const ROOM: usize = 512;

// The most words that are held here: std's room costs 4,096 bytes to clear, and its moves go by 16 bytes.
const HELD: usize = 256;

// The most that a small array holds, which costs less to clear.
const FEW: usize = 32;

// Every word of `from`, to `to`. By std's `copy_from_slice` the compiler keeps the array of a piece, and a move takes 2.7 times as long.
fn copy_words(to: &mut [u64], from: &[u64])
    requires { length to.old ≡ length from.now }
    ensures { to.new ≡ from.now }
{
    for (i, word) in from.iter().enumerate() {
        to[i] = *word;
    }
}

// The m words from index `from` on go to index `to`, though the two parts may overlap.
// std's `copy_within` is a loop by 16 bytes, which takes 1.6 times as long on 1,000 words.
fn move_piece(words: &mut [u64], from: usize, to: usize, m: usize)
    requires { (from + m ≤ length words.old) × (to + m ≤ length words.old) × (m ≤ 1024) }
    ensures { Moved from to m words.old words.new }
{
    let mut piece: [u64; PIECE] = [0; PIECE];
    copy_words(&mut piece[..m], &words[from..from + m]);
    copy_words(&mut words[to..to + m], &piece[..m]);
}

// Each word goes `whole` words up, as far as there is room; the lowest stay as they were.
pub fn move_up(words: &mut [u64], whole: usize)
    ensures { words.new ≡ up_words whole words.old }
{
    let n = words.len().saturating_sub(whole);
    // From the top down, so that each piece is read before it is overwritten; by its number, as it is read and written in the same words.
    for k in (0..n.div_ceil(PIECE)).rev() {
        let from = k * PIECE;
        move_piece(words, from, from + whole, PIECE.min(n - from));
    }
}

// Each word goes `whole` words down, as far as there is room; the highest stay as they were. Order and places differ from `move_up`: what they share is
// `move_piece`.
pub fn move_down(words: &mut [u64], whole: usize)
    ensures { words.new ≡ down_words whole words.old }
{
    let n = words.len().saturating_sub(whole);
    // From the bottom up, so that each piece is read before it is overwritten; by its number, as above.
    for k in 0..n.div_ceil(PIECE) {
        let to = k * PIECE;
        move_piece(words, to + whole, to, PIECE.min(n - to));
    }
}

// The m words from index a on and the m from index b on change places.
fn swap_words(words: &mut [u64], a: usize, b: usize, m: usize)
    requires { (a + m ≤ b) × (b + m ≤ length words.old) }
    ensures { Swapped a b m words.old words.new }
{
    let (front, back) = words.split_at_mut(b);
    front[a..a + m].swap_with_slice(&mut back[..m]);
}

// The last m words go before the others; the fewer of the two are held outside meanwhile. It is taken into its calls: a call apart takes 1.3 times as long
// on a few words.
#[inline(always)]
fn turn_through(words: &mut [u64], m: usize, held: &mut [u64])
    requires { (m ≤ length words.old) × (min m (length words.old - m) ≤ length held.old) }
    ensures { words.new ≡ turned_words m words.old }
{
    let rest = words.len() - m;
    if m <= rest {
        copy_words(&mut held[..m], &words[rest..]);
        move_up(words, m);
        copy_words(&mut words[..m], &held[..m]);
    } else {
        copy_words(&mut held[..rest], &words[..rest]);
        move_down(words, rest);
        copy_words(&mut words[m..], &held[..rest]);
    }
}

// The same, with room for those that are held. One word of few turns by std's method too, which needs no room for it.
#[tactic(auto, unfolding(crate::specs::Moves::turned_words))]
fn turn_held(words: &mut [u64], m: usize)
    requires { m ≤ length words.old }
    ensures { words.new ≡ turned_words m words.old }
{
    match m.min(words.len() - m) {
        0 => {}
        1 if words.len() <= FEW => words.rotate_right(m),
        1..=FEW => turn_through(words, m, &mut [0; FEW]),
        1..=HELD => turn_through(words, m, &mut [0; HELD]),
        _ => words.rotate_right(m),
    }
}

// The last m words go before the others. What is left to turn are the first `low` words and the `high` after them: the shorter part changes places with as
// many words of the longer, and those that then stand last are where they belong. Two parts of one length are turned by that alone.
fn turn_blocks(words: &mut [u64], m: usize)
    requires { m ≤ length words.old }
    ensures { words.new ≡ turned_words m words.old }
{
    let (mut low, mut high) = (words.len() - m, m);
    while low.min(high) > ROOM || low == high && low > HELD {
        if high <= low {
            low -= high;
            swap_words(words, low, low + high, high);
        } else {
            high -= low;
            swap_words(words, 0, low + high, low);
        }
    }
    turn_held(&mut words[..low + high], high);
}

// The last m words go before the others; by none, by as many words as there are, or by more, nothing turns. A turn by odd bits alone has no words to turn,
// and pays for no room.
#[tactic(auto, using(crate::proofs::Swaps::turned_past), unfolding(crate::specs::Moves::turned_words))]
pub fn turn_words(words: &mut [u64], m: usize)
    ensures { words.new ≡ turned_words m words.old }
{
    if 0 < m && m < words.len() {
        turn_blocks(words, m);
    }
}
