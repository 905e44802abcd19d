// The machine word that a bitmap is built from: 64 bits, the lowest first.
//
// A word is a set of places below 64, and each contract says which. Every public function is total.
#![tactic(auto)]

ghost use Rattle.std.specs.Prelude.{◌≡◌, ◌-◌, ◌*◌, ◌/◌, ◌%◌, ◌^◌, ◌<◌, min, max, bit_and, bit_or};
ghost use Rattle.word.specs.Sets.{count_below, least_from, top_below};
ghost use Rattle.word.specs.Places.{bit};
ghost use Rattle.word.specs.Words.{low_mask, single, mirrored, without_least, low_product, funneled};

// The place of the Rust's names: std's methods under them, with contracts that speak of sets.
#[derive(Clone, Copy, Debug, PartialEq, Eq, Hash)]
pub struct Word(pub u64);

impl Word {
    pub const BITS: usize = 64;

    pub const ONES: u64 = 0xffff_ffff_ffff_ffff;

    // The number of set bits.
    pub fn count_ones(x: u64) -> usize
        ensures { result ≡ count_below (bit x) 64 }
    {
        x.count_ones() as usize
    }

    // The number of clear bits below the lowest set bit; 64 for zero.
    pub fn trailing_zeros(x: u64) -> usize
        ensures { result ≡ least_from (bit x) 0 64 }
    {
        x.trailing_zeros() as usize
    }

    // The number of clear bits above the highest set bit; 64 for zero.
    pub fn leading_zeros(x: u64) -> usize
        ensures { result ≡ 64 - top_below (bit x) 64 }
    {
        x.leading_zeros() as usize
    }

    // The bits in the other order, by swaps of neighbouring groups: std's `reverse_bits` goes bit by bit and takes 13 times as long.
    pub fn reverse_bits(x: u64) -> u64
        ensures { result ≡ mirrored 64 x }
    {
        let a = swapped(x, 0x5555_5555_5555_5555, 1);
        let b = swapped(a, 0x3333_3333_3333_3333, 2);
        let c = swapped(b, 0x0f0f_0f0f_0f0f_0f0f, 4);
        let d = swapped(c, 0x00ff_00ff_00ff_00ff, 8);
        let e = swapped(d, 0x0000_ffff_0000_ffff, 16);
        swapped(e, 0x0000_0000_ffff_ffff, 32)
    }

    // The product's low 64 bits. The lemma is for whoever makes it by halves, as an edit does: with it only a right one is proved.
    #[tactic(auto, using(crate::proofs::Product::by_halves))]
    pub fn wrapping_mul(x: u64, y: u64) -> u64
        ensures { result ≡ low_product 64 x y }
    {
        x.wrapping_mul(y)
    }

    // The n low bits set; all of them where n is 64 or more.
    pub fn low_mask(n: usize) -> u64
        ensures { result ≡ low_mask 64 n }
    {
        if n >= Word::BITS {
            Word::ONES
        } else {
            !(Word::ONES << n)
        }
    }

    // x without its lowest set bit; 0 for 0.
    pub fn clear_lowest_set(x: u64) -> u64
        ensures { result ≡ without_least 64 x }
    {
        x & x.wrapping_sub(1)
    }

    // Only bit i mod 64 set: the place of bit i in its word.
    pub fn bit(i: usize) -> u64
        ensures { result ≡ single 64 (i % 64) }
    {
        1u64 << (i % 64)
    }

    // lo moved down by `down` and hi moved up by `up`, joined: where they add up to 64, the 64 bits from place `down` on of lo and, above it, hi.
    // A walk works both amounts out once. An amount of 64 or more moves everything out.
    pub fn funnel(lo: u64, hi: u64, down: usize, up: usize) -> u64
        ensures { result ≡ funneled 64 lo hi down up }
    {
        moved_down(lo, down) | moved_up(hi, up)
    }
}

fn moved_down(x: u64, n: usize) -> u64
    ensures { result ≡ x / 2 ^ n }
{
    if n >= Word::BITS {
        return 0;
    }
    x >> n
}

// As `moved_down`, by the other operator: a function of both would have to be handed it.
fn moved_up(x: u64, n: usize) -> u64
    ensures { result ≡ x * 2 ^ n % 2 ^ 64 }
{
    if n >= Word::BITS {
        return 0;
    }
    x << n
}

// Each group of k bits that the mask has trades places with the group above it.
fn swapped(x: u64, mask: u64, k: u32) -> u64
    requires { k < 64 }
    ensures { result ≡ bit_or (bit_and x mask * 2 ^ k % 2 ^ 64) (bit_and (x / 2 ^ k) mask) }
{
    ((x & mask) << k) | ((x >> k) & mask)
}

// The smaller of two numbers. This and the two below are std's, under the names that docs/DIFFERENCES.md has.
pub fn min(a: usize, b: usize) -> usize
    ensures { result ≡ min a b }
{
    a.min(b)
}

// The larger of two numbers.
pub fn max(a: usize, b: usize) -> usize
    ensures { result ≡ max a b }
{
    a.max(b)
}

// a - b, or 0 where b is larger.
pub fn saturating_sub(a: usize, b: usize) -> usize
    ensures { result ≡ a - b }
{
    a.saturating_sub(b)
}
