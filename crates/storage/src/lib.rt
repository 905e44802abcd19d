// A bitmap is a lent store of words and a record of how many of them are in use. Growth zeroes the words that come into use.
//
// The types here are those that every crate above shares.
#![tactic(auto)]

ghost use Rattle.std.specs.Prelude.{◌≡◌, Ok};
ghost use Rattle.storage.specs.Refusals.{number_of, passing, refusing};
ghost use Rattle.storage.specs.Stores.{checked, zeroed, Grows};

// The most words that a store may have.
pub const LIMIT: usize = 67_108_864;

// A bitmap's record: the words in use, from the start of its store. A new one is made of an old one, as `Bitmap { count: n, ..b }`.
// A call takes it and its store apart, as both cross from C: a type with the invariant would rule out what is answered with 1 and 2, and one without would
// say no more.
#[derive(Clone, Copy, Debug, PartialEq, Eq)]
pub struct Bitmap {
    pub count: usize,
}

// The record of a bitmap that has no words yet: the only one that is made of nothing.
pub const EMPTY: Bitmap = Bitmap { count: 0 };

// Why a call is refused, by the number of document 01 or of a later request.
#[derive(Clone, Copy, Debug, PartialEq, Eq, Hash)]
pub enum Refusal {
    StoreTooLong = 1,
    CountOverStore = 2,
    WidthOver = 3,
    IndexOver = 4,
    PastLength = 5,
    NoSpace = 6,
    NotList = 7,
    NotAscii = 8,
    NotSheet = 9,
    CutRecord = 10,
    BytesRemain = 11,
    BadPayload = 12,
    NewerKind = 13,
    NoEdition = 14,
    BadStyle = 15,
    NumberOver = 16,
}

impl Refusal {
    // The number that the papers give it.
    pub fn number(self) -> u32
        ensures { result ≡ number_of self }
    {
        self as u32
    }
}

// What a changing call answers in place of the new record: why it is refused, and the old record.
#[derive(Clone, Copy, Debug, PartialEq, Eq)]
pub struct Refused(pub Refusal, pub Bitmap);

// A reading call says only why.
impl From<Refused> for Refusal {
    ghost from_gives = { λ refused why. why ≡ refused.0 };

    fn from(refused: Refused) -> Refusal {
        refused.0
    }
}

// Refuses a store over the limit, then a count over its store: what every call asks first.
pub fn check(words: &[u64], b: Bitmap) -> Result<(), Refused>
    ensures { result ≡ checked words.now b (refusing b) passing }
{
    if words.len() > LIMIT {
        return Err(Refused(Refusal::StoreTooLong, b));
    }
    if b.count > words.len() {
        return Err(Refused(Refusal::CountOverStore, b));
    }
    Ok(())
}

// The same of two stores, in their order. The first record is the one that a change gives back.
pub fn check_two(words: &[u64], b: Bitmap, other: &[u64], o: Bitmap) -> Result<(), Refused>
    ensures { result ≡ checked words.now b (refusing b) (checked other.now o (refusing b) passing) }
{
    check(words, b)?;
    check(other, o).map_err(|Refused(why, _)| Refused(why, b))
}

// The same of three. One function of any number of stores would need a list of them, built anew for each call.
pub fn check_three(
    words: &[u64],
    b: Bitmap,
    left: &[u64],
    l: Bitmap,
    right: &[u64],
    r: Bitmap,
) -> Result<(), Refused>
    ensures { result
        ≡ checked words.now b (refusing b) (checked left.now l (refusing b) (checked right.now r (refusing b) passing)) }
{
    check(words, b)?;
    check_two(left, l, right, r).map_err(|Refused(why, _)| Refused(why, b))
}

// Zeroes the words between two counts, as far as the store has them.
pub fn zero_words(words: &mut [u64], old: usize, new: usize)
    ensures { words.new ≡ zeroed old new words.old }
{
    arch::fill_words(words, old, new, 0);
}

// Room for `need` words: those that come into use are zeroed, and the record counts them. 6 where the store has fewer.
pub fn grow(words: &mut [u64], b: Bitmap, need: usize) -> Result<Bitmap, Refused>
    ensures { Grows words.old b need result words.new }
{
    if need > words.len() {
        return Err(Refused(Refusal::NoSpace, b));
    }
    zero_words(words, b.count, need);
    Ok(Bitmap {
        count: b.count.max(need),
        ..b
    })
}
