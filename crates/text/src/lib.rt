// List text read, in the plain style as `0-3, 5-7, 11`: a token is followed byte by byte. The call measures first and writes only what fits.
#![tactic(auto)]

mod bytes;

ghost use Rattle.std.specs.Prelude.{◌≡◌};
ghost use Rattle.storage.specs.Stores.{Changes};
ghost use Rattle.text.specs.Readings.{kind, grown, fresh, value, token, empty, by_digit, by_joiner, by_kind, refusal_of, reading_list};
ghost use Rattle.text.specs.Kernels.{number_so_far, left_of, part_of, step_of, Walked};

use storage::{Bitmap, Refusal, Refused};
use style::Style;

pub const COMMA: u8 = 44;

pub const ZERO: u8 = 48;

// The largest bit that a list may hold.
const LIMIT: usize = 4_294_967_295;

// More than a number of any style may be.
const TOO_LARGE: usize = LIMIT + 1_001;

// What a byte is to a list.
#[derive(Clone, Copy, Debug, PartialEq, Eq)]
enum Kind {
    Digit(u8),
    Blank,
    Joiner,
    Comma,
    Other,
}

// Why a text is no list: its first bad token is bad by a slip, or by a number of digits only that is above the limit.
#[derive(Clone, Copy, Debug, PartialEq, Eq)]
enum Fault {
    Slip,
    Huge,
}

// How far a token is read: whether the joiner came, the number before it, and how far the number at hand is read: 0, no digit yet;
// 1, its last byte a digit; 2, blanks after it. `TOO_LARGE` stands for every larger number. These are numbers because a loop
// that copies an enum copies its padding, which costs more than the rest.
#[derive(Clone, Copy)]
struct Part {
    pub split: usize,
    pub left: usize,
    pub phase: usize,
    pub value: usize,
}

// What a byte makes of a token. Three outcomes with a name each: a `Result` of an `Option` would say less.
#[derive(Clone, Copy)]
enum Step {
    Go(Part),
    Ends,
    Stop(Fault),
}

fn kind_of(c: u8, joiner: usize) -> Kind
    ensures { result ≡ kind joiner c }
{
    if bytes::is_digit(c) {
        return Kind::Digit(c - ZERO);
    }
    if bytes::is_blank(c) {
        return Kind::Blank;
    }
    if c as usize == joiner {
        return Kind::Joiner;
    }
    if c == COMMA {
        return Kind::Comma;
    }
    Kind::Other
}

// One digit more. By a branch: a minimum takes longer.
fn grown(v: usize, d: u8) -> usize
    ensures { result ≡ grown v d }
{
    if v < TOO_LARGE {
        let x = v * 10 + d as usize;
        if x < TOO_LARGE {
            return x;
        }
    }
    TOO_LARGE
}

// The bit of a number that ended, if it has digits, is not below the first number, and is within the limit.
fn value_of(phase: usize, v: usize, first: usize) -> Result<usize, Fault>
    ensures { result ≡ value first (number_so_far phase v) }
{
    if phase == 0 {
        return Err(Fault::Slip);
    }
    if v < first {
        return Err(Fault::Slip);
    }
    if v - first <= LIMIT {
        Ok(v - first)
    } else {
        Err(Fault::Huge)
    }
}

// A token of which nothing is read.
fn fresh() -> Part
    ensures { part_of result ≡ fresh }
{
    Part {
        split: 0,
        left: 0,
        phase: 0,
        value: 0,
    }
}

// Whether nothing but blanks is read.
fn empty(p: Part) -> bool
    ensures { result ≡ empty (part_of p) }
{
    if p.split == 0 { p.phase == 0 } else { false }
}

// What a token is that ended: a range, or nothing but blanks.
fn token_of(p: Part, first: usize) -> Result<Option<(usize, usize)>, Fault>
    ensures { result ≡ token first (part_of p) }
{
    if empty(p) {
        return Ok(None);
    }
    let a = p.left;
    let b = value_of(p.phase, p.value, first)?;
    if p.split == 0 {
        return Ok(Some((b, b)));
    }
    if a <= b {
        Ok(Some((a, b)))
    } else {
        Err(Fault::Slip)
    }
}

// A token and a digit.
fn by_digit(p: Part, d: u8) -> Step
    ensures { step_of result ≡ by_digit (left_of p.split p.left) (number_so_far p.phase p.value) d }
{
    if p.phase == 0 {
        return Step::Go(Part {
            phase: 1,
            value: d as usize,
            ..p
        });
    }
    if p.phase == 1 {
        return Step::Go(Part {
            phase: 1,
            value: grown(p.value, d),
            ..p
        });
    }
    Step::Stop(Fault::Slip)
}

// A token and a joiner.
fn by_joiner(p: Part, first: usize) -> Step
    ensures { step_of result ≡ by_joiner (left_of p.split p.left) (value first (number_so_far p.phase p.value)) }
{
    if p.split != 0 {
        return Step::Stop(Fault::Slip);
    }
    match value_of(p.phase, p.value, first) {
        Err(f) => Step::Stop(f),
        Ok(a) => Step::Go(Part {
            split: 1,
            left: a,
            phase: 0,
            value: 0,
        }),
    }
}

// A token and the next byte.
fn step_by(p: Part, k: Kind, first: usize) -> Step
    ensures { step_of result ≡ by_kind first (part_of p) k }
{
    match k {
        Kind::Digit(d) => by_digit(p, d),
        Kind::Blank => {
            if p.phase == 1 {
                return Step::Go(Part { phase: 2, ..p });
            }
            Step::Go(p)
        }
        Kind::Joiner => by_joiner(p, first),
        Kind::Comma => Step::Ends,
        Kind::Other => Step::Stop(Fault::Slip),
    }
}

// The largest number of a list, if the text is one. The ranges of its good tokens are set, as far as the words go.
fn walk(words: &mut [u64], text: &[u8], style: Style) -> Result<usize, Fault>
    ensures { Walked style text.now result words.old words.new }
{
    let mut top: usize = 0;
    let mut any = false;
    let mut at = 0;
    let fault = 'tokens: loop {
        let mut part = fresh();
        let mut more = false;
        // An outer loop over tokens and an inner one over digits, left by a label, is the form that document 01 asks for.
        'digits: while at < text.len() {
            let s = step_by(part, kind_of(text[at], style.joiner), style.first);
            at += 1;
            match s {
                Step::Go(q) => part = q,
                Step::Ends => {
                    more = true;
                    break 'digits;
                }
                Step::Stop(f) => break 'tokens f,
            }
        }
        match token_of(part, style.first) {
            Ok(Some((a, b))) => {
                arch::fill_region(words, a, b + 1, true);
                top = top.max(b);
            }
            Ok(None) => {
                if any {
                    if !more {
                        return Ok(top);
                    }
                }
                break 'tokens Fault::Slip;
            }
            Err(f) => break 'tokens f,
        }
        if !more {
            return Ok(top);
        }
        any = true;
    };
    Err(fault)
}

impl From<Fault> for Refusal {
    ghost from_gives = { λ fault why. why ≡ refusal_of fault };

    fn from(fault: Fault) -> Refusal {
        match fault {
            Fault::Slip => Refusal::NotList,
            Fault::Huge => Refusal::NumberOver,
        }
    }
}

// The bitmap becomes the set that the text lists in a style, in the words up to its largest number's. 15, then 8, then 7 or 16, then 6, each before a word
// is written. What an allowed style reads depends on its first number and joiner: from 1, with `:`, `1:3, 5` is {0, 1, 2, 4}.
pub fn from_list(words: &mut [u64], b: Bitmap, text: &[u8], style: Style) -> Result<Bitmap, Refused>
    ensures { Changes (reading_list style text.now) words.old b result words.new }
{
    let n = b.count;
    storage::check(words, b)?;
    if !style::is_allowed(style) {
        return Err(Refused(Refusal::BadStyle, b));
    }
    if !bytes::is_plain(text) {
        return Err(Refused(Refusal::NotAscii, b));
    }
    // The first walk is lent no word: it measures.
    let top = match walk(&mut words[..0], text, style) {
        Ok(top) => top,
        Err(fault) => return Err(Refused(fault.into(), b)),
    };
    let count = top / 64 + 1;
    if count > words.len() {
        return Err(Refused(Refusal::NoSpace, b));
    }
    storage::zero_words(words, 0, n.max(count));
    // The second walk comes to the same, and marks.
    let _ = walk(&mut words[..count], text, style);
    Ok(Bitmap { count, ..b })
}
