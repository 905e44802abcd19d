// The style of list text: how a publisher writes page lists.
#![tactic(auto)]

ghost use Rattle.std.specs.Prelude.{◌≡◌};
ghost use Rattle.style.specs.Styles.{allowed, joins};

// A printed number is a bit plus `first`; `joiner` stands between the two numbers of a range; `blank` says whether a blank stands after a comma;
// a run of fewer than `shortest` numbers is written number by number. A joiner is a `usize`, so that none is cut to a byte before it is looked at.
#[derive(Clone, Copy)]
pub struct Style {
    pub first: usize,
    pub joiner: usize,
    pub blank: bool,
    pub shortest: usize,
}

// The style of the Rust: bits as they are, a hyphen, a blank, and every run of two or more as a range.
pub const PLAIN: Style = Style {
    first: 0,
    joiner: 45,
    blank: true,
    shortest: 2,
};

// Whether a byte may be a joiner: printable, and no blank, comma or digit.
fn joins(c: usize) -> bool
    ensures { result ≡ joins c }
{
    if c < 33 {
        return false;
    }
    if c > 126 {
        return false;
    }
    if c == 44 {
        return false;
    }
    c < 48 || c > 57
}

// Whether list text may have the style.
pub fn is_allowed(s: Style) -> bool
    ensures { result ≡ allowed s }
{
    if s.first > 1_000 {
        return false;
    }
    if !joins(s.joiner) {
        return false;
    }
    2 <= s.shortest && s.shortest <= 9
}
