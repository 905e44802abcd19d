// The bytes of a list text.
ghost use Rattle.std.specs.Prelude.{◌≡◌};
ghost use Rattle.text.specs.Lists.{digit, blank, plain};

pub(crate) fn is_digit(c: u8) -> bool
    ensures { result ≡ digit c }
{
    c.is_ascii_digit()
}

pub(crate) fn is_blank(c: u8) -> bool
    ensures { result ≡ blank c }
{
    matches!(c, 32 | 9..=13)
}

// Whether every byte is below 128.
pub(crate) fn is_plain(text: &[u8]) -> bool
    ensures { result ≡ plain text.now }
{
    text.is_ascii()
}
