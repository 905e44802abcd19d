// Reading a line of the list: numbers and byte strings in hexadecimal, one blank after each, and a full stop at the end.
ghost use Rattle.std.specs.Prelude.{◌≤◌, length, IfSome};

use listing::digit;

// What is left of a line. Each method takes what it reads, and is none where that is not as it should be.
#[derive(Clone, Copy)]
pub struct Scan<'a> {
    rest: &'a [u8],
}

impl<'a> Scan<'a> {
    pub(crate) fn of(line: &'a [u8]) -> Scan<'a> {
        Scan { rest: line }
    }

    // The bytes before the next blank.
    fn field(&mut self) -> Option<&'a [u8]> {
        let blank = self.rest.iter().position(|byte| *byte == b' ')?;
        let (field, rest) = self.rest.split_at(blank);
        self.rest = rest.strip_prefix(b" ")?;
        Some(field)
    }

    // A number below 2^64, of at least one digit.
    pub(crate) fn number(&mut self) -> Option<u64> {
        let field = self.field()?;
        if field.is_empty() {
            return None;
        }
        listing::number(field)
    }

    // Numbers into all of `out`.
    pub(crate) fn fill(&mut self, out: &mut [u64]) -> Option<()> {
        for number in out {
            *number = self.number()?;
        }
        Some(())
    }

    pub(crate) fn numbers<const N: usize>(&mut self) -> Option<[u64; N]> {
        let mut numbers = [0; N];
        self.fill(&mut numbers)?;
        Some(numbers)
    }

    // A byte string into the front of `out`: its length, how many bytes are written out, and these; the later ones repeat the last three.
    pub(crate) fn bytes(&mut self, out: &mut [u8]) -> Option<usize>
        ensures { IfSome result (λ n. n ≤ length out.new) }
    {
        let [length, given] = self.numbers::<2>()?;
        let length = length as usize;
        let (first, later) = out.get_mut(..length)?.split_at_mut_checked(given as usize)?;
        let (pairs, odd) = self.field()?.as_chunks::<2>();
        if pairs.len() != first.len() || !odd.is_empty() {
            return None;
        }
        for (byte, [high, low]) in first.iter_mut().zip(pairs) {
            *byte = digit(*high)? << 4 | digit(*low)?;
        }
        if let Some(last) = first.last_chunk::<3>() {
            for part in later.chunks_mut(3) {
                for (byte, again) in part.iter_mut().zip(last) {
                    *byte = *again;
                }
            }
        }
        Some(length)
    }

    // Whether the line ends here.
    pub(crate) fn is_at_end(&self) -> bool {
        self.rest == b".\n".as_slice()
    }
}
