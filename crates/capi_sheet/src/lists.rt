// List text, and the printed register.
ghost use Rattle.text.specs.Readings.{reading_list};
ghost use Rattle.calls.specs.Calls.{style_of, Changed, Printed, Registered};

use storage::{Bitmap, EMPTY};
use style::Style;

// The bitmap becomes the set of a list such as `0-3, 5-7, 11`, in a style.
#[unsafe(no_mangle)]
pub extern "C" fn taxolbin_from_list(
    words: &mut [u64],
    count: &mut usize,
    list: &[u8],
    first: usize,
    joiner: usize,
    blank: u32,
    shortest: usize,
) -> u32
    ensures { Changed (reading_list (style_of first joiner blank shortest) list.now) words.old count.old result words.new count.new }
{
    let n = *count;
    let style = Style {
        first,
        joiner,
        blank: blank != 0,
        shortest,
    };
    let a = text::from_list(words, Bitmap { count: n, ..EMPTY }, list, style);
    answers::change(a, count)
}

// The list of a bitmap in a style, at the front of a buffer; its length goes out.
#[unsafe(no_mangle)]
pub extern "C" fn taxolbin_write_list(
    words: &[u64],
    count: usize,
    out: &mut [u8],
    length: &mut usize,
    first: usize,
    joiner: usize,
    blank: u32,
    shortest: usize,
) -> u32
    ensures { Printed (style_of first joiner blank shortest) words.now count out.old result out.new length.new }
{
    let style = Style {
        first,
        joiner,
        blank: blank != 0,
        shortest,
    };
    let a = print::write_list(words, Bitmap { count, ..EMPTY }, out, style);
    answers::amount(a, length)
}

// The register of a bitmap, at the front of a buffer; its length goes out.
#[unsafe(no_mangle)]
pub extern "C" fn taxolbin_write_register(
    words: &[u64],
    count: usize,
    out: &mut [u8],
    length: &mut usize,
) -> u32
    ensures { Registered words.now count out.old result out.new length.new }
{
    let a = register::write_register(words, Bitmap { count, ..EMPTY }, out);
    answers::amount(a, length)
}
