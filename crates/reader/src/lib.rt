// The reader of change sheets. The old bitmap is copied into the result store, and each record's step works on it there.
#![tactic(auto)]

ghost use Rattle.std.specs.Prelude.{◌≡◌, ◌≤◌, length};
ghost use Rattle.storage.specs.Stores.{no_words, space_of, view, held, written, Leaves, Changes, bitmap_of};
ghost use Rattle.storage.specs.Guards.{Passed};
ghost use Rattle.editions.specs.Frames.{end_at, item_at};
ghost use Rattle.editions.specs.Reader.{records, read};
ghost use Rattle.sheet.specs.Reads.{step, edition_of, fitting, Reads};
ghost use Rattle.reader.specs.Kernels.{Padded, duty_item, turned, Came};

use sheet::{Edit, LATEST, ReadError};
use storage::{Bitmap, EMPTY, Refusal, Refused};

// What an edit does to a bitmap.
fn apply(words: &mut [u64], b: Bitmap, e: Edit) -> Result<Bitmap, Refused>
    ensures { Changes (step e) words.old b result words.new }
{
    match e {
        Edit::Set(p) => bitmap::set(words, b, p),
        Edit::Unset(p) => bitmap::unset(words, b, p),
        Edit::SetRegion(value, p, k) => bitmap::set_region(words, b, p, value, k),
        Edit::SetField(p, width, value) => bitmap::set_field(words, b, p, value, width),
        Edit::Shift(right, k) => {
            if right {
                return shape::shift_right(words, b, k);
            }
            shape::shift_left(words, b, k)
        }
        Edit::Rotate(right, k) => {
            if right {
                return shift::rotate_right(words, b, k);
            }
            shift::rotate_left(words, b, k)
        }
        Edit::Resize(n) => shape::resize_bits(words, b, n),
        Edit::Reverse => bits::reverse(words, b),
        Edit::ToggleRegion(p, k) => shape::toggle_region(words, b, p, k),
        Edit::Open(p, k) => gap::open_gap(words, b, p, k),
        Edit::Close(p, k) => gap::close_gap(words, b, p, k),
    }
}

// A duty record: 13, 12, or what its step is refused with.
fn perform(
    edition: usize,
    kind: usize,
    payload: &[u8],
    words: &mut [u64],
    b: Bitmap,
) -> Result<Bitmap, Refused>
    requires { Padded words.old b }
    ensures { Leaves (turned edition (duty_item kind payload.now) (space_of words.old)
        (held words.old b)) words.old b result words.new }
{
    match decode::edit_of(edition, kind, payload) {
        Err(why) => Err(Refused(why, b)),
        Ok(e) => apply(words, b, e),
    }
}

// The record at a place, its frame whole: a remark does nothing. `Padded` is said of a store and its record here, above and below: a struct of them would be
// taken apart at each call of the library.
fn turn(
    edition: usize,
    sheet: &[u8],
    at: usize,
    end: usize,
    words: &mut [u64],
    b: Bitmap,
) -> Result<Bitmap, Refused>
    requires { (end ≡ end_at sheet.now at) × (end ≤ length sheet.now) × Padded words.old b }
    ensures { Leaves (turned edition (item_at sheet.now at) (space_of words.old)
        (held words.old b)) words.old b result words.new }
{
    let first = sheet[at] as usize;
    // A duty record has the top bit of the first byte, as the format says.
    if first < 128 {
        return Ok(b);
    }
    perform(edition, first % 128, &sheet[at + 3..end], words, b)
}

// The n records from the fifth byte on. Where one is refused the store is left as it is then.
fn each_record(
    edition: usize,
    sheet: &[u8],
    n: usize,
    words: &mut [u64],
    old: usize,
) -> Result<(usize, Bitmap), ReadError>
    requires { (4 ≤ length sheet.now) × Padded words.old (bitmap_of old) }
    ensures { Came (records (edition_of (space_of words.old) edition) sheet.now n 0 4
        (view words.old old)) words.old result words.new }
{
    let mut count = old;
    let mut at = 4;
    // By number, as a refusal says which record it came to.
    for i in 0..n {
        let Some(end) = frames::record_end(sheet, at) else {
            return Err(ReadError(Refusal::CutRecord, i + 1));
        };
        match turn(edition, sheet, at, end, words, Bitmap { count, ..EMPTY }) {
            Err(Refused(why, _)) => return Err(ReadError(why, i + 1)),
            Ok(after) => count = after.count,
        }
        at = end;
    }
    if at < sheet.len() {
        return Err(ReadError(Refusal::BytesRemain, n));
    }
    Ok((n, Bitmap { count, ..EMPTY }))
}

// The old words, and zeros past them.
fn load(res: &mut [u64], words: &[u64], n: usize)
    requires { (n ≤ length res.old) × (n ≤ length words.now) }
    ensures { res.new ≡ written res.old (length res.old) (view words.now n) }
{
    res[..n].copy_from_slice(&words[..n]);
    let end = res.len();
    storage::zero_words(res, n, end);
}

// 9, then 6 where the old bitmap has no space, then the records. A refusal leaves the store as it is then.
fn read_into(
    edition: usize,
    sheet: &[u8],
    words: &[u64],
    b: Bitmap,
    res: &mut [u64],
) -> Result<(usize, Bitmap), ReadError>
    requires { Passed words.now b × Passed res.old no_words }
    ensures { Came (read (edition_of (space_of res.old) edition) sheet.now
        (fitting (space_of res.old) (held words.now b))) res.old result res.new }
{
    let n = b.count;
    if !frames::has_head(sheet) {
        return Err(ReadError(Refusal::NotSheet, 0));
    }
    if n > res.len() {
        return Err(ReadError(Refusal::NoSpace, 0));
    }
    load(res, words, n);
    let count = frames::record_count(sheet);
    each_record(edition, sheet, count, res, n)
}

// Reads a sheet in an edition: the old bitmap, changed by each duty record in order, into the result store, with zeros past its words.
// 14, then 1 and 2 for the old store and 1 for the result store, touch nothing; any later refusal leaves the result store all zero.
pub fn read(
    edition: usize,
    sheet: &[u8],
    words: &[u64],
    b: Bitmap,
    res: &mut [u64],
) -> Result<(usize, Bitmap), ReadError>
    ensures { Reads edition sheet.now words.now b res.old result res.new }
{
    if edition < 1 {
        return Err(ReadError(Refusal::NoEdition, 0));
    }
    if edition > LATEST {
        return Err(ReadError(Refusal::NoEdition, 0));
    }
    if let Err(Refused(why, _)) = storage::check_two(words, b, res, EMPTY) {
        return Err(ReadError(why, 0));
    }
    let read = read_into(edition, sheet, words, b, res);
    if read.is_err() {
        res.fill(0);
    }
    read
}
