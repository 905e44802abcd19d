// The change sheet: read, started, added to.
ghost use Rattle.plain.specs.Writer.{started, added, requested};
ghost use Rattle.calls.specs.Calls.{Read, Written, truth};

use sheet::Fields;
use storage::{Bitmap, EMPTY};

// Reads a sheet in an edition: the old bitmap, changed by it, into the result's store. The record and the result's count go out.
#[unsafe(no_mangle)]
pub extern "C" fn taxolbin_read(
    edition: usize,
    sheet: &[u8],
    words: &[u64],
    count: usize,
    res: &mut [u64],
    at: &mut usize,
    rcount: &mut usize,
) -> u32
    ensures { Read edition sheet.now words.now count res.old result res.new
        at.new rcount.new }
{
    let a = reader::read(edition, sheet, words, Bitmap { count, ..EMPTY }, res);
    answers::reading(a, at, rcount)
}

// Starts a sheet of no records; its length goes out.
#[unsafe(no_mangle)]
pub extern "C" fn taxolbin_start(buffer: &mut [u8], length: &mut usize) -> u32
    ensures { Written (started buffer.old) length.old result buffer.new length.new }
{
    let a = writer::start(buffer);
    answers::added(a, length)
}

// Adds a record at the end of the sheet: a duty record of its kind's fields, or a remark of its payload where duty is 0.
#[unsafe(no_mangle)]
pub extern "C" fn taxolbin_add(
    buffer: &mut [u8],
    length: &mut usize,
    duty: u32,
    kind: usize,
    p: u32,
    k: u32,
    flag: u32,
    width: usize,
    value: u64,
    size: usize,
    payload: &[u8],
) -> u32
    ensures { Written (added buffer.old length.old
        (requested (truth duty) kind (record { p = p; k = k; flag = truth flag; width = width; value = value; size = size })
        payload.now)) length.old result buffer.new length.new }
{
    let fields = Fields {
        p,
        k,
        flag: flag != 0,
        width,
        value,
        size,
    };
    let a = writer::add(buffer, *length, duty != 0, kind, fields, payload);
    answers::added(a, length)
}
