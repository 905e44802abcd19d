// The writer of change sheets: a start, and a record at the end. Nothing is written before every check has passed.
#![tactic(auto)]

ghost use Rattle.std.specs.Prelude.{◌≡◌, ◌∷◌, ◌+◌, ◌*◌, ◌^◌, ◌<◌, ◌≤◌, length};
ghost use Rattle.std.proofs.lemmas.List.Edits.{sets};
ghost use Rattle.sheet.specs.Bytes.{bytes};
ghost use Rattle.sheet.specs.Kinds.{size_in};
ghost use Rattle.editions.specs.Frames.{count_in};
ghost use Rattle.sheet.specs.Reads.{latest};
ghost use Rattle.plain.specs.Plain.{Typed};
ghost use Rattle.plain.specs.Writer.{most, checked_of, placed_by, duty, remark, Writes, Starts, Adds};
ghost use Rattle.writer.specs.Kernels.{Given, or_zero, parts_of, roomless_in};

use sheet::{AT_1, AT_7, AT_8, AT_25, AT_32, AT_39, AT_63, Fields};
use storage::Refusal;

// A sheet of no records at the front of the buffer.
pub fn start(buffer: &mut [u8]) -> Result<usize, Refusal>
    ensures { Starts buffer.old result buffer.new }
{
    if buffer.len() < 4 {
        return Err(Refusal::NoSpace);
    }
    let [first, second] = sheet::LETTERS;
    copy(buffer, 0, &[first, second, 0, 0]);
    Ok(4)
}

// The n low bytes of x at a position, from the last to the first. By index: `iter_mut().rev()` hands out bytes without their places, and `sets` has places.
// `to_be_bytes` has eight bytes, so `n ≤ 8` would be asked here and of `put_parts`, and `bytes` goes on past eight.
fn put(buffer: &mut [u8], at: usize, n: usize, x: usize)
    requires { at + n ≤ length buffer.old }
    ensures { buffer.new ≡ sets buffer.old at (bytes n x) }
{
    let mut left = x;
    for i in (0..n).rev() {
        buffer[at + i] = (left % 256) as u8;
        left /= 256;
    }
}

// The n low bytes of a number of two parts at a position.
fn put_parts(buffer: &mut [u8], at: usize, n: usize, high: usize, low: usize)
    requires { at + n ≤ length buffer.old }
    ensures { buffer.new ≡ sets buffer.old at (bytes n (high * 2 ^ 64 + low)) }
{
    let over = n.max(8) - 8;
    put(buffer, at, over, high);
    put(buffer, at + over, n - over, low);
}

// Bytes at a position.
fn copy(buffer: &mut [u8], at: usize, payload: &[u8])
    requires { at + length payload.now ≤ length buffer.old }
    ensures { buffer.new ≡ sets buffer.old at payload.now }
{
    let end = at + payload.len();
    buffer[at..end].copy_from_slice(payload);
}

// 13, 3 or 4 of a duty record, or its payload as one number, what is over 64 bits apart. By the kind's number, as `duty` takes it and C gives it.
fn payload_parts(kind: usize, f: Fields) -> Result<(usize, usize), Refusal>
    ensures { result ≡ parts_of (checked_of (duty kind f)) }
{
    let p = f.p as usize;
    let k = f.k as usize;
    let flag = usize::from(f.flag);
    match kind {
        1 | 2 => Ok((0, p)),
        3 => Ok((flag * AT_7 + p / AT_25, p % AT_25 * AT_39 + k * AT_7)),
        4 => {
            if f.width > 64 {
                return Err(Refusal::WidthOver);
            }
            let v = f.value as usize;
            Ok((p * AT_8 + f.width * AT_1 + v / AT_63, v % AT_63 * AT_1))
        }
        5 | 6 => Ok((0, flag * AT_39 + k * AT_7)),
        7 => {
            if f.size > sheet::MOST_BITS {
                return Err(Refusal::IndexOver);
            }
            Ok((0, f.size * AT_7))
        }
        8 => Ok((0, 0)),
        9..=11 => Ok((0, p * AT_32 + k)),
        _ => Err(Refusal::NewerKind),
    }
}

// The bytes of a kind's payload; 0 for a newer one, as `or_zero` says, which `payload_parts` has refused by then.
fn payload_size(kind: usize) -> usize
    ensures { result ≡ or_zero (size_in latest kind) }
{
    sheet::payload_bytes(sheet::LATEST, kind).unwrap_or(0)
}

// Whether a record with n bytes of payload has no room, or is one too many. The buffer and the sheet's length come from C apart, so `Given` is said of both,
// here and below.
fn roomless(buffer: &[u8], length: usize, n: usize) -> bool
    requires given { Given buffer.now length }
    requires small { n ≤ most }
    ensures { result ≡ roomless_in buffer.now length n }
{
    if frames::record_count(buffer) >= sheet::MOST {
        return true;
    }
    buffer.len() - length < 3 + n
}

// R raised, and the first three bytes of the record at the end.
fn put_head(buffer: &mut [u8], at: usize, first: usize, n: usize)
    requires { (4 ≤ at) × (at + 3 ≤ length buffer.old) × (first < 256) }
    ensures { buffer.new ≡ sets (sets buffer.old 2 (bytes 2 (count_in buffer.old + 1))) at (first ∷ bytes 2 n) }
{
    let count = frames::record_count(buffer);
    put(buffer, 2, 2, count + 1);
    buffer[at] = first as u8;
    put(buffer, at + 1, 2, n);
}

// A remark at the end of the sheet.
fn add_remark(
    buffer: &mut [u8],
    length: usize,
    kind: usize,
    payload: &[u8],
) -> Result<usize, Refusal>
    requires { Given buffer.old length }
    ensures { Writes (placed_by buffer.old length (checked_of (remark kind payload.now))) result buffer.new }
{
    if kind > 127 {
        return Err(Refusal::NewerKind);
    }
    let n = payload.len();
    if n > sheet::MOST {
        return Err(Refusal::BadPayload);
    }
    if roomless(buffer, length, n) {
        return Err(Refusal::NoSpace);
    }
    put_head(buffer, length, kind, n);
    copy(buffer, length + 3, payload);
    Ok(length + 3 + n)
}

// A duty record at the end of the sheet. Its payload is a number and a remark's are bytes: what the two have in common is in `roomless` and `put_head`.
fn add_duty(buffer: &mut [u8], length: usize, kind: usize, f: Fields) -> Result<usize, Refusal>
    requires { Given buffer.old length }
    ensures { Writes (placed_by buffer.old length (checked_of (duty kind f))) result buffer.new }
{
    let (high, low) = payload_parts(kind, f)?;
    let n = payload_size(kind);
    if roomless(buffer, length, n) {
        return Err(Refusal::NoSpace);
    }
    put_head(buffer, length, 128 + kind, n);
    put_parts(buffer, length + 3, n, high, low);
    Ok(length + 3 + n)
}

// Adds a record at the end of the sheet that is the buffer's first `length` bytes, and raises R. Kind, fields and length are numbers, as they cross from C.
pub fn add(
    buffer: &mut [u8],
    length: usize,
    duty: bool,
    kind: usize,
    fields: Fields,
    payload: &[u8],
) -> Result<usize, Refusal>
    ensures adds { Adds buffer.old length duty kind fields payload.now result buffer.new }
    ensures typed { Typed fields }
{
    if length > buffer.len() {
        return Err(Refusal::CountOverStore);
    }
    frames::fault(&buffer[..length])?;
    if duty {
        return add_duty(buffer, length, kind, fields);
    }
    add_remark(buffer, length, kind, payload)
}
