// The head of a change sheet and the frames of its records. Every call takes any bytes and any place.
#![tactic(auto)]

ghost use Rattle.std.specs.Prelude.{◌≡◌, ◌≤◌, ◌<◌, length, get_or};
ghost use Rattle.editions.specs.Frames.{headed, count_in, frames_fault, sheet_fault};
ghost use Rattle.frames.specs.Frames.{end_in, fault_by};

use storage::Refusal;

// The byte at a place, 0 past the end. arch has the same of words: a generic one would be as long as either.
fn byte_at(bytes: &[u8], at: usize) -> usize
    ensures { (result ≡ get_or bytes.now at 0) × (result < 256) }
{
    bytes.get(at).map_or(0, |&byte| usize::from(byte))
}

// Whether there are four bytes, the letters first.
pub fn has_head(sheet: &[u8]) -> bool
    ensures { result ≡ headed sheet.now }
{
    sheet.len() >= 4 && sheet.starts_with(&sheet::LETTERS)
}

// The record count R, of any bytes: `u16::from_be_bytes` would be given the same two.
pub fn record_count(sheet: &[u8]) -> usize
    ensures { result ≡ count_in sheet.now }
{
    byte_at(sheet, 2) * 256 + byte_at(sheet, 3)
}

// Where the record at a place ends, if the sheet has it whole. `u16::from_be_bytes` would take the two bytes of its length by the same places.
pub fn record_end(sheet: &[u8], at: usize) -> Option<usize>
    ensures { result ≡ end_in sheet.now at }
{
    if sheet.len() < 3 {
        return None;
    }
    let last = sheet.len() - 3;
    if at > last {
        return None;
    }
    let n = sheet[at + 1] as usize * 256 + sheet[at + 2] as usize;
    if last - at < n {
        return None;
    }
    Some(at + 3 + n)
}

// 10 or 11 of the n records after the head.
fn records_fault(sheet: &[u8], n: usize) -> Result<(), Refusal>
    requires { 4 ≤ length sheet.now }
    ensures { result ≡ fault_by (frames_fault sheet.now n 4) }
{
    let mut at = 4;
    for _ in 0..n {
        let Some(end) = record_end(sheet, at) else {
            return Err(Refusal::CutRecord);
        };
        at = end;
    }
    if at < sheet.len() {
        return Err(Refusal::BytesRemain);
    }
    Ok(())
}

// 9, 10 or 11 of a whole sheet.
pub fn fault(sheet: &[u8]) -> Result<(), Refusal>
    ensures { result ≡ fault_by (sheet_fault sheet.now) }
{
    if !has_head(sheet) {
        return Err(Refusal::NotSheet);
    }
    records_fault(sheet, record_count(sheet))
}
