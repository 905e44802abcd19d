// What a duty record asks for: its kind is looked up, and its payload read as an edit.
//
// A payload is read in parts of at most eight bytes; a field is cut out of one part, or put together from two.
#![tactic(auto)]

ghost use Rattle.std.specs.Prelude.{◌≡◌, ◌^◌, ◌≤◌, ◌<◌, length};
ghost use Rattle.sheet.specs.Bytes.{number};
ghost use Rattle.sheet.specs.Kinds.{rule_of};
ghost use Rattle.decode.specs.Asks.{asked_for};
ghost use Rattle.decode.specs.Kernels.{payload_length, asks, Turned, Paired};

use sheet::{AT_1, AT_7, AT_25, AT_32, AT_39, AT_63, Edit};
use storage::Refusal;

// The number whose bytes are given, the most significant first. `u64::from_be_bytes` takes eight, and a part of a payload has 1, 4, 5 or 8.
fn number_of(bytes: &[u8]) -> usize
    requires { length bytes.now ≤ 8 }
    ensures { (result ≡ number bytes.now) × (result < 256 ^ length bytes.now) }
{
    let mut x = 0;
    for &byte in bytes {
        x = x * 256 + byte as usize;
    }
    x
}

// Kind 3: the value, p and k, then 7 unused bits, which this and two others test: a function of the test would be as long as the test.
fn region(payload: &[u8]) -> Result<Edit, Refusal>
    requires { length payload.now ≡ 9 }
    ensures { result ≡ asks (rule_of 3 payload.now) }
{
    let b = number_of(&payload[..1]);
    let x = number_of(&payload[1..]);
    if x % AT_7 != 0 {
        return Err(Refusal::BadPayload);
    }
    let p = b % AT_7 * AT_25 + x / AT_39;
    let k = x / AT_7 % AT_32;
    Ok(Edit::SetRegion(b >= AT_7, p, k))
}

// Kind 4: p, the width and the value, then an unused bit.
fn field(payload: &[u8]) -> Result<Edit, Refusal>
    requires { length payload.now ≡ 13 }
    ensures { result ≡ asks (rule_of 4 payload.now) }
{
    let p = number_of(&payload[..4]);
    let b = number_of(&payload[4..5]);
    let x = number_of(&payload[5..]);
    if x % AT_1 != 0 {
        return Err(Refusal::BadPayload);
    }
    if b / AT_1 > 64 {
        return Err(Refusal::BadPayload);
    }
    let value = b % AT_1 * AT_63 + x / AT_1;
    Ok(Edit::SetField(p, b / AT_1, value as u64))
}

// Kinds 5 and 6: the direction and k, then 7 unused bits.
fn turn(payload: &[u8]) -> Result<(bool, usize), Refusal>
    requires { length payload.now ≡ 5 }
    ensures { Turned payload.now result }
{
    let x = number_of(payload);
    if x % AT_7 != 0 {
        return Err(Refusal::BadPayload);
    }
    Ok((x >= AT_39, x / AT_7 % AT_32))
}

// Kind 7: 33 bits, then 7 unused bits.
fn size(payload: &[u8]) -> Result<Edit, Refusal>
    requires { length payload.now ≡ 5 }
    ensures { result ≡ asks (rule_of 7 payload.now) }
{
    let x = number_of(payload);
    if x % AT_7 != 0 {
        return Err(Refusal::BadPayload);
    }
    if x / AT_7 > sheet::MOST_BITS {
        return Err(Refusal::BadPayload);
    }
    Ok(Edit::Resize(x / AT_7))
}

// Kinds 9, 10 and 11: p and k.
fn pair(payload: &[u8]) -> (usize, usize)
    requires { length payload.now ≡ 8 }
    ensures { Paired payload.now result }
{
    let x = number_of(payload);
    (x / AT_32, x % AT_32)
}

// A payload of its kind's length. A kind stays the number that stands in the sheet, as `rule_of` takes it.
fn decode(kind: usize, payload: &[u8]) -> Result<Edit, Refusal>
    requires { (length payload.now ≡ payload_length kind) × (1 ≤ kind) × (kind ≤ 11) }
    ensures { result ≡ asks (rule_of kind payload.now) }
{
    match kind {
        1 => Ok(Edit::Set(number_of(payload))),
        2 => Ok(Edit::Unset(number_of(payload))),
        3 => region(payload),
        4 => field(payload),
        5 => {
            let (right, k) = turn(payload)?;
            Ok(Edit::Shift(right, k))
        }
        6 => {
            let (right, k) = turn(payload)?;
            Ok(Edit::Rotate(right, k))
        }
        7 => size(payload),
        8 => Ok(Edit::Reverse),
        9 => {
            let (p, k) = pair(payload);
            Ok(Edit::ToggleRegion(p, k))
        }
        10 => {
            let (p, k) = pair(payload);
            Ok(Edit::Open(p, k))
        }
        _ => {
            let (p, k) = pair(payload);
            Ok(Edit::Close(p, k))
        }
    }
}

// What a duty record of a kind asks for in an edition: 13 where the edition does not have the kind, 12 where the payload is bad.
pub fn edit_of(edition: usize, kind: usize, payload: &[u8]) -> Result<Edit, Refusal>
    ensures { result ≡ asked_for edition kind payload.now }
{
    let Some(n) = sheet::payload_bytes(edition, kind) else {
        return Err(Refusal::NewerKind);
    };
    if payload.len() != n {
        return Err(Refusal::BadPayload);
    }
    decode(kind, payload)
}
