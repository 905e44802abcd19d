// The change sheet: its kinds of records, and what is asked of its reader and writer and answered by them.
#![tactic(auto)]

ghost use Rattle.std.specs.Prelude.{◌≡◌};
ghost use Rattle.sheet.specs.Kinds.{size_in, known};

use storage::Refusal;

// The first two bytes of a sheet.
pub const LETTERS: [u8; 2] = *b"NS";

// The newest edition.
pub const LATEST: usize = 2;

// The most bits of a resize.
pub const MOST_BITS: usize = 4_294_967_296;

// The most records of a sheet, and the most bytes of a payload.
pub const MOST: usize = 65_535;

// The weight of a payload's field that has so many bits after it.
pub const AT_1: usize = 1 << 1;

pub const AT_7: usize = 1 << 7;

pub const AT_8: usize = 1 << 8;

pub const AT_25: usize = 1 << 25;

pub const AT_32: usize = 1 << 32;

pub const AT_39: usize = 1 << 39;

pub const AT_63: usize = 1 << 63;

// A kind of duty record: the bytes of its payload, and the first edition that has it.
#[derive(Clone, Copy, Debug, PartialEq, Eq)]
pub struct Kind {
    pub bytes: usize,
    pub since: usize,
}

// The kinds 1 to 11, each at the number that stands in the sheet; row 0 is no kind.
pub const KINDS: [Kind; 12] = [
    Kind { bytes: 0, since: 0 },
    Kind { bytes: 4, since: 1 },
    Kind { bytes: 4, since: 1 },
    Kind { bytes: 9, since: 1 },
    Kind {
        bytes: 13,
        since: 1,
    },
    Kind { bytes: 5, since: 1 },
    Kind { bytes: 5, since: 1 },
    Kind { bytes: 5, since: 1 },
    Kind { bytes: 0, since: 1 },
    Kind { bytes: 8, since: 2 },
    Kind { bytes: 8, since: 2 },
    Kind { bytes: 8, since: 2 },
];

// What a duty record asks for, with the fields of its kind. A direction is true for right.
#[derive(Clone, Copy, Debug, PartialEq, Eq)]
pub enum Edit {
    Set(usize),
    Unset(usize),
    SetRegion(bool, usize, usize),
    SetField(usize, usize, u64),
    Shift(bool, usize),
    Rotate(bool, usize),
    Resize(usize),
    Reverse,
    ToggleRegion(usize, usize),
    Open(usize, usize),
    Close(usize, usize),
}

// The fields that an addition is given, all of them, as they cross from C; a kind uses its own. The flag is the value of `set_region`, or the direction.
#[derive(Clone, Copy, Debug, PartialEq, Eq)]
pub struct Fields {
    pub p: u32,
    pub k: u32,
    pub flag: bool,
    pub width: usize,
    pub value: u64,
    pub size: usize,
}

// Why a reading is refused, and the number of the record that it came to.
#[derive(Clone, Copy, Debug, PartialEq, Eq)]
pub struct ReadError(pub Refusal, pub usize);

// The payload's bytes of a kind, in an edition that has it.
pub fn payload_bytes(edition: usize, kind: usize) -> Option<usize>
    ensures { result ≡ known (size_in edition kind) }
{
    if kind == 0 {
        return None;
    }
    let row = KINDS.get(kind)?;
    if row.since > edition {
        return None;
    }
    Some(row.bytes)
}
