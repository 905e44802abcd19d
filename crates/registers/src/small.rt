// One small register, printed as the library makes it.
use std::io;
use storage::{Bitmap, EMPTY};

// The bits 3, 7 to 9, 63, and in the second word 64 and 100 to 127: a run of two goes over the word's edge.
const WORDS: [u64; 2] = [0x8000_0000_0000_0388, 0xffff_fff0_0000_0001];

const PAGE: usize = 3_650;

pub(crate) fn print(rt: &impl Print) -> io::Result<()> {
    let mut out = [0u8; PAGE];
    let record = Bitmap { count: 2, ..EMPTY };
    let got = told::amount(register::write_register(&WORDS, record, &mut out));
    match out.get(..got.value as usize) {
        Some(page) => rt.write_all(page),
        None => Ok(()),
    }
}
