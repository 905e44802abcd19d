// The mistakes that invite themselves, by documents 01 and 02: what the mistaken way would have made, beside what is right.
use crate::show;
use crate::show::Words;
use sheet::ReadError;
use std::io;
use storage::{Bitmap, EMPTY, Refused};
use style::PLAIN;

// `append` starts at a word boundary: it undoes `split_off` at a multiple of 64 only.
fn append_after_split(rt: &impl Print, at: usize) -> io::Result<()> {
    let mut store = [0; 4];
    let mut tail = [0; 4];
    let whole = show::record(bitmap::set_many(&mut store, EMPTY, &[3, 69, 70, 100]));
    println!(rt; "bits 3, 69, 70, 100: {}", Words(&store))?;
    print!(rt; "split_off at {at}, then append:")?;
    let (head, rest) = match shape::split_off(&mut store, whole, at, &mut tail) {
        Ok(parts) => parts,
        Err(Refused(_, head)) => (head, head),
    };
    show::change(rt, shape::append(&mut store, head, &tail, rest), &store)
}

// A rotation runs over all words in use, zero ones too.
fn trim_before_rotation(rt: &impl Print) -> io::Result<()> {
    let mut store = [1, 0];
    print!(rt; "[1 0] rotated right by 1:")?;
    show::change(
        rt,
        shift::rotate_right(&mut store, Bitmap { count: 2, ..EMPTY }, 1),
        &store,
    )?;
    let mut same = [1, 0];
    let trimmed = show::record(bitmap::trim(&same, Bitmap { count: 2, ..EMPTY }));
    print!(rt; "trimmed before:")?;
    show::change(rt, shift::rotate_right(&mut same, trimmed, 1), &same)
}

// One edition's line. It is printed as numbers, 0 where the sheet is read; notes has the like, with the list where this prints every word.
fn reading(rt: &impl Print, edition: usize, sheet: &[u8]) -> io::Result<()> {
    let mut store = [7; 2];
    let (number, record, count) = match reader::read(edition, sheet, &[0], EMPTY, &mut store) {
        Ok((records, b)) => (0, records, b.count),
        Err(ReadError(why, record)) => (why.number(), record, 0),
    };
    println!(rt; " {edition}: {number} {record} {count} {}", Words(&store))
}

// A duty record that is not known is refused by its number and never skipped; a remark of any kind is skipped.
fn unknown_record(rt: &impl Print) -> io::Result<()> {
    let duty =
        b"NS\x00\x02\x89\x00\x08\x00\x00\x00\x01\x00\x00\x00\x02\x81\x00\x04\x00\x00\x00\x00";
    let remark =
        b"NS\x00\x02\x09\x00\x08\x00\x00\x00\x01\x00\x00\x00\x02\x81\x00\x04\x00\x00\x00\x00";
    print!(rt; "toggle_region(1, 2), set(0), edition")?;
    reading(rt, 1, duty)?;
    print!(rt; "toggle_region(1, 2), set(0), edition")?;
    reading(rt, 2, duty)?;
    print!(rt; "the first as a remark, edition")?;
    reading(rt, 1, remark)
}

// The second word is looked for before the first half is written.
fn half_a_field(rt: &impl Print) -> io::Result<()> {
    let mut store = [0; 2];
    print!(rt; "one word of two in use, set_field_strict(60, ff, 8):")?;
    show::change(
        rt,
        slice::set_field_strict(&mut store, Bitmap { count: 1, ..EMPTY }, 60, 0xff, 8),
        &store,
    )?;
    print!(rt; "both in use:")?;
    show::change(
        rt,
        slice::set_field_strict(&mut store, Bitmap { count: 2, ..EMPTY }, 60, 0xff, 8),
        &store,
    )
}

fn list(rt: &impl Print, typed: &str) -> io::Result<()> {
    let mut store = [7];
    print!(rt; "list {typed}:")?;
    let got = text::from_list(&mut store, EMPTY, typed.as_bytes(), PLAIN);
    show::change(rt, got, &store)
}

// A number above the limit is told from a slip of the finger, and is never cut to a smaller one. A token's left number decides before its right.
fn one_digit_too_many(rt: &impl Print) -> io::Result<()> {
    for typed in [
        "5",
        "18446744073709551621",
        "4294967296",
        "4294967296x",
        "4294967296-x",
        "x-4294967296",
    ] {
        list(rt, typed)?;
    }
    Ok(())
}

pub(crate) fn books(rt: &impl Print) -> io::Result<()> {
    append_after_split(rt, 70)?;
    append_after_split(rt, 64)?;
    trim_before_rotation(rt)?;
    unknown_record(rt)?;
    half_a_field(rt)?;
    one_digit_too_many(rt)
}
