// What was met: for each part and in all, the cases by the number that they should answer, and the mismatches.
use crate::case::Part;
use listing::Row;
use std::io;

// A row for each part, and one for all. The parts are other ones than in sheets, and each is met by its name.
#[derive(Clone, Copy)]
pub struct Tally {
    texts: Row<17>,
    sets: Row<17>,
    round_trips: Row<17>,
    total: Row<17>,
}

impl Tally {
    pub(crate) fn new() -> Tally {
        Tally {
            texts: Row::new(),
            sets: Row::new(),
            round_trips: Row::new(),
            total: Row::new(),
        }
    }

    pub(crate) fn add(&mut self, part: Part, number: usize, wrong: bool) {
        match part {
            Part::Text => self.texts.add(number, wrong),
            Part::Set => self.sets.add(number, wrong),
            Part::RoundTrip => self.round_trips.add(number, wrong),
        }
        self.total.add(number, wrong);
    }

    pub(crate) fn report(&self, rt: &impl Print) -> io::Result<()> {
        println!(rt; "texts read: {}", self.texts)?;
        println!(rt; "sets printed: {}", self.sets)?;
        println!(rt; "sets printed and read back: {}", self.round_trips)?;
        println!(rt; "total: {}", self.total)
    }
}
