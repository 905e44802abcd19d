// What was met: for each part and in all, the cases by the number that they should answer, and the mismatches.
use listing::Row;
use std::io;

// What a case belongs to.
#[derive(Clone, Copy)]
pub enum Part {
    Reading,
    Call,
    GivenSheet,
    ReadBack,
}

// Every number of a list has a part: its two low bits say which.
impl From<u64> for Part {
    fn from(part: u64) -> Part {
        match part % 4 {
            0 => Part::Reading,
            1 => Part::Call,
            2 => Part::GivenSheet,
            _ => Part::ReadBack,
        }
    }
}

// A case: its part, the number that is right, and whether all was answered and left in the lent memory as it should be.
#[derive(Clone, Copy)]
pub struct Case {
    pub part: Part,
    pub number: u64,
    pub agrees: bool,
}

// A row for each part, and one for all. The parts are other ones than in styles, and each is met by its name.
#[derive(Clone, Copy)]
pub struct Tally {
    readings: Row<15>,
    calls: Row<15>,
    given: Row<15>,
    read_back: Row<15>,
    total: Row<15>,
}

impl Tally {
    pub(crate) fn new() -> Tally {
        Tally {
            readings: Row::new(),
            calls: Row::new(),
            given: Row::new(),
            read_back: Row::new(),
            total: Row::new(),
        }
    }

    // Numbers go to 14; of a higher one the rest counts.
    pub(crate) fn add(&mut self, case: Case) {
        let number = (case.number % 15) as usize;
        let wrong = !case.agrees;
        match case.part {
            Part::Reading => self.readings.add(number, wrong),
            Part::Call => self.calls.add(number, wrong),
            Part::GivenSheet => self.given.add(number, wrong),
            Part::ReadBack => self.read_back.add(number, wrong),
        }
        self.total.add(number, wrong);
    }

    pub(crate) fn report(&self, rt: &impl Print) -> io::Result<()> {
        println!(rt; "readings: {}", self.readings)?;
        println!(rt; "writer calls: {}", self.calls)?;
        println!(rt; "additions to a sheet given: {}", self.given)?;
        println!(rt; "written sheets read back: {}", self.read_back)?;
        println!(rt; "total: {}", self.total)
    }
}
