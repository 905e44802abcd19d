// Replays a list of calls with the answers of the Rust, from standard input (oracle/README.md has its lines): a line for each mismatch, and a line for
// each call with the number of its cases and of its mismatches.
#![tactic(auto)]

mod call;
mod case;
mod changing;
mod kernels;
mod line;
mod reading;
mod store;

use case::{Case, Mismatch};
use line::{Ahead, Line};
use std::{fmt, io, mem};

// The most lines of a list.
const MOST: u64 = 100_000_000;

// Cases and mismatches; malformed lines are mismatches. Not a row of listing, as no number is counted by itself.
#[derive(Clone, Copy, Default)]
struct Tally {
    cases: u64,
    wrong: u64,
}

impl Tally {
    fn add(&mut self, wrong: bool) {
        self.cases = self.cases.saturating_add(1);
        self.wrong = self.wrong.saturating_add(u64::from(wrong));
    }
}

impl fmt::Display for Tally {
    fn fmt<W: fmt::Write>(&self, f: &mut fmt::Formatter<W>) -> fmt::Result {
        let Tally { cases, wrong } = self;
        write!(f, "{cases} {wrong}")
    }
}

// The cases of the call at hand, and all so far.
#[derive(Clone, Copy, Default)]
struct Tallies {
    call: Tally,
    all: Tally,
}

impl Tallies {
    fn add(&mut self, wrong: bool) {
        self.call.add(wrong);
        self.all.add(wrong);
    }
}

// A line that is no title: what it shows.
fn judged(case: Option<Case<'_>>) -> Result<(), Mismatch> {
    case.ok_or(Mismatch::Malformed)?.replay()
}

// Replays a line. A title stands below the cases of its call.
fn one(rt: &impl Print, number: u64, line: &Line, tallies: &mut Tallies) -> io::Result<()> {
    let case = line.case();
    if let Some(title) = case.and_then(|case| case.title()) {
        rt.write_all(title.as_slice())?;
        let call = mem::take(&mut tallies.call);
        return println!(rt; " {call}");
    }
    let shown = judged(case);
    tallies.add(shown.is_err());
    if let Err(mismatch) = shown {
        let call = line.call();
        println!(rt; "line {number}: call {call:02x} {mismatch}")?;
    }
    Ok(())
}

// Replays every line.
fn all(rt: &(impl Input + Print)) -> io::Result<Tally> {
    let mut ahead = Ahead::new();
    let mut line = Line::new();
    let mut tallies = Tallies::default();
    for number in 1..=MOST {
        if !line.read(rt, &mut ahead)? {
            return Ok(tallies.all);
        }
        one(rt, number, &line, &mut tallies)?;
    }
    println!(rt; "the list is too long")?;
    Ok(tallies.all)
}

fn main(rt: HostRuntime) -> io::Result<()> {
    let all = all(&rt)?;
    println!(rt; "all {all}")
}
