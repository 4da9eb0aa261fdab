// How many cases were replayed, and how many of them differ.
ghost use Rattle.std.specs.Prelude.{◌≡◌, ◌+◌, ◌≤◌};

use crate::case::{Case, Function};
use crate::result::result_of;
use std::io::Stdout;
use std::{fmt, io};

// How many cases of a function were replayed, and how many of them differ: no more than there are.
#[derive(Clone, Copy)]
pub(crate) struct Tally {
    cases: u64,
    differ: u64,
    ghost fits: { differ ≤ cases },
}

impl Tally {
    // The tally with one case more, which `differs` or not.
    fn counted(self, differs: bool) -> Tally
        ensures { result.cases ≤ self.cases + 1 }
    {
        Tally {
            cases: self.cases.saturating_add(1),
            differ: self.differ.saturating_add(u64::from(differs)),
        }
    }
}

impl fmt::Display for Tally {
    fn fmt<W: fmt::Write>(&self, f: &mut fmt::Formatter<W>) -> fmt::Result {
        let cases = self.cases;
        let differ = self.differ;
        write!(f, "{cases} cases, {differ} differ")
    }
}

// The tallies, one for max, min, abs and finite together, and how many of the cases that differ may
// still be shown.
#[derive(Clone, Copy)]
pub(crate) struct Progress {
    pub sqrt: Tally,
    pub powi: Tally,
    pub ln: Tally,
    pub plain: Tally,
    pub lines: u64,
}

impl Progress {
    // No case so far, and 20 lines for cases that differ.
    pub(crate) fn new() -> Progress
        ensures { (result.sqrt.cases ≡ 0) × (result.powi.cases ≡ 0) × (result.ln.cases ≡ 0) × (result.plain.cases ≡ 0) }
    {
        let none = Tally {
            cases: 0,
            differ: 0,
        };
        Progress {
            sqrt: none,
            powi: none,
            ln: none,
            plain: none,
            lines: 20,
        }
    }

    // Counts one case more of `function`, which `differs` or not.
    fn count(&mut self, function: Function, differs: bool)
        ensures sqrt { self.new.sqrt.cases ≤ self.old.sqrt.cases + 1 }
        ensures powi { self.new.powi.cases ≤ self.old.powi.cases + 1 }
        ensures ln { self.new.ln.cases ≤ self.old.ln.cases + 1 }
        ensures plain { self.new.plain.cases ≤ self.old.plain.cases + 1 }
    {
        match function {
            Function::Sqrt => self.sqrt = self.sqrt.counted(differs),
            Function::Powi => self.powi = self.powi.counted(differs),
            Function::Ln => self.ln = self.ln.counted(differs),
            _ => self.plain = self.plain.counted(differs),
        }
    }

    // Replays `case` and counts it. One that differs is shown while lines are left.
    pub(crate) fn replay(&mut self, out: &Stdout, case: Case) -> io::Result<()>
        ensures sqrt { self.new.sqrt.cases ≤ self.old.sqrt.cases + 1 }
        ensures powi { self.new.powi.cases ≤ self.old.powi.cases + 1 }
        ensures ln { self.new.ln.cases ≤ self.old.ln.cases + 1 }
        ensures plain { self.new.plain.cases ≤ self.old.plain.cases + 1 }
    {
        let got = result_of(case);
        let differs = got != case.expected;
        self.count(case.function, differs);
        if differs {
            if self.lines != 0 {
                self.lines -= 1;
                println!(out; "{case} got {got:016x}")?;
            }
        }
        Ok(())
    }
}
