// What was compared so far, and what was found.
ghost use Rattle.std.specs.Prelude.{◌≡◌, false, IfOk};

use std::io::Stdout;
use std::{fmt, io};

// How many things of a kind were compared, and how many of them differ.
#[derive(Clone, Copy)]
struct Tally {
    cases: u64,
    differ: u64,
}

impl Tally {
    // The tally with one more, which is `unlike` what is stored or not.
    fn counted(self, unlike: bool) -> Tally {
        Tally {
            cases: self.cases.wrapping_add(1),
            differ: self.differ.wrapping_add(u64::from(unlike)),
        }
    }
}

impl fmt::Display for Tally {
    fn fmt<W: fmt::Write>(&self, f: &mut fmt::Formatter<W>) -> fmt::Result {
        let cases = self.cases;
        let differ = self.differ;
        write!(f, "{cases}, {differ} differ")
    }
}

// A difference in the case `case`: the value with the number `value`, at the index `place`, is `got` and
// not `expected`, as bit patterns.
#[derive(Clone, Copy)]
struct Difference {
    case: u64,
    value: u64,
    place: usize,
    expected: u64,
    got: u64,
}

impl fmt::Display for Difference {
    fn fmt<W: fmt::Write>(&self, f: &mut fmt::Formatter<W>) -> fmt::Result {
        let case = self.case;
        let value = self.value;
        let place = self.place;
        let expected = self.expected;
        let got = self.got;
        write!(
            f,
            "case {case} value {value} place {place} expected {expected:016x} got {got:016x}"
        )
    }
}

#[derive(Clone, Copy)]
pub struct Progress {
    // Where what was found is printed.
    out: Stdout,
    // What was compared of each kind. Each program says what its kinds are.
    tallies: [Tally; Progress::KINDS],
    // How many cases were begun.
    begun: u64,
    // How many differences may still be shown.
    lines: u64,
    // Whether something differs that was compared since the last count.
    pub unlike: bool,
    // Whether there may be more: each case so far was whole, and none was the last.
    pub more: bool,
}

impl Progress {
    // How many kinds there may be.
    const KINDS: usize = 24;

    // No case so far, and 20 lines for differences, which go to `out`.
    pub fn new(out: Stdout) -> Progress {
        let none = Tally {
            cases: 0,
            differ: 0,
        };
        Progress {
            out,
            tallies: [none; Progress::KINDS],
            begun: 0,
            lines: 20,
            unlike: false,
            more: true,
        }
    }

    // The progress with one case more begun.
    pub fn begun(mut self) -> Progress {
        self.begun = self.begun.wrapping_add(1);
        self
    }

    // The progress at the end: there is no case more.
    pub fn ended(mut self) -> Progress
        ensures { result.more ≡ false }
    {
        self.more = false;
        self
    }

    // The progress at the end, where the case is not whole or of no known form, which is printed.
    pub fn stopped(self) -> io::Result<Progress>
        ensures { IfOk result (λ progress. progress.more ≡ false) }
    {
        let out = self.out;
        let begun = self.begun;
        println!(out; "too short, or of no known form: case {begun}")?;
        Ok(self.ended())
    }

    // Compares `got`, which a call gave, with `expected`, which is stored, and shows a difference while
    // lines are left. `value` is the number of what was compared, and `place` its index.
    pub fn matched(
        mut self,
        value: u64,
        place: usize,
        expected: u64,
        got: u64,
    ) -> io::Result<Progress> {
        if expected == got {
            return Ok(self);
        }
        self.unlike = true;
        if self.lines == 0 {
            return Ok(self);
        }
        self.lines -= 1;
        let out = self.out;
        let difference = Difference {
            case: self.begun,
            value,
            place,
            expected,
            got,
        };
        println!(out; "{difference}")?;
        Ok(self)
    }

    // The same of the float `got`, the value `value` at the index `place`, whose bit pattern is to be
    // `expected`.
    pub fn matched_float(
        self,
        value: u64,
        place: usize,
        expected: u64,
        got: f64,
    ) -> io::Result<Progress> {
        self.matched(value, place, expected, floats::to_bits(got))
    }

    // The progress with one more of the kind `kind`, which is `unlike` what is stored or not.
    pub fn tallied(mut self, kind: usize, unlike: bool) -> Progress {
        let place = kind % Progress::KINDS;
        let tally = self.tallies[place];
        self.tallies[place] = tally.counted(unlike);
        self
    }

    // Counts what was compared since the last count as one of the kind `kind`, which differs if any of
    // that does.
    pub fn counted(mut self, kind: usize) -> Progress {
        let unlike = self.unlike;
        self.unlike = false;
        self.tallied(kind, unlike)
    }

    // Prints how many there are of each kind of which there is one, and how many differ. Cost: one turn
    // for each kind.
    pub fn report(self) -> io::Result<()> {
        let out = self.out;
        for (kind, tally) in self.tallies.iter().enumerate() {
            if tally.cases != 0 {
                println!(out; "kind {kind}: {tally}")?;
            }
        }
        Ok(())
    }
}
