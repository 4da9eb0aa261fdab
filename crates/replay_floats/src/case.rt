// A stored case: the function that is called, the numbers that it is called with, and its result.
use replay_common::number;
use std::fmt;

#[derive(Clone, Copy)]
pub(crate) enum Function {
    Sqrt,
    Powi,
    Ln,
    Max,
    Min,
    Abs,
    Finite,
}

// Why the cases end before the input does.
#[derive(Clone, Copy)]
pub(crate) enum Fault {
    Unknown,
    CutShort,
}

// A stored case: the bit pattern `x`, the number `n`, and the result's bit pattern.
#[derive(Clone, Copy)]
pub(crate) struct Case {
    pub function: Function,
    pub x: u64,
    pub n: u64,
    pub expected: u64,
}

impl TryFrom<u8> for Function {
    type Error = Fault;

    fn try_from(letter: u8) -> Result<Function, Fault> {
        match letter {
            b's' => Ok(Function::Sqrt),
            b'p' => Ok(Function::Powi),
            b'l' => Ok(Function::Ln),
            b'x' => Ok(Function::Max),
            b'm' => Ok(Function::Min),
            b'a' => Ok(Function::Abs),
            b'f' => Ok(Function::Finite),
            _ => Err(Fault::Unknown),
        }
    }
}

impl TryFrom<[u8; 25]> for Case {
    type Error = Fault;

    fn try_from(bytes: [u8; 25]) -> Result<Case, Fault> {
        Ok(Case {
            function: Function::try_from(bytes[0])?,
            x: number(&bytes[1..9]),
            n: number(&bytes[9..17]),
            expected: number(&bytes[17..]),
        })
    }
}

impl fmt::Display for Function {
    fn fmt<W: fmt::Write>(&self, f: &mut fmt::Formatter<W>) -> fmt::Result {
        f.write_str(match self {
            Function::Sqrt => "sqrt",
            Function::Powi => "powi",
            Function::Ln => "ln or ln_each",
            Function::Max => "max",
            Function::Min => "min",
            Function::Abs => "abs",
            Function::Finite => "finite",
        })
    }
}

impl fmt::Display for Fault {
    fn fmt<W: fmt::Write>(&self, f: &mut fmt::Formatter<W>) -> fmt::Result {
        f.write_str(match self {
            Fault::Unknown => "one is of no known function",
            Fault::CutShort => "the input ends inside one",
        })
    }
}

impl fmt::Display for Case {
    fn fmt<W: fmt::Write>(&self, f: &mut fmt::Formatter<W>) -> fmt::Result {
        let function = self.function;
        let x = self.x;
        let n = self.n;
        let expected = self.expected;
        write!(
            f,
            "{function} x {x:016x} n {n:016x} expected {expected:016x}"
        )
    }
}
