// The program `cuts` as a function: the bytes of its input to the bytes of its output.
//
// The input is tagged fields that ask for a search; the output is the cuts, or the number of a refusal.
// Every input has an answer, damaged ones too. Crate `cuts_input` says which bytes ask for which
// search, crate `cuts_output` how an answer is written, and `specs/Answer` what `answer` promises:
// exactly one output for each input. `specs/Inner` is for the private functions.
#![tactic(auto)]

mod printing;

ghost use Rattle.std.specs.Prelude.{◌≡◌};
ghost use Rattle.cuts_answer.specs.Answer.{printed};

// The most bytes of an output: 515 cuts, each with a line's end, after the word and their number.
const OUTPUT: usize = 10841;

// An output: `length` bytes at the front of `bytes`, and zeros behind them.
#[derive(Drop)]
pub struct Printed {
    pub bytes: [u8; OUTPUT],
    pub length: usize,
}

// What the program writes for `input`. Cost: one turn for each byte, the search, and one turn for each
// digit of the output.
pub fn answer(input: &[u8]) -> Printed
    ensures { result ≡ printed input.now }
{
    let mut bytes = [0; OUTPUT];
    let length = printing::print_answer(input, &mut bytes);
    Printed { bytes, length }
}
