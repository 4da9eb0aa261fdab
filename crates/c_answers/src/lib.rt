// Answers in plain numbers, for programs in other languages: 0 or a refusal's number, and beside it
// what the answer says (rule 8.2).
//
// No function asks anything of its caller. `specs/Told` has what is told of each answer, by what it
// says in the rules' numbers. A run length, which is numbers alone, is asked here too.
#![tactic(auto)]

mod run_lengths;

ghost use Rattle.std.specs.Prelude.{◌≡◌, [], ◌∷◌};
ghost use Rattle.refusals.specs.Stated.{stated};
ghost use Rattle.refusals.specs.Said.{answered, refusing, said};
ghost use Rattle.charts.specs.Hearing.{heard_as};
ghost use Rattle.c_answers.specs.Told.{told_of, briefly, counted_of, spread_told, piece_of};

use piece::PieceSummary;
use refusals::Refusal;
pub use run_lengths::run_length;

// An answer that says at most one whole number: `number` is 0 or the refusal's, `count` that whole
// number, and `channel` and `index` are those of the reading that refusal 8 names. It is no `Result`, and
// neither are the others here: they are what the C interface is told.
#[derive(Clone, Copy, PartialEq, Eq, Debug)]
pub struct Told {
    pub number: u32,
    pub count: usize,
    pub channel: usize,
    pub index: usize,
}

// The same without the channel and the index.
#[derive(Clone, Copy, PartialEq, Eq, Debug)]
pub struct Counted {
    pub number: u32,
    pub count: usize,
}

// A piece's spread, as the C interface is told it: `has` is 1, and `value` the spread; or both are 0 where
// there is none.
#[derive(Clone, Copy)]
struct ToldSpread {
    has: u32,
    value: f64,
}

// A piece's summary: `number` is 0 or the refusal's, and the others are the summary's values. Where there
// is no spread `has_spread` is 0, and else 1.
#[derive(Clone, Copy, PartialEq, Debug)]
pub struct ToldPiece {
    pub number: u32,
    pub length: usize,
    pub mean: f64,
    pub has_spread: u32,
    pub spread: f64,
}

// What is told of an answer that says `count`.
#[tactic(auto, unfolding(crate::specs::Told::told_of))]
fn result(count: usize) -> Told
    ensures { result ≡ told_of (answered (count ∷ [])) }
{
    Told {
        number: 0,
        count,
        channel: 0,
        index: 0,
    }
}

// The number of `refusal`, in 32 bits.
fn number_of(refusal: Refusal) -> u32
    ensures { result ≡ (stated refusal).number }
{
    refusal.number() as u32
}

// What is told of `refusal`: its number and the values that it carries.
pub fn refused(refusal: Refusal) -> Told
    ensures { result ≡ told_of (refusing refusal) }
{
    let number = number_of(refusal);
    let (channel, index) = refusal.values().unwrap_or((0, 0));
    Told {
        number,
        count: 0,
        channel,
        index,
    }
}

// `told` without its channel and index.
fn brief(told: Told) -> Counted
    ensures { result ≡ briefly told }
{
    Counted {
        number: told.number,
        count: told.count,
    }
}

// What is told of `answer`: how many records or indices were written, or the refusal.
pub fn answered(answer: Result<usize, Refusal>) -> Counted
    ensures { result ≡ counted_of (said answer) }
{
    match answer {
        Ok(count) => brief(result(count)),
        Err(refusal) => brief(refused(refusal)),
    }
}

// What is told of `answer`: the reading at which a level was heard, 0 where it was not, or the refusal.
pub(crate) fn heard(answer: Result<Option<usize>, Refusal>) -> Counted
    ensures { result ≡ counted_of (heard_as answer) }
{
    match answer {
        Ok(reading) => brief(result(reading.unwrap_or(0))),
        Err(refusal) => brief(refused(refusal)),
    }
}

// What is told of `spread`: that there is one and its value, or that there is none.
fn spread_told(spread: Option<f64>) -> ToldSpread
    ensures { result ≡ spread_told spread }
{
    match spread {
        None => ToldSpread { has: 0, value: 0.0 },
        Some(value) => ToldSpread { has: 1, value },
    }
}

// What is told of `answer`: the summary's values, or the refusal's number with zeros.
pub fn piece(answer: Result<PieceSummary, Refusal>) -> ToldPiece
    ensures { result ≡ piece_of answer }
{
    match answer {
        Ok(summary) => {
            let told = spread_told(summary.spread);
            ToldPiece {
                number: 0,
                length: summary.length,
                mean: summary.mean,
                has_spread: told.has,
                spread: told.value,
            }
        }
        Err(refusal) => ToldPiece {
            number: number_of(refusal),
            length: 0,
            mean: 0.0,
            has_spread: 0,
            spread: 0.0,
        },
    }
}
