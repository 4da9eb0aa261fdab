// Every refusal of the library, the number and the values by which it is known outside, and the two limits
// that are refused beyond. A call that counts records, indices or cuts answers `Result<usize, Refusal>`:
// how many it wrote, or the refusal for which it wrote none.
//
// The numbers and their values are those of rule 2.1. They are written here and nowhere else: a caller that
// prints or stores a refusal asks `number` and `values`, and code that keeps a limit names it. So a new
// refusal is a case here, a line of `specs/Stated` and of the laws, and the crate that gives it. Numbers
// have holes: one that was given up, as 11, is not given to another refusal.
//
// `specs/Stated` has the numbers and values, `specs/Tried` how refusals are tried one after the other,
// `specs/Said` what an answer says outside, `specs/Limits` the limits. No two refusals are stated alike,
// and none states 11 (`proofs/Apart`).
#![tactic(auto)]

ghost use Rattle.std.specs.Prelude.{◌≡◌};
ghost use Rattle.refusals.specs.Stated.{stated, values_of};

// The most channels that a run may have: more lengths are refusal 3.
pub const MAX_CHANNELS: usize = 8;

// The most readings that a channel or a series may have: more are refusal 6. A run length is looked
// for among as many.
pub const MAX_READINGS: usize = 4096;

#[derive(Clone, Copy, PartialEq, Eq, Debug)]
pub enum Refusal {
    // A custom penalty is not finite or not above 0.
    Penalty,
    // The minimum length is below 2.
    MinLen,
    // There are more than 8 lengths.
    Channels,
    // The lengths don't add up to the run's length.
    Shape,
    // Two lengths differ.
    Unequal,
    // A channel or a series has more than 4,096 readings.
    TooLong,
    // A lent area is shorter than the call needs.
    Room,
    // A reading or a level is NaN or infinite.
    NonFinite { channel: usize, index: usize },
    // The functional search needs more candidate slots than were lent.
    Pool,
    // The program's input is not of its form.
    Form,
    // A piece's start is not below its end, or its end is past the channel.
    Piece,
    // A chart's target is not finite.
    Target,
    // A chart's sigma is not finite or not above 0.
    Sigma,
    // A chart's weight is out of range: k is not finite or below 0, or lambda is not above 0 and at most 1.
    Weight,
    // A chart's bound, h or L, is not finite or not above 0.
    Bound,
}

impl Refusal {
    // The number of this refusal.
    pub fn number(self) -> u64
        ensures { result ≡ (stated self).number }
    {
        match self {
            Refusal::Penalty => 1,
            Refusal::MinLen => 2,
            Refusal::Channels => 3,
            Refusal::Shape => 4,
            Refusal::Unequal => 5,
            Refusal::TooLong => 6,
            Refusal::Room => 7,
            Refusal::NonFinite {
                channel: _,
                index: _,
            } => 8,
            Refusal::Pool => 9,
            Refusal::Form => 10,
            Refusal::Piece => 12,
            Refusal::Target => 15,
            Refusal::Sigma => 16,
            Refusal::Weight => 17,
            Refusal::Bound => 18,
        }
    }

    // The channel and the index that go with the number, where the refusal carries them. Every other crate
    // asks here, and matches on no refusal.
    pub fn values(self) -> Option<(usize, usize)>
        ensures { result ≡ values_of self }
    {
        match self {
            Refusal::NonFinite { channel, index } => Some((channel, index)),
            _ => None,
        }
    }
}
