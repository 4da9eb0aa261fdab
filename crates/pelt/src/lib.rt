// Changes in readings: the search behind a report, over the flat readings of one channel or more.
//
// Every call ends with the cuts or a numbered refusal, and asks nothing of its caller. `specs/Detected`
// says what is answered and what every lent area holds afterwards, by crate `search_answer`. What
// promise 2 says of the cuts, and which reading refusal 8 names, is proved of each call (`proofs/Cuts`,
// `proofs/FirstGap`).
#![tactic(auto)]

ghost use Rattle.std.specs.Prelude.{◌≡◌, true, false, [], ◌∷◌, length};
ghost use Rattle.search_answer.specs.Search.{takes_functional};
ghost use Rattle.search_answer.specs.Outcome.{areas};
ghost use Rattle.pelt.specs.Detected.{new_of, with_min_segment_len, detected};

use costs::{CostFunction, Penalty};
use refusals::Refusal;
use search::find_cuts;

// A search: how a segment is priced, the penalty of a change, and the least length of a piece. The
// settings are checked when they are used.
#[derive(Clone, Copy)]
pub struct Pelt {
    pub cost: CostFunction,
    pub penalty: Penalty,
    pub min_segment_len: usize,
}

impl Pelt {
    // The most channels on which the L2 cost takes the functional search.
    pub const FUNCTIONAL_MAX_CHANNELS: usize = search::FUNCTIONAL_MAX_CHANNELS;

    // The floats of a slot of the pool, in which one candidate of the functional search lives.
    pub const SLOT_FLOATS: usize = search::SLOT_FLOATS;

    // A search with this `cost` and `penalty`, for pieces of 2 readings or more.
    pub fn new(cost: CostFunction, penalty: Penalty) -> Pelt
        ensures { result ≡ new_of cost penalty }
    {
        Pelt {
            cost,
            penalty,
            min_segment_len: 2,
        }
    }

    pub fn with_min_segment_len(
        cost: CostFunction,
        penalty: Penalty,
        min_segment_len: usize,
    ) -> Pelt
        ensures { result ≡ with_min_segment_len cost penalty min_segment_len }
    {
        Pelt {
            cost,
            penalty,
            min_segment_len,
        }
    }

    // Whether a search with these settings over `channels` channels takes the functional search, which
    // asks for a pool of slots; any other search may be lent an empty one. Crate `search` has the same
    // test for itself: here it ties the constant that a caller sees to the definition (docs/DECISIONS.md).
    #[tactic(auto, unfolding(search_answer::specs::Search::takes_functional))]
    pub fn takes_functional(self, channels: usize) -> bool
        ensures { result ≡ takes_functional self.cost channels }
    {
        match self.cost {
            CostFunction::L2 => channels <= Pelt::FUNCTIONAL_MAX_CHANNELS,
            CostFunction::Normal => false,
        }
    }

    // The one search behind the four calls; where it is `strict`, a reading that is not finite is
    // refused.
    fn find(
        self,
        strict: bool,
        readings: &[f64],
        lengths: &[usize],
        cuts: &mut [usize],
        floats: &mut [f64],
        indices: &mut [usize],
        pool: &mut [f64],
    ) -> Result<usize, Refusal>
        ensures { (result, areas cuts.new floats.new indices.new pool.new) ≡ detected strict self readings.now lengths.now (areas cuts.old floats.old indices.old pool.old) }
    {
        find_cuts(
            self.cost,
            self.penalty,
            self.min_segment_len,
            strict,
            readings,
            lengths,
            cuts,
            floats,
            indices,
            pool,
        )
    }

    // The cuts of the one channel `readings`, of n readings: lowest first, in the front of `cuts`; the
    // rest of `cuts` is left. A reading that is not finite is searched with the others. Afterwards the
    // work areas `floats`, `indices` and `pool` are zero; a refusal other than 9 changes nothing. Room:
    // n/2 cuts, 4(n + 1) floats, 3(n + 1) indices; for L2 a pool of 200 floats for each candidate that
    // lives at once.
    pub fn detect(
        self,
        readings: &[f64],
        cuts: &mut [usize],
        floats: &mut [f64],
        indices: &mut [usize],
        pool: &mut [f64],
    ) -> Result<usize, Refusal>
        ensures { (result, areas cuts.new floats.new indices.new pool.new) ≡ detected false self readings.now (length readings.now ∷ []) (areas cuts.old floats.old indices.old pool.old) }
    {
        let one = [readings.len()];
        self.find(false, readings, &one, cuts, floats, indices, pool)
    }

    // The same of one channel or more, which stand one after the other in `readings` and have the
    // lengths `lengths`. Room: n/2 cuts, (2k + 2)(n + 1) floats and 3(n + 1) indices for k channels of
    // n; a pool for L2 on one or two of them.
    pub fn detect_multi(
        self,
        readings: &[f64],
        lengths: &[usize],
        cuts: &mut [usize],
        floats: &mut [f64],
        indices: &mut [usize],
        pool: &mut [f64],
    ) -> Result<usize, Refusal>
        ensures { (result, areas cuts.new floats.new indices.new pool.new) ≡ detected false self readings.now lengths.now (areas cuts.old floats.old indices.old pool.old) }
    {
        self.find(false, readings, lengths, cuts, floats, indices, pool)
    }

    // `detect`, but a reading that is not finite is refused, with channel 0 and its index.
    pub fn detect_strict(
        self,
        readings: &[f64],
        cuts: &mut [usize],
        floats: &mut [f64],
        indices: &mut [usize],
        pool: &mut [f64],
    ) -> Result<usize, Refusal>
        ensures { (result, areas cuts.new floats.new indices.new pool.new) ≡ detected true self readings.now (length readings.now ∷ []) (areas cuts.old floats.old indices.old pool.old) }
    {
        let lengths = [readings.len()];
        self.find(true, readings, &lengths, cuts, floats, indices, pool)
    }

    // `detect_multi`, but a reading that is not finite is refused, with its channel and index.
    pub fn detect_multi_strict(
        self,
        readings: &[f64],
        lengths: &[usize],
        cuts: &mut [usize],
        floats: &mut [f64],
        indices: &mut [usize],
        pool: &mut [f64],
    ) -> Result<usize, Refusal>
        ensures { (result, areas cuts.new floats.new indices.new pool.new) ≡ detected true self readings.now lengths.now (areas cuts.old floats.old indices.old pool.old) }
    {
        self.find(true, readings, lengths, cuts, floats, indices, pool)
    }
}
