// The walk back from the end of the readings over the predecessors, the cuts that it meets, and how many
// they are.
ghost use Rattle.std.specs.Prelude.{◌≡◌, length, set};
ghost use Rattle.std.specs.Iterator.{YieldsFirst, item_count};
ghost use Rattle.backtrack.specs.Cuts.{predecessor_of, cuts_of, written};
ghost use Rattle.backtrack.specs.Backtracked.{Backtracked};
ghost use Rattle.backtrack.specs.Inner.Walk.{cuts_back};

// The predecessor of `t` in `indices`, and 0 where there is none that is below `t`: every walk back
// ends.
#[tactic(auto, unfolding(crate::specs::Cuts::predecessor_of))]
fn predecessor(indices: &[usize], t: usize) -> usize
    ensures { result ≡ predecessor_of indices.now t }
{
    match indices.get(t) {
        Some(tau) if *tau < t => *tau,
        _ => 0,
    }
}

// The walk back over `indices` from `t`: the cuts before it, highest first.
#[derive(Drop)]
struct Walk<'a> {
    indices: &'a [usize],
    t: usize,
}

impl<'a> Iterator for Walk<'a> {
    type Item = usize;

    ghost next_gives = { YieldsFirst (λ walk. cuts_back walk.indices.now walk.t) };

    ghost remaining = { item_count (λ walk. cuts_back walk.indices.now walk.t) };

    #[tactic(auto, using(crate::proofs::WalkLaws::back_turn, crate::proofs::WalkLaws::back_end, crate::proofs::WalkLaws::back_over))]
    fn next(&mut self) -> Option<usize> {
        self.t = predecessor(self.indices, self.t);
        if self.t == 0 {
            return None;
        }
        Some(self.t)
    }
}

// Sets `cuts[place]` to `cut` if `place` is below the area's length.
fn put(cuts: &mut [usize], place: usize, cut: usize)
    ensures { cuts.new ≡ set cuts.old place cut }
{
    if place < cuts.len() {
        cuts[place] = cut;
    }
}

// How many cuts the walk back from `n` over `indices` meets. Cost: one turn for each.
#[tactic(auto, using(crate::proofs::WalkLaws::back_at_most))]
fn count_cuts(indices: &[usize], n: usize) -> usize
    ensures { result ≡ length (cuts_back indices.now n) }
{
    Walk { indices, t: n }.count()
}

// Writes the `count` cuts that the walk back from `n` over `indices` meets to the front of `cuts`, as
// far as it has room. The walk meets the highest first, so they are written from the last one down.
// The count stands beside the area and is no slice's length: by the contract of `backtrack` the area may
// have room for fewer. Cost: one turn for each.
#[tactic(auto, using(crate::proofs::WalkLaws::back_cuts, crate::proofs::WrittenLaws::written_turn, crate::proofs::WrittenLaws::written_none))]
fn fill_cuts(indices: &[usize], n: usize, count: usize, cuts: &mut [usize])
    requires { count ≡ length (cuts_back indices.now n) }
    ensures { cuts.new ≡ written (cuts_of indices.now n) cuts.old }
{
    let mut left = count;
    for cut in (Walk { indices, t: n }) {
        left -= 1;
        put(cuts, left, cut);
    }
}

// The number of the cuts of `n` readings, by the predecessors of 0 to `n` at the front of `indices`; the
// cuts themselves, lowest first, are written to the front of `cuts` as far as it has room. With `n`
// indices or fewer there are no cuts. Cost: two walks back with one turn for each cut; a search leaves
// at most n/2.
#[tactic(auto, using(crate::proofs::WalkLaws::back_length))]
pub fn backtrack(indices: &[usize], n: usize, cuts: &mut [usize]) -> usize
    ensures { Backtracked indices.now n cuts.old cuts.new result }
{
    let count = count_cuts(indices, n);
    fill_cuts(indices, n, count, cuts);
    count
}
