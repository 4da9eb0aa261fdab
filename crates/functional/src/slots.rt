// A slot of the pool: 200 floats, of which 4 are a candidate's box, 4 what a new candidate faces it
// with, and three runs of 64 the balls in which it loses.
ghost use Rattle.std.specs.Prelude.{◌≡◌, ◌+◌, ◌*◌, ◌≤◌, length};
ghost use Rattle.candidate_balls.specs.Losing.{losing_balls};
ghost use Rattle.areas.specs.Parts.{part};
ghost use Rattle.functional.specs.Inner.Held.{box_at, facing_at, put_box, put_facing, Copied, Balled};

use crate::{HEADER, Slot};
use candidate::Candidate;
use search_rules::Facing;

// The box in a slot.
#[tactic(auto, unfolding(crate::specs::Inner::Held::box_at))]
pub(crate) fn box_at(slot: &Slot) -> Candidate
    ensures { result ≡ box_at slot.now }
{
    Candidate {
        lo: [slot[0], slot[2]],
        hi: [slot[1], slot[3]],
    }
}

// What the candidate of a slot is faced with.
#[tactic(auto, unfolding(crate::specs::Inner::Held::facing_at))]
pub(crate) fn facing_at(slot: &Slot) -> Facing
    ensures { result ≡ facing_at slot.now }
{
    Facing {
        cx: slot[4],
        cy: slot[5],
        outer: slot[6],
        inner: slot[7],
    }
}

// Stores the box `candidate` in a slot.
#[tactic(auto, unfolding(crate::specs::Inner::Held::put_box, crate::specs::Inner::Held::four_put))]
pub(crate) fn put_box(slot: &mut Slot, candidate: Candidate)
    ensures { slot.new ≡ put_box slot.old candidate }
{
    slot[0] = candidate.lo[0];
    slot[1] = candidate.hi[0];
    slot[2] = candidate.lo[1];
    slot[3] = candidate.hi[1];
}

// Stores in a slot what its candidate is faced with, `x`.
#[tactic(auto, unfolding(crate::specs::Inner::Held::put_facing, crate::specs::Inner::Held::four_put))]
pub(crate) fn put_facing(slot: &mut Slot, x: Facing)
    ensures { slot.new ≡ put_facing slot.old x }
{
    slot[4] = x.cx;
    slot[5] = x.cy;
    slot[6] = x.outer;
    slot[7] = x.inner;
}

// Copies `from[place..place + count]` to the same floats of the balls of a slot. No `copy_from_slice`:
// between two slots of the pool it becomes a call of memmove, and include/overbrindle.h names memcpy and
// memset alone. Cost: one turn for each float.
fn copy_run(slot: &mut Slot, from: &[f64], place: usize, count: usize)
    requires { (place + count ≤ 3 * losing_balls) × (length from.now ≡ 3 * losing_balls) }
    ensures { Copied slot.old slot.new (8 + place) (part from.now place count) count }
{
    let to = HEADER + place;
    for i in 0..count {
        slot[to + i] = from[place + i];
    }
}

// Copies the `count` balls at the front of `from` into a slot; floats behind them are not copied.
pub(crate) fn copy_balls(slot: &mut Slot, from: &[f64], count: usize)
    requires { (length from.now ≡ 3 * losing_balls) × (count ≤ losing_balls) }
    ensures { Balled slot.old slot.new from.now count }
{
    copy_run(slot, from, 0, count);
    copy_run(slot, from, Candidate::SECONDS, count);
    copy_run(slot, from, Candidate::RADII, count);
}
