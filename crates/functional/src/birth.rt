// A new candidate joins: it faces those before it, they are narrowed and cut, and it comes last.
ghost use Rattle.std.specs.Prelude.{◌≡◌, ◌+◌, ◌≤◌, ◌<◌, length};
ghost use Rattle.candidate_balls.specs.Losing.{losing_balls};
ghost use Rattle.candidate.specs.Balls.{balls_at};
ghost use Rattle.functional.specs.Inner.Held.{Sound, Balls, Sane, AllBelow, Placed, born_from, Met, Borne, Joins};

use crate::faces::face_all;
use crate::losing::lose_all;
use crate::narrowing::{narrow_all, restrict_all};
use crate::slots::{copy_balls, put_box};
use crate::{Balls, Entry, Plan, Slot};
use candidate::Candidate;

// Puts the candidate `tau` into slot `j`: its box `candidate`, and its `balls` balls, which stand at the
// front of `born`.
fn place(
    entries: &mut [Entry],
    slots: &mut [Slot],
    born: &Balls,
    j: usize,
    tau: usize,
    balls: usize,
    candidate: Candidate,
)
    requires { (j < length entries.old) × (j < length slots.old) × (balls ≤ losing_balls) }
    ensures { Placed slots.old slots.new entries.old entries.new born.now j tau balls candidate }
{
    let slot = &mut slots[j];
    copy_balls(slot, born, balls);
    put_box(slot, candidate);
    entries[j] = [tau, balls];
}

// Adds the candidate `b`, whose `balls` balls stand at the front of `born`, to the `kept` others unless
// it is dominated, and says how many there are then. Where no slot is left for it nothing is stored.
fn bear(
    plan: Plan,
    entries: &mut [Entry],
    slots: &mut [Slot],
    born: &Balls,
    kept: usize,
    balls: usize,
    b: usize,
) -> usize
    requires { Sound plan × (kept ≤ plan.n) × (plan.n + 1 ≤ length entries.old) × Balls plan.channels born.now balls (balls_at plan.channels born.now 0 balls) }
    ensures { Borne plan.entry slots.old slots.new entries.old entries.new kept (born_from plan.entry born.now balls b) balls result }
{
    let cut = plan.range.cut_losing(plan.channels, born, 0, balls);
    if cut.is_dominated(plan.channels) {
        return kept;
    }
    if kept < slots.len() {
        place(entries, slots, born, kept, b, balls, cut);
    }
    kept + 1
}

// `b` meets the living candidates: it faces them, its balls are gathered in `born`, and they are narrowed
// and cut. Says how many balls it has, and how many of the others are left.
fn meet(
    plan: Plan,
    f: &[f64],
    entries: &mut [Entry],
    slots: &mut [Slot],
    born: &mut Balls,
    b: usize,
) -> (usize, usize)
    requires { Sound plan × (length f.now ≡ plan.n + 1) × (b ≤ plan.n) × (length entries.old ≡ length slots.old) × AllBelow b entries.old (length entries.old) × Sane plan.channels slots.old entries.old (length slots.old) }
    ensures { Met plan.entry f.now slots.old slots.new entries.old entries.new born.new b result.0 result.1 }
{
    face_all(plan, f, entries, slots, b);
    let balls = lose_all(plan.channels, slots, born);
    restrict_all(plan.channels, entries, slots);
    let kept = narrow_all(plan.channels, entries, slots);
    (balls, kept)
}

// `b` joins the `count` living candidates at the front of the areas, which stay whole here, since it is
// stored behind those that are left; says how many live then. More than the slots means that these do not
// suffice, and the areas then hold nothing of use. Its balls are gathered in `born`.
pub(crate) fn birth(
    plan: Plan,
    f: &[f64],
    entries: &mut [Entry],
    slots: &mut [Slot],
    born: &mut Balls,
    count: usize,
    b: usize,
) -> usize
    requires { Sound plan × (length f.now ≡ plan.n + 1) × (plan.n + 1 ≤ length entries.old) × (b ≤ plan.n) × (count ≤ plan.n) × (count ≤ length slots.old) × AllBelow b entries.old count × Sane plan.channels slots.old entries.old count }
    ensures { Joins plan.entry f.now slots.old slots.new entries.old entries.new count b result }
{
    let (balls, kept) = meet(plan, f, &mut entries[..count], &mut slots[..count], born, b);
    bear(plan, entries, slots, born, kept, balls, b)
}
