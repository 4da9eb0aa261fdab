// The boxes of the living candidates: narrowed by the new one, cut by their own balls, and moved to the
// front where anything is left.
ghost use Rattle.std.specs.Prelude.{◌≡◌, true, ◌≤◌, ◌<◌, ◌∷◌, [], length, set};
ghost use Rattle.candidate_balls.specs.Losing.{losing_balls};
ghost use Rattle.candidate.specs.Balls.{balls_at};
ghost use Rattle.candidate.specs.Cuts.{cut_losing};
ghost use Rattle.search_rules.specs.Functional.{outer_ball, cut_back};
ghost use Rattle.functional.specs.Inner.Held.{slot_at, box_at, ball_floats, put_box, Brought, Mapped, balls_in, lived_at, Kept, BallsOf, Sane, narrowed_at, Remarked, Settled, Narrowed};

use crate::marks::{marked, remarked, same_box};
use crate::slots::{box_at, copy_balls, facing_at, put_box};
use crate::{Entry, HEADER, MARK, Slot};
use candidate::Candidate;
use candidate_balls::Ball;
use search_rules::Facing;

// The wider of the two balls of `x`; on one channel the second number of its centre is 0. A function
// beside `inner_ball`, since search_rules has a definition of its own for each.
fn outer_ball(x: Facing) -> Ball
    ensures { result ≡ outer_ball x }
{
    Ball {
        centre: [x.cx, x.cy],
        r2: x.outer,
    }
}

// Narrows the box of a slot to where its candidate can still win, and says whether it stayed as it was.
fn restrict_box(slot: &mut Slot, channels: usize) -> bool
    ensures put { slot.new ≡ put_box slot.old (narrowed_at channels slot.old) }
    ensures stays { result ≡ true → narrowed_at channels slot.old ≡ box_at slot.old }
{
    let ball = outer_ball(facing_at(slot));
    let before = box_at(slot);
    let after = before.restrict(channels, ball);
    put_box(slot, after);
    same_box(after, before)
}

// Narrows the box of each living candidate to where it can still win; one whose box does not stay as it
// was loses its mark. Cost: one turn for each candidate.
pub(crate) fn restrict_all(channels: usize, entries: &mut [Entry], slots: &mut [Slot])
    requires { length entries.old ≡ length slots.old }
    ensures { Mapped (λ i slot. put_box slot (narrowed_at channels slot)) slots.old slots.new (length slots.old) × Remarked channels slots.old entries.old entries.new (length slots.old) }
{
    // The entries by index: after a zip with iter_mut nothing would be known of the slots.
    for (j, slot) in slots.iter_mut().enumerate() {
        let stayed = restrict_box(slot, channels);
        let [tau, word] = entries[j];
        entries[j] = [tau, remarked(word, stayed)];
    }
}

// Copies the `count` balls of slot `j` to slot `to`, which is `j` itself or before it.
fn bring_balls(slots: &mut [Slot], to: usize, j: usize, count: usize)
    requires { (to ≤ j) × (j < length slots.old) × (count ≤ losing_balls) }
    ensures { Brought slots.old slots.new to j count }
{
    if to < j {
        let (front, back) = slots.split_at_mut(j);
        let from = &back[0];
        copy_balls(&mut front[to], &from[HEADER..], count);
    }
}

// `before`, the box of `slot`, cut by the balls of the slot. Where its `word` is marked they are known
// to cut nothing.
fn cut_box(slot: &Slot, channels: usize, word: usize, before: Candidate) -> Candidate
    requires { Kept channels slot.now word × (before ≡ box_at slot.now) }
    ensures { result ≡ cut_losing channels (balls_at channels (ball_floats slot.now) 0 (balls_in word)) before }
{
    if MARK <= word {
        return before;
    }
    before.cut_losing(channels, &slot[HEADER..], 0, word)
}

// Cuts candidate `j` by its balls, and moves it to slot `kept` where anything is left of it; says how
// many are kept then.
fn settle(
    channels: usize,
    entries: &mut [Entry],
    slots: &mut [Slot],
    j: usize,
    kept: usize,
) -> usize
    requires { (j < length entries.old) × (j < length slots.old) × (kept ≤ j) × BallsOf channels slots.old entries.old j }
    ensures { Settled channels slots.old slots.new entries.old entries.new kept (cut_back channels (lived_at channels slots.old entries.old j)) result }
{
    let [tau, word] = entries[j];
    let before = box_at(&slots[j]);
    let cut = cut_box(&slots[j], channels, word, before);
    if cut.is_dominated(channels) {
        return kept;
    }
    let balls = word % MARK;
    bring_balls(slots, kept, j, balls);
    put_box(&mut slots[kept], cut);
    entries[kept] = [tau, marked(balls, same_box(before, cut))];
    kept + 1
}

// Cuts each living candidate by its balls, moves those that are left to the front, in their order, and
// says how many they are. Cost: one turn for each candidate.
pub(crate) fn narrow_all(channels: usize, entries: &mut [Entry], slots: &mut [Slot]) -> usize
    requires { (length entries.old ≡ length slots.old) × Sane channels slots.old entries.old (length slots.old) }
    ensures { Narrowed channels slots.old slots.new entries.old entries.new (length slots.old) (length slots.old) result }
{
    let mut kept = 0;
    // By index: a turn reads candidate j and writes one at or before it.
    for j in 0..slots.len() {
        kept = settle(channels, entries, slots, j, kept);
    }
    kept
}
