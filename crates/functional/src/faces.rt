// The balls with which a new candidate faces those before it.
ghost use Rattle.std.specs.Prelude.{◌≡◌, ◌+◌, ◌≤◌, ◌<◌, length};
ghost use Rattle.search_rules.specs.Functional.{facing, centre_along};
ghost use Rattle.functional.specs.Inner.Held.{Sound, task, tau_at, put_facing, AllBelow, Mapped};

use crate::slots::put_facing;
use crate::{Entry, Plan, Slot};
use costs::{CostFunction, cost_of};
use search_rules::{Facing, slack_of};

impl Plan<'_> {
    // The mean of the readings from index `a` up to `b` along `channel`, less the channel's mean.
    fn centre_along(self, channel: usize, a: usize, b: usize) -> f64
        requires { Sound self × (channel < self.channels) × (a < b) × (b ≤ self.n) }
        ensures { result ≡ centre_along (task self.entry) channel a b }
    {
        let place = channel * (2 * (self.n + 1));
        (self.sums[place + b] - self.sums[place + a]) / (((b - a) as u32) as f64)
    }

    // What `b` means to the candidate `a`: the centre of the two balls, and the squares of their radii.
    // F stands in `f`.
    fn face(self, f: &[f64], a: usize, b: usize) -> Facing
        requires { Sound self × (length f.now ≡ self.n + 1) × (a < b) × (b ≤ self.n) }
        ensures { result ≡ facing (task self.entry) f.now a b }
    {
        let fa = f[a];
        let fb = f[b];
        let cost = cost_of(CostFunction::L2, self.sums, self.n, self.channels, a, b);
        let length = ((b - a) as u32) as f64;
        let gap = (fb - fa - cost) / length;
        let slack = slack_of(fb, fa, cost, self.penalty, length);
        let cx = self.centre_along(0, a, b);
        let cy = if self.channels == 1 {
            0.0
        } else {
            self.centre_along(1, a, b)
        };
        Facing {
            cx,
            cy,
            outer: gap + slack,
            inner: gap - slack,
        }
    }
}

// Puts into the slot of each living candidate what `b` means to it. Cost: one turn for each candidate.
pub(crate) fn face_all(plan: Plan, f: &[f64], entries: &[Entry], slots: &mut [Slot], b: usize)
    requires { Sound plan × (length f.now ≡ plan.n + 1) × (b ≤ plan.n) × (length entries.now ≡ length slots.old) × AllBelow b entries.now (length entries.now) }
    ensures { Mapped (λ i slot. put_facing slot (facing (task plan.entry) f.now (tau_at entries.now i) b)) slots.old slots.new (length slots.old) }
{
    // The entries by index: after a zip with iter_mut nothing would be known of the slots.
    for (j, slot) in slots.iter_mut().enumerate() {
        let [a, _] = entries[j];
        put_facing(slot, plan.face(f, a, b));
    }
}
