// One round's passes: how many values pass a test or have a pivot on either side, and those that pass a
// test moved to the front.
ghost use Rattle.std.specs.Prelude.{◌≡◌, Bool, Float};
ghost use Rattle.medians.specs.Inner.Ranks.{count, count_below};
ghost use Rattle.medians.specs.Inner.Rounds.{Computes, Kept, Counted};

use crate::Counts;

// How many values of `run` pass `test`. `filter` and `count` would take a branch at each value, which is
// guessed wrong every other turn: 4 to 7 times as long on values without order. Cost: one turn for each.
pub(crate) fn count_of<F: Fn(f64) -> bool>(run: &[f64], test: F) -> usize
    requires { F.IsAlwaysCallable test }
    ensures { (p : Float → Bool) → Computes (F.post test) p → result ≡ count p run.now }
{
    let mut count = 0;
    for value in run {
        count += usize::from(test(*value));
    }
    count
}

// How many values of `run` are below `x`.
pub(crate) fn count_below(run: &[f64], x: f64) -> usize
    ensures { result ≡ count_below x run.now }
{
    count_of(run, |value| value < x)
}

// How many values of `run` are below `x`, and how many are not above it; NaN is neither. Both are counted
// in one pass: two passes took 1.65 times as long. Cost: one turn for each value.
pub(crate) fn counts_at(run: &[f64], x: f64) -> Counts
    ensures { Counted x run.now result }
{
    let mut below = 0;
    let mut upto = 0;
    for value in run {
        below += usize::from(*value < x);
        upto += usize::from(*value <= x);
    }
    Counts { below, upto }
}

// Moves the values of `run` that pass `test` to its front, and returns how many they are; the others are
// given up. A value is stored before it is known whether it is one of them, which saves a branch that
// would be guessed wrong every other turn. Cost: one turn for each value.
pub(crate) fn keep<F: Fn(f64) -> bool>(run: &mut [f64], test: F) -> usize
    requires { F.IsAlwaysCallable test }
    ensures { (p : Float → Bool) → Computes (F.post test) p → Kept p run.old run.new result }
{
    let mut kept = 0;
    for i in 0..run.len() {
        let value = run[i];
        run[kept] = value;
        kept += usize::from(test(value));
    }
    kept
}
