// Values without a sign, as the magnitudes of differences are: what every look at them rests on. The passes
// that write to a run take the slice itself: a type with a `&mut` in it owes its fact again at each write.
ghost use Rattle.medians.specs.Inner.Ranks.{Each, magnitude};

// The values of a run, none of which has a sign; NaN counts as one without.
#[derive(Clone, Copy)]
pub(crate) struct Magnitudes<'a> {
    pub(crate) values: &'a [f64],
    ghost clear: { Each magnitude values.now },
}
