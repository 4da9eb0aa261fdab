// The stages of the logarithms of plain values, each a loop of its own over the block.
ghost use Rattle.std.specs.Prelude.{◌≡◌, true, map, ◌≤◌, length};
ghost use Rattle.elementary.specs.Logarithm.{ln};
ghost use Rattle.logarithms.specs.Inner.Stages.{plain, Plain, Each, Split, Begun, Ready};

use crate::plain::{exponent, quotient};

// Sets the first of `ratios` to the quotients of `values`, which are plain and at most as many. Cost: one
// turn for each value.
pub(crate) fn quotients(values: &[f64], ratios: &mut [f64])
    requires { (length values.now ≤ length ratios.old) × Plain (length values.now) values.now }
    ensures { Each Split (length values.now) values.now ratios.new }
{
    for (i, value) in values.iter().enumerate() {
        ratios[i] = quotient(*value);
    }
}

// The logarithm of the plain `value`, from its quotient `s` and the `sum` for that quotient.
fn joined(value: f64, s: f64, sum: f64) -> f64
    requires { (plain value ≡ true) × Split value s × Begun 0 s sum }
    ensures { result ≡ ln value }
{
    elementary::ln_last_step(exponent(value), s, sum)
}

// Sets each of `values` to its logarithm, from its quotient in `ratios` and the sum for that in `sums`.
// Cost: one turn for each value.
pub(crate) fn join(values: &mut [f64], ratios: &[f64], sums: &[f64])
    requires { Ready values.old ratios.now sums.now }
    ensures { values.new ≡ map ln values.old }
{
    for i in 0..values.len() {
        values[i] = joined(values[i], ratios[i], sums[i]);
    }
}
