// What the functions make of a case.
ghost use Rattle.std.specs.Prelude.{◌<◌};

use crate::case::{Case, Function};

// The logarithm of `x` by `logarithms`, as the value with the index `place` of 67, which make three
// blocks.
fn ln_among_others(x: f64, place: usize) -> f64
    requires { place < 67 }
{
    let mut values = [2.0; 67];
    values[place] = x;
    logarithms::ln_each(&mut values);
    values[place]
}

// The bit pattern of the logarithm of `x` in both ways: the first one that is not as `case` expects, if
// one is not.
fn ln_both_ways(x: f64, case: Case) -> u64 {
    let alone = floats::to_bits(elementary::ln(x));
    if alone != case.expected {
        return alone;
    }
    floats::to_bits(ln_among_others(x, (case.x % 67) as usize))
}

// The bit pattern of what the function of `case` makes of its numbers.
pub(crate) fn result_of(case: Case) -> u64 {
    let x = floats::from_bits(case.x);
    let y = floats::from_bits(case.n);
    match case.function {
        Function::Sqrt => floats::to_bits(elementary::sqrt(x)),
        Function::Powi => floats::to_bits(elementary::powi(x, case.n)),
        Function::Ln => ln_both_ways(x, case),
        Function::Max => floats::to_bits(floats::max(x, y)),
        Function::Min => floats::to_bits(floats::min(x, y)),
        Function::Abs => floats::to_bits(floats::abs(x)),
        Function::Finite => floats::to_bits(if floats::finite(x) { 1.0 } else { 0.0 }),
    }
}
