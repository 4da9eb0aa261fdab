// The smaller of two values.
ghost use Rattle.std.specs.Prelude.{◌≡◌};
ghost use Rattle.floats.specs.MaxMin.{smaller};

// The smaller of `x` and `y`: the other one where one is NaN, and `x` where they are equal. Its twin `max`
// differs in one test; one function of both would take that test as a closure, and be no plainer.
pub fn min(x: f64, y: f64) -> f64
    ensures { result ≡ smaller x y }
{
    if y < x {
        return y;
    }
    if x != x {
        return y;
    }
    x
}
