// The larger of two values.
ghost use Rattle.std.specs.Prelude.{◌≡◌};
ghost use Rattle.floats.specs.MaxMin.{larger};

// The larger of `x` and `y`: the other one where one is NaN, and `x` where they are equal. Its twin `min`
// differs in one test; one function of both would take that test as a closure, and be no plainer.
pub fn max(x: f64, y: f64) -> f64
    ensures { result ≡ larger x y }
{
    if x < y {
        return y;
    }
    if x != x {
        return y;
    }
    x
}
