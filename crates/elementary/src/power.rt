// Powers with a whole exponent.
ghost use Rattle.std.specs.Prelude.{◌≡◌};
ghost use Rattle.elementary.specs.Power.{powi};

// `x` to the power `n`, by right-to-left squaring. Cost: one turn for each binary digit of `n`.
pub fn powi(x: f64, n: u64) -> f64
    ensures { result ≡ powi x n }
{
    let mut result = 1.0;
    let mut base = x;
    let mut rest = n;
    while 0 < rest {
        let factor = base;
        let bit = rest % 2;
        base = base * base;
        rest = rest / 2;
        if bit == 1 {
            result = result * factor;
        }
    }
    result
}
