// The natural logarithm, by rule 4.3.
ghost use Rattle.std.specs.Prelude.{◌≡◌, ◌<◌, ◌≤◌, pos, ◌-ℤ◌};
ghost use Rattle.std.specs.Float.{binary64};
ghost use Rattle.std.specs.Float.Ieee.{of_int};
ghost use Rattle.floats.specs.Numbers.{◌/ᶠ◌, of_whole};
ghost use Rattle.elementary.specs.Logarithm.{series, last_step, ln_of, ln_scaled, ln};

use crate::parts::{parts_of, placed};

// The sum of `z`^j / (2j + 1) for j from 0 to 10, by Horner's rule from the last term.
fn series(z: f64) -> f64
    ensures { result ≡ series 10 z (of_whole 1 /ᶠ of_whole 21) }
{
    let p = 1.0 / 21.0;
    let p = p * z + 1.0 / 19.0;
    let p = p * z + 1.0 / 17.0;
    let p = p * z + 1.0 / 15.0;
    let p = p * z + 1.0 / 13.0;
    let p = p * z + 1.0 / 11.0;
    let p = p * z + 1.0 / 9.0;
    let p = p * z + 1.0 / 7.0;
    let p = p * z + 1.0 / 5.0;
    let p = p * z + 1.0 / 3.0;
    p * z + 1.0
}

// `power - 2096` as a float.
fn exponent(power: u64) -> f64
    requires { power ≤ 4096 }
    ensures { result ≡ of_int binary64 (pos power -ℤ pos 2096) }
{
    ((power as i32) - 2096) as f64
}

// The last step of the logarithm of M * 2^e, from `e`, from `s`, which is (M - 1) / (M + 1), and from the
// sum `p` for `s`. The two constants are the parts of ln 2: the first is short enough for its product with
// `e` to be exact, and that product is added last, so that what is rounded before it is small.
pub fn ln_last_step(e: f64, s: f64, p: f64) -> f64
    ensures { result ≡ last_step e s p }
{
    let high = f64::from_bits(0x3fe6_2e42_fee0_0000);
    let low = f64::from_bits(0x3dea_39ef_3579_3c76);
    e * high + (2.0 * s * p + e * low)
}

// The logarithm of M * 2^(power - 2096), from `power` and `s`, which is (M - 1) / (M + 1).
fn summed(power: u64, s: f64) -> f64
    requires { power ≤ 4096 }
    ensures { result ≡ ln_of (pos power -ℤ pos 2096) s }
{
    ln_last_step(exponent(power), s, series(s * s))
}

// The logarithm of `m` * 2^(power - 2096), for an `m` in [1, 2).
fn scaled(m: f64, power: u64) -> f64
    requires { power < 4096 }
    ensures { result ≡ ln_scaled m (pos power -ℤ pos 2096) }
{
    if 1.4142135623730951 < m {
        let half = m / 2.0;
        return summed(power + 1, (half - 1.0) / (half + 1.0));
    }
    summed(power, (m - 1.0) / (m + 1.0))
}

// The natural logarithm of `x`: -infinity for either zero, +infinity for +infinity, and NaN for NaN and
// negatives.
pub fn ln(x: f64) -> f64
    ensures { result ≡ ln x }
{
    if 0.0 < x {
        let pattern = f64::to_bits(x);
        if pattern < 0x7ff0_0000_0000_0000 {
            let parts = parts_of(pattern);
            scaled(placed(parts.significand, 1022), parts.power)
        } else {
            x
        }
    } else {
        if x == 0.0 {
            f64::from_bits(0xfff0_0000_0000_0000)
        } else {
            0.0 / 0.0
        }
    }
}
