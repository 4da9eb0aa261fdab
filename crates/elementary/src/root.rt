// The square root, correctly rounded: a guess in floats, which an exact check in whole numbers
// settles, and the root digit by digit where the check does not pass.
ghost use Rattle.std.specs.Prelude.{◌≡◌, ◌+◌, ◌*◌, ◌^◌, ◌<◌, ◌≤◌};
ghost use Rattle.elementary.specs.Root.{sqrt, near_root};
ghost use Rattle.elementary.specs.Inner.Parts.{Near, Scaled, count_of};

use crate::parts::{parts_of, placed};

// The root of `square` * 2^52 as a whole number, rounded to the nearest: a binary digit a turn, the
// highest first, 53 turns. `weight` is that of the last digit found, and `rest` is
// `2 * (square * 2^52 - root * root) / weight`. The next digit is 1 where `trial` is at most `rest`. The
// sign of the difference decides that, with no branch, which would be guessed wrong every other turn.
fn root_by_digits(square: u64) -> u64
    requires { (2 ^ 52 ≤ square) × (square < 2 ^ 54) }
    ensures { Near (square * 2 ^ 52) result }
{
    let mut weight = 0x20_0000_0000_0000u64;
    let mut root = 0u64;
    let mut rest = square;
    for _turn in 0..53u64 {
        weight = weight / 2;
        let trial = 2 * root + weight;
        let difference = std::num::wrapping_sub_u64(rest, trial);
        let sign = difference / 0x8000_0000_0000_0000;
        rest = std::num::wrapping_add_u64(difference, sign * trial);
        root += weight - sign * weight;
        rest = rest + rest;
    }
    if rest <= 2 * root { root } else { root + 1 }
}

// A guess at the root of `x`, whose bit pattern is `pattern`: a guess at 1 / √x from half the pattern,
// two of Newton's steps, and for √x one of the next order. Nothing rests on how good it is.
fn guess(x: f64, pattern: u64) -> f64
    requires { pattern < 2047 * 2 ^ 52 }
{
    let y = f64::from_bits(0x5fe3_ffff_2000_0000 - pattern / 2);
    let y1 = 1.68191391 * y - 0.703952253 * x * y * (y * y);
    let y2 = 1.5 * y1 - 0.5 * x * y1 * (y1 * y1);
    let root = x * y2;
    let error = 1.0 - root * y2;
    root + root * error * (0.5 + 0.375 * error)
}

// The root of `guess` * `guess` + `distance` as a whole number, rounded to the nearest: `guess`,
// `guess + 1` or `guess + 2`.
fn beside(guess: u64, distance: u64) -> u64
    requires small { guess ≤ 2 ^ 53 }
    requires close { distance ≤ 5 * guess + 6 }
    requires some { 0 < guess * guess + distance }
    ensures { Near (guess * guess + distance) result }
{
    guess + u64::from(guess < distance) + u64::from(3 * guess + 2 < distance)
}

// The root of `square` * 2^52 as a whole number, rounded to the nearest: `guess`, `guess + 1` or
// `guess + 2`, where the distance of `guess * guess` to `square` * 2^52 says so, and otherwise by the
// digits. The guess is upper * 2^27 + lower, and the distance is found in three steps, each within 64
// bits.
fn settled(square: u64, guess: u64) -> u64
    requires { (2 ^ 52 ≤ square) × (square < 2 ^ 54) }
    ensures { Near (square * 2 ^ 52) result }
{
    if guess <= 0x20_0000_0000_0000 {
        let upper = guess / 0x800_0000;
        let lower = guess % 0x800_0000;
        let high = std::num::wrapping_sub_u64(square, upper * upper * 4);
        if high < 0x80_0000_0000 {
            let middle = std::num::wrapping_sub_u64(high * 0x100_0000, upper * lower);
            if middle < 0x8_0000_0000 {
                let distance = std::num::wrapping_sub_u64(middle * 0x1000_0000, lower * lower);
                if distance <= 5 * guess + 6 {
                    return beside(guess, distance);
                }
            }
        }
    }
    root_by_digits(square)
}

// The same from a `guess` at the root as a float, whose bit pattern is `places` * 2^52 more than the
// root. `settled` is given 1 less, since it does not settle a guess above the root.
fn guessed(square: u64, guess: f64, places: u64) -> u64
    requires { (2 ^ 52 ≤ square) × (square < 2 ^ 54) × (places ≤ 2044) }
    ensures { Near (square * 2 ^ 52) result }
{
    if guess < 1.0e200 {
        settled(
            square,
            std::num::wrapping_sub_u64(f64::to_bits(guess), places * 0x10_0000_0000_0000 + 1),
        )
    } else {
        root_by_digits(square)
    }
}

// The float nearest to the root of `significand` * 2^`power`, both counted in units of 2^-1074, for a
// `significand` of 53 digits; `guess` and `places` are those of `guessed`.
fn rooted(significand: u64, power: u64, guess: f64, places: u64) -> f64
    requires { Scaled significand power × (places ≤ 2044) }
    ensures { result ≡ near_root (significand * 2 ^ power) }
{
    let spare = power - 52;
    let root = guessed(significand + significand * (spare % 2), guess, places);
    placed(root, spare / 2)
}

// The root of the value with the bit pattern `pattern`, finite and above zero, at the ends of the range,
// where a guess at the value's own root would be subnormal on the way: the guess is at the root of the
// significand.
fn at_the_ends(pattern: u64) -> f64
    requires { (0 < pattern) × (pattern < 2047 * 2 ^ 52) }
    ensures { result ≡ near_root (count_of pattern * 2 ^ 1074) }
{
    let parts = parts_of(pattern);
    let significand = parts.significand;
    let power = parts.power;
    let near_one = (1022 + (power - 52) % 2) * 0x10_0000_0000_0000 + significand;
    rooted(
        significand,
        power,
        guess(f64::from_bits(near_one), near_one),
        1022,
    )
}

// The square root of `x`, rounded to the nearest: `x` itself for either zero and for +infinity, and NaN
// for NaN and negatives.
pub fn sqrt(x: f64) -> f64
    ensures { result ≡ sqrt x }
{
    if 0.0 < x {
        let pattern = f64::to_bits(x);
        if std::num::wrapping_sub_u64(pattern, 0x10_0000_0000_0000) < 0x7d00_0000_0000_0000 {
            let exponent = pattern / 0x10_0000_0000_0000;
            let significand = pattern % 0x10_0000_0000_0000 + 0x10_0000_0000_0000;
            rooted(
                significand,
                exponent + 1073,
                guess(x, pattern),
                (exponent + 1021) / 2,
            )
        } else {
            if pattern < 0x7ff0_0000_0000_0000 {
                at_the_ends(pattern)
            } else {
                x
            }
        }
    } else {
        if x == 0.0 { x } else { 0.0 / 0.0 }
    }
}
