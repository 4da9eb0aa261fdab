// Between values and bit patterns: every NaN pattern is NaN, and NaN has one pattern.
ghost use Rattle.std.specs.Prelude.{◌≡◌};
ghost use Rattle.std.specs.Float.{binary64};
ghost use Rattle.std.specs.Float.Ieee.{of_bits, to_bits};

// The value whose bit pattern is `pattern`: NaN for every pattern of a NaN.
pub fn from_bits(pattern: u64) -> f64
    ensures { result ≡ of_bits binary64 pattern }
{
    if 0x7ff0_0000_0000_0000 < pattern % 0x8000_0000_0000_0000 {
        return 0.0 / 0.0;
    }
    f64::from_bits(pattern)
}

// The bit pattern of `x`, which for NaN is 0x7ff8_0000_0000_0000.
pub fn to_bits(x: f64) -> u64
    ensures { result ≡ to_bits binary64 x }
{
    if x != x {
        return 0x7ff8_0000_0000_0000;
    }
    f64::to_bits(x)
}
