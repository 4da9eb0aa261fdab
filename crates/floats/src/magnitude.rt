// Whether a value is finite, and its magnitude.
ghost use Rattle.std.specs.Prelude.{◌≡◌};
ghost use Rattle.floats.specs.Finite.{finite, abs};

// Whether `x` is neither NaN nor an infinity.
pub fn finite(x: f64) -> bool
    ensures { result ≡ finite x }
{
    if x < f64::from_bits(0x7ff0_0000_0000_0000) {
        return f64::from_bits(0xfff0_0000_0000_0000) < x;
    }
    false
}

// The magnitude of `x`: +0 for either zero, and NaN for NaN.
pub fn abs(x: f64) -> f64
    ensures { result ≡ abs x }
{
    if x < 0.0 {
        return -x;
    }
    if x == 0.0 {
        return 0.0;
    }
    x
}
