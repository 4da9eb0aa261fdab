// Plain values, which are finite and above the largest subnormal one: whether a value is plain, and the
// exponent and the quotient that its logarithm is made of.
ghost use Rattle.std.specs.Prelude.{◌≡◌, true, length, count_by};
ghost use Rattle.logarithms.specs.Inner.Stages.{plain, Plain, carried_of, exponent_of, quotient_of};

// Whether `value` is plain.
fn is_plain(value: f64) -> bool
    ensures { result ≡ plain value }
{
    (f64::from_bits(0x000f_ffff_ffff_ffff) < value)
        & (value < f64::from_bits(0x7ff0_0000_0000_0000))
}

// How many of `values` are plain. Cost: one turn for each, without a branch. A chain of `filter` and
// `count` made `ln_each` take 1.04 times as long.
fn plain_count(values: &[f64]) -> usize
    ensures { result ≡ count_by plain values.now }
{
    let mut found = 0;
    for value in values {
        if is_plain(*value) {
            found += 1;
        }
    }
    found
}

// Whether all `values` are plain. All are counted, and none is returned at, since a loop without a
// branch is the faster one.
pub(crate) fn all_plain(values: &[f64]) -> bool
    ensures { result ≡ true → Plain (length values.now) values.now }
{
    plain_count(values) == values.len()
}

// The bit pattern of the plain `value`, with a sum that carries into the exponent exactly where the
// significand is above 1.4142135623730951.
fn carried(value: f64) -> u64
    requires { plain value ≡ true }
    ensures { result ≡ carried_of value }
{
    f64::to_bits(value) + 0x0009_5f61_9980_c432
}

// The e of the plain `value` M * 2^e, with an M that is halved where it is above 1.4142135623730951.
pub(crate) fn exponent(value: f64) -> f64
    requires { plain value ≡ true }
    ensures { result ≡ exponent_of value }
{
    ((carried(value) / 0x10_0000_0000_0000 + 1073) as i32 - 2096) as f64
}

// (M - 1) / (M + 1) of the plain `value` M * 2^e, with the M of `exponent`.
pub(crate) fn quotient(value: f64) -> f64
    requires { plain value ≡ true }
    ensures { result ≡ quotient_of value }
{
    let m = f64::from_bits(carried(value) % 0x10_0000_0000_0000 + 0x3fe6_a09e_667f_3bce);
    (m - 1.0) / (m + 1.0)
}
