// A value that is finite and above zero, as a whole significand of 53 digits and a power of two.
ghost use Rattle.std.specs.Prelude.{◌≡◌, ◌*◌, ◌^◌, ◌<◌, ◌≤◌, false};
ghost use Rattle.std.specs.Float.{binary64};
ghost use Rattle.std.specs.Float.Ieee.{units};
ghost use Rattle.elementary.specs.Inner.Parts.{Scaled, count_of};

// A value, as `significand` * 2^`power` * 2^-2148.
#[derive(Clone, Copy)]
pub(crate) struct Parts {
    pub(crate) significand: u64,
    pub(crate) power: u64,
}

// The parts of the subnormal value `count` * 2^-1074. Cost: one turn for each binary digit that `count`
// has less than 53.
fn widened(count: u64) -> Parts
    requires { (0 < count) × (count < 2 ^ 52) }
    ensures { Scaled result.significand result.power × (result.significand * 2 ^ result.power ≡ count * 2 ^ 1074) }
{
    let mut significand = count;
    let mut doublings = 0u64;
    while significand < 0x10_0000_0000_0000 {
        significand = significand + significand;
        doublings += 1;
    }
    Parts {
        significand,
        power: 1074 - doublings,
    }
}

// The parts of the value with the bit pattern `pattern`, which is finite and above zero.
pub(crate) fn parts_of(pattern: u64) -> Parts
    requires { (0 < pattern) × (pattern < 2047 * 2 ^ 52) }
    ensures { Scaled result.significand result.power × (result.significand * 2 ^ result.power ≡ count_of pattern * 2 ^ 1074) }
{
    if pattern < 0x10_0000_0000_0000 {
        widened(pattern)
    } else {
        Parts {
            significand: pattern % 0x10_0000_0000_0000 + 0x10_0000_0000_0000,
            power: pattern / 0x10_0000_0000_0000 + 1073,
        }
    }
}

// The value `significand` * 2^`places` * 2^-1074.
pub(crate) fn placed(significand: u64, places: u64) -> f64
    requires { (2 ^ 52 ≤ significand) × (significand ≤ 2 ^ 53) × (places ≤ 2044) }
    ensures { result ≡ units binary64 false significand places }
{
    f64::from_bits(places * 0x10_0000_0000_0000 + significand)
}
