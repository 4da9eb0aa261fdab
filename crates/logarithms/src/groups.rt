// The sums of 16 ratios side by side. A turn of a sum waits for the one before it, and the turns of the
// other fifteen fill the wait.
ghost use Rattle.std.specs.Prelude.{◌≡◌, ◌+◌, ◌≤◌, length, get_or};
ghost use Rattle.std.specs.Float.{nan};
ghost use Rattle.floats.specs.Numbers.{◌+ᶠ◌, ◌*ᶠ◌};
ghost use Rattle.logarithms.specs.Inner.Stages.{Begun, Each, Filled, Put};

use std::array::from_fn;

// The 16 values `values[place..place + 16]`.
fn group_at(values: &[f64], place: usize) -> [f64; 16]
    requires { (place ≤ 4096) × (place + 16 ≤ length values.now) }
    ensures { Filled (λ k. get_or values.now (place + k) nan) 16 result }
{
    from_fn(|k| values[place + k])
}

// The square of each of the 16 `ratios`.
fn squared(ratios: [f64; 16]) -> [f64; 16]
    ensures { Filled (λ k. get_or ratios k nan *ᶠ get_or ratios k nan) 16 result }
{
    from_fn(|k| ratios[k] * ratios[k])
}

// One turn of 16 sums: each of `sums` times its square of `squares`, and `term` added.
fn turned(sums: [f64; 16], squares: [f64; 16], term: f64) -> [f64; 16]
    ensures { Filled (λ k. get_or sums k nan *ᶠ get_or squares k nan +ᶠ term) 16 result }
{
    from_fn(|k| sums[k] * squares[k] + term)
}

// The sum for each of the 16 `ratios`, in ten turns.
fn sums_of(ratios: [f64; 16]) -> [f64; 16]
    ensures { Each (Begun 0) 16 ratios result }
{
    let z = squared(ratios);
    let p = [1.0 / 21.0; 16];
    let p = turned(p, z, 1.0 / 19.0);
    let p = turned(p, z, 1.0 / 17.0);
    let p = turned(p, z, 1.0 / 15.0);
    let p = turned(p, z, 1.0 / 13.0);
    let p = turned(p, z, 1.0 / 11.0);
    let p = turned(p, z, 1.0 / 9.0);
    let p = turned(p, z, 1.0 / 7.0);
    let p = turned(p, z, 1.0 / 5.0);
    let p = turned(p, z, 1.0 / 3.0);
    turned(p, z, 1.0)
}

// Sets `values[place..place + 16]` to `group`. With `copy_from_slice` of the part `ln_each` took 1.25
// times as long.
fn put_group(values: &mut [f64], place: usize, group: [f64; 16])
    requires { (place ≤ 4096) × (place + 16 ≤ length values.old) }
    ensures { Put place 16 group values.old values.new }
{
    for k in 0..16 {
        values[place + k] = group[k];
    }
}

// Sets `sums[..count]` to the sums for `ratios[..count]`, and the rest of the last group of 16 to those
// for the ratios there. Cost: one turn for every 16. The count stays beside the arrays: over slices of whole
// groups `ln_each` took 1.2 times as long.
pub(crate) fn sum_up(ratios: &[f64; 32], sums: &mut [f64; 32], count: usize)
    requires { count ≤ 32 }
    ensures { Each (Begun 0) count ratios.now sums.new }
{
    for group in 0..count.div_ceil(16) {
        let place = 16 * group;
        put_group(sums, place, sums_of(group_at(ratios, place)));
    }
}
