// How far rounding may move the difference between F at two candidates.
ghost use Rattle.std.specs.Prelude.{◌≡◌};
ghost use Rattle.search_rules.specs.Functional.{slack_of};

use floats::abs;

// The slack between two candidates `span` readings apart,
// `1e-9 * (|fb| + |fa| + |cost| + penalty) / span`: `fb` and `fa` are F at the later and at the earlier
// one, and `cost` is the cost of the readings between them.
pub fn slack_of(fb: f64, fa: f64, cost: f64, penalty: f64, span: f64) -> f64
    ensures { result ≡ slack_of fb fa cost penalty span }
{
    0.000000001 * (abs(fb) + abs(fa) + abs(cost) + penalty) / span
}
