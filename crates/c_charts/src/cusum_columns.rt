// The records of a CUSUM chart, an array for each field.
ghost use Rattle.std.specs.Prelude.{◌≡◌};
ghost use Rattle.c_charts.specs.CusumColumns.{cusum_arrays};

use crate::columns::{Columns, walk};
use crate::shortest;
use c_answers::Counted;
use cusum::{Cusum, CusumResult};

#[derive(Drop)]
struct CusumColumns<'a> {
    s_upper: &'a mut [f64],
    s_lower: &'a mut [f64],
    side: &'a mut [u8],
    index: &'a mut [usize],
}

impl Columns<CusumResult> for CusumColumns<'_> {
    ghost use Rattle.std.proofs.Common.{rules};
    ghost use Rattle.c_charts.specs.Inner.CusumPut.{room_in, put_in};

    ghost room = { room_in };

    ghost put = { put_in };

    ghost keeps = { λ s i row. Prim.search rules };

    fn room(&self) -> usize {
        shortest(
            self.s_upper.len(),
            self.s_lower.len(),
            self.side.len(),
            self.index.len(),
        )
    }

    #[tactic(auto, unfolding(crate::specs::Columns::shorter, crate::specs::Columns::shortest))]
    fn put(&mut self, i: usize, row: CusumResult) {
        self.s_upper[i] = row.s_upper;
        self.s_lower[i] = row.s_lower;
        self.side[i] = u8::from(row.side);
        self.index[i] = row.index.0;
    }
}

// Writes, for each reading of `data`, both sums to `s_upper` and `s_lower`, the number of its side to
// `side`, and the reading's index to `index`; the rest of each array is left. Cost: one step for each
// reading.
pub fn cusum_analyze(
    chart: Cusum,
    data: &[f64],
    s_upper: &mut [f64],
    s_lower: &mut [f64],
    side: &mut [u8],
    index: &mut [usize],
) -> Counted
    ensures { (result, s_upper.new, s_lower.new, side.new, index.new) ≡ cusum_arrays chart «data».now s_upper.old s_lower.old side.old index.old }
{
    let mut columns = CusumColumns {
        s_upper,
        s_lower,
        side,
        index,
    };
    walk(chart, data, &mut columns)
}
