// The records of an EWMA chart, an array for each field.
ghost use Rattle.std.specs.Prelude.{◌≡◌};
ghost use Rattle.c_charts.specs.EwmaColumns.{ewma_arrays};

use crate::columns::{Columns, walk};
use crate::editions::chart_of;
use crate::{EwmaSettings, shorter, shortest};
use c_answers::Counted;
use ewma::EwmaResult;
use refusals::Refusal;

#[derive(Drop)]
struct EwmaColumns<'a> {
    ewma: &'a mut [f64],
    ucl: &'a mut [f64],
    lcl: &'a mut [f64],
    side: &'a mut [u8],
    index: &'a mut [usize],
}

impl Columns<EwmaResult> for EwmaColumns<'_> {
    ghost use Rattle.std.proofs.Common.{rules};
    ghost use Rattle.c_charts.specs.Inner.EwmaPut.{room_in, put_in};

    ghost room = { room_in };

    ghost put = { put_in };

    ghost keeps = { λ s i row. Prim.search rules };

    fn room(&self) -> usize {
        shortest(
            shorter(self.ewma.len(), self.ucl.len()),
            self.lcl.len(),
            self.side.len(),
            self.index.len(),
        )
    }

    #[tactic(auto, unfolding(crate::specs::Columns::shorter, crate::specs::Columns::shortest))]
    fn put(&mut self, i: usize, row: EwmaResult) {
        self.ewma[i] = row.ewma;
        self.ucl[i] = row.ucl;
        self.lcl[i] = row.lcl;
        self.side[i] = u8::from(row.side);
        self.index[i] = row.index.0;
    }
}

// Writes, for each reading of `data` on the chart that `asked` stands for, the statistic to `ewma`, the
// limits to `ucl` and `lcl`, the number of its side to `side`, and the reading's index to `index`; the
// rest of each array is left. Cost: one step for each reading.
pub fn ewma_analyze(
    asked: EwmaSettings,
    data: &[f64],
    ewma: &mut [f64],
    ucl: &mut [f64],
    lcl: &mut [f64],
    side: &mut [u8],
    index: &mut [usize],
) -> Counted
    ensures { (result, ewma.new, ucl.new, lcl.new, side.new, index.new) ≡ ewma_arrays asked «data».now ewma.old ucl.old lcl.old side.old index.old }
{
    let Some(chart) = chart_of(asked) else {
        return c_answers::answered(Err(Refusal::Form));
    };
    let mut columns = EwmaColumns {
        ewma,
        ucl,
        lcl,
        side,
        index,
    };
    walk(chart, data, &mut columns)
}
