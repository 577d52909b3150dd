// A term on a stretch of direct rows: a stretch of its channel's lane under its top, or a constant.
ghost use Rattle.std.specs.Prelude.{◌≡◌, true, ◌+◌, ◌≤◌, ◌<◌, length};
ghost use Rattle.fields.specs.inner.Biased.{patterns, unbiased};
ghost use Rattle.cltlb.specs.Fits.{term_fits};
ghost use Rattle.plan.specs.inner.Sizes.{most_stored, most_array};
ghost use Rattle.lanes.specs.inner.Columns.{number_in, drift_in, IsSide, Reaches, FewChannels, Stands};

use cltlb::Term;
use fields::{BIAS, biased, pattern};
use plan::Plan;
use plan::lookup::entry_at;
use verdict::terms::{code_in, top_in};

// How a term is read: the code of its shift, which is the shift + 4, and the top of its channel, 0 being no top. A constant has the
// code of no shift, and no top.
#[derive(Clone, Copy)]
pub struct Side {
    pub code: usize,
    pub top: u64,
}

// A reading lies in the lanes from an index on; a constant is kept as its pattern of 32 bits.
#[derive(Clone, Copy)]
pub enum Source {
    Lane(usize),
    Fixed(u32),
}

#[derive(Clone, Copy)]
pub struct Column {
    pub source: Source,
    pub top: u64,
}

pub fn side_of(plan: &Plan, term: Term) -> Side
    requires { term_fits plan.now.sizes.channels term ≡ true }
    ensures { IsSide plan.now.bytes.now term result }
{
    Side {
        code: code_in(term),
        top: top_in(plan, term),
    }
}

// The number of a column on its k-th row, kept without a sign.
pub fn number(values: &[u8], column: Column, k: usize) -> u64
    requires { (Reaches values.now column (k + 1)) × (length values.now ≤ most_array) }
    ensures { (unbiased result ≡ number_in values.now column k) × (result < patterns) }
{
    match column.source {
        Source::Lane(from) => entry_at(values, from + k),
        Source::Fixed(pattern) => biased(pattern),
    }
}

// Its drift there; a constant has none.
pub fn drift(drifts: &[u8], column: Column, k: usize) -> u64
    requires { (Reaches drifts.now column (k + 1)) × (length drifts.now ≤ most_array) }
    ensures { unbiased result ≡ drift_in drifts.now column k }
{
    match column.source {
        Source::Lane(from) => entry_at(drifts, from + k),
        Source::Fixed(_) => BIAS,
    }
}

// A term's whole lane, in lanes of `w` rows, its shift left aside.
pub fn lane_of(term: Term, top: u64, w: usize) -> Column
    requires { (1 ≤ w) × (w ≤ most_stored) × (FewChannels term) }
    ensures { (Stands w 0 4 term result) × (result.top ≡ top) }
{
    column_of(term, Side { code: 4, top }, w, 0)
}

// The column of a term that is read so, on the rows from `row` on, in lanes of `w` rows.
pub fn column_of(term: Term, side: Side, w: usize, row: usize) -> Column
    requires { (w ≤ most_stored) × (row < w) × (side.code ≤ 8) × (4 ≤ row + side.code) × (FewChannels term) }
    ensures { (Stands w row side.code term result) × (result.top ≡ side.top) }
{
    let source = match term {
        Term::Constant(z) => Source::Fixed(pattern(z)),
        Term::Reading { channel, shift: _ } => Source::Lane(channel * w + (row + side.code - 4)),
    };
    Column {
        source,
        top: side.top,
    }
}
