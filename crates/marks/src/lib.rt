// What the marks of a table have to be: the equations of operators, closing, witnesses, and refusals 9 to 11 of a part.
#![tactic(auto)]

ghost use Rattle.std.specs.Prelude.{◌≡◌, ◌-◌, ◌≤◌, ◌<◌};
ghost use Rattle.plan.specs.inner.Sizes.{all_rows};
ghost use Rattle.table.specs.Layout.{marked, witness_of};
ghost use Rattle.table.specs.inner.Tables.{Sized};

use plan::sizes::Sizes;
use table::bytes::{mark_at, witness_at};

pub mod closing;
pub mod equations;
pub mod operators;
pub mod refusals;
pub mod stretches;
pub mod witness;

// The bytes of a mark table of so many parts, over a plan of these sizes.
#[derive(Clone, Copy)]
pub struct Table<'a> {
    pub bytes: &'a [u8],
    pub parts: usize,
    pub sizes: Sizes,
    pub ghost sized: { Sized bytes.now parts (all_rows sizes) },
    pub ghost a_cycle: { 1 ≤ sizes.cycle },
}

impl<'a> Table<'a> {
    // The mark of a part on a row.
    pub fn mark_at(&self, part: usize, row: usize) -> bool
        requires { (part < self.now.parts) × (row < all_rows self.now.sizes) }
        ensures { result ≡ marked (all_rows self.now.sizes) self.now.bytes.now part row }
    {
        mark_at(self.bytes, self.parts, self.rows(), part, row)
    }

    // Its mark on row W - 1.
    pub fn last_mark(&self, part: usize) -> bool
        requires { part < self.now.parts }
        ensures { result ≡ marked (all_rows self.now.sizes) self.now.bytes.now part (all_rows self.now.sizes - 1) }
    {
        self.mark_at(part, self.rows() - 1)
    }

    // Its witness.
    pub fn witness_at(&self, part: usize) -> usize
        requires { part < self.now.parts }
        ensures { result ≡ witness_of self.now.parts (all_rows self.now.sizes) self.now.bytes.now part }
    {
        witness_at(self.bytes, self.parts, self.rows(), part)
    }

    // How many rows it has.
    pub fn rows(&self) -> usize
        ensures { result ≡ all_rows self.now.sizes }
    {
        self.sizes.start + self.sizes.cycle
    }
}
