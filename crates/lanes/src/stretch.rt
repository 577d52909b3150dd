// A stretch of rows that are swept together: two columns in their lanes, and the marks of a part.
ghost use Rattle.std.specs.Prelude.{◌≡◌, ◌+◌, ◌<◌};
ghost use Rattle.fields.specs.inner.Biased.{patterns, unbiased};
ghost use Rattle.table.specs.inner.Tables.{mark_in};
ghost use Rattle.lanes.specs.inner.Columns.{number_in, drift_in, InLanes, InMarks};

use crate::columns::{Column, drift, number};

// The first `count` rows of two columns, and as many marks from `m` on, the k-th of which is the one of the k-th row.
#[derive(Clone, Copy)]
pub struct Stretch<'a> {
    pub values: &'a [u8],
    pub x: Column,
    pub y: Column,
    pub table: &'a [u8],
    pub m: usize,
    pub count: usize,
    pub ghost in_values: { InLanes values.now x y count },
    pub ghost in_marks: { InMarks table.now m count },
}

// The same with the drifts of the rows.
#[derive(Clone, Copy)]
pub struct Lines<'a> {
    pub stretch: Stretch<'a>,
    pub drifts: &'a [u8],
    pub ghost in_drifts: { InLanes drifts.now stretch.x stretch.y stretch.count },
}

impl Stretch<'_> {
    // The mark of a row.
    pub fn mark(&self, k: usize) -> bool
        requires { k < self.now.count }
        ensures { result ≡ mark_in self.now.table.now (self.now.m + k) }
    {
        self.table[self.m + k] == 1
    }

    // Its numbers, kept without a sign.
    pub fn left_number(&self, k: usize) -> u64
        requires { k < self.now.count }
        ensures { (unbiased result ≡ number_in self.now.values.now self.now.x k) × (result < patterns) }
    {
        number(self.values, self.x, k)
    }

    pub fn right_number(&self, k: usize) -> u64
        requires { k < self.now.count }
        ensures { (unbiased result ≡ number_in self.now.values.now self.now.y k) × (result < patterns) }
    {
        number(self.values, self.y, k)
    }
}

impl Lines<'_> {
    // The drifts of a row.
    pub fn left_drift(&self, k: usize) -> u64
        requires { k < self.now.stretch.count }
        ensures { unbiased result ≡ drift_in self.now.drifts.now self.now.stretch.x k }
    {
        drift(self.drifts, self.stretch.x, k)
    }

    pub fn right_drift(&self, k: usize) -> u64
        requires { k < self.now.stretch.count }
        ensures { unbiased result ≡ drift_in self.now.drifts.now self.now.stretch.y k }
    {
        drift(self.drifts, self.stretch.y, k)
    }
}
