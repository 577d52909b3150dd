// Marks as bits, in 2,048 bytes: a word of 8 bytes for each of 256 rows, the lowest byte first, with a bit for each of 64 parts.
// Parts are marked one after another: a word in which the bit of a part is put keeps those of the lower parts, and the bits of the
// higher ones, which are not made yet, are 0.
#![tactic(auto)]

pub mod bits;
pub mod parts;
pub mod rows;
