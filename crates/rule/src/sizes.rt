// The sizes at the front of a rule sheet.
ghost use Rattle.std.specs.Prelude.{◌≡◌};
ghost use Rattle.rule.specs.inner.Sizes.{sizes_of};

const MOST_PARTS: usize = 64;

const MOST_CHANNELS: usize = 8;

// Where the kind bytes begin, behind the two sizes.
pub const KINDS_AT: usize = 4;

// A part has a kind byte and an operand.
const PART_BYTES: usize = 13;

// The number of parts, N, and of channels, V.
#[derive(Clone, Copy)]
pub struct Sizes {
    pub parts: usize,
    pub channels: usize,
}

// The sizes, where they and the length are right.
pub fn read_sizes(sheet: &[u8]) -> Option<Sizes>
    ensures { result ≡ sizes_of sheet.now }
{
    if sheet.len() < KINDS_AT {
        return None;
    }
    let n = fields::u16_at(sheet, 0);
    let v = fields::u16_at(sheet, 2);
    if ((1 <= n) & (n <= MOST_PARTS))
        & (((1 <= v) & (v <= MOST_CHANNELS)) & (sheet.len() == KINDS_AT + PART_BYTES * n))
    {
        Some(Sizes {
            parts: n,
            channels: v,
        })
    } else {
        None
    }
}
