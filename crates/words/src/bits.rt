// The bits of a word.
ghost use Rattle.std.specs.Prelude.{◌≡◌, ◌^◌, ◌<◌};
ghost use Rattle.words.specs.inner.Words.{most_parts, bit_of, with_bit};

// The bit of a part.
pub fn bit(word: u64, part: usize) -> bool
    requires { part < most_parts }
    ensures { result ≡ bit_of word part }
{
    (word >> part) % 2 == 1
}

// The word that has the bit of this part alone.
fn one_bit(part: usize) -> u64
    requires { part < most_parts }
    ensures { result ≡ 2 ^ part }
{
    1u64 << part
}

// The bits of the lower parts, and a bit for this one.
pub fn with_bit(word: u64, part: usize, mark: bool) -> u64
    requires { part < most_parts }
    ensures { result ≡ with_bit word part mark }
{
    let one = one_bit(part);
    if mark { word % one + one } else { word % one }
}
