// Little-endian numbers in byte slices: unsigned of 16, 32 and 64 bits and signed of 32 bits, read, and those up to 32 bits written.
#![tactic(auto)]

ghost use Rattle.std.specs.Prelude.{◌≡◌, ◌+◌, ◌≤◌, ◌<◌, ◌++◌, length, drop};
ghost use Rattle.fields.specs.LittleEndian.{number_at, bytes_of};
ghost use Rattle.fields.specs.TwosComplement.{signed_of, signed_at, pattern_of};
ghost use Rattle.fields.specs.inner.Biased.{patterns, unbiased};

// What a signed number of 32 bits is kept above itself, so that it has no sign: half of the patterns of 32 bits.
pub const BIAS: u64 = 2147483648;

// How many patterns 32 bits have.
pub const PATTERNS: u64 = 2 * BIAS;

// The unsigned number of two bytes from `at` on.
pub fn u16_at(s: &[u8], at: usize) -> usize
    requires { at + 2 ≤ length s.now }
    ensures { (result ≡ number_at 2 s.now at) × (result < 65536) }
{
    u16::from_le_bytes([s[at], s[at + 1]]) as usize
}

// The unsigned number of four bytes from `at` on.
pub fn u32_at(s: &[u8], at: usize) -> u32
    requires { at + 4 ≤ length s.now }
    ensures { result ≡ number_at 4 s.now at }
{
    u32::from_le_bytes([s[at], s[at + 1], s[at + 2], s[at + 3]])
}

// The unsigned number of eight bytes from `at` on.
pub fn u64_at(s: &[u8], at: usize) -> u64
    requires { at + 8 ≤ length s.now }
    ensures { result ≡ number_at 8 s.now at }
{
    u64::from_le_bytes([
        s[at],
        s[at + 1],
        s[at + 2],
        s[at + 3],
        s[at + 4],
        s[at + 5],
        s[at + 6],
        s[at + 7],
    ])
}

// The pattern of 32 bits of a number.
pub fn pattern(x: i32) -> u32
    ensures { result ≡ pattern_of 4 x }
{
    x.cast_unsigned()
}

// The number that a pattern of 32 bits stands for in two's complement, kept without a sign.
pub fn biased(pattern: u32) -> u64
    ensures { (unbiased result ≡ signed_of 4 pattern) × (result < patterns) }
{
    ((pattern as u64) + BIAS) % PATTERNS
}

// The signed number of four bytes from `at` on.
pub fn i32_at(s: &[u8], at: usize) -> i32
    requires { at + 4 ≤ length s.now }
    ensures { result ≡ signed_at 4 s.now at }
{
    u32_at(s, at).cast_signed()
}

// Writes a number of 16 bits over the two bytes at the front of a lent part.
pub fn put_u16(t: &mut [u8], x: usize)
    requires { (2 ≤ length t.old) × (x < 65536) }
    ensures { t.new ≡ bytes_of 2 x ++ drop 2 t.old }
{
    t[..2].copy_from_slice(&(x as u16).to_le_bytes());
}

// Writes a number of 32 bits over the four bytes at the front of a lent part.
pub fn put_u32(t: &mut [u8], x: u32)
    requires { 4 ≤ length t.old }
    ensures { t.new ≡ bytes_of 4 x ++ drop 4 t.old }
{
    t[..4].copy_from_slice(&x.to_le_bytes());
}
