// Numbers in a frame's payload, lowest byte first, and the bits of floats. No NaN is made or taken apart.
ghost use Rattle.std.specs.Prelude.{◌≡◌, ℕ, ◌+◌, ◌*◌, ◌^◌, ◌<◌, Bool, List};
ghost use Rattle.std.specs.Float.{binary32, binary64};
ghost use Rattle.std.specs.Float.Ieee.{nan_bits};
ghost use Rattle.bits.specs.Loop.{any};
ghost use Rattle.script.specs.Numbers.{u32_at, u64_at, float_of, bits32, bits64};

// The u32 at `at`; 0 where the payload has none.
pub fn u32_at(p: &[u8; 255], at: usize) -> u32
    ensures { result ≡ u32_at p.now at }
{
    if 251 < at {
        return 0;
    }
    u32::from_le_bytes([p[at], p[at + 1], p[at + 2], p[at + 3]])
}

fn u64_at(p: &[u8; 255], at: usize) -> u64
    ensures { result ≡ u64_at p.now at }
{
    if 247 < at {
        return 0;
    }
    u64::from(u32_at(p, at)) + 4294967296 * u64::from(u32_at(p, at + 4))
}

// A float of one of IEEE 754's formats, and its pattern.
pub trait Pattern: Copy {
    type Bits: Copy;

    // How many bytes a pattern has.
    const SIZE: usize;

    ghost SIZE: { ℕ };

    ghost pattern_at: { List ℕ → ℕ → Self.Bits };

    ghost nan: { Self.Bits → Bool };

    ghost float: { Self.Bits → Self };

    ghost pattern: { Self → Self.Bits };

    // The pattern at `at`; 0 where the payload has none.
    fn bits_at(p: &[u8; 255], at: usize) -> Self::Bits
        ensures { result ≡ pattern_at p.now at };

    // The pattern is a NaN's: the exponent is all ones, and the fraction is not 0.
    fn nan_bits(b: Self::Bits) -> bool
        ensures { result ≡ nan b };

    // The float of a pattern; 0 for a NaN's.
    fn of(b: Self::Bits) -> Self
        ensures { result ≡ float b };

    // The bits of a float; of a NaN, those of one NaN.
    fn bits(self) -> Self::Bits
        ensures { result ≡ pattern self };

    // The pattern at `at` is a NaN's.
    final fn nan_at(p: &[u8; 255], at: usize) -> bool
        ensures { result ≡ nan (pattern_at p.now at) }
    {
        Self::nan_bits(Self::bits_at(p, at))
    }

    // The float at `at`; 0 for a NaN's pattern.
    final fn at(p: &[u8; 255], at: usize) -> Self
        ensures { result ≡ float (pattern_at p.now at) }
    {
        Self::of(Self::bits_at(p, at))
    }
}

impl Pattern for f32 {
    type Bits = u32;

    const SIZE: usize = 4;

    ghost SIZE = { 4 };

    ghost pattern_at = { u32_at };

    ghost nan = { nan_bits binary32 };

    ghost float = { float_of binary32 };

    ghost pattern = { bits32 };

    fn bits_at(p: &[u8; 255], at: usize) -> u32 {
        u32_at(p, at)
    }

    fn nan_bits(b: u32) -> bool {
        (b % 2147483648 / 8388608 == 255) & (b % 8388608 != 0)
    }

    fn of(b: u32) -> f32 {
        if Self::nan_bits(b) {
            return 0.0;
        }
        f32::from_bits(b)
    }

    fn bits(self) -> u32 {
        if self == self {
            return f32::to_bits(self);
        }
        0x7fc0_0000
    }
}

impl Pattern for f64 {
    type Bits = u64;

    const SIZE: usize = 8;

    ghost SIZE = { 8 };

    ghost pattern_at = { u64_at };

    ghost nan = { nan_bits binary64 };

    ghost float = { float_of binary64 };

    ghost pattern = { bits64 };

    fn bits_at(p: &[u8; 255], at: usize) -> u64 {
        u64_at(p, at)
    }

    fn nan_bits(b: u64) -> bool {
        (b % 9223372036854775808 / 4503599627370496 == 2047) & (b % 4503599627370496 != 0)
    }

    fn of(b: u64) -> f64 {
        if Self::nan_bits(b) {
            return 0.0;
        }
        f64::from_bits(b)
    }

    fn bits(self) -> u64 {
        if self == self {
            return f64::to_bits(self);
        }
        0x7ff8_0000_0000_0000
    }
}

// One of the n patterns from `at` on is a NaN's.
pub fn any_nan<F: Pattern>(p: &[u8; 255], at: usize, n: usize) -> bool
    requires { at + F.SIZE * n < 2 ^ 64 }
    ensures { result ≡ any (λ i. F.nan (F.pattern_at p.now (at + F.SIZE * i))) n 0 }
{
    for i in 0..n {
        if F::nan_at(p, at + F::SIZE * i) {
            return true;
        }
    }
    false
}
