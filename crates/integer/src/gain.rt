// 01, section 1: the gain of a CIC converter, its bits, and the sum scaled by them.
ghost use Rattle.std.specs.Prelude.{◌≡◌, ◌*◌, ◌^◌, ◌≤◌, IfOk};
ghost use Rattle.theory.specs.Floor.{floor_div};
ghost use Rattle.refusal.specs.Outcome.{told};
ghost use Rattle.integer.specs.Gain.{held, gain_of, bits_of, most_bits, scaling_bits};

use crate::limits::MOST_GAIN_BITS;
use refusal::Refusal;

// The product, held at 2^64 - 1.
fn held_product(a: u64, b: u64) -> u64
    ensures { result ≡ held (a * b) }
{
    // Not std's method alone: tried, and a scaled sample of six or eight stages takes 8 % more time, though one of up to three takes 5 to 17 % less.
    if a < 4294967296 && b < 4294967296 {
        return a * b;
    }
    a.saturating_mul(b)
}

// r to the power of n, held at 2^64 - 1. No `saturating_pow`, with n held at 64 as its exponent is a u32: tried, and a scaled sample of two stages or more takes 5 to 9
// instructions more, and of four or more 4 to 5 % more time.
pub fn gain_of(n: usize, r: usize) -> u64
    ensures { result ≡ gain_of n r }
{
    let mut gain = 1;
    for _ in 0..n {
        gain = held_product(gain, r as u64);
    }
    gain
}

// The least b with 2^b no less than g: the length of g - 1 in bits.
pub fn bits_of(g: u64) -> u32
    ensures { result ≡ bits_of g }
{
    u64::BITS - g.saturating_sub(1).leading_zeros()
}

// The gain bits of n stages of factor r, by which a sum is scaled. Row 3.
#[tactic(auto, unfolding(crate::specs::Gain::scaling_bits))]
pub fn scaling_bits(n: usize, r: usize) -> Result<u32, Refusal>
    ensures answer { told 0 result ≡ scaling_bits n r }
    ensures within { IfOk result (λ bits. bits ≤ most_bits) }
{
    let bits = bits_of(gain_of(n, r));
    if bits > MOST_GAIN_BITS {
        return Err(Refusal::GainBits);
    }
    Ok(bits)
}

// floor(y / 2^bits): a shift by more than 31 bits leaves the sign, as one by 31 does.
pub fn scaled(y: i32, bits: u32) -> i32
    ensures { result ≡ floor_div y (2 ^ bits) }
{
    y >> bits.min(31)
}
