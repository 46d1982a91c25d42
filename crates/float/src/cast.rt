// Rust's casts from f32, which are total.
ghost use Rattle.std.specs.Prelude.{◌≡◌, ◌<◌, ◌≤◌, pos, false, from_bits, nat_le, if◌then◌else◌, Some, None};
ghost use Rattle.std.specs.Float.{binary32};
ghost use Rattle.std.specs.Float.Ieee.{le, of_int, to_unsigned};

// From 2^24 on every f32 is whole.
const ALL_WHOLE: f32 = 16777216.0;

// 2^23: the digit before the 23 that a pattern has, and the weight of the exponent's field.
const LEADING: u32 = 8388608;

// The whole part of an x below 2^24, the digits of its pattern cut by its exponent; below 1.0 and of a NaN 0.
pub(crate) fn whole_part(x: f32) -> u32
    requires { le (from_bits binary32 0x4b80_0000) x ≡ false }
    ensures { result ≡ to_unsigned 64 x }
{
    if x >= 1.0 {
        let bits = x.to_bits();
        let digits = bits % LEADING + LEADING;
        return digits >> (150 - bits / LEADING);
    }
    0
}

// A number up to 2^24 as f32, which it is exactly. Signed and of 32 bits: every machine has an instruction for that.
pub(crate) fn f32_of(n: u32) -> f32
    requires { n ≤ 16777216 }
    ensures { result ≡ of_int binary32 (pos n) }
{
    n as i32 as f32
}

// The whole part, where it is at most `last`.
pub(crate) fn whole_up_to(last: u32, x: f32) -> Option<u32>
    requires { last < 16777216 }
    ensures { result ≡ (if nat_le (to_unsigned 64 x) last then Some (to_unsigned 64 x) else None) }
{
    if x >= ALL_WHOLE {
        return None;
    }
    let whole = whole_part(x);
    if whole <= last { Some(whole) } else { None }
}

// `x as usize`: the whole part, held at 0 and at 2^64 − 1; a NaN gives 0. The library's `saturating_f32_to_usize`, but that below 2^24 it goes by no f64, which
// a machine may have in software only.
pub fn f32_to_usize_saturating(x: f32) -> usize
    ensures { result ≡ to_unsigned 64 x }
{
    if x >= ALL_WHOLE {
        if x < 18446744073709551616.0 {
            return std::num::truncating_f32_to_u64(x) as usize;
        }
        return usize::MAX;
    }
    whole_part(x) as usize
}
