// "Floats go by their bits": those of every NaN are one. The library's `to_bits` and `from_bits` ask for a number that is no NaN.
ghost use Rattle.std.specs.Prelude.{◌≡◌};
ghost use Rattle.std.specs.Float.{binary32};
ghost use Rattle.std.specs.Float.Ieee.{to_bits, of_bits};
ghost use Rattle.words.specs.Fields.{is_float};

// The bits that every NaN has here.
const NAN_BITS: u32 = 2143289344;

// The bits of infinity: those of a NaN are above them, but for the sign.
const INFINITY_BITS: u32 = 2139095040;

// The weight of the sign.
const SIGN: u32 = 2147483648;

#[tactic(auto, using(crate::proofs::Nans::nan_bits_of))]
pub fn bits_of_f32(x: f32) -> u32
    ensures { result ≡ to_bits binary32 x }
{
    if x.is_nan() {
        return NAN_BITS;
    }
    x.to_bits()
}

// The f32 whose bits n is; a NaN's bits all give the one NaN.
#[tactic(auto, using(crate::proofs::Nans::reads_nan, std::proofs::lemmas::Float::not_nan_f32_bits))]
pub fn f32_of_bits(n: u32) -> f32
    ensures { result ≡ of_bits binary32 n }
{
    if INFINITY_BITS < n % SIGN {
        return f32::NAN;
    }
    f32::from_bits(n)
}

// Whether n is the bits of some f32 as `bits_of_f32` gives them.
#[tactic(auto, using(crate::proofs::Nans::word_plain, crate::proofs::Nans::word_above))]
pub fn is_f32_bits(n: u32) -> bool
    ensures { result ≡ is_float n }
{
    n % SIGN <= INFINITY_BITS || NAN_BITS == n
}
