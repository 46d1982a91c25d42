// 01, sections 2 and 3: Q15, the cut to 16 bits, and one product rounded down by itself.
ghost use Rattle.std.specs.Prelude.{◌≡◌, ℕ, ℤ, ◌≤◌, ◌<◌, true, length};
ghost use Rattle.std.specs.Int.{w16};
ghost use Rattle.theory.specs.Lists.{listed};
ghost use Rattle.refusal.specs.Rows.{most_block};
ghost use Rattle.q15.specs.Fixed.{floored_product, cut, is_cut, cut_count};

// A signed 16-bit number of 1/32768ths, for a value passed singly; lent slices stay i16.
#[derive(Clone, Copy, PartialEq, Eq, PartialOrd, Ord, Debug)]
pub struct Q15(pub i16);

// What the cut to 16 bits makes of a number, and whether it cut. No Option: what was cut has a value too.
#[derive(Clone, Copy, PartialEq, Eq, Debug)]
pub struct Cut {
    pub value: Q15,
    pub cut: bool,
}

// The end of the range on the side of a number outside it.
#[tactic(auto, unfolding(crate::specs::Fixed::is_cut, crate::specs::Fixed::cut))]
fn nearest_end(x: i64) -> i16
    requires { is_cut w16 x ≡ true }
    ensures { result ≡ cut w16 x }
{
    if x < 0 { i16::MIN } else { i16::MAX }
}

// Section 2, and the end of every FIR sum: held at the ends of the 16-bit range. No `clamp` with a comparison behind it: they take twice as long where taps are few.
#[tactic(auto, unfolding(crate::specs::Fixed::is_cut, crate::specs::Fixed::cut))]
pub fn cut_q15(x: i64) -> Cut
    ensures { (result.value.0 ≡ cut w16 x) × (result.cut ≡ is_cut w16 x) }
{
    match i16::try_from(x) {
        Ok(kept) => Cut {
            value: Q15(kept),
            cut: false,
        },
        Err(_) => Cut {
            value: Q15(nearest_end(x)),
            cut: true,
        },
    }
}

// A number for each place by its index, cut. Answers how many of them were cut, in 32 bits, as the products have, so that the compiler counts several at once. That
// the places are few is a clause here and in the callers: each lends a part of its span, of which a type with the bound would have to be made.
pub(crate) fn fill_cut<F: Fn(usize) -> i64>(places: &mut [i16], number: F) -> u32
    requires few { length places.old ≤ most_block }
    requires callable { (i : ℕ) → i < length places.old → F.pre number i }
    ensures { (g : ℕ → ℤ) → ((i : ℕ) (z : ℤ) → i < length places.old → F.post number i z → z ≡ g i)
        → (places.new ≡ listed (length places.old) (λ i. cut w16 (g i))) × (result ≡ cut_count w16 (listed (length places.old) g)) }
{
    let mut cuts = 0;
    for (i, place) in places.iter_mut().enumerate() {
        let made = cut_q15(number(i));
        *place = made.value.0;
        cuts += u32::from(made.cut);
    }
    cuts
}

// floor(s × c / 32768)
#[tactic(auto, unfolding(crate::specs::Fixed::floored_product))]
pub(crate) fn floored_product(s: i16, c: i16) -> i32
    ensures { result ≡ floored_product s c }
{
    (i32::from(s) * i32::from(c)) >> 15
}
