// 01, sections 3 and 7: sums of floored products.
ghost use Rattle.std.specs.Prelude.{◌≡◌, ◌+◌, ◌*◌, ◌^◌, ◌≤◌, ◌<◌, length};
ghost use Rattle.theory.proofs.Integers.{up, dn};
ghost use Rattle.q15.specs.FirSum.{fir_sum};
ghost use Rattle.refusal.specs.Rows.{most_block};

use crate::fixed::floored_product;

// The sum over k of floor(s[k] × c[k] / 32768), for the taps c. It is kept negated: 65,536 products of -32768 by -32768 make 2^31, which an i32 holds only
// below zero. The samples go by their index: over a zip a proof does not know that the numbers fit 16 bits. The bound of the taps is a clause: a stream at
// each output and a block in each of its arms lend a part of theirs, of which a type with the bound would have to be made.
pub(crate) fn fir_sum(s: &[i16], c: &[i16]) -> i64
    requires { (length c.now ≤ length s.now) × (length c.now ≤ most_block) }
    ensures { result ≡ fir_sum (λ k. k) c.now (length c.now) s.now 0 }
{
    let mut negated: i32 = 0;
    for (k, tap) in c.iter().enumerate() {
        negated -= floored_product(s[k], *tap);
    }
    -i64::from(negated)
}

// The sum over t of floor(s[t] × c[t × l + p] / 32768), for the samples s: the taps of phase p of l. Negated as above. Their index starts at the phase and grows
// by the factor, as 02 asks (request 3), so that no product by the factor is in the loop.
pub(crate) fn phase_sum(s: &[i16], c: &[i16], p: usize, l: usize) -> i64
    requires { (p < l) × (length s.now * l ≤ length c.now) × (length s.now ≤ most_block) }
    ensures { (result ≡ fir_sum (λ t. t * l + p) c.now (length s.now) s.now 0) × (up result ≤ 2 ^ 31 + dn result) × (dn result ≤ 2 ^ 31 + up result) }
{
    let mut negated: i32 = 0;
    let mut k = p;
    for i in 0..s.len() as u32 {
        negated -= floored_product(s[i as usize], c[k]);
        k += l;
    }
    -i64::from(negated)
}
