// A plan's fields, lent.

ghost use Rattle.std.specs.Prelude.{◌≡◌, length};

// A plan's family, its number of axes, the bases of a Halton plan, and the polynomials and the given m's of a Sobol plan, 12 places for each
// axis: arrays as the reader's answer holds them. They may hold no valid plan.
#[derive(Clone, Copy)]
pub struct PlanFields<'a> {
    pub family: u64,
    pub axes: usize,
    pub bases: &'a [u64; 6],
    pub polynomials: &'a [u64; 6],
    pub ms: &'a [u64; 72],
    // the arrays' lengths, for proofs to cite
    pub ghost sizes: { (length bases.now ≡ 6) × (length polynomials.now ≡ 6) × (length ms.now ≡ 72) },
}
