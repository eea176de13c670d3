// A plan as its points need it, lent.

ghost use Rattle.points.specs.Arrays.{Arrays};

// A plan's family, its number of axes, the bases of a Halton plan, and 32 direction numbers for each axis of a Sobol plan: arrays as a state holds
// them, with 0 in the entries that are not used.
#[derive(Clone, Copy)]
pub struct PlanAxes<'a> {
    pub family: u64,
    pub axes: usize,
    pub bases: &'a [u64],
    pub directions: &'a [u64],
    // the arrays are as long as those of a state, and the entries are in range
    pub ghost fit: { Arrays family axes bases.now directions.now },
}
