// The Hammersley set of document 002, made as a day set: by jump, and by steps.
ghost use Rattle.std.specs.Prelude.{◌≤◌};

use crate::agreement::same_fraction;
use crate::printed::HAMMERSLEY;
use sampler::DaySet;

// Whether a point is what a row prints: n over 10, and the fraction of base 2.
fn is_point(code: u64, point: [u64; 2], row: [u64; 7]) -> bool {
    if code != 0 {
        return false;
    }
    if !same_fraction(point[0], 10, row[1], row[2]) {
        return false;
    }
    same_fraction(point[1], numbers::denominator(2), row[3], row[4])
}

// Whether a jump to a row's number gives its point.
fn jump_agrees(d: DaySet, row: [u64; 7]) -> bool {
    let mut point = [0u64; 2];
    let r = sampler::day_jump(d, row[0], &mut point);
    is_point(r.code, point, row)
}

// Whether both a step, which gave this point, and a jump agree with a row.
fn row_agrees(d: DaySet, code: u64, point: [u64; 2], row: [u64; 7]) -> bool {
    if !is_point(code, point, row) {
        return false;
    }
    jump_agrees(d, row)
}

// How many rows agree, the day set being stepped from its first point on.
pub fn count_agreeing() -> usize
    ensures { result ≤ 10 }
{
    let plan = sampler::read(&[8, 8]);
    let made = sampler::make_day_set(plan.state, 10);
    let mut d = made.set;
    let mut agreed = 0;
    for row in HAMMERSLEY {
        let mut point = [0u64; 2];
        let r = sampler::day_step(d, &mut point);
        if row_agrees(d, r.code, point, row) {
            agreed += 1;
        }
        d = r.set;
    }
    agreed
}
