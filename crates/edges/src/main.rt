// Runs the edges and the traps of 01-scope.md, and some of 02-change-requests.md, through the calls, one line each: what was asked, and the number
// that came.
#![tactic(auto)]

use sampler::{Counted, DaySet, Sampler};

const STDOUT_FILENO: i32 = 1;

// Writes a line: a label and a number.
fn report(label: &[u8], n: u64) {
    io::write_all(STDOUT_FILENO, label);
    io::write_all(STDOUT_FILENO, b": ");
    io::print_decimal(STDOUT_FILENO, n);
    io::write_all(STDOUT_FILENO, b"\n");
}

// What reading these bytes answers.
fn reading(label: &[u8], bytes: &[u8]) {
    let r = sampler::read(bytes);
    report(label, r.code);
}

// What opening this run answers.
fn opening(label: &[u8], s: Sampler, starts: &[u64], count: u64) {
    let r = sampler::open(s, starts, count);
    report(label, r.code);
}

// At the edge: where a run of two axes may start and end.
fn edges(s: Sampler) {
    opening(b"open start 4294967295 count 1", s, &[4294967295; 2], 1);
    opening(b"open start 4294967295 count 2", s, &[4294967295; 2], 2);
    opening(b"open start 4294967296 count 0", s, &[4294967296; 2], 0);
    opening(b"open start 4294967296 count 1", s, &[4294967296; 2], 1);
    opening(
        b"open start 18446744073709551615 count 2",
        s,
        &[18446744073709551615; 2],
        2,
    );
}

// Lists that are not one start for each of two axes; a start that is out of range comes first, also a surplus one.
fn split_starts(s: Sampler) {
    opening(b"open starts 0 count 4", s, &[0], 4);
    opening(b"open starts 0 0 0 count 4", s, &[0, 0, 0], 4);
    opening(b"open no starts count 4", s, &[], 4);
    opening(b"open no starts count 4294967297", s, &[], 4294967297);
    opening(b"open starts 4294967293 count 4", s, &[4294967293], 4);
    opening(b"open starts 0 4294967293 count 4", s, &[0, 4294967293], 4);
    opening(
        b"open starts 0 0 4294967293 count 4",
        s,
        &[0, 0, 4294967293],
        4,
    );
    opening(
        b"open starts 0 0 4294967292 count 4",
        s,
        &[0, 0, 4294967292],
        4,
    );
}

// The axes of a Sobol plan share one start.
fn sobol_starts() {
    let r = sampler::read(&[144, 27, 248]);
    opening(
        b"open starts 7 8 count 4 of a Sobol plan",
        r.state,
        &[7, 8],
        4,
    );
    opening(
        b"open starts 7 7 count 4 of a Sobol plan",
        r.state,
        &[7, 7],
        4,
    );
    opening(
        b"open starts 7 4294967293 count 4 of a Sobol plan",
        r.state,
        &[7, 4294967293],
        4,
    );
}

// The run of the last index alone: one point, and then none.
fn last_index(s: Sampler) {
    let mut point = [0u64; 2];
    let a = sampler::open(s, &[4294967295; 2], 1);
    let b = sampler::step(a.state, &mut point);
    report(b"step to index 4294967295", b.code);
    let c = sampler::step(b.state, &mut point);
    report(b"step after it", c.code);
    let j = sampler::jump(s, 4294967296, &mut point);
    report(b"jump to index 4294967296", j.code);
}

// The traps of reading.
fn traps() {
    reading(b"read bases 4 9", &[16, 24, 64]);
    reading(b"read bases 6 9", &[16, 40, 64]);
    reading(b"read x^4 + x^3 + x^2 + x + 1", &[138, 112]);
    reading(b"read C8, family 3 and no base", &[200]);
    reading(b"read bases 227 229 of family 3", &[215, 23, 32]);
}

// Index 2 of x^3 + x + 1 with 1, 3, 7 is 1/4 of 2^32, and not the 3/4 that the index's own bits would give.
fn second_index() {
    let r = sampler::read(&[137, 191, 128]);
    let mut point = [0u64; 1];
    let j = sampler::jump(r.state, 2, &mut point);
    report(b"jump to index 2 of x^3 + x + 1 with 1 3 7", j.code);
    report(b"its numerator", point[0]);
}

// What a count answers: the refusal's number or 0, S, and the bound.
fn report_count(label: &[u8], r: Counted) {
    report(label, r.code);
    report(b"  inside", r.inside);
    report(b"  bound", r.bound);
}

// What counting a window over a run from one start answers.
fn counting(label: &[u8], s: Sampler, start: u64, count: u64, w: &[u64]) {
    let a = sampler::open(s, &[start; 2], count);
    report_count(label, sampler::count(a.state, w));
}

// Windows over the bases 2 and 3: R8, and whole and empty cuts.
fn windows(s: Sampler) {
    counting(
        b"count 1/2 1/3 over start 0 count 6",
        s,
        0,
        6,
        &[1, 2, 1, 3],
    );
    counting(
        b"count 2/2 3/3 over start 5 count 1000",
        s,
        5,
        1000,
        &[2, 2, 3, 3],
    );
    counting(
        b"count 2/2 0/3 over start 5 count 1000",
        s,
        5,
        1000,
        &[2, 2, 0, 3],
    );
}

// A point on its cut and just below it, K from N and not from the last index, and a run of no points.
fn small_runs(s: Sampler) {
    counting(
        b"count 1/2 1/1 over start 1 count 1",
        s,
        1,
        1,
        &[1, 2, 1, 1],
    );
    counting(
        b"count 8388609/16777216 1/1 over start 1 count 1",
        s,
        1,
        1,
        &[8388609, 16777216, 1, 1],
    );
    counting(
        b"count 1/2 1/3 over start 4294967290 count 6",
        s,
        4294967290,
        6,
        &[1, 2, 1, 3],
    );
    counting(
        b"count 1/2 1/3 over start 0 count 0",
        s,
        0,
        0,
        &[1, 2, 1, 3],
    );
}

// The run of all indexes, which a walk would take seconds for.
fn whole_run(s: Sampler) {
    let a = sampler::open(s, &[0; 2], 4294967296);
    report_count(
        b"count by strips 1/2 1/3 over start 0 count 4294967296",
        sampler::count_by_strips(a.state, &[1, 2, 1, 3]),
    );
}

// A step, and the numerators of its point.
fn stepping(label: &[u8], s: Sampler) -> Sampler {
    let mut point = [0u64; 2];
    let r = sampler::step(s, &mut point);
    report(label, r.code);
    report(b"  axis 1", point[0]);
    report(b"  axis 2", point[1]);
    r.state
}

// Starts at both ends of the range: the last two indexes on one axis with the first two on the other, stepped and counted in both ways.
fn both_ends(s: Sampler) {
    let a = sampler::open(s, &[4294967294, 0], 2);
    report(b"open starts 4294967294 0 count 2", a.code);
    let b = stepping(b"step to indexes 4294967294 0", a.state);
    let c = stepping(b"step to indexes 4294967295 1", b);
    stepping(b"step after them", c);
    let w = [1, 2, 1, 3];
    report_count(b"count 1/2 1/3 over them", sampler::count(c, &w));
    report_count(
        b"count by strips 1/2 1/3 over them",
        sampler::count_by_strips(c, &w),
    );
}

// A long run with a start for each axis, which ends at the last index on axis 2.
fn long_apart(s: Sampler) {
    let a = sampler::open(s, &[1, 6], 4294967290);
    report_count(
        b"count by strips 1/2 1/3 over starts 1 6 count 4294967290",
        sampler::count_by_strips(a.state, &[1, 2, 1, 3]),
    );
}

// Windows that are turned down.
fn wrong_windows(s: Sampler) {
    counting(b"count 3/2 1/3", s, 0, 6, &[3, 2, 1, 3]);
    counting(b"count 0/0 1/3", s, 0, 6, &[0, 0, 1, 3]);
    counting(b"count 1/16777217 1/3", s, 0, 6, &[1, 16777217, 1, 3]);
    counting(b"count 1/2", s, 0, 6, &[1, 2]);
}

// R2's second of the day, and the index after the last.
fn seconds() {
    let r = sampler::read(&[8, 8]);
    let a = sampler::second(r.state, 6);
    report(b"second of index 6 in base 2", a.second);
    let b = sampler::second(r.state, 4294967296);
    report(b"second of index 4294967296", b.code);
}

// What asking for a slot answers: the refusal's number or 0, and the slot.
fn slotting(label: &[u8], s: Sampler, index: u64, axis: u64, slots: u64) {
    let r = sampler::slot(s, index, axis, slots);
    report(label, r.code);
    report(b"  slot", r.slot);
}

// R2's index and the last one on days of 82,800, 86,400 and 90,000 seconds.
fn days() {
    let r = sampler::read(&[8, 8]);
    slotting(b"slot of 82800, index 6 in base 2", r.state, 6, 1, 82800);
    slotting(b"slot of 86400, index 6 in base 2", r.state, 6, 1, 86400);
    slotting(b"slot of 90000, index 6 in base 2", r.state, 6, 1, 90000);
    slotting(
        b"slot of 82800, index 4294967295",
        r.state,
        4294967295,
        1,
        82800,
    );
    slotting(
        b"slot of 86400, index 4294967295",
        r.state,
        4294967295,
        1,
        86400,
    );
    slotting(
        b"slot of 90000, index 4294967295",
        r.state,
        4294967295,
        1,
        90000,
    );
}

// The ends of what a slot is asked for, of two axes: slot counts from 1 to 2^24, and axes from 1.
fn slot_ends(s: Sampler) {
    let last = 4294967295;
    slotting(b"slot of 1 on axis 1, index 4294967295", s, last, 1, 1);
    slotting(
        b"slot of 16777216 on axis 1, index 4294967295",
        s,
        last,
        1,
        16777216,
    );
    slotting(
        b"slot of 16777216 on axis 2, index 4294967295",
        s,
        last,
        2,
        16777216,
    );
    slotting(b"slot of 0 on axis 1, index 0", s, 0, 1, 0);
    slotting(b"slot of 16777217 on axis 1, index 0", s, 0, 1, 16777217);
    slotting(b"slot of 86400 on axis 0, index 0", s, 0, 0, 86400);
    slotting(b"slot of 86400 on axis 3, index 0", s, 0, 3, 86400);
    slotting(
        b"slot of 0 on axis 0, index 4294967296",
        s,
        4294967296,
        0,
        0,
    );
}

// A refused reading hands back the blank state, which every call turns down.
fn blank_state() {
    let r = sampler::read(&[]);
    report(b"read no bytes", r.code);
    opening(b"open the blank state", r.state, &[], 0);
    opening(
        b"open the blank state, starts 4294967296 count 1",
        r.state,
        &[4294967296],
        1,
    );
    let mut point = [0u64; 1];
    let j = sampler::jump(r.state, 0, &mut point);
    report(b"jump on the blank state", j.code);
    slotting(
        b"slot of 0 on axis 0, index 4294967296, on the blank state",
        r.state,
        4294967296,
        0,
        0,
    );
}

// What making a day set answers.
fn making(label: &[u8], s: Sampler, size: u64) {
    let r = sampler::make_day_set(s, size);
    report(label, r.code);
}

// The largest day set: its last point is 4294967295, and a jump to its size is turned down.
fn largest_day_set(s: Sampler) {
    making(b"day set of 4294967297", s, 4294967297);
    let m = sampler::make_day_set(s, 4294967296);
    report(b"day set of 4294967296", m.code);
    let mut point = [0u64; 3];
    let a = sampler::day_jump(m.set, 4294967295, &mut point);
    report(b"jump to its point 4294967295", a.code);
    report(b"the number in it", point[0]);
    let b = sampler::day_jump(m.set, 4294967296, &mut point);
    report(b"jump to its point 4294967296", b.code);
}

// The empty day set: no point, and a count of none, within the bound 1 + 1.
fn empty_day_set(s: Sampler) {
    let m = sampler::make_day_set(s, 0);
    report(b"day set of 0", m.code);
    let mut point = [0u64; 3];
    let a = sampler::day_step(m.set, &mut point);
    report(b"step of it", a.code);
    let b = sampler::day_jump(m.set, 0, &mut point);
    report(b"jump to its point 0", b.code);
    let c = sampler::day_count(m.set, &[1, 1, 1, 1, 1, 1]);
    report_count(b"count 1/1 1/1 1/1 over it", c);
}

// No point is left, and the buffer is shorter than one: 13 comes before 12.
fn short_at_the_end(s: Sampler) {
    let a = sampler::open(s, &[0; 2], 0);
    let mut short = [0u64; 1];
    let b = sampler::step(a.state, &mut short);
    report(b"step of a run of 0 points into 1 word", b.code);
    let c = sampler::block(a.state, &mut short);
    report(b"block of it into 1 word", c.code);
    let m = sampler::make_day_set(s, 0);
    let d = sampler::day_step(m.set, &mut short);
    report(b"step of a day set of 0 points into 1 word", d.code);
    let e = sampler::day_block(m.set, &mut short);
    report(b"block of it into 1 word", e.code);
}

// What a step of a run answers when it is taken for a day set.
fn as_day_set(label: &[u8], s: Sampler, starts: &[u64]) {
    let a = sampler::open(s, starts, 6);
    let mut point = [0u64; 3];
    let run = a.state;
    let r = sampler::day_step(DaySet { run }, &mut point);
    report(label, r.code);
}

// A sampler whose run starts elsewhere, on one axis or on all, is no day set, and the blank state makes none.
fn foreign_day_sets(s: Sampler) {
    as_day_set(b"step of a run from 0 as a day set", s, &[0, 0]);
    as_day_set(b"step of a run from 1 as a day set", s, &[1, 1]);
    as_day_set(b"step of a run from 0 and 1 as a day set", s, &[0, 1]);
    making(b"day set of the blank state", sampler::blank_state(), 6);
}

fn main() {
    let r = sampler::read(&[16, 8, 16]);
    edges(r.state);
    split_starts(r.state);
    sobol_starts();
    last_index(r.state);
    traps();
    second_index();
    windows(r.state);
    small_runs(r.state);
    whole_run(r.state);
    both_ends(r.state);
    long_apart(r.state);
    wrong_windows(r.state);
    seconds();
    days();
    slot_ends(r.state);
    blank_state();
    largest_day_set(r.state);
    empty_day_set(r.state);
    short_at_the_end(r.state);
    foreign_day_sets(r.state);
}
