// The calls on a state or a day set in loops, for the benchmark: each function reads its plan once and then makes one call so many times.
#![tactic(auto)]

ghost use Rattle.std.specs.Prelude.{◌≡◌};
ghost use Rattle.calls.specs.Calls.{read_spec};
ghost use Rattle.window_count.specs.Call.{count_spec};
ghost use Rattle.day_count.specs.Count.{day_count_spec};
ghost use Rattle.bench_calls.specs.Rounds.{opened_state, made_set, blocks_of, day_blocks_of, jumps_of, axis_jumps_of, slot_by, slots_of, steps_of, counts_of};

use sampler::{Counted, DaySet, Sampler};

// The state of a plan, as read.
fn state_of(plan: &[u8]) -> Sampler
    ensures { result ≡ (read_spec plan.now).state }
{
    let r = sampler::read(plan);
    r.state
}

// The state of a plan with a run opened.
fn opened(plan: &[u8], starts: &[u64], count: u64) -> Sampler
    ensures { result ≡ opened_state plan.now starts.now count }
{
    let o = sampler::open(state_of(plan), starts, count);
    o.state
}

// The day set of so many points of a plan.
fn made(plan: &[u8], size: u64) -> DaySet
    ensures { result ≡ made_set plan.now size }
{
    let m = sampler::make_day_set(state_of(plan), size);
    m.set
}

// Fills `out` by a block, `rounds` times from the same state. Answers how many points the last block has.
#[unsafe(no_mangle)]
pub extern "C" fn bench_blocks(plan: &[u8], starts: &[u64], rounds: u64, out: &mut [u64]) -> u64
    ensures { (result ≡ (blocks_of (opened_state plan.now starts.now 1048576) rounds out.old).answer) × (out.new ≡ (blocks_of (opened_state plan.now starts.now 1048576) rounds out.old).words) }
{
    let s = opened(plan, starts, 1048576);
    let mut points = 0;
    for _ in 0..rounds {
        let b = sampler::block(s, out);
        points = b.points;
    }
    points
}

// Fills `out` by a block of a day set, `rounds` times from the same set. Answers how many points the last block has.
#[unsafe(no_mangle)]
pub extern "C" fn bench_day_blocks(plan: &[u8], size: u64, rounds: u64, out: &mut [u64]) -> u64
    ensures { (result ≡ (day_blocks_of (made_set plan.now size) rounds out.old).answer) × (out.new ≡ (day_blocks_of (made_set plan.now size) rounds out.old).words) }
{
    let d = made(plan, size);
    let mut points = 0;
    for _ in 0..rounds {
        let b = sampler::day_block(d, out);
        points = b.points;
    }
    points
}

// Jumps to each index of a list. Answers the last jump's number.
#[unsafe(no_mangle)]
pub extern "C" fn bench_jumps(plan: &[u8], indexes: &[u64], out: &mut [u64]) -> u64
    ensures { (result ≡ (jumps_of (read_spec plan.now).state indexes.now out.old).answer) × (out.new ≡ (jumps_of (read_spec plan.now).state indexes.now out.old).words) }
{
    let s = state_of(plan);
    let mut code = 0;
    for n in indexes {
        let j = sampler::jump(s, *n, out);
        code = j.code;
    }
    code
}

// Jumps to each index of a list on one Halton axis, with no state and no test. Answers the numerators' exclusive or.
#[unsafe(no_mangle)]
pub extern "C" fn bench_axis_jumps(family: u64, b: u64, indexes: &[u64]) -> u64
    ensures { result ≡ axis_jumps_of family b indexes.now }
{
    if b < 2 {
        return 0;
    }
    if 256 < b {
        return 0;
    }
    let mut x = 0;
    for n in indexes {
        let r = halton::jump(family, b, &[], *n % numbers::INDEXES);
        x = x ^ r.numerator;
    }
    x
}

// A slot by either call: that of 86,400 on axis 1, which is the second of the day, or any.
fn slot_by(s: Sampler, index: u64, axis: u64, slots: u64, daily: bool) -> u64
    ensures { result ≡ slot_by daily s axis slots index }
{
    if daily {
        let r = sampler::second(s, index);
        return r.second;
    }
    let r = sampler::slot(s, index, axis, slots);
    r.slot
}

// Asks for the slot, or for the second of the day, of each index of a list. Answers their exclusive or.
#[unsafe(no_mangle)]
pub extern "C" fn bench_slots(
    plan: &[u8],
    indexes: &[u64],
    axis: u64,
    slots: u64,
    daily: bool,
) -> u64
    ensures { result ≡ slots_of daily (read_spec plan.now).state axis slots indexes.now }
{
    let s = state_of(plan);
    let mut x = 0;
    for n in indexes {
        x = x ^ slot_by(s, *n, axis, slots, daily);
    }
    x
}

// Takes `rounds` steps of a run. Answers the last step's number.
#[unsafe(no_mangle)]
pub extern "C" fn bench_steps(plan: &[u8], starts: &[u64], rounds: u64, out: &mut [u64]) -> u64
    ensures { (result ≡ (steps_of (opened_state plan.now starts.now rounds) rounds out.old).answer) × (out.new ≡ (steps_of (opened_state plan.now starts.now rounds) rounds out.old).words) }
{
    let mut s = opened(plan, starts, rounds);
    let mut code = 0;
    for _ in 0..rounds {
        let r = sampler::step(s, out);
        code = r.code;
        s = r.state;
    }
    code
}

// Takes `rounds` steps of a run in place: the state is lent to each step. Answers the last refusal's number or 0.
#[unsafe(no_mangle)]
pub extern "C" fn bench_steps_in_place(
    plan: &[u8],
    starts: &[u64],
    rounds: u64,
    out: &mut [u64],
) -> u64
    ensures { (result ≡ (steps_of (opened_state plan.now starts.now rounds) rounds out.old).answer) × (out.new ≡ (steps_of (opened_state plan.now starts.now rounds) rounds out.old).words) }
{
    let mut s = opened(plan, starts, rounds);
    let mut code = 0;
    for _ in 0..rounds {
        let r = waking::wake(s, out);
        code = r.code;
        s = r.state;
    }
    code
}

// A count by either call.
fn counted(s: Sampler, window: &[u64], by_strips: bool) -> Counted
    ensures { result ≡ count_spec s window.now }
{
    if by_strips {
        return sampler::count_by_strips(s, window);
    }
    sampler::count(s, window)
}

// Counts a window over a run, walked or by strips, `rounds` times. Answers S.
#[unsafe(no_mangle)]
pub extern "C" fn bench_counts(
    plan: &[u8],
    starts: &[u64],
    count: u64,
    window: &[u64],
    by_strips: bool,
    rounds: u64,
) -> u64
    ensures { result ≡ counts_of (count_spec (opened_state plan.now starts.now count) window.now) rounds }
{
    let s = opened(plan, starts, count);
    let mut inside = 0;
    for _ in 0..rounds {
        let r = counted(s, window, by_strips);
        inside = r.inside;
    }
    inside
}

// Counts a window over a day set, `rounds` times. Answers S.
#[unsafe(no_mangle)]
pub extern "C" fn bench_day_counts(plan: &[u8], size: u64, window: &[u64], rounds: u64) -> u64
    ensures { result ≡ counts_of (day_count_spec (made_set plan.now size) window.now) rounds }
{
    let d = made(plan, size);
    let mut inside = 0;
    for _ in 0..rounds {
        let c = sampler::day_count(d, window);
        inside = c.inside;
    }
    inside
}
