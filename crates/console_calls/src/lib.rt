// The console's calls, one function each: it makes the call on the console's state, puts the line of its answer, and gives the console with
// the state that the call leaves. A call's words and bytes are lent by the line.
#![tactic(auto)]

ghost use Rattle.std.specs.Prelude.{◌≡◌, ◌<◌};
ghost use Rattle.points.specs.Run.{run_of};
ghost use Rattle.state.specs.State.{blank};
ghost use Rattle.calls.specs.Calls.{read_spec, write_buf, open_spec, jump_buf, step_spec, step_buf, block_spec, block_buf};
ghost use Rattle.state_words.specs.Words.{poked};
ghost use Rattle.console_text.specs.Held.{Holds};

use console_text::Console;
use sampler::Sampler;

// ---- on a plan

// A plan's bytes: the state that reading them leaves.
pub fn read(c: Console, out: &mut [u8], bytes: &[u8]) -> Console
    ensures { Holds result (read_spec bytes.now).state c.day }
{
    let r = sampler::read(bytes);
    let state = r.state;
    let lines = console_text::answer(c.lines, out, b"read", &[r.code], &[]);
    console_text::with_state(c, lines, state)
}

// The plan's bytes, into lent ones; the state stays.
pub fn write(c: Console, out: &mut [u8], bytes: &mut [u8]) -> Console
    ensures { Holds result c.state c.day × (bytes.new ≡ write_buf c.state bytes.old) }
{
    let w = sampler::write(c.state, bytes);
    let lines = console_text::answer_bytes(c.lines, out, b"write", &[w.code, w.len as u64], bytes);
    console_text::with_lines(c, lines)
}

// The state with this run.
pub fn open(c: Console, out: &mut [u8], count: u64, starts: &[u64]) -> Console
    ensures { Holds result (open_spec c.state (run_of starts.now count)).state c.day }
{
    let m = sampler::open(c.state, starts, count);
    let state = m.state;
    let lines = console_text::answer(c.lines, out, b"open", &[m.code], &[]);
    console_text::with_state(c, lines, state)
}

// ---- on an index

// The point of an index, into lent words; the state stays.
pub fn jump(c: Console, out: &mut [u8], index: u64, words: &mut [u64]) -> Console
    ensures { Holds result c.state c.day × (words.new ≡ jump_buf c.state index words.old) }
{
    let j = sampler::jump(c.state, index, words);
    let lines = console_text::answer(c.lines, out, b"jump", &[j.code], words);
    console_text::with_lines(c, lines)
}

// The second of the day of an index; the state stays.
pub fn second(c: Console, out: &mut [u8], index: u64) -> Console
    ensures { Holds result c.state c.day }
{
    let s = sampler::second(c.state, index);
    let lines = console_text::answer(c.lines, out, b"second", &[s.code, s.second], &[]);
    console_text::with_lines(c, lines)
}

// The slot of an index on an axis; the state stays.
pub fn slot(c: Console, out: &mut [u8], index: u64, axis: u64, slots: u64) -> Console
    ensures { Holds result c.state c.day }
{
    let s = sampler::slot(c.state, index, axis, slots);
    let lines = console_text::answer(c.lines, out, b"slot", &[s.code, s.slot], &[]);
    console_text::with_lines(c, lines)
}

// ---- on a run

// The run's next point, into lent words: the state moved on.
pub fn step(c: Console, out: &mut [u8], words: &mut [u64]) -> Console
    ensures { Holds result (step_spec c.state words.old).state c.day × (words.new ≡ step_buf c.state words.old) }
{
    let m = sampler::step(c.state, words);
    let state = m.state;
    let lines = console_text::answer(c.lines, out, b"step", &[m.code], words);
    console_text::with_state(c, lines, state)
}

// The same by a step in place.
pub fn place(c: Console, out: &mut [u8], words: &mut [u64]) -> Console
    ensures { Holds result (step_spec c.state words.old).state c.day × (words.new ≡ step_buf c.state words.old) }
{
    let m = waking::wake(c.state, words);
    let state = m.state;
    let lines = console_text::answer(c.lines, out, b"place", &[m.code], words);
    console_text::with_state(c, lines, state)
}

// As many points as are left and fit, into lent words: the state moved on.
pub fn block(c: Console, out: &mut [u8], words: &mut [u64]) -> Console
    ensures { Holds result (block_spec c.state words.old).state c.day × (words.new ≡ block_buf c.state words.old) }
{
    let b = sampler::block(c.state, words);
    let state = b.state;
    let lines = console_text::answer(c.lines, out, b"block", &[b.code, b.points], words);
    console_text::with_state(c, lines, state)
}

// ---- on a window

// How many points of the run are inside a window, and the bound; the state stays.
pub fn count(c: Console, out: &mut [u8], window: &[u64]) -> Console
    ensures { Holds result c.state c.day }
{
    let s = sampler::count(c.state, window);
    let lines = console_text::answer(c.lines, out, b"count", &[s.code, s.inside, s.bound], &[]);
    console_text::with_lines(c, lines)
}

// The same by strips.
pub fn strips(c: Console, out: &mut [u8], window: &[u64]) -> Console
    ensures { Holds result c.state c.day }
{
    let s = sampler::count_by_strips(c.state, window);
    let lines = console_text::answer(c.lines, out, b"strips", &[s.code, s.inside, s.bound], &[]);
    console_text::with_lines(c, lines)
}

// ---- the state itself

// Every word of a state, the console's own or its day set's; both stay.
pub fn show(c: Console, out: &mut [u8], name: &[u8], s: Sampler) -> Console
    ensures { Holds result c.state c.day }
{
    let words = state_words::words_of(s);
    let lines = console_text::answer(c.lines, out, name, &words, &[]);
    console_text::with_lines(c, lines)
}

// The state with a word set.
pub fn poke(c: Console, out: &mut [u8], place: usize, value: u64) -> Console
    requires { place < 220 }
    ensures { Holds result (poked c.state place value) c.day }
{
    let state = state_words::poke(c.state, place, value);
    let lines = console_text::answer(c.lines, out, b"poke", &[place as u64, value], &[]);
    console_text::with_state(c, lines, state)
}

// The blank state.
pub fn clear(c: Console, out: &mut [u8]) -> Console
    ensures { Holds result blank c.day }
{
    let state = sampler::blank_state();
    let lines = console_text::answer(c.lines, out, b"blank", &[], &[]);
    console_text::with_state(c, lines, state)
}
