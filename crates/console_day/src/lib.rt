// The console's calls about its day set, one function each, as `console_calls` has them about its state.
#![tactic(auto)]

ghost use Rattle.std.specs.Prelude.{◌≡◌, ◌<◌};
ghost use Rattle.day_set.specs.DaySet.{day_of, day_blank};
ghost use Rattle.day_set.specs.Calls.{make_spec, day_jump_buf, day_step_spec, day_step_buf, day_block_spec, day_block_buf};
ghost use Rattle.state_words.specs.Words.{poked};
ghost use Rattle.console_text.specs.Held.{Holds};

use console_text::Console;
use sampler::DaySet;

// The day set of so many points of the state's plan, or the blank one where the making is refused; the state stays.
pub fn make(c: Console, out: &mut [u8], size: u64) -> Console
    ensures { Holds result c.state (make_spec c.state size).set }
{
    let made = sampler::make_day_set(c.state, size);
    let day = made.set;
    let lines = console_text::answer(c.lines, out, b"day", &[made.code], &[]);
    console_text::with_day(c, lines, day)
}

// ---- its points

// Point `n`, into lent words; the day set stays.
pub fn jump(c: Console, out: &mut [u8], n: u64, words: &mut [u64]) -> Console
    ensures { Holds result c.state c.day × (words.new ≡ day_jump_buf c.day n words.old) }
{
    let j = sampler::day_jump(c.day, n, words);
    let lines = console_text::answer(c.lines, out, b"dayjump", &[j.code], words);
    console_text::with_lines(c, lines)
}

// The next point, into lent words: the day set moved on.
pub fn step(c: Console, out: &mut [u8], words: &mut [u64]) -> Console
    ensures { Holds result c.state (day_step_spec c.day words.old).set × (words.new ≡ day_step_buf c.day words.old) }
{
    let m = sampler::day_step(c.day, words);
    let day = m.set;
    let lines = console_text::answer(c.lines, out, b"daystep", &[m.code], words);
    console_text::with_day(c, lines, day)
}

// As many points as are left and fit, into lent words: the day set moved on.
pub fn block(c: Console, out: &mut [u8], words: &mut [u64]) -> Console
    ensures { Holds result c.state (day_block_spec c.day words.old).set × (words.new ≡ day_block_buf c.day words.old) }
{
    let b = sampler::day_block(c.day, words);
    let day = b.set;
    let lines = console_text::answer(c.lines, out, b"dayblock", &[b.code, b.points], words);
    console_text::with_day(c, lines, day)
}

// How many points are inside a window, and the bound; the day set stays.
pub fn count(c: Console, out: &mut [u8], window: &[u64]) -> Console
    ensures { Holds result c.state c.day }
{
    let s = sampler::day_count(c.day, window);
    let lines = console_text::answer(c.lines, out, b"daycount", &[s.code, s.inside, s.bound], &[]);
    console_text::with_lines(c, lines)
}

// ---- the day set itself

// The day set with a word set.
pub fn poke(c: Console, out: &mut [u8], place: usize, value: u64) -> Console
    requires { place < 220 }
    ensures { Holds result c.state (day_of (poked c.day.run place value)) }
{
    let d = c.day;
    let run = state_words::poke(d.run, place, value);
    let day = DaySet { run };
    let lines = console_text::answer(c.lines, out, b"daypoke", &[place as u64, value], &[]);
    console_text::with_day(c, lines, day)
}

// The blank day set.
pub fn clear(c: Console, out: &mut [u8]) -> Console
    ensures { Holds result c.state day_blank }
{
    let day = sampler::blank_day_set();
    let lines = console_text::answer(c.lines, out, b"dayblank", &[], &[]);
    console_text::with_day(c, lines, day)
}
