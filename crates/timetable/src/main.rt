// A day's calls out of one plan: of each point, axis 1 picks the second to wake at, axis 2 the meter to call and axis 3 the channel, each by its own
// slot count. The day's length is handed in, since days have 82,800, 86,400 or 90,000 seconds.
#![tactic(auto)]

use sampler::Sampler;

const STDOUT_FILENO: i32 = 1;

// The slot count of each axis.
#[derive(Clone, Copy)]
struct SlotCounts {
    seconds: u64,
    meters: u64,
    channels: u64,
}

// Writes a text and a number.
fn say(text: &[u8], n: u64) {
    io::write_all(STDOUT_FILENO, text);
    io::print_decimal(STDOUT_FILENO, n);
}

// Writes the slot of an index on an axis after a text, or the refusal's number.
fn say_slot(text: &[u8], s: Sampler, index: u64, axis: u64, slots: u64) {
    let r = sampler::slot(s, index, axis, slots);
    if r.code != 0 {
        say(b" refused ", r.code);
        return;
    }
    say(text, r.slot);
}

// Writes the call of an index: one line.
fn say_call(s: Sampler, index: u64, c: SlotCounts) {
    say(b"index ", index);
    say_slot(b": sleep until second ", s, index, 1, c.seconds);
    say_slot(b", call meter ", s, index, 2, c.meters);
    say_slot(b" on channel ", s, index, 3, c.channels);
    io::write_all(STDOUT_FILENO, b"\n");
}

// Writes eight calls of a day of so many seconds.
fn say_day(s: Sampler, seconds: u64) {
    say(b"a day of ", seconds);
    io::write_all(STDOUT_FILENO, b" seconds\n");
    let c = SlotCounts {
        seconds,
        meters: 250,
        channels: 8,
    };
    for index in 0..8 {
        say_call(s, index, c);
    }
}

// The permuted Halton sequence, bases 2, 3 and 5, on an ordinary day and on the two days on which the clock changes.
fn main() {
    let r = sampler::read(&[88, 8, 16, 32]);
    say_day(r.state, 86400);
    say_day(r.state, 82800);
    say_day(r.state, 90000);
}
