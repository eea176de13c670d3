// The console over standard input and output: each line by its first word, and an answer for each. Each group of lines passes a first word
// that it does not know on to the next.
#![tactic(auto)]

ghost use Rattle.std.specs.Prelude.{◌≤◌, length};

use console_lines::{Counting, Held, Lent};
use console_text::Console;
use std::rt::Stdin;

// ---- the lines, by their first word

// A line about the day set itself, or a first word that no call has.
fn day_state_line(c: Console, out: &mut [u8], key: &[u8], rest: &[u8]) -> Console {
    if key == b"daystate".as_slice() {
        return console_lines::state(c, out, Held::DaySet, b"daystate alone", rest);
    }
    if key == b"daypoke".as_slice() {
        return console_lines::poke(c, out, Held::DaySet, b"daypoke PLACE VALUE", rest);
    }
    if key == b"dayblank".as_slice() {
        return console_lines::blank(c, out, Held::DaySet, b"dayblank alone", rest);
    }
    console_text::error(
        c,
        out,
        b"read, write, open, jump, second, slot, step, place, block, count, strips, state, poke, blank, day, dayjump, daystep, dayblock, daycount, daystate, daypoke, dayblank or # as the first word",
    )
}

// A line with a call about a day set, or another.
fn day_line(c: Console, out: &mut [u8], key: &[u8], rest: &[u8]) -> Console {
    if key == b"day".as_slice() {
        return console_lines::day(c, out, rest);
    }
    if key == b"dayjump".as_slice() {
        return console_lines::jump(c, out, Held::DaySet, b"dayjump N ROOM", rest);
    }
    if key == b"daystep".as_slice() {
        return console_lines::room(c, out, Lent::DayStep, b"daystep ROOM", rest);
    }
    if key == b"dayblock".as_slice() {
        return console_lines::room(c, out, Lent::DayBlock, b"dayblock ROOM", rest);
    }
    if key == b"daycount".as_slice() {
        return console_lines::count(c, out, Counting::DaySet, b"daycount U Q U Q ..", rest);
    }
    day_state_line(c, out, key, rest)
}

// A line about the state itself, or another.
fn state_line(c: Console, out: &mut [u8], key: &[u8], rest: &[u8]) -> Console {
    if key == b"state".as_slice() {
        return console_lines::state(c, out, Held::State, b"state alone", rest);
    }
    if key == b"poke".as_slice() {
        return console_lines::poke(c, out, Held::State, b"poke PLACE VALUE", rest);
    }
    if key == b"blank".as_slice() {
        return console_lines::blank(c, out, Held::State, b"blank alone", rest);
    }
    day_line(c, out, key, rest)
}

// A line with a call on a run or a window, or another.
fn run_line(c: Console, out: &mut [u8], key: &[u8], rest: &[u8]) -> Console {
    if key == b"step".as_slice() {
        return console_lines::room(c, out, Lent::Step, b"step ROOM", rest);
    }
    if key == b"place".as_slice() {
        return console_lines::room(c, out, Lent::Place, b"place ROOM", rest);
    }
    if key == b"block".as_slice() {
        return console_lines::room(c, out, Lent::Block, b"block ROOM", rest);
    }
    if key == b"count".as_slice() {
        return console_lines::count(c, out, Counting::Walked, b"count U Q U Q ..", rest);
    }
    if key == b"strips".as_slice() {
        return console_lines::count(c, out, Counting::ByStrips, b"strips U Q U Q ..", rest);
    }
    state_line(c, out, key, rest)
}

// A line with a call on a plan or an index, or another.
fn plan_line(c: Console, out: &mut [u8], key: &[u8], rest: &[u8]) -> Console
    requires { length rest.now ≤ 1024 }
{
    if key == b"read".as_slice() {
        return console_lines::read(c, out, rest);
    }
    if key == b"write".as_slice() {
        return console_lines::write(c, out, rest);
    }
    if key == b"open".as_slice() {
        return console_lines::open(c, out, b"open COUNT START ..", rest);
    }
    if key == b"jump".as_slice() {
        return console_lines::jump(c, out, Held::State, b"jump INDEX ROOM", rest);
    }
    if key == b"second".as_slice() {
        return console_lines::second(c, out, rest);
    }
    if key == b"slot".as_slice() {
        return console_lines::slot(c, out, rest);
    }
    run_line(c, out, key, rest)
}

// ---- the input

// Answers a line's text; one with no words has no answer.
fn text_line(c: Console, out: &mut [u8], text: &[u8]) -> Console
    requires { length text.now ≤ 1024 }
{
    let w = words::find(text, 0);
    let start = w.start;
    let end = w.end;
    if start == end {
        return c;
    }
    plan_line(c, out, &text[start..end], &text[end..])
}

// Answers the line that was read last.
fn next_line(before: Console, out: &mut [u8], line: &[u8]) -> Console
    requires { 1024 ≤ length line.now }
{
    let mut c = before;
    c.line = std::num::wrapping_add_u64(before.line, 1);
    let l = c.lines;
    if 1024 < l.size {
        return console_text::error(c, out, b"at most 1024 bytes before a comment");
    }
    text_line(c, out, lines::text(l, line))
}

// After the last line: says if the input was not read to its end, and writes out what waits.
fn finish(c: Console, out: &mut [u8]) {
    let l = c.lines;
    if l.is_broken {
        let said = lines::put_between(
            l,
            out,
            b"line ",
            std::num::wrapping_add_u64(c.line, 1),
            b": the input cannot be read to its end\n",
        );
        lines::finish(said, out);
        return;
    }
    lines::finish(l, out);
}

// Answers standard input, line by line. A proved loop has to end, and nothing says that the input does: so the loop has a number of turns that
// no run uses up.
pub fn serve(stdin: Stdin) {
    let mut chunk = io::buffer();
    let mut line = [0u8; 1024];
    let mut out = io::buffer();
    let mut c = console_text::start();
    for _ in 0..u64::MAX {
        let l = lines::next(stdin, c.lines, &mut chunk, &mut line, &out);
        c = console_text::with_lines(c, l);
        if l.is_over {
            break;
        }
        c = next_line(c, &mut out, &line);
    }
    finish(c, &mut out);
}
