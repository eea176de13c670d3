// Lines with calls that are lent words.
use crate::Held;
use console_text::Console;

// Such a call; a jump with its index.
#[derive(Clone, Copy)]
pub enum Lent {
    Jump(u64),
    Step,
    Place,
    Block,
    DayJump(u64),
    DayStep,
    DayBlock,
}

// Makes the call on the words that are lent.
fn call(c: Console, out: &mut [u8], which: Lent, words: &mut [u64]) -> Console {
    if let Lent::Jump(index) = which {
        return console_calls::jump(c, out, index, words);
    }
    if let Lent::Step = which {
        return console_calls::step(c, out, words);
    }
    if let Lent::Place = which {
        return console_calls::place(c, out, words);
    }
    if let Lent::Block = which {
        return console_calls::block(c, out, words);
    }
    if let Lent::DayJump(n) = which {
        return console_day::jump(c, out, n, words);
    }
    if let Lent::DayStep = which {
        return console_day::step(c, out, words);
    }
    console_day::block(c, out, words)
}

// Lends so many words to the call.
fn lend(c: Console, out: &mut [u8], which: Lent, most: u64) -> Console {
    if console_text::MOST_ROOM < most {
        return console_text::no_room(c, out);
    }
    let room = most as usize;
    let mut words = console_text::lent_words();
    call(c, out, which, &mut words[..room])
}

// A line of a first word and ROOM.
pub fn room(c: Console, out: &mut [u8], which: Lent, form: &[u8], rest: &[u8]) -> Console {
    let mut n = [0u64; 1];
    if let Err(e) = console_text::read_numbers(rest, &mut n) {
        return console_text::misread(c, out, form, e);
    }
    lend(c, out, which, n[0])
}

// `jump INDEX ROOM`, `dayjump N ROOM`.
pub fn jump(c: Console, out: &mut [u8], of: Held, form: &[u8], rest: &[u8]) -> Console {
    let mut n = [0u64; 2];
    if let Err(e) = console_text::read_numbers(rest, &mut n) {
        return console_text::misread(c, out, form, e);
    }
    if let Held::DaySet = of {
        return lend(c, out, Lent::DayJump(n[0]), n[1]);
    }
    lend(c, out, Lent::Jump(n[0]), n[1])
}
