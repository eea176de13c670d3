// Lines of errors: texts and numbers put out, and what each refusal of a plan means.
use crate::Job;

// How many errors a picture has room for.
const SHOWN: u64 = 50;

// Puts a text, unless it is of an error that is not shown.
pub fn say(j: Job, out: &mut [u8], text: &[u8]) -> Job {
    if j.is_quiet {
        return j;
    }
    let mut next = j;
    next.lines = lines::put(j.lines, out, text);
    next
}

// Puts a number between two texts, unless it is of an error that is not shown.
pub fn say_between(j: Job, out: &mut [u8], before: &[u8], n: u64, after: &[u8]) -> Job {
    if j.is_quiet {
        return j;
    }
    let mut next = j;
    next.lines = lines::put_between(j.lines, out, before, n, after);
    next
}

// The place of the next error in a picture: a text of its own, below the earlier ones, small enough for the longest message.
fn place(j: Job, out: &mut [u8]) -> Job {
    if !j.is_picture {
        return j;
    }
    say_between(
        j,
        out,
        b"<text x=\"-110\" y=\"",
        std::num::wrapping_add_u64(j.errors, 1),
        b"em\" font-size=\"16\">",
    )
}

// Whether the next error is not shown: a picture has no room for more.
fn is_full(j: Job) -> bool {
    if j.is_picture {
        SHOWN <= j.errors
    } else {
        false
    }
}

// Begins the line of an error, and counts it.
pub fn fail(j: Job, out: &mut [u8]) -> Job {
    let mut begun = j;
    begun.is_quiet = is_full(j);
    let placed = place(begun, out);
    let mut next = say_between(placed, out, b"line ", j.line, b": ");
    next.errors = std::num::wrapping_add_u64(j.errors, 1);
    next
}

// The end of an error's line.
fn end_line(j: Job, out: &mut [u8]) -> Job {
    if j.is_picture {
        return say(j, out, b"</text>\n");
    }
    say(j, out, b"\n")
}

// Ends the line of an error with a text.
pub fn end(j: Job, out: &mut [u8], text: &[u8]) -> Job {
    let said = say(j, out, text);
    let mut next = end_line(said, out);
    next.is_quiet = false;
    next
}

// Ends the line of an error with a text and a number.
pub fn end_number(j: Job, out: &mut [u8], text: &[u8], n: u64) -> Job {
    let said = say_between(j, out, text, n, b"");
    end(said, out, b"")
}

// A whole error: what was expected.
pub fn error(j: Job, out: &mut [u8], what: &[u8]) -> Job {
    let begun = fail(j, out);
    end(begun, out, what)
}

// Ends the error of a refused reading with what its number means.
fn meaning(j: Job, out: &mut [u8], code: u64) -> Job {
    match code {
        1 => end(j, out, b"the bytes end before a field's last bit"),
        3 => end(j, out, b"the number of axes is 0 or 7"),
        4 => end(j, out, b"a base is 1"),
        5 => end(j, out, b"a base is not coprime to an earlier one"),
        6 => end(j, out, b"a degree is above 12"),
        7 => end(j, out, b"a polynomial of degree 1 or more is not primitive"),
        8 => end(j, out, b"a given m is even"),
        9 => end(j, out, b"a polynomial of an earlier axis again"),
        _ => end(j, out, b"a filling bit is 1, or a byte follows"),
    }
}

// The error of a refused plan.
pub fn refusal(j: Job, out: &mut [u8], code: u64) -> Job {
    let begun = fail(j, out);
    let numbered = say_between(begun, out, b"the plan is refused: ", code, b", ");
    meaning(numbered, out, code)
}

// How many errors are not shown, at the end of a picture that has some; a word of its own for one.
pub fn more_errors(j: Job, out: &mut [u8]) -> Job {
    if j.errors <= SHOWN {
        return j;
    }
    let mut last = j;
    last.errors = SHOWN;
    let placed = place(last, out);
    let more = j.errors - SHOWN;
    if more == 1 {
        return end(placed, out, b"and 1 more error");
    }
    let said = say_between(placed, out, b"and ", more, b" more errors");
    end(said, out, b"")
}
