// Builds plans from lines of words, and prints under each line the plan's bytes in hexadecimal and its words, or what is wrong.
#![tactic(auto)]

use plan::PlanFields;

const STDOUT_FILENO: i32 = 1;

fn print(text: &[u8]) {
    io::write_all(STDOUT_FILENO, text);
}

// A hexadecimal digit.
fn digit(n: u8) -> u8 {
    let k = n % 16;
    if k < 10 { 48 + k } else { 87 + k }
}

// The bytes, two digits each.
fn print_hex(bytes: &[u8]) {
    for b in bytes {
        print(&[digit(*b / 16), digit(*b)]);
    }
    print(b"\n");
}

// The words of the plan that bytes spell.
fn print_words(bytes: &[u8]) {
    let a = reader::read_plan(bytes);
    let p = PlanFields {
        family: a.family,
        axes: a.axes,
        bases: &a.bases,
        polynomials: &a.polynomials,
        ms: &a.ms,
    };
    let mut text = [0u8; 512];
    let n = plan_text::put_words(&mut text, p);
    print(&text[..n]);
    print(b"\n");
}

// A line, and what it builds in a buffer.
fn build_into(line: &[u8], bytes: &mut [u8]) {
    print(line);
    print(b"\n    ");
    match plan_builder::build(line, 0, bytes) {
        Ok(len) => {
            print_hex(&bytes[..len]);
            print(b"    ");
            print_words(&bytes[..len]);
        }
        Err(fault) => {
            let mut text = [0u8; 256];
            let n = fault_text::message(fault, &mut text);
            print(&text[..n]);
            print(b"\n");
        }
    }
}

// A line, and what it builds where there is room for any plan.
fn build(line: &[u8]) {
    let mut bytes = [0u8; 71];
    build_into(line, &mut bytes);
}

// Plans of each family.
fn good() {
    build(b"halton 2 3 5");
    build(b"halton 256 255 253 251 247 241");
    build(b"permuted 4 9 25");
    build(b"  permuted\t007   2 ");
    build(b"sobol 0");
    build(b"sobol 0 11:1,3,7");
    build(b"sobol 3:1 7:1,1 13:1,3,5 11:1,3,7 0 19:1,1,3,15");
    build(b"sobol 4179:1,3,7,15,31,63,127,255,511,1023,2047,4095");
    build(b"kocis 10 3 7");
    build(b"kocis 256 255 253 251 247 241");
}

// Words that spell nothing.
fn misspelled() {
    build(b"");
    build(b"halt 2 3");
    build(b"Halton 2 3");
    build(b"kosic 2 3");
    build(b"halton");
    build(b"halton 2 3 5 7 11 13 17");
    build(b"halton 2 three");
    build(b"permuted 2 3 18446744073709551616");
    build(b"kocis 3 11:1,3,7");
    build(b"sobol 0 x");
    build(b"sobol 00");
    build(b"sobol 11");
    build(b"sobol 0 :1,3,7");
    build(b"sobol 11:1,3");
    build(b"sobol 11:1,3,7,5");
    build(b"sobol 3:1,1");
    build(b"sobol 11:1,,7");
    build(b"sobol 11:1,3,");
    build(b"sobol 11:1,3,-7");
    build(b"sobol 0:1");
    build(b"sobol 1:1");
    build(b"sobol 0 8219:1,1,1,1,1,1,1,1,1,1,1,1,1");
}

// Plans that are not valid.
fn unsound() {
    build(b"halton 2 1");
    build(b"halton 257");
    build(b"halton 0 3");
    build(b"permuted 3 18446744073709551615");
    build(b"halton 4 9 6");
    build(b"halton 4 5 6");
    build(b"halton 2 3 2");
    build(b"kocis 10 1");
    build(b"kocis 10 7 15");
    build(b"sobol 31:1,1,1,1");
    build(b"sobol 5:1,1");
    build(b"sobol 10:1,1,1");
    build(b"sobol 2:1");
    build(b"sobol 11:1,3,7 11:1,1,1");
    build(b"sobol 0 3:1 0");
    build(b"sobol 0 11:1,3,4");
    build(b"sobol 11:1,4,7");
    build(b"sobol 11:1,5,7");
    build(b"sobol 0 11:1,3,9");
    build(b"sobol 11:0,3,7");
}

// A buffer of three bytes: a plan that fits, and one that does not.
fn no_room() {
    let mut bytes = [0u8; 3];
    build_into(b"halton 2 3", &mut bytes);
    build_into(b"halton 2 3 5", &mut bytes);
}

fn main() {
    good();
    no_room();
    misspelled();
    unsound();
}
