// The program `walk`, over standard input and output. It reads more than the 72 bytes that decide. A read or a write that fails is said on standard
// error, and nothing then looks like an answer.
#![tactic(auto)]

ghost use Rattle.io.specs.Counts.{IsPrefixLen};

use std::io::Read;
use std::rt::Stdin;

const STDOUT_FILENO: i32 = 1;

const STDERR_FILENO: i32 = 2;

// How many bytes were read, and whether a read failed.
#[derive(Clone, Copy)]
struct Got {
    size: usize,
    is_broken: bool,
}

// Reads standard input into a buffer, up to its end or until the buffer is full.
fn read_all(stdin: Stdin, input: &mut [u8]) -> Got
    ensures { IsPrefixLen result.size input.new }
{
    let mut from = stdin;
    let mut size = 0;
    while size < input.len() {
        match from.read(&mut input[size..]) {
            Ok(0) => {
                return Got {
                    size,
                    is_broken: false,
                };
            }
            Ok(n) => size += n,
            Err(_) => {
                return Got {
                    size,
                    is_broken: true,
                };
            }
        }
    }
    Got {
        size,
        is_broken: false,
    }
}

// Reads plan bytes, and prints the number of axes and the points of the indexes 0 to 3, or the refusal.
pub fn walk(stdin: Stdin) {
    let mut input = [0u8; 128];
    let r = read_all(stdin, &mut input);
    if r.is_broken {
        io::write_all(STDERR_FILENO, b"the input cannot be read to its end\n");
        return;
    }
    let n = r.size;
    let mut text = [0u8; 1024];
    let length = walk_text::walk(&input[..n], &mut text);
    if !io::write_all(STDOUT_FILENO, &text[..length]) {
        io::write_all(STDERR_FILENO, b"the output is not whole: a write failed\n");
    }
}
