// Runs the points that the source documents print through the library, and writes how many of each group agree.
#![tactic(auto)]

mod agreement;
mod hammersley;
mod printed;

use agreement::Printed;

const STDOUT_FILENO: i32 = 1;

// Writes a group's line: its label, how many of its rows agree, and how many there are.
fn put_line(label: &[u8], agreed: usize, rows: usize) {
    io::write_all(STDOUT_FILENO, label);
    io::write_all(STDOUT_FILENO, b": ");
    io::print_decimal(STDOUT_FILENO, agreed as u64);
    io::write_all(STDOUT_FILENO, b" of ");
    io::print_decimal(STDOUT_FILENO, rows as u64);
    io::write_all(STDOUT_FILENO, b"\n");
}

// The line of a table of points.
fn report(label: &[u8], printed: Printed, axes: [u64; 3], table: &[[u64; 7]]) {
    let agreed = agreement::count_agreeing(printed, axes, table);
    put_line(label, agreed, table.len());
}

// The line of a list of images in base `b`.
fn report_images(label: &[u8], family: u64, b: u64, list: &[u64]) {
    let agreed = agreement::count_images(family, b, list);
    put_line(label, agreed, list.len());
}

// The groups of document 001 with the permutations of Kocis and Whiten.
fn kocis_whiten() {
    let kocis = Printed::Halton { family: 3 };
    report_images(
        b"001 base 31 Kocis-Whiten, images 0 to 30",
        3,
        31,
        &printed::KOCIS_THIRTY_ONE,
    );
    report_images(
        b"001 base 10 Kocis-Whiten, images 0 to 9",
        3,
        10,
        &printed::KOCIS_TEN,
    );
    report(
        b"001 base 7 Kocis-Whiten, terms 1 to 6",
        kocis,
        [7, 0, 0],
        &printed::KOCIS_SEVEN,
    );
    report(
        b"001 bases 2 3 5 Kocis-Whiten, term 3",
        kocis,
        [2, 3, 5],
        &printed::KOCIS_FIRST_THREE,
    );
    report(
        b"001 bases 7 11 13 Kocis-Whiten, term 3",
        kocis,
        [7, 11, 13],
        &printed::KOCIS_NEXT_THREE,
    );
    report(
        b"001 base 17 Kocis-Whiten, term 3",
        kocis,
        [17, 0, 0],
        &printed::KOCIS_LAST,
    );
}

// The groups of document 001: Halton points, plain and permuted.
fn document_001() {
    let plain = Printed::Halton { family: 0 };
    let permuted = Printed::Halton { family: 1 };
    report(
        b"001 base 2, terms 1 to 10",
        plain,
        [2, 0, 0],
        &printed::FIRST_TEN,
    );
    report(
        b"001 base 2, terms 0 to 15",
        plain,
        [2, 0, 0],
        &printed::FROM_ZERO,
    );
    report(
        b"001 bases 2 3 5, terms 1 to 6",
        plain,
        [2, 3, 5],
        &printed::HALTON_VECTORS,
    );
    report(
        b"001 bases 2 3 5 permuted, terms 1 to 11",
        permuted,
        [2, 3, 5],
        &printed::SCRAMBLED_VECTORS,
    );
    report(
        b"001 base 7 permuted, terms 1 to 6",
        permuted,
        [7, 0, 0],
        &printed::SCRAMBLED_SEVEN,
    );
}

// The groups of document 002: Halton points, steps that carry, and a Hammersley set.
fn document_002() {
    let plain = Printed::Halton { family: 0 };
    report(
        b"002 base 3, terms 0 to 17",
        plain,
        [3, 0, 0],
        &printed::BASE_THREE,
    );
    report(
        b"002 bases 2 3, terms 0 to 9",
        plain,
        [2, 3, 0],
        &printed::TWO_DIMENSIONS,
    );
    report(
        b"002 base 2, carry from 183 to 184",
        plain,
        [2, 0, 0],
        &printed::CARRY_BASE_TWO,
    );
    report(
        b"002 base 3, carry from 1718 to 1719",
        plain,
        [3, 0, 0],
        &printed::CARRY_BASE_THREE,
    );
    put_line(
        b"002 Hammersley set of 10, base 2",
        hammersley::count_agreeing(),
        10,
    );
}

// The groups of document 003: a Sobol axis of the polynomial x^3 + x + 1.
fn document_003() {
    report(b"003 m_4 to m_6", Printed::SobolM, [11, 0, 0], &printed::M);
    report(
        b"003 v_1 to v_4",
        Printed::SobolDirection,
        [11, 0, 0],
        &printed::DIRECTIONS,
    );
    report(
        b"003 points 0 to 3",
        Printed::SobolPoint,
        [11, 0, 0],
        &printed::POINTS,
    );
}

// Every group, document by document.
fn main() {
    document_001();
    kocis_whiten();
    document_002();
    document_003();
}
