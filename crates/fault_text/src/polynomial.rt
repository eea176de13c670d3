// A polynomial over two elements, as a number and its terms.

use std::fmt;

// The sum of the terms of a polynomial of degree at most 12, the highest first.
#[derive(Clone, Copy)]
struct Terms(u64);

impl fmt::Display for Terms {
    fn fmt<W: fmt::Write>(&self, f: &mut fmt::Formatter<W>) -> fmt::Result {
        let mut plus = "";
        for below in 0..13u32 {
            let k = 12 - below;
            if (self.0 >> k) & 1 == 1 {
                match k {
                    0 => write!(f, "{plus}1")?,
                    1 => write!(f, "{plus}x")?,
                    _ => write!(f, "{plus}x^{k}")?,
                }
                plus = " + ";
            }
        }
        Ok(())
    }
}

// A polynomial as a number, and its terms where there is more than the constant one.
#[derive(Clone, Copy)]
pub struct Polynomial(pub u64);

impl fmt::Display for Polynomial {
    fn fmt<W: fmt::Write>(&self, f: &mut fmt::Formatter<W>) -> fmt::Result {
        let p = self.0;
        if p < 2 {
            return write!(f, "{p}");
        }
        write!(f, "{p} ({})", Terms(p))
    }
}
