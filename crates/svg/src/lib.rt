// The picture of two axes of a run or of a day set, as SVG: its points, windows as frames, and the names around them. The frame is 1,000 units
// wide and high, and the second axis goes up.
#![tactic(auto)]

mod drawn;
mod frames;
mod names;

ghost use Rattle.std.specs.Prelude.{◌≤◌, length};

use lines::{Lines, put};
use sampler::Sampler;

// What is drawn: the axes `x` and `y` of the sampler's run, from 1, or of its day set if `is_day`, from 0, with the time of day along axis 1 if
// `is_time`; and how many windows.
#[derive(Clone, Copy)]
pub struct Drawing {
    pub state: Sampler,
    pub is_day: bool,
    pub x: u64,
    pub y: u64,
    pub is_time: bool,
    pub windows: usize,
}

// The place of an axis among the axes of a point and of a window: the first is axis 1, or a day set's leading axis, 0.
fn place_of(d: Drawing, axis: u64) -> u64 {
    if d.is_day {
        return axis;
    }
    std::num::wrapping_sub_u64(axis, 1)
}

// The picture's beginning and its ground, on which also errors are shown.
pub fn head(l: Lines, out: &mut [u8]) -> Lines {
    let begun = put(
        l,
        out,
        b"<svg xmlns=\"http://www.w3.org/2000/svg\" viewBox=\"-120 -90 1180 1200\" width=\"590\" height=\"600\" font-family=\"sans-serif\" font-size=\"26\">\n",
    );
    put(
        begun,
        out,
        b"<rect x=\"-120\" y=\"-90\" width=\"1180\" height=\"1200\" fill=\"#fff\"/>\n",
    )
}

// The picture's end.
pub fn tail(l: Lines, out: &mut [u8]) -> Lines {
    put(l, out, b"</svg>\n")
}

// The grid at the quarters, and the frame.
fn grid(l: Lines, out: &mut [u8]) -> Lines {
    let lines = put(
        l,
        out,
        b"<path d=\"M250 0V1000M500 0V1000M750 0V1000M0 250H1000M0 500H1000M0 750H1000\" stroke=\"#ddd\" stroke-width=\"2\"/>\n",
    );
    put(
        lines,
        out,
        b"<path d=\"M0 0V1000H1000V0Z\" fill=\"none\" stroke=\"#444\" stroke-width=\"2\"/>\n",
    )
}

// The title, the grid, and what stands around it.
fn ground(l: Lines, out: &mut [u8], d: Drawing) -> Lines {
    let titled = names::title(l, out, d);
    let ruled = grid(titled, out);
    names::around(ruled, out, d)
}

// All of the picture between its beginning and its end. `cuts` has u and q of seven axes for each window in turn, `names` 32 bytes for each:
// its name, and zeros.
pub fn draw(l: Lines, out: &mut [u8], d: Drawing, cuts: &[u64], names: &[u8]) -> Lines
    requires { (d.windows ≤ 32) × (448 ≤ length cuts.now) × (1024 ≤ length names.now) }
{
    let ruled = ground(l, out, d);
    let pointed = drawn::all(ruled, out, d);
    frames::all(pointed, out, d, cuts, names)
}
