// The refusals and their numbers. Each comment has the trade's word of 01-scope.md, and from 16 on of 02-change-requests.md.

ghost use Rattle.std.specs.Prelude.{◌≡◌};
ghost use Rattle.plan.specs.RefusalNumbers.{number_of};

#[derive(Clone, Copy, PartialEq, Eq, Debug)]
pub enum Refusal {
    // short: the bytes end before a field's last bit
    Truncated = 1,
    // family: never given by a call, since every family is read (02-change-requests.md, K5); words that name no family have it
    BadFamily = 2,
    // axes: 0 or 7
    BadAxisCount = 3,
    // base: base 1
    BadBase = 4,
    // shared factor: base not coprime to an earlier one
    CommonFactor = 5,
    // degree: above 12
    BadDegree = 6,
    // not primitive: polynomial of degree 1 or more isn't primitive
    NotPrimitive = 7,
    // even: a given m_i is even
    EvenNumber = 8,
    // twin: polynomial of an earlier axis again
    RepeatedPolynomial = 9,
    // tail: a filling bit is 1, or a byte follows
    TrailingData = 10,
    // range: index of a jump, second, slot or C point at or above 2^32; start + count of a run above 2^32, for any start given
    OutOfRange = 11,
    // spent: no point left
    Exhausted = 12,
    // room: buffer shorter than one point, the plan, or the count's 16 bytes
    BufferTooSmall = 13,
    // window: u or q outside its range, or not one u and one q per axis
    BadWindow = 14,
    // foreign: a state that no accepted reading, with any accepted openings, steps and blocks after it, leaves
    InvalidState = 15,
    // slots: a slot count outside 1 to 2^24, or an axis that the plan lacks
    BadSlots = 16,
    // split start: a Sobol plan with unequal starts, or not one start for each axis
    SplitStart = 17,
}

impl Refusal {
    // The number that a call answers for it.
    pub fn number(self) -> u64
        ensures { result ≡ number_of self }
    {
        self as u64
    }
}

// The numbers by name, as hosts know them.
pub const TRUNCATED: u64 = Refusal::Truncated as u64;

pub const BAD_FAMILY: u64 = Refusal::BadFamily as u64;

pub const BAD_AXIS_COUNT: u64 = Refusal::BadAxisCount as u64;

pub const BAD_BASE: u64 = Refusal::BadBase as u64;

pub const COMMON_FACTOR: u64 = Refusal::CommonFactor as u64;

pub const BAD_DEGREE: u64 = Refusal::BadDegree as u64;

pub const NOT_PRIMITIVE: u64 = Refusal::NotPrimitive as u64;

pub const EVEN_NUMBER: u64 = Refusal::EvenNumber as u64;

pub const REPEATED_POLYNOMIAL: u64 = Refusal::RepeatedPolynomial as u64;

pub const TRAILING_DATA: u64 = Refusal::TrailingData as u64;

pub const OUT_OF_RANGE: u64 = Refusal::OutOfRange as u64;

pub const EXHAUSTED: u64 = Refusal::Exhausted as u64;

pub const BUFFER_TOO_SMALL: u64 = Refusal::BufferTooSmall as u64;

pub const BAD_WINDOW: u64 = Refusal::BadWindow as u64;

pub const INVALID_STATE: u64 = Refusal::InvalidState as u64;

pub const BAD_SLOTS: u64 = Refusal::BadSlots as u64;

pub const SPLIT_START: u64 = Refusal::SplitStart as u64;
