// What a plan is, when it is valid, and how it is spelled: definitions and laws. The code here is the reader's answer, and a plan's fields as they are lent.
#![tactic(auto)]

mod fields;
pub mod refusal;

pub use fields::PlanFields;

// A plan as the reader answers it: code 0 and the plan, with 0 in the entries that it does not use; or a refusal's number, and zeros.
// `ms` has 12 places for each Sobol axis.
#[derive(Clone, Copy)]
pub struct PlanRead {
    pub code: u64,
    pub family: u64,
    pub axes: usize,
    pub bases: [u64; 6],
    pub polynomials: [u64; 6],
    pub ms: [u64; 72],
}
