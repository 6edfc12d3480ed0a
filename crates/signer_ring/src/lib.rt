//! Several signers as one: each is called by its number, and all are asked whether they vouch; and calls on them as
//! a list: what each leaves of the signers, and what they vouch for.
#![tactic(auto)]

mod call_fault;
mod calls;
mod fault;
mod jobs;
mod laws;
mod merging;
mod ring;
mod side;
mod workers;

pub use call_fault::CallFault;
pub use calls::{make_key, sign, sign_once};
pub use fault::RingFault;
pub use jobs::{SignJob, Signed};
pub use laws::vouched_stays;
pub use ring::Ring;
