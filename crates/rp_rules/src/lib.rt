//! The walk of a relying party over a published set, as definitions (RFC 6487 section 7, RFC 9286 section 6,
//! RFC 9582), and what an audit of a set gives.
#![tactic(auto)]

mod audited;
mod laws;
mod rules;

pub use audited::{Audited, AuditedPoint, YieldedOrigin};
pub use laws::{
    accepted_objects_keep_the_rules, asked_signatures_decide, each_uri_is_visited_once,
    lasting_rules_last, listed_files_are_visited, more_vouched_stays_sound,
    sets_are_inside_by_numbers, spans_are_had_by_numbers, visits_are_accepted,
};
pub use rules::Rule;
