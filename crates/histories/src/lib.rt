//! What holds after every history of a store: commands and publications in any order, device calls that fail, stops
//! within any write, and the store opened again. Definitions, and the theorem about them.
#![tactic(auto)]

mod laws;

pub use laws::{
    headline, histories_end_at_faults_and_stops, histories_that_break_a_rule_are_refused,
    legal_histories_go_on, snapshots_tell_their_serials, some_histories_are_legal,
    some_histories_with_editions_are_legal, what_a_press_holds, what_was_done_goes_on,
};
