//! What publications are: editions, what stands after them, the certificates that they hold and
//! supersede, and when an edition follows others; the steps from what stands to the next edition that ask no signer; and
//! the laws of planning, making and publishing.
#![tactic(auto)]

mod calling;
mod desk_laws;
mod ended;
mod folding;
mod gathered;
mod in_place;
mod joining;
mod lasting_laws;
mod limits;
mod making_laws;
mod object_laws;
mod plan_laws;
mod published_laws;
mod published_state;
mod row_merging;
mod sheets;
mod spare;
mod sparing_laws;
mod standing;
mod state_laws;
mod step_laws;

pub use desk_laws::{
    accepted_names_are_apart, issuers_are_certified, keys_are_of_desks, named_keys_are_there,
    revoked_until_later, withdrawn_stands,
};
pub use ended::{EndedKey, ended_keys};
pub use folding::{configs_with, cut_with};
pub use gathered::Gathered;
pub use lasting_laws::{
    certificates_name_their_folders, editions_leave_no_other_places, lives_are_of_one_key,
    new_manifests_are_lists, places_of_keys_stay, what_is_made_lasts, what_stands_was_made,
};
pub use limits::{first_at_end, next_moment};
pub use making_laws::{the_table_goes_on, what_is_planned_and_made_follows};
pub use object_laws::{
    all_that_is_made_is_new, certificates_have_own_serials, each_key_has_one_crl,
    issued_entries_are_told, issued_objects_are_new_ones, issued_rows_are_counted, manifests_rise,
    new_crls_list_what_is_superseded, objects_are_of_one_kind, puts_and_withdrawals_are_needed,
    rows_note_what_is_superseded, the_plans_keys_are_next, what_is_made_did_not_stand,
    what_is_put_stands,
};
pub use plan_laws::{
    made_keys_are_live, made_keys_have_signers, other_uris_are_clear, planned_work_can_be_made,
    roas_stay_by_name, wanted_objects_are_apart, wanted_uris_have_objects,
};
pub use published_laws::{
    editions_are_in_profile, editions_are_published, keys_are_of_a_tree, wanted_objects_have_drafts,
};
pub use published_state::{PublishedNumbers, PublishedState, StateParts};
pub use spare::{CurrentState, SetWithTable, Spare};
pub use sparing_laws::{just_what_does_not_fit_is_put, signatures_are_of_the_work};
pub use standing::{next_set, next_table};
pub use state_laws::{
    called_for_by_what_stands, gathered_commands_are_taken_in, gathered_commands_go_on,
};
pub use step_laws::{
    changes_make_what_stands, editions_follow_one_another, editions_leave_a_set,
    same_objects_same_set, steps_come_one_by_one, steps_count_up, steps_stay_steps,
    superseded_by_then,
};
