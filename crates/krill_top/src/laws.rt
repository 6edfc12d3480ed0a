//! The laws of the crates below that each run's proof goes by.

ghost use Rattle.krill_top.specs.inner.RunLaws.{RunLaws};

use cmd_codec::listed_names_are_names;
use desk_core::commands_are_determined;
use editions::{
    accepted_names_are_apart, editions_are_published, editions_leave_a_set, steps_stay_steps,
};
use histories::{headline, legal_histories_go_on, what_a_press_holds, what_was_done_goes_on};
use press_core::{edition_records_go_on, more_editions_stay_shown, records_tell_one_store};

/// What those crates say of all commands, editions and histories, as far as a run needs it.
pub(crate) fn laws_of_runs()
    ensures { RunLaws }
{
    more_editions_stay_shown();
    edition_records_go_on();
    what_a_press_holds();
    commands_are_determined();
    records_tell_one_store();
    accepted_names_are_apart();
    listed_names_are_names();
    editions_leave_a_set();
    editions_are_published();
    steps_stay_steps();
    what_was_done_goes_on();
    legal_histories_go_on();
    headline();
}
