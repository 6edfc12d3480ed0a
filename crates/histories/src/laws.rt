//! The theorem.

ghost use Rattle.std.specs.Prelude.{◌≡◌, ◌≢◌, ℕ, ◌+◌, ◌<◌, ◌≤◌, ◌++◌, ◌∷◌, [], All, List, Bool, false, true, Option, None, Some, IfSome, Ok, drop, get_or, length, slice_get, take};
ghost use Rattle.authority_book.specs.declared.commands.Command.{Command};
ghost use Rattle.gate_journal.specs.Format.{held_by};
ghost use Rattle.key_ids.specs.Base.{IsBase, rsync_scheme};
ghost use Rattle.key_ids.specs.Uris.{Bases};
ghost use Rattle.signer_api.specs.State.{SignerState};
ghost use Rattle.crl_obj.specs.Values.{SignedCrl};
ghost use Rattle.rp_rules.specs.Objects.{crl_in};
ghost use Rattle.rrdp_text.specs.Template.{snapshot_in};
ghost use Rattle.rrdp_text.specs.Texts.{snapshot_text};
ghost use Rattle.rrdp_text.specs.Values.{IsUuid};
ghost use Rattle.pub_set.specs.declared.objects.Object.{Object};
ghost use Rattle.pub_set.specs.Objects.{content_at, IsAscending};
ghost use Rattle.editions.specs.Edition.{Edition, cut_at};
ghost use Rattle.editions.specs.Held.{HaveOwnSerials};
ghost use Rattle.editions.specs.PlannedAndMade.{IsPlannedAndMade};
ghost use Rattle.editions.specs.Published.{IsPublished, ManifestsRise};
ghost use Rattle.editions.specs.Step.{AreMore, AreSteps, BeginsWith};
ghost use Rattle.histories.specs.Devices.{Device, Signature, are_vouched, doubt_at, for_desk, new_store};
ghost use Rattle.histories.specs.Events.{Event, History, signing};
ghost use Rattle.histories.specs.Events.Event.{Commit, Publish, DeskFault, PressFault, Stop, Reopen};
ghost use Rattle.histories.specs.Legal.{CanBeWritten, IsLegal, IsNextCommand, IsOfBytes, InTurn, MayBePublished, bytes_for, ground_of, most_bytes, press_bytes_for};
ghost use Rattle.press_core.specs.JournalRecords.{AreRecords, press_limit, store_for};
ghost use Rattle.histories.specs.Acknowledged.{acknowledged, commands_of, editions_of, ground_after, signatures_of};
ghost use Rattle.histories.specs.Found.{AreFoundAfter, TakesIn, latest, reopening_by, store_after};
ghost use Rattle.histories.specs.Refused.{IsReopening, AreNoReopenings};
ghost use Rattle.histories.specs.Work.{Work, IsWork, GoesOnAs};
ghost use Rattle.histories.specs.Worked.{worked, with_edition, with_doubted_edition};
ghost use Rattle.editions.specs.Superseded.{ListsSuperseded};
ghost use Rattle.histories.specs.Published.{HasEdition, HasSnapshot, HasDelta, set_of, applied};

use cmd_codec::listed_names_are_names;
use editions::{
    accepted_names_are_apart, certificates_have_own_serials, editions_are_published,
    editions_follow_one_another, editions_leave_a_set, manifests_rise,
    new_crls_list_what_is_superseded, steps_count_up, steps_stay_steps, superseded_by_then,
    what_is_planned_and_made_follows,
};
use rrdp_text::texts_are_read_back;

/// What holds after every history of a store, whatever was done, failed or stopped in it, and however often.
pub fn headline()
    // A beginning of a legal history is legal, so that each clause holds at every time in it.
    ensures beginnings { (site : Bases) (history later : History) → IsLegal site (history ++ later) → IsLegal site history }
    // Opened again, each desk has the commands that were acknowledged, with or without the one in doubt, and the press
    // its editions: the serial is the latest acknowledged one or the next.
    ensures found { (site : Bases) (history : History) (signed : List Signature)
        (lists : List (List Command)) (editions : List Edition)
        → IsLegal site (history ++ record { signed = signed; event = Reopen lists editions } ∷ [])
        → AreFoundAfter history lists editions }
    // What was acknowledged stands, whatever comes behind it.
    ensures commands_stand { (site : Bases) (history later : History) → IsLegal site (history ++ later)
        → AreMore (acknowledged history).commands (acknowledged (history ++ later)).commands }
    ensures editions_stand { (site : Bases) (history later : History) → IsLegal site (history ++ later)
        → (rest : List Edition) × (editions_of (history ++ later) ≡ editions_of history ++ rest) }
    // Each command was accepted after those before it.
    ensures commands { (site : Bases) (history : History) (desk : ℕ) → IsLegal site history
        → InTurn (IsNextCommand desk) (commands_of history desk) }
    // A desk's journal never passes its limit.
    ensures limits { (site : Bases) (history : History) (desk : ℕ) → IsLegal site history
        → bytes_for (commands_of history desk) ≤ most_bytes }
    // Nor does the press's, with the record that says whose store it is and one of each edition.
    ensures press_limits { (site : Bases) (history : History) → IsLegal site history
        → editions_of history ≢ [] → press_bytes_for site (editions_of history) ≤ press_limit }
    // Each edition follows those before it, over the commands that were acknowledged.
    ensures steps { (site : Bases) (history : History) → IsLegal site history
        → AreSteps (ground_after site history) (editions_of history) }
    // Each has the serial that it was published with.
    ensures serials { (site : Bases) (history : History) (serial : ℕ) (edition : Edition)
        → IsLegal site history → HasEdition history serial edition → edition.serial ≡ serial }
    // The set of each published serial is sound at its moment, and yields the origins that are owed at its cut, each once.
    ensures published { (site : Bases) (history : History) (serial : ℕ) (edition : Edition)
        → IsLegal site history → HasEdition history serial edition
        → IsPublished (ground_after site history) edition (set_of history serial) }
    // Its cut never passes the commands that were acknowledged.
    ensures cuts { (site : Bases) (history : History) (serial : ℕ) (edition : Edition)
        → IsLegal site history → HasEdition history serial edition → TakesIn history edition }
    // The deltas from one serial to another lead from set to set.
    ensures deltas { (history : History) (from to : ℕ) → from ≤ to
        → applied (set_of history from) (drop from (take to (editions_of history))) ≡ set_of history to }
    // Its snapshot is read back as the set, and its delta as its changes, in whichever session.
    ensures snapshots { (site : Bases) (history : History) (session : List ℕ) (serial : ℕ) (edition : Edition)
        → IsBase rsync_scheme site.rsync → IsUuid session → IsLegal site history
        → HasEdition history serial edition → HasSnapshot session serial (set_of history serial) }
    ensures delta_texts { (site : Bases) (history : History) (session : List ℕ) (serial : ℕ) (edition : Edition)
        → IsBase rsync_scheme site.rsync → IsUuid session → IsLegal site history
        → HasEdition history serial edition → HasDelta session edition }
    // A CRL that it puts lists just the certificates that are superseded under its key.
    ensures crls { (site : Bases) (history : History) (serial : ℕ) (edition : Edition)
        (uri bytes : List ℕ) (crl : SignedCrl) → IsLegal site history
        → HasEdition history (serial + 1) edition
        → set_of history (serial + 1) uri ≡ Some bytes → set_of history serial uri ≢ Some bytes
        → crl_in bytes ≡ Some crl
        → ListsSuperseded (editions_of history) serial crl }
    // A manifest that takes the place of another rises, and no two certificates of a key's life have one serial.
    ensures manifests { (site : Bases) (history : History) (serial : ℕ) (edition : Edition)
        → IsLegal site history → HasEdition history (serial + 1) edition
        → ManifestsRise (set_of history serial) (set_of history (serial + 1)) }
    ensures certificates { (site : Bases) (history : History) (id : List ℕ)
        → IsLegal site history → HaveOwnSerials (editions_of history) id }
{
    accepted_names_are_apart();
    certificates_have_own_serials();
    editions_are_published();
    editions_follow_one_another();
    editions_leave_a_set();
    listed_names_are_names();
    manifests_rise();
    new_crls_list_what_is_superseded();
    steps_count_up();
    steps_stay_steps();
    superseded_by_then();
    texts_are_read_back();
}

/// What no legal history has: at a desk, or at the press, a second record behind one whose write failed, whatever comes
/// between them but a reopening; and behind a stop anything but a reopening. Behind a reopening nothing is in doubt.
pub fn histories_end_at_faults_and_stops()
    ensures commits { (site : Bases) (history between : History) (signed later : List Signature)
        (desk : ℕ) (command other : Command) → AreNoReopenings between
        → IsLegal site (history ++ record { signed = signed; event = DeskFault desk command }
        ∷ between ++ record { signed = later; event = Commit desk other } ∷ []) → ⊥ }
    ensures desk_faults { (site : Bases) (history between : History) (signed later : List Signature)
        (desk : ℕ) (command other : Command) → AreNoReopenings between
        → IsLegal site (history ++ record { signed = signed; event = DeskFault desk command }
        ∷ between ++ record { signed = later; event = DeskFault desk other } ∷ []) → ⊥ }
    ensures publications { (site : Bases) (history between : History) (signed later : List Signature)
        (edition other : Edition) → AreNoReopenings between
        → IsLegal site (history ++ record { signed = signed; event = PressFault edition }
        ∷ between ++ record { signed = later; event = Publish other } ∷ []) → ⊥ }
    ensures press_faults { (site : Bases) (history between : History) (signed later : List Signature)
        (edition other : Edition) → AreNoReopenings between
        → IsLegal site (history ++ record { signed = signed; event = PressFault edition }
        ∷ between ++ record { signed = later; event = PressFault other } ∷ []) → ⊥ }
    // The record whose write failed stays in doubt until a reopening.
    ensures desk_doubts { (site : Bases) (history between : History) (signed : List Signature)
        (desk : ℕ) (command : Command) → AreNoReopenings between
        → let whole = history ++ record { signed = signed; event = DeskFault desk command } ∷ between in
        IsLegal site whole → doubt_at (store_after whole).desks desk ≡ Some command }
    ensures press_doubts { (site : Bases) (history between : History) (signed : List Signature)
        (edition : Edition) → AreNoReopenings between
        → let whole = history ++ record { signed = signed; event = PressFault edition } ∷ between in
        IsLegal site whole → (store_after whole).press.doubt ≡ Some edition }
    ensures stops { (site : Bases) (history : History) (signed later : List Signature)
        (commands : List (Option Command)) (edition : Option Edition) (event : Event)
        → IsLegal site (history ++ record { signed = signed; event = Stop commands edition }
        ∷ record { signed = later; event = event } ∷ []) → IsReopening event }
    // Behind a stop a journal that was open has in doubt what the stop names there, or nothing.
    ensures stop_doubts { (history : History) (signed : List Signature) (commands : List (Option Command))
        (edition : Option Edition) (desk : ℕ) (device : Device Command)
        → slice_get (store_after history).desks desk ≡ Some device → device.shut ≡ false
        → let store = store_after (history ++ record { signed = signed; event = Stop commands edition } ∷ []) in
        doubt_at store.desks desk ≡ for_desk commands desk }
    ensures stop_press_doubts { (history : History) (signed : List Signature)
        (commands : List (Option Command)) (edition : Option Edition)
        → (store_after history).press.shut ≡ false
        → let store = store_after (history ++ record { signed = signed; event = Stop commands edition } ∷ []) in
        store.press.doubt ≡ edition }
    ensures settled { (history : History) (signed : List Signature) (lists : List (List Command))
        (editions : List Edition) (desk : ℕ)
        → let store = store_after (history ++ record { signed = signed; event = Reopen lists editions } ∷ []) in
        (doubt_at store.desks desk ≡ None) × (store.press.doubt ≡ None) }
{}

/// Lists of events of which each breaks one rule: no such list is a legal history.
pub fn histories_that_break_a_rule_are_refused()
    // A reopening that lost a command which was acknowledged at some time before it.
    ensures lost_commands { (site : Bases) (history later : History) (signed : List Signature)
        (lists : List (List Command)) (editions : List Edition) (desk : ℕ)
        → ¬ BeginsWith (commands_of history desk) (get_or lists desk [])
        → IsLegal site (history ++ later ++ record { signed = signed; event = Reopen lists editions } ∷ []) → ⊥ }
    // A stop that puts a second record in doubt at a desk whose write failed, and at the press.
    ensures two_commands_in_doubt { (site : Bases) (history between : History) (signed later : List Signature)
        (desk : ℕ) (command other : Command) (commands : List (Option Command)) (edition : Option Edition)
        → AreNoReopenings between → for_desk commands desk ≡ Some other
        → IsLegal site (history ++ record { signed = signed; event = DeskFault desk command }
        ∷ between ++ record { signed = later; event = Stop commands edition } ∷ []) → ⊥ }
    ensures two_editions_in_doubt { (site : Bases) (history between : History) (signed later : List Signature)
        (edition other : Edition) (commands : List (Option Command)) → AreNoReopenings between
        → IsLegal site (history ++ record { signed = signed; event = PressFault edition }
        ∷ between ++ record { signed = later; event = Stop commands (Some other) } ∷ []) → ⊥ }
    // A record in doubt that survives a reopening: one that didn't find it, and then one that does.
    ensures commands_found_later { (site : Bases) (history : History) (signed later : List Signature)
        (lists others : List (List Command)) (editions more : List Edition) (desk : ℕ)
        → get_or others desk [] ≢ get_or lists desk []
        → IsLegal site (history ++ record { signed = signed; event = Reopen lists editions }
        ∷ record { signed = later; event = Reopen others more } ∷ []) → ⊥ }
    ensures editions_found_later { (site : Bases) (history : History) (signed later : List Signature)
        (lists others : List (List Command)) (editions more : List Edition) → more ≢ editions
        → IsLegal site (history ++ record { signed = signed; event = Reopen lists editions }
        ∷ record { signed = later; event = Reopen others more } ∷ []) → ⊥ }
    // A publication whose cut counts more commands of a desk than were acknowledged, as the one in doubt would be.
    ensures doubted_cuts { (site : Bases) (history : History) (signed : List Signature) (edition : Edition) (desk : ℕ)
        → length (commands_of history desk) < cut_at edition.cut desk
        → IsLegal site (history ++ record { signed = signed; event = Publish edition } ∷ []) → ⊥ }
    // A reopening that finds an edition which nobody offered: it wasn't acknowledged, and isn't in doubt.
    ensures strange_editions { (site : Bases) (history : History) (signed : List Signature)
        (lists : List (List Command)) (editions : List Edition) (place : ℕ) (edition : Edition)
        → slice_get editions place ≡ Some edition → slice_get (editions_of history) place ≢ Some edition
        → (store_after history).press.doubt ≢ Some edition
        → IsLegal site (history ++ record { signed = signed; event = Reopen lists editions } ∷ []) → ⊥ }
    // A publication on a journal that is shut, and a commit on one.
    ensures shut_press { (site : Bases) (history : History) (signed : List Signature) (edition : Edition)
        → (store_after history).press.shut ≡ true
        → IsLegal site (history ++ record { signed = signed; event = Publish edition } ∷ []) → ⊥ }
    ensures shut_desks { (site : Bases) (history : History) (signed : List Signature) (desk : ℕ)
        (command : Command) (device : Device Command)
        → slice_get (store_after history).desks desk ≡ Some device → device.shut ≡ true
        → IsLegal site (history ++ record { signed = signed; event = Commit desk command } ∷ []) → ⊥ }
    // A commit behind a stop.
    ensures stopped_commits { (site : Bases) (history : History) (signed later : List Signature)
        (commands : List (Option Command)) (edition : Option Edition) (desk : ℕ) (command : Command)
        → IsLegal site (history ++ record { signed = signed; event = Stop commands edition }
        ∷ record { signed = later; event = Commit desk command } ∷ []) → ⊥ }
    // A signature that is vouched at some time, and later isn't: no list of events at all has one.
    ensures vouched_no_more { (site : Bases) (history later : History) (key digest bytes : List ℕ)
        → (ground_after site history).vouched key digest bytes ≡ true
        → (ground_after site (history ++ later)).vouched key digest bytes ≡ false → ⊥ }
    // A publication of another serial than the next one.
    ensures other_serials { (site : Bases) (history : History) (signed : List Signature) (edition : Edition)
        → edition.serial ≢ latest (editions_of history) + 1
        → IsLegal site (history ++ record { signed = signed; event = Publish edition } ∷ []) → ⊥ }
    // A command behind which the desk's list takes more bytes than its journal has room for.
    ensures too_many_bytes { (site : Bases) (history : History) (signed : List Signature) (desk : ℕ)
        (command : Command) → most_bytes < bytes_for (commands_of history desk ++ command ∷ [])
        → IsLegal site (history ++ record { signed = signed; event = Commit desk command } ∷ []) → ⊥ }
    // An edition behind which the records take more bytes than the press's journal has room for.
    ensures too_large_editions { (site : Bases) (history : History) (signed : List Signature) (edition : Edition)
        → press_limit < press_bytes_for site (editions_of history ++ edition ∷ [])
        → IsLegal site (history ++ record { signed = signed; event = Publish edition } ∷ []) → ⊥ }
{}

/// The text of a serial's snapshot is read as that of no other serial.
pub fn snapshots_tell_their_serials()
    ensures { (site : Bases) (history : History) (session named : List ℕ) (serial other : ℕ)
        (edition : Edition) (objects found : List Object)
        → IsBase rsync_scheme site.rsync → IsUuid session → IsLegal site history
        → HasEdition history serial edition → IsAscending objects
        → ((uri : List ℕ) → content_at objects uri ≡ set_of history serial uri) → other ≢ serial
        → snapshot_in (snapshot_text session serial objects) ≡ Ok ((named, other), found) → ⊥ }
{
    accepted_names_are_apart();
    listed_names_are_names();
    steps_count_up();
    steps_stay_steps();
    texts_are_read_back();
}

/// How every legal history may go on.
pub fn legal_histories_go_on()
    // The store may be opened again, and all that `found` of `headline` allows may be found then.
    ensures reopenings { (site : Bases) (history : History) (signed : List Signature)
        (lists : List (List Command)) (editions : List Edition)
        → IsLegal site history → AreFoundAfter history lists editions
        → IsLegal site (history ++ record { signed = signed; event = Reopen lists editions } ∷ []) }
    // At each journal the record in doubt may be found or not, whatever is found at the others.
    ensures choices { (site : Bases) (history : History) (signed : List Signature)
        (desks : ℕ → Bool) (press : Bool) → IsLegal site history
        → IsLegal site (history ++ record { signed = signed; event = reopening_by desks press (store_after history) } ∷ []) }
    // A command that a desk accepts next may be accepted, and its write may fail, where nothing is stopped, the desk's
    // journal is open, and it has room.
    ensures commits { (site : Bases) (history : History) (signed : List Signature) (desk : ℕ)
        (command : Command) (device : Device Command) → IsLegal site history
        → let store = store_after history in
        store.stopped ≡ false → slice_get store.desks desk ≡ Some device → device.shut ≡ false
        → IsNextCommand desk device.list command
        → IsLegal site (history ++ record { signed = signed; event = Commit desk command } ∷ [])
        × IsLegal site (history ++ record { signed = signed; event = DeskFault desk command } ∷ []) }
    // Everything may stop, with anything in doubt at each journal that may be written there, whatever is in doubt at
    // the others.
    ensures stops { (site : Bases) (history : History) (signed : List Signature)
        (commands : List (Option Command)) (edition : Option Edition) → IsLegal site history
        → let store = signing (store_after history) signed in
        store.stopped ≡ false
        → ((desk : ℕ) → IfSome (for_desk commands desk) (CanBeWritten site store desk))
        → IfSome edition (MayBePublished site store)
        → IsLegal site (history ++ record { signed = signed; event = Stop commands edition } ∷ []) }
    // An edition that is planned over those that stand, and made by signers that vouch for it, may be written, and so
    // published, where nothing is stopped, the press's journal is open, and it has room.
    ensures editions { (site : Bases) (history : History) (signed : List Signature) (clock : ℕ) (edition : Edition)
        (old new : List SignerState) → IsLegal site history
        → let store = signing (store_after history) signed in
        store.stopped ≡ false → store.press.shut ≡ false
        → IsPlannedAndMade (ground_of site store) clock store.press.list edition old new
        → press_bytes_for site (store.press.list ++ edition ∷ []) ≤ press_limit
        → MayBePublished site store edition }
    ensures publications { (site : Bases) (history : History) (signed : List Signature) (edition : Edition)
        → IsLegal site history → MayBePublished site (signing (store_after history) signed) edition
        → IsLegal site (history ++ record { signed = signed; event = Publish edition } ∷ []) }
{
    steps_stay_steps();
    what_is_planned_and_made_follows();
}

/// Behind a legal history, what a reopening found and what was done then is a legal history too: commands in their turns
/// at each desk, editions in theirs over all of these, and at each journal the record in doubt, with no signature but
/// those that were made. Which came first isn't asked.
pub fn what_was_done_goes_on()
    ensures { (site : Bases) (history : History) (signed : List Signature) (work : Work)
        → IsLegal site history → AreFoundAfter history work.found.commands work.found.editions
        → IsWork site (are_vouched (signatures_of history ++ signed)) work → GoesOnAs site history signed work }
{
    steps_stay_steps();
}

/// What the editions of a legal history put is bytes; and the records of a press's journal take as many bytes as are counted
/// for its editions, whichever session its files have.
pub fn what_a_press_holds()
    ensures bytes { (site : Bases) (history : History) → IsLegal site history
        → All (λ edition. All IsOfBytes edition.changes) (editions_of history) }
    ensures records { (session : List ℕ) (site : Bases) (editions : List Edition) (records : List (List ℕ))
        → AreRecords (store_for session site) editions records → held_by records ≡ press_bytes_for site editions }
{
    steps_stay_steps();
}

/// There are such histories.
pub fn some_histories_are_legal()
    ensures { (site : Bases) → IsLegal site worked }
{}

/// Some have an edition: wherever one may be the first, for whose record the press's journal has room, it may be followed
/// by a commit, a write that fails, a stop within another, a reopening that finds it, and one more commit; and it may be in
/// doubt itself, and then be found.
pub fn some_histories_with_editions_are_legal()
    ensures published { (site : Bases) (signed : List Signature) (edition : Edition)
        → MayBePublished site (signing new_store signed) edition → IsLegal site (with_edition signed edition) }
    ensures doubted { (site : Bases) (signed : List Signature) (edition : Edition)
        → MayBePublished site (signing new_store signed) edition
        → IsLegal site (with_doubted_edition signed edition) }
{}
