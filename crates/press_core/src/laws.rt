//! Laws of what a press stands for, and of what it prepares.

ghost use Rattle.std.specs.Prelude.{◌≡◌, ◌≤◌, ◌++◌, ◌∷◌, ℕ, List, [], All, length, get_or, true, Option, Some};
ghost use Rattle.signer_api.specs.State.{SignerState};
ghost use Rattle.signer_ring.specs.Ring as ring;
ghost use Rattle.signer_ring.specs.Ring.{AllTell};
ghost use Rattle.rp_rules.specs.Certificates.{Vouched};
ghost use Rattle.pub_set.specs.Objects.{content_at};
ghost use Rattle.pub_set.specs.Changes.{Contents};
ghost use Rattle.key_ids.specs.Uris.{Bases, anchor_uri};
ghost use Rattle.outlet_api.specs.Calls.{Files};
ghost use Rattle.rrdp_state.specs.Editions.{FollowEachOther, objects_of};
ghost use Rattle.rrdp_state.specs.Exported.{Repository};
ghost use Rattle.editions.specs.Edition.{Edition, set_after, cut_at};
ghost use Rattle.editions.specs.Published.{IsPublished};
ghost use Rattle.editions.specs.Step.{Premises, AreMore, IsMore};
ghost use Rattle.authority_book.specs.declared.commands.Command.{Command};
ghost use Rattle.editions.specs.VouchedCalls.{IsVouchedBy};
ghost use Rattle.editions.specs.Gathering.{AreNextCommands};
ghost use Rattle.editions.specs.PublishedState.{PublishedStateValue, IsConsistentState, IsFirst, desks};
ghost use Rattle.editions.specs.inner.Following.{CanFollow, setting_over};
ghost use Rattle.key_roll.specs.declared.rows.Role.TheVariants.{Current};
ghost use Rattle.key_roll.specs.declared.work.Work.{Work};
ghost use Rattle.issue_plan.specs.Keys.{Basis};
ghost use Rattle.issue_plan.specs.Work.{IsPlan};
ghost use Rattle.issue_make.specs.declared.made.Made.{Made};
ghost use Rattle.issue_make.specs.Made.{IsMade};
ghost use Rattle.press_core.specs.Signers.{HasAllVouched};
ghost use Rattle.press_core.specs.PrepareInput.{PrepareInput};
ghost use Rattle.press_core.specs.Next.{NextValue};
ghost use Rattle.press_core.specs.Planned.{IsPrepared, calls_for};
ghost use Rattle.press_core.specs.Incremental.{IsIncremental};
ghost use Rattle.press_records.specs.Store.{Store};
ghost use Rattle.press_core.specs.JournalRecords.{AreRecords, IsRecordOf};
ghost use Rattle.press_core.specs.Staged.{AreStaged, HasStages};
ghost use Rattle.press_core.specs.Stands.{IsLeftBy, StandsFor};
ghost use Rattle.press_core.specs.Follows.{edition_of, AreBehind, Follows};
ghost use Rattle.press_core.specs.Files.{rrdp_editions, told, repository_at};
ghost use Rattle.press_core.specs.Exports.{IsCoherent, ShowsFiles, ShowsEdition, ShowsLast};
ghost use Rattle.press_core.specs.declared.last_export.LastExport.{LastExport};
ghost use Rattle.press_core.specs.declared.last_export.LastExport.TheVariants.{Done};

use editions::{
    accepted_names_are_apart, called_for_by_what_stands, certificates_have_own_serials,
    editions_are_in_profile, editions_are_published, editions_follow_one_another,
    gathered_commands_go_on, manifests_rise, same_objects_same_set, signatures_are_of_the_work,
    steps_come_one_by_one, steps_stay_steps, the_plans_keys_are_next, the_table_goes_on,
    what_is_planned_and_made_follows,
};
use press_records::{one_more_edition, what_stands_alike_reads_alike};

/// What stands before the first edition is what no editions leave, over whatever commands.
pub fn first_published_state_stands()
    ensures { (premises : Premises) (published_state : PublishedStateValue) → IsFirst published_state → length premises.lists ≡ desks
        → StandsFor premises [] published_state }
{}

/// What is left by editions is so over more commands too; and what stands for them does, also where more is vouched.
pub fn more_commands_stand()
    ensures left { (less more : List (List Command)) (editions : List Edition) (published_state : PublishedStateValue) → AreMore less more
        → IsLeftBy less editions published_state → IsLeftBy more editions published_state }
    ensures stands { (less more : Premises) (editions : List Edition) (published_state : PublishedStateValue) → IsMore less more
        → StandsFor less editions published_state → StandsFor more editions published_state }
{
    steps_stay_steps();
}

/// A published set stays published over more commands.
pub fn more_commands_stay_published()
    ensures { (premises : Premises) (more : List (List Command)) (edition : Edition) (set : Contents)
        → AreMore premises.lists more → ((desk : ℕ) → cut_at edition.cut desk ≤ length (get_or premises.lists desk []))
        → IsPublished premises edition set → IsPublished (record premises { lists = more }) edition set }
{}

/// Where all signers tell, it is enough that what they vouch for is vouched.
pub fn telling_signers_vouch()
    ensures { (vouched : Vouched) (signers : List SignerState) → AllTell signers
        → ((key digest signature : List ℕ) → ring.Vouched signers key digest signature
        → vouched key digest signature ≡ true)
        → HasAllVouched vouched signers }
{}

/// What the signers vouch for in the end they vouch for where they signed it for an edition: so it is enough that all
/// that they vouch for is vouched.
pub fn vouching_signers_vouch_for_editions()
    ensures { (start : PrepareInput) (ring : List SignerState) (prepared : NextValue) (is : IsPrepared start ring prepared)
        (vouched : Vouched) → HasAllVouched vouched ring
        → All (IsVouchedBy vouched) (calls_for start ring prepared is) }
{}

/// What will stand is what the editions leave that left what stood, whatever they are, with the one that is prepared
/// behind them.
pub fn prepared_editions_leave()
    ensures { (start : PrepareInput) (ring : List SignerState) (prepared : NextValue) → IsPrepared start ring prepared
        → (lists : List (List Command)) (editions : List Edition) → IsLeftBy lists editions start.at
        → AreNextCommands lists start.at.cut start.gathered
        → IsLeftBy lists (editions ++ edition_of prepared ∷ []) prepared.next }
{
    editions_follow_one_another();
    gathered_commands_go_on();
    same_objects_same_set();
}

/// What is prepared is an edition that follows those for which the press stands, and is called for; and what will stand
/// is what all of them leave.
pub fn prepared_editions_follow()
    ensures { (start : PrepareInput) (ring : List SignerState) (prepared : NextValue) (is : IsPrepared start ring prepared)
        (premises : Premises) (editions : List Edition)
        → AreBehind start (calls_for start ring prepared is) premises editions
        → Follows premises start.clock editions prepared }
{
    accepted_names_are_apart();
    called_for_by_what_stands();
    certificates_have_own_serials();
    editions_are_in_profile();
    editions_follow_one_another();
    gathered_commands_go_on();
    manifests_rise();
    same_objects_same_set();
    steps_come_one_by_one();
    the_table_goes_on();
    what_is_planned_and_made_follows();
}

/// What is prepared puts what is wanted and fits nothing that stands, and nothing else; and its signers gave as many
/// signatures as that takes.
pub fn prepared_editions_put_what_is_unfit()
    ensures { (start : PrepareInput) (ring : List SignerState) (prepared : NextValue) → IsPrepared start ring prepared
        → IsIncremental start ring prepared }
{
    signatures_are_of_the_work();
    the_plans_keys_are_next();
}

/// The records of editions, with that of the next one behind them, are those of all of these.
pub fn edition_records_go_on()
    ensures { (lists : List (List Command)) (before : List Edition) (at : PublishedStateValue) (prepared : NextValue)
        (store : Store) (records : List (List ℕ)) (entry : List ℕ)
        → IsLeftBy lists before at → AreRecords store before records → IsRecordOf at prepared entry
        → AreRecords store (before ++ edition_of prepared ∷ []) (records ++ entry ∷ []) }
{
    one_more_edition();
    what_stands_alike_reads_alike();
}

/// The keys that the making of a planned work leaves are those of stages, where the keys before were, and the
/// trust anchor has no key but a current one.
pub fn made_keys_are_staged()
    ensures { (at : PublishedStateValue) (site : Bases) (signers : ℕ) (basis : Basis) (work : Work)
        (old new : List SignerState) (made : Made)
        → IsConsistentState at → CanFollow at site signers basis → IsPlan basis at.issued site work
        → IsMade (setting_over basis at.issued site work) at.rows old new made → HasStages at
        → All (λ key. key.desk ≡ 0 → key.role ≡ Current) made.rows → AreStaged made.rows }
{
    accepted_names_are_apart();
    the_plans_keys_are_next();
}

/// The set of what is prepared is sound to relying parties, and yields what is owed.
pub fn prepared_editions_are_published()
    ensures { (start : PrepareInput) (ring : List SignerState) (prepared : NextValue) (premises : Premises)
        (editions : List Edition) → IsPrepared start ring prepared
        → Follows premises start.clock editions prepared
        → IsPublished premises (edition_of prepared) (content_at prepared.next.set) }
{
    accepted_names_are_apart();
    editions_are_published();
    same_objects_same_set();
}

/// The editions as RRDP has them follow one another, and are as many; and what stands after the newest of them is what
/// all of them leave, by rising URI.
pub fn rrdp_editions_are_what_editions_leave()
    ensures follow { (editions : List Edition) → FollowEachOther (rrdp_editions editions) }
    ensures count { (editions : List Edition) → length (rrdp_editions editions) ≡ length editions }
    ensures leave { (editions : List Edition) (uri : List ℕ)
        → content_at (objects_of (rrdp_editions editions)) uri ≡ set_after editions uri }
    ensures behind { (editions : List Edition) (edition : Edition)
        → rrdp_editions (editions ++ edition ∷ []) ≡ told (rrdp_editions editions) edition ∷ rrdp_editions editions }
{}

/// What an outlet shows it still shows when there are more editions. Where the last export ended Ok at the newest
/// edition, it shows that one.
pub fn more_editions_stay_shown()
    ensures coherent { (repository : Repository) (editions : List Edition) (edition : Edition) (files : Files)
        → IsCoherent repository editions files → IsCoherent repository (editions ++ edition ∷ []) files }
    ensures shown { (session : List ℕ) (site : Bases) (editions : List Edition) (edition : Edition) (last : LastExport)
        (files : Option Files) → ShowsLast (ShowsEdition session site) editions last files
        → ShowsLast (ShowsEdition session site) (editions ++ edition ∷ []) last files }
    ensures newest { (session : List ℕ) (site : Bases) (editions : List Edition) (files : Files)
        → ShowsLast (ShowsEdition session site) editions (Done (length editions)) (Some files)
        → ShowsEdition session site editions files }
    ensures files { (session : List ℕ) (site : Bases) (editions : List Edition) (last : LastExport)
        (files : Option Files) → ShowsLast (ShowsEdition session site) editions last files
        → ShowsLast (ShowsFiles (repository_at session site)) editions last files }
{}

/// In a published set the trust anchor's certificate stands at its URI.
pub fn published_editions_have_an_anchor()
    ensures { (premises : Premises) (edition : Edition) (set : Contents) → IsPublished premises edition set
        → (bytes : List ℕ) × (set (anchor_uri premises.site) ≡ Some bytes) }
{}
