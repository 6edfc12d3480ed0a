//! What stands when a press goes on: what was left, with what the commands up to the cut come to.

ghost use Rattle.std.specs.Prelude.{◌≡◌, ◌<◌, ℕ, None, true, length, IfOk, IfErr, IfSome, OnOk};
ghost use Rattle.authority_book.specs.Fold.{Taken};
ghost use Rattle.entitle.specs.Certified.{settings_of, AreCertified};
ghost use Rattle.entitle.specs.Owed.{AreOwed};
ghost use Rattle.editions.specs.PublishedState.{desks, AreLive, AreTakenIn};
ghost use Rattle.editions.specs.Gathering.{commands_of, AreOfDesks};
ghost use Rattle.editions.specs.Clear.{IsClear};
ghost use Rattle.issue_plan.specs.ByName.{StandByName};
ghost use Rattle.pub_set.specs.Objects.{Rise};
ghost use Rattle.press_core.specs.Staged.{HasStages};
ghost use Rattle.press_core.specs.Agreement as agreement;
ghost use Rattle.press_core.specs.Agreement.{AreSameOrigins};
ghost use Rattle.press_core.specs.Resuming.{AreFirsts, IsFaultAt};
ghost use Rattle.press_core.specs.inner.Resumed.{mismatch_value, TellsMismatch, AreInFolders, IsLeft, IsAuditAt, IsAuditIf, IsOwing, IsOriginFault, IsRowFault, IsFaultIf, owed_by, IsStandingWith, IsStateOf, AreAgreedAt};

use crate::homes::homes_of;
use crate::resume::ResumeFault;
use crate::resuming::{Mismatch, first_mismatch};
use crate::roa_uris::other_origin;
use crate::tables::table_of;
use authority_book::Config;
use editions::{
    CurrentState, Gathered, PublishedState, StateParts, accepted_names_are_apart, configs_with,
};
use entitle::{Owed, Tree, certified, names_of, owed};
use issue_plan::stand_by_name;
use issue_values::{
    files_are_told_apart, keys_are_told_apart, kinds_are_told_apart, origins_are_told_apart,
};
use items::Items;
use key_ids::{KeyId, Site};
use key_roll::{Issued, IssuedRow, KeyRow};
use origins::same_numbers_same_origin;
use press_records::RecoveredParts;
use rp_rules::{Audited, visits_are_accepted};
use std::alloc::{AllocError, Global};

// What the commands up to a cut come to: the configuration of each desk, what these are certified for, and the origins
// that are owed.
#[derive(Drop)]
struct Owing {
    configs: Vec<Config>,
    tree: Tree,
    owed: Vec<Owed>,
}

fn owing_at(alloc: Global, firsts: Vec<Gathered>) -> Result<Owing, AllocError>
    requires desks { AreOfDesks desks firsts.items }
    requires taken { (desk : ℕ) → desk < desks → Taken desk (commands_of firsts.items desk) }
    ensures { IfOk result (IsOwing firsts.items) }
{
    let first = PublishedState::first(alloc)?;
    let configs = configs_with(alloc, first.parts().configs.as_slice(), firsts)?;
    let tree = certified(alloc, &configs)?;
    let owed = owed(alloc, &configs, &tree)?;
    Ok(Owing {
        configs,
        tree,
        owed,
    })
}

fn mismatch_fault(found: Mismatch) -> ResumeFault
    ensures { TellsMismatch (mismatch_value found) result }
{
    ResumeFault::RowMismatch {
        key: KeyId::of(&found.key.bytes),
        field: found.field,
        kept: found.kept,
        found: found.found,
    }
}

// Whether the set that was audited yields what is owed.
fn compare_origins(
    alloc: Global,
    site: &Site,
    owing: &Owing,
    audited: &Audited,
) -> Result<(), ResumeFault>
    requires owes { AreOwed (settings_of owing.now.configs.items) owing.now.owed.items }
    requires folders { AreInFolders site.now audited.now.origins }
    ensures same { OnOk result (AreSameOrigins (owed_by site.now owing.now) audited.now.origins) }
    ensures refused { IfErr result (IsOriginFault (owed_by site.now owing.now) audited.now.origins) }
{
    origins_are_told_apart();
    same_numbers_same_origin();
    let names = names_of(&owing.configs);
    let other = other_origin(alloc, site, names, &owing.owed, audited.origins())?;
    match other {
        Some(uri) => Err(ResumeFault::OriginsDiffer { uri }),
        None => Ok(()),
    }
}

// Whether the points that were found agree with the rows.
fn compare_rows(rows: &[KeyRow], audited: &Audited) -> Result<(), ResumeFault>
    ensures agreed { OnOk result (agreement.first_mismatch rows.now audited.now.points ≡ None) }
    ensures refused { IfErr result (IsRowFault rows.now audited.now.points) }
{
    let found = first_mismatch(rows, audited.points());
    match found {
        Some(found) => Err(mismatch_fault(found)),
        None => Ok(()),
    }
}

// What was left stands, with the table of its objects and what the commands up to its cut come to.
fn stand(left: RecoveredParts, owing: Owing, issued: Vec<IssuedRow>) -> PublishedState
    requires cut { length left.cut ≡ desks }
    requires configs { length (settings_of owing.configs.items) ≡ desks }
    requires taken { AreTakenIn (settings_of owing.configs.items) left.cut }
    requires certified { AreCertified (settings_of owing.configs.items) owing.tree.sets.items }
    requires owes { AreOwed (settings_of owing.configs.items) owing.owed.items }
    requires live { AreLive left.moment left.rows }
    requires rising { Rise (λ row. row.uri) issued.items }
    ensures { IsStandingWith left owing issued.items result }
{
    let RecoveredParts {
        serial,
        moment,
        cut,
        rows,
        set,
    } = left;
    let Owing {
        configs,
        tree,
        owed,
    } = owing;
    PublishedState::new(StateParts {
        serial,
        moment,
        cut,
        rows,
        issued: Issued {
            rows: Items::new(issued),
        },
        set,
        configs: Items::new(configs),
        tree,
        owed: Items::new(owed),
    })
}

// The same behind an edition, whose set was audited.
fn agreed_state(
    alloc: Global,
    site: &Site,
    left: RecoveredParts,
    audited: &Audited,
    firsts: Vec<Gathered>,
) -> Result<PublishedState, ResumeFault>
    requires order { IsLeft left }
    requires audit { IsAuditAt site.now left audited.now }
    requires firsts { AreFirsts left.cut firsts.items }
    ensures state { IfOk result (IsStateOf site.now left firsts.items) }
    ensures clear { IfOk result (λ at. IsClear site.now at.rows at.issued) }
    ensures agreed { IfOk result (AreAgreedAt site.now audited.now) }
    ensures refused { IfErr result (IsFaultAt site.now left.rows firsts.items audited.now) }
{
    accepted_names_are_apart();
    visits_are_accepted();
    files_are_told_apart();
    keys_are_told_apart();
    kinds_are_told_apart();
    let owing = owing_at(alloc, firsts)?;
    compare_origins(alloc, site, &owing, audited)?;
    compare_rows(left.rows.as_slice(), audited)?;
    let names = names_of(&owing.configs);
    let homes = homes_of(alloc, site, names, left.rows.as_slice())?;
    let issued = table_of(alloc, &left.set, &homes)?;
    Ok(stand(left, owing, issued))
}

// What stands, where the set that was left yields what is owed and agrees with the rows. Without an edition nothing
// does.
fn state_of(
    alloc: Global,
    site: &Site,
    left: RecoveredParts,
    audited: Option<Audited>,
    firsts: Vec<Gathered>,
) -> Result<PublishedState, ResumeFault>
    requires order { IsLeft left }
    requires audit { IsAuditIf site.now left audited }
    requires firsts { AreFirsts left.cut firsts.items }
    ensures state { IfOk result (IsStateOf site.now left firsts.items) }
    ensures clear { IfOk result (λ at. IsClear site.now at.rows at.issued) }
    ensures stages { IfOk result HasStages }
    ensures agreed { IfOk result (λ at. IfSome audited (λ a. AreAgreedAt site.now a at)) }
    ensures refused { IfErr result (IsFaultIf site.now left.rows firsts.items audited) }
{
    match audited {
        Some(audited) => agreed_state(alloc, site, left, &audited, firsts),
        None => Ok(PublishedState::first(alloc)?),
    }
}

/// What stands, where the set that was left yields what is owed and agrees with the rows. Without an edition nothing
/// does.
pub fn current_state(
    alloc: Global,
    site: &Site,
    left: RecoveredParts,
    audited: Option<Audited>,
    firsts: Vec<Gathered>,
) -> Result<CurrentState, ResumeFault>
    requires order { IsLeft left }
    requires audit { IsAuditIf site.now left audited }
    requires firsts { AreFirsts left.cut firsts.items }
    ensures state { IfOk result (IsStateOf site.now left firsts.items) }
    ensures clear { IfOk result (λ at. IsClear site.now at.rows at.issued) }
    ensures stages { IfOk result HasStages }
    ensures agreed { IfOk result (λ at. IfSome audited (λ a. AreAgreedAt site.now a at)) }
    ensures refused { IfErr result (IsFaultIf site.now left.rows firsts.items audited) }
{
    let state = state_of(alloc, site, left, audited, firsts)?;
    let current = CurrentState::new(alloc, state)?;
    Ok(current)
}

/// Whether it is found that ROAs stand at places of names. Nothing is, where there is no memory to look.
pub fn is_by_name(alloc: Global, site: &Site, at: &PublishedState) -> bool
    ensures { result ≡ true → StandByName site.now at.now.issued }
{
    match stand_by_name(alloc, site, at.parts().issued.rows.as_slice()) {
        Ok(stand) => stand,
        Err(_) => false,
    }
}
