//! What stands was made by an edition, and keeps at any later look the rules that time doesn't break (RFC 6487 section
//! 7.2, RFC 9286 section 6).

ghost use Rattle.std.specs.Prelude.{◌≡◌, ◌≤◌, ℕ, List, [], ◌∷◌, ◌++◌, take, slice_get, Some, true, All, Contains};
ghost use Rattle.names.specs.Name.{IsName};
ghost use Rattle.entitle.specs.Certified.{names_of};
ghost use Rattle.key_roll.specs.declared.rows.KeyRow.{KeyRow};
ghost use Rattle.rp_rules.specs.Objects.{SignedManifest, manifest_in};
ghost use Rattle.rp_rules.specs.Authorities.{Authority};
ghost use Rattle.rp_rules.specs.Certificates.{WalkContext};
ghost use Rattle.rp_rules.specs.Points.{is_list};
ghost use Rattle.issue_drafts.specs.Drafts.Kind.{Manifest};
ghost use Rattle.issue_plan.specs.Wanted.{parent_of};
ghost use Rattle.issue_keys.specs.Keys.{id_of};
ghost use Rattle.editions.specs.Edition.{Edition, set_after, IsInLife};
ghost use Rattle.editions.specs.MadeIn.{issuance_of, IsMadeIn, WasMade, LooksAt, IsAuthorityOf, LastsAs, AreClear, AreAtHome};
ghost use Rattle.editions.specs.MadeIn.{IsSameKey};
ghost use Rattle.editions.specs.Names.{AreTree};
ghost use Rattle.editions.specs.Step.{Premises, IsStep, AreSteps, configs_at};

use crate::object_laws::certificates_have_own_serials;
use issue_values::{
    files_are_told_apart, keys_are_told_apart, kinds_are_told_apart, origins_are_told_apart,
};
use rp_rules::{
    accepted_objects_keep_the_rules, lasting_rules_last, sets_are_inside_by_numbers,
    spans_are_had_by_numbers,
};

/// A law, with nothing to run: each object that stands was made by one of the editions, for something that it wanted
/// there, and stands unchanged since then.
pub fn what_stands_was_made()
    ensures { (premises : Premises) (editions : List Edition) (uri bytes : List ℕ)
        → AreSteps premises editions → set_after editions uri ≡ Some bytes
        → WasMade premises editions uri bytes }
{}

/// A law, with nothing to run: an object that an edition made keeps the rules that last at any look with no less
/// vouched, under any authority of its issuer's key at the places that it had in that edition. It is in date from the
/// edition's moment on, a CRL and a manifest for a day and the others for 52 weeks.
pub fn what_is_made_lasts()
    ensures { (premises : Premises) (editions : List Edition) (uri bytes : List ℕ) (position : ℕ)
        → AreSteps premises editions
        → (made : IsMadeIn premises editions uri bytes position)
        → AreTree (names_of (configs_at premises.lists made.edition.cut))
        → All (λ row. IsName row.name) (names_of (configs_at premises.lists made.edition.cut))
        → (s : WalkContext) (authority : Authority)
        → LooksAt (issuance_of premises made.clock (take position editions) made.edition made.step) s
        → IsAuthorityOf (issuance_of premises made.clock (take position editions) made.edition made.step)
        made.draft.issuer authority
        → LastsAs s authority made.edition.moment made.draft made.draft.kind bytes }
{
    lasting_rules_last();
}

/// A law, with nothing to run: what a manifest lists that an edition made is a list, for any authority of its issuer's key
/// at the places that it had in that edition. So it stays one, and the manifest keeps the rules that last.
pub fn new_manifests_are_lists()
    ensures { (premises : Premises) (editions : List Edition) (uri bytes : List ℕ) (position : ℕ)
        → AreSteps premises editions
        → (made : IsMadeIn premises editions uri bytes position) → made.draft.kind ≡ Manifest
        → AreTree (names_of (configs_at premises.lists made.edition.cut))
        → All (λ row. IsName row.name) (names_of (configs_at premises.lists made.edition.cut))
        → (authority : Authority)
        → IsAuthorityOf (issuance_of premises made.clock (take position editions) made.edition made.step)
        made.draft.issuer authority
        → (manifest : SignedManifest) → manifest_in bytes ≡ Some manifest
        → is_list authority manifest.body ≡ true }
{
    certificates_have_own_serials();
    files_are_told_apart();
    keys_are_told_apart();
    kinds_are_told_apart();
    origins_are_told_apart();
    sets_are_inside_by_numbers();
    spans_are_had_by_numbers();
    accepted_objects_keep_the_rules();
}

/// A law, with nothing to run: editions leave nothing at the places of keys that aren't live.
pub fn editions_leave_no_other_places()
    ensures { (premises : Premises) (editions : List Edition) (edition : Edition)
        → AreSteps premises (editions ++ edition ∷ [])
        → AreTree (names_of (configs_at premises.lists edition.cut))
        → All (λ row. IsName row.name) (names_of (configs_at premises.lists edition.cut))
        → AreClear premises.site edition.rows (set_after (editions ++ edition ∷ [])) }
{
    files_are_told_apart();
    keys_are_told_apart();
    kinds_are_told_apart();
    origins_are_told_apart();
}

/// A law, with nothing to run: in the set of an edition each certificate is that of a live key, and names the folder of
/// the key's authority.
pub fn certificates_name_their_folders()
    ensures { (premises : Premises) (editions : List Edition) (edition : Edition)
        → AreSteps premises (editions ++ edition ∷ [])
        → AreTree (names_of (configs_at premises.lists edition.cut))
        → All (λ row. IsName row.name) (names_of (configs_at premises.lists edition.cut))
        → AreAtHome premises.site (names_of (configs_at premises.lists edition.cut)) edition.rows
        (set_after (editions ++ edition ∷ [])) }
{
    files_are_told_apart();
    keys_are_told_apart();
    kinds_are_told_apart();
    origins_are_told_apart();
}

/// A law, with nothing to run: what has one identifier in all of a life is one key, of one authority and one signer.
pub fn lives_are_of_one_key()
    ensures { (premises : Premises) (editions : List Edition) (id : List ℕ) (from to : ℕ) (first last : Edition)
        (one other : KeyRow) → AreSteps premises editions → IsInLife id editions from to
        → slice_get editions from ≡ Some first → slice_get editions to ≡ Some last
        → Contains first.rows one → Contains last.rows other → id_of one ≡ id → id_of other ≡ id
        → IsSameKey one other }
{}

/// A law, with nothing to run: in a later edition the authority of a key is at the places that it had, where the parent of
/// the key's authority is the same.
pub fn places_of_keys_stay()
    ensures { (premises : Premises) (editions : List Edition) (from to clock later : ℕ) (first last : Edition)
        (one other : KeyRow) (authority : Authority) → AreSteps premises editions → from ≤ to
        → slice_get editions from ≡ Some first → slice_get editions to ≡ Some last
        → (before : IsStep premises clock (take from editions) first)
        → (now : IsStep premises later (take to editions) last)
        → AreTree (names_of (configs_at premises.lists first.cut))
        → AreTree (names_of (configs_at premises.lists last.cut))
        → Contains before.made.keys one → Contains now.made.keys other → IsSameKey one other
        → parent_of (slice_get (configs_at premises.lists last.cut) one.desk)
        ≡ parent_of (slice_get (configs_at premises.lists first.cut) one.desk)
        → IsAuthorityOf (issuance_of premises later (take to editions) last now) other authority
        → IsAuthorityOf (issuance_of premises clock (take from editions) first before) one authority }
{}
