//! The set of an edition, with whatever names, is sound, and yields what is owed (RFC 6487 section
//! 7, RFC 9286 section 6, RFC 9582 section 5).

ghost use Rattle.std.specs.Prelude.{◌≡◌, ℕ, List, [], ◌∷◌, ◌++◌, All};
ghost use Rattle.names.specs.Name.{IsName};
ghost use Rattle.entitle.specs.Certified.{names_of};
ghost use Rattle.pub_set.specs.declared.objects.Object.{Object};
ghost use Rattle.pub_set.specs.Objects.{content_at, IsAscending};
ghost use Rattle.editions.specs.Drafted.{HaveDrafts};
ghost use Rattle.editions.specs.Edition.{Edition, state_after, set_after};
ghost use Rattle.editions.specs.Profile.{IsInProfile};
ghost use Rattle.editions.specs.Published.{IsPublished};
ghost use Rattle.editions.specs.Step.{Premises, IsStep, AreSteps, configs_at, plan_input_at};
ghost use Rattle.editions.specs.Names.{AreTree};
ghost use Rattle.editions.specs.inner.KeyTree.{AreOfTree};

use crate::object_laws::certificates_have_own_serials;
use issue_values::{
    files_are_told_apart, keys_are_told_apart, kinds_are_told_apart, origins_are_told_apart,
};
use rp_rules::{sets_are_inside_by_numbers, spans_are_had_by_numbers};

/// A law, with nothing to run: the keys of an edition are those of a tree. Each is of an authority that has a name and
/// is certified for something, at most 64 parents below the trust anchor; and its issuer, if it isn't the trust anchor's,
/// is the current key of the authority's parent, which is certified for all that the authority is.
pub fn keys_are_of_a_tree()
    ensures { (premises : Premises) (editions : List Edition) (edition : Edition)
        → AreSteps premises (editions ++ edition ∷ [])
        → AreTree (names_of (configs_at premises.lists edition.cut))
        → AreOfTree (configs_at premises.lists edition.cut) edition.rows }
{}

/// A law, with nothing to run: to a relying party the set of an edition is sound, and yields each origin that is owed
/// once. The names at its cut are those of a tree, and names that an authority can have. The list has the objects of
/// the set by rising URI.
pub fn editions_are_published()
    ensures { (premises : Premises) (editions : List Edition) (edition : Edition) (objects : List Object)
        → AreSteps premises (editions ++ edition ∷ [])
        → AreTree (names_of (configs_at premises.lists edition.cut))
        → All (λ row. IsName row.name) (names_of (configs_at premises.lists edition.cut))
        → IsAscending objects
        → ((uri : List ℕ) → content_at objects uri ≡ set_after (editions ++ edition ∷ []) uri)
        → IsPublished premises edition (set_after (editions ++ edition ∷ [])) }
{
    certificates_have_own_serials();
    files_are_told_apart();
    keys_are_told_apart();
    kinds_are_told_apart();
    origins_are_told_apart();
    sets_are_inside_by_numbers();
    spans_are_had_by_numbers();
}

/// A law, with nothing to run: an edition leaves out nothing that it wants. Each of its keys wants a certificate and
/// each owed origin a ROA, and each of these has a draft, as has each key's CRL and manifest.
pub fn wanted_objects_have_drafts()
    ensures { (premises : Premises) (clock : ℕ) (editions : List Edition) (edition : Edition)
        → AreSteps premises (editions ++ edition ∷ [])
        → AreTree (names_of (configs_at premises.lists edition.cut))
        → (step : IsStep premises clock editions edition)
        → HaveDrafts (plan_input_at premises (state_after editions) edition step.sets step.owed step.issued)
        step.made.keys }
{}

/// A law, with nothing to run: the set of an edition keeps what the profiles ask beside a walk. CRLs and manifests have
/// a thisUpdate before their nextUpdate, serials are positive, no certificate is without resources, and no two
/// authorities have one key (RFC 6487 section 4, RFC 9286 section 4.2.1).
pub fn editions_are_in_profile()
    ensures { (premises : Premises) (editions : List Edition) (edition : Edition)
        → AreSteps premises (editions ++ edition ∷ [])
        → AreTree (names_of (configs_at premises.lists edition.cut))
        → IsInProfile (set_after (editions ++ edition ∷ [])) }
{}
