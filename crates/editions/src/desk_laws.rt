//! What is planned can be made.

ghost use Rattle.std.specs.Prelude.{◌≤◌, ℕ, List, IsSome, All};
ghost use Rattle.authority_book.specs.declared.commands.Command.{Command};
ghost use Rattle.authority_book.specs.Fold.{fold_of, Taken};
ghost use Rattle.key_ids.specs.Uris.{Bases};
ghost use Rattle.key_roll.specs.declared.rows.RevokedRow.{RevokedRow};
ghost use Rattle.key_roll.specs.declared.issued.IssuedRow.{IssuedRow};
ghost use Rattle.key_roll.specs.declared.work.Work.{Work};
ghost use Rattle.pub_set.specs.Objects.{found_at};
ghost use Rattle.issue_values.specs.Bodies.{AreRevoked};
ghost use Rattle.issue_drafts.specs.WorkKeys.{Keys};
ghost use Rattle.issue_drafts.specs.IssueInput.{IssueInput};
ghost use Rattle.issue_make.specs.Trace.{AreKeys};
ghost use Rattle.issue_plan.specs.Keys.{Basis, next_keys};
ghost use Rattle.issue_plan.specs.Wanted.{PlanInput};
ghost use Rattle.issue_plan.specs.Work.{IsWork, IsPlan};
ghost use Rattle.issue_make.specs.ObjectPlan.{puts};
ghost use Rattle.issue_make.specs.CanMake.{IsCertified};
ghost use Rattle.editions.specs.Names.{AreTree};
ghost use Rattle.names.specs.Name.{IsName};
ghost use Rattle.entitle.specs.Certified.{names_of};
ghost use Rattle.entitle.specs.Owed.{AreOwed};
ghost use Rattle.editions.specs.inner.PlanAndTable.{made_from, AreOfPlan};
ghost use Rattle.editions.specs.inner.Following.{CanBeNamed};
ghost use Rattle.editions.specs.inner.PlannedWork.{AreThere, AreOfDesks, NamesAreOf, AreApart, AreNamed};

/// The names that the trust anchor's accepted commands list begin with its own, and are pairwise different.
pub fn accepted_names_are_apart()
    ensures { (commands : List Command) → Taken 0 commands → AreTree (fold_of 0 commands).names }
{}

/// Each key that the planned work names is there, whichever keys are made for it.
pub fn named_keys_are_there()
    ensures { (plan_input : PlanInput) (s : IssueInput) (keys : Keys)
        → IsWork plan_input (next_keys plan_input.basis) s.work
        → AreKeys s plan_input.basis.rows keys → AreThere s keys }
{}

/// The keys that are to be made, and those that stay, are of desks that have a name, and the new ones of its signer.
pub fn keys_are_of_desks()
    ensures { (plan_input : PlanInput) (s : IssueInput) (signers : ℕ)
        → IsWork plan_input (next_keys plan_input.basis) s.work → AreApart plan_input.basis.rows
        → NamesAreOf plan_input.basis s.names signers → AreOfDesks s plan_input.basis.rows signers }
{}

/// Each key that issues, but the trust anchor's, has its certificate made, or it stands where a certificate can name it.
pub fn issuers_are_certified()
    ensures { (plan_input : PlanInput) (work : Work) (keys : Keys) (plan : AreOfPlan plan_input work keys)
        → AreNamed plan_input.basis → AreOwed plan_input.basis.configs plan_input.owed
        → AreApart plan_input.basis.rows → All (λ row. IsName row.name) (names_of plan_input.basis.configs)
        → CanBeNamed plan_input.site
        → All (λ d. IsCertified (made_from plan_input work) keys d.issuer)
        (puts (made_from plan_input work) keys) }
{}

/// What a plan withdraws stands.
pub fn withdrawn_stands()
    ensures { (basis : Basis) (issued : List IssuedRow) (site : Bases) (work : Work)
        → IsPlan basis issued site work
        → All (λ uri. IsSome (found_at (λ row. row.uri) (λ row. row.hash) issued uri)) work.withdrawn }
{}

/// Entries that a CRL can have at a moment it can have later too.
pub fn revoked_until_later()
    ensures { (moment later : ℕ) (revoked : List RevokedRow)
        → moment ≤ later → AreRevoked moment revoked → AreRevoked later revoked }
{}
