//! Laws of editions that follow one another. Among them: serials are a key's own (RFC 5280 section
//! 4.1.2.2), and manifests rise (RFC 9286 section 4.2.1).

ghost use Rattle.std.specs.Prelude.{◌≡◌, ◌<◌, ℕ, List, None, Some, true, false, [], ◌∷◌, ◌++◌, Contains, All, AllPairs, map, length, ◌≢◌};
ghost use Rattle.key_roll.specs.declared.rows.KeyRow.{KeyRow};
ghost use Rattle.cert_obj.specs.Values.{SignedCert};
ghost use Rattle.crl_obj.specs.Values.{SignedCrl};
ghost use Rattle.cms_obj.specs.Values.{ObjectValue};
ghost use Rattle.rp_rules.specs.Objects.{certificate_in, crl_in, object_in};
ghost use Rattle.pub_set.specs.declared.steps.Change.{Change};
ghost use Rattle.pub_set.specs.Objects.{Rise};
ghost use Rattle.pub_set.specs.Changes.{Contents, uri_of, change_at, after_all};
ghost use Rattle.issue_drafts.specs.IssueInput.{IssueInput};
ghost use Rattle.issue_make.specs.Trace.{
  IssuingTrace,
  AreKeys,
  IsIssuingTrace,
  all_of,
  made_of,
  puts_of,
  final_bytes,
  wanted_at,
  IsSpelled,
  is_before,
  row_after,
};
ghost use Rattle.issue_drafts.specs.Drafts.{Draft, drafts};
ghost use Rattle.issue_drafts.specs.Drafts.Kind.{Manifest};
ghost use Rattle.issue_sign.specs.Calls.{content_calls, last_calls};
ghost use Rattle.issue_drafts.specs.Files.{kept_files, folder_at, is_made_under};
ghost use Rattle.issue_drafts.specs.Publishers.{publishing_of};
ghost use Rattle.der.specs.Part.{IsInput};
ghost use Rattle.rp_rules.specs.Certificates.{Vouched};
ghost use Rattle.editions.specs.Objects.{Issuance, moment_of, IsObject, file_of};
ghost use Rattle.editions.specs.VouchedCalls.{IsVouchedBy};
ghost use Rattle.editions.specs.inner.Vouched.{AreVouched};
ghost use Rattle.issue_drafts.specs.WorkKeys.{Keys, all_keys};
ghost use Rattle.std.specs.List.Sorted.{IsSortedBy};
ghost use Rattle.std.specs.Prelude.{IsPermutation};
ghost use Rattle.key_roll.specs.declared.work.Work.{Work};
ghost use Rattle.issue_plan.specs.Keys.{next_keys};
ghost use Rattle.issue_plan.specs.Wanted.{PlanInput};
ghost use Rattle.issue_plan.specs.Work.{IsWork};
ghost use Rattle.editions.specs.inner.PlanAndTable.{made_from, AreOfPlan};
ghost use Rattle.issue_keys.specs.Keys.{id_of};
ghost use Rattle.editions.specs.Edition.{Edition, state_after, set_after, AreChanges};
ghost use Rattle.editions.specs.Table.{IsTable};
ghost use Rattle.editions.specs.Held.{HaveOwnSerials};
ghost use Rattle.editions.specs.Superseded.{ListsSuperseded, IsCrlOf};
ghost use Rattle.editions.specs.Published.{ManifestsRise};
ghost use Rattle.editions.specs.Step.{Premises, IsStep, AreSteps, counted};
ghost use Rattle.editions.specs.Wanted.{there, whole, new_objects, keeps_point};
ghost use Rattle.std.specs.Prelude.{filter};
ghost use Rattle.std.specs.List.{filter_map};
ghost use Rattle.editions.specs.inner.ByRows.{IsStepByRows, AreListed};

/// No bytes read as two of a certificate, a CRL and a signed object.
pub fn objects_are_of_one_kind()
    ensures certificates { (bytes : List ℕ) (certificate : SignedCert)
        → certificate_in bytes ≡ Some certificate
        → (crl_in bytes ≡ None) × (object_in bytes ≡ None) }
    ensures lists { (bytes : List ℕ) (crl : SignedCrl) → crl_in bytes ≡ Some crl
        → (certificate_in bytes ≡ None) × (object_in bytes ≡ None) }
    ensures objects { (bytes : List ℕ) (object : ObjectValue) → object_in bytes ≡ Some object
        → (certificate_in bytes ≡ None) × (crl_in bytes ≡ None) }
{}

/// No two certificates that the editions of one life of a key hold have one serial (RFC 5280
/// section 4.1.2.2).
pub fn certificates_have_own_serials()
    ensures { (premises : Premises) (editions : List Edition) (id : List ℕ)
        → AreSteps premises editions → HaveOwnSerials editions id }
{}

/// Behind an edition each live key has one CRL, of the moment that its row has, and no other.
pub fn each_key_has_one_crl()
    ensures some { (premises : Premises) (editions : List Edition) (edition : Edition)
        → AreSteps premises (editions ++ edition ∷ [])
        → (row : KeyRow) → Contains edition.rows row
        → (crl : SignedCrl)
        × IsCrlOf (set_after (editions ++ edition ∷ [])) (id_of row) crl
        × (crl.crl.this_update ≡ row.this_update) }
    ensures one { (premises : Premises) (editions : List Edition) (edition : Edition)
        (id : List ℕ) (one other : SignedCrl)
        → AreSteps premises (editions ++ edition ∷ [])
        → IsCrlOf (set_after (editions ++ edition ∷ [])) id one
        → IsCrlOf (set_after (editions ++ edition ∷ [])) id other → one ≡ other }
{}

/// A CRL that an edition puts lists just the certificates that are superseded under its key (RFC 5280 section 5, RFC 6487
/// section 5), each with the moment of the edition that superseded it.
pub fn new_crls_list_what_is_superseded()
    ensures { (premises : Premises) (editions : List Edition) (edition : Edition)
        (uri bytes : List ℕ) (crl : SignedCrl)
        → AreSteps premises (editions ++ edition ∷ [])
        → set_after (editions ++ edition ∷ []) uri ≡ Some bytes
        → set_after editions uri ≢ Some bytes → crl_in bytes ≡ Some crl
        → ListsSuperseded (editions ++ edition ∷ []) (length editions) crl }
{}

/// A manifest that takes the place of another has a greater number and a later thisUpdate (RFC 9286
/// section 4.2.1).
pub fn manifests_rise()
    ensures { (premises : Premises) (editions : List Edition) (edition : Edition)
        → AreSteps premises (editions ++ edition ∷ [])
        → ManifestsRise (set_after editions) (set_after (editions ++ edition ∷ [])) }
{}

/// The rows of the live keys and the table note what is superseded: an edition whose new CRLs list what
/// these tell follows the others.
pub fn rows_note_what_is_superseded()
    ensures { (premises : Premises) (clock : ℕ) (editions : List Edition) (edition : Edition)
        → AreSteps premises editions → IsStepByRows premises clock editions edition
        → IsStep premises clock editions edition }
{}

/// What the making of an edition puts, and what its work withdraws, by the table of what stands, are
/// the changes that are needed, where nothing is put that stands already.
pub fn puts_and_withdrawals_are_needed()
    ensures { (s : IssueInput) (trace : IssuingTrace) (old : Contents) (changes : List Change)
        → IsTable old s.issued → Rise uri_of changes
        → ((uri : List ℕ) → change_at changes uri ≡ wanted_at s trace uri)
        → All (λ x. old x.draft.uri ≢ Some (final_bytes s trace x x.draft.kind)) (made_of trace)
        → AreChanges old (after_all old changes) changes }
{}

/// The keys that the work of a plan leaves, and those that are made for it, are the next ones; and what
/// is drafted of the work is all that is wanted for them.
pub fn the_plans_keys_are_next()
    ensures { (plan_input : PlanInput) (work : Work) (found : Keys)
        → AllPairs (λ a b. id_of a ≢ id_of b) plan_input.basis.rows
        → IsWork plan_input (next_keys plan_input.basis) work
        → AreKeys (made_from plan_input work) plan_input.basis.rows found
        → AreOfPlan plan_input work found }
{}

/// The entries that the making of an edition gives a key's CRL are those that the rows and the table
/// tell, with the changes that it comes to.
pub fn issued_entries_are_told()
    ensures { (plan_input : PlanInput) (work : Work) (trace : IssuingTrace) (old : Contents)
        (changes : List Change) (plan : AreOfPlan plan_input work trace.keys)
        → IsIssuingTrace (made_from plan_input work) plan_input.basis.rows trace
        → IsTable old plan_input.issued
        → ((uri : List ℕ) → change_at changes uri ≡ wanted_at (made_from plan_input work) trace uri)
        → AreListed plan_input changes plan.keys trace.entries }
{}

/// The certificates, the ROAs and the CRLs that are made for the work of a plan read as those of an
/// edition, where their signatures are vouched: with the serials, numbers, dates, issuers and URIs that
/// the edition wants.
pub fn issued_objects_are_new_ones()
    ensures { (vouched : Vouched) (plan_input : PlanInput) (work : Work) (trace : IssuingTrace)
        (old new : Contents) (plan : AreOfPlan plan_input work trace.keys)
        → ((row : KeyRow) → publishing_of (made_from plan_input work) trace.keys row
        ≡ publishing_of (whole plan_input plan.keys) (there plan.keys) row)
        → All (λ x. IsInput (final_bytes (made_from plan_input work) trace x x.draft.kind))
        trace.objects
        → All (λ x. IsSpelled (made_from plan_input work) trace x.draft x.draft.kind x.answers)
        trace.objects
        → AreVouched vouched (made_from plan_input work) trace
        → All (λ x. x.draft.kind ≢ Manifest → IsObject (record {
          vouched = vouched;
          plan_input = plan_input;
          keys = plan.keys;
          entries = trace.entries;
          old = old;
          new = new;
        }) x.draft x.draft.kind (final_bytes (made_from plan_input work) trace x x.draft.kind))
        trace.objects }
{}

/// All that is made for the work of a plan reads as an edition's objects, manifests among it, where each key has its
/// certificate where it is wanted, what stays under a key and what is made under it are its files, all but manifests stands,
/// and all signatures are vouched.
pub fn all_that_is_made_is_new()
    ensures { (vouched : Vouched) (plan_input : PlanInput) (work : Work) (trace : IssuingTrace)
        (old new : Contents) (plan : AreOfPlan plan_input work trace.keys)
        → ((row : KeyRow) → publishing_of (made_from plan_input work) trace.keys row
        ≡ publishing_of (whole plan_input plan.keys) (there plan.keys) row)
        → IsIssuingTrace (made_from plan_input work) plan_input.basis.rows trace
        → ((key : KeyRow) → Contains plan.keys key → keeps_point plan_input plan.keys key ≡ false
        → IsPermutation
        (filter_map (file_of new (folder_at (whole plan_input plan.keys) key))
        (filter (is_made_under (whole plan_input plan.keys) key)
        (drafts (whole plan_input plan.keys) (there plan.keys))))
        (kept_files (made_from plan_input work) (puts_of (made_from plan_input work) trace) key
        ++ filter_map (file_of new (folder_at (whole plan_input plan.keys) key))
        (filter (is_made_under (whole plan_input plan.keys) key) (new_objects plan_input plan.keys))))
        → All (λ x. new x.draft.uri
        ≡ Some (final_bytes (made_from plan_input work) trace x x.draft.kind)) trace.objects
        → All (λ x. IsInput (final_bytes (made_from plan_input work) trace x x.draft.kind))
        (made_of trace)
        → All (λ x. IsSpelled (made_from plan_input work) trace x.draft x.draft.kind x.answers)
        (made_of trace)
        → AreVouched vouched (made_from plan_input work) trace
        → All (IsVouchedBy vouched)
        (content_calls (made_from plan_input work) trace.files trace.listed)
        → All (IsVouchedBy vouched) (last_calls (made_from plan_input work) trace.keys
        (all_of (made_from plan_input work) trace) trace.listed)
        → All (λ x. IsObject (record {
          vouched = vouched;
          plan_input = plan_input;
          keys = plan.keys;
          entries = trace.entries;
          old = old;
          new = new;
        }) x.draft x.draft.kind (final_bytes (made_from plan_input work) trace x x.draft.kind))
        (made_of trace) }
{}

/// What an edition makes has its moment, so that it isn't what stood after those before it.
pub fn what_is_made_did_not_stand()
    ensures { (premises : Premises) (editions : List Edition) (m : Issuance) (d : Draft)
        (bytes uri : List ℕ) → AreSteps premises editions
        → (state_after editions).moment < moment_of m → IsObject m d d.kind bytes
        → set_after editions uri ≢ Some bytes }
{}

/// What the making of an edition puts, each thing at a URI of its own, stands after its changes.
pub fn what_is_put_stands()
    ensures { (s : IssueInput) (trace : IssuingTrace) (old : Contents) (changes : List Change)
        → Rise uri_of changes
        → ((uri : List ℕ) → change_at changes uri ≡ wanted_at s trace uri)
        → AllPairs (λ a b. a ≢ b) (map (λ x. x.draft.uri) (made_of trace))
        → All (λ x. after_all old changes x.draft.uri
        ≡ Some (final_bytes s trace x x.draft.kind)) (made_of trace) }
{}

/// The rows that the making of an edition leaves, by desk and role, are those of the next keys, each
/// counted on as an edition's are, where the keys whose points stay keep their entries.
pub fn issued_rows_are_counted()
    ensures { (plan_input : PlanInput) (work : Work) (trace : IssuingTrace)
        (plan : AreOfPlan plan_input work trace.keys) (rows : List KeyRow)
        → ((key : KeyRow) → Contains plan.keys key → keeps_point plan_input plan.keys key ≡ true
        → trace.entries key ≡ key.revoked)
        → IsPermutation (map (row_after (made_from plan_input work) trace) (all_keys trace.keys)) rows
        → IsSortedBy is_before rows
        → rows ≡ map (counted plan_input plan.keys trace.entries) plan.keys }
{}
