//! Laws of the walk.

ghost use Rattle.std.specs.Prelude.{◌≡◌, ◌≤◌, ◌↔◌, ℕ, true, List, Ok};
ghost use Rattle.std.specs.List.{Contains};
ghost use Rattle.res_sets.specs.declared.numbers.Family.{Family};
ghost use Rattle.cert_obj.specs.Values.{IsListOf, SignedCert};
ghost use Rattle.crl_obj.specs.declared.values.CrlEntry.{CrlEntry};
ghost use Rattle.crl_obj.specs.Values.{CrlValue, SignedCrl};
ghost use Rattle.pub_set.specs.declared.objects.Object.{Object};
ghost use Rattle.pub_set.specs.Objects.{content_at};
ghost use Rattle.pub_set.specs.Changes.{Contents};
ghost use Rattle.rp_rules.specs.Holdings.{Span, has_span, has_number, is_inside};
ghost use Rattle.rp_rules.specs.Objects.{SignedManifest, SignedRoa};
ghost use Rattle.rp_rules.specs.Authorities.{Authority};
ghost use Rattle.rp_rules.specs.Certificates.{WalkContext, Vouched, VouchesMore, vouching, File};
ghost use Rattle.rp_rules.specs.Certificates.{accepted_anchor, accepted_authority};
ghost use Rattle.rp_rules.specs.Points.{Point, are_distinct, files_of};
ghost use Rattle.rp_rules.specs.Points.{accepted_manifest, accepted_crl, accepted_point, accepted_roa};
ghost use Rattle.rp_rules.specs.Walk.{Visit, Published, visited, walk};
ghost use Rattle.rp_rules.specs.Accepted.{AreAccepted, IsReached};
ghost use Rattle.rp_rules.specs.Asked.{SaysSame};
ghost use Rattle.rp_rules.specs.Lasting.{IsSameIssuer, LooksAgain, KeepsAnchorRules, KeepsCertificateRules};
ghost use Rattle.rp_rules.specs.Lasting.{KeepsManifestRules, KeepsCrlRules, KeepsPointRules, KeepsRoaRules};
ghost use Rattle.rp_rules.specs.Lasting.{IsLastingAnchor, IsLastingCertificate, IsLastingManifest, IsLastingCrl};
ghost use Rattle.rp_rules.specs.Lasting.{IsLastingRoa};
ghost use Rattle.rp_rules.specs.Sound.{IsSoundBy};

/// A sound set stays sound where more is vouched, and the walk is the same.
pub fn more_vouched_stays_sound()
    ensures { (s : WalkContext) (more : Vouched) (objects : List Object) (visits : List Visit)
        → VouchesMore s.vouched more → IsSoundBy s objects visits
        → IsSoundBy (vouching s more) objects visits }
{}

/// The walk depends on what is vouched only through the signatures of the set's objects, each under the key by which
/// it is asked: where another function says the same of these, the walk is the same, refusals too.
pub fn asked_signatures_decide()
    ensures { (s : WalkContext) (other : Vouched) (objects : List Object)
        → SaysSame s other (content_at objects)
        → walk (vouching s other) (content_at objects) ≡ walk s (content_at objects) }
{}

/// What is visited in a sound set is accepted after what is visited before it: a certificate is the anchor's or
/// a file of a point visited before, a point is of an authority visited before, a ROA is a file of the point of
/// the authority above it. So the yield, which comes from the ROAs that are visited, comes from accepted ROAs
/// alone.
pub fn visits_are_accepted()
    ensures { (s : WalkContext) (objects : List Object) (visits : List Visit)
        → IsSoundBy s objects visits → AreAccepted s (content_at objects) visits }
{}

/// In a sound set no URI is visited twice.
pub fn each_uri_is_visited_once()
    ensures { (s : WalkContext) (objects : List Object) (visits : List Visit)
        → IsSoundBy s objects visits → are_distinct (visited visits) ≡ true }
{}

/// Each file that a visited point's manifest lists, its CRL too, is in the sound set, has the listed hash, and is
/// visited.
pub fn listed_files_are_visited()
    ensures { (s : WalkContext) (objects : List Object) (visits : List Visit) (p : Point) (file : File)
        → IsSoundBy s objects visits → Contains visits (Published p)
        → Contains (files_of p.manifest.body) file → IsReached (content_at objects) visits p file }
{}

/// Of the list of a set one range has a whole span exactly where the set has each number of the span.
pub fn spans_are_had_by_numbers()
    ensures { (family : Family) (set : List Span) (span : Span) → IsListOf family set → span.0 ≤ span.1
        → (has_span set span ≡ true)
        ↔ ((n : ℕ) → span.0 ≤ n → n ≤ span.1 → has_number set n ≡ true) }
{}

/// The list of a set is inside that of another exactly where the other has each number of the set.
pub fn sets_are_inside_by_numbers()
    ensures { (family : Family) (set other : List Span) → IsListOf family set → IsListOf family other
        → (is_inside set other ≡ true)
        ↔ ((n : ℕ) → has_number set n ≡ true → has_number other n ≡ true) }
{}

/// An object is accepted exactly where it keeps the rules of its kind: those that last, under its issuer's key and
/// places, and those that are asked at each walk.
pub fn accepted_objects_keep_the_rules()
    ensures anchors { (s : WalkContext) (held : Contents) (anchor : Authority)
        → (accepted_anchor s held ≡ Ok anchor) ↔ KeepsAnchorRules s held anchor }
    ensures certificates { (s : WalkContext) (held : Contents) (issuer : Authority) (revoked : List CrlEntry)
        (visited : List (List ℕ)) (file : File) (child : Authority)
        → (accepted_authority s held issuer revoked visited file ≡ Ok child)
        ↔ KeepsCertificateRules s held issuer revoked visited file child }
    ensures manifests { (s : WalkContext) (held : Contents) (issuer : Authority) (visited : List (List ℕ))
        (m : SignedManifest)
        → (accepted_manifest s held issuer visited ≡ Ok m) ↔ KeepsManifestRules s held issuer visited m }
    ensures crls { (s : WalkContext) (held : Contents) (issuer : Authority) (visited : List (List ℕ)) (file : File)
        (crl : CrlValue)
        → (accepted_crl s held issuer visited file ≡ Ok crl) ↔ KeepsCrlRules s held issuer visited file crl }
    ensures points { (s : WalkContext) (held : Contents) (authority : Authority) (visited : List (List ℕ)) (p : Point)
        → (accepted_point s held authority visited ≡ Ok p) ↔ KeepsPointRules s held authority visited p }
    ensures roas { (s : WalkContext) (held : Contents) (p : Point) (visited : List (List ℕ)) (file : File)
        (r : SignedRoa)
        → (accepted_roa s held p visited file ≡ Ok r) ↔ KeepsRoaRules s held p visited file r }
{}

/// The rules that last are kept at any other look too, at whatever moment and with no less vouched, under the same key
/// in the same places.
pub fn lasting_rules_last()
    ensures anchors { (s other : WalkContext) (bytes : List ℕ) (c : SignedCert) → LooksAgain s other
        → IsLastingAnchor s bytes c → IsLastingAnchor other bytes c }
    ensures certificates { (s other : WalkContext) (one two : Authority) (uri bytes : List ℕ) (c : SignedCert)
        → LooksAgain s other → IsSameIssuer one two
        → IsLastingCertificate s one uri bytes c → IsLastingCertificate other two uri bytes c }
    ensures manifests { (s other : WalkContext) (one two : Authority) (bytes : List ℕ) (m : SignedManifest)
        → LooksAgain s other → IsSameIssuer one two
        → IsLastingManifest s one bytes m → IsLastingManifest other two bytes m }
    ensures crls { (s other : WalkContext) (one two : Authority) (uri bytes : List ℕ) (c : SignedCrl)
        → LooksAgain s other → IsSameIssuer one two
        → IsLastingCrl s one uri bytes c → IsLastingCrl other two uri bytes c }
    ensures roas { (s other : WalkContext) (one two : Authority) (uri bytes : List ℕ) (r : SignedRoa)
        → LooksAgain s other → IsSameIssuer one two
        → IsLastingRoa s one uri bytes r → IsLastingRoa other two uri bytes r }
{}
