//! Laws of the definitions that the contracts cite.

ghost use Rattle.std.specs.Prelude.{◌≡◌, ℕ, ◌+◌, ◌≤◌, ◌<◌, ◌^◌, ◌++◌, ◌∷◌, [], List, length, map, take, drop, reverse, Bool, true, false};
ghost use Rattle.std.specs.List.{flat_map};
ghost use Rattle.pub_set.specs.Changes.{IsApplied};
ghost use Rattle.outlet_api.specs.Calls.{Call, Files, after_all};
ghost use Rattle.rrdp_text.specs.declared.files.FileRef.{FileRef};
ghost use Rattle.rrdp_text.specs.declared.files.DeltaRef.{DeltaRef};
ghost use Rattle.rrdp_text.specs.Texts.{notification_text};
ghost use Rattle.rrdp_state.specs.declared.delta.Delta.{Delta};
ghost use Rattle.rrdp_state.specs.Editions.{Edition, FollowEachOther, objects_of, last_deltas};
ghost use Rattle.rrdp_state.specs.Named.{fitting, bytes_in, named_deltas, named_entries};
ghost use Rattle.rrdp_state.specs.Exported.{Repository, entry_put, entry_ref, refs_named, notification_of};
ghost use Rattle.rrdp_state.specs.Exported.{notification_put, puts_of, export_calls, AreBeside, IsBeside};
ghost use Rattle.rrdp_state.specs.Coherent.{Shows, Coherent};

/// The deltas that are named are the longest run of newest ones with at most so many members and no
/// more bytes than there is room for.
pub fn named_deltas_are_the_longest_run()
    ensures run { (most room : ℕ) (deltas : List Delta)
        → (count : ℕ) × (count ≤ most) × (fitting most room deltas ≡ take count deltas) }
    ensures fits { (most room : ℕ) (deltas : List Delta)
        → bytes_in (fitting most room deltas) ≤ room }
    ensures longest { (most room count : ℕ) (deltas : List Delta)
        → count ≤ most → count ≤ length deltas → bytes_in (take count deltas) ≤ room
        → count ≤ length (fitting most room deltas) }
{}

/// The deltas that are named are those of the newest editions, and their changes, carried out in order
/// over the set of the serial before the first of them, make the set of the snapshot. There is a set of
/// that serial, since the first edition has no delta.
pub fn named_deltas_lead_to_the_snapshot()
    ensures within { (session : List ℕ) (older : List Edition) (edition : Edition)
        → length (named_deltas session (edition ∷ older)) ≤ length older }
    ensures deltas { (session : List ℕ) (editions : List Edition)
        → named_deltas session editions
        ≡ last_deltas session (length (named_deltas session editions)) editions }
    ensures applied { (editions : List Edition) (count : ℕ) → FollowEachOther editions
        → IsApplied (objects_of (drop count editions))
        (flat_map (λ edition. edition.changes) (reverse (take count editions)))
        (objects_of editions) }
{}

/// What is put, where all is put, is the files that the notification's text names, each at its path and
/// with its hash, and the notification.
pub fn notifications_name_what_is_put()
    ensures put { (repository : Repository) (editions : List Edition)
        → puts_of repository editions true
        ≡ map (entry_put repository.session) (named_entries repository.session editions)
        ++ notification_put repository editions }
    ensures text { (repository : Repository) (older : List Edition) (edition : Edition)
        → (snapshot : FileRef) × (deltas : List DeltaRef)
        × (notification_of repository older edition
        ≡ notification_text repository.session (length older + 1) snapshot deltas)
        × (snapshot ∷ map (λ delta. delta.file) deltas ≡ refs_named repository older edition) }
    ensures named { (repository : Repository) (older : List Edition) (edition : Edition)
        → refs_named repository older edition
        ≡ map (entry_ref repository) (named_entries repository.session (edition ∷ older)) }
{}

/// After each of the calls of an export the files are coherent. What is put at other paths just before
/// the notification changes nothing of it.
pub fn exports_keep_files_coherent()
    // All is put: over files that were coherent, and in the end over any.
    ensures all { (repository : Repository) (editions : List Edition) (beside : List Call)
        (files : Files) (calls : ℕ)
        → FollowEachOther editions → length editions < 2 ^ 64 → AreBeside beside
        → Coherent repository editions files
        → Coherent repository editions
        (after_all (take calls (export_calls repository editions true beside)) files) }
    ensures all_in_the_end { (repository : Repository) (older : List Edition) (edition : Edition)
        (beside : List Call) (files : Files)
        → length (edition ∷ older) < 2 ^ 64 → AreBeside beside
        → Shows repository (edition ∷ older)
        (after_all (export_calls repository (edition ∷ older) true beside) files) }

    // The newest delta alone: over files that show this edition or the one before it.
    ensures newest { (repository : Repository) (editions : List Edition) (beside : List Call)
        (files : Files) (later calls : ℕ)
        → FollowEachOther editions → length editions < 2 ^ 64 → AreBeside beside
        → later ≤ 1 → Shows repository (drop later editions) files
        → Coherent repository editions
        (after_all (take calls (export_calls repository editions false beside)) files) }
    ensures newest_in_the_end { (repository : Repository) (editions : List Edition)
        (beside : List Call) (files : Files) (later : ℕ)
        → FollowEachOther editions → length editions < 2 ^ 64 → AreBeside beside
        → later ≤ 1 → Shows repository (drop later editions) files
        → Shows repository editions
        (after_all (export_calls repository editions false beside) files) }

    // Files beside are left as they are put.
    ensures beside { (repository : Repository) (editions : List Edition) (all : Bool)
        (beside : List Call) (files : Files) (path : List ℕ)
        → AreBeside beside → IsBeside path
        → after_all (export_calls repository editions all beside) files path
        ≡ after_all beside files path }
{}
