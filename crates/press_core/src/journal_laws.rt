//! Laws of the records of a press's journal.

ghost use Rattle.std.specs.Prelude.{◌≡◌, ℕ, List, map};
ghost use Rattle.std.proofs.Common.{inl};
ghost use Rattle.press_records.specs.Store.{Store};
ghost use Rattle.press_records.specs.Records.{Tells};
ghost use Rattle.editions.specs.Edition.{Edition};
ghost use Rattle.press_core.specs.Records.{edition_value};
ghost use Rattle.press_core.specs.JournalRecords.{AreRecords};

/// Records tell one store and one list of editions: those whose records they are, as their values, and then no index.
/// So what is known of the editions of a store is known of those that are found there.
pub fn records_tell_one_store()
    ensures told { (store : Store) (editions : List Edition) (records : List (List ℕ))
        → AreRecords store editions records → Tells records (inl (store, map edition_value editions)) }
    ensures one { (store other : Store) (editions more : List Edition) (records : List (List ℕ))
        → AreRecords store editions records → AreRecords other more records
        → (store ≡ other) × (editions ≡ more) }
{}
