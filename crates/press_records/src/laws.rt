//! Laws of the records of editions.

ghost use Rattle.std.specs.Prelude.{◌≡◌, ◌++◌, ◌∷◌, [], ℕ, List, Some, true};
ghost use Rattle.std.specs.List.{AllByRecursion};
ghost use Rattle.std.proofs.Common.{inl, inr};
ghost use Rattle.key_roll.specs.declared.rows.RevokedRow.{RevokedRow};
ghost use Rattle.record_forms.specs.Form.{AreBytes, Spells};
ghost use Rattle.record_forms.specs.Forms.{read_whole};
ghost use Rattle.press_records.specs.Rows.{added, merged, rise, IsPart};
ghost use Rattle.press_records.specs.Edition.{EditionValue, StandingValue, IsAlike, after_edition, editions};
ghost use Rattle.press_records.specs.Recordable.{IsRecordable};
ghost use Rattle.press_records.specs.Records.{after_editions, AreRecordsOf, editions_told, IsFirstBad};

/// Over what stood before, bytes are read to an edition exactly where they are its record, so that an edition
/// has one.
pub fn edition_records_are_read_back()
    ensures again { (before : StandingValue) (edition : EditionValue) (bytes : List ℕ)
        → Spells (editions before) edition bytes → read_whole (editions before) bytes ≡ Some edition }
    ensures taken { (before : StandingValue) (edition : EditionValue) (bytes : List ℕ) → AreBytes bytes
        → read_whole (editions before) bytes ≡ Some edition → Spells (editions before) edition bytes }
{}

/// An edition that can be recorded, field by field, is one that has a spelling.
pub fn recordable_editions_have_a_record()
    ensures { (before : StandingValue) (edition : EditionValue) → IsRecordable before edition
        → (editions before).good edition }
{}

/// Entries that are carried on are found among others, in whose order they stand: what is added is merged with
/// them to these again, and what was merged tells what was added.
pub fn carried_entries_are_found()
    ensures merged { (carried entries : List RevokedRow) → rise entries ≡ true → IsPart carried entries
        → merged carried (added entries carried) ≡ entries }
    ensures added { (carried others : List RevokedRow) → rise (merged carried others) ≡ true
        → added (merged carried others) carried ≡ others }
{}

/// The records of editions, each over what the ones before it leave, tell these and no others; and an index is told
/// exactly of the first record that is no edition's over what those before it leave.
pub fn records_are_read_back()
    ensures again { (index : ℕ) (records : List (List ℕ)) (before : StandingValue) (editions : List EditionValue)
        → AreRecordsOf before editions records → editions_told index records before ≡ inl editions }
    ensures taken { (index : ℕ) (records : List (List ℕ)) (before : StandingValue) (editions : List EditionValue)
        → AllByRecursion AreBytes records
        → editions_told index records before ≡ inl editions → AreRecordsOf before editions records }
    ensures bad { (index : ℕ) (records : List (List ℕ)) (before : StandingValue) (bad : ℕ)
        → AllByRecursion AreBytes records
        → editions_told index records before ≡ inr bad → IsFirstBad before index records bad }
{}

/// A record of one edition more, over what the editions leave, makes the records those of all of them.
pub fn one_more_edition()
    ensures records { (before : StandingValue) (earlier : List EditionValue) (records : List (List ℕ))
        (edition : EditionValue) (bytes : List ℕ)
        → AreRecordsOf before earlier records → Spells (editions (after_editions before earlier)) edition bytes
        → AreRecordsOf before (earlier ++ edition ∷ []) (records ++ bytes ∷ []) }
    ensures left { (before : StandingValue) (earlier : List EditionValue) (edition : EditionValue)
        → after_editions before (earlier ++ edition ∷ []) ≡ after_edition (after_editions before earlier) edition }
{}

/// Over what stands alike the same bytes are records, and of the same editions.
pub fn what_stands_alike_reads_alike()
    ensures read { (one other : StandingValue) (bytes : List ℕ) → IsAlike one other
        → read_whole (editions one) bytes ≡ read_whole (editions other) bytes }
    ensures spelled { (one other : StandingValue) (edition : EditionValue) (bytes : List ℕ) → IsAlike one other
        → Spells (editions one) edition bytes → Spells (editions other) edition bytes }
{}
