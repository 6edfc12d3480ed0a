//! What the definitions of texts and civil times come to.

ghost use Rattle.std.specs.Prelude.{◌≡◌, ◌<◌, ◌≤◌, Bool, ℕ, true, false, List, Some, length, if◌then◌else◌};
ghost use Rattle.moments.specs.Civil.{IsAt, IsCivil, IsMoment};
ghost use Rattle.moments.specs.Days.{civil_of};
ghost use Rattle.moments.specs.Text.{time_text};
ghost use Rattle.moments.specs.Reading.{moment_in};

/// The civil time of a moment is one that the calendar and the clock have, and is at that moment.
pub fn civil_time()
    ensures civil { (seconds : ℕ) → IsMoment seconds → IsCivil (civil_of seconds) }
    ensures at { (seconds : ℕ) → IsMoment seconds → IsAt (civil_of seconds) seconds }
{}

/// Moments with one text of a kind are one moment.
pub fn one_time()
    ensures general { (m n : ℕ) → IsMoment m → IsMoment n
        → time_text true m ≡ time_text true n → m ≡ n }
    ensures utc { (m n : ℕ) → IsMoment m → IsMoment n → m < 2_524_608_000 → n < 2_524_608_000
        → time_text false m ≡ time_text false n → m ≡ n }
{}

/// What is spelled so is read, and what is read is spelled so.
pub fn spelled_is_read()
    ensures again { (general : Bool) (seconds : ℕ) → IsMoment seconds
        → (general ≡ false → seconds < 2_524_608_000)
        → moment_in general (time_text general seconds) ≡ Some seconds }
    ensures taken { (general : Bool) (bytes : List ℕ) (seconds : ℕ)
        → moment_in general bytes ≡ Some seconds
        → IsMoment seconds × (bytes ≡ time_text general seconds)
        × (general ≡ false → seconds < 2_524_608_000) }
{}

/// A UTCTime has 13 bytes, and a GeneralizedTime 15.
pub fn text_length()
    ensures { (general : Bool) (seconds : ℕ)
        → length (time_text general seconds) ≡ (if general then 15 else 13) }
{}
