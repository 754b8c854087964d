//! Lemmas about all dates, times and rows.

ghost use Rattle.std.specs.Prelude.{◌≡◌, ◌==◌, ◌<◌, ℕ, Bool, List, slice_index, ◌≤◌, Some, IsTrue};
ghost use Rattle.iim_dataset.specs.Format.Octets.{minus, within, greatest_size};
ghost use Rattle.iim_tables.specs.Format.Dates.{pair_at, year_in, month_in, day_in, are_eight_digits, date_text, ReadsDate, has_time_form, time_text, ReadsTime};
ghost use Rattle.iim_tables.specs.Format.Rows.{row_of};
ghost use Rattle.iim_tables.specs.Format.Records.{HasValueOfLength};
ghost use Rattle.iim_tables.specs.declared.shape.Row.{Row};

/// Proves that eight digits are the text of exactly one year, month and day, and that parsing that
/// text returns them.
#[tactic(auto, using(crate::proofs::DateLemmas::eight_digits_written, crate::proofs::DateLemmas::dates_read_back))]
pub fn dates_are_written_in_one_way()
    ensures only { (xs : List ℕ) → IsTrue (are_eight_digits xs)
        → xs ≡ date_text (year_in xs) (month_in xs) (day_in xs) }
    ensures each { (y m d : ℕ) → y < 10_000 → m < 100 → d < 100 → ReadsDate (date_text y m d) y m d }
{}

/// Proves that six digits, a sign and four digits are the text of exactly one time and offset, and
/// that parsing that text returns them.
#[tactic(auto, using(crate::proofs::TimeLemmas::times_written))]
pub fn times_are_written_in_one_way()
    ensures only { (xs : List ℕ) → IsTrue (has_time_form xs)
        → xs ≡ time_text (pair_at xs 0) (pair_at xs 2) (pair_at xs 4)
        (slice_index xs 6 == minus) (pair_at xs 7) (pair_at xs 9) }
    ensures each { (hour minute second hours minutes : ℕ) (is_behind : Bool)
        → hour < 100 → minute < 100 → second < 100 → hours < 100 → minutes < 100
        → ReadsTime (time_text hour minute second is_behind hours minutes)
        hour minute second is_behind hours minutes }
{}

/// Proves that for each length within the bounds of a row, some octets of that length are valid for
/// the row. So no row has bounds that its kind rules out.
#[tactic(auto, using(crate::proofs::RowLemmas::row_values))]
pub fn each_row_has_values()
    ensures { (rec set n : ℕ) (r : Row) → row_of rec set ≡ Some r → IsTrue (within r.min r.max n)
        → HasValueOfLength rec set n }
{}

/// Proves that no row allows more octets than the greatest size, so that a count can encode every
/// length.
#[tactic(auto, using(crate::proofs::RowLemmas::row_bounded))]
pub fn rows_allow_no_more_than_the_greatest_size()
    ensures { (rec set : ℕ) (r : Row) → row_of rec set ≡ Some r → r.max ≤ greatest_size }
{}
