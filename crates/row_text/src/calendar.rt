//! The date of a day, counted from 1970-01-01.

ghost use Rattle.std.specs.Prelude.{◌≡◌, ◌≢◌, ◌<◌, ◌≤◌, ℕ, pos, MatchOption};
ghost use Rattle.jiff_core.specs.Calendar.{IsCivilDate};
ghost use Rattle.jiff_core.specs.Date.{epoch_day};
ghost use Rattle.row_text.specs.calls.Moments.{IsDateOf};
ghost use Rattle.row_text.specs.Calendar.{year_of_day, month_of_day, day_of_day};

use jiff_core::civil::Date;

/// The days from -9999-01-01, the first that the calendar has, to 1970-01-01.
const EPOCH: u32 = 4_371_587;

/// The date of a day up to 2038-01-19, the last one that a timestamp has.
pub(crate) fn date_of_day(day: u32) -> Date
    requires { day ≤ 24855 }
    ensures year { result.year ≡ pos (year_of_day day) }
    ensures month { result.month ≡ month_of_day day }
    ensures day { result.day ≡ day_of_day day }
{
    Date::from_days_since_min(EPOCH + day)
}

/// The date, where the calendar has it.
fn calendar_date(year: u16, month: u8, day: u8) -> Option<Date>
    requires low_year { year < 10000 }
    requires low_month { month < 100 }
    requires low_day { day < 100 }
    ensures { MatchOption result (¬ (IsCivilDate (pos year) month day))
        (λ date. (date.year ≡ pos year) × (date.month ≡ month) × (date.day ≡ day)) }
{
    Date::new(year as i16, month as i8, day as i8).ok()
}

/// The number of a day from 1970-01-01 to 2038-01-19.
fn counted_day(date: Date) -> Option<u32>
    ensures { MatchOption result ((n : ℕ) → n ≤ 24855 → epoch_day date ≢ pos n)
        (λ n. (n ≤ 24855) × (epoch_day date ≡ pos n)) }
{
    let number = date.to_unix_epoch_day();
    if number < 0 {
        return None;
    }
    if number > 24_855 {
        return None;
    }
    Some(number as u32)
}

/// The number of a date's day, counted from 1970-01-01; none for no date of the calendar, and for one before that day
/// or after 2038-01-19.
pub(crate) fn day_of_date(year: u16, month: u8, day: u8) -> Option<u32>
    requires low_year { year < 10000 }
    requires low_month { month < 100 }
    requires low_day { day < 100 }
    ensures { MatchOption result ((n : ℕ) → n ≤ 24855 → ¬ (IsDateOf n year month day))
        (λ n. (n ≤ 24855) × IsDateOf n year month day) }
{
    let date = calendar_date(year, month, day)?;
    counted_day(date)
}
