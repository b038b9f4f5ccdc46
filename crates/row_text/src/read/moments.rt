//! Dates and moments.

ghost use Rattle.std.specs.Prelude.{◌≡◌, ◌≢◌, ℕ, ◌+◌, ◌^◌, ◌<◌, ◌≤◌, ◌∷◌, List, length, MatchOption, IfSome, IsNone};
ghost use Rattle.std.specs.Prelude.{IsTrue, ◌↔◌, ◌-◌, ◌/◌};
ghost use Rattle.column_values.specs.declared.kind.ColumnType.{ColumnType};
ghost use Rattle.row_text.specs.calls.Words.{FindsWord};
ghost use Rattle.row_text.specs.calls.Moments.{IsMomentWord, IsLowMoment, IsNoSecond, IsSecondOf};
ghost use Rattle.column_values.specs.Moments.{IsYear, IsFraction};
ghost use Rattle.row_text.specs.Digits.{behind_point};
ghost use Rattle.row_text.specs.Values.{quoted, date_text, clock_text, moment_text};

use crate::calendar::day_of_date;
use crate::read::decimals::{behind_units, four, two};
use crate::read::ends::{ahead, behind};
use column_values::{Value, ten_to};

/// A date.
#[derive(Clone, Copy)]
struct DateParts {
    year: u16,
    month: u8,
    day: u8,
}

/// What stands between two quotes.
fn in_quotes(word: &[u8]) -> Option<&[u8]>
    ensures found { IfSome result (λ inside. word.now ≡ quoted inside.now) }
    ensures none { IsNone result → (inside : List ℕ) → word.now ≢ quoted inside }
{
    ahead(behind(word, b"'")?, b"'")
}

/// The date that a text is.
fn date_of(text: &[u8]) -> Option<DateParts>
    requires { length text.now ≡ 10 }
    ensures { MatchOption result ((year month day : ℕ) → text.now ≢ date_text year month day)
        (λ date. (date.year < 10000) × (date.month < 100) × (date.day < 100)
        × (text.now ≡ date_text date.year date.month date.day)) }
{
    if text[4] != b'-' || text[7] != b'-' {
        return None;
    }
    let year = four(text[0], text[1], text[2], text[3])?;
    let month = two(text[5], text[6])?;
    let day = two(text[8], text[9])?;
    Some(DateParts { year, month, day })
}

/// Whether a byte stands for the year.
fn is_year(year: u16) -> bool
    ensures { IsTrue result ↔ IsYear year }
{
    year == 0 || year >= 1901 && year <= 2155
}

/// The year that a word is.
pub(crate) fn year_value(word: &[u8]) -> Option<Value>
    ensures { FindsWord ColumnType.Year word.now result }
{
    if word.len() != 4 {
        return None;
    }
    let year = four(word[0], word[1], word[2], word[3])?;
    if !is_year(year) {
        return None;
    }
    Some(Value::Year(year))
}

/// Whether the month and the day are those of some date; each may be 0.
fn is_low_date(month: u8, day: u8) -> bool
    ensures { IsTrue result ↔ ((month ≤ 12) × (day ≤ 31)) }
{
    month <= 12 && day <= 31
}

/// The date that a word is.
pub(crate) fn date_value(word: &[u8]) -> Option<Value>
    ensures { FindsWord ColumnType.Date word.now result }
{
    let inside = in_quotes(word)?;
    if inside.len() != 10 {
        return None;
    }
    let date = date_of(inside)?;
    if !is_low_date(date.month, date.day) {
        return None;
    }
    Some(Value::Date {
        year: date.year,
        month: date.month,
        day: date.day,
    })
}

/// A time of day.
#[derive(Clone, Copy)]
struct TimeParts {
    hour: u8,
    minute: u8,
    second: u8,
}

/// The time of day that stands behind a blank.
fn clock_of(text: &[u8]) -> Option<TimeParts>
    requires { length text.now ≡ 9 }
    ensures { MatchOption result ((hour minute second : ℕ) → text.now ≢ 32 ∷ clock_text hour minute second)
        (λ time. (time.hour < 100) × (time.minute < 100) × (time.second < 100)
        × (text.now ≡ 32 ∷ clock_text time.hour time.minute time.second)) }
{
    if text[0] != b' ' || text[3] != b':' || text[6] != b':' {
        return None;
    }
    let hour = two(text[1], text[2])?;
    let minute = two(text[4], text[5])?;
    let second = two(text[7], text[8])?;
    Some(TimeParts {
        hour,
        minute,
        second,
    })
}

/// The microseconds that so many digits of a second's fraction are.
fn fraction_of(f: u8, text: &[u8]) -> Option<u32>
    requires { f ≤ 6 }
    ensures { MatchOption result ((micro : ℕ) → text.now ≢ behind_point f (micro / 10 ^ (6 - f)))
        (λ micro. IsFraction f micro × (text.now ≡ behind_point f (micro / 10 ^ (6 - f)))) }
{
    let units = behind_units(f, text)?;
    Some((units * ten_to(usize::from(6 - f))) as u32)
}

/// A date with a time of day.
#[derive(Clone, Copy)]
struct MomentParts {
    date: DateParts,
    time: TimeParts,
    micro: u32,
}

/// The moment that stands between two quotes.
fn moment_of(f: u8, word: &[u8]) -> Option<MomentParts>
    requires { f ≤ 6 }
    ensures { MatchOption result ((year month day hour minute second micro : ℕ)
        → word.now ≢ quoted (moment_text f year month day hour minute second micro))
        (λ moment. IsMomentWord f moment word.now) }
{
    let inside = in_quotes(word)?;
    if inside.len() < 19 {
        return None;
    }
    let (date, rest) = inside.split_at(10);
    let (clock, fraction) = rest.split_at(9);
    let date = date_of(date)?;
    let time = clock_of(clock)?;
    let micro = fraction_of(f, fraction)?;
    Some(MomentParts { date, time, micro })
}

/// Whether a date and a time of day have such parts.
fn is_moment(date: DateParts, time: TimeParts) -> bool
    ensures { IsTrue result ↔ ((date.month ≤ 12) × (date.day ≤ 31) × (time.hour ≤ 23) × (time.minute ≤ 59)
        × (time.second ≤ 59)) }
{
    let is_date = date.month <= 12 && date.day <= 31;
    is_date && time.hour <= 23 && time.minute <= 59 && time.second <= 59
}

/// The moment that a word is, with `f` digits of a second's fraction.
pub(crate) fn date_time_value(f: u8, word: &[u8]) -> Option<Value>
    requires { f ≤ 6 }
    ensures { FindsWord (ColumnType.DateTime f) word.now result }
{
    let moment = moment_of(f, word)?;
    if !is_moment(moment.date, moment.time) {
        return None;
    }
    Some(Value::DateTime {
        year: moment.date.year,
        month: moment.date.month,
        day: moment.date.day,
        hour: moment.time.hour,
        minute: moment.time.minute,
        second: moment.time.second,
        micro: moment.micro,
    })
}

/// The second since 1970-01-01 00:00:00 of a date of the calendar and a time of day.
fn counted_second(moment: MomentParts) -> Option<u32>
    requires { IsLowMoment moment }
    ensures { MatchOption result ((seconds : ℕ) → 1 ≤ seconds → seconds ≤ 2147483647 → ¬ (IsSecondOf seconds moment))
        (λ seconds. (1 ≤ seconds) × (seconds ≤ 2147483647) × IsSecondOf seconds moment) }
{
    let (date, time) = (moment.date, moment.time);
    if !is_time(time) {
        return None;
    }
    let day = day_of_date(date.year, date.month, date.day)?;
    let clock = u32::from(time.hour) * 3600 + u32::from(time.minute) * 60 + u32::from(time.second);
    let seconds = day * 86400 + clock;
    if !is_counted(seconds) {
        return None;
    }
    Some(seconds)
}

/// Whether a timestamp counts the second.
fn is_counted(seconds: u32) -> bool
    ensures { IsTrue result ↔ ((1 ≤ seconds) × (seconds ≤ 2147483647)) }
{
    seconds >= 1 && seconds <= 2_147_483_647
}

/// Whether a day has the time.
fn is_time(time: TimeParts) -> bool
    ensures { IsTrue result ↔ ((time.hour ≤ 23) × (time.minute ≤ 59) × (time.second ≤ 59)) }
{
    time.hour <= 23 && time.minute <= 59 && time.second <= 59
}

/// Whether all parts are 0.
fn is_no_second(moment: MomentParts) -> bool
    ensures { IsTrue result ↔ IsNoSecond moment }
{
    let (date, time) = (moment.date, moment.time);
    let is_no_date = date.year == 0 && date.month == 0 && date.day == 0;
    is_no_date && time.hour == 0 && time.minute == 0 && time.second == 0 && moment.micro == 0
}

/// The moment in UTC that a word is.
pub(crate) fn timestamp_value(f: u8, word: &[u8]) -> Option<Value>
    requires { f ≤ 6 }
    ensures { FindsWord (ColumnType.Timestamp f) word.now result }
{
    let moment = moment_of(f, word)?;
    if is_no_second(moment) {
        return Some(Value::Timestamp {
            seconds: 0,
            micro: 0,
        });
    }
    let seconds = counted_second(moment)?;
    Some(Value::Timestamp {
        seconds,
        micro: moment.micro,
    })
}
