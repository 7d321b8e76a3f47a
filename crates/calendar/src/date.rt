// Dates of the Gregorian calendar in the years 0 to 9999, the count of their days, and a date rolled forward one day.
ghost use Rattle.std.specs.Prelude.{◌≡◌, ◌-◌, ◌*◌, ◌≤◌, ◌<◌};
ghost use Rattle.calendar.specs.Day.{leap, days_in, year_days, is_date, is_last, days_before_year, days_before_month, day_number};
ghost use Rattle.calendar.specs.Day.{next_day, rolled, roll_number, rolling, rolled_by, month_from, date_from};

// A date by its numbers. There may be no such day.
#[derive(Clone, Copy, PartialEq, Eq)]
pub struct Date {
    pub year: u16,
    pub month: u8,
    pub day: u8,
}

// Why a date is not rolled forward; `roll_number` gives the number of each.
#[derive(Clone, Copy, PartialEq, Eq)]
pub enum RollError {
    // There is no such day.
    Nonexistent,
    // The day after it, the first of the year 10000, lies outside the calendar.
    Outside,
}

// What rolling a copy of a date forward gives: the answer, and the date afterwards.
#[derive(Clone, Copy)]
pub struct Rolling {
    pub answer: Result<(), RollError>,
    pub date: Date,
}

// The last year that a text of four digits names.
const LAST_YEAR: u16 = 9999;

// The year that LegacyTime counts from.
const EPOCH_YEAR: u16 = 1970;

// The days of each month in a common year, by the month's number. There is no month 0.
const MONTHS: [u8; 13] = [0, 31, 28, 31, 30, 31, 30, 31, 31, 30, 31, 30, 31];

// Whether `year` has 366 days. Year 0 has.
#[tactic(auto, unfolding(crate::specs::Day::leap))]
fn is_leap(year: u16) -> bool
    ensures { result ≡ leap year }
{
    year % 4 == 0 && (year % 100 != 0 || year % 400 == 0)
}

// Returns how many days `month` has in `year`, 0 if there is no such month.
#[tactic(auto, unfolding(crate::specs::Day::days_in))]
fn days_in(year: u16, month: u8) -> u8
    ensures { result ≡ days_in year month }
{
    match month {
        2 if is_leap(year) => 29,
        0..=12 => MONTHS[usize::from(month)],
        _ => 0,
    }
}

// Returns how many days `year` has.
fn days_in_year(year: u16) -> u32
    ensures { result ≡ year_days year }
{
    if is_leap(year) { 366 } else { 365 }
}

// Whether the day exists.
#[tactic(auto, unfolding(crate::specs::Day::is_date))]
pub(crate) fn is_date(date: Date) -> bool
    ensures { result ≡ is_date date }
{
    date.year <= LAST_YEAR && 1 <= date.day && date.day <= days_in(date.year, date.month)
}

// Whether the day is 9999-12-31.
#[tactic(auto, unfolding(crate::specs::Day::is_last))]
fn is_last(date: Date) -> bool
    ensures { result ≡ is_last date }
{
    date.year == LAST_YEAR && date.month == 12 && date.day == 31
}

// Returns how many days lie before `year`, from year 0 on: a leap day more for each year before it that four divides, less those that a
// hundred divides, and those again that four hundred divides.
fn days_before_year(year: u16) -> u32
    ensures value { result ≡ days_before_year year }
    ensures small { result < 24000000 }
{
    let y = u32::from(year);
    365 * y + (y + 3) / 4 + (y + 399) / 400 - (y + 99) / 100
}

// Returns how many days of `year` lie before `month`.
fn days_before_month(year: u16, month: u8) -> u32
    ensures value { result ≡ days_before_month year month }
    ensures small { result < 8000 }
{
    let mut days = 0;
    for m in 0..month {
        days += u32::from(days_in(year, m));
    }
    days
}

// Returns the number of a day, where 0000-01-01 is day 0. Of a day that does not exist the number says nothing; none lies before day 0,
// which no month has.
#[tactic(auto, unfolding(crate::specs::Day::day_number))]
pub(crate) fn day_number(date: Date) -> u32
    ensures { result ≡ day_number date }
{
    let year = days_before_year(date.year);
    let month = days_before_month(date.year, date.month);
    let day = date.day.saturating_sub(1);
    year + month + u32::from(day)
}

// Returns the date that lies `days` days after the first of January of `year`.
fn date_in_year(year: u16, days: u32) -> Date
    requires { days < year_days year }
    ensures { result ≡ month_from 12 year 1 days }
{
    let mut month = 1;
    let mut left = days;
    let mut size = u32::from(days_in(year, month));
    // Stays `while`: how many turns there are lies in the days that are left, and a `for` over the months would need an end that is never met.
    while size <= left {
        left -= size;
        month += 1;
        size = u32::from(days_in(year, month));
    }
    Date {
        year,
        month,
        day: (left + 1) as u8,
    }
}

// Returns the date that lies `days` days after 1970-01-01. The seconds of 32 bits are less than 137 years of 365 days.
pub(crate) fn date_after_epoch(days: u32) -> Date
    requires { days < 137 * 365 }
    ensures { result ≡ date_from 137 1970 days }
{
    let mut year = EPOCH_YEAR;
    let mut left = days;
    let mut size = days_in_year(year);
    // Stays `while`, as in `date_in_year`.
    while size <= left {
        left -= size;
        year += 1;
        size = days_in_year(year);
    }
    date_in_year(year, left)
}

// Returns the day after `date`, which is in none of the years past the last.
fn next_date(date: Date) -> Date
    requires { date.year ≤ 9999 }
    ensures { result ≡ next_day date }
{
    if date.day < days_in(date.year, date.month) {
        return Date {
            year: date.year,
            month: date.month,
            day: date.day + 1,
        };
    }
    if date.month < 12 {
        return Date {
            year: date.year,
            month: date.month + 1,
            day: 1,
        };
    }
    Date {
        year: date.year + 1,
        month: 1,
        day: 1,
    }
}

// Returns the day after `date`.
#[tactic(auto, unfolding(crate::specs::Day::rolled))]
fn rolled(date: Date) -> Result<Date, RollError>
    ensures { result ≡ rolled date }
{
    if !is_date(date) {
        return Err(RollError::Nonexistent);
    }
    if is_last(date) {
        return Err(RollError::Outside);
    }
    Ok(next_date(date))
}

// Returns the number of an answer of `roll`.
// Stays a function: the numbers are those of docs/DECISIONS.md, part B, and an answer has one too that is no error.
pub fn roll_number(answer: Result<(), RollError>) -> usize
    ensures { result ≡ roll_number answer }
{
    match answer {
        Ok(()) => 0,
        Err(RollError::Nonexistent) => 17,
        Err(RollError::Outside) => 18,
    }
}

// Rolls the lent date forward one day. A day that does not exist, and 9999-12-31, stay.
pub fn roll(date: &mut Date) -> Result<(), RollError>
    ensures { rolling result date.new ≡ rolled_by date.old }
{
    *date = rolled(*date)?;
    Ok(())
}

// Rolls a copy of `date` forward: for a caller that has no date to lend.
pub fn roll_copy(date: Date) -> Rolling
    ensures { result ≡ rolled_by date }
{
    let mut lent = date;
    let answer = roll(&mut lent);
    Rolling { answer, date: lent }
}
