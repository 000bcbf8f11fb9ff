ghost use Rattle.std.specs.Prelude.{◌≡◌, true, ◌≤◌, pos};
ghost use Rattle.dates.specs.Days as spec;

use crate::stamp::Date;

// A date is no calendar day of years 1 to 9999.
#[derive(Clone, Copy)]
pub struct NoDay;

fn is_leap(year: u32) -> bool
    ensures { result ≡ spec.is_leap year }
{
    year % 4 == 0 && (year % 100 != 0 || year % 400 == 0)
}

fn february(year: u32) -> u32
    ensures { (result ≡ spec.february year) × (28 ≤ result) × (result ≤ 29) }
{
    if is_leap(year) { 29 } else { 28 }
}

// The days of a month, 0 where there is no such month.
fn month_days(year: u32, month: u32) -> u32
    ensures { (result ≡ spec.month_days year month) × (result ≤ 31) }
{
    if month < 1 || 12 < month {
        return 0;
    }
    match month {
        2 => february(year),
        4 | 6 | 9 | 11 => 30,
        _ => 31,
    }
}

fn is_calendar_day(date: Date) -> bool
    ensures { result ≡ spec.is_calendar_day date }
{
    1 <= date.year
        && date.year <= 9999
        && 1 <= date.day
        && date.day <= month_days(date.year, date.month)
}

// The days of the year's earlier months.
fn days_before(year: u32, month: u32) -> u32
    requires { month ≤ 12 }
    ensures { (result ≡ spec.days_before year month) × (result ≤ 372) }
{
    let mut sum = 0;
    for m in 0..month {
        sum += month_days(year, m);
    }
    sum
}

// The number of a calendar day; 1 January of year 1 has 1.
fn day_number(date: Date) -> i32
    requires { spec.is_calendar_day date ≡ true }
    ensures { (result ≡ pos (spec.day_number date)) × (spec.day_number date ≤ 3652100) }
{
    let years = date.year - 1;
    let day = years * 365 + years / 4 - years / 100
        + years / 400
        + days_before(date.year, date.month)
        + date.day;
    day as i32
}

// Second minus first: below zero when the second is earlier, zero when equal.
pub fn days_between(first: Date, second: Date) -> Result<i32, NoDay>
    ensures { (spec.told_number result ≡ spec.number first second) × (spec.told_days result ≡ spec.days first second) }
{
    if !is_calendar_day(first) || !is_calendar_day(second) {
        return Err(NoDay);
    }
    Ok(day_number(second) - day_number(first))
}
