// Days of the calendar and their dates: day 0 is 2000-01-01, and the last day is 36524, 2099-12-31.
#![tactic(auto)]

ghost use Rattle.std.specs.Prelude.{◌≡◌, ◌+◌, ◌≤◌, ◌<◌, leb};
ghost use Rattle.calendar.specs.Calendar.{leap, month_days, days_before_year, day_number, is_date, day_of_date, date_of_day};
ghost use Rattle.calendar.specs.Answers.{day_outcome, date_outcome};
ghost use Rattle.calendar.specs.Laws.{IsDate};
ghost use Rattle.calendar.specs.Steps.{InRange, lacking, long_start, long_day, Holds};

#[derive(Clone, Copy, Debug, PartialEq, Eq, PartialOrd, Ord)]
pub struct Date {
    pub year: u16,
    pub month: u8,
    pub day: u8,
}

const LAST: usize = 36524;

// From 2000 to 2099 every fourth year is a leap year: 400 divides the one century.
fn is_leap(year: usize) -> bool
    requires { InRange year }
    ensures { result ≡ leap year }
{
    year % 4 == 0
}

// No month has fewer than 28 days, so most dates need no look at theirs. Months have 31 and 30 days by turns, but July and
// August both have 31.
fn month_has(year: usize, month: usize, day: usize) -> bool
    requires { InRange year × (1 ≤ month) × (month ≤ 12) }
    ensures { result ≡ leb day (month_days year month) }
{
    if day <= 28 {
        return true;
    }
    if month != 2 {
        return day <= 30 + (month + month / 8) % 2;
    }
    if is_leap(year) { day <= 29 } else { day <= 28 }
}

#[tactic(auto, using(std::proofs::lemmas::Bool::Decides::nat_tests), unfolding(crate::specs::Calendar::is_date))]
fn is_date(year: usize, month: usize, day: usize) -> bool
    ensures { result ≡ is_date year month day }
{
    match (year, month) {
        (2000..=2099, 1..=12) => 1 <= day && month_has(year, month, day),
        _ => false,
    }
}

// The months of a long year, whose February has 30 days, start along a line, which needs neither a table nor a jump.
fn long_start(month: usize) -> usize
    requires { (1 ≤ month) × (month ≤ 12) }
    ensures { result ≡ long_start month }
{
    (489 * month - 481) / 16
}

// The days before a year, less those that its February lacks from March on, and 2 more, so that nothing goes below 0. A year
// is 1461 quarter days, and rounding gives the first of four years its one day more, up to February and from March on.
fn years_before(year: usize, month: usize) -> usize
    requires { InRange year }
    ensures { result + lacking year month ≡ days_before_year year + 2 }
{
    let quarters = 1461 * (year - 2000);
    if month <= 2 {
        (quarters + 11) / 4
    } else {
        (quarters + 4) / 4
    }
}

fn day_number(year: usize, month: usize, day: usize) -> usize
    requires { IsDate year month day }
    ensures { result ≡ day_number year month day }
{
    years_before(year, month) + long_start(month) + day - 3
}

// The number of a date, where there is such a date.
pub fn day_of_date(year: usize, month: usize, day: usize) -> Option<u16>
    ensures { day_outcome result ≡ day_of_date year month day }
{
    if !is_date(year, month, day) {
        return None;
    }
    Some(day_number(year, month, day) as u16)
}

// Where a long year has day t of a year. Both count from 0.
fn long_day(year: usize, t: usize) -> usize
    requires { InRange year × (t < 366) }
    ensures { result ≡ long_day year t }
{
    if is_leap(year) {
        if t < 60 { t } else { t + 1 }
    } else if t < 59 {
        t
    } else {
        t + 2
    }
}

// The month that holds day u of a long year: the way back is a line too, so that no month is tried.
fn long_month(u: usize) -> usize
    requires { u < 367 }
    ensures { Holds u result }
{
    (67 * u + 2075) / 2048
}

// The date of a day up to the last. Four years have 1461 days, and the first of them one more than the others.
pub fn date_of_day(day: usize) -> Option<Date>
    ensures { date_outcome result ≡ date_of_day day }
{
    if LAST < day {
        return None;
    }
    let year = 2000 + 4 * day / 1461;
    let u = long_day(year, 4 * day % 1461 / 4);
    let month = long_month(u);
    Some(Date {
        year: year as u16,
        month: month as u8,
        day: (u - long_start(month) + 1) as u8,
    })
}
