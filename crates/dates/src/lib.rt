// A date as text, YYYY-MM-DD, and a day from such a text.
#![tactic(auto)]

ghost use Rattle.std.specs.Prelude.{◌≡◌, ◌+◌, ◌<◌, length};
ghost use Rattle.calendar.specs.Answers.{day_outcome};
ghost use Rattle.dates.specs.DateText.{date_text, day_text, digit_at, two_at, day_of_text};

use calendar::Date;

const HYPHEN: u8 = b'-';

fn date_text(year: usize, month: usize, day: usize) -> [u8; 10]
    ensures { result ≡ date_text year month day }
{
    [
        b'0' + (year / 1000 % 10) as u8,
        b'0' + (year / 100 % 10) as u8,
        b'0' + (year / 10 % 10) as u8,
        b'0' + (year % 10) as u8,
        HYPHEN,
        b'0' + (month / 10 % 10) as u8,
        b'0' + (month % 10) as u8,
        HYPHEN,
        b'0' + (day / 10 % 10) as u8,
        b'0' + (day % 10) as u8,
    ]
}

// The date of a day; 0000-00-00 above the last.
pub fn day_text(day: usize) -> [u8; 10]
    ensures { result ≡ day_text day }
{
    match calendar::date_of_day(day) {
        Some(Date { year, month, day }) => {
            date_text(usize::from(year), usize::from(month), usize::from(day))
        }
        None => date_text(0, 0, 0),
    }
}

// The value of the digit at place i, and of the two from there.
fn digit(text: &[u8], i: usize) -> usize
    requires { i < length text.now }
    ensures { (result ≡ digit_at text.now i) × (result < 16) }
{
    octets::byte(text, i) % 16
}

fn two_digits(text: &[u8], i: usize) -> usize
    requires { i + 1 < length text.now }
    ensures { (result ≡ two_at text.now i) × (result < 176) }
{
    10 * digit(text, i) + digit(text, i + 1)
}

// What the digits spell is put back into text and compared, so that nothing but a date's text passes.
pub fn day_of_text(text: &[u8]) -> Option<u16>
    ensures { day_outcome result ≡ day_of_text text.now }
{
    if text.len() != 10 {
        return None;
    }
    let year = 100 * two_digits(text, 0) + two_digits(text, 2);
    let month = two_digits(text, 5);
    let day = two_digits(text, 8);
    if !octets::same_bytes(text, &date_text(year, month, day)) {
        return None;
    }
    calendar::day_of_date(year, month, day)
}
