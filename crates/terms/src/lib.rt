// The term sheet of a caption sheet: the test that it fits n slots, a slot's opening and closing day, and whether it is on show.
#![tactic(auto)]

ghost use Rattle.std.specs.Prelude.{◌≡◌, ◌&&◌, ◌+◌, ◌<◌};
ghost use Rattle.octets.specs.Bytes.{all_below};
ghost use Rattle.terms.specs.Terms.{opening, closing, fit_terms, on_show};
ghost use Rattle.terms.specs.Inner.{day_fits, TermsOf};

pub const LAST_DAY: usize = 36524;

// Whether day j of the openings and closings, which stand one after the other, is at most the last.
fn fit_day(t: &[u8], n: usize, j: usize) -> bool
    requires { TermsOf t.now n × (j < n + n) }
    ensures { result ≡ day_fits t.now j }
{
    octets::number::<2>(t, 2 + 2 * j) <= LAST_DAY
}

fn fit_days(t: &[u8], n: usize) -> bool
    requires { TermsOf t.now n }
    ensures { result ≡ all_below (n + n) (day_fits t.now) }
{
    for j in 0..n + n {
        if !fit_day(t, n, j) {
            return false;
        }
    }
    true
}

// Whether a term sheet of any length fits a caption sheet of n slots. No day is read before the length is known.
pub fn fit_terms(t: &[u8], n: usize) -> bool
    ensures { result ≡ fit_terms n t.now }
{
    2 <= t.len() && octets::number::<2>(t, 0) == n && t.len() == 2 + 4 * n && fit_days(t, n)
}

// The opening day of slot i.
pub fn opening_day(t: &[u8], n: usize, i: usize) -> usize
    requires { TermsOf t.now n × (i < n) }
    ensures { result ≡ opening t.now i }
{
    octets::number::<2>(t, 2 + 2 * i)
}

// The closing day of slot i.
pub fn closing_day(t: &[u8], n: usize, i: usize) -> usize
    requires { TermsOf t.now n × (i < n) }
    ensures { result ≡ closing n t.now i }
{
    octets::number::<2>(t, 2 + 2 * n + 2 * i)
}

// Whether slot i is on show on a day.
pub fn on_show(t: &[u8], n: usize, i: usize, day: usize) -> bool
    requires { TermsOf t.now n × (i < n) }
    ensures { result ≡ on_show n t.now i day }
{
    opening_day(t, n, i) <= day && day <= closing_day(t, n, i)
}
