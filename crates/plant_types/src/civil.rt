//! The calendar and the clock behind the texts of moments.

ghost use Rattle.std.specs.{List.{list_all}, Prelude.{◌≡◌, ◌≤◌, ◌<◌, ◌+◌, ◌*◌, true, IfSome, length, zip}};
ghost use Rattle.plant_types.specs.{Moment.{fits_at, decimal_value, is_date, is_time, days_since_2000}, Numbers.{number_if}, Spelling.{spelled}};
ghost use Rattle.plant_types.specs.Spelling as spelling;
ghost use Rattle.plant_types.specs.Moment as moment;

use jiff::civil::Date;

pub fn has_form(text: &[u8]) -> bool
    ensures { result ≡ moment.has_form text.now }
{
    text.len() == 20 && fits(b"0000-00-00T00:00:00Z", text)
}

fn fits(form: &[u8], text: &[u8]) -> bool
    ensures { result ≡ list_all (λ e. fits_at e.0 e.1) (zip form.now text.now) }
{
    form.iter()
        .zip(text.iter())
        .all(|(mark, byte)| fits_mark(*mark, *byte))
}

fn fits_mark(mark: u8, byte: u8) -> bool
    ensures { result ≡ fits_at mark byte }
{
    if mark == b'0' {
        byte.is_ascii_digit()
    } else {
        byte == mark
    }
}

// The value of up to four decimal digits.
pub fn number(digits: &[u8]) -> u64
    requires few { length digits.now ≤ 4 }
    ensures value { result ≡ decimal_value digits.now }
    ensures bound { result < 1000000 }
{
    let mut value = 0;
    for digit in digits {
        value = 10 * value + u64::from(digit.saturating_sub(48));
    }
    value
}

// The days from 2000-01-01 to a date of the years 2000 to 2099. `None` if the calendar has no such date.
pub fn days_of(year: u64, month: u64, day: u64) -> Option<u64>
    requires year { year < 1000000 }
    requires month { month < 1000000 }
    requires day { day < 1000000 }
    ensures value { result ≡ number_if (is_date year month day) (days_since_2000 year month day) }
    ensures bound { IfSome result (λ n. n < 36525) }
{
    if year < 2000 || year > 2099 || month > 12 || day > 31 {
        return None;
    }
    let Ok(date) = Date::new(year as i16, month as i8, day as i8) else {
        return None;
    };
    let first = jiff::civil::date(2000, 1, 1).to_plain();
    Some(first.until(date.to_plain()) as u64)
}

// The seconds since midnight. `None` if a clock shows no such time.
pub fn time_of(hour: u64, minute: u64, second: u64) -> Option<u64>
    requires hour { hour < 1000000 }
    requires minute { minute < 1000000 }
    requires second { second < 1000000 }
    ensures value { result
        ≡ number_if (is_time hour minute second) (3600 * hour + 60 * minute + second) }
    ensures bound { IfSome result (λ n. n < 86400) }
{
    if hour < 24 && minute < 60 && second < 60 {
        Some(3600 * hour + 60 * minute + second)
    } else {
        None
    }
}

// Year, month and day of the date that many days after 2000-01-01.
pub fn day_after(days: u64) -> (u64, u64, u64)
    requires { days < 36525 }
    ensures date { is_date result.0 result.1 result.2 ≡ true }
    ensures days { days_since_2000 result.0 result.1 result.2 ≡ days }
{
    let first = jiff::civil::date(2000, 1, 1).to_plain();
    let Ok(date) = first.checked_add(days as i64) else {
        unreachable!()
    };
    (date.year as u64, u64::from(date.month), u64::from(date.day))
}

fn digit(n: u64) -> u8
    requires { n < 10 }
    ensures { result ≡ spelling.digit n }
{
    b'0' + n as u8
}

pub fn spell(year: u64, month: u64, day: u64, hour: u64, minute: u64, second: u64) -> [u8; 20]
    requires year { year < 10000 }
    requires month { month < 100 }
    requires day { day < 100 }
    requires hour { hour < 100 }
    requires minute { minute < 100 }
    requires second { second < 100 }
    ensures { result ≡ spelled year month day hour minute second }
{
    [
        digit(year / 100 / 10),
        digit(year / 100 % 10),
        digit(year % 100 / 10),
        digit(year % 100 % 10),
        b'-',
        digit(month / 10),
        digit(month % 10),
        b'-',
        digit(day / 10),
        digit(day % 10),
        b'T',
        digit(hour / 10),
        digit(hour % 10),
        b':',
        digit(minute / 10),
        digit(minute % 10),
        b':',
        digit(second / 10),
        digit(second % 10),
        b'Z',
    ]
}
