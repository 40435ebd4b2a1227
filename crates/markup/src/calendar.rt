ghost use Rattle.std.specs.Prelude.{◌≡◌, ◌<◌, ◌≤◌, ◌^◌};
ghost use Rattle.markup.specs.Calendar.{date_in, date_of, era_year, month_day, month_of, year_day, year_month};
ghost use Rattle.markup.specs.Calendar.{years_more};

/// A date of the Gregorian calendar.
#[derive(Clone, Copy, PartialEq, Eq)]
pub struct Date {
    pub year: u128,
    /// From 1.
    pub month: u32,
    /// From 1.
    pub day: u32,
}

/// The date that is so many days after 1970-01-01.
pub fn date_of(days: u128) -> Date
    requires { days < 2 ^ 100 }
    ensures { result ≡ date_of days }
{
    let march = days + 719_468;
    date_in(march / 146_097, (march % 146_097) as u32)
}

// The date of a day of an era of 400 years.
fn date_in(era: u128, day: u32) -> Date
    requires era { era < 2 ^ 100 }
    requires day { day < 146097 }
    ensures { result ≡ date_in era day }
{
    let month = year_month(day);
    Date {
        year: 400 * era + u128::from(era_year(day)) + years_more(month),
        month: month_of(month),
        day: month_day(day) + 1,
    }
}

fn era_year(day: u32) -> u32
    requires { day < 146097 }
    ensures value { result ≡ era_year day }
    ensures below { result < 401 }
{
    (day - day / 1_460 + day / 36_524 - day / 146_096) / 365
}

fn year_day(day: u32) -> u32
    requires { day < 146097 }
    ensures value { result ≡ year_day day }
    ensures below { result < 146097 }
{
    let year = era_year(day);
    day.saturating_sub(365 * year + year / 4 - year / 100)
}

fn year_month(day: u32) -> u32
    requires { day < 146097 }
    ensures value { result ≡ year_month day }
    ensures below { result < 5000 }
{
    (5 * year_day(day) + 2) / 153
}

fn month_day(day: u32) -> u32
    requires { day < 146097 }
    ensures value { result ≡ month_day day }
    ensures below { result < 146097 }
{
    year_day(day).saturating_sub((153 * year_month(day) + 2) / 5)
}

fn month_of(month: u32) -> u32
    requires { month < 5000 }
    ensures { result ≡ month_of month }
{
    if month < 10 { month + 3 } else { month - 9 }
}

fn years_more(month: u32) -> u128
    ensures value { result ≡ years_more month }
    ensures below { result ≤ 1 }
{
    if month < 10 { 0 } else { 1 }
}
