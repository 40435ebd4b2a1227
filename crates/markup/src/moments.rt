ghost use Rattle.std.specs.Prelude.{◌≡◌, ◌<◌, ◌++◌, ◌^◌, OnOk, string_bytes};
ghost use Rattle.markup.specs.Moments.{clock_text, date_text, fraction_text, instant_text, moment_at, moment_text};
ghost use Rattle.markup.specs.Moments.{three_digits, two_digits};

use crate::calendar::{Date, date_of};
use base_types::{Moment, OutOfMemory};

/// The moment so many nanoseconds after 1970 begins.
pub fn moment_at(nanos: u64) -> Moment
    ensures { result ≡ moment_at nanos }
{
    Moment(nanos as i128)
}

/// Appends a moment in UTC as RFC 3339 writes it, to the nanosecond; one before 1970 by how far before.
pub fn push_moment(text: &mut String, at: Moment) -> Result<(), OutOfMemory>
    ensures { OnOk result (string_bytes text.new ≡ string_bytes text.old ++ moment_text at) }
{
    let nanos = at.0.unsigned_abs();
    if at.0 < 0 {
        write!(text, "{nanos} ns before 1970")?;
    } else {
        push_instant(text, nanos)?;
    }
    Ok(())
}

// So many nanoseconds after 1970 begins.
fn push_instant(text: &mut String, nanos: u128) -> Result<(), OutOfMemory>
    ensures { OnOk result (string_bytes text.new ≡ string_bytes text.old ++ instant_text nanos) }
{
    push_date(text, &date_of(nanos / 86_400_000_000_000))?;
    text.push_str("T")?;
    push_clock(text, (nanos / 1_000_000_000 % 86_400) as u32)?;
    text.push_str(".")?;
    push_fraction(text, (nanos % 1_000_000_000) as u32)?;
    text.push_str("Z")?;
    Ok(())
}

fn push_date(text: &mut String, date: &Date) -> Result<(), OutOfMemory>
    ensures { OnOk result (string_bytes text.new ≡ string_bytes text.old ++ date_text date.now) }
{
    let year = date.year;
    write!(text, "{year}-")?;
    push_two(text, date.month)?;
    text.push_str("-")?;
    push_two(text, date.day)?;
    Ok(())
}

fn push_clock(text: &mut String, second: u32) -> Result<(), OutOfMemory>
    ensures { OnOk result (string_bytes text.new ≡ string_bytes text.old ++ clock_text second) }
{
    push_two(text, second / 3_600)?;
    text.push_str(":")?;
    push_two(text, second / 60 % 60)?;
    text.push_str(":")?;
    push_two(text, second % 60)?;
    Ok(())
}

fn push_fraction(text: &mut String, nano: u32) -> Result<(), OutOfMemory>
    ensures { OnOk result (string_bytes text.new ≡ string_bytes text.old ++ fraction_text nano) }
{
    push_three(text, nano / 1_000_000)?;
    push_three(text, nano / 1_000 % 1_000)?;
    push_three(text, nano % 1_000)?;
    Ok(())
}

fn push_two(text: &mut String, number: u32) -> Result<(), OutOfMemory>
    ensures { OnOk result (string_bytes text.new ≡ string_bytes text.old ++ two_digits number) }
{
    write!(text, "{}{}", number / 10, number % 10)?;
    Ok(())
}

fn push_three(text: &mut String, number: u32) -> Result<(), OutOfMemory>
    ensures { OnOk result (string_bytes text.new ≡ string_bytes text.old ++ three_digits number) }
{
    write!(text, "{}{}{}", number / 100, number / 10 % 10, number % 10)?;
    Ok(())
}
