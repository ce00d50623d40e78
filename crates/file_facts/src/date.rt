//! Dates as a calendar and a clock show them.

ghost use Rattle.std.specs.Prelude.{◌≡◌, ◌+◌, ◌<◌, ◌≤◌, ◌-◌, IfSome, IfNone, None};
ghost use Rattle.file_facts.specs.Dates.{IsDateOf, IsMoment, apple_seconds, days_of_months, days_to_year, is_leap, is_universal, leap_days, mac_seconds, month_length, seconds_of};

use mac_files::container::Container;
use mac_files::kind::FileKind;
use std::fmt;

/// How many seconds a day has.
const DAY: u64 = 86_400;

/// Seconds from the beginning of 1904 to that of 2000.
const TO_2000: u64 = 3_029_529_600;

/// The seconds of AppleSingle and AppleDouble that say that no date is known: the least with a sign.
const NOT_KNOWN: u32 = 0x8000_0000;

/// A day of the calendar, and a second of the clock.
#[derive(Clone, Copy, Debug, PartialEq, Eq)]
pub struct Moment {
    pub year: u16,
    /// From 1 to 12.
    pub month: u8,
    /// From 1 on.
    pub day: u8,
    pub hour: u8,
    pub minute: u8,
    pub second: u8,
}

impl fmt::Display for Moment {
    /// As ISO 8601 writes it.
    fn fmt<W: fmt::Write>(&self, f: &mut fmt::Formatter<W>) -> fmt::Result {
        let Moment {
            year,
            month,
            day,
            hour,
            minute,
            second,
        } = *self;
        write!(
            f,
            "{year:04}-{month:02}-{day:02}T{hour:02}:{minute:02}:{second:02}"
        )
    }
}

/// A date of a file.
#[derive(Clone, Copy, Debug, PartialEq, Eq)]
pub struct FileDate {
    pub moment: Moment,
    /// Whether it is the time of Greenwich, and not that of the place where the file was.
    pub is_universal: bool,
}

impl fmt::Display for FileDate {
    /// As ISO 8601 writes it: with a Z where it is the time of Greenwich, and else without a zone.
    fn fmt<W: fmt::Write>(&self, f: &mut fmt::Formatter<W>) -> fmt::Result {
        let moment = self.moment;
        let zone = if self.is_universal { "Z" } else { "" };
        write!(f, "{moment}{zone}")
    }
}

/// Whether a year from 1901 to 2099 has 366 days.
fn is_leap(year: u64) -> bool
    ensures { result ≡ is_leap year }
{
    year % 4 == 0
}

/// How many days a month has.
fn month_length(leap: bool, month: u64) -> u64
    ensures { result ≡ month_length leap month }
{
    match month {
        2 if leap => 29,
        2 => 28,
        4 | 6 | 9 | 11 => 30,
        _ => 31,
    }
}

/// The year of a day that is so many after 1 January 1904, and how many days of the year come before it.
fn year_of(days: u64) -> (u64, u64)
    requires { days < 71589 }
    ensures first { 1904 ≤ result.0 }
    ensures last { result.0 < 2100 }
    ensures day { result.1 < 365 + leap_days (is_leap result.0) }
    ensures days { days ≡ days_to_year result.0 + result.1 }
{
    let four_years = days / 1461;
    let rest = days % 1461;
    if rest < 366 {
        return (1904 + 4 * four_years, rest);
    }
    let years = (rest - 1) / 365;
    (1904 + 4 * four_years + years, rest - 1 - 365 * years)
}

/// The month and the day in it, from 1 on, of a day before which so many days of its year come.
fn month_of(leap: bool, days: u64) -> (u64, u64)
    requires { days < 365 + leap_days leap }
    ensures first { 1 ≤ result.0 }
    ensures last { result.0 ≤ 12 }
    ensures day { 1 ≤ result.1 }
    ensures last_day { result.1 ≤ month_length leap result.0 }
    ensures days { days ≡ days_of_months leap (result.0 - 1) + (result.1 - 1) }
{
    let mut rest = days;
    for before in 0u64..11 {
        let length = month_length(leap, before + 1);
        if rest < length {
            return (before + 1, rest + 1);
        }
        rest -= length;
    }
    (12, rest + 1)
}

/// The moment that is so many seconds after the beginning of 1904, and before that of 2100.
pub fn moment_of(seconds: u64) -> Moment
    requires { seconds < 6185289600 }
    ensures { IsMoment seconds result }
{
    let (year, day_of_year) = year_of(seconds / DAY);
    let (month, day) = month_of(is_leap(year), day_of_year);
    let rest = seconds % DAY;
    Moment {
        year: year as u16,
        month: month as u8,
        day: day as u8,
        hour: (rest / 3600) as u8,
        minute: (rest / 60 % 60) as u8,
        second: (rest % 60) as u8,
    }
}

/// A date of AppleSingle or AppleDouble, which counts from the beginning of 2000 with a sign, in seconds from the
/// beginning of 1904. None where it isn't known.
fn apple_seconds(date: u32) -> Option<u64>
    ensures { result ≡ apple_seconds date }
{
    if date == NOT_KNOWN {
        None
    } else if date < NOT_KNOWN {
        Some(date as u64 + TO_2000)
    } else {
        Some(date as u64 - (0x1_0000_0000 - TO_2000))
    }
}

/// A date of MacBinary, which counts seconds from the beginning of 1904. None where there is none.
fn mac_seconds(date: u32) -> Option<u64>
    ensures { result ≡ mac_seconds date }
{
    if date == 0 { None } else { Some(date as u64) }
}

/// The date that a file of this kind says, in seconds from the beginning of 1904, if it says one.
fn seconds_of(kind: FileKind, date: u32) -> Option<u64>
    ensures seconds { result ≡ seconds_of kind date }
    ensures bound { IfSome result (λ seconds. seconds < 6185289600) }
{
    match kind {
        FileKind::Container(Container::AppleSingle | Container::AppleDouble) => apple_seconds(date),
        FileKind::Container(Container::MacBinary(_)) => mac_seconds(date),
        FileKind::Container(Container::Raw)
        | FileKind::BinHex
        | FileKind::Archive(_)
        | FileKind::Unknown => None,
    }
}

/// Whether the dates of such a file are of Greenwich, and not of the place where it was.
fn is_universal(kind: FileKind) -> bool
    ensures { result ≡ is_universal kind }
{
    matches!(
        kind,
        FileKind::Container(Container::AppleSingle | Container::AppleDouble)
    )
}

/// The date that a file of this kind says by this number. None where it says that there is none: zero in MacBinary, and
/// the least number in AppleSingle and AppleDouble.
pub fn date_of(kind: FileKind, date: u32) -> Option<FileDate>
    ensures date { IfSome result (λ shown. IsDateOf kind date shown) }
    ensures none { IfNone result (seconds_of kind date ≡ None) }
{
    let seconds = seconds_of(kind, date)?;
    Some(FileDate {
        moment: moment_of(seconds),
        is_universal: is_universal(kind),
    })
}
