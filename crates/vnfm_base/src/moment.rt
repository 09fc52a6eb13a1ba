//! Moments: what the clock gives, in milliseconds.
ghost use Rattle.std.specs.Prelude.{◌≡◌, ◌<◌, ◌≤◌, min, pos};
ghost use Rattle.jiff_core.specs.Date.{epoch_day};
ghost use Rattle.jiff_fmt.specs.Text.{pad2};
ghost use Rattle.vnfm_base.specs.Moment.{IsMoment, IsMomentText, date_text, time_text};

use jiff_core::civil::Date;
use std::marker::Model;

/// The last moment, 9999-12-31T23:59:59.999Z, in milliseconds since 1970-01-01T00:00:00Z.
pub const MAX_MOMENT: u64 = 253_402_300_799_999;

/// Milliseconds since 1970-01-01T00:00:00Z, at most `MAX_MOMENT`.
///
/// A contract sees it as that number.
///
/// Source: RFC 3339, whose years have four digits.
#[derive(Clone, Copy, PartialEq, Eq, PartialOrd, Ord)]
pub struct Moment {
    milliseconds: u64,
}

impl Model for Moment {
    ghost use Rattle.std.specs.Prelude.{ℕ};
    ghost use Rattle.vnfm_base.specs.Moment.{IsMoment};

    ghost Value = { ℕ };

    ghost view = { λ m. m.milliseconds };

    ghost invariant = { λ m. IsMoment m.milliseconds };

    ghost inverse = { λ n. record { milliseconds = n } };
}

impl Moment {
    /// The moment of so many milliseconds; a greater value is taken as `MAX_MOMENT`.
    pub fn of(milliseconds: u64) -> Moment
        ensures { result ≡ min milliseconds 253402300799999 }
    {
        Moment {
            milliseconds: milliseconds.min(MAX_MOMENT),
        }
    }

    /// Its milliseconds since 1970-01-01T00:00:00Z.
    pub fn milliseconds(self) -> u64
        ensures value { result ≡ self }
        ensures moment { IsMoment self }
    {
        self.milliseconds
    }
}

/// Milliseconds of a day.
const DAY: u64 = 86_400_000;

/// The 24 bytes of the moment's text in UTC, as `2023-11-14T22:13:20.000Z`.
///
/// Source: RFC 3339.
pub fn moment_text(moment: Moment) -> [u8; 24]
    ensures { IsMomentText moment result }
{
    let milliseconds = moment.milliseconds();
    let d = date_bytes(date_of((milliseconds / DAY) as u32));
    let t = time_bytes((milliseconds % DAY) as u32);
    [
        d[0], d[1], d[2], d[3], d[4], d[5], d[6], d[7], d[8], d[9], t[0], t[1], t[2], t[3], t[4],
        t[5], t[6], t[7], t[8], t[9], t[10], t[11], t[12], t[13],
    ]
}

/// The date that many days after 1970-01-01.
fn date_of(days: u32) -> Date
    requires { days ≤ 2_932_896 }
    ensures { epoch_day result ≡ pos days }
{
    Date::from_days_since_min(days + 4_371_587)
}

fn date_bytes(date: Date) -> [u8; 10]
    ensures { result ≡ date_text date }
{
    let year = date.year.unsigned_abs() as u32;
    let (century, rest) = (two_digits(year / 100), two_digits(year % 100));
    let (month, day) = (two_digits(date.month as u32), two_digits(date.day as u32));
    [
        century[0], century[1], rest[0], rest[1], b'-', month[0], month[1], b'-', day[0], day[1],
    ]
}

fn time_bytes(milliseconds: u32) -> [u8; 14]
    requires { milliseconds < 86_400_000 }
    ensures { result ≡ time_text milliseconds }
{
    let hour = two_digits(milliseconds / 3_600_000);
    let minute = two_digits(milliseconds / 60_000 % 60);
    let second = two_digits(milliseconds / 1_000 % 60);
    let hundreds = b'0' + (milliseconds % 1_000 / 100) as u8;
    let rest = two_digits(milliseconds % 100);
    [
        b'T', hour[0], hour[1], b':', minute[0], minute[1], b':', second[0], second[1], b'.',
        hundreds, rest[0], rest[1], b'Z',
    ]
}

fn two_digits(number: u32) -> [u8; 2]
    requires { number < 100 }
    ensures { result ≡ pad2 number }
{
    [b'0' + (number / 10) as u8, b'0' + (number % 10) as u8]
}
