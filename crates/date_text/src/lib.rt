// The date rule of document 01 with its time and zone (specs/DateRule.antt), and the functions that scan a text
// for it, one for each part of the rule. `read_date` gives a whole text the value with which the rule derives
// it, or refuses it. Nothing here knows a calendar: the fields are those that are written.
#![tactic(auto)]

ghost use Rattle.std.specs.Prelude.{◌≡◌, ◌-◌, ◌*◌, ◌^◌, ◌≤◌, ◌<◌, true, drop};
ghost use Rattle.grammar.specs.Grammar.{every, ◌or◌, ◌▸◌};
ghost use Rattle.grammar.specs.Reader.{scan, read, given, paired};
ghost use Rattle.grammar.specs.Rules.{span, number};
ghost use Rattle.grammar.specs.Answers.{number_in};
ghost use Rattle.date_text.specs.DateRule.{fraction, fraction_part, second_part, minute_part, zone_minutes, utc_name, zone_name, zone_offset, zone, zone_part, time_part, day_part, month_part, date_parts, date_rule};
ghost use Rattle.date_text.specs.Answers.{zone_in, second_in, minute_in, time_in, day_in, month_in, written_in, written_answer};

use grammar::{decimal_of, letter_at, next_in, number_at, run_end, starts_in, two_digits, word_at};

// A zone: how far local time is ahead of UTC, or behind it.
#[derive(Clone, Copy)]
pub struct Zone {
    pub behind: bool,
    pub hours: u32,
    pub minutes: u32,
}

// A local time of day and its zone.
#[derive(Clone, Copy)]
pub struct Time {
    pub hour: u32,
    pub minute: u32,
    pub second: u32,
    pub microsecond: u32,
    pub zone: Zone,
}

// A date as it is written: local, and none of its fields tested.
#[derive(Clone, Copy)]
pub struct WrittenDate {
    pub negative: bool,
    pub year: u32,
    pub month: u32,
    pub day: u32,
    pub time: Time,
}

const UTC: Zone = Zone {
    behind: false,
    hours: 0,
    minutes: 0,
};

const MIDNIGHT: Time = Time {
    hour: 0,
    minute: 0,
    second: 0,
    microsecond: 0,
    zone: UTC,
};

// v of n decimal places, in millionths.
fn millionths(v: u32, n: usize) -> u32
    requires { (1 ≤ n) × (n ≤ 6) × (v < 10 ^ n) }
    ensures { result ≡ v * 10 ^ (6 - n) }
{
    match n {
        1 => v * 100000,
        2 => v * 10000,
        3 => v * 1000,
        4 => v * 100,
        5 => v * 10,
        _ => v,
    }
}

// Each function from here to `date_at` finds at a place of a text a value with the place after it, or nothing.

fn fraction_at(s: &[u8], at: usize) -> Option<(u32, usize)>
    ensures { scan fraction (drop at s.now) ≡ number_in s.now result }
{
    let e = run_end(s, at, b'0', b'9');
    if e <= at {
        return None;
    }
    let d = &s[at..e];
    let n = d.len();
    if 6 < n {
        return None;
    }
    Some((millionths(decimal_of(d), n), e))
}

fn fraction_part(s: &[u8], at: usize) -> Option<(u32, usize)>
    ensures { scan fraction_part (drop at s.now) ≡ number_in s.now result }
{
    if starts_in(s, at, b".") {
        return fraction_at(s, at + 1);
    }
    Some((0, at))
}

fn second_part(s: &[u8], at: usize) -> Option<((u32, u32), usize)>
    ensures { scan second_part (drop at s.now) ≡ second_in s.now result }
{
    if starts_in(s, at, b":") {
        let (second, b) = number_at(s, at + 1, 2)?;
        let (microsecond, e) = fraction_part(s, b)?;
        return Some(((second, microsecond), e));
    }
    Some(((0, 0), at))
}

fn minute_part(s: &[u8], at: usize) -> Option<((u32, (u32, u32)), usize)>
    ensures { scan minute_part (drop at s.now) ≡ minute_in s.now result }
{
    if starts_in(s, at, b":") {
        let (minute, b) = number_at(s, at + 1, 2)?;
        let (second, e) = second_part(s, b)?;
        return Some(((minute, second), e));
    }
    Some(((0, (0, 0)), at))
}

fn zone_minutes(s: &[u8], at: usize) -> Option<(u32, usize)>
    ensures { scan zone_minutes (drop at s.now) ≡ number_in s.now result }
{
    if starts_in(s, at, b":") {
        return two_digits(s, at + 1);
    }
    if next_in(s, at, b'0', b'9') {
        return two_digits(s, at);
    }
    Some((0, at))
}

fn zone_offset(s: &[u8], at: usize) -> Option<(Zone, usize)>
    ensures { scan zone_offset (drop at s.now) ≡ zone_in s.now result }
{
    if starts_in(s, at, b"+-") {
        let behind = s[at] == b'-';
        let (hours, b) = two_digits(s, at + 1)?;
        let (minutes, e) = zone_minutes(s, b)?;
        let zone = Zone {
            behind,
            hours,
            minutes,
        };
        return Some((zone, e));
    }
    None
}

// One name of UTC, given in capitals.
fn utc_name(s: &[u8], at: usize, w: &[u8]) -> Option<(Zone, usize)>
    requires { every (span 65 90) w.now ≡ true }
    ensures { scan (utc_name w.now) (drop at s.now) ≡ zone_in s.now result }
{
    let e = word_at(s, at, w)?;
    Some((UTC, e))
}

fn zone_name(s: &[u8], at: usize) -> Option<(Zone, usize)>
    ensures { scan zone_name (drop at s.now) ≡ zone_in s.now result }
{
    if letter_at(s, at, b'Z') {
        return utc_name(s, at, b"Z");
    }
    if letter_at(s, at, b'U') {
        return utc_name(s, at, b"UTC");
    }
    utc_name(s, at, b"GMT")
}

fn zone_body(s: &[u8], at: usize) -> Option<(Zone, usize)>
    ensures { scan (zone_offset or zone_name) (drop at s.now) ≡ zone_in s.now result }
{
    if starts_in(s, at, b"+-") {
        return zone_offset(s, at);
    }
    zone_name(s, at)
}

fn zone_at(s: &[u8], at: usize) -> Option<(Zone, usize)>
    ensures { scan zone (drop at s.now) ≡ zone_in s.now result }
{
    if starts_in(s, at, b" ") {
        return zone_body(s, at + 1);
    }
    zone_body(s, at)
}

fn zone_part(s: &[u8], at: usize) -> Option<(Zone, usize)>
    ensures { scan zone_part (drop at s.now) ≡ zone_in s.now result }
{
    if starts_in(s, at, b" +-ZzUuGg") {
        return zone_at(s, at);
    }
    Some((UTC, at))
}

fn time_part(s: &[u8], at: usize) -> Option<(Time, usize)>
    ensures { scan time_part (drop at s.now) ≡ time_in s.now result }
{
    if starts_in(s, at, b"T ") {
        let (hour, b) = number_at(s, at + 1, 2)?;
        let ((minute, (second, microsecond)), e) = minute_part(s, b)?;
        let (zone, next) = zone_part(s, e)?;
        let time = Time {
            hour,
            minute,
            second,
            microsecond,
            zone,
        };
        return Some((time, next));
    }
    Some((MIDNIGHT, at))
}

fn day_part(s: &[u8], at: usize) -> Option<((u32, Time), usize)>
    ensures { scan day_part (drop at s.now) ≡ day_in s.now result }
{
    if starts_in(s, at, b"-") {
        let (day, b) = number_at(s, at + 1, 2)?;
        let (time, e) = time_part(s, b)?;
        return Some(((day, time), e));
    }
    Some(((1, MIDNIGHT), at))
}

fn month_part(s: &[u8], at: usize) -> Option<((u32, (u32, Time)), usize)>
    ensures { scan month_part (drop at s.now) ≡ month_in s.now result }
{
    if starts_in(s, at, b"-") {
        let (month, b) = number_at(s, at + 1, 2)?;
        let (day, e) = day_part(s, b)?;
        return Some(((month, day), e));
    }
    Some(((1, (1, MIDNIGHT)), at))
}

// A date after its sign.
fn year_at(s: &[u8], at: usize, negative: bool) -> Option<(WrittenDate, usize)>
    ensures { given date_parts (paired negative (scan (number 4 ▸ month_part) (drop at s.now))) ≡ written_in s.now result }
{
    let (year, b) = number_at(s, at, 4)?;
    let ((month, (day, time)), e) = month_part(s, b)?;
    let date = WrittenDate {
        negative,
        year,
        month,
        day,
        time,
    };
    Some((date, e))
}

// A date at a place of a text.
pub fn date_at(s: &[u8], at: usize) -> Option<(WrittenDate, usize)>
    ensures { scan date_rule (drop at s.now) ≡ written_in s.now result }
{
    if starts_in(s, at, b"+-") {
        let negative = s[at] == b'-';
        return year_at(s, at + 1, negative);
    }
    year_at(s, at, false)
}

// A whole text that is a date.
pub fn read_date(s: &[u8]) -> Option<WrittenDate>
    ensures { result ≡ written_answer (read date_rule s.now) }
{
    let (w, e) = date_at(s, 0)?;
    if e < s.len() {
        return None;
    }
    Some(w)
}
