// The units text of document 01: period words, `calendar`, `since` and a date (specs/UnitsRule.antt), and the
// functions that scan a text for it. `read_units` gives a whole text the value with which the rule derives it,
// or refuses it. The reference is the date as it is written: no calendar is known here.
#![tactic(auto)]

ghost use Rattle.std.specs.Prelude.{◌≡◌, true, ◌≤◌, length, drop};
ghost use Rattle.grammar.specs.Grammar.{every};
ghost use Rattle.grammar.specs.Reader.{scan, read};
ghost use Rattle.grammar.specs.Rules.{span};
ghost use Rattle.grammar.specs.Answers.{end_in};
ghost use Rattle.date_text.specs.Answers.{written_in};
ghost use Rattle.word_table.specs.Table.{lookup};
ghost use Rattle.units_text.specs.UnitsRule.{period_words, period_word, spaces, mode, since, units};
ghost use Rattle.units_text.specs.Answers.{meaning_of, period_in, mode_in, units_answer};

use axis_types::{Mode, Period};
use date_text::{WrittenDate, date_at};
use grammar::{letter_at, run_end, same_bytes, starts_in, word_at};
use word_table::packed_of;

// What a units text says.
#[derive(Clone, Copy)]
pub struct Units {
    pub mode: Mode,
    pub period: Period,
    pub reference: WrittenDate,
}

// What a word means in the table of period words. A word of at most eight letters is looked up as one number,
// two hexadecimal digits a letter; only one word is longer. The numbers stay, since docs/PROMISES.md promises them.
fn period_of(d: &[u8]) -> Option<Period>
    requires in_bounds { 1 ≤ length d.now }
    requires d_value { every (span 97 122) d.now ≡ true }
    ensures { lookup period_words d.now ≡ meaning_of result }
{
    if 8 < d.len() {
        if same_bytes(d, b"millisecs") {
            return Some(Period::Millisecond);
        }
        return None;
    }
    match packed_of(d) {
        // millisec, msec, msecs
        0x6d696c6c69736563 | 0x6d736563 | 0x6d73656373 => Some(Period::Millisecond),
        // second, seconds, sec, secs, s
        0x7365636f6e64 | 0x7365636f6e6473 | 0x736563 | 0x73656373 | 0x73 => Some(Period::Second),
        // minute, minutes, min, mins
        0x6d696e757465 | 0x6d696e75746573 | 0x6d696e | 0x6d696e73 => Some(Period::Minute),
        // hour, hours, hr, hrs
        0x686f7572 | 0x686f757273 | 0x6872 | 0x687273 => Some(Period::Hour),
        // day, days
        0x646179 | 0x64617973 => Some(Period::Day),
        // week, weeks
        0x7765656b | 0x7765656b73 => Some(Period::Week),
        // month, months, mon, mons
        0x6d6f6e7468 | 0x6d6f6e746873 | 0x6d6f6e | 0x6d6f6e73 => Some(Period::Month),
        // year, years, yr, yrs
        0x79656172 | 0x7965617273 | 0x7972 | 0x797273 => Some(Period::Year),
        _ => None,
    }
}

fn period_at(s: &[u8], at: usize) -> Option<(Period, usize)>
    ensures { scan period_word (drop at s.now) ≡ period_in s.now result }
{
    let e = run_end(s, at, b'a', b'z');
    if e <= at {
        return None;
    }
    let d = &s[at..e];
    if starts_in(d, 0, b"dhmswy") {
        let p = period_of(d)?;
        return Some((p, e));
    }
    None
}

fn spaces_at(s: &[u8], at: usize) -> Option<usize>
    ensures { scan spaces (drop at s.now) ≡ end_in s.now result }
{
    let e = run_end(s, at, b' ', b' ');
    if e <= at {
        return None;
    }
    Some(e)
}

fn mode_at(s: &[u8], at: usize) -> Option<(Mode, usize)>
    ensures { scan mode (drop at s.now) ≡ mode_in s.now result }
{
    if letter_at(s, at, b'C') {
        let b = word_at(s, at, b"CALENDAR")?;
        let e = spaces_at(s, b)?;
        return Some((Mode::Calendar, e));
    }
    Some((Mode::Fixed, at))
}

fn since_at(s: &[u8], at: usize) -> Option<(WrittenDate, usize)>
    ensures { scan since (drop at s.now) ≡ written_in s.now result }
{
    let a = spaces_at(s, at)?;
    let b = word_at(s, a, b"SINCE")?;
    let e = spaces_at(s, b)?;
    date_at(s, e)
}

// A whole text that is a units text.
pub fn read_units(s: &[u8]) -> Option<Units>
    ensures { result ≡ units_answer (read units s.now) }
{
    let (mode, a) = mode_at(s, 0)?;
    let (period, b) = period_at(s, a)?;
    let (reference, e) = since_at(s, b)?;
    if e < s.len() {
        return None;
    }
    Some(Units {
        mode,
        period,
        reference,
    })
}
