// Runs the cases by hand of document 01, and some about the years of `julian` before year 1, about dates that are refused, about days that
// are moved back and about cutovers, over the library's calls. A line for each case: the calendar, with its cutover where that is not of 1582, the
// units text, the offset that is read or the date that is written, and the answer. The stored output is written by hand from the documents. The cases of the first two groups are proved over the definitions too
// (specs/Cases.antt).
#![tactic(auto)]

use axis_types::{Axis, Offset, OffsetReading};
use calendar::{Calendar, Date};
use refusal::Refusal;
use std::io;

// ---- parts of a line

fn print_part(to: &impl Print, text: &[u8]) -> io::Result<()> {
    to.write_all(text)?;
    to.write_all(b" | ")
}

fn print_refusal(to: &impl Print, r: Refusal) -> io::Result<()> {
    println!(to; "refused {}", refusal::number(r))
}

fn print_mark(to: &impl Print, exact: bool) -> io::Result<()> {
    if exact {
        return Ok(());
    }
    to.write_all(b" rounded")
}

fn print_days_back(to: &impl Print, days: u32) -> io::Result<()> {
    if days == 0 {
        return Ok(());
    }
    print!(to; ", days back: {days}")
}

fn print_instant(to: &impl Print, c: Calendar, reading: OffsetReading) -> io::Result<()> {
    let mut room = [0u8; 28];
    match iso_text::write_iso(c, reading.instant, &mut room) {
        Err(r) => print_refusal(to, r),
        Ok(n) => {
            if n <= room.len() {
                to.write_all(&room[..n])?;
            }
            print_mark(to, reading.exact)?;
            print_days_back(to, reading.days_back)?;
            to.write_all(b"\n")
        }
    }
}

// ---- an offset that is read

fn print_reading(to: &impl Print, axis: Axis, offset: Offset) -> io::Result<()> {
    let c = axis.calendar;
    match axis::read(axis, offset) {
        Err(r) => print_refusal(to, r),
        Ok(reading) => print_instant(to, c, reading),
    }
}

fn print_read(
    to: &impl Print,
    name: &[u8],
    x: Date,
    units: &[u8],
    offset: Offset,
) -> io::Result<()> {
    match axis_text::read_units(name, x, units) {
        Err(r) => print_refusal(to, r),
        Ok(axis) => print_reading(to, axis, offset),
    }
}

fn read_whole_with(to: &impl Print, name: &[u8], x: Date, units: &[u8], n: i64) -> io::Result<()> {
    print_part(to, units)?;
    print!(to; "{n} | ")?;
    print_read(to, name, x, units, Offset::Whole(n))
}

fn read_whole(to: &impl Print, name: &[u8], units: &[u8], n: i64) -> io::Result<()> {
    print_part(to, name)?;
    read_whole_with(to, name, cutover::first_cutover(), units, n)
}

// The double that is the quotient of two numbers.
fn read_double(to: &impl Print, name: &[u8], units: &[u8], a: u32, b: u32) -> io::Result<()> {
    print_part(to, name)?;
    print_part(to, units)?;
    print!(to; "{a}/{b} | ")?;
    print_read(
        to,
        name,
        cutover::first_cutover(),
        units,
        Offset::Double(a as f64 / b as f64),
    )
}

// ---- a date that is written

fn print_written(to: &impl Print, axis: Axis, t: i64) -> io::Result<()> {
    match axis::write_instant(axis, t) {
        Err(r) => print_refusal(to, r),
        Ok(n) => println!(to; "{n}"),
    }
}

fn print_written_date(
    to: &impl Print,
    axis: Axis,
    name: &[u8],
    x: Date,
    date: &[u8],
) -> io::Result<()> {
    match iso_text::read_iso(name, x, date) {
        Err(r) => print_refusal(to, r),
        Ok(t) => print_written(to, axis, t),
    }
}

fn write_date_with(
    to: &impl Print,
    name: &[u8],
    x: Date,
    units: &[u8],
    date: &[u8],
) -> io::Result<()> {
    print_part(to, units)?;
    print_part(to, date)?;
    match axis_text::read_units(name, x, units) {
        Err(r) => print_refusal(to, r),
        Ok(axis) => print_written_date(to, axis, name, x, date),
    }
}

fn write_date(to: &impl Print, name: &[u8], units: &[u8], date: &[u8]) -> io::Result<()> {
    print_part(to, name)?;
    write_date_with(to, name, cutover::first_cutover(), units, date)
}

// ---- the cases

fn calendars(to: &impl Print) -> io::Result<()> {
    read_whole(to, b"standard", b"days since 1582-10-04", 1)?;
    read_whole(to, b"proleptic_gregorian", b"days since 1582-10-04", 1)?;
    read_whole(to, b"standard", b"days since -1-12-31", 1)?;
    read_whole(to, b"julian", b"days since 1900-02-28", 1)?;
    read_whole(to, b"360_day", b"days since 2023-02-30", 1)?;
    read_whole(to, b"noleap", b"days since 2000-02-28", 1)
}

fn periods(to: &impl Print) -> io::Result<()> {
    read_whole(to, b"standard", b"months since 1930-01-01", 1)?;
    read_whole(to, b"standard", b"years since 1850-01-01", 10)?;
    read_whole(to, b"standard", b"calendar months since 1930-01-31", 1)?;
    read_whole(to, b"standard", b"calendar months since 1582-09-10", 1)?;
    read_whole(to, b"standard", b"hours since 1930-01-01 00:30 +01:00", 1)?;
    read_double(to, b"standard", b"seconds since 1970-01-01", 3, 128)
}

fn last_days(to: &impl Print) -> io::Result<()> {
    read_whole(to, b"standard", b"days since 1970-01-01", 2932896)?;
    read_whole(to, b"standard", b"days since 1970-01-01", 2932897)?;
    read_whole(to, b"360_day", b"days since 1970-01-01", 2890799)?;
    read_whole(to, b"360_day", b"days since 1970-01-01", 2890800)
}

fn written_dates(to: &impl Print) -> io::Result<()> {
    write_date(
        to,
        b"standard",
        b"calendar months since 1930-01-31",
        b"1930-02-28",
    )?;
    write_date(
        to,
        b"standard",
        b"calendar months since 1930-01-31",
        b"1930-02-27",
    )
}

fn refused_texts(to: &impl Print) -> io::Result<()> {
    read_whole(to, b"standard", b"days since 1582-10-05", 0)?;
    read_whole(to, b"standard", b"ss since 1970", 0)?;
    read_whole(to, b"standard", b"days since 1970-01-01Z", 0)
}

// ---- the years of `julian` before year 1: -1, -5, -9 are leap, and year 1 comes after -1 (document 02, CR 2)

fn leap_years_of_julian(to: &impl Print) -> io::Result<()> {
    read_whole(to, b"julian", b"days since -1-02-28", 1)?;
    read_whole(to, b"julian", b"days since -4-02-28", 1)?;
    read_whole(to, b"julian", b"days since -5-02-28", 1)?;
    read_whole(to, b"julian", b"days since -9-02-28", 1)
}

fn steps_in_julian(to: &impl Print) -> io::Result<()> {
    read_whole(to, b"julian", b"days since -1-12-31", 1)?;
    read_whole(to, b"julian", b"calendar years since -5-02-29", 4)?;
    read_whole(to, b"julian", b"calendar years since -5-02-29", 5)?;
    read_whole(to, b"julian", b"calendar months since -1-12-31", 2)
}

fn dates_in_julian(to: &impl Print) -> io::Result<()> {
    write_date(to, b"julian", b"days since 1-01-01", b"-1-12-31")?;
    write_date(to, b"julian", b"calendar years since 1-06-15", b"-2-06-15")?;
    write_date(to, b"julian", b"days since 1970-01-01", b"-9999-01-01")?;
    write_date(to, b"julian", b"days since 1970-01-01", b"0000-01-01")?;
    read_whole(to, b"julian", b"days since 0000-01-01", 0)
}

// ---- a mistyped date told from a missing one (document 02, CR 5): 4 before 12 and 13, whichever field it is

fn impossible_fields(to: &impl Print) -> io::Result<()> {
    read_whole(to, b"standard", b"days since 1900-13-01", 0)?;
    read_whole(to, b"360_day", b"days since 1900-02-32", 0)?;
    read_whole(to, b"standard", b"days since 0000-00-01", 0)?;
    read_whole(to, b"standard", b"days since 1900-02-30T24:00", 0)?;
    read_whole(to, b"standard", b"days since 1582-10-10 00:00 +24:00", 0)
}

fn missing_dates(to: &impl Print) -> io::Result<()> {
    read_whole(to, b"standard", b"days since 0000-12-31", 0)?;
    read_whole(to, b"standard", b"days since 1900-02-29", 0)?;
    read_whole(to, b"360_day", b"days since 1900-01-31", 0)?;
    read_whole(to, b"all_leap", b"days since 1900-04-31", 0)
}

fn dropped_dates(to: &impl Print) -> io::Result<()> {
    write_date(to, b"standard", b"days since 1582-10-15", b"1582-10-04")?;
    write_date(to, b"standard", b"days since 1582-10-15", b"1582-10-05")?;
    write_date(to, b"standard", b"days since 1582-10-15", b"1582-10-14")?;
    write_date(to, b"standard", b"days since 1582-10-15", b"1582-10-15")?;
    write_date(to, b"julian", b"days since 1582-10-15", b"1582-10-14")
}

// ---- how far a day was moved back (document 02, CR 7)

fn moved_days(to: &impl Print) -> io::Result<()> {
    read_whole(to, b"standard", b"calendar months since 2000-01-31", 1)?;
    read_whole(to, b"noleap", b"calendar months since 2000-01-31", 1)?;
    read_whole(to, b"360_day", b"calendar months since 2000-01-30", 1)?;
    read_whole(to, b"standard", b"calendar years since 2000-02-29", 1)?;
    read_double(to, b"standard", b"calendar months since 2000-01-31", 3, 1)
}

fn days_moved_to_the_cutover(to: &impl Print) -> io::Result<()> {
    read_whole(to, b"standard", b"calendar months since 1582-09-04", 1)?;
    read_whole(to, b"standard", b"calendar months since 1582-09-05", 1)?;
    read_whole(to, b"standard", b"calendar months since 1582-09-14", 1)?;
    read_whole(to, b"standard", b"calendar months since 1582-09-15", 1)?;
    read_whole(to, b"julian", b"calendar months since 1582-09-14", 1)
}

fn days_not_moved(to: &impl Print) -> io::Result<()> {
    read_whole(to, b"standard", b"calendar weeks since 1930-01-31", 4)?;
    read_whole(to, b"standard", b"months since 1930-01-31", 1)?;
    read_whole(to, b"standard", b"calendar years since 1600-02-29", 8400)
}

// ---- cutovers (document 02, CR 8)

fn written(year: i64, month: u32, day: u32) -> Date {
    Date { year, month, day }
}

// One of `standard`, and the name for it that is printed.
fn read_after(to: &impl Print, label: &[u8], x: Date, units: &[u8], n: i64) -> io::Result<()> {
    print_part(to, label)?;
    read_whole_with(to, b"standard", x, units, n)
}

fn write_after(
    to: &impl Print,
    label: &[u8],
    x: Date,
    units: &[u8],
    date: &[u8],
) -> io::Result<()> {
    print_part(to, label)?;
    write_date_with(to, b"standard", x, units, date)
}

// The English cutover: 1752-09-02, then 1752-09-14.
fn english_cutover(to: &impl Print) -> io::Result<()> {
    let label = b"standard from 1752-09-14";
    let x = written(1752, 9, 14);
    read_after(to, label, x, b"days since 1752-09-02", 1)?;
    read_after(to, label, x, b"days since 1582-10-04", 1)?;
    read_after(to, label, x, b"days since 1700-02-28", 1)?;
    read_after(to, label, x, b"days since 1752-02-28", 1)?;
    write_after(to, label, x, b"days since 1752-09-14", b"1752-09-02")?;
    write_after(to, label, x, b"days since 1752-09-14", b"1752-09-03")?;
    write_after(to, label, x, b"days since 1752-09-14", b"1752-09-13")?;
    write_after(to, label, x, b"days since 1752-09-14", b"1752-09-31")?;
    read_after(to, label, x, b"calendar months since 1752-08-13", 1)?;
    read_after(to, label, x, b"calendar years since 1751-09-14", 1)?;
    read_after(to, label, x, b"calendar months since 1752-01-31", 1)
}

// A cutover at the first of a month: what is dropped is the end of the month before.
fn cutover_at_a_first(to: &impl Print) -> io::Result<()> {
    let label = b"standard from 1752-10-01";
    let x = written(1752, 10, 1);
    read_after(to, label, x, b"days since 1752-09-19", 1)?;
    write_after(to, label, x, b"days since 1752-10-01", b"1752-09-30")?;
    write_after(to, label, x, b"days since 1752-10-01", b"1752-09-31")?;
    read_after(to, label, x, b"calendar months since 1752-08-31", 1)
}

// The 29th of February 1700 is a Julian date and no Gregorian one.
fn cutovers_of_1700(to: &impl Print) -> io::Result<()> {
    let march = written(1700, 3, 1);
    let february = written(1700, 2, 28);
    write_after(
        to,
        b"standard from 1700-03-01",
        march,
        b"days since 1700-03-01",
        b"1700-02-29",
    )?;
    write_after(
        to,
        b"standard from 1700-03-01",
        march,
        b"days since 1700-03-01",
        b"1700-02-30",
    )?;
    write_after(
        to,
        b"standard from 1700-02-28",
        february,
        b"days since 1700-03-01",
        b"1700-02-29",
    )?;
    write_after(
        to,
        b"standard from 1700-02-28",
        february,
        b"days since 1700-03-01",
        b"1700-02-17",
    )
}

fn cutovers_of_1800_and_1900(to: &impl Print) -> io::Result<()> {
    let eighteen = written(1800, 3, 1);
    let nineteen = written(1900, 3, 1);
    read_after(
        to,
        b"standard from 1800-03-01",
        eighteen,
        b"days since 1800-02-17",
        1,
    )?;
    write_after(
        to,
        b"standard from 1800-03-01",
        eighteen,
        b"days since 1800-03-01",
        b"1800-02-29",
    )?;
    read_after(
        to,
        b"standard from 1900-03-01",
        nineteen,
        b"days since 1900-02-16",
        1,
    )?;
    write_after(
        to,
        b"standard from 1900-03-01",
        nineteen,
        b"days since 1900-03-01",
        b"1900-02-29",
    )
}

// The Russian cutover would drop the first of February; only `standard` looks.
fn refused_cutovers(to: &impl Print) -> io::Result<()> {
    read_after(
        to,
        b"standard from 1918-02-14",
        written(1918, 2, 14),
        b"days since 1918-01-31",
        1,
    )?;
    read_after(
        to,
        b"standard from 1582-10-14",
        written(1582, 10, 14),
        b"ss since 1970",
        1,
    )?;
    print_part(to, b"julian from 1918-02-14")?;
    read_whole_with(
        to,
        b"julian",
        written(1918, 2, 14),
        b"days since 1918-01-31",
        1,
    )
}

// ---- all of them

fn main(rt: HostRuntime) -> io::Result<()> {
    calendars(&rt)?;
    periods(&rt)?;
    last_days(&rt)?;
    written_dates(&rt)?;
    refused_texts(&rt)?;
    leap_years_of_julian(&rt)?;
    steps_in_julian(&rt)?;
    dates_in_julian(&rt)?;
    impossible_fields(&rt)?;
    missing_dates(&rt)?;
    dropped_dates(&rt)?;
    moved_days(&rt)?;
    days_moved_to_the_cutover(&rt)?;
    days_not_moved(&rt)?;
    english_cutover(&rt)?;
    cutover_at_a_first(&rt)?;
    cutovers_of_1700(&rt)?;
    cutovers_of_1800_and_1900(&rt)?;
    refused_cutovers(&rt)
}
