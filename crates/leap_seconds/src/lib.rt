// A lent list of leap seconds, and UTC's days and seconds by it (specs/Leaps.antt, specs/Utc.antt). Bytes are tested by `is_good` as they become
// a `LeapList`, which has the rest.
#![tactic(auto)]

ghost use Rattle.std.specs.Prelude.{◌≡◌, true, false, ◌+◌, ◌-◌, ◌*◌, ◌/◌, ◌%◌, ◌≤◌, ◌<◌, ◌^◌, pos, length, MatchOption};
ghost use Rattle.leap_seconds.specs.Leaps.{word_at, is_good, leaps, leaps_from, rises_from};
ghost use Rattle.leap_seconds.specs.Utc.{is_leap_day, moment, moment_at};
ghost use Rattle.leap_seconds.specs.Closed.{day_at, HoldsOn, CountIs};

// The eight bytes from a place on, as a number without a sign.
fn word_at(s: &[u8], at: usize) -> u64
    requires { at + 8 ≤ length s.now }
    ensures { result ≡ word_at s.now at }
{
    int64_bytes::little_endian(&s[at..at + 8])
}

// Whether of n records each but the first has a later day than the one before it, and a count of one more.
fn rises(s: &[u8], n: usize) -> bool
    requires { 16 * n ≤ length s.now }
    ensures { result ≡ rises_from (pos 730) 10 (leaps_from (n - 1) 1 s.now) }
{
    let mut last: u64 = 730;
    for i in 1..n {
        let day = word_at(s, 16 * i);
        // from 2^63 on a day is negative
        if day <= last || 1 << 63 <= day || word_at(s, 16 * i + 8) != i as u64 + 10 {
            return false;
        }
        last = day;
    }
    true
}

// Whether the bytes are a good list.
#[tactic(auto, using(crate::proofs::Testing::list_tests))]
pub fn is_good(s: &[u8]) -> bool
    ensures { result ≡ is_good s.now }
{
    let n = s.len() / 16;
    s.len() % 16 == 0
        && n != 0
        && n <= 64
        && word_at(s, 0) == 730
        && word_at(s, 8) == 10
        && rises(s, n)
}

// A second of a day: days are counted from 1970-01-01, and second 86400 is 23:59:60.
#[derive(Clone, Copy)]
pub struct Moment {
    pub day: u64,
    pub second: u64,
}

// Second v of days of 86400 seconds.
fn plain_moment(v: u64) -> Moment
    ensures { result ≡ moment (v / 86400) (v % 86400) }
{
    Moment {
        day: v / 86400,
        second: v % 86400,
    }
}

// A lent list that is good.
#[derive(Clone, Copy)]
pub struct LeapList<'a> {
    pub bytes: &'a [u8],
    pub ghost good: { is_good bytes.now ≡ true },
}

impl<'a> LeapList<'a> {
    // The list that bytes are, where they are a good one.
    pub fn of(bytes: &'a [u8]) -> Option<LeapList<'a>>
        ensures { MatchOption result (is_good bytes.now ≡ false) (λ l. l.bytes.now ≡ bytes.now) }
    {
        if is_good(bytes) {
            Some(LeapList { bytes })
        } else {
            None
        }
    }

    // The day of record i.
    fn day(self, i: usize) -> u64
        requires { i < length self.bytes.now / 16 }
        ensures { result ≡ day_at self.entry.bytes.now i }
    {
        word_at(self.bytes, 16 * i)
    }

    // The place of the record that holds on a day from 1972 on. It is sought from the end, since most times are late. That the day is one of these
    // stays a clause here and below: it is of one number.
    fn holding(self, day: u64) -> usize
        requires { 730 ≤ day }
        ensures { HoldsOn self.entry.bytes.now day result }
    {
        for i in (1..self.bytes.len() / 16).rev() {
            if self.day(i) <= day {
                return i;
            }
        }
        0
    }

    // The count on a day from 1972 on.
    pub fn count_on(self, day: u64) -> u64
        requires { 730 ≤ day }
        ensures { CountIs (leaps self.entry.bytes.now) day result }
    {
        self.holding(day) as u64 + 10
    }

    // Whether a day ends with a leap second. No record but the first has a day up to 730, and none has one from 2^63 on.
    pub fn is_leap_day(self, day: u64) -> bool
        ensures { result ≡ is_leap_day (leaps self.entry.bytes.now) day }
    {
        if day < 730 || 1 << 63 <= day {
            return false;
        }
        let i = self.holding(day + 1);
        self.day(i) == day + 1
    }

    // The moment n seconds after the beginning of 1972.
    pub fn moment_at(self, n: u64) -> Moment
        requires { n < 2 ^ 40 }
        ensures { result ≡ moment_at (leaps self.entry.bytes.now) n }
    {
        // From the beginning of 1970, leap seconds counted. Of days without them this would be day t / 86400; with the i seconds of
        // record i it may be the day before, and then that record has not begun.
        let t = n + 63072000;
        let i = self.holding(t / 86400);
        let day = self.day(i);
        let v = t - i as u64;
        if day <= v / 86400 {
            return plain_moment(v);
        }
        if day <= (v + 1) / 86400 {
            return Moment {
                day: day - 1,
                second: 86400,
            };
        }
        plain_moment(v + 1)
    }
}
