// Grammars as data (specs/), one theorem for every clear grammar (proofs/Reading.antt), and the functions
// that every text rule scans with. A scanner function takes a text and a place in it, which may lie past its
// end. It answers the value that stands there with the place after it, or that nothing does, and promises that
// the grammar's reader finds the same: an equation with `scan` of the rule.
#![tactic(auto)]

ghost use Rattle.std.specs.Prelude.{◌≡◌, true, ◌&&◌, nat_le, ◌+◌, ◌-◌, ◌≤◌, ◌<◌, ◌^◌, length, drop};
ghost use Rattle.std.specs.List.{take_while};
ghost use Rattle.grammar.specs.Grammar.{starts, every};
ghost use Rattle.grammar.specs.Reader.{front, scan};
ghost use Rattle.grammar.specs.Rules.{span, any_of, digit, decimal, number, two, either, spelled, same};
ghost use Rattle.grammar.specs.Answers.{number_in, end_in};

// Whether the byte at a place is one from lo to hi.
pub fn next_in(s: &[u8], at: usize, lo: u8, hi: u8) -> bool
    ensures { result ≡ starts (span lo hi) (drop at s.now) }
{
    at < s.len() && (lo..=hi).contains(&s[at])
}

// Whether the byte at a place is one of a set.
pub fn starts_in(s: &[u8], at: usize, set: &[u8]) -> bool
    ensures { result ≡ starts (any_of set.now) (drop at s.now) }
{
    at < s.len() && set.contains(&s[at])
}

// How many bytes from lo to hi stand at a place.
fn run_len(s: &[u8], at: usize, lo: u8, hi: u8) -> usize
    ensures value { result ≡ length (take_while (λ b. nat_le lo b && nat_le b hi) (drop at s.now)) }
    ensures in_text { result ≤ length s.now - at }
{
    if s.len() <= at {
        return 0;
    }
    let (_, rest) = s.split_at(at);
    rest.iter().take_while(|b| (lo..=hi).contains(*b)).count()
}

// Where the bytes from lo to hi that stand at a place end.
#[tactic(auto, using(crate::proofs::Places::front_while))]
pub fn run_end(s: &[u8], at: usize, lo: u8, hi: u8) -> usize
    ensures { result ≡ at + length (front (span lo hi) (drop at s.now)) }
{
    at + run_len(s, at, lo, hi)
}

// The number that up to six digits write.
pub fn decimal_of(d: &[u8]) -> u32
    requires d_len_bound { length d.now ≤ 6 }
    requires d_value { every digit d.now ≡ true }
    ensures value { result ≡ decimal 0 d.now }
    ensures upper_bound { result < 10 ^ length d.now }
{
    let mut v = 0;
    for &b in d {
        v = v * 10 + u32::from(b - b'0');
    }
    v
}

// A number of at most hi digits.
pub fn number_at(s: &[u8], at: usize, hi: usize) -> Option<(u32, usize)>
    requires { hi ≤ 6 }
    ensures { scan (number hi) (drop at s.now) ≡ number_in s.now result }
{
    let e = run_end(s, at, b'0', b'9');
    if e <= at {
        return None;
    }
    let d = &s[at..e];
    if hi < d.len() {
        return None;
    }
    Some((decimal_of(d), e))
}

// Exactly two digits.
pub fn two_digits(s: &[u8], at: usize) -> Option<(u32, usize)>
    ensures { scan two (drop at s.now) ≡ number_in s.now result }
{
    if next_in(s, at, b'0', b'9') && next_in(s, at + 1, b'0', b'9') {
        let tens = u32::from(s[at] - b'0');
        let ones = u32::from(s[at + 1] - b'0');
        return Some((tens * 10 + ones, at + 2));
    }
    None
}

// Whether a letter, given as a capital, stands at a place in either case.
pub fn letter_at(s: &[u8], at: usize, capital: u8) -> bool
    requires { capital < 128 }
    ensures { result ≡ starts (either capital) (drop at s.now) }
{
    let small = capital + 32;
    next_in(s, at, capital, capital) || next_in(s, at, small, small)
}

// A word, given in capitals, in any mix of cases.
pub fn word_at(s: &[u8], at: usize, w: &[u8]) -> Option<usize>
    requires { every (span 65 90) w.now ≡ true }
    ensures { scan (spelled w.now) (drop at s.now) ≡ end_in s.now result }
{
    let mut end = at;
    for &capital in w {
        if !letter_at(s, end, capital) {
            return None;
        }
        end += 1;
    }
    Some(end)
}

// Whether two texts are the same.
pub fn same_bytes(a: &[u8], b: &[u8]) -> bool
    ensures { result ≡ same a.now b.now }
{
    a == b
}
