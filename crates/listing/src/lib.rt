//! The listing of an airport memory's areas: a line of text for each area, into memory that the caller lends.
#![tactic(auto)]

ghost use Rattle.std.specs.Prelude.{◌≡◌, ◌+◌, ◌≤◌, ◌++◌, length, take, drop, IfOk, if◌then◌else◌, Some, None, Ok, Err, decimal, nat_le};
ghost use Rattle.listing.specs.declared.Refusal.TheVariants.{Short};
ghost use Rattle.listing.specs.Listing.{field, line, listing, line_feeds, refusal_number};
ghost use Rattle.listing.specs.Writing.{HasRoom, Puts};

use itoa::write_digits;

/// One area of the memory: its number, its level, and how many of its slots are used and free.
#[derive(Clone, Copy, PartialEq, Eq, Debug)]
pub struct Row {
    pub area: u16,
    pub level: u8,
    pub used: u16,
    pub free: u16,
}

/// Why no listing was written.
#[derive(Clone, Copy, PartialEq, Eq, Debug)]
pub enum Refusal {
    /// The memory handed in is too short for the listing.
    Short,
}

impl Refusal {
    /// The number by which the refusal is reported; the product prescribes it.
    pub fn number(self) -> u8
        ensures { result ≡ refusal_number self }
    {
        match self {
            Refusal::Short => 16,
        }
    }
}

/// The bytes of a line that are the same in every line: its words, its blanks and its line feed.
const FIXED: usize = b"area  level  used  free \n".len();

/// How many decimal digits `n` has.
#[tactic(auto, using(crate::proofs::Digits::one, crate::proofs::Digits::two, crate::proofs::Digits::three, crate::proofs::Digits::four, crate::proofs::Digits::five))]
fn digit_count(n: u16) -> usize
    ensures exact { result ≡ length (decimal n) }
    ensures few { result ≤ 5 }
{
    match n {
        0..=9 => 1,
        10..=99 => 2,
        100..=999 => 3,
        1000..=9999 => 4,
        _ => 5,
    }
}

/// How many bytes the line of `row` has.
#[tactic(auto, using(crate::proofs::Texts::line_bytes))]
fn line_length(row: &Row) -> usize
    ensures { result ≡ length (line row.now) }
{
    FIXED
        + digit_count(row.area)
        + digit_count(u16::from(row.level))
        + digit_count(row.used)
        + digit_count(row.free)
}

/// The sum of `a` and `b`, where it is at most `room`.
fn sum_within(a: usize, b: usize, room: usize) -> Option<usize>
    ensures { result ≡ (if nat_le (a + b) room then Some (a + b) else None) }
{
    a.checked_add(b).filter(|sum| *sum <= room)
}

/// How many bytes the listing of `rows` has, where it has at most `room`.
///
/// The sum is broken off at the first line that does not fit, so a refusal reads no rows past it.
fn listing_length(rows: &[Row], room: usize) -> Option<usize>
    ensures { result ≡ (if nat_le (length (listing rows.now)) room then Some (length (listing rows.now)) else None) }
{
    rows.iter()
        .try_fold(0, |total, row| sum_within(total, line_length(row), room))
}

/// The memory that the caller lends, and the place in it where the next text goes.
///
/// The product prescribes fixed words between the numbers of a line. The library's cursor is not used, since nothing is
/// said of the bytes that `write!` leaves in it.
#[derive(Drop)]
struct Writer<'a> {
    out: &'a mut [u8],
    at: usize,
}

impl Writer<'_> {
    /// Writes `text`.
    #[tactic(auto, using(std::proofs::lemmas::Slice::overwrites), unfolding(crate::specs::Listing::written))]
    fn put(&mut self, text: &[u8])
        requires { HasRoom self.old text.now }
        ensures { Puts self.old self.new text.now }
    {
        let end = self.at + text.len();
        self.out[self.at..end].copy_from_slice(text);
        self.at = end;
    }

    /// Writes the digits of `n`.
    #[tactic(auto, using(crate::proofs::Texts::written_to))]
    fn put_number(&mut self, n: u16)
        requires { HasRoom self.old (decimal n) }
        ensures { Puts self.old self.new (decimal n) }
    {
        let end = self.at + digit_count(n);
        write_digits(u64::from(n), self.out, end);
        self.at = end;
    }

    /// Writes `word` and then the number `n`. Inlined, so that each word is copied with the length that it has.
    #[inline]
    fn put_field(&mut self, word: &[u8], n: u16)
        requires { HasRoom self.old (field word.now n) }
        ensures { Puts self.old self.new (field word.now n) }
    {
        self.put(word);
        self.put_number(n);
    }

    /// Writes the line of `row`.
    #[tactic(auto, using(crate::proofs::Texts::line_bytes))]
    fn put_line(&mut self, row: &Row)
        requires { HasRoom self.old (line row.now) }
        ensures { Puts self.old self.new (line row.now) }
    {
        self.put_field(b"area ", row.area);
        self.put_field(b" level ", u16::from(row.level));
        self.put_field(b" used ", row.used);
        self.put_field(b" free ", row.free);
        self.put(b"\n");
    }

    /// Writes the lines of `rows`.
    fn put_lines(&mut self, rows: &[Row])
        requires { HasRoom self.old (listing rows.now) }
        ensures { Puts self.old self.new (listing rows.now) }
    {
        for row in rows {
            self.put_line(row);
        }
    }
}

/// Writes the listing of `rows` to the front of `out`, and answers its length; what lies past it stays.
///
/// Where `out` is shorter than the listing, nothing is written.
pub fn write_listing(rows: &[Row], out: &mut [u8]) -> Result<usize, Refusal>
    ensures answer { result ≡ (if nat_le (length (listing rows.now)) (length out.old) then Ok (length (listing rows.now)) else Err Short) }
    ensures after { out.new ≡ (if nat_le (length (listing rows.now)) (length out.old) then listing rows.now ++ drop (length (listing rows.now)) out.old else out.old) }
    ensures lines { IfOk result (λ n. line_feeds (take n out.new) ≡ length rows.now) }
{
    let size = listing_length(rows, out.len()).ok_or(Refusal::Short)?;
    Writer { out, at: 0 }.put_lines(rows);
    Ok(size)
}

#[cfg(test)]
mod tests {
    use super::*;

    const ROWS: [Row; 3] = [
        Row {
            area: 1,
            level: 2,
            used: 2,
            free: 6,
        },
        Row {
            area: 2,
            level: 1,
            used: 1,
            free: 3,
        },
        Row {
            area: 3,
            level: 1,
            used: 1,
            free: 3,
        },
    ];

    const TEXT: &[u8] =
        b"area 1 level 2 used 2 free 6\narea 2 level 1 used 1 free 3\narea 3 level 1 used 1 free 3\n";

    #[test]
    fn whole_listing(rt: HostRuntime) {
        let mut out = [7; 87];
        assert_eq!(rt; write_listing(&ROWS, &mut out), Ok(87));
        assert!(rt; &out[0..87] == TEXT);
    }

    #[test]
    fn too_short(rt: HostRuntime) {
        let mut out = [7; 86];
        let answer = write_listing(&ROWS, &mut out);
        assert_eq!(rt; answer, Err(Refusal::Short));
        assert!(rt; out == [7; 86]);
        assert_eq!(rt; Refusal::Short.number(), 16);
    }

    #[test]
    fn rest_stays(rt: HostRuntime) {
        let mut out = [7; 100];
        assert_eq!(rt; write_listing(&ROWS, &mut out), Ok(87));
        assert!(rt; &out[0..87] == TEXT);
        assert!(rt; out[87..100] == [7; 13]);
    }

    #[test]
    fn no_rows(rt: HostRuntime) {
        assert_eq!(rt; write_listing(&[], &mut []), Ok(0));
    }

    #[test]
    fn wide_numbers(rt: HostRuntime) {
        let row = Row {
            area: 1024,
            level: 255,
            used: 65535,
            free: 0,
        };
        let mut out = [0; 38];
        assert_eq!(rt; write_listing(&[row], &mut out), Ok(38));
        assert!(rt; &out[0..38] == b"area 1024 level 255 used 65535 free 0\n".as_slice());
    }
}
