ghost use Rattle.std.specs.Prelude.{◌≡◌, ◌+◌, ◌*◌, ◌/◌, ◌%◌, ◌<◌, ◌≤◌, ◌++◌, [], ◌∷◌, length, take, codes};
ghost use Rattle.bmp_specs.specs.NumberText.{number_text};

// A line of a route is put together in one array and written at once. Each function below puts a piece at a place of that
// array and answers where it ends: the place is handed on by value, so it stays in a register.

// The room for a line: 147 bytes up to the prefix, 46 for the prefix, 808 for the path attributes that are put here, and 15
// for the path identifier and the end of the line are 1,016.
pub(crate) const ROOM: usize = 1024;

// Puts a word at a place, and answers where it ends.
#[inline(always)]
pub(crate) fn word(line: &mut [u8; ROOM], at: usize, word: &[u8]) -> usize
    requires { at + length word.now ≤ 1024 }
    ensures whole { take result line.new ≡ take at line.old ++ word.now }
    ensures end { result ≡ at + length word.now }
{
    let end = at + word.len();
    line[at..end].copy_from_slice(word);
    end
}

// Puts a byte at a place, and answers where it ends.
#[inline(always)]
pub(crate) fn byte(line: &mut [u8; ROOM], at: usize, byte: u8) -> usize
    requires { at < 1024 }
    ensures whole { take result line.new ≡ take at line.old ++ byte ∷ [] }
    ensures end { result ≡ at + 1 }
{
    line[at] = byte;
    at + 1
}

// Puts a number below 100 as two digits.
#[inline(always)]
fn pair(line: &mut [u8; ROOM], at: usize, pair: u32) -> usize
    requires room { at + 2 ≤ 1024 }
    requires pair { pair < 100 }
    ensures whole { take result line.new ≡ take at line.old ++ (48 + pair / 10) ∷ (48 + pair % 10) ∷ [] }
    ensures end { result ≡ at + 2 }
{
    let next = byte(line, at, b'0' + (pair / 10) as u8);
    byte(line, next, b'0' + (pair % 10) as u8)
}

// Puts a number below 10,000 as four digits.
#[inline(always)]
fn quad(line: &mut [u8; ROOM], at: usize, quad: u32) -> usize
    requires room { at + 4 ≤ 1024 }
    requires quad { quad < 10000 }
    ensures whole { take result line.new ≡ take at line.old ++ (48 + quad / 100 / 10) ∷ (48 + quad / 100 % 10) ∷ (48 + quad % 100 / 10) ∷ (48 + quad % 100 % 10) ∷ [] }
    ensures end { result ≡ at + 4 }
{
    let next = pair(line, at, quad / 100);
    pair(line, next, quad % 100)
}

// Puts the digits of a number below 100, without a leading zero.
#[inline(always)]
fn below_100(line: &mut [u8; ROOM], at: usize, number: u32) -> usize
    requires room { at + 2 ≤ 1024 }
    requires number { number < 100 }
    ensures whole { take result line.new ≡ take at line.old ++ number_text number }
    ensures short { result ≤ at + 2 }
{
    if number < 10 {
        byte(line, at, b'0' + number as u8)
    } else {
        pair(line, at, number)
    }
}

// Puts the digits of a number below 10,000, without leading zeros.
#[inline(always)]
pub(crate) fn below_10_000(line: &mut [u8; ROOM], at: usize, number: u32) -> usize
    requires room { at + 4 ≤ 1024 }
    requires number { number < 10000 }
    ensures whole { take result line.new ≡ take at line.old ++ number_text number }
    ensures short { result ≤ at + 4 }
{
    if number < 100 {
        return below_100(line, at, number);
    }
    let next = below_100(line, at, number / 100);
    pair(line, next, number % 100)
}

// Puts the digits of a byte, three at most.
#[inline(always)]
pub(crate) fn octet(line: &mut [u8; ROOM], at: usize, octet: u8) -> usize
    requires { at + 3 ≤ 1024 }
    ensures whole { take result line.new ≡ take at line.old ++ number_text octet }
    ensures short { result ≤ at + 3 }
{
    let number = octet as u32;
    if number < 100 {
        return below_100(line, at, number);
    }
    let next = byte(line, at, b'0' + (number / 100) as u8);
    pair(line, next, number % 100)
}

// Puts the digits of a number, ten at most.
#[inline]
pub(crate) fn number(line: &mut [u8; ROOM], at: usize, number: u32) -> usize
    requires { at + 10 ≤ 1024 }
    ensures whole { take result line.new ≡ take at line.old ++ number_text number }
    ensures short { result ≤ at + 10 }
{
    if number < 10_000 {
        return below_10_000(line, at, number);
    }
    if number < 100_000_000 {
        let next = below_10_000(line, at, number / 10_000);
        return quad(line, next, number % 10_000);
    }
    let next = below_100(line, at, number / 100_000_000);
    let next = quad(line, next, number / 10_000 % 10_000);
    quad(line, next, number % 10_000)
}
