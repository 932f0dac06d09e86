// Words and numbers, written straight into their places in a buffer.
#![tactic(auto)]

ghost use Rattle.std.specs.Prelude.{◌≡◌, ◌+◌, ◌%◌, ◌≤◌, length};
ghost use Rattle.text.specs.Decimal.{numeral, WrittenAs};
ghost use Rattle.writing.specs.Writing.{Writes};
ghost use Rattle.writing.specs.inner.Puts.{Short, DigitRoom, LastPut, Above};

// Writes a word from `at` on where there is room for it, else nothing. Returns how many bytes. Byte by byte: `copy_from_slice` takes half as
// long again for words as short as these.
pub fn put_word(out: &mut [u8], at: usize, word: &[u8]) -> usize
    ensures { Writes out.old at word.now out.new result }
{
    if too_short(out.len(), at, word.len()) {
        return 0;
    }
    for (i, &b) in word.iter().enumerate() {
        out[at + i] = b;
    }
    word.len()
}

// Writes a number in the same way: 0, or its digits without a leading zero.
pub fn put_number(out: &mut [u8], at: usize, n: u64) -> usize
    ensures writes { Writes out.old at (numeral n) out.new result }
    ensures form { WrittenAs n (numeral n) }
{
    let count = digit_count(n);
    if too_short(out.len(), at, count) {
        return 0;
    }
    put_digits(out, at, n, count)
}

// How many digits a number has.
fn digit_count(n: u64) -> usize
    ensures { result ≡ length (numeral n) }
{
    match n {
        0..=9 => 1,
        10..=99 => 2,
        100..=999 => 3,
        1_000..=9_999 => 4,
        _ => n.ilog10() as usize + 1,
    }
}

// How many digits a number of 32 bits has, found without a branch: so a pass over a table adds them up several at a time.
pub fn digit_count_u32(n: u32) -> u32
    ensures { result ≡ length (numeral n) }
{
    let few = above(n, 9) + above(n, 99) + above(n, 999) + above(n, 9_999);
    let more = above(n, 99_999) + above(n, 999_999) + above(n, 9_999_999);
    let most = above(n, 99_999_999) + above(n, 999_999_999);
    1 + few + more + most
}

// 1 where n is above m, else 0.
fn above(n: u32, m: u32) -> u32
    ensures { Above n m result }
{
    u32::from(m < n)
}

// Writes the digits of a number that has `count` of them. Where these are few their number is a literal, so that they are written without a loop.
fn put_digits(out: &mut [u8], at: usize, n: u64, count: usize) -> usize
    requires { DigitRoom out.old at n count }
    ensures { Writes out.old at (numeral n) out.new result }
{
    match n {
        0..=9 => put_last(out, at, n, 1),
        10..=99 => put_last(out, at, n, 2),
        100..=999 => put_last(out, at, n, 3),
        1_000..=9_999 => put_last(out, at, n, 4),
        _ => put_last(out, at, n, count),
    }
}

// Writes the last `count` digits of a number, each straight to its place, the last one first.
fn put_last(out: &mut [u8], at: usize, n: u64, count: usize) -> usize
    requires { at + count ≤ length out.old }
    ensures { LastPut out.old at count n out.new result }
{
    let mut rest = n;
    for i in (0..count).rev() {
        out[at + i] = b'0' + (rest % 10) as u8;
        rest /= 10;
    }
    count
}

// Whether a buffer of `length` bytes is too short for `count` bytes from `at` on. The difference is that of length and count, since these two are
// often the same for many calls.
fn too_short(length: usize, at: usize, count: usize) -> bool
    ensures { Short length at count result }
{
    length < count || length - count < at
}
