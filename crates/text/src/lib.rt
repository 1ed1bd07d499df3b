// The text that the program prints: numbers in decimal on one line, and the line of a refusal.
#![tactic(auto)]

ghost use Rattle.std.specs.Prelude.{◌≡◌, ◌∷◌, ◌++◌, ◌+◌, ◌*◌, ◌≤◌, ◌<◌, length, drop};
ghost use Rattle.spec.specs.Program.{decimal, line as line_of, refusal_printed};
ghost use Rattle.text.specs.Printed.{Printed, line_told};
ghost use Rattle.text.specs.Private.{Counted, digit_pairs};

use spec::Refusal;

// How many decimal digits a number below 10^5 has. One and two share an arm: with an arm each, a line of
// numbers of four digits takes 7 % more instructions. (With `checked_ilog10` it takes 15 % more.)
fn count_up_to_5(n: u64) -> usize
    requires { n < 100000 }
    ensures { Counted n result × (result ≤ 5) }
{
    match n {
        0..=99 => 1 + usize::from(9 < n),
        100..=999 => 3,
        1000..=9999 => 4,
        _ => 5,
    }
}

// The same below 10^10: of more than five digits, those before the last five are counted.
fn count_up_to_10(n: u64) -> usize
    requires { n < 10000000000 }
    ensures { Counted n result × (result ≤ 10) }
{
    if n < 100000 {
        return count_up_to_5(n);
    }
    count_up_to_5(n / 100000) + 5
}

// How many decimal digits a number has: of more than ten, those before the last ten are counted.
fn digit_count(n: u64) -> usize
    ensures { (result ≡ length (decimal n)) × (result ≤ 20) }
{
    if n < 10000000000 {
        return count_up_to_10(n);
    }
    count_up_to_10(n / 10000000000) + 10
}

// The two digits of each number of 0 to 99.
fn digit_pairs() -> &'static [u8; 200]
    ensures { result.now ≡ digit_pairs }
{
    b"00010203040506070809101112131415161718192021222324252627282930313233343536373839404142434445464748495051525354555657585960616263646566676869707172737475767778798081828384858687888990919293949596979899"
}

// A number's digits into a slice of just as many bytes, two at a time from the last to the first.
fn spell(n: u64, out: &mut [u8])
    requires { length out.old ≡ length (decimal n) }
    ensures { out.new ≡ decimal n }
{
    let pairs = digit_pairs();
    let mut rest = n;
    // counted by hand: two bytes a turn from the end, which an iterator says no plainer
    let mut k = out.len();
    while 1 < k {
        k -= 2;
        let at = (rest % 100) as usize * 2;
        // both are read before either is written: the compiler then moves them at once
        let tens = pairs[at];
        let ones = pairs[at + 1];
        out[k + 1] = ones;
        out[k] = tens;
        rest /= 100;
    }
    if 0 < k {
        out[0] = b'0' + (rest % 10) as u8;
    }
}

// A number and a space at the front of a slice; how many bytes they are.
fn put(n: u64, out: &mut [u8]) -> usize
    requires { 21 ≤ length out.old }
    ensures { (result ≡ length (decimal n) + 1) × (result ≤ 21) × (out.new ≡ decimal n ++ (32 ∷ drop result out.old)) }
{
    let end = digit_count(n);
    spell(n, &mut out[..end]);
    out[end] = b' ';
    end + 1
}

// The line into a slice with room for it. A space stands after each number, and the line's end takes the place of the last.
fn fill(numbers: &[u64], out: &mut [u8]) -> usize
    requires { length out.old ≡ 21 * length numbers.now + 1 }
    ensures { (result ≡ length (line_of numbers.now)) × (out.new ≡ line_of numbers.now ++ drop result out.old) }
{
    let mut end = 0;
    for &n in numbers {
        end += put(n, &mut out[end..]);
    }
    let last = end.saturating_sub(1);
    out[last] = b'\n';
    last + 1
}

// Numbers on one line, in decimal, single spaces between, at the front of `out`, which has 21 bytes for
// each number and one for the line's end; the line's length. Refused by 7.
pub fn line(numbers: &[u64], out: &mut [u8]) -> Result<usize, Refusal>
    ensures { Printed numbers.now out.old (line_told result) out.new }
{
    if out.len() % 21 != 1 || out.len() / 21 != numbers.len() {
        return Err(Refusal::OtherOutput);
    }
    Ok(fill(numbers, out))
}

// The line of a refusal, such as `refused 8`, at the front of `out`; its length. It takes the number, since
// it answers for each number of 8 bits.
pub fn refusal_line(number: u8, out: &mut [u8; 64]) -> usize
    ensures { (result ≡ length (refusal_printed number)) × (out.new ≡ refusal_printed number ++ drop (length (refusal_printed number)) out.old) }
{
    out[..8].copy_from_slice(b"refused ");
    let end = 8 + put(u64::from(number), &mut out[8..]);
    out[end - 1] = b'\n';
    end
}
