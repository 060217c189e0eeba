// Numbers as a line writes them.
ghost use Rattle.std.specs.Prelude.{◌≡◌, ◌^◌, ◌<◌, ◌≤◌, length, IfSome};
ghost use Rattle.fields.specs.Told.{reads, plain, number_in};

// The most digits of a number, a minus not counted.
const MOST_DIGITS: usize = 18;

// The number that at most 18 digits write.
fn digits(text: &[u8]) -> Option<u64>
    requires { length text.now ≤ 18 }
    ensures value { result ≡ reads 0 text.now }
    ensures bound { IfSome result (λ n. n < 10 ^ 18) }
{
    let mut n: u64 = 0;
    for b in text {
        let digit = char::from(*b).to_digit(10)?;
        n = n * 10 + u64::from(digit);
    }
    Some(n)
}

// The number that 1 to 18 digits write, with no leading zero but in 0 itself.
fn plain_number(text: &[u8]) -> Option<u64>
    ensures value { result ≡ plain text.now }
    ensures bound { IfSome result (λ n. n < 10 ^ 18) }
{
    match text {
        [] | [b'0', _, ..] => None,
        _ if text.len() > MOST_DIGITS => None,
        _ => digits(text),
    }
}

// The number of a field, maybe with one minus; -0 is none.
pub(crate) fn number_in(text: &[u8]) -> Option<i64>
    ensures value { result ≡ number_in text.now }
{
    match text {
        [b'-', rest @ ..] => {
            let n = plain_number(rest)?;
            if n == 0 { None } else { Some(-(n as i64)) }
        }
        _ => Some(plain_number(text)? as i64),
    }
}
