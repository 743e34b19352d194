// The decimal digits of short numbers, written after the first `len` bytes of a line's array.
ghost use Rattle.std.specs.Prelude.{◌≡◌, ◌<◌, ◌≤◌, ◌+◌, ◌/◌, ◌%◌, ◌++◌, [], ◌∷◌, take, decimal};

/// The two digits of each number below 100, one after another.
static PAIRS: [u8; 200] = *b"\
00010203040506070809101112131415161718192021222324\
25262728293031323334353637383940414243444546474849\
50515253545556575859606162636465666768697071727374\
75767778798081828384858687888990919293949596979899";

#[inline]
fn put_digit_pair(bytes: &mut [u8; 2048], len: usize, pair: u64)
    requires pair { pair < 100 }
    requires room { len + 2 ≤ 2048 }
    ensures { take (len + 2) bytes.new
        ≡ take len bytes.old ++ (48 + pair / 10) ∷ (48 + pair % 10) ∷ [] }
{
    let from = pair as usize * 2;
    let (ten, one) = (PAIRS[from], PAIRS[from + 1]);
    bytes[len] = ten;
    bytes[len + 1] = one;
}

/// Writes a number of one digit, and returns the new length.
#[inline]
pub(crate) fn put_line_digit(bytes: &mut [u8; 2048], len: usize, n: u64) -> usize
    requires short { n < 10 }
    requires room { len < 2048 }
    ensures end { result ≡ len + 1 }
    ensures held { take result bytes.new ≡ take len bytes.old ++ decimal n }
{
    bytes[len] = b'0' + n as u8;
    len + 1
}

// Writes a number of one or two digits, and returns the new length.
#[inline]
fn put_first_line_digits(bytes: &mut [u8; 2048], len: usize, n: u64) -> usize
    requires short { n < 100 }
    requires room { len + 2 ≤ 2048 }
    ensures within { result ≤ len + 2 }
    ensures held { take result bytes.new ≡ take len bytes.old ++ decimal n }
{
    if n < 10 {
        put_line_digit(bytes, len, n)
    } else {
        put_digit_pair(bytes, len, n);
        len + 2
    }
}

/// Writes a number of at most six digits, and returns the new length.
#[inline]
pub(crate) fn put_short_line_number(bytes: &mut [u8; 2048], len: usize, n: u64) -> usize
    requires short { n < 1000000 }
    requires room { len + 6 ≤ 2048 }
    ensures within { result ≤ 2048 }
    ensures held { take result bytes.new ≡ take len bytes.old ++ decimal n }
{
    if n < 100 {
        put_first_line_digits(bytes, len, n)
    } else if n < 10_000 {
        let end = put_first_line_digits(bytes, len, n / 100);
        put_digit_pair(bytes, end, n % 100);
        end + 2
    } else {
        let end = put_first_line_digits(bytes, len, n / 10_000);
        put_digit_pair(bytes, end, n / 100 % 100);
        put_digit_pair(bytes, end + 2, n % 100);
        end + 4
    }
}
