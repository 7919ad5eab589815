// A number in a column of four bytes: right-justified with spaces, without leading zeros.
ghost use Rattle.std.specs.Prelude.{◌≡◌, ℕ, ◌-◌, length};
ghost use Rattle.layout.specs.Columns.{digit_of, column_of, value_of, number_in};

fn digit(n: u16) -> u8
    ensures { result ≡ digit_of n }
{
    (n % 10) as u8 + b'0'
}

// How a number is written; one of more than four digits is shown as four stars. By hand and no `{:>4}`: nothing here allocates, and a column is bytes.
pub fn column(n: u16) -> [u8; 4]
    ensures { result ≡ column_of n }
{
    if n < 10 {
        [b' ', b' ', b' ', digit(n)]
    } else if n < 100 {
        [b' ', b' ', digit(n / 10), digit(n)]
    } else if n < 1000 {
        [b' ', digit(n / 100), digit(n / 10), digit(n)]
    } else if n < 10000 {
        [digit(n / 1000), digit(n / 100), digit(n / 10), digit(n)]
    } else {
        [b'*', b'*', b'*', b'*']
    }
}

fn digit_value(byte: u8) -> u32
    ensures { result ≡ byte - 48 }
{
    u32::from(byte.saturating_sub(b'0'))
}

// The value of four digits, a space counting as 0.
fn value(word: &[u8]) -> u32
    requires { length word.now ≡ 4 }
    ensures { result ≡ value_of word.now }
{
    digit_value(word[0]) * 1000
        + digit_value(word[1]) * 100
        + digit_value(word[2]) * 10
        + digit_value(word[3])
}

// The number that a column holds: the one that is written as these bytes. The word is a slice: an array would come from `as_chunks`, among whose seven the proof would have to find it again.
pub(crate) fn number(word: &[u8]) -> Option<u16>
    requires { length word.now ≡ 4 }
    ensures { result ≡ number_in word.now }
{
    let n = value(word);
    if n >= 10000 {
        return None;
    }
    let written = column(n as u16);
    (word == written.as_slice()).then_some(n as u16)
}
