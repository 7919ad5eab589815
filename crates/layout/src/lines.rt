// A line is seven numbers in columns, then byte 10: 29 bytes.
ghost use Rattle.std.specs.Prelude.{◌≡◌, ℕ, ◌-◌, ◌*◌, length};
ghost use Rattle.std.specs.Option.{option_map};
ghost use Rattle.layout.specs.Lines.{line_of, numbers_in};

use crate::columns::number;

// How many bytes a line has.
pub const LINE: usize = 29;

// The six columns behind a line's kind. No `[T; 6]`: in the definitions an array is a list of any length, and each would have to say what a shorter one means.
#[derive(Clone, Copy, PartialEq, Eq, Debug, Default)]
pub struct Six<T> {
    pub first: T,
    pub second: T,
    pub third: T,
    pub fourth: T,
    pub fifth: T,
    pub sixth: T,
}

// The seven numbers of a line.
#[derive(Clone, Copy, PartialEq, Eq, Debug, Default)]
pub struct Numbers {
    pub kind: u16,
    pub operands: Six<u16>,
}

// Line k of a text, counted from 1; absent if k is 0 or its bytes do not all lie in the text.
pub fn line(text: &[u8], k: usize) -> Option<&[u8]>
    ensures { option_map (λ x. x.now) result ≡ line_of text.now k }
{
    if k == 0 || k > text.len() / LINE {
        return None;
    }
    let start = (k - 1) * LINE;
    Some(&text[start..start + LINE])
}

// The numbers of a line; absent if its layout is broken.
pub(crate) fn parse(bytes: &[u8; LINE]) -> Option<Numbers>
    ensures { result ≡ numbers_in bytes.now }
{
    let kind = number(&bytes[0..4])?;
    let first = number(&bytes[4..8])?;
    let second = number(&bytes[8..12])?;
    let third = number(&bytes[12..16])?;
    let fourth = number(&bytes[16..20])?;
    let fifth = number(&bytes[20..24])?;
    let sixth = number(&bytes[24..28])?;
    let operands = Six {
        first,
        second,
        third,
        fourth,
        fifth,
        sixth,
    };
    (bytes[28] == b'\n').then_some(Numbers { kind, operands })
}
