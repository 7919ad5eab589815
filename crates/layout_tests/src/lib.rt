// The layout's calls on examples, and a line that is done with before its text is overwritten.
#![tactic(auto)]

ghost use Rattle.std.specs.Prelude.{◌≡◌, length, if◌then◌else◌, Some, None, nat_le, slice_index, slice_set};

use layout::line;

// Blanks the first byte of line 1 and answers what it was; a text without a line 1 stays as it is.
pub fn blank_first(text: &mut [u8]) -> Option<u8>
    ensures answer { result ≡ (if nat_le 29 (length text.old) then Some (slice_index text.old 0) else None) }
    ensures after { text.new ≡ (if nat_le 29 (length text.old) then slice_set text.old 0 32 else text.old) }
{
    let bytes = line(text, 1)?;
    let first = bytes[0];
    text[0] = b' ';
    Some(first)
}

#[cfg(test)]
mod tests {
    use super::blank_first;
    use layout::{column, line, scan};
    use std::alloc::{AllocError, Global};
    use std::test::Fail;

    const GOOD: [u8; 29] = *b"   1   0  10 999   0   0   0\n";

    #[test]
    fn columns(rt: HostRuntime) {
        assert!(rt; column(0) == *b"   0");
        assert!(rt; column(7) == *b"   7");
        assert!(rt; column(10) == *b"  10");
        assert!(rt; column(99) == *b"  99");
        assert!(rt; column(100) == *b" 100");
        assert!(rt; column(999) == *b" 999");
        assert!(rt; column(1000) == *b"1000");
        assert!(rt; column(9999) == *b"9999");
        assert!(rt; column(10000) == *b"****");
    }

    #[test]
    fn lines(rt: HostRuntime) {
        let text = *b"   1   0   0   0   0   0   0\n   2   0   0   0   0   0   0\n   3";
        assert_eq!(rt; line(&text, 0), None);
        assert_eq!(rt;
            line(&text, 1),
            Some(b"   1   0   0   0   0   0   0\n".as_slice())
        );
        assert_eq!(rt;
            line(&text, 2),
            Some(b"   2   0   0   0   0   0   0\n".as_slice())
        );
        assert_eq!(rt; line(&text, 3), None);
        assert_eq!(rt; line(&text, usize::MAX), None);
        assert_eq!(rt; line(&[], 1), None);
    }

    // The number and the place of a refusal.
    fn refusal(text: &[u8]) -> Option<(u16, usize)> {
        let fault = scan(text).err()?;
        Some((fault.number(), fault.place))
    }

    fn good_lines(heap: Global, count: usize) -> Result<Vec<u8>, AllocError> {
        let mut text = Vec::new(heap);
        for _ in 0..count {
            text.extend_from_slice(&GOOD)?;
        }
        Ok(text)
    }

    #[test]
    fn lengths(rt: HostRuntime) -> Result<(), Fail> {
        assert_eq!(rt; refusal(&[]), Some((101, 0)));
        assert_eq!(rt; refusal(&GOOD[0..28]), Some((101, 0)));
        assert_eq!(rt; refusal(b"   1   0  10 999   0   0   0\n "), Some((101, 0)));
        assert_eq!(rt; refusal(&GOOD), None);
        assert_eq!(rt; refusal(&good_lines(rt.alloc(), 123)?), None);
        assert_eq!(rt; refusal(&good_lines(rt.alloc(), 124)?), Some((101, 0)));
        Ok(())
    }

    #[test]
    fn broken_lines(rt: HostRuntime) {
        assert_eq!(rt;
            refusal(b"   1   0   0   0   0   0   0\n   2  01   0   0   0   0   0\n"),
            Some((102, 2)),
            "a leading zero"
        );
        assert_eq!(rt;
            refusal(b"   1   0   0   0   0   0   0\n   2       0   0   0   0   0\n"),
            Some((102, 2)),
            "four blanks"
        );
        assert_eq!(rt;
            refusal(b"   1   0   0   0   0   0   0\n   2 \t 1   0   0   0   0   0\n"),
            Some((102, 2)),
            "a tab"
        );
        assert_eq!(rt;
            refusal(b"   1   0   0   0   0   0   0\n   2  +1   0   0   0   0   0\n"),
            Some((102, 2)),
            "a sign"
        );
        assert_eq!(rt;
            refusal(b"   1   0   0   0   0   0   0\n   2   \xB1   0   0   0   0   0\n"),
            Some((102, 2)),
            "a byte above 127"
        );
        assert_eq!(rt;
            refusal(b"   1   0   0   0   0   0   0\n   2   0   0   0   0   0   0\r"),
            Some((102, 2)),
            "a carriage return"
        );
    }

    #[test]
    fn blanks(rt: HostRuntime) {
        let mut text = *b"1000   0   0   0   0   0   0\n";
        assert_eq!(rt; blank_first(&mut text), Some(b'1'));
        assert!(rt; text == *b" 000   0   0   0   0   0   0\n");
        let mut short = *b"1000";
        assert_eq!(rt; blank_first(&mut short), None);
        assert!(rt; short == *b"1000");
    }
}
