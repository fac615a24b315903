// How the cases spell their bytes: `~` is CRLF, `{3*ab}` is `ababab`; `\r`, `\n`, `\t`, `\0` and `\h` are CR, LF, tab, NUL and 233; behind `\` any other byte is itself.
#![tactic(auto)]

ghost use Rattle.std.specs.Prelude.{◌≤◌, length, vec_len};
ghost use Rattle.std.specs.Str.Iter.{bytes_rest};

use std::alloc::{AllocError, Global};
use std::str::Bytes;

pub fn spelled(heap: Global, text: &str) -> Result<Vec<u8>, AllocError> {
    let mut bytes = Vec::new(heap);
    let mut rest = text.bytes();
    // How often the group that is open stands there, and where it begins.
    let mut times = 0;
    let mut group = 0;
    while let Some(b) = rest.next() {
        match b {
            b'~' => bytes.extend_from_slice(b"\r\n")?,
            b'\\' => bytes.extend(rest.next().map(escaped))?,
            b'{' => {
                times = count(&mut rest);
                group = bytes.len();
            }
            b'}' => repeat(&mut bytes, group, times)?,
            _ => bytes.push(b)?,
        }
    }
    Ok(bytes)
}

fn escaped(b: u8) -> u8 {
    match b {
        b'r' => b'\r',
        b'n' => b'\n',
        b't' => b'\t',
        b'0' => 0,
        b'h' => 233,
        _ => b,
    }
}

// The number before a `*`, which is read too. By `take_while` and `fold` it was not proved that less of `rest` is left.
fn count(rest: &mut Bytes) -> usize
    ensures { length (bytes_rest rest.new) ≤ length (bytes_rest rest.old) }
{
    let mut n: usize = 0;
    while let Some(b) = rest.next() {
        if b == b'*' {
            break;
        }
        n = n
            .saturating_mul(10)
            .saturating_add(usize::from(b.wrapping_sub(b'0')));
    }
    n
}

// The group stands there once already. Each turn copies all that stands there of it, or what is still wanting, so that a
// short group is no dearer than a long one, and an empty group is no work at all.
fn repeat(bytes: &mut Vec<u8>, group: usize, times: usize) -> Result<(), AllocError>
    requires { group ≤ vec_len bytes.old }
    ensures { vec_len bytes.old ≤ vec_len bytes.new }
{
    let size = bytes.len() - group;
    let mut more = size.saturating_mul(times.saturating_sub(1));
    while more > 0 {
        let copied = more.min(bytes.len() - group);
        bytes.extend_from_within(group..group + copied)?;
        more -= copied;
    }
    Ok(())
}

#[cfg(test)]
mod tests {
    use super::*;
    use std::test::Fail;

    fn spells(rt: &HostRuntime, text: &str, bytes: &[u8]) -> Result<bool, Fail> {
        Ok(spelled(rt.alloc(), text)?.as_slice() == bytes)
    }

    #[test]
    fn spells_bytes(rt: HostRuntime) -> Result<(), Fail> {
        assert!(rt; spells(&rt, "", b"")?);
        assert!(rt; spells(&rt, "X: a~", b"X: a\r\n")?);
        assert!(rt; spells(&rt, "\\r\\n\\t\\0\\h\\~\\}\\\\", b"\r\n\t\0\xe9~}\\")?);
        Ok(())
    }

    #[test]
    fn spells_groups(rt: HostRuntime) -> Result<(), Fail> {
        assert!(rt; spells(&rt, "x{3*ab}y", b"xabababy")?);
        assert!(rt;
            spells(
                &rt,
                "{1*a}{12*~}",
                b"a\r\n\r\n\r\n\r\n\r\n\r\n\r\n\r\n\r\n\r\n\r\n\r\n"
            )?
        );
        assert!(rt; spells(&rt, "{2*\\}b}", b"}b}b")?);
        Ok(())
    }

    #[test]
    fn spells_longer_groups(rt: HostRuntime) -> Result<(), Fail> {
        assert!(rt; spells(&rt, "c{7*ab}", b"cababababababab")?);
        assert!(rt; spells(&rt, "{4*a}{3*bc}", b"aaaabcbcbc")?);
        Ok(())
    }

    // An empty group is no work, however often it is to stand there.
    #[test]
    fn spells_empty_groups(rt: HostRuntime) -> Result<(), Fail> {
        assert!(rt; spells(&rt, "a{3*}b", b"ab")?);
        assert!(rt; spells(&rt, "a{18446744073709551615*}b", b"ab")?);
        Ok(())
    }

    // What no case has to spell.
    #[test]
    fn spells_odd_texts(rt: HostRuntime) -> Result<(), Fail> {
        assert!(rt; spells(&rt, "a\\", b"a")?);
        assert!(rt; spells(&rt, "a}b", b"ab")?);
        assert!(rt; spells(&rt, "a{12", b"a")?);
        assert!(rt; spells(&rt, "{0*a}{*b}", b"ab")?);
        assert!(rt; spells(&rt, "{2*a}b}", b"aabaab")?);
        assert!(rt; spells(&rt, "{3*a{2*b}c}", b"abbcbbc")?);
        Ok(())
    }
}
