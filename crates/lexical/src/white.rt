// Folding white space and comments: RFC 5322, 3.2.2.
ghost use Rattle.std.specs.Prelude.{◌≡◌};
ghost use Rattle.std.specs.Option.{option_map};
ghost use Rattle.lexical.specs.Reads.{fws, comment_rest, comment_behind, comments_behind, cfws};
ghost use Rattle.lexical.specs.Exact.{CommentExactly, CfwsExactly};

use abnf::classes::{Ctext, Quotable, skip_one};
use fields::bytes::{Class, Wsp, skip};
use fields::line::fold_start;

// How deep comments may be nested.
pub const DEEPEST: u8 = 16;

// What is left behind [FWS], taken as long as it goes.
pub fn skip_fws<'a>(s: &'a [u8]) -> &'a [u8]
    ensures { result.now ≡ fws s.now }
{
    let rest = skip::<Wsp>(s);
    match fold_start(rest) {
        Some(line) => skip::<Wsp>(line),
        None => rest,
    }
}

// What is left behind a comment whose "(" was read, nested at most `depth` deep.
// By a rule of the project it calls itself for an inner comment. One loop for comments and quoted-strings would be called
// in between.
fn comment<'a>(s: &'a [u8], depth: u8) -> Option<&'a [u8]>
    ensures { option_map (λ x. x.now) result ≡ comment_rest depth s.now }
{
    if depth == 0 {
        return None;
    }
    let mut rest = skip_fws(s);
    while let [b, tail @ ..] = rest {
        let next = match *b {
            b')' => return Some(tail),
            b'(' => comment(tail, depth - 1)?,
            b'\\' => skip_one::<Quotable>(tail)?,
            _ if Ctext::holds(*b) => tail,
            _ => return None,
        };
        rest = skip_fws(next);
    }
    None
}

// What is left behind a comment.
pub fn skip_comment<'a>(s: &'a [u8]) -> Option<&'a [u8]>
    ensures leaves { option_map (λ x. x.now) result ≡ comment_behind s.now }
    ensures exactly { CommentExactly s.now (option_map (λ x. x.now) result) }
{
    match s {
        [b'(', tail @ ..] => comment(tail, DEEPEST),
        _ => None,
    }
}

// What is left behind comments, and the [FWS] behind each.
fn skip_comments<'a>(s: &'a [u8]) -> Option<&'a [u8]>
    ensures { option_map (λ x. x.now) result ≡ comments_behind s.now }
{
    let mut rest = s;
    while let [b'(', ..] = rest {
        rest = skip_fws(skip_comment(rest)?);
    }
    Some(rest)
}

// What is left behind [CFWS], taken as long as it goes. A "(" there must open a complete comment.
pub fn skip_cfws<'a>(s: &'a [u8]) -> Option<&'a [u8]>
    ensures leaves { option_map (λ x. x.now) result ≡ cfws s.now }
    ensures exactly { CfwsExactly s.now (option_map (λ x. x.now) result) }
{
    skip_comments(skip_fws(s))
}
