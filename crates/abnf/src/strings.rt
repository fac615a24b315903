// Strings, where the case of ASCII letters does not count.
ghost use Rattle.std.specs.Prelude.{◌≡◌};
ghost use Rattle.abnf.specs.Strings.{alike};

// Whether two texts are the same, where the case of ASCII letters does not count.
// One call of the library's comparison, like `Part::is_name`: each says it in the words of its own definition.
pub fn is_alike(text: &[u8], known: &[u8]) -> bool
    ensures { result ≡ alike text.now known.now }
{
    text.eq_ignore_ascii_case(known)
}
