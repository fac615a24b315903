// Whether what a parameter asks for is required.
ghost use Rattle.std.specs.Prelude.{◌≡◌};
ghost use Rattle.options.specs.Reads.{importance_of, is_required};

#[derive(Clone, Copy, PartialEq, Eq, Debug)]
pub enum Importance {
    Required,
    Optional,
}

impl Importance {
    pub(crate) fn is_required(self) -> bool
        ensures { result ≡ is_required self }
    {
        self == Importance::Required
    }
}

// The importance that a word says. The case of its letters does not count.
// A TryFrom would be no plainer: it wants an error that says nothing, and the one call drops it.
pub(crate) fn importance_of(word: &[u8]) -> Option<Importance>
    ensures { result ≡ importance_of word.now }
{
    if word.eq_ignore_ascii_case(b"required") {
        return Some(Importance::Required);
    }
    if word.eq_ignore_ascii_case(b"optional") {
        return Some(Importance::Optional);
    }
    None
}
