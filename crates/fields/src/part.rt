// Parts of the input, each with its place.
ghost use Rattle.std.specs.Prelude.{Decides};
ghost use Rattle.fields.specs.Names.{SameName};

// Some bytes of the input, and how many stand before them there.
#[derive(Clone, Copy)]
pub struct Part<'a> {
    pub at: usize,
    pub text: &'a [u8],
}

impl<'a> Part<'a> {
    // Whether these bytes are the name `known`, where the case of ASCII letters does not count.
    // One call of the library's comparison, like `is_alike` of `abnf`: each says it in the words of its own definition.
    pub fn is_name(&self, known: &[u8]) -> bool
        ensures { Decides result (SameName self.now.text.now known.now) }
    {
        self.text.eq_ignore_ascii_case(known)
    }
}

// A field: its name, and its body from behind the colon up to the CRLF that ends the field, folds as they stand.
#[derive(Clone, Copy)]
pub struct Field<'a> {
    pub name: Part<'a>,
    pub body: Part<'a>,
}
