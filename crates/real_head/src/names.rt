// Names that stand in a line.
ghost use Rattle.std.specs.Prelude.{◌≡◌, true};
ghost use Rattle.text.specs.Texts.{every};
ghost use Rattle.text_words.specs.Words.{words_of};
ghost use Rattle.real.specs.Form.{is_name};

// What follows .variables: each word of it is a name.
#[derive(Clone, Copy)]
pub struct NameLine<'a> {
    pub line: &'a [u8],
    pub ghost are_names: { every is_name (words_of line.now) ≡ true },
}
