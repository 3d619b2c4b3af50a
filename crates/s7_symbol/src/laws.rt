//! Laws of values. They do nothing at run time.
ghost use Rattle.s7_symbol.specs.TagLines.{TagsHaveLines};
ghost use Rattle.s7_symbol.specs.Values.{ValuesAnswer, ValuesAreOne};

/// A law: the octets that `octets_of` writes and the texts that `text_of` writes are those of values.
pub fn values_answer()
    ensures { ValuesAnswer }
{}

/// A law: a value has exactly one text. It has exactly one list of octets, apart from the unused octets of a string.
pub fn values_are_one()
    ensures { ValuesAreOne }
{}

/// A law: the line that is written for a tag is read as that tag.
pub fn tags_have_lines()
    ensures { TagsHaveLines }
{}
