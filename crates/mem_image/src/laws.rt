// Laws of image texts.
ghost use Rattle.mem_image.specs.Laws.{SpellsOne, BreaksOne, NotBoth, OneOfBoth, ReadBack};

/// Of every text and every module: the text spells at most one image; it spells one, or it has a first broken rule, and not
/// both; and it has at most one first broken rule.
///
/// The printed text of an image that fits a valid module, whose arguments have names that a text can have, spells that image.
///
/// So `parse_image` gives an image exactly where the text spells one, and refuses every other text at the one place; and it reads what
/// `print_image` printed as the same image.
pub fn image_texts_are_exact()
    ensures one_image { SpellsOne }
    ensures one_rule { BreaksOne }
    ensures not_both { NotBoth }
    ensures one_of_both { OneOfBoth }
    ensures read_back { ReadBack }
{}
