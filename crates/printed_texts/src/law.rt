//! The laws of printing and reading.

ghost use Rattle.affine_ast.specs.Spelling.{spelling};
ghost use Rattle.affine_ast.specs.declared.module.Module.{Module};
ghost use Rattle.affine_grammar.specs.Spelling.{Spells};
ghost use Rattle.printed_texts.specs.Comments.{AreOnOneLine, comment_lines};
ghost use Rattle.printed_texts.specs.Lines.{AreSameButLines};
ghost use Rattle.printed_texts.specs.Nesting.{ModuleNests};
ghost use Rattle.printed_texts.specs.Writable.{MayBeWritten};
ghost use Rattle.std.specs.Prelude.{◌≡◌, ◌<◌, ◌^◌, ◌++◌, ℕ, List, length, All};

/// The printed text of every module that may be written spells it, with the lines of its own and behind any
/// lines of comments: another module, the same but for lines.
///
/// `MayBeWritten` speaks of the module alone: names are names of the grammar, numbers are in their ranges, and
/// the limits of the grammar are met in the printed spelling. A pass that makes modules shows this of them, and
/// nothing about texts. Each module that a text spells may be written, but for a negated 0 under the nesting
/// limit, which `ModuleNests` leaves out.
pub fn written_texts_spell()
    ensures given { (source : List ℕ) (m : Module) → length source < 2 ^ 64 → Spells source m → ModuleNests m → MayBeWritten m }
    ensures spelled { (m : Module) (comments : List (List ℕ)) → MayBeWritten m → All AreOnOneLine comments → (n : Module) × (AreSameButLines m n × Spells (comment_lines comments ++ spelling m) n) }
{}

/// Where a text spells a module, the printed text of the module spells it again, with the lines of its
/// own: another module, the same but for lines, whose printed text is the same.
///
/// `ModuleNests` asks that each expression is printed with at most 128 parentheses and negations inside
/// one another, or negates no 0. A text that spells a negated 0 as `--0` nests one level less than its
/// printed text, `-(0)`: 129 signs and a `0` are an expression of a text, and what is printed for it, 128
/// signs and `(0)`, is none. Each expression of a text that negates no 0 is printed within the limit.
///
/// The length of the text is bounded since std's `decimal` writes 64 digits at most: past the bound a map
/// could have more parameters than it numbers.
pub fn printed_texts_spell()
    ensures again { (source : List ℕ) (m : Module) → length source < 2 ^ 64 → Spells source m → ModuleNests m → (n : Module) × (AreSameButLines m n × Spells (spelling m) n) }
    ensures stable { (m n : Module) → AreSameButLines m n → spelling m ≡ spelling n }
{}
