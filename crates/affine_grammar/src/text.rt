//! Whole texts.

ghost use Rattle.affine_ast.specs.declared.module.Module.{Module};
ghost use Rattle.affine_grammar.specs.GrammarFile.{File};
ghost use Rattle.affine_grammar.specs.ReadingFile.{file};
ghost use Rattle.affine_grammar.specs.Spelling.{Spells, IsRefused};
ghost use Rattle.affine_lex.specs.Tokens.{AreTokens};
ghost use Rattle.affine_lex.specs.declared.token.Token.{Token};
ghost use Rattle.readers.specs.Exactness.{Exact};
ghost use Rattle.readers.specs.Readers.{never};
ghost use Rattle.std.specs.Prelude.{◌≡◌, ◌⊎◌, ◌++◌, ◌∷◌, [], ℕ, List};

/// The reader of a file reads the grammar exactly: it gives the module that the tokens spell, and it
/// refuses a token only behind a viable prefix. Bytes that have tokens spell a module or are refused.
/// They spell at most one module, with its lines; those that spell one are refused nowhere, and others
/// at one place.
pub fn texts_are_read_exactly()
    ensures exact { Exact never File file }
    ensures decided { (source : List ℕ) (ts : List Token) (end : Token) → AreTokens source (ts ++ end ∷ []) → ((m : Module) × Spells source m) ⊎ ((line : ℕ) × ((column : ℕ) × IsRefused source line column)) }
    ensures one_module { (source : List ℕ) (m n : Module) → Spells source m → Spells source n → m ≡ n }
    ensures no_place { (source : List ℕ) (m : Module) (line column : ℕ) → Spells source m → IsRefused source line column → ⊥ }
    ensures one_place { (source : List ℕ) (line column line2 column2 : ℕ) → IsRefused source line column → IsRefused source line2 column2 → (line ≡ line2) × (column ≡ column2) }
{}
