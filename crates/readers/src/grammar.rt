//! What an exact reader says of whole texts.

ghost use Rattle.std.specs.Prelude.{◌≡◌, ◌⊎◌, List, []};
ghost use Rattle.readers.specs.Exactness.{Exact};
ghost use Rattle.readers.specs.Languages.{Lang};
ghost use Rattle.readers.specs.Places.{IsPlace};
ghost use Rattle.readers.specs.Readers.{Got, Reader, Stop, never};

/// A language of whole texts with a reader of it. No text goes on with a token behind it.
pub trait Grammar {
    ghost Token: { Type 0 };

    ghost Value: { Type 0 };

    ghost language: { Lang Token Value };

    ghost reader: { Reader Token Value };

    ghost exact: { Exact never language reader };
}

/// What holds of each list of tokens, by what the reader answers on it. A text is read to the end, and it
/// spells one value. Any other list has one place of refusal: the tokens before it are a viable prefix,
/// and with the one that stands there they are none. The place is where the reader stops, or behind the
/// text that it read, and at the end where the list is a prefix of a text.
pub fn whole_texts_are_exact<G: Grammar>()
    ensures spelled { (ts : List G.Token) (x : G.Value) → G.reader ts ≡ Got x [] → G.language ts x }
    ensures read { (ts : List G.Token) (x : G.Value) → G.language ts x → G.reader ts ≡ Got x [] }
    ensures stop { (ts rest : List G.Token) → G.reader ts ≡ Stop rest → IsPlace G.language ts rest }
    ensures left { (ts rest : List G.Token) (x : G.Value) → G.reader ts ≡ Got x rest → IsPlace G.language ts rest }
    ensures decided { (ts : List G.Token) → ((x : G.Value) × G.language ts x) ⊎ ((rest : List G.Token) × IsPlace G.language ts rest) }
    ensures one_value { (ts : List G.Token) (x y : G.Value) → G.language ts x → G.language ts y → x ≡ y }
    ensures one_place { (ts rest rest2 : List G.Token) → IsPlace G.language ts rest → IsPlace G.language ts rest2 → rest ≡ rest2 }
    ensures no_place { (ts rest : List G.Token) (x : G.Value) → G.language ts x → IsPlace G.language ts rest → rest ≡ [] }
{}
