//! Readers of the shapes of which all others are made are exact where their parts are.

ghost use Rattle.std.specs.Prelude.{◌≡◌, true, false};
ghost use Rattle.readers.specs.Exactness.{Ahead, Exact, Faithful, Items};
ghost use Rattle.readers.specs.Languages.{Both, Either, Lang, Many};
ghost use Rattle.readers.specs.Readers.{Reader, Test, bind, either, many};

/// A part, and one behind it that its value chooses.
pub trait Sequence {
    ghost Token: { Type 0 };

    ghost First: { Type 0 };

    ghost Value: { Type 0 };

    /// The tokens with which a text of the first part, or of the second, might go on.
    ghost goes: { Test Token };

    ghost then_goes: { Test Token };

    ghost first: { Lang Token First };

    ghost second: { First → Lang Token Value };

    ghost first_reader: { Reader Token First };

    ghost second_reader: { First → Reader Token Value };

    ghost first_exact: { Exact goes first first_reader };

    ghost second_exact: { (x : First) → Exact then_goes (second x) (second_reader x) };

    /// The second part begins with no token with which the first might go on.
    ghost apart: { (x : First) → Ahead then_goes goes false (second x) };
}

/// One part after the other is read exactly.
pub fn sequences_are_exact<S: Sequence>()
    ensures { Exact S.then_goes (Both S.first S.second) (bind S.first_reader S.second_reader) }
{}

/// Two parts, of which the next token tells which one stands there. The first may have no text at all.
pub trait Alternative {
    ghost Token: { Type 0 };

    ghost Value: { Type 0 };

    /// The tokens with which a text of either part might go on.
    ghost goes: { Test Token };

    /// The next token passes where the left part stands, and doesn't where the right one does.
    ghost test: { Test Token };

    ghost left: { Lang Token Value };

    ghost right: { Lang Token Value };

    ghost left_reader: { Reader Token Value };

    ghost right_reader: { Reader Token Value };

    ghost left_faithful: { Faithful goes left left_reader };

    ghost right_exact: { Exact goes right right_reader };

    ghost left_ahead: { Ahead goes test true left };

    ghost right_ahead: { Ahead goes test false right };
}

/// A choice by the next token is read exactly.
pub fn alternatives_are_exact<A: Alternative>()
    ensures { Exact A.goes (Either A.left A.right) (either A.test A.left_reader A.right_reader) }
{}

/// Items one after the other, each at the value that those before it gave.
pub trait Repetition {
    ghost Token: { Type 0 };

    ghost Value: { Type 0 };

    /// The tokens that begin an item.
    ghost goes: { Test Token };

    /// The tokens with which an item might go on.
    ghost stays: { Test Token };

    /// The tokens that can't stand behind the last item, both of these among them.
    ghost after: { Test Token };

    ghost item: { Value → Lang Token Value };

    ghost item_reader: { Value → Reader Token Value };

    ghost items: { Items goes stays item item_reader };

    ghost begins: { (t : _) → after t ≡ false → goes t ≡ false };

    ghost goes_on: { (t : _) → after t ≡ false → stays t ≡ false };
}

/// Items one after the other, any number of them, are read exactly.
pub fn repetitions_are_exact<R: Repetition>()
    ensures { (b : R.Value) → Exact R.after (Many R.item b) (many R.goes R.item_reader b) }
{}
