//! Worked numbers of the meanings: small modules whose values, memories and faults the definitions are computed on.
//!
//! Each function is a list of numbers; it does nothing. The crate stands on `direct_meaning` and `prompt_semantics`.
#![tactic(auto)]

ghost use Rattle.meaning_numbers.specs.Worked.{
  Quotients,
  LoopTurns,
  Raised,
  NinthTurn,
  EvenTurns,
  WrappedSum,
  LeastByMinusOne,
  SeveralResults,
  Waited,
  Faulted,
  Strided,
  Works,
  StagedRaise,
  StagedPart,
};

/// Values of expressions, turns of loops, the direct meaning of small modules and their work.
pub fn direct_numbers()
    ensures quotients { Quotients }
    ensures loop_turns { LoopTurns }
    ensures raised { Raised }
    ensures ninth_turn { NinthTurn }
    ensures even_turns { EvenTurns }
    ensures wrapped_sum { WrappedSum }
    ensures least_by_minus_one { LeastByMinusOne }
    ensures several_results { SeveralResults }
    ensures works { Works }
{}

/// The prompt meaning of modules with one transfer, its end, its numbers and each fault; and of modules with copies of their memrefs.
pub fn prompt_numbers()
    ensures waited { Waited }
    ensures faulted { Faulted }
    ensures strided { Strided }
    ensures staged_raise { StagedRaise }
    ensures staged_part { StagedPart }
{}
