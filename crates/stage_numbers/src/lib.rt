//! The printed text of a stage spells it.
//!
//! Laws alone, upon those of `stage_texts`: the parameters of each stage are numbered as the grammar has it, its subscripts by first
//! appearance. They are so in the module of a text, a template's are so, and redirection, numbers and names keep it.
#![tactic(auto)]

ghost use Rattle.stage_numbers.specs.Numbered.{StageIsNumbered, StageIsSpelled, StageIsWritten};

/// The parameters of a stage are numbered as the grammar has it; it may be written, and its printed text spells it.
pub fn stage_is_written()
    ensures numbered { StageIsNumbered }
    ensures written { StageIsWritten }
    ensures spelled { StageIsSpelled }
{}
