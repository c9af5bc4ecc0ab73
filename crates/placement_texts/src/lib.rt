//! The texts of one placement: how a module is rewritten where one memref is staged at one loop, how the list of actions of
//! the rewritten module comes from that of the module, and that it is valid.
//!
//! `specs/Template` has the template of copy loops and of transfers, `specs/Spots` the rewriting of a text. A plan is the fold of
//! it over its placements. The laws are static: no memory is in them.
#![tactic(auto)]

ghost use Rattle.placement_texts.specs.Fold.{AllTextsAgree};
ghost use Rattle.placement_texts.specs.Law.{CarriesOver, TextsAgree};
ghost use Rattle.placement_texts.specs.Normal.{NormalFits, NormalMeansTheSame, NormalStaysValid};
ghost use Rattle.placement_texts.specs.Valid.{PassingIsApart, StagedIsValid, ValidIsApart};

/// The actions of a text and those of the text in which a memref is staged are two readings of one list of parts.
pub fn texts_agree()
    ensures { TextsAgree }
{}

/// What the loop of another placement needs holds there in the staged text too.
pub fn carries_over()
    ensures { CarriesOver }
{}

/// Where all placements of a plan are staged one after the other, each text on the way and the next one are such readings.
pub fn all_texts_agree()
    ensures { AllTextsAgree }
{}

/// From a valid module before and the tests on the module in which one more memref is staged, that module is valid.
pub fn staged_is_valid()
    ensures { StagedIsValid }
{}

/// In a valid module an access of a memref of another name goes to none of an argument's slow places.
pub fn valid_is_apart()
    ensures { ValidIsApart }
{}

/// Where each text on the way passes, the premise on accesses of other memrefs is met.
pub fn passing_is_apart()
    ensures { PassingIsApart }
{}

/// Subscripts whose dimensions are numbered by first appearance mean the same.
pub fn normal_means_the_same()
    ensures { NormalMeansTheSame }
{}

/// They stay as V7 asks for.
pub fn normal_fits()
    ensures { NormalFits }
{}

/// The rules V1, V4, V8 and V9 hold of them where they hold of the access.
pub fn normal_stays_valid()
    ensures { NormalStaysValid }
{}
