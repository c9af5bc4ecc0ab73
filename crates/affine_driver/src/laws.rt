// What the clauses of the top call come to, as laws.
ghost use Rattle.affine_driver.specs.Headline.{StagedTextsRun};
ghost use Rattle.affine_driver.specs.Laws.{EndingsAreExact, HasOneOutput};
ghost use Rattle.affine_driver.specs.Table.{IsAsWritten};

use affine_grammar::texts_are_read_exactly;
use mem_image::image_texts_are_exact;
use order_meaning::lists_one;
use stage_output::stage_output;
use stage_reports::{one_stage, report_is_comments};

/// The bytes of a source decide the ending of a call that has read them, want of memory aside: no two endings have their
/// reasons at once, and where no refusal has its reason, the output is built, and is the only one.
pub fn endings_are_exact()
    ensures exact { EndingsAreExact }
    ensures one_output { HasOneOutput }
{
    texts_are_read_exactly();
    image_texts_are_exact();
    lists_one();
    one_stage();
}

/// What `stage` writes of a module of a text spells a valid module that runs as that one does.
pub fn staged_texts_run()
    ensures { StagedTextsRun }
{
    stage_output();
    report_is_comments();
}

/// The table of commands has these ranges and defaults, these commands are built, and these options of `stage` aren't; a source
/// has so many bytes at most.
pub fn table_is_as_written()
    ensures { IsAsWritten }
{}
