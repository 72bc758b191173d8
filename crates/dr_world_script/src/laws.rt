//! Laws of scripts.
ghost use Rattle.dr_world_script.specs.Laws.{LinesAreInOrder, LinesTellNone, LinesTellSteps};
ghost use Rattle.dr_world_script.specs.Laws.{OneActForALine, OneScriptForAText};

/// A line tells one thing, and a text is the script of one list.
pub fn a_script_has_one_reading()
    ensures line { OneActForALine }
    ensures text { OneScriptForAText }
{}

/// What stands at a place of a script is told by the line that is found for it.
pub fn lines_are_in_order()
    ensures { LinesAreInOrder }
{}

/// Lines that tell steps, a change of plan and what another product writes and does, and lines that
/// tell nothing.
pub fn lines_tell_steps()
    ensures steps { LinesTellSteps }
    ensures none { LinesTellNone }
{}
