//! Where the step at each row leads.

ghost use Rattle.loop_laws.specs.Rows.{IntStep, TextStep, StoreIntStep, StoreTextStep, GrowStep, FreeStep, NewStep, TempStep};
ghost use Rattle.loop_laws.specs.Rows.{CopyStep, MarkStep, NewTextStep, TempTextStep, CopyTextStep, SameIntsStep, SameTextsStep};
ghost use Rattle.loop_laws.specs.Rows.{StopStep, FaultStep, SourceLineStep, PutIntStep, PutLogStep, PutTextStep, WriteStep};
ghost use Rattle.loop_laws.specs.Rows.{SkipStep, CallStep, ReturnStep, LastBraceStep, NoLineStep, LeavesToCaller, LeavesProgram};

/// `iN = ..;` and `sN = ..;`, whatever stands on the right.
pub fn integers_and_texts()
    ensures int { IntStep }
    ensures text { TextStep }
{}

/// A new block of integers or of texts has the next number, and the reference leads to it.
pub fn new_blocks()
    ensures new { NewStep }
    ensures temporary { TempStep }
    ensures copy { CopyStep }
    ensures mark { MarkStep }
    ensures new_text { NewTextStep }
    ensures temporary_text { TempTextStep }
    ensures copy_text { CopyTextStep }
{}

/// Rows that change or free a block, and those that let a reference lead where another one does.
pub fn stores_and_references()
    ensures store_int { StoreIntStep }
    ensures store_text { StoreTextStep }
    ensures grow { GrowStep }
    ensures free { FreeStep }
    ensures same_ints { SameIntsStep }
    ensures same_texts { SameTextsStep }
{}

/// Records of the output and of the input, the line of the source, and what ends the program.
pub fn records_and_ends()
    ensures put_int { PutIntStep }
    ensures put_log { PutLogStep }
    ensures put_text { PutTextStep }
    ensures write { WriteStep }
    ensures skip { SkipStep }
    ensures source_line { SourceLineStep }
    ensures stop { StopStep }
    ensures fault { FaultStep }
{}

/// A call begins a turn. Where it is left its caller goes on, and the blocks that it made are freed; the main function
/// leaves the program.
pub fn calls()
    ensures call { CallStep }
    ensures ret { ReturnStep }
    ensures last_brace { LastBraceStep }
    ensures no_line { NoLineStep }
    ensures to_caller { LeavesToCaller }
    ensures out_of_program { LeavesProgram }
{}
