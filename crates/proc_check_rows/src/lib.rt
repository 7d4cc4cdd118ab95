//! Small sources, and which rules on calls and procedures they break, on which lines: the definitions of `proc_check` worked out.
//! Each function is a group of rows: it does nothing, and its contract says what each source of the group breaks. The sources stand
//! in `specs/`, each below its text.
#![tactic(auto)]

ghost use Rattle.proc_check_rows.specs.Arguments.{Numbers, Kinds, Elementals, Outs, Sections, Lengths};
ghost use Rattle.proc_check_rows.specs.Procedures.{Functions, Transfers, ScalarsAlone, Recursions};

/// Arguments of calls, and what each source breaks.
pub fn arguments_rows()
    ensures numbers { Numbers }
    ensures kinds { Kinds }
    ensures elementals { Elementals }
    ensures outs { Outs }
    ensures sections { Sections }
    ensures lengths { Lengths }
{}

/// Prefixes of procedures, and what each source breaks.
pub fn procedures_rows()
    ensures functions { Functions }
    ensures transfers { Transfers }
    ensures scalars { ScalarsAlone }
    ensures recursions { Recursions }
{}
