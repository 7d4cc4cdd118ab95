//! Small sources, and which rules on names and declarations they break, on which lines: the definitions of `names_types` worked
//! out. Each function is a group of rows: it does nothing, and its contract says what each source of the group breaks. The sources
//! stand in `specs/`, each below its text.
#![tactic(auto)]

ghost use Rattle.names_types_rows.specs.Scalars.{Twice, Undeclared, Constants, TooEarly, OtherKind, Overflow, OneFault, CharRange};
ghost use Rattle.names_types_rows.specs.Scalars.{Constructors};
ghost use Rattle.names_types_rows.specs.Shapes.{Attributes, EntityBoundsWin, Intended, Ranks, Lengths, KnownLengths, Sizes};
ghost use Rattle.names_types_rows.specs.Procedures.{DummyAlone, IntentLater, ListedTwice, NoResult, TypedTwice, AssumedResult};
ghost use Rattle.names_types_rows.specs.Procedures.{OfTheHost, Bounds, Unread};
ghost use Rattle.names_types_rows.specs.Modules.{Life, BroughtAgain, BroughtTwice, NotAbove, ModuleVariable, PrefixOfUse};
ghost use Rattle.names_types_rows.specs.Corners.{AssumedPrefix, HiddenSize, OwnModule, NearestModule, ConstantBounds};
ghost use Rattle.names_types_rows.specs.Corners.{UndeclaredBound, PrefixBeforeUse, NoDummies, Keywords};

/// Names and constants of a main program, and what each program breaks.
pub fn scalars_rows()
    ensures twice { Twice }
    ensures undeclared { Undeclared }
    ensures constants { Constants }
    ensures too_early { TooEarly }
    ensures other_kind { OtherKind }
    ensures overflow { Overflow }
    ensures one_fault { OneFault }
    ensures char_range { CharRange }
    ensures constructors { Constructors }
{}

/// Attributes, ranks, lengths and shapes of a main program.
pub fn shapes_rows()
    ensures attributes { Attributes }
    ensures entity_bounds_win { EntityBoundsWin }
    ensures intended { Intended }
    ensures ranks { Ranks }
    ensures lengths { Lengths }
    ensures known_lengths { KnownLengths }
    ensures sizes { Sizes }
{}

/// Dummies, results, hosts and bounds of procedures.
pub fn procedures_rows()
    ensures dummy_alone { DummyAlone }
    ensures intent_later { IntentLater }
    ensures listed_twice { ListedTwice }
    ensures no_result { NoResult }
    ensures typed_twice { TypedTwice }
    ensures assumed_result { AssumedResult }
    ensures of_the_host { OfTheHost }
    ensures bounds { Bounds }
    ensures unread { Unread }
{}

/// Modules: what USE brings.
pub fn modules_rows()
    ensures life { Life }
    ensures brought_again { BroughtAgain }
    ensures brought_twice { BroughtTwice }
    ensures not_above { NotAbove }
    ensures module_variable { ModuleVariable }
    ensures prefix_of_use { PrefixOfUse }
{}

/// Corners of the rules: what a prefix says, what hides an intrinsic, which module is meant, and which rule speaks alone.
pub fn corners_rows()
    ensures assumed_prefix { AssumedPrefix }
    ensures hidden_size { HiddenSize }
    ensures own_module { OwnModule }
    ensures nearest_module { NearestModule }
    ensures constant_bounds { ConstantBounds }
    ensures undeclared_bound { UndeclaredBound }
    ensures prefix_before_use { PrefixBeforeUse }
    ensures no_dummies { NoDummies }
    ensures keywords { Keywords }
{}
