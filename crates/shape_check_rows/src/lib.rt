//! Small sources, and which rules on types, ranks and shapes they break, on which lines: the definitions of `shape_check` worked
//! out. Each function is a group of rows: it does nothing, and its contract says what each source of the group breaks. The sources
//! stand in `specs/`, each below its text.
#![tactic(auto)]

ghost use Rattle.shape_check_rows.specs.Operands.{Fits, OtherKinds, OtherRanks, OtherExtents, NoFurther, KindsFirst};
ghost use Rattle.shape_check_rows.specs.Operands.{UnknownExtents, Strides, DeclaredBounds, Conditions, Counters};
ghost use Rattle.shape_check_rows.specs.Intrinsics.{GoodArguments, OtherArguments, Dims, ArgumentRanks, ArgumentExtents, Results};
ghost use Rattle.shape_check_rows.specs.Intrinsics.{Shapes, Allocated, SixRanks, Hidden};
ghost use Rattle.shape_check_rows.specs.Designators.{GoodPlaces, OtherSubscripts, OtherCuts, OtherBounds, WrongReference};
ghost use Rattle.shape_check_rows.specs.Designators.{Allocation, Stores, StoredItems, ValuesOfFunctions};
ghost use Rattle.shape_check_rows.specs.Blocks.{GoodCases, OtherCases, IllTypedCase, SharedValues, GoodMasks, OtherMasks};
ghost use Rattle.shape_check_rows.specs.Blocks.{GoodIndices, OtherIndices, HiddenIndex, StoredIndex, ManyIndices, CutTarget};
ghost use Rattle.shape_check_rows.specs.Values.{GoodValues, OtherValues, OtherCounts, NoRounds, InitialValues, ReadItems};
ghost use Rattle.shape_check_rows.specs.Values.{ElementalFunction, WrongCalls};
ghost use Rattle.shape_check_rows.specs.Units.{Brought, First, Shifted, Functions, NoFunction};

/// Operators, assignments and control of a main program, and what each program breaks.
pub fn operands_rows()
    ensures fits { Fits }
    ensures other_kinds { OtherKinds }
    ensures other_ranks { OtherRanks }
    ensures other_extents { OtherExtents }
    ensures no_further { NoFurther }
    ensures kinds_first { KindsFirst }
    ensures unknown_extents { UnknownExtents }
    ensures strides { Strides }
    ensures declared_bounds { DeclaredBounds }
    ensures conditions { Conditions }
    ensures counters { Counters }
{}

/// References to intrinsic functions, and what each program breaks.
pub fn intrinsics_rows()
    ensures good_arguments { GoodArguments }
    ensures other_arguments { OtherArguments }
    ensures dims { Dims }
    ensures argument_ranks { ArgumentRanks }
    ensures argument_extents { ArgumentExtents }
    ensures results { Results }
    ensures shapes { Shapes }
    ensures allocated { Allocated }
    ensures six_ranks { SixRanks }
    ensures hidden { Hidden }
{}

/// Subscripts, substrings, allocation and stores, and what each program breaks.
pub fn designators_rows()
    ensures good_places { GoodPlaces }
    ensures other_subscripts { OtherSubscripts }
    ensures other_cuts { OtherCuts }
    ensures other_bounds { OtherBounds }
    ensures wrong_reference { WrongReference }
    ensures allocation { Allocation }
    ensures stores { Stores }
    ensures stored_items { StoredItems }
    ensures values_of_functions { ValuesOfFunctions }
{}

/// Cases, masks and indices, and what each program breaks.
pub fn blocks_rows()
    ensures good_cases { GoodCases }
    ensures other_cases { OtherCases }
    ensures ill_typed_case { IllTypedCase }
    ensures shared_values { SharedValues }
    ensures good_masks { GoodMasks }
    ensures other_masks { OtherMasks }
    ensures good_indices { GoodIndices }
    ensures other_indices { OtherIndices }
    ensures hidden_index { HiddenIndex }
    ensures stored_index { StoredIndex }
    ensures many_indices { ManyIndices }
    ensures cut_target { CutTarget }
{}

/// Constructors, initial values, items of READ and calls, and what each program breaks.
pub fn values_rows()
    ensures good_values { GoodValues }
    ensures other_values { OtherValues }
    ensures other_counts { OtherCounts }
    ensures no_rounds { NoRounds }
    ensures initial_values { InitialValues }
    ensures read_items { ReadItems }
    ensures elemental_function { ElementalFunction }
    ensures wrong_calls { WrongCalls }
{}

/// Small sources and their typed units.
pub fn units_rows()
    ensures brought { Brought }
    ensures first { First }
    ensures shifted { Shifted }
    ensures functions { Functions }
    ensures no_function { NoFunction }
{}
