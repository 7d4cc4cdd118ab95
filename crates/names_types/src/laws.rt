//! Laws of scopes and of rules: each is the contract of a function that does nothing.
ghost use Rattle.names_types.specs.Laws.{ListedAreBroken, FirstIsLeast, NoneIsUnbroken, EachDeclaredOnce, HostIsDeclared};
ghost use Rattle.names_types.specs.Nodes.{Literals, References, Brackets, Constructors, Signs, Operations, WholeNames};
ghost use Rattle.names_types.specs.Nodes.{AppliedNames, Substrings};
ghost use Rattle.names_types.specs.StatementNodes.{Actions, Ifs, IfBlocks, Selects, Loops, Wheres, Foralls};

/// The list of a source's breaks has all that it breaks, and nothing else.
pub fn listed_are_broken()
    ensures { ListedAreBroken }
{}

/// The first break of the list is the least that the source breaks; where there is none, it breaks nothing.
pub fn first_is_least()
    ensures least { FirstIsLeast }
    ensures unbroken { NoneIsUnbroken }
{}

/// Each node of an expression is seen as it is written.
pub fn expressions_as_written()
    ensures literals { Literals }
    ensures references { References }
    ensures brackets { Brackets }
    ensures constructors { Constructors }
    ensures signs { Signs }
    ensures operations { Operations }
    ensures whole { WholeNames }
    ensures applied { AppliedNames }
    ensures substrings { Substrings }
{}

/// The names of each statement are those that it names itself, and those of what stands in it.
pub fn statements_as_written()
    ensures actions { Actions }
    ensures ifs { Ifs }
    ensures if_blocks { IfBlocks }
    ensures selects { Selects }
    ensures loops { Loops }
    ensures wheres { Wheres }
    ensures foralls { Foralls }
{}

/// Where no name is declared twice, each scope declares each of its names once.
pub fn each_declared_once()
    ensures { EachDeclaredOnce }
{}

/// A variable of the host isn't undeclared.
pub fn host_is_declared()
    ensures { HostIsDeclared }
{}
