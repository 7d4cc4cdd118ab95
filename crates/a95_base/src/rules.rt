//! The rules of refusal by name. A number is what the product prints: `Rule::FILE_TOO_LONG` is P1. The same names in lower case
//! stand in `specs/Rules.antt`, and docs/REFUSALS.md says when each rule is broken.

use crate::source::Rule;

impl Rule {
    /// P1. The file has more than 2^20 bytes.
    pub const FILE_TOO_LONG: Rule = Rule(1);

    /// P2. A byte outside comments and texts belongs to no token.
    pub const STRAY_BYTE: Rule = Rule(2);

    /// P3. A line has more than 132 characters.
    pub const LINE_TOO_LONG: Rule = Rule(3);

    /// P4. A line is the 40th continuation line of a statement.
    pub const TOO_MANY_CONTINUATIONS: Rule = Rule(4);

    /// P5. A text isn't closed on its line, and no `&` ends the line.
    pub const OPEN_TEXT: Rule = Rule(5);

    /// P6. A continuation finds no further line, or an `&` stands where none may.
    pub const BROKEN_CONTINUATION: Rule = Rule(6);

    /// P7. A word has more than 31 characters.
    pub const WORD_TOO_LONG: Rule = Rule(7);

    /// P8. A number exceeds 2147483647.
    pub const NUMBER_TOO_GREAT: Rule = Rule(8);

    /// P9. Digits are directly followed by a letter, an underscore, or a point that begins no dotted word.
    pub const NUMBER_RUNS_ON: Rule = Rule(9);

    /// P10. A point, letters and a point are no dotted word.
    pub const UNKNOWN_DOTTED_WORD: Rule = Rule(10);

    /// P11. The tokens are of no form, and the first isn't a left-out word.
    pub const NO_FORM: Rule = Rule(11);

    /// P12. The tokens are of no form, and the first is a left-out word.
    pub const LEFT_OUT_FORM: Rule = Rule(12);

    /// P13. More than 64 brackets are open at one token.
    pub const TOO_MANY_BRACKETS: Rule = Rule(13);

    /// P14. The statements up to this one begin no nesting.
    pub const WRONG_NESTING: Rule = Rule(14);

    /// P15. A name at an end, ELSE or CASE differs from that of its opening.
    pub const WRONG_CONSTRUCT_NAME: Rule = Rule(15);

    /// P16. More than 64 blocks are open.
    pub const TOO_MANY_BLOCKS: Rule = Rule(16);

    /// P17. The file ends before its main program ends.
    pub const NO_END: Rule = Rule(17);

    /// P18. A name has two declarations in one scope.
    pub const DECLARED_TWICE: Rule = Rule(18);

    /// P19. A name has no declaration and is no intrinsic.
    pub const UNDECLARED: Rule = Rule(19);

    /// P20. Attributes don't go together.
    pub const WRONG_ATTRIBUTES: Rule = Rule(20);

    /// P21. A dummy has no declaration or no INTENT, or INTENT stands on something else.
    pub const WRONG_DUMMY: Rule = Rule(21);

    /// P22. A constant expression is needed, and this is none or of another type.
    pub const NOT_CONSTANT: Rule = Rule(22);

    /// P23. A constant expression has a fault or leaves 32 bits.
    pub const CONSTANT_FAULTS: Rule = Rule(23);

    /// P24. A declared rank exceeds 7.
    pub const RANK_TOO_GREAT: Rule = Rule(24);

    /// P25. A length is outside 0 to 255, or `*` stands where it may not.
    pub const WRONG_LENGTH: Rule = Rule(25);

    /// P26. A declared shape that is constant has more than 2^24 elements.
    pub const SHAPE_TOO_LARGE: Rule = Rule(26);

    /// P27. USE names no module above, or ONLY a name that it doesn't have.
    pub const UNKNOWN_USE: Rule = Rule(27);

    /// P28. A procedure names a variable of its host that it doesn't declare itself.
    pub const HOST_VARIABLE: Rule = Rule(28);

    /// P29. A function's result isn't declared as a result may be.
    pub const WRONG_RESULT: Rule = Rule(29);

    /// P30. A bound in a procedure is no specification expression.
    pub const NO_SPECIFICATION_EXPRESSION: Rule = Rule(30);

    /// P31. Kinds or ranks don't fit where they stand.
    pub const WRONG_KIND_OR_RANK: Rule = Rule(31);

    /// P32. Constant extents that must conform differ.
    pub const EXTENTS_DIFFER: Rule = Rule(32);

    /// P33. The arguments of an intrinsic aren't as it asks for, or its result has rank above 7.
    pub const WRONG_INTRINSIC_ARGUMENTS: Rule = Rule(33);

    /// P34. Subscripts, a substring, or what ALLOCATE or DEALLOCATE names isn't as the variable asks for.
    pub const WRONG_DESIGNATOR: Rule = Rule(34);

    /// P35. A store names something that it may not store into.
    pub const WRONG_STORE: Rule = Rule(35);

    /// P36. A CASE value doesn't fit, or two ranges share a value.
    pub const WRONG_CASE: Rule = Rule(36);

    /// P37. A WHERE mask isn't a LOGICAL array, or an assigned variable in it isn't an array of its rank.
    pub const WRONG_MASK: Rule = Rule(37);

    /// P38. A FORALL header or body uses an index where it may not, or the left side is no array store.
    pub const WRONG_FORALL: Rule = Rule(38);

    /// P39. Constructor values differ in kind, or in length.
    pub const WRONG_CONSTRUCTOR: Rule = Rule(39);

    /// P40. A READ item isn't INTEGER.
    pub const WRONG_READ_ITEM: Rule = Rule(40);

    /// P41. The arguments of a user procedure don't match, or the name isn't of that sort of procedure.
    pub const WRONG_ARGUMENTS: Rule = Rule(41);

    /// P42. The actual of an OUT or INOUT dummy may not be stored into.
    pub const WRONG_OUT_ARGUMENT: Rule = Rule(42);

    /// P43. A function is not PURE or has a dummy other than IN, or a pure procedure does what none may.
    pub const NOT_PURE: Rule = Rule(43);

    /// P44. An ELEMENTAL procedure has an array dummy or result or RECURSIVE, or a subroutine an array actual.
    pub const NOT_ELEMENTAL: Rule = Rule(44);

    /// P45. A procedure without RECURSIVE references itself.
    pub const NOT_RECURSIVE: Rule = Rule(45);

    /// P46. Constant lengths of an actual and its dummy differ.
    pub const LENGTHS_DIFFER: Rule = Rule(46);

    /// P47. The source isn't of the form that is built so far.
    pub const NOT_YET: Rule = Rule(47);
}
