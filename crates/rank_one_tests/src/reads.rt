//! Which sources are of the first form, what the others are refused for, and which unit a source is. The forms of a text without
//! blocks and procedures are put one behind another, as nesting puts them.
use a95_base::{Line, PhaseError, SharedBytes};
use f95_lexer::read_statements;
use f95_parser::read_form;
use f95_tree::{Declaration, Ending, Form, Main, Section, Source, UnitForm};
use rank_one::{Action, Array, Factor, Statement, Unit, unit_of};
use sqlite_items::Items;
use std::alloc::{AllocError, Global};
use std::test::Fail;

/// The forms of a text that have been met.
#[derive(Drop)]
struct Straight {
    opening: Option<(Line, SharedBytes)>,
    implicit: Option<Line>,
    declarations: Items<(Line, Declaration)>,
    body: Items<f95_tree::Statement>,
}

impl Straight {
    fn take(&mut self, line: Line, form: Form) -> Result<(), AllocError> {
        match form {
            Form::Unit(unit) => {
                self.take_unit(line, unit);
                Ok(())
            }
            Form::Declaration(declaration) => {
                self.declarations.push((line, declaration.into_inner()))
            }
            Form::Block(_) => Ok(()),
            Form::Action(action) => self.body.push(f95_tree::Statement::Action(line, action)),
            Form::If(condition, action) => {
                self.body
                    .push(f95_tree::Statement::If(line, condition, action))
            }
        }
    }

    fn take_unit(&mut self, line: Line, unit: UnitForm) {
        match unit {
            UnitForm::Program(name) => self.opening = Some((line, name)),
            UnitForm::ImplicitNone => self.implicit = Some(line),
            UnitForm::Module(_) => {}
            UnitForm::Procedure(_) => {}
            UnitForm::Use(_, _) => {}
            UnitForm::Contains => {}
            UnitForm::End => {}
            UnitForm::EndUnit(_, _) => {}
        }
    }
}

fn source_of(alloc: Global, text: &[u8]) -> Result<Source, PhaseError> {
    let mut straight = Straight {
        opening: None,
        implicit: None,
        declarations: Items::new(alloc),
        body: Items::new(alloc),
    };
    let statements = read_statements(alloc, text)?;
    for statement in statements.list.as_slice() {
        let form = read_form(alloc, statement.line, statement.tokens.as_slice())?;
        straight.take(statement.line, form)?;
    }
    Ok(Source {
        modules: Items::new(alloc),
        main: Main {
            opening: straight.opening,
            section: Section {
                uses: Items::new(alloc),
                implicit: straight.implicit,
                declarations: straight.declarations,
            },
            body: straight.body,
            procedures: None,
            end: Ending {
                line: Line(1),
                word: None,
                name: None,
            },
        },
    })
}

/// What a source is refused for: phase, line and rule, or None where it is a unit.
type Told = Option<(u8, u32, u8)>;

fn told(phase: u8, error: PhaseError) -> Result<Told, Fail> {
    match error {
        PhaseError::Broken { line, rule } => Ok(Some((phase, line.0, rule.0))),
        PhaseError::Memory => Err(Fail::new("out of memory")),
    }
}

fn refused(alloc: Global, text: &[u8]) -> Result<Told, Fail> {
    let Ok(source) = source_of(alloc, text) else {
        return Err(Fail::new("refused before"));
    };
    match unit_of(alloc, source) {
        Ok(Ok(_)) => Ok(None),
        Ok(Err(error)) => told(4, error),
        Err(error) => told(3, error),
    }
}

const TEXTS: [(&str, Told); 34] = [
    ("program p\ninteger :: a(3)\na = 2\nprint *, a\nend\n", None),
    (
        "program p; integer a(3); a = &\n2 ! two\nprint *, a; end program p",
        None,
    ),
    ("integer :: a(3)\na = 2\nend program", None),
    ("end", None),
    (
        " ;;\nINTEGER::a ( 007 ),B(7)\n\nA=a+2*b-3*4*a;Print*,b,A\nEnd ;\n",
        None,
    ),
    (
        "program p\ninteger :: p(0), q(16777216)\np = 2147483647\nend",
        None,
    ),
    ("program p\nx = 1\nend\n", Some((4, 2, 19))),
    (
        "integer :: a(1)\n\na = 1; a = b\nprint *, a, c\nend",
        Some((4, 3, 19)),
    ),
    (
        "integer :: a(1), b(2)\nprint *, c\na = b\nend",
        Some((3, 3, 47)),
    ),
    ("integer :: a(1), b(2)\na = c + b\nend", Some((3, 2, 47))),
    ("program p\nimplicit none\nend", Some((3, 2, 47))),
    ("integer :: a(3), A(3)\nend", Some((3, 1, 47))),
    (
        "integer :: a(3)\ninteger :: b(2)\ninteger :: c(1), a(3)\nend",
        Some((3, 3, 47)),
    ),
    ("integer :: a(16777217)\nend", Some((3, 1, 47))),
    ("integer :: a\nend", Some((3, 1, 47))),
    ("integer :: a(3, 3)\nend", Some((3, 1, 47))),
    ("integer :: a(1:3)\nend", Some((3, 1, 47))),
    ("integer :: a(:)\nend", Some((3, 1, 47))),
    ("integer :: n(3), a(n)\nend", Some((3, 1, 47))),
    ("integer :: a(3) = 1\nend", Some((3, 1, 47))),
    ("integer, dimension(3) :: a\nend", Some((3, 1, 47))),
    ("logical :: a(3)\nend", Some((3, 1, 47))),
    ("integer :: a(3)\na = -1\nend", Some((3, 2, 47))),
    ("integer :: a(3)\na = (1)\nend", Some((3, 2, 47))),
    ("integer :: a(3)\na = 1 * (a + 1)\nend", Some((3, 2, 47))),
    ("integer :: a(3)\na = a / 2\nend", Some((3, 2, 47))),
    ("integer :: a(3)\na = 2 ** a\nend", Some((3, 2, 47))),
    ("integer :: a(3)\na = a(1)\nend", Some((3, 2, 47))),
    ("integer :: a(3)\na(1) = 1\nend", Some((3, 2, 47))),
    ("integer :: a(3)\na = 'x'\nend", Some((3, 2, 47))),
    ("integer :: a(3)\nprint *\nend", Some((3, 2, 47))),
    ("integer :: a(3)\nprint *, 1\nend", Some((3, 2, 47))),
    ("integer :: a(3)\nwrite (*, *) a\nend", Some((3, 2, 47))),
    (
        "integer :: a(3)\nx = 1\nif (.true.) a = 1\nend",
        Some((3, 3, 47)),
    ),
];

fn first_wrong(alloc: Global, rows: &[(&'static str, Told)]) -> Result<Option<&'static str>, Fail> {
    for (text, want) in rows {
        if refused(alloc, text.as_bytes())? != *want {
            return Ok(Some(*text));
        }
    }
    Ok(None)
}

#[test]
fn sources_are_units_or_refused(rt: HostRuntime) -> Result<(), Fail> {
    assert_eq!(rt; first_wrong(rt.alloc(), &TEXTS)?, None);
    Ok(())
}

/// `a = 1+1+1..`, over as many lines as a statement may have: the tree is as deep as a tree gets.
fn long_sum(alloc: Global) -> Result<Vec<u8>, AllocError> {
    let mut text = b"integer :: a(1)\na = 1".to_vec(alloc)?;
    for _ in 0..39 {
        for _ in 0..62 {
            text.extend_from_slice(b"+1")?;
        }
        text.extend_from_slice(b"&\n")?;
    }
    text.extend_from_slice(b"+1\nend")?;
    Ok(text)
}

#[test]
fn the_deepest_tree_is_read(rt: HostRuntime) -> Result<(), Fail> {
    let Ok(text) = long_sum(rt.alloc()) else {
        return Err(Fail::new("out of memory"));
    };
    assert_eq!(rt; refused(rt.alloc(), text.as_slice())?, None);
    Ok(())
}

/// Whether it prints these arrays.
fn is_print(statement: &Statement, line: u32, places: &[u32]) -> bool {
    match &statement.action {
        Action::Print { arrays } => statement.line == line && arrays.as_slice() == places,
        Action::Assign { .. } => false,
    }
}

/// Whether it is an assignment of one factor less a product of two.
fn is_difference(
    statement: &Statement,
    line: u32,
    place: u32,
    from: Factor,
    less: Factor,
    times: Factor,
) -> bool {
    let Action::Assign { target, value } = &statement.action else {
        return false;
    };
    let [addend] = value.rest.as_slice() else {
        return false;
    };
    let [factor] = addend.term.rest.as_slice() else {
        return false;
    };
    statement.line == line
        && *target == place
        && value.first.first == from
        && value.first.rest.is_empty()
        && addend.minus
        && addend.term.first == less
        && *factor == times
}

const PLACED: &[u8] =
    b"program p\ninteger :: a(3)\ninteger :: b(4), c(4)\nprint *, b, a\nb = 5 - C * b\nend";

const DECLARED: [Array; 3] = [
    Array { line: 2, extent: 3 },
    Array { line: 3, extent: 4 },
    Array { line: 3, extent: 4 },
];

/// Whether each name has become the place of its array.
fn is_placed(unit: &Unit) -> bool {
    let [print, assign] = unit.statements.as_slice() else {
        return false;
    };
    let (five, b, c) = (Factor::Number(5), Factor::Array(1), Factor::Array(2));
    unit.arrays.as_slice() == DECLARED.as_slice()
        && is_print(print, 4, &[1, 0])
        && is_difference(assign, 5, 1, five, c, b)
}

#[test]
fn names_become_places(rt: HostRuntime) -> Result<(), Fail> {
    let Ok(source) = source_of(rt.alloc(), PLACED) else {
        return Err(Fail::new("refused before"));
    };
    let Ok(Ok(unit)) = unit_of(rt.alloc(), source) else {
        return Err(Fail::new("refused"));
    };
    assert!(rt; is_placed(&unit));
    Ok(())
}
