//! Statements that are of a form and statements that aren't, by table.

use crate::shown::put_right_side;
use a95_base::{Bytes, Line, PhaseError, SharedBytes};
use f95_lexer::{Mark, Token, read_statements};
use f95_parser::read_form;
use std::alloc::Global;
use std::test::Fail;

/// The rule that the first statement breaks, 0 where it is of a form, and 99 where there is none.
fn rule_of(alloc: Global, text: &str) -> Result<u8, PhaseError> {
    let statements = read_statements(alloc, text.as_bytes())?;
    match statements.list.as_slice() {
        [] => Ok(99),
        [first, ..] => match read_form(alloc, first.line, first.tokens.as_slice()) {
            Ok(_) => Ok(0),
            Err(PhaseError::Broken { rule, .. }) => Ok(rule.0),
            Err(PhaseError::Memory) => Err(PhaseError::Memory),
        },
    }
}

/// The number of the first row whose statement breaks another rule than the one beside it.
fn first_wrong(alloc: Global, rows: &[(&str, u8)]) -> Result<Option<usize>, PhaseError> {
    for (number, (text, rule)) in rows.iter().enumerate() {
        if rule_of(alloc, text)? != *rule {
            return Ok(Some(number));
        }
    }
    Ok(None)
}

const UNITS: [(&str, u8); 34] = [
    ("program p", 0),
    ("program", 11),
    ("module m", 0),
    ("end", 0),
    ("end program", 0),
    ("endprogram p", 0),
    ("end module m", 0),
    ("end subroutine s", 0),
    ("endfunction", 0),
    ("end program p q", 11),
    ("use m", 0),
    ("use m, only :", 0),
    ("use m, only : a, b", 0),
    ("use m, only a", 11),
    ("implicit none", 0),
    ("implicit integer", 11),
    ("contains", 0),
    ("contains x", 11),
    ("subroutine s", 0),
    ("subroutine s()", 0),
    ("subroutine s(a, b)", 0),
    ("subroutine s(a, 1)", 11),
    ("function f()", 0),
    ("function f", 11),
    ("function f(x) result(y)", 0),
    ("function f(x) result y", 11),
    ("recursive pure integer function f(x)", 0),
    ("integer recursive function f(x)", 0),
    ("pure pure function f(x)", 11),
    ("integer logical function f(x)", 11),
    ("elemental subroutine s(x)", 0),
    ("integer subroutine s(x)", 11),
    ("character(len=5) function f()", 0),
    ("interface", 12),
];

const DECLARATIONS: [(&str, u8); 40] = [
    ("integer x", 0),
    ("integer :: x", 0),
    ("integer x, y(3)", 0),
    ("integer x = 1", 11),
    ("integer :: x = 1, y", 0),
    ("integer, parameter :: n = 2", 0),
    ("integer, parameter n", 11),
    ("integer, allocatable, dimension(:, :) :: a", 0),
    ("integer, dimension(1:2, 3, 0:) :: a", 0),
    ("integer, dimension() :: a", 11),
    ("integer, dimension(1:2:3) :: a", 11),
    ("integer, intent(in) :: a(:)", 0),
    ("integer, intent(out) :: a", 0),
    ("integer, intent(inout) :: a", 0),
    ("integer, intent(in out) :: a", 0),
    ("integer, intent(out in) :: a", 11),
    ("integer, intent(in), intent(in) :: a", 0),
    ("integer, pointer :: a", 11),
    ("logical b", 0),
    ("character c", 0),
    ("character*5 c", 0),
    ("character*(5) c", 11),
    ("character(5) c", 0),
    ("character(n + 1) :: c", 0),
    ("character(len=n) :: c", 0),
    ("character(len) :: c", 0),
    ("character(*) c", 0),
    ("character(len=*), intent(in) :: c", 0),
    ("character(kind=1) :: c", 11),
    ("character() :: c", 11),
    ("integer, :: x", 11),
    ("integer", 11),
    ("integer ::", 11),
    ("integer a(1)(2:3)", 11),
    ("integer :: a()", 11),
    ("integer :: if", 11),
    ("integer :: then, while, only, real", 0),
    ("real :: x", 12),
    ("complex z", 12),
    ("double precision d", 12),
];

const ACTIONS: [(&str, u8); 60] = [
    ("a = 1", 0),
    ("a(1) = 1", 0),
    ("a(1:2) = 1", 0),
    ("a(1:2)(3:4) = 'x'", 0),
    ("a(1:2)(:) = 'x'", 0),
    ("a(1:2)(3) = 'x'", 11),
    ("a(1)(2:3)(4:5) = 'x'", 11),
    ("a(::2, :, 1:, :2, 1:2:3, 1::3) = 0", 0),
    ("a(1: :3) = 0", 0),
    ("a(1:2:) = 0", 11),
    ("a(1:2:3:4) = 0", 11),
    ("a(i = 1) = 0", 0),
    ("a() = f()", 0),
    ("a(,) = 0", 11),
    ("(a) = 1", 11),
    ("a + b = 1", 11),
    ("a = b = c", 11),
    ("a =", 11),
    ("= a", 11),
    ("real = 1", 0),
    ("data(1) = 2", 0),
    ("goto 10", 12),
    ("go to 10", 12),
    ("foo bar", 11),
    ("call s", 0),
    ("call s()", 0),
    ("call s(1, x = 2)", 0),
    ("call s(1:2)", 11),
    ("call s(x = )", 11),
    ("call", 11),
    ("call s(1) x", 11),
    ("allocate(a(3))", 0),
    ("allocate(a(3, 0:n), b(1))", 0),
    ("allocate(a)", 11),
    ("allocate(a(:))", 11),
    ("allocate(a(1:))", 11),
    ("deallocate(a, b)", 0),
    ("deallocate(a(1))", 11),
    ("deallocate()", 11),
    ("print *", 0),
    ("print *, a, b + 1", 0),
    ("print * a", 11),
    ("print a", 11),
    ("print *,", 11),
    ("write(*, *)", 0),
    ("write(*, *) a, 'x'", 0),
    ("write(*, *), a", 11),
    ("write(6, *) a", 11),
    ("read *", 0),
    ("read *, a, b(2)", 0),
    ("read *, a + 1", 11),
    ("read(*, *) a", 0),
    ("stop", 0),
    ("stop 1", 0),
    ("stop 'x'", 0),
    ("stop .true.", 11),
    ("return", 0),
    ("continue", 0),
    ("exit", 0),
    ("cycle loop", 0),
];

const BLOCKS: [(&str, u8); 66] = [
    ("if (x) then", 0),
    ("n: if (x) then", 0),
    ("if (x) then n", 11),
    ("if (x) then = 1", 0),
    ("if (x) then(1) = 2", 0),
    ("n: if (x) then = 1", 11),
    ("if (x) a = 1", 0),
    ("if (x) call s", 0),
    ("if (x) print *, 1", 0),
    ("if (x) stop", 0),
    ("if (x) exit", 0),
    ("if (x) where (m) a = 1", 0),
    ("if (x) forall (i = 1:2) a(i) = 1", 0),
    ("if (x) if (y) a = 1", 11),
    ("if (x) integer :: y", 11),
    ("if (x)", 11),
    ("if (x, y) a = 1", 11),
    ("if x then", 11),
    ("else", 0),
    ("else n", 0),
    ("else if (x) then", 0),
    ("elseif (x) then n", 0),
    ("else if (x)", 11),
    ("end if", 0),
    ("endif n", 0),
    ("select case (x)", 0),
    ("n: selectcase (x)", 0),
    ("select (x)", 11),
    ("case (1)", 0),
    ("case (1, 2:3, :4, 5:) n", 0),
    ("case (:)", 11),
    ("case ()", 11),
    ("case (1:2:3)", 11),
    ("case default", 0),
    ("case default n", 0),
    ("case (default)", 0),
    ("case default(1)", 11),
    ("end select n", 0),
    ("do", 0),
    ("n: do", 0),
    ("do i = 1, 2", 0),
    ("do, i = 1, 2, 3", 0),
    ("do i = 1", 11),
    ("do i = 1, 2, 3, 4", 11),
    ("do a(1) = 1, 2", 11),
    ("do while (x)", 0),
    ("do, while (x)", 0),
    ("do while = 1, 2", 0),
    ("do, while = 1, 2", 0),
    ("while: do while (while)", 0),
    ("do while x", 11),
    ("enddo n", 0),
    ("where (m)", 0),
    ("where (m) a = 1", 0),
    ("where (m) call s", 11),
    ("else where", 0),
    ("elsewhere (m)", 0),
    ("elsewhere n", 11),
    ("n: where (m)", 11),
    ("end where", 0),
    ("end where n", 11),
    ("forall (i = 1:2)", 0),
    ("forall (i = 1:2:3, j = 1:4, i > j) a(i, j) = 1", 0),
    ("forall (i > 1)", 11),
    ("end forall", 0),
    ("end forall n", 11),
];

const EXPRESSIONS: [(&str, u8); 40] = [
    ("a = -b**2", 0),
    ("a = 2**-1", 11),
    ("a = 2**(-1)", 0),
    ("a = b + -c", 11),
    ("a = b * -c", 11),
    ("a = - -b", 11),
    ("a = b == -1", 0),
    ("a = b // -c", 0),
    ("a = b .and. -c", 0),
    ("a = b < c < d", 11),
    ("a = b .eq. c == d", 11),
    ("a = .not. b", 0),
    ("a = b .and. .not. c", 0),
    ("a = b == .not. c", 11),
    ("a = .not. .not. b", 11),
    ("a = b .eqv. .not. c .neqv. d", 0),
    ("a = .not. -b", 0),
    ("a = -.not. b", 11),
    ("a = (b", 11),
    ("a = b)", 11),
    ("a = ()", 11),
    ("a = (b, c)", 11),
    ("a = (/ 1, 2 /)", 0),
    ("a = (/ /)", 11),
    ("a = (/ (i, i = 1, 3) /)", 0),
    ("a = (/ (i, i = 1, 3, 2), 4 /)", 0),
    ("a = (/ ((i + j, i = 1, 3), j = 1, 2) /)", 0),
    ("a = (/ (i, j, i = 1, 3) /)", 0),
    ("a = (/ (i = 1, 3) /)", 11),
    ("a = (/ (i, i = 1) /)", 11),
    ("a = (/ (i, i = 1, 2, 3, 4) /)", 11),
    ("a = (i, i = 1, 3)", 11),
    ("a = f((i, i = 1, 3))", 11),
    ("a = (/ (i, i = 1, 3) + 1 /)", 11),
    ("a = (/ (i), (j) /)", 0),
    ("a = (/ i = 1 /)", 11),
    ("a = f(x = 1, 2, y(3)(1:2))", 0),
    ("a = f(1)(2:3)", 0),
    ("a = 1(2)", 11),
    ("a = .true. .or. .false.", 0),
];

#[test]
fn units(rt: HostRuntime) -> Result<(), Fail> {
    assert_eq!(rt; first_wrong(rt.alloc(), &UNITS)?, None);
    Ok(())
}

#[test]
fn declarations(rt: HostRuntime) -> Result<(), Fail> {
    assert_eq!(rt; first_wrong(rt.alloc(), &DECLARATIONS)?, None);
    Ok(())
}

#[test]
fn actions(rt: HostRuntime) -> Result<(), Fail> {
    assert_eq!(rt; first_wrong(rt.alloc(), &ACTIONS)?, None);
    Ok(())
}

#[test]
fn blocks(rt: HostRuntime) -> Result<(), Fail> {
    assert_eq!(rt; first_wrong(rt.alloc(), &BLOCKS)?, None);
    Ok(())
}

#[test]
fn expressions(rt: HostRuntime) -> Result<(), Fail> {
    assert_eq!(rt; first_wrong(rt.alloc(), &EXPRESSIONS)?, None);
    Ok(())
}

/// The right side of an assignment, with a bracket around each operation.
fn bound(alloc: Global, text: &str) -> Result<String, PhaseError> {
    let mut out = String::new(alloc);
    let statements = read_statements(alloc, text.as_bytes())?;
    if let [first, ..] = statements.list.as_slice() {
        let form = read_form(alloc, first.line, first.tokens.as_slice())?;
        put_right_side(&mut out, &form)?;
    }
    Ok(out)
}

const BOUND: [(&str, &str); 24] = [
    ("x = -a**2", "[-[a**2]]"),
    ("x = a**b**c", "[a**[b**c]]"),
    ("x = a - b - c", "[[a-b]-c]"),
    ("x = a / b * c", "[[a/b]*c]"),
    ("x = a + b * c", "[a+[b*c]]"),
    ("x = -a * b + c", "[[-[a*b]]+c]"),
    ("x = a // b + c", "[a//[b+c]]"),
    ("x = a // b // c", "[[a//b]//c]"),
    ("x = a == -b + c", "[a==[[-b]+c]]"),
    ("x = a == b .and. c /= d", "[[a==b]&[c/=d]]"),
    ("x = .not. a == b .or. c", "[[![a==b]]|c]"),
    ("x = a .or. b .and. .not. c", "[a|[b&[!c]]]"),
    ("x = a .eqv. b .or. c .neqv. d", "[[a~[b|c]]^d]"),
    ("x = a .and. -b", "[a&[-b]]"),
    ("x = (a + b) * c", "[([a+b])*c]"),
    (
        "x = f(1, k = b + 1, 2:3, :, ::4, 5:)",
        "f(1;k=[b+1];2:3:_;_:_:_;_:_:4;5:_:_;)",
    ),
    ("x = f()", "f()"),
    ("x = f(a)(2:)", "f(a;)2.._"),
    ("x = f(a(1))(:)", "f(a(1;);)_.._"),
    ("x = (/ 1, 2 + 3 /)", "(/1;[2+3];/)"),
    ("x = (/ (i * i, j, i = 1, n), 0 /)", "(/[i*i],j,i1:n:_;0;/)"),
    (
        "x = (/ ((i, i = 1, j), j = 1, n, 2) /)",
        "(/i,i1:j:_,j1:n:2;/)",
    ),
    ("x = 'a''b' // \"c\"", "[a'b//c]"),
    ("x = .true. .neqv. .false.", "[T^F]"),
];

fn first_bound_wrong(alloc: Global, rows: &[(&str, &str)]) -> Result<Option<usize>, PhaseError> {
    for (number, (text, wanted)) in rows.iter().enumerate() {
        let out = bound(alloc, text)?;
        if out.as_str() != *wanted {
            return Ok(Some(number));
        }
    }
    Ok(None)
}

#[test]
fn operators_bind(rt: HostRuntime) -> Result<(), Fail> {
    assert_eq!(rt; first_bound_wrong(rt.alloc(), &BOUND)?, None);
    Ok(())
}

/// `a = ((1))` with so many brackets, on two lines.
fn nested(alloc: Global, depth: usize) -> Result<String, PhaseError> {
    let mut out = String::new(alloc);
    out.push_str("a = ")?;
    for _ in 0..depth {
        out.push_str("(")?;
    }
    out.push_str("&\n1")?;
    for _ in 0..depth {
        out.push_str(")")?;
    }
    Ok(out)
}

#[test]
fn brackets(rt: HostRuntime) -> Result<(), Fail> {
    let few = nested(rt.alloc(), 64)?;
    assert_eq!(rt; rule_of(rt.alloc(), few.as_str())?, 0);
    let many = nested(rt.alloc(), 65)?;
    assert_eq!(rt; rule_of(rt.alloc(), many.as_str())?, 13);
    Ok(())
}

/// `a = 1 op 1 op 1`, with so many operators.
fn chain(alloc: Global, operator: Mark, count: usize) -> Result<Vec<Token>, PhaseError> {
    let mut tokens = Vec::new(alloc);
    let name = Bytes::from_slice(alloc, b"a")?;
    tokens.push(Token::Word(SharedBytes::new(alloc, name)?))?;
    tokens.push(Token::Mark(Mark::Assign))?;
    tokens.push(Token::Number(1))?;
    for _ in 0..count {
        tokens.push(Token::Mark(operator))?;
        tokens.push(Token::Number(1))?;
    }
    Ok(tokens)
}

#[test]
fn deep_trees(rt: HostRuntime) -> Result<(), Fail> {
    let right = chain(rt.alloc(), Mark::Power, 2600)?;
    let form = read_form(rt.alloc(), Line(1), right.as_slice())?;
    let mut out = String::new(rt.alloc());
    put_right_side(&mut out, &form)?;
    assert_eq!(rt; out.len(), 13001);
    let left = chain(rt.alloc(), Mark::Plus, 2600)?;
    let form = read_form(rt.alloc(), Line(1), left.as_slice())?;
    let mut out = String::new(rt.alloc());
    put_right_side(&mut out, &form)?;
    assert_eq!(rt; out.len(), 10401);
    Ok(())
}
