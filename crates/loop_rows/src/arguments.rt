//! Arguments of calls, and the call that they begin.
ghost use Rattle.std.specs.Prelude.{◌≡◌, ◌∷◌, ◌++◌, [], IfOk, OnOk};
ghost use Rattle.std.specs.List.{list_all};
ghost use Rattle.loop_tree.specs.Machine.{letter_of_reference, letter_of, same_letter, match_letters, is_usable, int_passed};
ghost use Rattle.loop_tree.specs.Machine.{text_passed, ints_passed, texts_passed, callable};
ghost use Rattle.loop_rows.specs.Shown.{shown};
ghost use Rattle.loop_rows.specs.Callees.{accepts, entered, with_argument};

use crate::routine::Routine;
use crate::state::{Active, Core};
use crate::values::{atom, block, text};
use a95_base::{Bytes, Stack};
use loop_heap::Link;
use loop_tree::{Argument, Letter, Reference};
use loop_values::{Links, Numbers, Words};
use std::alloc::AllocError;

/// The letter of the parameter that an argument is for.
fn letter_of(argument: &Argument) -> Letter
    ensures { result ≡ letter_of argument.now }
{
    match argument {
        Argument::Int(_) => Letter::Int,
        Argument::Text(_) => Letter::Text,
        Argument::Block(Reference::Ints(_)) => Letter::Ints,
        Argument::Block(Reference::Texts(_)) => Letter::Texts,
    }
}

fn same_letter(a: Letter, b: Letter) -> bool
    ensures { result ≡ same_letter a b }
{
    match (a, b) {
        (Letter::Int, Letter::Int) => true,
        (Letter::Text, Letter::Text) => true,
        (Letter::Ints, Letter::Ints) => true,
        (Letter::Texts, Letter::Texts) => true,
        _ => false,
    }
}

/// As many arguments as parameters, of their letters.
fn match_letters(arguments: &[Argument], parameters: &[Letter]) -> bool
    ensures { result ≡ match_letters arguments.now parameters.now }
{
    let mut left = parameters;
    for argument in arguments {
        let Some((letter, more)) = left.split_first() else {
            return false;
        };
        if !same_letter(letter_of(argument), *letter) {
            return false;
        }
        left = more;
    }
    left.is_empty()
}

/// A function of this number takes the arguments. Function 0 is not called.
pub fn accepts(routines: &[Routine], n: u32, arguments: &[Argument]) -> bool
    ensures { result ≡ accepts (callable routines.now n) arguments.now }
{
    if n == 0 {
        return false;
    }
    match routines.get(n as usize) {
        Some(routine) => match_letters(arguments, routine.parameters()),
        None => false,
    }
}

/// An argument is no reference, or one to a living block.
fn is_usable(routines: &[Routine], core: &Core, argument: &Argument) -> bool
    ensures { result ≡ is_usable (shown routines.now core.now) argument.now }
{
    let _ = routines;
    match argument {
        Argument::Int(_) => true,
        Argument::Text(_) => true,
        Argument::Block(r) => {
            let link = block(&core.active.int_blocks, &core.active.text_blocks, *r);
            core.blocks.is_live(link)
        }
    }
}

pub fn all_usable(routines: &[Routine], core: &Core, arguments: &[Argument]) -> bool
    ensures { result ≡ list_all (is_usable (shown routines.now core.now)) arguments.now }
{
    for argument in arguments {
        if !is_usable(routines, core, argument) {
            return false;
        }
    }
    true
}

/// The first value of the variable `iN` that has an argument's number.
fn int_passed(routines: &[Routine], core: &Core, argument: &Argument) -> i64
    ensures { result ≡ int_passed (shown routines.now core.now) argument.now }
{
    let _ = routines;
    match argument {
        Argument::Int(a) => atom(&core.active.ints, &core.active.indices, *a),
        Argument::Text(_) => 0,
        Argument::Block(_) => 0,
    }
}

/// The same of `sN`.
fn text_passed(routines: &[Routine], core: &Core, argument: &Argument) -> Result<Bytes, AllocError>
    ensures { IfOk result (λ text. text ≡ text_passed (shown routines.now core.now) argument.now) }
{
    let _ = routines;
    match argument {
        Argument::Text(t) => Bytes::from_slice(core.alloc, text(&core.active.texts, t)),
        Argument::Int(_) => Ok(Bytes::new(core.alloc)),
        Argument::Block(_) => Ok(Bytes::new(core.alloc)),
    }
}

/// The same of `bN`.
fn ints_passed(routines: &[Routine], core: &Core, argument: &Argument) -> Option<Link>
    ensures { result ≡ ints_passed (shown routines.now core.now) argument.now }
{
    let _ = routines;
    match argument {
        Argument::Block(Reference::Ints(n)) => core.active.int_blocks.get(*n),
        Argument::Block(Reference::Texts(_)) => None,
        Argument::Int(_) => None,
        Argument::Text(_) => None,
    }
}

/// The same of `cN`.
fn texts_passed(routines: &[Routine], core: &Core, argument: &Argument) -> Option<Link>
    ensures { result ≡ texts_passed (shown routines.now core.now) argument.now }
{
    let _ = routines;
    match argument {
        Argument::Block(Reference::Texts(n)) => core.active.text_blocks.get(*n),
        Argument::Block(Reference::Ints(_)) => None,
        Argument::Int(_) => None,
        Argument::Text(_) => None,
    }
}

/// Gives a call its next argument.
fn pass(
    routines: &[Routine],
    core: &Core,
    callee: &mut Active,
    argument: &Argument,
) -> Result<(), AllocError>
    ensures { OnOk result (callee.new ≡ with_argument (shown routines.now core.now) callee.old argument.now) }
{
    callee.ints.push(int_passed(routines, core, argument))?;
    callee.texts.push(text_passed(routines, core, argument)?)?;
    callee
        .int_blocks
        .push(ints_passed(routines, core, argument))?;
    callee
        .text_blocks
        .push(texts_passed(routines, core, argument))?;
    Ok(())
}

/// A call of function n at its first line.
pub fn entered(
    routines: &[Routine],
    core: &Core,
    n: u32,
    arguments: &[Argument],
) -> Result<Active, AllocError>
    ensures { IfOk result (λ callee. callee ≡ entered (shown routines.now core.now) n arguments.now) }
{
    let alloc = core.alloc;
    let mut callee = Active {
        routine: n as usize,
        place: 0,
        braces: Stack::new(alloc),
        ints: Numbers::new(alloc),
        indices: Numbers::new(alloc),
        texts: Words::new(alloc),
        int_blocks: Links::new(alloc),
        text_blocks: Links::new(alloc),
        line: 0,
        mark: core.blocks.made(),
    };
    for argument in arguments {
        pass(routines, core, &mut callee, argument)?;
    }
    Ok(callee)
}
