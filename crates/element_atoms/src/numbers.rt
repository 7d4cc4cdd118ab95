//! The numbers of variables.
ghost use Rattle.std.specs.Prelude.{◌≡◌, ◌+◌, ◌*◌, suc, IfOk};
ghost use Rattle.nest_tree.specs.View.{procedure_of};
ghost use Rattle.nest_emit.specs.Numbers.{array_number, array_count, lower_number, extent_number, scalar_number, first_free};
ghost use Rattle.nest_emit.specs.Numbers.{loop_number, length_number, leaving_number};

use nest_tree::{Name, Procedure};
use std::alloc::AllocError;

/// The sum of two numbers.
pub fn plus(a: u32, b: u32) -> Result<u32, AllocError>
    ensures { IfOk result (λ n. n ≡ a + b) }
{
    match a.checked_add(b) {
        Some(n) => Ok(n),
        None => Err(AllocError),
    }
}

/// The next number.
pub fn after(t: u32) -> Result<u32, AllocError>
    ensures { IfOk result (λ n. n ≡ suc t) }
{
    plus(t, 1)
}

fn multiplied(factor: u32, n: u32) -> Result<u32, AllocError>
    ensures { IfOk result (λ k. k ≡ factor * n) }
{
    match factor.checked_mul(n) {
        Some(k) => Ok(k),
        None => Err(AllocError),
    }
}

/// A count as a number.
pub fn counted(count: usize) -> Result<u32, AllocError>
    ensures { IfOk result (λ n. n ≡ count) }
{
    match u32::try_from(count) {
        Ok(n) => Ok(n),
        Err(_) => Err(AllocError),
    }
}

pub fn array_number(own: &Procedure, name: Name) -> Result<u32, AllocError>
    ensures { IfOk result (λ n. n ≡ array_number (procedure_of own.now) name) }
{
    match name {
        Name::Own(n) => Ok(n),
        Name::Temp(t) => plus(counted(own.variables.len())?, t),
    }
}

fn array_count(own: &Procedure) -> Result<u32, AllocError>
    ensures { IfOk result (λ n. n ≡ array_count (procedure_of own.now)) }
{
    let variables = counted(own.variables.len())?;
    let blocks = counted(own.blocks.len())?;
    plus(plus(variables, blocks)?, own.lists)
}

/// The variable that has the lower bound of a dimension, which is counted from 0.
pub fn lower_number(array: u32, dim: u32) -> Result<u32, AllocError>
    ensures { IfOk result (λ n. n ≡ lower_number array dim) }
{
    plus(multiplied(16, array)?, multiplied(2, dim)?)
}

/// The variable that has the extent of a dimension, which is counted from 0.
pub fn extent_number(array: u32, dim: u32) -> Result<u32, AllocError>
    ensures { IfOk result (λ n. n ≡ extent_number array dim) }
{
    plus(multiplied(16, array)?, plus(multiplied(2, dim)?, 1)?)
}

/// The variable of a scalar of the lowering.
pub fn scalar_number(own: &Procedure, k: u32) -> Result<u32, AllocError>
    ensures { IfOk result (λ n. n ≡ scalar_number (procedure_of own.now) k) }
{
    plus(multiplied(16, array_count(own)?)?, k)
}

/// The variable that has the length of an array's texts.
pub fn length_number(array: u32) -> Result<u32, AllocError>
    ensures { IfOk result (λ n. n ≡ length_number array) }
{
    plus(multiplied(16, array)?, 15)
}

/// The variable that says how a loop is left.
pub fn leaving_number(own: &Procedure) -> Result<u32, AllocError>
    ensures { IfOk result (λ n. n ≡ leaving_number (procedure_of own.now)) }
{
    let scalars = counted(own.scalars.len())?;
    plus(multiplied(16, array_count(own)?)?, scalars)
}

/// The first number that nothing has.
pub fn first_free(own: &Procedure) -> Result<u32, AllocError>
    ensures { IfOk result (λ n. n ≡ first_free (procedure_of own.now)) }
{
    after(leaving_number(own)?)
}

/// The loop variable of a loop of the innermost of so many nests.
pub fn loop_number(nests: u32, number: u8) -> Result<u32, AllocError>
    ensures { IfOk result (λ n. n ≡ loop_number nests number) }
{
    if nests == 0 {
        return Ok(u32::from(number));
    }
    plus(multiplied(16, nests - 1)?, u32::from(number))
}
