//! A source in memory, compiled.
ghost use Rattle.std.specs.Prelude.{◌≡◌, ℕ, IfOk, IfErr};
ghost use Rattle.f95a_core.specs.Source.{IsUnbroken};
ghost use Rattle.f95a_core.specs.Building.{Compiles};
ghost use Rattle.f95a_core.specs.Compiling.{IsRefusedFor};

use crate::lower::Lowering;
use crate::source::{Refusal, read};
use a95_base::{Line, Memory, Rule};
use loop_tree::LoopProgram;
use loop_writer::collect;
use std::alloc::Global;
use thiserror::Error;

/// Why a source has no program.
#[derive(Clone, Copy, Debug, PartialEq, Eq, Error)]
pub enum CompileRefusal {
    /// The least rule that the source breaks.
    #[error("phase {phase}, line {}, rule P{}", .line.0, .rule.0)]
    Refused { phase: u8, line: Line, rule: Rule },
    #[error("no memory")]
    Memory,
}

/// The program of a source.
pub fn compile(alloc: Global, source: &[u8]) -> Result<LoopProgram, CompileRefusal>
    ensures compiled { IfOk result (λ program. Compiles source.now program) }
    ensures whole { IfOk result (λ _. IsUnbroken source.now) }
    ensures refused { IfErr result (λ e. IsRefusedFor e source.now) }
{
    match read(alloc, source) {
        Ok(unit) => match collect(alloc, &mut Lowering::new(&unit)) {
            Ok(program) => Ok(program),
            Err(Memory) => Err(CompileRefusal::Memory),
        },
        Err(Refusal::Refused { phase, line, rule }) => Err(CompileRefusal::Refused {
            phase,
            line,
            rule,
        }),
        Err(Refusal::Memory) => Err(CompileRefusal::Memory),
    }
}
