//! A program that runs.
ghost use Rattle.std.specs.Prelude.{◌≡◌, ◌≢◌, ℕ, ◌≤◌, List, [], Some, None, IfOk};
ghost use Rattle.io_edge.specs.Causes.{Rose};
ghost use Rattle.a95_base.specs.Outcome.{Outcome};
ghost use Rattle.loop_tree.specs.State as state;
ghost use Rattle.loop_tree.specs.Run.{Runs, configuration, start};
ghost use Rattle.loop_rows.specs.Shown.{shown};
ghost use Rattle.loop_machine.specs.Running.{Running, left_by, RunsTo, Answers};

use crate::end::{End, left_by};
use crate::run::go;
use a95_base::{FaultKind, Memory, Stack};
use io_edge::Sink;
use loop_heap::{Blocks, Halt};
use loop_rows::{Active, Core, Routine};
use loop_tree::{Function, LoopProgram};
use loop_values::{Links, Numbers, Words};
use record_io::Record;
use sqlite_items::Items;
use std::alloc::{AllocError, Global};
use std::marker::Model;

/// A program that runs. Contracts see the program, its state, and what its run came to where it doesn't go on.
#[derive(Drop)]
pub struct Machine {
    routines: Items<Routine>,
    core: Core,
    ended: Option<End>,
}

impl Model for Machine {
    ghost use Rattle.loop_tree.specs.contracts.tree.Stmt as stmt;
    ghost use Rattle.std.specs.Coded.{codes};
    ghost use Rattle.loop_machine.specs.Running.{Running};
    ghost use Rattle.loop_rows.specs.Shown.{shown};

    ghost Value = { Running };

    ghost coded = { Prim.hlevel (codes, stmt.the_row.coded) };

    ghost view = { λ m. record { functions = m.routines; state = shown m.routines m.core; ended = m.ended } };
}

/// The functions made ready to run.
fn routines_of(alloc: Global, functions: Items<Function>) -> Result<Items<Routine>, AllocError>
    ensures { IfOk result (λ routines. routines ≡ functions) }
{
    let mut left = functions;
    let mut made = Stack::new(alloc);
    while let Some(function) = left.pop() {
        made.push(Routine::new(alloc, function)?)?;
    }
    Ok(made.into_items())
}

impl Machine {
    /// The program at its start, with all of this input left.
    #[tactic(auto, using(crate::proofs::Runs::started))]
    pub fn new(alloc: Global, program: LoopProgram, input: Vec<u8>) -> Result<Machine, Memory>
        ensures { IfOk result (λ m. m ≡ record { functions = program; state = start program input.items; ended = None }) }
    {
        let Ok(routines) = routines_of(alloc, program.into_functions()) else {
            return Err(Memory);
        };
        let active = Active {
            routine: 0,
            place: 0,
            braces: Stack::new(alloc),
            ints: Numbers::new(alloc),
            indices: Numbers::new(alloc),
            texts: Words::new(alloc),
            int_blocks: Links::new(alloc),
            text_blocks: Links::new(alloc),
            line: 0,
            mark: 0,
        };
        let core = Core {
            alloc,
            active,
            callers: Stack::new(alloc),
            blocks: Blocks::new(alloc),
            pending: Record::new(alloc),
            input: Items::from_vec(input),
            taken: 0,
            fault: FaultKind::ZeroDivide,
            halt: Halt::Memory,
        };
        Ok(Machine {
            routines,
            core,
            ended: None,
        })
    }

    /// Runs on with so many turns, and writes each record by one put to the sink. Behind `TurnLimit` a further run goes
    /// on with new turns, as one run with all of them; behind any other end it answers that end again.
    pub fn run<K: Sink>(&mut self, turns: u128, sink: &mut K) -> End
        // What the answer says of the run of the program.
        ensures runs { self.old.ended ≡ None →
            RunsTo self.old.functions self.old.state turns result self.new.state (K.written sink.old) (K.written sink.new) }
        // And what the run says of the answer.
        ensures decided { self.old.ended ≡ None → (written : List ℕ) (outcome : Outcome state.End) →
            Runs self.old.functions (configuration 0 [] self.old.state) turns written outcome →
            Answers outcome written result (K.written sink.old) (K.written sink.new) }
        ensures ended { self.old.ended ≡ None → self.new.ended ≡ left_by result }
        ensures functions { self.new.functions ≡ self.old.functions }
        // An end is answered again, and nothing is done.
        ensures again { (end : End) → self.old.ended ≡ Some end → (result ≡ end) × (self.new ≡ self.old) × (sink.new ≡ sink.old) }
        // `WriteFault` comes only where the count of faults rose. Any other answer leaves it.
        ensures counted { self.old.ended ≡ None → result ≡ End.WriteFault → Rose (K.faults sink.old) (K.faults sink.new) }
        ensures later { K.faults sink.old ≤ K.faults sink.new }
        ensures same { result ≢ End.WriteFault → K.faults sink.new ≡ K.faults sink.old }
    {
        if let Some(end) = self.ended {
            return end;
        }
        let end = go(self.routines.as_slice(), &mut self.core, turns, sink);
        self.ended = left_by(end);
        end
    }
}
