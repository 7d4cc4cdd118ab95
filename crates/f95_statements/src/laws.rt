//! What holds of every text and every statement, for the crates above.
ghost use Rattle.std.specs.Prelude.{◌≡◌, true, List, Some};
ghost use Rattle.f95_tree.specs.declared.terminal.Terminal.{Terminal};
ghost use Rattle.f95_tree.specs.declared.action.Action.{Action};
ghost use Rattle.f95_tree.specs.Forms.{action_text};
ghost use Rattle.f95_tree.specs.WellFormed.{well_action};
ghost use Rattle.f95_statements.specs.Actions.{action_of};

/// Terminals are a statement that may stand behind `IF ( e )` exactly where it is well formed and they spell it.
pub fn actions_as_spelled()
    ensures sound { (terminals : List Terminal) (action : Action) → action_of terminals ≡ Some action
        → (action_text action ≡ terminals) × (well_action action ≡ true) }
    ensures again { (action : Action) → well_action action ≡ true → action_of (action_text action) ≡ Some action }
{}
