//! The names that a statement names itself.
ghost use Rattle.std.specs.Prelude.{◌≡◌, ◌++◌, OnOk};
ghost use Rattle.names_types.specs.View.{names_of, names_of_reference, maybe_names, assignment_names, bound_names};
ghost use Rattle.names_types.specs.View.{allocation_names, index_names, header_names, arguments_names, action_names, range_names};
ghost use Rattle.names_types.specs.View.{maybe_range_names, control_names};

use crate::expressions::{add_name, expression_names, reference_names};
use crate::named::{Named, add_each};
use a95_base::SharedBytes;
use f95_tree::{
    Action, Allocation, Argument, Assignment, Bound, CaseRange, Control, Expression, Header, Index,
    Reference,
};
use sqlite_items::{Boxed, Items};
use std::alloc::AllocError;

impl Named for Expression {
    ghost named = { names_of };

    fn add_names(&self, names: &mut Vec<SharedBytes>) -> Result<(), AllocError> {
        expression_names(self, names)
    }
}

impl Named for Reference {
    ghost named = { names_of_reference };

    fn add_names(&self, names: &mut Vec<SharedBytes>) -> Result<(), AllocError> {
        reference_names(self, names)
    }
}

impl Named for Option<Expression> {
    ghost named = { maybe_names };

    fn add_names(&self, names: &mut Vec<SharedBytes>) -> Result<(), AllocError> {
        match self {
            None => Ok(()),
            Some(e) => e.add_names(names),
        }
    }
}

impl Named for Option<Boxed<Expression>> {
    ghost named = { maybe_names };

    fn add_names(&self, names: &mut Vec<SharedBytes>) -> Result<(), AllocError> {
        match self {
            None => Ok(()),
            Some(e) => e.get().add_names(names),
        }
    }
}

impl Named for Assignment {
    ghost named = { assignment_names };

    fn add_names(&self, names: &mut Vec<SharedBytes>) -> Result<(), AllocError> {
        self.to.add_names(names)?;
        self.value.add_names(names)
    }
}

impl Named for Bound {
    ghost named = { bound_names };

    fn add_names(&self, names: &mut Vec<SharedBytes>) -> Result<(), AllocError> {
        match self {
            Bound::Upper(upper) => upper.add_names(names),
            Bound::Both(lower, upper) => {
                lower.add_names(names)?;
                upper.add_names(names)
            }
        }
    }
}

impl Named for Allocation {
    ghost named = { allocation_names };

    fn add_names(&self, names: &mut Vec<SharedBytes>) -> Result<(), AllocError> {
        add_name(&self.name, names)?;
        add_each(self.bounds.as_slice(), names)
    }
}

impl Named for Index {
    ghost named = { index_names };

    fn add_names(&self, names: &mut Vec<SharedBytes>) -> Result<(), AllocError> {
        add_name(&self.name, names)?;
        self.lower.add_names(names)?;
        self.upper.add_names(names)?;
        self.stride.add_names(names)
    }
}

impl Named for Header {
    ghost named = { header_names };

    fn add_names(&self, names: &mut Vec<SharedBytes>) -> Result<(), AllocError> {
        add_each(self.indices.as_slice(), names)?;
        self.mask.add_names(names)
    }
}

impl Named for Argument {
    ghost named = { λ a. names_of a.value };

    fn add_names(&self, names: &mut Vec<SharedBytes>) -> Result<(), AllocError> {
        self.value.add_names(names)
    }
}

impl Named for Option<Boxed<Items<Argument>>> {
    ghost named = { arguments_names };

    fn add_names(&self, names: &mut Vec<SharedBytes>) -> Result<(), AllocError> {
        match self {
            None => Ok(()),
            Some(arguments) => add_each(arguments.get().as_slice(), names),
        }
    }
}

fn add_words(words: &[SharedBytes], names: &mut Vec<SharedBytes>) -> Result<(), AllocError>
    ensures { OnOk result (names.new.items ≡ names.old.items ++ words.now) }
{
    for word in words {
        add_name(word, names)?;
    }
    Ok(())
}

/// Keywords, and the names of constructs at EXIT and CYCLE, are none of them.
impl Named for Action {
    ghost named = { action_names };

    fn add_names(&self, names: &mut Vec<SharedBytes>) -> Result<(), AllocError> {
        match self {
            Action::Assignment(a) => a.get().add_names(names),
            Action::Call(name, arguments) => {
                add_name(name, names)?;
                arguments.add_names(names)
            }
            Action::Allocate(objects) => add_each(objects.as_slice(), names),
            Action::Deallocate(words) => add_words(words.as_slice(), names),
            Action::Print(es) => add_each(es.as_slice(), names),
            Action::Write(es) => add_each(es.as_slice(), names),
            Action::Read(rs) => add_each(rs.as_slice(), names),
            Action::ReadUnit(rs) => add_each(rs.as_slice(), names),
            Action::Stop(_) => Ok(()),
            Action::Return => Ok(()),
            Action::Continue => Ok(()),
            Action::Exit(_) => Ok(()),
            Action::Cycle(_) => Ok(()),
            Action::Where(mask, a) => {
                mask.get().add_names(names)?;
                a.get().add_names(names)
            }
            Action::Forall(header, a) => {
                header.get().add_names(names)?;
                a.get().add_names(names)
            }
        }
    }
}

impl Named for CaseRange {
    ghost named = { range_names };

    fn add_names(&self, names: &mut Vec<SharedBytes>) -> Result<(), AllocError> {
        match self {
            CaseRange::One(e) => e.add_names(names),
            CaseRange::From(lower) => lower.add_names(names),
            CaseRange::UpTo(upper) => upper.add_names(names),
            CaseRange::Between(lower, upper) => {
                lower.add_names(names)?;
                upper.add_names(names)
            }
        }
    }
}

impl Named for Option<Items<CaseRange>> {
    ghost named = { maybe_range_names };

    fn add_names(&self, names: &mut Vec<SharedBytes>) -> Result<(), AllocError> {
        match self {
            None => Ok(()),
            Some(ranges) => add_each(ranges.as_slice(), names),
        }
    }
}

impl Named for Control {
    ghost named = { control_names };

    fn add_names(&self, names: &mut Vec<SharedBytes>) -> Result<(), AllocError> {
        match self {
            Control::Forever => Ok(()),
            Control::Counted(_, name, first, last, step) => {
                add_name(name, names)?;
                first.get().add_names(names)?;
                last.get().add_names(names)?;
                step.add_names(names)
            }
            Control::While(_, condition) => condition.get().add_names(names),
        }
    }
}
