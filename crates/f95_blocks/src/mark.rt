//! What is noted of a statement in its place: a name that differs from that of its opening, and too many open blocks.

ghost use Rattle.std.specs.Prelude.{◌≡◌, nat_lt};
ghost use Rattle.std.specs.Option.{option_copied};
ghost use Rattle.f95_nesting.specs.Placed.{differs, heading_name, program_name};
ghost use Rattle.f95_nesting.specs.Nesting.{most_blocks};
ghost use Rattle.f95_nesting.specs.Machine.{block_end_name, unit_end_name, end_name, depth_at, host_name, place_name, place_depth};
ghost use Rattle.f95_blocks.specs.Units.{opens, opens_block, with_opened};

use a95_base::{Line, SharedBytes};
use f95_nesting::{Host, Place, body_depth, body_name};
use f95_tree::{BlockForm, Form, Heading, UnitForm};

/// The most blocks that may be open.
const MOST_BLOCKS: usize = 64;

fn block_end_name(form: &BlockForm) -> Option<&SharedBytes>
    ensures { option_copied result ≡ block_end_name form.now }
{
    match form {
        BlockForm::ElseIf(_, name) => name.as_ref(),
        BlockForm::Else(name) => name.as_ref(),
        BlockForm::EndIf(name) => name.as_ref(),
        BlockForm::Case(_, name) => name.as_ref(),
        BlockForm::CaseDefault(name) => name.as_ref(),
        BlockForm::EndSelect(name) => name.as_ref(),
        BlockForm::EndDo(name) => name.as_ref(),
        _ => None,
    }
}

fn unit_end_name(form: &UnitForm) -> Option<&SharedBytes>
    ensures { option_copied result ≡ unit_end_name form.now }
{
    match form {
        UnitForm::EndUnit(_, name) => name.as_ref(),
        _ => None,
    }
}

/// The name at an end, ELSE or CASE.
pub fn end_name(form: &Form) -> Option<&SharedBytes>
    ensures { option_copied result ≡ end_name form.now }
{
    match form {
        Form::Block(form) => block_end_name(form),
        Form::Unit(form) => unit_end_name(form),
        _ => None,
    }
}

/// Whether a name, where there is one, differs from that of the opening.
pub fn differs(name: Option<&SharedBytes>, opening: Option<&SharedBytes>) -> bool
    ensures { result ≡ differs (option_copied name.entry) (option_copied opening.entry) }
{
    match name {
        None => false,
        Some(name) => match opening {
            None => true,
            Some(opening) => name != opening,
        },
    }
}

fn program_name(opening: &Option<(Line, SharedBytes)>) -> Option<&SharedBytes>
    ensures { option_copied result ≡ program_name opening.now }
{
    match opening {
        None => None,
        Some((_, name)) => Some(name),
    }
}

fn heading_name(heading: &Heading) -> &SharedBytes
    ensures { result.now ≡ heading_name heading.now }
{
    match heading {
        Heading::Subroutine(name, _) => name,
        Heading::Function(name, _, _) => name,
    }
}

fn host_name(host: &Host) -> Option<&SharedBytes>
    ensures { option_copied result ≡ host_name host.now }
{
    match host {
        Host::Module(_, name, _, _, _) => Some(name),
        Host::Main(opening, _, _, _, _) => program_name(opening),
    }
}

/// The name of the innermost block or unit that is open.
pub fn place_name(place: &Place) -> Option<&SharedBytes>
    ensures { option_copied result ≡ place_name place.now }
{
    match place {
        Place::Start => None,
        Place::Module(_, name, _) => Some(name),
        Place::Main(opening, _, body) => body_name(body, program_name(opening)),
        Place::Contains(host) => host_name(host),
        Place::Procedure(_, _, procedure, _, body) => {
            body_name(body, Some(heading_name(&procedure.heading)))
        }
    }
}

/// How many blocks are open.
pub fn place_depth(place: &Place) -> usize
    ensures { result ≡ place_depth place.now }
{
    match place {
        Place::Start => 0,
        Place::Module(_, _, _) => 0,
        Place::Main(_, _, body) => body_depth(body),
        Place::Contains(_) => 0,
        Place::Procedure(_, _, _, _, body) => body_depth(body),
    }
}

fn opens(form: &BlockForm) -> bool
    ensures { result ≡ opens form.now }
{
    match form {
        BlockForm::If(_, _) => true,
        BlockForm::Select(_, _) => true,
        BlockForm::Do(_, _) => true,
        BlockForm::Where(_) => true,
        BlockForm::Forall(_) => true,
        _ => false,
    }
}

/// Whether it opens a block.
fn opens_block(form: &Form) -> bool
    ensures { result ≡ opens_block form.now }
{
    match form {
        Form::Block(form) => opens(form),
        _ => false,
    }
}

/// Whether so many blocks, with one more if one is opened, are too many.
fn are_too_many(opened: bool, around: usize) -> bool
    ensures { result ≡ nat_lt most_blocks (with_opened opened around) }
{
    if opened {
        MOST_BLOCKS <= around
    } else {
        MOST_BLOCKS < around
    }
}

/// Whether a statement with so many blocks around it stands in too many.
#[tactic(auto, using(crate::proofs::ByRole::depth_opened))]
pub fn is_deep(form: &Form, around: usize) -> bool
    ensures { result ≡ nat_lt most_blocks (depth_at form.now around) }
{
    are_too_many(opens_block(form), around)
}
