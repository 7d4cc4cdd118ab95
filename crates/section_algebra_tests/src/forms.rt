//! Linear forms, with ample memory.
use section_algebra::{Atom, LinearForm};
use std::alloc::Global;
use std::test::Fail;

/// What stands for a form where memory fails.
const NONE: i32 = 99;

fn atom(alloc: Global, number: u32) -> LinearForm {
    match LinearForm::of_atom(alloc, Atom(number)) {
        Ok(form) => form,
        Err(_) => LinearForm::constant(alloc, NONE),
    }
}

fn difference(alloc: Global, a: &LinearForm, b: &LinearForm) -> LinearForm {
    match LinearForm::difference(alloc, a, b) {
        Ok(form) => form,
        Err(_) => LinearForm::constant(alloc, NONE),
    }
}

fn scaled(alloc: Global, a: &LinearForm, factor: i32) -> LinearForm {
    match LinearForm::scaled(alloc, a, factor) {
        Ok(form) => form,
        Err(_) => LinearForm::constant(alloc, NONE),
    }
}

fn has(form: &LinearForm, constant: i32, terms: &[(Atom, i32)]) -> bool {
    form.constant_part() == constant && form.terms() == terms
}

#[test]
fn differences_are_taken(rt: HostRuntime) -> Result<(), Fail> {
    let alloc = rt.alloc();
    let three = LinearForm::constant(alloc, 3);
    let i = atom(alloc, 7);
    let apart = difference(alloc, &i, &atom(alloc, 2));
    let less = difference(alloc, &apart, &three);
    assert!(rt; has(&three, 3, &[]));
    assert!(rt; has(&i, 0, &[(Atom(7), 1)]));
    assert!(rt; has(&apart, 0, &[(Atom(2), -1), (Atom(7), 1)]));
    assert!(rt; has(&less, -3, &[(Atom(2), -1), (Atom(7), 1)]));
    assert!(rt; has(&difference(alloc, &less, &i), -3, &[(Atom(2), -1)]));
    assert!(rt; has(&difference(alloc, &less, &less), 0, &[]));
    Ok(())
}

#[test]
fn forms_are_scaled(rt: HostRuntime) -> Result<(), Fail> {
    let alloc = rt.alloc();
    let three = LinearForm::constant(alloc, 3);
    let form = difference(alloc, &atom(alloc, 7), &three);
    let twice = scaled(alloc, &form, -2);
    assert!(rt; has(&twice, 6, &[(Atom(7), -2)]));
    assert!(rt;
        has(
            &scaled(alloc, &form, i32::MIN),
            i32::MIN,
            &[(Atom(7), i32::MIN)]
        )
    );
    assert!(rt; has(&scaled(alloc, &twice, i32::MIN), 0, &[]));
    Ok(())
}
