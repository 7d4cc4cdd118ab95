//! Laws that the layers above cite: each is the contract of a function that does nothing.
ghost use Rattle.a95_base.specs.StepLaws.{BracketsMove, ValuePasses, ValueEnds, ErrorEnds, NextSame, FirstSame, ValueUnread};
ghost use Rattle.a95_base.specs.IntegerLaws.{WrappedIsTheOne, ModuloIsNear, RemainderIsNear};

/// The laws of steps on a state S with errors E and values A, B and C.
pub fn step_laws<E, S, A, B, C>()
    ensures brackets_move { BracketsMove E S A B C }
    ensures value_passes { ValuePasses E S A B C }
    ensures value_ends { ValueEnds E S A B C }
    ensures error_ends { ErrorEnds E S A B C }
    ensures next_same { NextSame E S A B C }
    ensures first_same { FirstSame E S A B C }
    ensures value_unread { ValueUnread E S A B C }
{}

/// What wrapping, MOD and MODULO mean.
pub fn integer_laws()
    ensures wrapped { WrappedIsTheOne }
    ensures modulo { ModuloIsNear }
    ensures remainder { RemainderIsNear }
{}
