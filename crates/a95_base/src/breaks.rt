//! Rules of refusal that are broken on lines, and the first of them.
ghost use Rattle.std.specs.Prelude.{◌≡◌};
ghost use Rattle.a95_base.specs.Breaks.{comes_first, first_from, first_of};

/// A rule of refusal that is broken on that line.
#[derive(Clone, Copy)]
pub struct Break {
    pub line: u32,
    pub rule: u8,
}

fn comes_first(a: Break, b: Break) -> bool
    ensures { result ≡ comes_first a b }
{
    a.line < b.line || a.line == b.line && a.rule <= b.rule
}

fn first_from(first: Break, breaks: &[Break]) -> Break
    ensures { result ≡ first_from first breaks.now }
{
    let mut first = first;
    for b in breaks {
        if !comes_first(first, *b) {
            first = *b;
        }
    }
    first
}

/// The break on the first line, and of those on it the one of the least rule.
pub fn first_of(breaks: &[Break]) -> Option<Break>
    ensures { result ≡ first_of breaks.now }
{
    match breaks {
        [] => None,
        [first, more @ ..] => Some(first_from(*first, more)),
    }
}
