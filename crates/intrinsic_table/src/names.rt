//! An intrinsic's name, the intrinsic of a name, and its sort.
ghost use Rattle.std.specs.Prelude.{◌≡◌, ◌≢◌, IfSome, IfNone};
ghost use Rattle.intrinsic_table.specs.declared.intrinsic.Intrinsic.{Intrinsic};
ghost use Rattle.intrinsic_table.specs.Interface.{name_of, sort_of};
ghost use Rattle.intrinsic_table.specs.Finding.{is_word, first_named, beginning};

use crate::intrinsic::{Intrinsic, Sort};

fn name(which: Intrinsic) -> &'static str
    ensures { result.now ≡ name_of which }
{
    match which {
        Intrinsic::Abs => "abs",
        Intrinsic::Mod => "mod",
        Intrinsic::Modulo => "modulo",
        Intrinsic::Sign => "sign",
        Intrinsic::Max => "max",
        Intrinsic::Min => "min",
        Intrinsic::Iand => "iand",
        Intrinsic::Ior => "ior",
        Intrinsic::Ieor => "ieor",
        Intrinsic::Merge => "merge",
        Intrinsic::Ichar => "ichar",
        Intrinsic::Char => "char",
        Intrinsic::LenTrim => "len_trim",
        Intrinsic::Index => "index",
        Intrinsic::Adjustl => "adjustl",
        Intrinsic::Adjustr => "adjustr",
        Intrinsic::Trim => "trim",
        Intrinsic::Size => "size",
        Intrinsic::Shape => "shape",
        Intrinsic::Lbound => "lbound",
        Intrinsic::Ubound => "ubound",
        Intrinsic::Allocated => "allocated",
        Intrinsic::Len => "len",
        Intrinsic::Sum => "sum",
        Intrinsic::Product => "product",
        Intrinsic::Maxval => "maxval",
        Intrinsic::Minval => "minval",
        Intrinsic::All => "all",
        Intrinsic::Any => "any",
        Intrinsic::Count => "count",
        Intrinsic::Maxloc => "maxloc",
        Intrinsic::Minloc => "minloc",
        Intrinsic::DotProduct => "dot_product",
        Intrinsic::Matmul => "matmul",
        Intrinsic::Transpose => "transpose",
        Intrinsic::Cshift => "cshift",
        Intrinsic::Eoshift => "eoshift",
        Intrinsic::Spread => "spread",
        Intrinsic::Pack => "pack",
        Intrinsic::Unpack => "unpack",
        Intrinsic::Reshape => "reshape",
    }
}

fn is_word(word: &str, other: &[u8]) -> bool
    ensures { result ≡ is_word word.now other.now }
{
    word.as_bytes() == other
}

/// The first of `among` with this name.
fn first_named(among: &[Intrinsic], text: &[u8]) -> Option<Intrinsic>
    ensures { result ≡ first_named among.now text.now }
{
    for which in among {
        if is_word(name(*which), text) {
            return Some(*which);
        }
    }
    None
}

/// The intrinsics whose names begin with this byte, so that at most ten names are compared.
fn beginning(byte: u8) -> &'static [Intrinsic]
    ensures { result.now ≡ beginning byte }
{
    match byte {
        b'a' => &[
            Intrinsic::Abs,
            Intrinsic::All,
            Intrinsic::Any,
            Intrinsic::Allocated,
            Intrinsic::Adjustl,
            Intrinsic::Adjustr,
        ],
        b'c' => &[Intrinsic::Char, Intrinsic::Count, Intrinsic::Cshift],
        b'd' => &[Intrinsic::DotProduct],
        b'e' => &[Intrinsic::Eoshift],
        b'i' => &[
            Intrinsic::Iand,
            Intrinsic::Ior,
            Intrinsic::Ieor,
            Intrinsic::Ichar,
            Intrinsic::Index,
        ],
        b'l' => &[Intrinsic::Len, Intrinsic::Lbound, Intrinsic::LenTrim],
        b'm' => &[
            Intrinsic::Mod,
            Intrinsic::Max,
            Intrinsic::Min,
            Intrinsic::Merge,
            Intrinsic::Modulo,
            Intrinsic::Maxval,
            Intrinsic::Minval,
            Intrinsic::Maxloc,
            Intrinsic::Minloc,
            Intrinsic::Matmul,
        ],
        b'p' => &[Intrinsic::Pack, Intrinsic::Product],
        b'r' => &[Intrinsic::Reshape],
        b's' => &[
            Intrinsic::Sum,
            Intrinsic::Sign,
            Intrinsic::Size,
            Intrinsic::Shape,
            Intrinsic::Spread,
        ],
        b't' => &[Intrinsic::Trim, Intrinsic::Transpose],
        b'u' => &[Intrinsic::Ubound, Intrinsic::Unpack],
        _ => &[],
    }
}

/// The intrinsic of a name in lower case. `None` exactly where no intrinsic has it.
pub fn interface(name: &[u8]) -> Option<Intrinsic>
    ensures some { IfSome result (λ which. name_of which ≡ name.now) }
    ensures none { IfNone result ((which : Intrinsic) → name_of which ≢ name.now) }
{
    let first = name.first()?;
    first_named(beginning(*first), name)
}

/// How an intrinsic makes its value.
pub fn sort_of(which: Intrinsic) -> Sort
    ensures { result ≡ sort_of which }
{
    match which {
        Intrinsic::Trim => Sort::ScalarText,
        Intrinsic::Size
        | Intrinsic::Shape
        | Intrinsic::Lbound
        | Intrinsic::Ubound
        | Intrinsic::Allocated
        | Intrinsic::Len => Sort::Inquiry,
        Intrinsic::Sum
        | Intrinsic::Product
        | Intrinsic::Maxval
        | Intrinsic::Minval
        | Intrinsic::All
        | Intrinsic::Any
        | Intrinsic::Count
        | Intrinsic::Maxloc
        | Intrinsic::Minloc
        | Intrinsic::DotProduct
        | Intrinsic::Matmul => Sort::Reduction,
        Intrinsic::Transpose
        | Intrinsic::Cshift
        | Intrinsic::Eoshift
        | Intrinsic::Spread
        | Intrinsic::Pack
        | Intrinsic::Unpack
        | Intrinsic::Reshape => Sort::Rearranging,
        _ => Sort::Elemental,
    }
}
