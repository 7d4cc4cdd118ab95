//! The operators and the intrinsics of the typed unit, beside those of the source.
ghost use Rattle.std.specs.Prelude.{◌≡◌};
ghost use Rattle.well_typed.specs.Operations as spec;

use f95_tree::{Operator, Relation, Sign};
use f95_unit::{BinaryOp, Elemental, Inquiry, Rearranging, Reduction, UnaryOp};
use intrinsic_table::Intrinsic;
use well_typed::Family;

pub fn unary_of(sign: Sign) -> UnaryOp
    ensures { result ≡ spec.unary_of sign }
{
    match sign {
        Sign::Plus => UnaryOp::Plus,
        Sign::Minus => UnaryOp::Minus,
        Sign::Not => UnaryOp::Not,
    }
}

pub fn sign_of(op: UnaryOp) -> Sign
    ensures { result ≡ spec.sign_of op }
{
    match op {
        UnaryOp::Plus => Sign::Plus,
        UnaryOp::Minus => Sign::Minus,
        UnaryOp::Not => Sign::Not,
    }
}

fn comparison(relation: Relation) -> BinaryOp
    ensures { result ≡ spec.comparison relation }
{
    match relation {
        Relation::Equal => BinaryOp::Equal,
        Relation::NotEqual => BinaryOp::NotEqual,
        Relation::Less => BinaryOp::Less,
        Relation::LessEqual => BinaryOp::LessEqual,
        Relation::Greater => BinaryOp::Greater,
        Relation::GreaterEqual => BinaryOp::GreaterEqual,
    }
}

pub fn binary_of(operator: Operator) -> BinaryOp
    ensures { result ≡ spec.binary_of operator }
{
    match operator {
        Operator::Power => BinaryOp::Power,
        Operator::Multiply => BinaryOp::Multiply,
        Operator::Divide => BinaryOp::Divide,
        Operator::Add => BinaryOp::Add,
        Operator::Subtract => BinaryOp::Subtract,
        Operator::Concat => BinaryOp::Concat,
        Operator::Relation(relation) => comparison(relation),
        Operator::And => BinaryOp::And,
        Operator::Or => BinaryOp::Or,
        Operator::Equivalent => BinaryOp::Equivalent,
        Operator::NotEquivalent => BinaryOp::NotEquivalent,
    }
}

pub fn operator_of(op: BinaryOp) -> Operator
    ensures { result ≡ spec.operator_of op }
{
    match op {
        BinaryOp::Power => Operator::Power,
        BinaryOp::Multiply => Operator::Multiply,
        BinaryOp::Divide => Operator::Divide,
        BinaryOp::Add => Operator::Add,
        BinaryOp::Subtract => Operator::Subtract,
        BinaryOp::Concat => Operator::Concat,
        BinaryOp::Equal => Operator::Relation(Relation::Equal),
        BinaryOp::NotEqual => Operator::Relation(Relation::NotEqual),
        BinaryOp::Less => Operator::Relation(Relation::Less),
        BinaryOp::LessEqual => Operator::Relation(Relation::LessEqual),
        BinaryOp::Greater => Operator::Relation(Relation::Greater),
        BinaryOp::GreaterEqual => Operator::Relation(Relation::GreaterEqual),
        BinaryOp::And => Operator::And,
        BinaryOp::Or => Operator::Or,
        BinaryOp::Equivalent => Operator::Equivalent,
        BinaryOp::NotEquivalent => Operator::NotEquivalent,
    }
}

/// The sort of an intrinsic, and which of its sort it is.
pub fn family_of(which: Intrinsic) -> Family
    ensures { result ≡ spec.family_of which }
{
    match which {
        Intrinsic::Abs => Family::ByElement(Elemental::Abs),
        Intrinsic::Mod => Family::ByElement(Elemental::Mod),
        Intrinsic::Modulo => Family::ByElement(Elemental::Modulo),
        Intrinsic::Sign => Family::ByElement(Elemental::Sign),
        Intrinsic::Max => Family::ByElement(Elemental::Max),
        Intrinsic::Min => Family::ByElement(Elemental::Min),
        Intrinsic::Iand => Family::ByElement(Elemental::Iand),
        Intrinsic::Ior => Family::ByElement(Elemental::Ior),
        Intrinsic::Ieor => Family::ByElement(Elemental::Ieor),
        Intrinsic::Merge => Family::ByElement(Elemental::Merge),
        Intrinsic::Ichar => Family::ByElement(Elemental::Ichar),
        Intrinsic::Char => Family::ByElement(Elemental::Char),
        Intrinsic::LenTrim => Family::ByElement(Elemental::LenTrim),
        Intrinsic::Index => Family::ByElement(Elemental::Index),
        Intrinsic::Adjustl => Family::ByElement(Elemental::Adjustl),
        Intrinsic::Adjustr => Family::ByElement(Elemental::Adjustr),
        Intrinsic::Trim => Family::Trimming,
        Intrinsic::Size => Family::Asking(Inquiry::Size),
        Intrinsic::Shape => Family::Asking(Inquiry::Shape),
        Intrinsic::Lbound => Family::Asking(Inquiry::Lbound),
        Intrinsic::Ubound => Family::Asking(Inquiry::Ubound),
        Intrinsic::Allocated => Family::Asking(Inquiry::Allocated),
        Intrinsic::Len => Family::Asking(Inquiry::Len),
        Intrinsic::Sum => Family::Reducing(Reduction::Sum),
        Intrinsic::Product => Family::Reducing(Reduction::Product),
        Intrinsic::Maxval => Family::Reducing(Reduction::Maxval),
        Intrinsic::Minval => Family::Reducing(Reduction::Minval),
        Intrinsic::All => Family::Reducing(Reduction::All),
        Intrinsic::Any => Family::Reducing(Reduction::Any),
        Intrinsic::Count => Family::Reducing(Reduction::Count),
        Intrinsic::Maxloc => Family::Reducing(Reduction::Maxloc),
        Intrinsic::Minloc => Family::Reducing(Reduction::Minloc),
        Intrinsic::DotProduct => Family::Reducing(Reduction::DotProduct),
        Intrinsic::Matmul => Family::Reducing(Reduction::Matmul),
        Intrinsic::Transpose => Family::Moving(Rearranging::Transpose),
        Intrinsic::Cshift => Family::Moving(Rearranging::Cshift),
        Intrinsic::Eoshift => Family::Moving(Rearranging::Eoshift),
        Intrinsic::Spread => Family::Moving(Rearranging::Spread),
        Intrinsic::Pack => Family::Moving(Rearranging::Pack),
        Intrinsic::Unpack => Family::Moving(Rearranging::Unpack),
        Intrinsic::Reshape => Family::Moving(Rearranging::Reshape),
    }
}

/// An elemental function of the unit, as the table of intrinsics has it.
pub fn intrinsic_of(which: Elemental) -> Intrinsic
    ensures { result ≡ spec.intrinsic_of which }
{
    match which {
        Elemental::Abs => Intrinsic::Abs,
        Elemental::Mod => Intrinsic::Mod,
        Elemental::Modulo => Intrinsic::Modulo,
        Elemental::Sign => Intrinsic::Sign,
        Elemental::Max => Intrinsic::Max,
        Elemental::Min => Intrinsic::Min,
        Elemental::Iand => Intrinsic::Iand,
        Elemental::Ior => Intrinsic::Ior,
        Elemental::Ieor => Intrinsic::Ieor,
        Elemental::Merge => Intrinsic::Merge,
        Elemental::Ichar => Intrinsic::Ichar,
        Elemental::Char => Intrinsic::Char,
        Elemental::LenTrim => Intrinsic::LenTrim,
        Elemental::Index => Intrinsic::Index,
        Elemental::Adjustl => Intrinsic::Adjustl,
        Elemental::Adjustr => Intrinsic::Adjustr,
    }
}
