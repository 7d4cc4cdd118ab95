//! Reserved words, and words that are left out, as `specs/Words` says.

ghost use Rattle.std.specs.Prelude.{◌≡◌, option_map};
ghost use Rattle.f95_parser.specs.Words.{one, two, action_word, block_word, end_word, reserved, is_left_out_shape};
ghost use Rattle.f95_parser.specs.Words.{is_left_out_trait, is_left_out_access, is_left_out_jump, is_left_out_transfer};
ghost use Rattle.f95_parser.specs.Words.{is_left_out};

use f95_parts::is;
use f95_tree::{ActionWord, BlockWord, Keyword, PrefixWord, TypeWord, UnitWord};

/// A keyword, or two that are joined.
type Keywords = (Keyword, Option<Keyword>);

fn one(keyword: Keyword) -> Option<Keywords>
    ensures { result ≡ one keyword }
{
    Some((keyword, None))
}

fn two(first: Keyword, second: Keyword) -> Option<Keywords>
    ensures { result ≡ two first second }
{
    Some((first, Some(second)))
}

fn action_word(word: &[u8]) -> Option<Keywords>
    ensures { result ≡ action_word word.now }
{
    if is(b"call", word) {
        one(Keyword::Action(ActionWord::Call))
    } else if is(b"allocate", word) {
        one(Keyword::Action(ActionWord::Allocate))
    } else if is(b"deallocate", word) {
        one(Keyword::Action(ActionWord::Deallocate))
    } else if is(b"print", word) {
        one(Keyword::Action(ActionWord::Print))
    } else if is(b"write", word) {
        one(Keyword::Action(ActionWord::Write))
    } else if is(b"read", word) {
        one(Keyword::Action(ActionWord::Read))
    } else if is(b"stop", word) {
        one(Keyword::Action(ActionWord::Stop))
    } else if is(b"return", word) {
        one(Keyword::Action(ActionWord::Return))
    } else if is(b"continue", word) {
        one(Keyword::Action(ActionWord::Continue))
    } else if is(b"exit", word) {
        one(Keyword::Action(ActionWord::Exit))
    } else if is(b"cycle", word) {
        one(Keyword::Action(ActionWord::Cycle))
    } else {
        None
    }
}

fn block_word(word: &[u8]) -> Option<Keywords>
    ensures { result ≡ block_word word.now }
{
    if is(b"if", word) {
        one(Keyword::Block(BlockWord::If))
    } else if is(b"select", word) {
        one(Keyword::Block(BlockWord::Select))
    } else if is(b"do", word) {
        one(Keyword::Block(BlockWord::Do))
    } else if is(b"where", word) {
        one(Keyword::Block(BlockWord::Where))
    } else if is(b"forall", word) {
        one(Keyword::Block(BlockWord::Forall))
    } else if is(b"else", word) {
        one(Keyword::Else)
    } else if is(b"elseif", word) {
        two(Keyword::Else, Keyword::Block(BlockWord::If))
    } else if is(b"elsewhere", word) {
        two(Keyword::Else, Keyword::Block(BlockWord::Where))
    } else if is(b"case", word) {
        one(Keyword::Case)
    } else if is(b"selectcase", word) {
        two(Keyword::Block(BlockWord::Select), Keyword::Case)
    } else {
        action_word(word)
    }
}

fn end_word(word: &[u8]) -> Option<Keywords>
    ensures { result ≡ end_word word.now }
{
    if is(b"end", word) {
        one(Keyword::End)
    } else if is(b"endif", word) {
        two(Keyword::End, Keyword::Block(BlockWord::If))
    } else if is(b"endselect", word) {
        two(Keyword::End, Keyword::Block(BlockWord::Select))
    } else if is(b"enddo", word) {
        two(Keyword::End, Keyword::Block(BlockWord::Do))
    } else if is(b"endwhere", word) {
        two(Keyword::End, Keyword::Block(BlockWord::Where))
    } else if is(b"endforall", word) {
        two(Keyword::End, Keyword::Block(BlockWord::Forall))
    } else if is(b"endprogram", word) {
        two(Keyword::End, Keyword::Unit(UnitWord::Program))
    } else if is(b"endmodule", word) {
        two(Keyword::End, Keyword::Unit(UnitWord::Module))
    } else if is(b"endsubroutine", word) {
        two(Keyword::End, Keyword::Unit(UnitWord::Subroutine))
    } else if is(b"endfunction", word) {
        two(Keyword::End, Keyword::Unit(UnitWord::Function))
    } else {
        block_word(word)
    }
}

/// What a reserved word stands for; `None` where the word is none.
pub fn reserved(word: &[u8]) -> Option<Keywords>
    ensures { result ≡ reserved word.now }
{
    if is(b"program", word) {
        one(Keyword::Unit(UnitWord::Program))
    } else if is(b"module", word) {
        one(Keyword::Unit(UnitWord::Module))
    } else if is(b"subroutine", word) {
        one(Keyword::Unit(UnitWord::Subroutine))
    } else if is(b"function", word) {
        one(Keyword::Unit(UnitWord::Function))
    } else if is(b"integer", word) {
        one(Keyword::Type(TypeWord::Integer))
    } else if is(b"logical", word) {
        one(Keyword::Type(TypeWord::Logical))
    } else if is(b"character", word) {
        one(Keyword::Type(TypeWord::Character))
    } else if is(b"recursive", word) {
        one(Keyword::Prefix(PrefixWord::Recursive))
    } else if is(b"pure", word) {
        one(Keyword::Prefix(PrefixWord::Pure))
    } else if is(b"elemental", word) {
        one(Keyword::Prefix(PrefixWord::Elemental))
    } else if is(b"contains", word) {
        one(Keyword::Contains)
    } else if is(b"implicit", word) {
        one(Keyword::Implicit)
    } else if is(b"use", word) {
        one(Keyword::Use)
    } else {
        end_word(word)
    }
}

fn is_left_out_shape(word: &[u8]) -> bool
    ensures { result ≡ is_left_out_shape word.now }
{
    is(b"allocatable", word)
        || is(b"common", word)
        || is(b"complex", word)
        || is(b"data", word)
        || is(b"dimension", word)
        || is(b"double", word)
        || is(b"doubleprecision", word)
        || is(b"equivalence", word)
}

fn is_left_out_trait(word: &[u8]) -> bool
    ensures { result ≡ is_left_out_trait word.now }
{
    is(b"external", word)
        || is(b"intent", word)
        || is(b"intrinsic", word)
        || is(b"namelist", word)
        || is(b"optional", word)
        || is(b"parameter", word)
        || is(b"pointer", word)
}

fn is_left_out_access(word: &[u8]) -> bool
    ensures { result ≡ is_left_out_access word.now }
{
    is(b"private", word)
        || is(b"public", word)
        || is(b"real", word)
        || is(b"save", word)
        || is(b"sequence", word)
        || is(b"target", word)
        || is(b"type", word)
}

fn is_left_out_jump(word: &[u8]) -> bool
    ensures { result ≡ is_left_out_jump word.now }
{
    is(b"assign", word)
        || is(b"backspace", word)
        || is(b"block", word)
        || is(b"blockdata", word)
        || is(b"close", word)
        || is(b"endfile", word)
        || is(b"entry", word)
        || is(b"format", word)
        || is(b"go", word)
}

fn is_left_out_transfer(word: &[u8]) -> bool
    ensures { result ≡ is_left_out_transfer word.now }
{
    is(b"goto", word)
        || is(b"include", word)
        || is(b"inquire", word)
        || is(b"interface", word)
        || is(b"nullify", word)
        || is(b"open", word)
        || is(b"pause", word)
        || is(b"rewind", word)
}

pub fn is_left_out(word: &[u8]) -> bool
    ensures { result ≡ is_left_out word.now }
{
    is_left_out_shape(word)
        || is_left_out_trait(word)
        || is_left_out_access(word)
        || is_left_out_jump(word)
        || is_left_out_transfer(word)
}
