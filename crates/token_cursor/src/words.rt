// What the words of a text mean.
ghost use Rattle.std.specs.Prelude.{◌≡◌, drop};
ghost use Rattle.affine_grammar.specs.Token as tok;

use affine_ast::{Element, Pick, Scalar};
use affine_grammar::{Action, Definition, Operator};
use int_ops::{CastKind, Op};

#[tactic(auto, unfolding(affine_grammar::specs::Token::element_of))]
pub(crate) fn element_of(word: &[u8]) -> Option<Element>
    ensures { result ≡ tok.element_of word.now }
{
    if word == b"i8".as_slice() {
        Some(Element::I8)
    } else if word == b"i16".as_slice() {
        Some(Element::I16)
    } else if word == b"i32".as_slice() {
        Some(Element::I32)
    } else if word == b"i64".as_slice() {
        Some(Element::I64)
    } else {
        None
    }
}

#[tactic(auto, unfolding(affine_grammar::specs::Token::scalar_of))]
pub(crate) fn scalar_of(word: &[u8]) -> Option<Scalar>
    ensures { result ≡ tok.scalar_of word.now }
{
    if word == b"index".as_slice() {
        return Some(Scalar::Index);
    }
    match element_of(word) {
        Some(element) => Some(Scalar::Int(element)),
        None => None,
    }
}

/// Whether the word is a type that may stand behind a memory space.
#[tactic(auto, unfolding(affine_grammar::specs::Token::int_type_of))]
pub(crate) fn int_type_of(word: &[u8]) -> Option<()>
    ensures { result ≡ tok.int_type_of word.now }
{
    if word == b"i32".as_slice() || word == b"i64".as_slice() {
        Some(())
    } else {
        None
    }
}

/// The operators of products that are words.
#[tactic(auto, unfolding(affine_grammar::specs::Token::product_word))]
pub(crate) fn product_word(word: &[u8]) -> Option<Operator>
    ensures { result ≡ tok.product_word word.now }
{
    if word == b"floordiv".as_slice() {
        Some(Operator::FloorDiv)
    } else if word == b"ceildiv".as_slice() {
        Some(Operator::CeilDiv)
    } else if word == b"mod".as_slice() {
        Some(Operator::Mod)
    } else {
        None
    }
}

/// The statements without a result.
#[tactic(auto, unfolding(affine_grammar::specs::Token::action_of))]
pub(crate) fn action_of(word: &[u8]) -> Option<Action>
    ensures { result ≡ tok.action_of word.now }
{
    if word == b"affine.for".as_slice() {
        Some(Action::For)
    } else if word == b"affine.if".as_slice() {
        Some(Action::If)
    } else if word == b"affine.store".as_slice() {
        Some(Action::Store)
    } else if word == b"memref.store".as_slice() {
        Some(Action::RawStore)
    } else if word == b"memref.dealloc".as_slice() {
        Some(Action::Dealloc)
    } else if word == b"affine.dma_start".as_slice() {
        Some(Action::Start)
    } else if word == b"affine.dma_wait".as_slice() {
        Some(Action::Wait)
    } else {
        None
    }
}

/// The statements behind a result.
#[tactic(auto, unfolding(affine_grammar::specs::Token::definition_of))]
pub(crate) fn definition_of(word: &[u8]) -> Option<Definition>
    ensures { result ≡ tok.definition_of word.now }
{
    if word == b"affine.apply".as_slice() {
        Some(Definition::Value(Pick::Apply))
    } else if word == b"affine.min".as_slice() {
        Some(Definition::Value(Pick::Min))
    } else if word == b"affine.max".as_slice() {
        Some(Definition::Value(Pick::Max))
    } else if word == b"affine.load".as_slice() {
        Some(Definition::Load)
    } else if word == b"memref.load".as_slice() {
        Some(Definition::RawLoad)
    } else if word == b"arith.constant".as_slice() {
        Some(Definition::Constant)
    } else if word == b"memref.alloc".as_slice() {
        Some(Definition::Alloc)
    } else {
        operation_of(word)
    }
}

fn operation_of(word: &[u8]) -> Option<Definition>
    ensures { result ≡ tok.meaning tok.operations word.now }
{
    if word == b"arith.addi".as_slice() {
        Some(Definition::Binary(Op::Add))
    } else if word == b"arith.subi".as_slice() {
        Some(Definition::Binary(Op::Sub))
    } else if word == b"arith.muli".as_slice() {
        Some(Definition::Binary(Op::Mul))
    } else if word == b"arith.divsi".as_slice() {
        Some(Definition::Binary(Op::DivS))
    } else if word == b"arith.remsi".as_slice() {
        Some(Definition::Binary(Op::RemS))
    } else if word == b"arith.divui".as_slice() {
        Some(Definition::Binary(Op::DivU))
    } else if word == b"arith.remui".as_slice() {
        Some(Definition::Binary(Op::RemU))
    } else if word == b"arith.floordivsi".as_slice() {
        Some(Definition::Binary(Op::FloorDivS))
    } else if word == b"arith.ceildivsi".as_slice() {
        Some(Definition::Binary(Op::CeilDivS))
    } else {
        bitwise_of(word)
    }
}

fn bitwise_of(word: &[u8]) -> Option<Definition>
    ensures { result ≡ tok.meaning (drop 9 tok.operations) word.now }
{
    if word == b"arith.andi".as_slice() {
        Some(Definition::Binary(Op::And))
    } else if word == b"arith.ori".as_slice() {
        Some(Definition::Binary(Op::Or))
    } else if word == b"arith.xori".as_slice() {
        Some(Definition::Binary(Op::Xor))
    } else if word == b"arith.maxsi".as_slice() {
        Some(Definition::Binary(Op::MaxS))
    } else if word == b"arith.minsi".as_slice() {
        Some(Definition::Binary(Op::MinS))
    } else if word == b"arith.maxui".as_slice() {
        Some(Definition::Binary(Op::MaxU))
    } else if word == b"arith.minui".as_slice() {
        Some(Definition::Binary(Op::MinU))
    } else {
        cast_of(word)
    }
}

fn cast_of(word: &[u8]) -> Option<Definition>
    ensures { result ≡ tok.meaning (drop 16 tok.operations) word.now }
{
    if word == b"arith.index_cast".as_slice() {
        Some(Definition::Cast(CastKind::Index))
    } else if word == b"arith.extsi".as_slice() {
        Some(Definition::Cast(CastKind::ExtS))
    } else if word == b"arith.extui".as_slice() {
        Some(Definition::Cast(CastKind::ExtU))
    } else if word == b"arith.trunci".as_slice() {
        Some(Definition::Cast(CastKind::Trunc))
    } else {
        None
    }
}
