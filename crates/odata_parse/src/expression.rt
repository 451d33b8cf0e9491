//! Expressions, level by level (OData 4.01 URL Conventions, sections 5.1.1 and 5.1.1.15). A level of operators that group to the left
//! is a loop, so the depth of calls does not grow with the number of operators, but with parentheses and operators before an
//! operand alone.

ghost use Rattle.std.specs.Prelude.{◌≡◌, ◌<◌, ◌≤◌, ◌∷◌, length, IfSome, IfNone, OnOk};
ghost use Rattle.odata_lex.specs.Lexer.{AreTokens};
ghost use Rattle.odata_lex.specs.declared.token.TokenKind.TheVariants.{Word};
ghost use Rattle.odata_parse.specs.Cursor.{lexeme_view, TakesOperator, NoOperator, TakesUnaryOperator, NoUnaryOperator};
ghost use Rattle.odata_parse.specs.Expression.{IsFilter, level_of, Reads, top};
ghost use Rattle.odata_parse.specs.Parsing.{FindsExpr, ParsesExpr, FindsCall, ParsesCall, IsParsed};
ghost use Rattle.odata_parse.specs.Tree.{expr_view, ExprOf};

use crate::cursor::{Cursor, Lexeme};
use crate::fault::{ParseFault, PhraseFault};
use crate::keyword::{binary_function, binary_operator, spells, unary_function};
use crate::list::{Item, enclosed};
use crate::literal::{literal_of, word_literal};
use crate::tree::{BinaryOperator, Expr, Literal, LogicOperator, UnaryOperator};
use crate::whole::whole_item;
use cell_types::ComparisonOperator;
use odata_lex::{Token, TokenKind};
use std::alloc::Global;
use typed_trees::ArithmeticOperator;

/// The level of a whole expression.
pub(crate) const TOP: usize = 8;

/// The level of `-` and `not`.
const UNARY: usize = 2;

/// Returns how loosely an operator binds.
fn level(operator: BinaryOperator) -> usize
    ensures { result ≡ level_of operator }
{
    match operator {
        BinaryOperator::Arithmetic(ArithmeticOperator::Add | ArithmeticOperator::Sub) => 4,
        BinaryOperator::Arithmetic(_) => 3,
        BinaryOperator::Comparison(ComparisonOperator::Equal | ComparisonOperator::NotEqual) => 6,
        BinaryOperator::Comparison(_) => 5,
        BinaryOperator::Logic(LogicOperator::And) => 7,
        BinaryOperator::Logic(LogicOperator::Or) => TOP,
    }
}

/// Takes the next token if it is an operator of a level.
fn take_operator(tokens: &mut Cursor<'_>, wanted: usize) -> Option<BinaryOperator>
    ensures some { IfSome result (λ o. TakesOperator wanted o tokens.old tokens.new) }
    ensures none { IfNone result ((tokens.new ≡ tokens.old) × NoOperator wanted tokens.old) }
{
    let first = tokens.peek()?;
    if first.kind != TokenKind::Word {
        return None;
    }
    let operator = binary_operator(first.text)?;
    if level(operator) != wanted {
        return None;
    }
    tokens.skip();
    Some(operator)
}

/// Takes the next token if it is an operator before its operand.
fn take_unary_operator(tokens: &mut Cursor<'_>) -> Option<UnaryOperator>
    ensures some { IfSome result (λ o. TakesUnaryOperator o tokens.old tokens.new) }
    ensures none { IfNone result ((tokens.new ≡ tokens.old) × NoUnaryOperator tokens.old) }
{
    if let Some(_) = tokens.take(TokenKind::Minus) {
        return Some(UnaryOperator::Negate);
    }
    if let Some(_) = tokens.take_keyword("not") {
        return Some(UnaryOperator::Not);
    }
    None
}

/// Returns a phrase of a level, as long as it can be.
#[cycle(expression)]
pub(crate) fn phrase(
    alloc: Global,
    tokens: &mut Cursor<'_>,
    level: usize,
) -> Result<Expr, PhraseFault>
    requires above { 2 ≤ level }
    requires within { level ≤ 8 }
    ensures found { FindsExpr level tokens.old result tokens.new }
    ensures each { ParsesExpr level tokens.old result tokens.new }
    ensures shorter { OnOk result (length tokens.new < length tokens.old) }
{
    if level == UNARY {
        return signed(alloc, tokens);
    }
    let mut left = phrase(alloc, tokens, level - 1)?;
    while let Some(operator) = take_operator(tokens, level) {
        let right = phrase(alloc, tokens, level - 1)?;
        left = Expr::Binary(operator, Box::new(alloc, left)?, Box::new(alloc, right)?);
    }
    Ok(left)
}

/// Reads `-` and `not`, and their operand.
#[cycle(expression)]
fn signed(alloc: Global, tokens: &mut Cursor<'_>) -> Result<Expr, PhraseFault>
    ensures found { FindsExpr 2 tokens.old result tokens.new }
    ensures each { ParsesExpr 2 tokens.old result tokens.new }
    ensures shorter { OnOk result (length tokens.new < length tokens.old) }
{
    let Some(operator) = take_unary_operator(tokens) else {
        return Ok(member(alloc, tokens)?);
    };
    let operand = signed(alloc, tokens)?;
    Ok(Expr::Unary(operator, Box::new(alloc, operand)?))
}

/// Reads a primary, and the list that it may be in.
#[cycle(expression)]
fn member(alloc: Global, tokens: &mut Cursor<'_>) -> Result<Expr, PhraseFault>
    ensures found { FindsExpr 1 tokens.old result tokens.new }
    ensures each { ParsesExpr 1 tokens.old result tokens.new }
    ensures shorter { OnOk result (length tokens.new < length tokens.old) }
{
    let value = primary(alloc, tokens)?;
    let Some(_) = tokens.take_keyword("in") else {
        return Ok(value);
    };
    let items = enclosed::<Literal>(alloc, tokens, TokenKind::Comma)?;
    Ok(Expr::In(Box::new(alloc, value)?, items))
}

/// Returns a value, a name, a call, or an expression in parentheses.
#[cycle(expression)]
fn primary(alloc: Global, tokens: &mut Cursor<'_>) -> Result<Expr, PhraseFault>
    ensures found { FindsExpr 0 tokens.old result tokens.new }
    ensures each { ParsesExpr 0 tokens.old result tokens.new }
    ensures shorter { OnOk result (length tokens.new < length tokens.old) }
{
    let Some(first) = tokens.next() else {
        return Err(PhraseFault::Syntax);
    };
    match first.kind {
        TokenKind::OpenParenthesis => {
            let inner = phrase(alloc, tokens, TOP)?;
            tokens.expect(TokenKind::CloseParenthesis)?;
            Ok(inner)
        }
        TokenKind::Word => Ok(word(alloc, tokens, first)?),
        _ => Ok(Expr::Literal(literal_of(alloc, first)?)),
    }
}

/// Returns what begins with a word: a value, a name or a call.
#[cycle(expression)]
fn word(alloc: Global, tokens: &mut Cursor<'_>, first: Lexeme<'_>) -> Result<Expr, PhraseFault>
    requires { first.kind ≡ Word }
    ensures found { FindsExpr 0 (lexeme_view first.entry ∷ tokens.old) result tokens.new }
    ensures each { ParsesExpr 0 (lexeme_view first.entry ∷ tokens.old) result tokens.new }
    ensures shorter { OnOk result (length tokens.new ≤ length tokens.old) }
{
    if let Some(literal) = word_literal(first.text) {
        return Ok(Expr::Literal(literal));
    }
    if let Some(_) = tokens.take(TokenKind::OpenParenthesis) {
        return Ok(call(alloc, tokens, first)?);
    }
    if spells(first.text, "not") {
        return Err(PhraseFault::Syntax);
    }
    Ok(Expr::Name(String::from_str(alloc, first.text)?))
}

/// Reads a call of a function, from after its first parenthesis on.
#[cycle(expression)]
fn call(alloc: Global, tokens: &mut Cursor<'_>, function: Lexeme<'_>) -> Result<Expr, PhraseFault>
    requires { function.kind ≡ Word }
    ensures found { FindsCall (lexeme_view function.entry) tokens.old result tokens.new }
    ensures each { ParsesCall (lexeme_view function.entry) tokens.old result tokens.new }
    ensures shorter { OnOk result (length tokens.new ≤ length tokens.old) }
{
    if let Some(function) = unary_function(function.text) {
        let argument = phrase(alloc, tokens, TOP)?;
        tokens.expect(TokenKind::CloseParenthesis)?;
        return Ok(Expr::UnaryCall(function, Box::new(alloc, argument)?));
    }
    let Some(function) = binary_function(function.text) else {
        return Err(PhraseFault::Syntax);
    };
    let left = phrase(alloc, tokens, TOP)?;
    tokens.expect(TokenKind::Comma)?;
    let right = phrase(alloc, tokens, TOP)?;
    tokens.expect(TokenKind::CloseParenthesis)?;
    Ok(Expr::BinaryCall(function, Box::new(alloc, left)?, Box::new(alloc, right)?))
}

impl Item for Expr {
    ghost Tree = { ExprOf };

    ghost tree = { expr_view };

    ghost reads = { Reads top };

    fn read(alloc: Global, tokens: &mut Cursor<'_>) -> Result<Expr, PhraseFault> {
        Ok(phrase(alloc, tokens, TOP)?)
    }
}

/// Returns the expression that all the tokens are.
pub fn parse_filter(alloc: Global, source: &str, tokens: &[Token]) -> Result<Expr, ParseFault>
    requires { AreTokens source.now tokens.now }
    ensures { IsParsed expr_view IsFilter source.now tokens.now result }
{
    whole_item::<Expr>(alloc, source, tokens)
}
