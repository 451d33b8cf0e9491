//! `$apply` (OData Data Aggregation 4.0, section 3).

ghost use Rattle.std.specs.Prelude.{◌<◌, length, codes, string_bytes, IfOk, OnOk, OnErr, List, ℕ};
ghost use Rattle.odata_lex.specs.Lexer.{AreTokens};
ghost use Rattle.odata_parse.specs.Apply.{ReadsName, ReadsAlias, ReadsAggregateItem, ReadsAggregate, ReadsTransformation};
ghost use Rattle.odata_parse.specs.Parsing.{Finds, ParsesAll, IsParsedApply};
ghost use Rattle.odata_parse.specs.ParsingApply.{TakesMethod, NoMethod, ParsesColumn, FindsBehind, ParsesBehind};
ghost use Rattle.odata_parse.specs.Tree.{aggregate_item_view, aggregation_view, AggregateItemOf, TransformationOf, transformation_view};

use crate::cursor::Cursor;
use crate::depth::has_slashes;
use crate::expression::{TOP, phrase};
use crate::fault::{ParseFault, PhraseFault};
use crate::keyword::{aggregation_method, spells};
use crate::list::{Item, enclosed};
use crate::tree::{AggregateItem, AggregationMethod, Transformation};
use crate::whole::whole_list;
use odata_lex::{Token, TokenKind};
use std::alloc::Global;

/// Returns a name.
fn name(alloc: Global, tokens: &mut Cursor<'_>) -> Result<String, PhraseFault>
    ensures found { Finds string_bytes ReadsName tokens.old result tokens.new }
    ensures each { ParsesAll string_bytes ReadsName tokens.old result tokens.new }
    ensures shorter { OnOk result (length tokens.new < length tokens.old) }
{
    let word = tokens.expect(TokenKind::Word)?;
    Ok(String::from_str(alloc, word.text)?)
}

impl Item for String {
    ghost Tree = { List ℕ };

    ghost tree = { string_bytes };

    ghost reads = { ReadsName };

    fn read(alloc: Global, tokens: &mut Cursor<'_>) -> Result<String, PhraseFault> {
        Ok(name(alloc, tokens)?)
    }
}

/// Reads `as` and a name.
fn alias(alloc: Global, tokens: &mut Cursor<'_>) -> Result<String, PhraseFault>
    ensures found { Finds string_bytes ReadsAlias tokens.old result tokens.new }
    ensures each { ParsesAll string_bytes ReadsAlias tokens.old result tokens.new }
    ensures shorter { OnOk result (length tokens.new < length tokens.old) }
{
    tokens.expect_keyword("as")?;
    Ok(name(alloc, tokens)?)
}

/// Returns the method that comes next.
fn method(tokens: &mut Cursor<'_>) -> Result<AggregationMethod, PhraseFault>
    ensures found { IfOk result (λ m. TakesMethod m tokens.old tokens.new) }
    ensures none { OnErr result (NoMethod tokens.old) }
{
    let word = tokens.expect(TokenKind::Word)?;
    aggregation_method(word.text).ok_or(PhraseFault::Syntax)
}

/// Returns a column with its method and alias.
fn aggregated(alloc: Global, tokens: &mut Cursor<'_>) -> Result<AggregateItem, PhraseFault>
    ensures found { Finds aggregate_item_view ReadsAggregateItem tokens.old result tokens.new }
    ensures each { ParsesColumn tokens.old result tokens.new }
    ensures shorter { OnOk result (length tokens.new < length tokens.old) }
{
    let column = name(alloc, tokens)?;
    tokens.expect_keyword("with")?;
    let method = method(tokens)?;
    let alias = alias(alloc, tokens)?;
    Ok(AggregateItem::Column {
        column,
        method,
        alias,
    })
}

impl Item for AggregateItem {
    ghost Tree = { AggregateItemOf };

    ghost tree = { aggregate_item_view };

    ghost reads = { ReadsAggregateItem };

    fn read(alloc: Global, tokens: &mut Cursor<'_>) -> Result<AggregateItem, PhraseFault> {
        let Some(first) = tokens.take(TokenKind::Dollar) else {
            return Ok(aggregated(alloc, tokens)?);
        };
        if !spells(first.text, "$count") {
            return Err(PhraseFault::Syntax);
        }
        let alias = alias(alloc, tokens)?;
        Ok(AggregateItem::Count { alias })
    }
}

/// Reads `aggregate` and its items.
fn aggregate(alloc: Global, tokens: &mut Cursor<'_>) -> Result<Vec<AggregateItem>, PhraseFault>
    ensures found { Finds aggregation_view ReadsAggregate tokens.old result tokens.new }
    ensures each { ParsesAll aggregation_view ReadsAggregate tokens.old result tokens.new }
    ensures shorter { OnOk result (length tokens.new < length tokens.old) }
{
    tokens.expect_keyword("aggregate")?;
    Ok(enclosed::<AggregateItem>(alloc, tokens, TokenKind::Comma)?)
}

/// Reads what follows `filter`.
fn filter(alloc: Global, tokens: &mut Cursor<'_>) -> Result<Transformation, PhraseFault>
    ensures found { FindsBehind (codes "filter") tokens.old result tokens.new }
    ensures each { ParsesBehind (codes "filter") tokens.old result tokens.new }
    ensures shorter { OnOk result (length tokens.new < length tokens.old) }
{
    tokens.expect(TokenKind::OpenParenthesis)?;
    let expr = phrase(alloc, tokens, TOP)?;
    tokens.expect(TokenKind::CloseParenthesis)?;
    Ok(Transformation::Filter(expr))
}

/// Reads what follows `groupby`.
fn group(alloc: Global, tokens: &mut Cursor<'_>) -> Result<Transformation, PhraseFault>
    ensures found { FindsBehind (codes "groupby") tokens.old result tokens.new }
    ensures each { ParsesBehind (codes "groupby") tokens.old result tokens.new }
    ensures shorter { OnOk result (length tokens.new < length tokens.old) }
{
    tokens.expect(TokenKind::OpenParenthesis)?;
    let names = enclosed::<String>(alloc, tokens, TokenKind::Comma)?;
    if let Some(_) = tokens.take(TokenKind::Comma) {
        let items = aggregate(alloc, tokens)?;
        tokens.expect(TokenKind::CloseParenthesis)?;
        return Ok(Transformation::GroupBy {
            names,
            aggregate: Some(items),
        });
    }
    tokens.expect(TokenKind::CloseParenthesis)?;
    Ok(Transformation::GroupBy {
        names,
        aggregate: None,
    })
}

impl Item for Transformation {
    ghost Tree = { TransformationOf };

    ghost tree = { transformation_view };

    ghost reads = { ReadsTransformation };

    fn read(alloc: Global, tokens: &mut Cursor<'_>) -> Result<Transformation, PhraseFault> {
        if let Some(_) = tokens.take_keyword("filter") {
            return Ok(filter(alloc, tokens)?);
        }
        if let Some(_) = tokens.take_keyword("groupby") {
            return Ok(group(alloc, tokens)?);
        }
        let items = aggregate(alloc, tokens)?;
        Ok(Transformation::Aggregate(items))
    }
}

/// Returns the transformations that all the tokens are, at least one, and fewer `/` between them than the limit.
pub fn parse_apply(
    alloc: Global,
    source: &str,
    tokens: &[Token],
    limit: u32,
) -> Result<Vec<Transformation>, ParseFault>
    requires { AreTokens source.now tokens.now }
    ensures { IsParsedApply limit source.now tokens.now result }
{
    if has_slashes(source, tokens, limit) {
        return Err(ParseFault::TooDeep);
    }
    whole_list::<Transformation>(alloc, source, tokens, TokenKind::Slash)
}
