//! The file of `--columns`: a line for each thing that is asked for in a column, `TABLE.COLUMN: WORDS`.
use file_convert::{Rule, What};
use std::alloc::{AllocError, Global};

/// A line: the table without `.csv`, the header cell, and what is asked for.
#[derive(Clone, Copy)]
pub struct ColumnRule<'a> {
    table: &'a str,
    rule: Rule<'a>,
}

/// Returns what words ask for.
fn what_of(words: &str) -> Option<What<'_>> {
    match words {
        "text" => Some(What::Text),
        "round" | "decimal round" => Some(What::Round),
        "decimal comma" => Some(What::Comma),
        "decimal point" => Some(What::Point),
        "day first" => Some(What::DayFirst),
        "month first" => Some(What::MonthFirst),
        _ => Some(What::Null(words.strip_prefix("null ")?)),
    }
}

/// Returns the rule of a line.
fn rule_of(line: &str) -> Option<ColumnRule<'_>> {
    let (place, words) = line.rsplit_once(": ")?;
    let (table, title) = place.split_once('.')?;
    let what = what_of(words.trim())?;
    Some(ColumnRule {
        table,
        rule: Rule { title, what },
    })
}

/// Returns the rules of a text, or the number of the first line that is none. Empty lines and those that begin with `#` are ignored.
pub fn rules_in(
    alloc: Global,
    text: &str,
) -> Result<Result<Vec<ColumnRule<'_>>, usize>, AllocError> {
    let mut rules = Vec::new(alloc);
    let mut number: usize = 0;
    for line in text.lines() {
        number = number.saturating_add(1);
        if line.is_empty() || line.starts_with('#') {
            continue;
        }
        let Some(rule) = rule_of(line) else {
            return Ok(Err(number));
        };
        rules.push(rule).or(Err(AllocError))?;
    }
    Ok(Ok(rules))
}

/// Returns the rules for the columns of a table.
pub fn rules_of<'a>(
    alloc: Global,
    rules: &[ColumnRule<'a>],
    table: &str,
) -> Result<Vec<Rule<'a>>, AllocError> {
    let mut found = Vec::new(alloc);
    for rule in rules {
        if rule.table == table {
            found.push(rule.rule).or(Err(AllocError))?;
        }
    }
    Ok(found)
}
