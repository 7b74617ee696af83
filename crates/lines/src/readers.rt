// What a line says, or its fault.
ghost use Rattle.std.specs.Prelude.{◌≡◌};
ghost use Rattle.sheet.specs.PartialSheet.{partial_sheet_of};
ghost use Rattle.lines.specs.Lines.{word_list, allowed, key_full, sized, operation_of, constant, expression_of, statement_of, bound, check_not_below, fresh, variable_of, run_of, checked_key, item_of, line_of};

use crate::forms;
use crate::items::{Fault, Keyword, Role, Words};
use crate::operands::{Operand, read_operands};
use crate::shapes::Operation;
use crate::sizes::expression_size;
use crate::words::cut_words;
use sheet::{Draft, Expression, Item, Name, Variable};
use text::Reader;

// The longest line, in bytes.
const LONGEST_LINE: usize = 64;

// The largest size of an expression.
const MOST_SIZE: u64 = 1_000_000_000;

// An expression with its size.
fn with_size(draft: &Draft, e: Expression) -> Result<Item, Fault>
    ensures { result ≡ sized (partial_sheet_of draft.now) e }
{
    let size = expression_size(draft, e);
    if size <= MOST_SIZE {
        // A cast, since the limit is below that of `u32`, and `try_from` would have one more error to answer.
        Ok(Item::Expression(e, size as u32))
    } else {
        Err(Fault::Size)
    }
}

// The operation that the words of a line name, with the operands that they tell.
fn read_operation<O: Operation>(draft: &Draft, words: Words) -> Result<O, Fault>
    ensures { result ≡ operation_of O.named O.roles O.with (partial_sheet_of draft.now) (word_list words.entry) }
{
    let operation = O::named(words).ok_or(Fault::Form)?;
    let operands = read_operands(draft, operation.roles(), words)?;
    Ok(operation.with(operands))
}

// The constant of `num C`.
fn read_constant(draft: &Draft, word: &[u8]) -> Result<Item, Fault>
    ensures { result ≡ constant (partial_sheet_of draft.now) word.now }
{
    let n = text::number(word).ok_or(Fault::Number(2))?;
    with_size(draft, Expression::Num(n))
}

// An `expr` line.
fn read_expression(draft: &Draft, words: Words) -> Result<Item, Fault>
    ensures { result ≡ expression_of (partial_sheet_of draft.now) (word_list words.entry) }
{
    match words {
        Words::Two(b"num", a) => read_constant(draft, a),
        _ => with_size(draft, read_operation(draft, words)?),
    }
}

// A `stmt` line.
fn read_statement(draft: &Draft, words: Words) -> Result<Item, Fault>
    ensures { result ≡ statement_of (partial_sheet_of draft.now) (word_list words.entry) }
{
    Ok(Item::Statement(read_operation(draft, words)?))
}

// A bound of a range.
fn read_bound(at: u8, word: &[u8]) -> Result<i32, Fault>
    ensures { result ≡ bound at word.now }
{
    text::number(word).ok_or(Fault::Number(at))
}

// HIGH, which is not below LOW.
fn check_not_below(low: i32, high: i32) -> Result<i32, Fault>
    ensures { result ≡ check_not_below low high }
{
    if low <= high {
        Ok(high)
    } else {
        Err(Fault::Number(3))
    }
}

// A name that is not declared yet.
fn fresh_name(draft: &Draft, word: &[u8]) -> Result<Name, Fault>
    ensures { result ≡ fresh (partial_sheet_of draft.now) word.now }
{
    sheet::make_name(word)
        .filter(|name| sheet::find_variable(&draft.tables.variables, *name).is_none())
        .ok_or(Fault::Name(1))
}

// A `var` line.
fn read_variable(draft: &Draft, words: Words) -> Result<Item, Fault>
    ensures { result ≡ variable_of (partial_sheet_of draft.now) (word_list words.entry) }
{
    let Words::Three(word, a, b) = words else {
        return Err(Fault::Form);
    };
    let low = read_bound(2, a)?;
    let high = read_bound(3, b)?;
    let high = check_not_below(low, high)?;
    let name = fresh_name(draft, word)?;
    Ok(Item::Variable(Variable { name, low, high }))
}

// A `run` line.
fn read_run(draft: &Draft, words: Words) -> Result<Item, Fault>
    ensures { result ≡ run_of (partial_sheet_of draft.now) (word_list words.entry) }
{
    let Words::One(word) = words else {
        return Err(Fault::Form);
    };
    let role = Some(Role::Statement);
    let operand = Operand { at: 1, role, word };
    let n = operand.check_exists(draft, operand.operand_number()?)?;
    Ok(Item::Run(n))
}

// Whether a line with this key may stand here.
fn may_stand(draft: &Draft, key: Keyword) -> bool
    ensures { result ≡ allowed (partial_sheet_of draft.now) key }
{
    let tables = &draft.tables;
    match key {
        Keyword::Sheet => tables.variables.is_empty(),
        Keyword::Var => tables.expressions.is_empty()
            && tables.statements.is_empty()
            && draft.run.is_none(),
        Keyword::Expr => !tables.variables.is_empty()
            && tables.statements.is_empty()
            && draft.run.is_none(),
        Keyword::Stmt => !tables.variables.is_empty() && draft.run.is_none(),
        Keyword::Run => !tables.variables.is_empty() && !tables.statements.is_empty(),
    }
}

// Whether there are already as many lines with this key as there may be.
fn is_full(draft: &Draft, key: Keyword) -> bool
    ensures { result ≡ key_full (partial_sheet_of draft.now) key }
{
    match key {
        Keyword::Sheet => true,
        Keyword::Var => draft.tables.variables.len() >= sheet::MOST_VARIABLES,
        Keyword::Expr => draft.tables.expressions.len() >= sheet::MOST_EXPRESSIONS,
        Keyword::Stmt => draft.tables.statements.len() >= sheet::MOST_STATEMENTS,
        Keyword::Run => draft.run.is_some(),
    }
}

// A line's key, where it may come.
fn check_key(draft: &Draft, key: Keyword) -> Result<Keyword, Fault>
    ensures { result ≡ checked_key (partial_sheet_of draft.now) key }
{
    if !may_stand(draft, key) {
        Err(Fault::Key)
    } else if is_full(draft, key) {
        Err(Fault::Many)
    } else {
        Ok(key)
    }
}

// A line with this key and these words.
fn read_item(draft: &Draft, key: Keyword, words: Words) -> Result<Item, Fault>
    ensures { result ≡ item_of (partial_sheet_of draft.now) key (word_list words.entry) }
{
    // An arm a key, since that is what the format says: each kind of line has its own form.
    match key {
        Keyword::Sheet => Err(Fault::Many),
        Keyword::Var => read_variable(draft, words),
        Keyword::Expr => read_expression(draft, words),
        Keyword::Stmt => read_statement(draft, words),
        Keyword::Run => read_run(draft, words),
    }
}

// What a line says after those that the draft holds, or its fault.
pub fn read_line(draft: &Draft, line: &[u8]) -> Result<Item, Fault>
    ensures { result ≡ line_of (partial_sheet_of draft.now) line.now }
{
    if line.len() > LONGEST_LINE {
        return Err(Fault::Long);
    }
    let mut reader = Reader::new(line);
    let word = reader.key().ok_or(Fault::Key)?;
    let key = check_key(draft, forms::keyword(word).ok_or(Fault::Key)?)?;
    let words = cut_words(&mut reader).ok_or(Fault::Form)?;
    read_item(draft, key, words)
}
