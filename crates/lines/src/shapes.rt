// Operations: the words that name them, what their operands stand for, and what is made of them.
ghost use Rattle.std.specs.Prelude.{◌≡◌, ℕ, List, None, Some, Option};
ghost use Rattle.lines.specs.Lines.{word_list};
ghost use Rattle.lines.specs.Operations.{Roles, Operands, roles as given, expression_named, statement_named, bare_expression as bare_expression_named, single_expression as single_expression_named, double_expression as double_expression_named, bare_statement as bare_statement_named, single_statement as single_statement_named, double_statement as double_statement_named, triple_statement as triple_statement_named, expression_roles, statement_roles, expression_with, statement_with};

use crate::items::{OperandSlots, Operands, Role, Roles, Words};
use sheet::{Expression, Operator, Statement};
use text::same;

impl Roles {
    // No operand.
    fn none() -> Roles
        ensures { result ≡ given None None None }
    {
        OperandSlots::new(None, None, None)
    }

    // One operand.
    fn one(first: Role) -> Roles
        ensures { result ≡ given (Some first) None None }
    {
        OperandSlots::new(Some(first), None, None)
    }

    // Two operands.
    fn two(first: Role, second: Role) -> Roles
        ensures { result ≡ given (Some first) (Some second) None }
    {
        OperandSlots::new(Some(first), Some(second), None)
    }

    // Three operands.
    fn three(first: Role, second: Role, third: Role) -> Roles
        ensures { result ≡ given (Some first) (Some second) (Some third) }
    {
        OperandSlots::new(Some(first), Some(second), Some(third))
    }
}

// What an operation is: an expression or a statement whose operands are still to be read, and are 0 until then.
// A type without operands would only repeat the kinds of statements, and a function that makes one must not be handed out.
pub(crate) trait Operation: Copy {
    // the one that the words of a line name
    ghost named: { List (List ℕ) → Option Self };
    // what its operands stand for
    ghost roles: { Self → Roles };
    // what it is with these operands
    ghost with: { Self → Operands → Self };

    fn named(words: Words) -> Option<Self>
        ensures { result ≡ named (word_list words.entry) };

    fn roles(self) -> Roles
        ensures { result ≡ roles self };

    fn with(self, o: Operands) -> Self
        ensures { result ≡ with self o };
}

// Expressions with no operand, with one, with two, by the word that names them.
fn bare_expression(op: &[u8]) -> Option<Expression>
    ensures { result ≡ bare_expression_named op.now }
{
    if same(op, b"last") {
        Some(Expression::Last)
    } else {
        None
    }
}

fn single_expression(op: &[u8]) -> Option<Expression>
    ensures { result ≡ single_expression_named op.now }
{
    if same(op, b"val") {
        Some(Expression::Val(0))
    } else if same(op, b"not") {
        Some(Expression::Not(0))
    } else {
        None
    }
}

fn double_expression(op: &[u8]) -> Option<Expression>
    ensures { result ≡ double_expression_named op.now }
{
    let operator = if same(op, b"add") {
        Operator::Add
    } else if same(op, b"sub") {
        Operator::Sub
    } else if same(op, b"mul") {
        Operator::Mul
    } else if same(op, b"eq") {
        Operator::Eq
    } else if same(op, b"lt") {
        Operator::Lt
    } else if same(op, b"both") {
        Operator::Both
    } else if same(op, b"either") {
        Operator::Either
    } else {
        return None;
    };
    Some(Expression::Pair(operator, 0, 0))
}

impl Operation for Expression {
    ghost named = { expression_named };

    ghost roles = { expression_roles };

    ghost with = { expression_with };

    fn named(words: Words) -> Option<Expression> {
        match words {
            Words::One(op) => bare_expression(op),
            Words::Two(op, _) => single_expression(op),
            Words::Three(op, _, _) => double_expression(op),
            _ => None,
        }
    }

    fn roles(self) -> Roles {
        match self {
            Expression::Num(_) | Expression::Last => Roles::none(),
            Expression::Val(_) => Roles::one(Role::Variable),
            Expression::Not(_) => Roles::one(Role::Expression),
            Expression::Pair(_, _, _) => Roles::two(Role::Expression, Role::Expression),
        }
    }

    fn with(self, o: Operands) -> Expression {
        match self {
            Expression::Num(_) | Expression::Last => self,
            Expression::Val(_) => Expression::Val(o.first),
            Expression::Pair(p, _, _) => Expression::Pair(p, o.first, o.second),
            Expression::Not(_) => Expression::Not(o.first),
        }
    }
}

// Statements with no operand, with one, with two, with three, by the word that names them.
fn bare_statement(op: &[u8]) -> Option<Statement>
    ensures { result ≡ bare_statement_named op.now }
{
    if same(op, b"true") {
        Some(Statement::True)
    } else if same(op, b"false") {
        Some(Statement::False)
    } else if same(op, b"empty") {
        Some(Statement::Empty)
    } else if same(op, b"more") {
        Some(Statement::More)
    } else {
        None
    }
}

fn single_statement(op: &[u8]) -> Option<Statement>
    ensures { result ≡ single_statement_named op.now }
{
    if same(op, b"next") {
        Some(Statement::Next(0))
    } else if same(op, b"always") {
        Some(Statement::Always(0))
    } else if same(op, b"halt") {
        Some(Statement::Halt(0))
    } else if same(op, b"len") {
        Some(Statement::Len(0))
    } else if same(op, b"request") {
        Some(Statement::Request(0))
    } else {
        None
    }
}

fn double_statement(op: &[u8]) -> Option<Statement>
    ensures { result ≡ double_statement_named op.now }
{
    if same(op, b"is") {
        Some(Statement::Is(0, 0))
    } else if same(op, b"and") {
        Some(Statement::And(0, 0))
    } else if same(op, b"gets") {
        Some(Statement::Gets(0, 0))
    } else if same(op, b"chop") {
        Some(Statement::Chop(0, 0))
    } else if same(op, b"for") {
        Some(Statement::For(0, 0))
    } else if same(op, b"while") {
        Some(Statement::While(0, 0))
    } else {
        None
    }
}

fn triple_statement(op: &[u8]) -> Option<Statement>
    ensures { result ≡ triple_statement_named op.now }
{
    if same(op, b"if") {
        Some(Statement::If(0, 0, 0))
    } else {
        None
    }
}

impl Operation for Statement {
    ghost named = { statement_named };

    ghost roles = { statement_roles };

    ghost with = { statement_with };

    fn named(words: Words) -> Option<Statement> {
        match words {
            Words::One(op) => bare_statement(op),
            Words::Two(op, _) => single_statement(op),
            Words::Three(op, _, _) => double_statement(op),
            Words::Four(op, _, _, _) => triple_statement(op),
        }
    }

    fn roles(self) -> Roles {
        match self {
            Statement::True | Statement::False | Statement::Empty | Statement::More =>
                Roles::none(),
            Statement::Is(_, _) | Statement::Gets(_, _) => Roles::two(
                Role::Variable,
                Role::Expression,
            ),
            Statement::And(_, _) | Statement::Chop(_, _) => Roles::two(
                Role::Statement,
                Role::Statement,
            ),
            Statement::If(_, _, _) => Roles::three(
                Role::Expression,
                Role::Statement,
                Role::Statement,
            ),
            Statement::Next(_) | Statement::Always(_) => Roles::one(Role::Statement),
            Statement::Halt(_) | Statement::Len(_) => Roles::one(Role::Expression),
            Statement::For(_, _) | Statement::While(_, _) => Roles::two(
                Role::Expression,
                Role::Statement,
            ),
            Statement::Request(_) => Roles::one(Role::Variable),
        }
    }

    fn with(self, o: Operands) -> Statement {
        match self {
            Statement::True | Statement::False | Statement::Empty | Statement::More => self,
            Statement::Is(_, _) => Statement::Is(o.first, o.second),
            Statement::And(_, _) => Statement::And(o.first, o.second),
            Statement::If(_, _, _) => Statement::If(o.first, o.second, o.third),
            Statement::Next(_) => Statement::Next(o.first),
            Statement::Always(_) => Statement::Always(o.first),
            Statement::Halt(_) => Statement::Halt(o.first),
            Statement::Len(_) => Statement::Len(o.first),
            Statement::Gets(_, _) => Statement::Gets(o.first, o.second),
            Statement::Chop(_, _) => Statement::Chop(o.first, o.second),
            Statement::For(_, _) => Statement::For(o.first, o.second),
            Statement::While(_, _) => Statement::While(o.first, o.second),
            Statement::Request(_) => Statement::Request(o.first),
        }
    }
}
