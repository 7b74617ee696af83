// What a line adds to a sheet.
use crate::elements::{Expression, Statement, Variable};

// What a line adds to a sheet. An expression comes with its size.
#[derive(Clone, Copy, Debug, PartialEq, Eq)]
pub enum Item {
    Variable(Variable),
    Expression(Expression, u32),
    Statement(Statement),
    Run(u16),
}
