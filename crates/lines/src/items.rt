// What a line is made of, and what can be wrong with it.
ghost use Rattle.std.specs.Prelude.{◌≡◌};

// What is wrong with a line. A number says which word of the line is meant, counted from 1 after the `=`.
#[derive(Clone, Copy, Debug, PartialEq, Eq)]
pub enum Fault {
    // the line has more than 64 bytes
    Long,
    // there is no key, or it is none of the five, or its turn is over, or it skips `var` or `stmt`
    Key,
    // its key has all the lines already that it may have
    Many,
    // the operation is unknown, or the word count is wrong
    Form,
    // a number is malformed or outside its limits
    Number(u8),
    // a name is malformed, declared twice or unknown
    Name(u8),
    // an operand is not lower, or not there
    Operand(u8),
    // the size is too large
    Size,
}

// The key of a line: the word ahead of its first `=`. Others would call it a keyword.
#[derive(Clone, Copy)]
pub enum Keyword {
    Sheet,
    Var,
    Expr,
    Stmt,
    Run,
}

// What an operand's word stands for.
#[derive(Clone, Copy)]
pub enum Role {
    Variable,
    Expression,
    Statement,
}

// One thing for each of the three words after an operation.
#[derive(Clone, Copy)]
pub struct OperandSlots<T> {
    pub first: T,
    pub second: T,
    pub third: T,
}

impl<T> OperandSlots<T> {
    // The three, in the order of their words.
    pub(crate) fn new(first: T, second: T, third: T) -> OperandSlots<T>
        ensures { result ≡ record { first = first; second = second; third = third } }
    {
        OperandSlots {
            first,
            second,
            third,
        }
    }
}

// The roles of the words after an operation; none where there is no such word.
pub type Roles = OperandSlots<Option<Role>>;

// The numbers of the operands. One that is absent is 0, and no option, since an operation takes those that it has, and would have to ask again.
pub type Operands = OperandSlots<u16>;

// The words of a line, one to four, as parts of the line itself.
#[derive(Clone, Copy)]
pub enum Words<'a> {
    One(&'a [u8]),
    Two(&'a [u8], &'a [u8]),
    Three(&'a [u8], &'a [u8], &'a [u8]),
    Four(&'a [u8], &'a [u8], &'a [u8], &'a [u8]),
}
