// The operands of a line, with their faults in the order of their numbers.
ghost use Rattle.std.specs.Prelude.{◌≡◌};
ghost use Rattle.sheet.specs.PartialSheet.{partial_sheet_of};
ghost use Rattle.lines.specs.Lines.{word_list, word_in, operand_number, resolved, check_exists, operands};

use crate::items::{Fault, OperandSlots, Operands, Role, Roles, Words};
use sheet::Draft;

// The largest number of an operand.
const MOST_OPERAND: u32 = 199;

// An operand's word: the word of its line that it is, counted from 1, what it stands for, and its bytes.
#[derive(Clone, Copy)]
pub(crate) struct Operand<'a> {
    pub(crate) at: u8,
    pub(crate) role: Option<Role>,
    pub(crate) word: &'a [u8],
}

impl<'a> Operand<'a> {
    // The number that the word writes.
    pub(crate) fn operand_number(self) -> Result<u16, Fault>
        ensures { result ≡ operand_number self.entry.at self.entry.role self.entry.word.now }
    {
        match self.role {
            None | Some(Role::Variable) => Ok(0),
            Some(Role::Expression) | Some(Role::Statement) => {
                let n = text::natural(self.word, MOST_OPERAND).ok_or(Fault::Number(self.at))?;
                // A cast, since `try_from` would have an error to answer that cannot come; so below.
                Ok(n as u16)
            }
        }
    }

    // The number of the variable that the word names, where it is to name one.
    fn resolve(self, draft: &Draft, n: u16) -> Result<u16, Fault>
        ensures { result ≡ resolved (partial_sheet_of draft.now) self.entry.at self.entry.role self.entry.word.now n }
    {
        match self.role {
            None | Some(Role::Expression) | Some(Role::Statement) => Ok(n),
            Some(Role::Variable) => {
                let fault = Fault::Name(self.at);
                let name = sheet::make_name(self.word).ok_or(fault)?;
                let k = sheet::find_variable(&draft.tables.variables, name).ok_or(fault)?;
                Ok(k as u16)
            }
        }
    }

    // The number again, where an expression or a statement has it.
    pub(crate) fn check_exists(self, draft: &Draft, n: u16) -> Result<u16, Fault>
        ensures { result ≡ check_exists (partial_sheet_of draft.now) self.entry.at self.entry.role n }
    {
        let count = match self.role {
            None | Some(Role::Variable) => return Ok(n),
            Some(Role::Expression) => draft.tables.expressions.len(),
            Some(Role::Statement) => draft.tables.statements.len(),
        };
        if usize::from(n) < count {
            Ok(n)
        } else {
            Err(Fault::Operand(self.at))
        }
    }
}

// The operands in the second, third and fourth word of a line.
pub(crate) fn read_operands(draft: &Draft, roles: Roles, words: Words) -> Result<Operands, Fault>
    ensures { result ≡ operands (partial_sheet_of draft.now) roles (word_in (word_list words.entry) 1) (word_in (word_list words.entry) 2) (word_in (word_list words.entry) 3) }
{
    let rest = words.rest();
    // Three literals, since a call with a number, a role and a word would name none of them.
    let a = Operand {
        at: 2,
        role: roles.first,
        word: rest.first,
    };
    let b = Operand {
        at: 3,
        role: roles.second,
        word: rest.second,
    };
    let c = Operand {
        at: 4,
        role: roles.third,
        word: rest.third,
    };
    let (i, j, k) = (
        a.operand_number()?,
        b.operand_number()?,
        c.operand_number()?,
    );
    let (i, j, k) = (
        a.resolve(draft, i)?,
        b.resolve(draft, j)?,
        c.resolve(draft, k)?,
    );
    Ok(OperandSlots::new(
        a.check_exists(draft, i)?,
        b.check_exists(draft, j)?,
        c.check_exists(draft, k)?,
    ))
}
