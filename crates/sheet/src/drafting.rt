// How a draft is made, cleared and added to.
ghost use Rattle.std.specs.Prelude.{◌≡◌, IfOk};
ghost use Rattle.sheet.specs.PartialSheet.{partial_sheet_of, no_lines, extended, Room};

use crate::draft::Draft;
use crate::item::Item;
use crate::making::MOST_EXPRESSIONS;
use crate::memory::Tables;
use std::alloc::{AllocError, Global};

impl Draft {
    // A draft with no line yet. Its memory is reserved here.
    pub fn new(heap: Global) -> Result<Draft, AllocError>
        ensures { IfOk result (λ d. partial_sheet_of d ≡ no_lines) }
    {
        let tables = Tables::new(heap)?;
        let sizes = Vec::with_capacity(heap, MOST_EXPRESSIONS)?;
        let run = None;
        Ok(Draft { tables, sizes, run })
    }

    // Forgets all lines.
    pub fn clear(&mut self)
        ensures { partial_sheet_of self.new ≡ no_lines }
    {
        self.tables.clear();
        self.sizes.clear();
        self.run = None;
    }

    // Takes one line more.
    pub fn add(&mut self, item: Item)
        requires { Room (partial_sheet_of self.old) item }
        ensures { partial_sheet_of self.new ≡ extended (partial_sheet_of self.old) item }
    {
        match item {
            Item::Variable(v) => self.tables.variables.push_reserved(v),
            Item::Expression(e, size) => {
                self.tables.expressions.push_reserved(e);
                self.sizes.push_reserved(size);
            }
            Item::Statement(s) => self.tables.statements.push_reserved(s),
            Item::Run(n) => self.run = Some(n),
        }
    }
}
