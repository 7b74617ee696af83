// The calls on a loader.
ghost use Rattle.std.specs.Prelude.{◌≡◌, IfOk};
ghost use Rattle.sheet.specs.Tables.{first_sheet};
ghost use Rattle.load.specs.Parsing.{parse_sheet};
ghost use Rattle.load.specs.LoadingLaws.{AcceptsTheSheets, TellsTheFirstFault};
ghost use Rattle.load.specs.Loading.{LoaderLoads};
ghost use Rattle.sheet.specs.ContentOf.{content_of};
ghost use Rattle.load.specs.Naming.{NameOf};

use crate::loading::Loader;
use crate::names::name_at;
use crate::reading::read_text;
use crate::refusals::Refusal;
use sheet::{Draft, Sheet};
use std::alloc::{AllocError, Global};

impl Loader {
    // A loader that holds the sheet `var=a 0 0`, `stmt=empty`, `run=0`. Nothing allocates after this.
    pub fn new(heap: Global) -> Result<Loader, AllocError>
        ensures { IfOk result (λ l. content_of l.sheet ≡ first_sheet) }
    {
        let sheet = Sheet::new(heap)?;
        let draft = Draft::new(heap)?;
        Ok(Loader { sheet, draft })
    }

    // Loads the sheet that a text spells, or refuses the text and keeps the sheet that is held.
    pub fn load(&mut self, text: &[u8]) -> Result<(), Refusal>
        ensures outcome { LoaderLoads result (content_of self.old.sheet) (content_of self.new.sheet) (parse_sheet text.now) }
        ensures accepts { AcceptsTheSheets }
        ensures refuses { TellsTheFirstFault }
    {
        let run = read_text(&mut self.draft, text)?;
        self.sheet.trade(&mut self.draft.tables, run);
        Ok(())
    }

    // The sheet that is held.
    pub fn sheet(&self) -> &Sheet
        ensures { result.now ≡ self.now.sheet }
    {
        &self.sheet
    }

    // The name of variable `k` of the sheet that a text spells, as the text's own bytes. None where the text is refused or has no such variable.
    pub fn variable_name<'a>(&mut self, text: &'a [u8], k: usize) -> Option<&'a [u8]>
        ensures name { NameOf text.entry k result }
        ensures same { self.new.sheet ≡ self.old.sheet }
    {
        read_text(&mut self.draft, text).ok()?;
        self.draft.tables.variables.get(k)?;
        name_at(text, k + 1)
    }
}
