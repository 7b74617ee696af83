// A sheet that is being read: what its lines so far say.
ghost use Rattle.std.specs.Prelude.{◌≤◌, vec_capacity};

use crate::memory::Tables;

// What the lines so far say, with the size of each expression, and the statement that is run once a line named it.
#[derive(Drop)]
pub struct Draft {
    pub tables: Tables,
    // Beside the expressions and not in their table, since the tables are traded with a sheet's, which has no sizes.
    pub sizes: Vec<u32>,
    pub run: Option<u16>,
    ghost room: { 200 ≤ vec_capacity sizes },
}
