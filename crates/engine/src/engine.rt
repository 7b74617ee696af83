// An engine.
use calls::Condition;
use load::Loader;
use settling::Settler;

// Holds a sheet, the memory to settle its states, and the condition of its run. All memory is reserved when it is made.
// What can be asked of it are its calls; others would say its operations.
#[derive(Drop)]
pub struct Engine {
    pub(crate) loader: Loader,
    pub(crate) settler: Settler,
    pub(crate) condition: Condition,
}
