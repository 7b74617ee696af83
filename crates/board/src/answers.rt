// How answers follow one another.
ghost use Rattle.std.specs.Prelude.{◌≡◌};
ghost use Rattle.board.specs.Outcomes.{afterwards};

use meaning::Stop;

// An answer, where something has changed before if `changed`.
pub fn afterwards(changed: bool, answer: Result<bool, Stop>) -> Result<bool, Stop>
    ensures { result ≡ afterwards changed answer }
{
    let again = answer?;
    Ok(changed || again)
}
