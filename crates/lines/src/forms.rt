// The keys of lines.
ghost use Rattle.std.specs.Prelude.{◌≡◌};
ghost use Rattle.lines.specs.Operations.{keyword_of};

use crate::items::Keyword;
use text::same;

// The key that a word names.
pub(crate) fn keyword(word: &[u8]) -> Option<Keyword>
    ensures { result ≡ keyword_of word.now }
{
    if same(word, b"stmt") {
        Some(Keyword::Stmt)
    } else if same(word, b"expr") {
        Some(Keyword::Expr)
    } else if same(word, b"var") {
        Some(Keyword::Var)
    } else if same(word, b"run") {
        Some(Keyword::Run)
    } else if same(word, b"sheet") {
        Some(Keyword::Sheet)
    } else {
        None
    }
}
