// The typed path of a text: the readers of the kinds, over the cut text.
#![tactic(auto)]

mod kinds;

ghost use Rattle.std.specs.Prelude.{◌≡◌};
ghost use Rattle.path.specs.Kinds.{kinds};
ghost use Rattle.path.specs.Read.{read_first};

use path::Path;
use read_pieces::cutter::CutText;

// Reads a text as one of the nineteen kinds.
pub fn parse_path(text: &[u8]) -> Option<Path>
    ensures { result ≡ read_first kinds text.now }
{
    kinds::parse_components(CutText::new(text))
}
