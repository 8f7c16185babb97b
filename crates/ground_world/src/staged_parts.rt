//! The conditions of an action, each part at its stage.

ghost use Rattle.std.specs.Prelude.{◌≡◌, length};

use crate::changes::Stage;
use crate::parts::CondPart;
use sqlite_items::Items;

/// The parts of the conditions of an action in the order of the text, quantifiers written out, and at the same places the
/// stages at which they are to hold.
#[derive(Drop)]
pub struct StagedParts<'a> {
    pub parts: Items<CondPart<'a>>,
    pub stages: Items<Stage>,
    pub ghost same_length: { length stages ≡ length parts },
}
