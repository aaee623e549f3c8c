ghost use Rattle.std.specs.Prelude.{◌≡◌, false, is_some};
ghost use Rattle.format.specs.Faults.{fault};

use crate::rows::Rows;

// An accepted image over lent bytes.
#[derive(Clone, Copy)]
pub struct Image<'a> {
    pub(crate) rows: Rows<'a>,
    ghost accepted: { is_some (fault rows.card.bytes.now) ≡ false },
}
