ghost use Rattle.std.specs.Prelude.{◌≡◌, false, is_some};
ghost use Rattle.format.specs.Format.{tables};
ghost use Rattle.format.specs.Faults.{bad_start};

use crate::rows::Rows;
use model::Direction;

// The rows of one direction, once their starts are as they must be.
#[derive(Clone, Copy)]
pub(crate) struct Started<'a> {
    pub(crate) rows: Rows<'a>,
    pub(crate) direction: Direction,
    ghost passed: { is_some (bad_start (tables rows.card.bytes.now) direction) ≡ false },
}
