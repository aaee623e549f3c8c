ghost use Rattle.std.specs.Prelude.{◌≡◌};
ghost use Rattle.format.specs.Format.{Room, tables, total};

use crate::card::Card;

// A card whose row tables lie inside its bytes too, and D, how many entries each entry table holds.
#[derive(Clone, Copy)]
pub(crate) struct Rows<'a> {
    pub(crate) card: Card<'a>,
    pub(crate) entries: u32,
    ghost room: { Room card.bytes.now },
    ghost due: { entries ≡ total (tables card.bytes.now) },
}
