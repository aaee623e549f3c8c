// Why a call is refused.
ghost use Rattle.std.specs.Prelude.{◌≡◌, Some};
ghost use Rattle.workspace.specs.Refusals.{number_of, refused_text};

use std::fmt;

#[derive(Clone, Copy, PartialEq, Eq, Debug)]
pub enum Refusal {
    StackShort = 8,
    TableShort = 9,
    MarksShort = 10,
    OtherGraph = 11,
    AbsentNode = 12,
    StrayEntry = 13,
    WalkOpen = 14,
    ResultShort = 15,
    OneWay = 16,
}

impl Refusal {
    // The refusal's number, 8 to 16.
    pub fn number(self) -> u8
        ensures { result ≡ number_of self }
    {
        self as u8
    }
}

impl fmt::Display for Refusal {
    ghost output = { λ f. Some (refused_text f) };

    fn fmt<W: fmt::Write>(&self, f: &mut fmt::Formatter<W>) -> fmt::Result {
        write!(f, "refused {}", self.number())
    }
}
