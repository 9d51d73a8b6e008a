// Why a text, a rule or a call is refused, and the number that each refusal is known by.
ghost use Rattle.std.specs.Prelude.{◌≡◌};
ghost use Rattle.model.specs.Refusals.{refusal_number};

#[derive(Clone, Copy, PartialEq, Eq, Debug)]
pub enum Refusal {
    // of a text
    Form = 10,
    Byte = 11,
    NoRecord = 12,
    Field = 13,
    NameTaken = 14,
    NameUnknown = 15,
    TooMany = 16,
    ArcNotAllowed = 17,
    NotOfKind = 18,
    Sum = 19,
    // of a rule that is worked and set
    NotAbsorbed = 20,
    TooLarge = 21,
    TooManyRounds = 22,
    Broken = 23,
    Shut = 24,
    NotTyped = 25,
    // of a call
    NoMove = 30,
    Uncontrollable = 31,
    Controllable = 32,
    TooManyOpen = 33,
    Short = 34,
    NoRoom = 35,
    NotOpen = 36,
    GrantsOpen = 37,
    NoRow = 38,
    RowInUse = 39,
    OverLimit = 40,
}

impl Refusal {
    // The number by which this refusal is printed and documented.
    pub fn number(self) -> u8
        ensures { result ≡ refusal_number self }
    {
        self as u8
    }
}
