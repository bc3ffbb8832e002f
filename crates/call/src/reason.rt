// Why a call is refused, by the reasons' numbers; 0 is the number of a call that is done.
ghost use Rattle.std.specs.Prelude.{◌≡◌};
ghost use Rattle.call.specs.Number.{number_of};

#[derive(Clone, Copy, Debug, PartialEq, Eq)]
pub enum Reason {
    OutsideLimits = 1,
    NoOperation = 2,
    TooLarge = 3,
    HoldsInfinity = 4,
    ZeroDivisor = 5,
    BadReading = 6,
    WrongLength = 7,
    NotEarlier = 8,
    NoRoom = 9,
    BadFile = 10,
}

impl Reason {
    pub fn number(self) -> u32
        ensures { result ≡ number_of self }
    {
        self as u32
    }
}
