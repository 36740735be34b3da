ghost use Rattle.std.specs.Prelude.{◌≡◌};
ghost use Rattle.equations.specs.Limits.{limit_number};

/// The seven limit states, in the order in which they are judged.
#[derive(Clone, Copy, PartialEq, Eq, Debug)]
pub enum LimitState {
    Thrust = 1,
    NetTension = 2,
    Combined = 3,
    Deflection = 4,
    Buckling = 5,
    Flexibility = 6,
    Buoyancy = 7,
}

impl LimitState {
    /// The number of the limit state.
    pub fn number(self) -> u8
        ensures { result ≡ limit_number self }
    {
        self as u8
    }
}
