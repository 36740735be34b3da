ghost use Rattle.lookups.specs.Tabulated.{Tabulated};

/// The definitions give the values worked by hand.
pub fn tabulated()
    ensures { Tabulated }
{}
