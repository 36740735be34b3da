ghost use Rattle.std.specs.Prelude.{◌≡◌};
ghost use Rattle.std.specs.Option.{ok_or};
ghost use Rattle.equations.specs.Figures.{figure_number, figure_numbered};
ghost use Rattle.records.specs.declared.fault.Cause.TheVariants.{Figure as NoSuchFigure};

use records::Cause;

/// The figures that a claim or a reading may ask for.
#[derive(Clone, Copy, PartialEq, Eq, Debug)]
pub enum Figure {
    PrismPressure = 1,
    SoilModulus = 2,
    HoopStiffness = 3,
    VerticalArching = 4,
    DesignThrust = 5,
    ThrustStrain = 6,
    ServiceStrain = 7,
    Deflection = 8,
}

/// The figure of a number from 1 to 8.
impl TryFrom<u64> for Figure {
    type Error = Cause;

    ghost try_from_gives = { λ number result. result ≡ ok_or (figure_numbered number) NoSuchFigure };

    fn try_from(number: u64) -> Result<Self, Cause> {
        match number {
            1 => Ok(Figure::PrismPressure),
            2 => Ok(Figure::SoilModulus),
            3 => Ok(Figure::HoopStiffness),
            4 => Ok(Figure::VerticalArching),
            5 => Ok(Figure::DesignThrust),
            6 => Ok(Figure::ThrustStrain),
            7 => Ok(Figure::ServiceStrain),
            8 => Ok(Figure::Deflection),
            _ => Err(Cause::Figure),
        }
    }
}

impl Figure {
    /// The figure of this number, from 1 to 8.
    pub fn numbered(number: u64) -> Option<Self>
        ensures { result ≡ figure_numbered number }
    {
        Self::try_from(number).ok()
    }

    /// The number of the figure.
    pub fn number(self) -> u8
        ensures { result ≡ figure_number self }
    {
        self as u8
    }
}
