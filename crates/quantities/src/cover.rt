ghost use Rattle.std.specs.Prelude.{◌≡◌};
ghost use Rattle.enclosure.specs.Formula.{computed};
ghost use Rattle.quantities.specs.Formulas.{design_thrust_of, least_thrust_of, service_thrust_of};

use crate::formulas::{factored_thrust, parts, plus, thrust};
use enclosure::Arithmetic;

/// What lies over a pipe of this outside diameter: a prism of soil that arches, and water where there is some.
#[derive(Clone, Copy)]
pub(crate) struct Cover<A> {
    pub(crate) arching: A,
    pub(crate) prism: A,
    pub(crate) water: Option<A>,
    pub(crate) outside: A,
}

// The thrusts differ in the earth's load, and the design thrust in a factor too: one method over both is no plainer.
impl<A: Arithmetic> Cover<A> {
    pub(crate) fn design_thrust(&self, load: A) -> A
        ensures { result ≡ design_thrust_of (computed A.model) load self.now.arching self.now.prism self.now.water self.now.outside }
    {
        let earth = load.mul(self.arching).mul(self.prism);
        factored_thrust(plus(earth, self.water), self.outside)
    }

    pub(crate) fn least_thrust(&self) -> A
        ensures { result ≡ least_thrust_of (computed A.model) self.now.arching self.now.prism self.now.water self.now.outside }
    {
        let earth = parts::<A>(54, 100).mul(self.arching).mul(self.prism);
        thrust(plus(earth, self.water), self.outside)
    }

    pub(crate) fn service_thrust(&self) -> A
        ensures { result ≡ service_thrust_of (computed A.model) self.now.arching self.now.prism self.now.water self.now.outside }
    {
        let earth = self.arching.mul(self.prism);
        thrust(plus(earth, self.water), self.outside)
    }
}
