use crate::measures::Measures;

/// The live load's part: the share of the pipe that it covers, its pressure and its thrust, where it counts.
#[derive(Clone, Copy)]
pub struct Live<A> {
    pub share: A,
    pub pressure: Option<A>,
    pub thrust: Option<A>,
}

/// The quantities of a case, as an arithmetic encloses them.
#[derive(Clone, Copy)]
pub struct Worked<A> {
    pub measures: Measures<A>,
    pub prism: A,
    pub modulus: A,
    pub hoop: A,
    pub arching: A,
    pub load_factor: A,
    pub design_thrust: A,
    pub thrust_strain: A,
    pub least_strain: A,
    pub service_strain: A,
    pub deflection: A,
    pub bending: A,
}
