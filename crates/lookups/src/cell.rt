ghost use Rattle.std.specs.Prelude.{◌+◌, ◌<◌};

/// Where a ratio falls among points: the value there is that of the point `first` weighed by `after` and that of
/// `second` weighed by `before`.
#[derive(Clone, Copy)]
pub struct Cell {
    pub first: usize,
    pub second: usize,
    pub after: u128,
    pub before: u128,
    ghost positive: { 0 < after + before },
}
