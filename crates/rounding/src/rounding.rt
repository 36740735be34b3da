/// Which way a result is rounded.
#[derive(Clone, Copy)]
pub enum Rounding {
    Down,
    Up,
}
