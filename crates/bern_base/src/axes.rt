/// An axis of an array, or the axis of a level of its store.
#[derive(Clone, Copy, Debug, PartialEq, Eq)]
pub enum Axis {
    Row,
    Col,
    /// Row and column in one, as the element number.
    Both,
}
