/// The five axes of a scan: three of the volume, and the columns and rows of the panel.
#[derive(Clone, Copy, PartialEq, Eq, Debug)]
pub enum ScanAxis {
    X,
    Y,
    Z,
    Column,
    Row,
}
