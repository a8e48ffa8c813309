/// The layouts of tables. Every table is written in the second; the first is read, too.
#[derive(Clone, Copy, Debug, PartialEq, Eq)]
pub enum TableLayout {
    /// `RTB1`: no nanoseconds and no groups, which are 0.
    First,
    /// `RTB2`: each record but Deleted has its nanoseconds, and a File its group.
    Second,
}
