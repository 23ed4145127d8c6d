// The kinds of barrier units.

/// A kind of barrier unit.
#[derive(Clone, Copy, Debug, PartialEq, Eq)]
pub enum UnitKind {
    /// The static unit: masks fire in queue order.
    Static,
    /// The dynamic unit: each mask fires once all its members wait.
    Dynamic,
}
