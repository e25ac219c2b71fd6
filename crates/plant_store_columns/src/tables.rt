//! The kinds of tables that all units share.

/// The tables that have rows of units, in the order in which they are made.
pub enum TableKind {
    Units,
    Grants,
    Alarms,
    Shelves,
    Bands,
    Cells,
    Events,
    Records,
    Changes,
}
