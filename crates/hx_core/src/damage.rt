// What is damaged in a keeper.
use std::fmt;

/// What is damaged in what a keeper has, so that no cluster starts on it.
#[derive(Clone, Copy, Debug, PartialEq, Eq)]
pub enum Damage {
    /// The schema isn't that of the rows.
    Schema,
    /// The last version is past the greatest.
    LastVersion,
    /// A row is missing: the keeper counts more of them.
    Missing,
    /// A row is one more than the keeper counts.
    Surplus,
    /// The row's key isn't behind the one before.
    KeyOrder,
    /// The row's version is 0, or past the last one.
    RowVersion,
    /// No object that may be stored has the row.
    NoObject,
    /// The namespace of the row's object isn't there.
    NoNamespace,
}

impl fmt::Display for Damage {
    fn fmt<W: fmt::Write>(&self, f: &mut fmt::Formatter<W>) -> fmt::Result {
        f.write_str(match self {
            Damage::Schema => "the schema of the rows is not that of hnc",
            Damage::LastVersion => "the last version is past the greatest",
            Damage::Missing => "it is not there, and more rows are counted",
            Damage::Surplus => "it is one more than are counted",
            Damage::KeyOrder => "its key is not behind the one before",
            Damage::RowVersion => "its version is 0, or past the last one",
            Damage::NoObject => "it is not the row of an object",
            Damage::NoNamespace => "its namespace is not there",
        })
    }
}
