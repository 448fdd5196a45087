// Retired tables.
ghost use Rattle.std.specs.Prelude.{◌≡◌};
ghost use Rattle.keel_trash.specs.Names.{trash_name as trash_name_of};

use keel_base::FileName;

/// The names that a retired table may have.
#[derive(Clone, Copy, Debug, PartialEq, Eq)]
pub enum Names {
    /// Its own.
    Plain,
    /// Its own or its trash name: a rename was refused.
    Both,
    /// At most its trash name: a rename was refused, and its own name is gone since.
    TrashOnly,
}

/// A table that is to be deleted, with its size in bytes.
#[derive(Clone, Copy, Debug)]
pub struct Retired {
    pub name: FileName,
    pub size: u64,
    pub names: Names,
}

// The name that a table has as trash.
pub fn trash_name(name: FileName) -> FileName
    ensures { result ≡ trash_name_of name }
{
    match name {
        FileName::Table(number) => FileName::Trash(number),
        FileName::Log(_) => name,
        FileName::Trash(_) => name,
        FileName::Manifest(_) => name,
        FileName::Current => name,
        FileName::Temp(_) => name,
    }
}
