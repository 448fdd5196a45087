// The names of the store's files.
ghost use Rattle.std.specs.Prelude.{◌≡◌};
ghost use Rattle.keel_base.specs.Name.{name_eq};

/// A file of the store, by its kind and number.
#[derive(Clone, Copy, Debug, PartialEq, Eq)]
pub enum FileName {
    Log(u64),
    Table(u64),
    Trash(u64),
    Manifest(u64),
    Current,
    Temp(u64),
}

/// Whether two names are the same.
pub fn same_name(a: FileName, b: FileName) -> bool
    ensures { result ≡ name_eq a b }
{
    match (a, b) {
        (FileName::Log(m), FileName::Log(n)) => m == n,
        (FileName::Table(m), FileName::Table(n)) => m == n,
        (FileName::Trash(m), FileName::Trash(n)) => m == n,
        (FileName::Manifest(m), FileName::Manifest(n)) => m == n,
        (FileName::Current, FileName::Current) => true,
        (FileName::Temp(m), FileName::Temp(n)) => m == n,
        _ => false,
    }
}
