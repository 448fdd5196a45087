// Where a file stands among others.
ghost use Rattle.std.specs.Prelude.{◌≡◌, take, IfSome, IfNone, IsSome};
ghost use Rattle.keel_space.specs.Places.{IsAt, HaveOther, IsPlaceOf};
ghost use Rattle.keel_space.specs.Tracked.{is_trash as is_trash_name, trash_size as trash_size_of, size_of};

use keel_base::{Entry, FileName, same_name};

// The place of the first file of this name, where there is one.
pub fn find(files: &[Entry], name: FileName) -> Option<usize>
    ensures found { IfSome result (IsAt name files.now) }
    ensures first { IfSome result (λ place. HaveOther name (take place files.now)) }
    ensures none { IfNone result (HaveOther name files.now) }
{
    files.iter().position(|file| same_name(file.name, name))
}

// The same, where there is one.
pub fn place_of(files: &[Entry], name: FileName) -> usize
    requires { IsSome (size_of name files.now) }
    ensures { IsPlaceOf name files.now result }
{
    match find(files, name) {
        Some(place) => place,
        None => 0,
    }
}

// Whether a name is that of a file that waits to be deleted.
fn is_trash(name: FileName) -> bool
    ensures { result ≡ is_trash_name name }
{
    match name {
        FileName::Trash(_) => true,
        FileName::Log(_) => false,
        FileName::Table(_) => false,
        FileName::Manifest(_) => false,
        FileName::Current => false,
        FileName::Temp(_) => false,
    }
}

// What a file of this name and size adds to trash.
pub fn trash_size(name: FileName, size: u64) -> u64
    ensures { result ≡ trash_size_of (record { name = name; size = size }) }
{
    if is_trash(name) { size } else { 0 }
}
