// The words of the command line.
ghost use Rattle.std.specs.Prelude.{◌≡◌, ◌↔◌, IsTrue, codes, map};
ghost use Rattle.std.specs.String.{string_bytes};
ghost use Rattle.keel_cli.specs.Words.{Asks, IsPath};

/// What the words of the command line ask for.
#[derive(Clone, Copy)]
pub enum Asked<'a> {
    /// A run over a device in memory.
    Memory,
    /// A run over the folder of this path.
    Folder(&'a String),
    /// Nothing that there is.
    Usage,
}

// Whether a word may be a path: it isn't empty, and doesn't begin with a minus sign.
fn is_path(word: &str) -> bool
    ensures { IsTrue result ↔ IsPath word.now }
{
    match word.as_bytes() {
        [] => false,
        [first, ..] => *first != b'-',
    }
}

// Whether the words ask for a run over the folder of a path.
fn name_folder(word: &str, path: &str) -> bool
    ensures { IsTrue result ↔ ((word.now ≡ codes "dir") × IsPath path.now) }
{
    word == "dir" && is_path(path)
}

/// Reads the words behind the program's name.
pub fn read_words(words: &Vec<String>) -> Asked<'_>
    ensures { Asks (map string_bytes words.now.items) result }
{
    match words.as_slice() {
        [word] => {
            if word.as_str() == "run" {
                Asked::Memory
            } else {
                Asked::Usage
            }
        }
        [word, path] => {
            if name_folder(word.as_str(), path.as_str()) {
                Asked::Folder(path)
            } else {
                Asked::Usage
            }
        }
        _ => Asked::Usage,
    }
}
