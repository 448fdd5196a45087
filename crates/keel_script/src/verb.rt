// The first words of commands.
ghost use Rattle.std.specs.Prelude.{◌≡◌};
ghost use Rattle.keel_script.specs.Verbs.{verb_name};

/// What a command's first word asks for.
#[derive(Clone, Copy)]
pub enum Verb {
    SetOption,
    Open,
    Put,
    Del,
    Queue,
    Write,
    Flush,
    Compact,
    Delete,
    Resume,
    ResumeStep,
    Drain,
    Tick,
    Get,
    Scan,
    Error,
    Space,
    Files,
    Levels,
    Limit,
    Close,
    Fail,
    Capacity,
    Crash,
}

pub const VERBS: [Verb; 24] = [
    Verb::SetOption,
    Verb::Open,
    Verb::Put,
    Verb::Del,
    Verb::Queue,
    Verb::Write,
    Verb::Flush,
    Verb::Compact,
    Verb::Delete,
    Verb::Resume,
    Verb::ResumeStep,
    Verb::Drain,
    Verb::Tick,
    Verb::Get,
    Verb::Scan,
    Verb::Error,
    Verb::Space,
    Verb::Files,
    Verb::Levels,
    Verb::Limit,
    Verb::Close,
    Verb::Fail,
    Verb::Capacity,
    Verb::Crash,
];

pub fn verb_name(verb: Verb) -> &'static [u8]
    ensures { result.now ≡ verb_name verb }
{
    match verb {
        Verb::SetOption => b"option",
        Verb::Open => b"open",
        Verb::Put => b"put",
        Verb::Del => b"del",
        Verb::Queue => b"queue",
        Verb::Write => b"write",
        Verb::Flush => b"flush",
        Verb::Compact => b"compact",
        Verb::Delete => b"delete",
        Verb::Resume => b"resume",
        Verb::ResumeStep => b"resume-step",
        Verb::Drain => b"drain",
        Verb::Tick => b"tick",
        Verb::Get => b"get",
        Verb::Scan => b"scan",
        Verb::Error => b"error",
        Verb::Space => b"space",
        Verb::Files => b"files",
        Verb::Levels => b"levels",
        Verb::Limit => b"limit",
        Verb::Close => b"close",
        Verb::Fail => b"fail",
        Verb::Capacity => b"capacity",
        Verb::Crash => b"crash",
    }
}
