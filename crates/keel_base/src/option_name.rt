// The options by their names.
ghost use Rattle.std.specs.Prelude.{◌≡◌, ◌↔◌, IsTrue};
ghost use Rattle.keel_base.specs.Options.{IsBetween};

/// What a user can set, in the order of the fields of `Options`.
#[derive(Clone, Copy, Debug, PartialEq, Eq)]
pub enum OptionName {
    Paranoid,
    Auto,
    Attempts,
    Interval,
    WriteBuffer,
    MaxImmutables,
    Level0Trigger,
    LevelBase,
    TableSize,
    Limit,
    Buffer,
    Rate,
    Ratio,
    Chunk,
}

/// The numbers from the least to the greatest, both of them included.
#[derive(Clone, Copy, Debug, PartialEq, Eq)]
pub struct Range {
    pub least: u64,
    pub greatest: u64,
}

impl Range {
    pub fn contains(self, value: u64) -> bool
        ensures { IsTrue result ↔ IsBetween self.least self.greatest value }
    {
        self.least <= value && value <= self.greatest
    }
}

// What is fixed of an option.
#[derive(Drop)]
struct Facts {
    name: &'static [u8],
    default: u64,
    range: Range,
}

impl Facts {
    fn new(name: &'static [u8], default: u64, least: u64, greatest: u64) -> Self
        ensures name { result.name.now ≡ name.now }
        ensures default { result.default ≡ default }
        ensures range { result.range ≡ record { least = least; greatest = greatest } }
    {
        Facts {
            name,
            default,
            range: Range { least, greatest },
        }
    }
}

impl OptionName {
    ghost use Rattle.keel_base.specs.Options.{option_name, range_of, default_of};

    /// All of them, in their order.
    pub const ALL: [OptionName; 14] = [
        OptionName::Paranoid,
        OptionName::Auto,
        OptionName::Attempts,
        OptionName::Interval,
        OptionName::WriteBuffer,
        OptionName::MaxImmutables,
        OptionName::Level0Trigger,
        OptionName::LevelBase,
        OptionName::TableSize,
        OptionName::Limit,
        OptionName::Buffer,
        OptionName::Rate,
        OptionName::Ratio,
        OptionName::Chunk,
    ];

    // The name, the default, and the least and the greatest value.
    fn facts(self) -> Facts
        ensures name { result.name.now ≡ option_name self }
        ensures default { result.default ≡ default_of self }
        ensures range { result.range ≡ range_of self }
    {
        match self {
            OptionName::Paranoid => Facts::new(b"paranoid", 1, 0, 1),
            OptionName::Auto => Facts::new(b"auto", 1, 0, 1),
            OptionName::Attempts => Facts::new(b"attempts", 16, 0, 1_000_000),
            OptionName::Interval => Facts::new(b"interval", 1000, 0, 1_000_000_000),
            OptionName::WriteBuffer => Facts::new(b"write_buffer", 65_536, 1, 1 << 26),
            OptionName::MaxImmutables => Facts::new(b"max_immutables", 2, 1, 16),
            OptionName::Level0Trigger => Facts::new(b"level0_trigger", 4, 1, 64),
            OptionName::LevelBase => Facts::new(b"level_base", 262_144, 1, 1 << 40),
            OptionName::TableSize => Facts::new(b"table_size", 65_536, 1, 1 << 26),
            OptionName::Limit => Facts::new(b"limit", 0, 0, 1 << 60),
            OptionName::Buffer => Facts::new(b"buffer", 0, 0, 1 << 60),
            OptionName::Rate => Facts::new(b"rate", 0, 0, 1 << 40),
            OptionName::Ratio => Facts::new(b"ratio", 250, 0, 1_000_000),
            OptionName::Chunk => Facts::new(b"chunk", 65_536, 0, 1 << 40),
        }
    }

    /// How it is written in a command or a reply.
    pub fn name(self) -> &'static [u8]
        ensures { result.now ≡ option_name self }
    {
        self.facts().name
    }

    /// The values that it takes.
    pub fn range(self) -> Range
        ensures { result ≡ range_of self }
    {
        self.facts().range
    }

    /// Its value where none was set.
    pub fn default(self) -> u64
        ensures { result ≡ default_of self }
    {
        self.facts().default
    }
}
