// What a user can set.
ghost use Rattle.std.specs.Prelude.{◌≡◌};

use crate::OptionName;

/// The settings of a store. Sizes and rates are in bytes, intervals in ticks of one millisecond. `OptionName` has their
/// ranges and what they are where nothing was set.
#[derive(Clone, Copy, Debug)]
pub struct Options {
    /// Treat doubtful failures as severe.
    pub paranoid: bool,
    /// Resume automatically behind a failure that may pass.
    pub auto: bool,
    /// How often to try that for one standing error.
    pub attempts: u32,
    /// Ticks between two attempts.
    pub interval: u64,
    /// The weight at which a segment is full.
    pub write_buffer: u64,
    /// How many full segments may wait to be flushed.
    pub max_immutables: u32,
    /// How many tables on level 0 ask for a compaction.
    pub level0_trigger: u32,
    /// How many bytes on level 1 are within its size.
    pub level_base: u64,
    /// The size at which a compaction begins another table.
    pub table_size: u64,
    /// The bytes that tables and trash may take, and 0 for no limit.
    pub limit: u64,
    /// What a compaction must leave free below the limit.
    pub buffer: u64,
    /// Bytes that may be deleted in a second, and 0 for no bound.
    pub rate: u64,
    /// The share of trash, in thousandths of the total, over which files are deleted at once.
    pub ratio: u32,
    /// Bytes of a file that are cut at a time, and 0 to remove it whole.
    pub chunk: u64,
}

impl Options {
    ghost use Rattle.keel_base.specs.Options.{AreInRange, AreDefaults, SetsOne, IsWithin, standard, value_in, with_value};

    /// The settings of a store for which nothing was set.
    pub fn standard() -> Options
        ensures values { result ≡ standard }
        ensures in_range { AreInRange result }
        ensures defaults { AreDefaults result }
    {
        Options {
            paranoid: OptionName::Paranoid.default() == 1,
            auto: OptionName::Auto.default() == 1,
            attempts: OptionName::Attempts.default() as u32,
            interval: OptionName::Interval.default(),
            write_buffer: OptionName::WriteBuffer.default(),
            max_immutables: OptionName::MaxImmutables.default() as u32,
            level0_trigger: OptionName::Level0Trigger.default() as u32,
            level_base: OptionName::LevelBase.default(),
            table_size: OptionName::TableSize.default(),
            limit: OptionName::Limit.default(),
            buffer: OptionName::Buffer.default(),
            rate: OptionName::Rate.default(),
            ratio: OptionName::Ratio.default() as u32,
            chunk: OptionName::Chunk.default(),
        }
    }

    /// The value of an option: 1 of one that is on, and 0 of one that is off.
    pub fn get(&self, name: OptionName) -> u64
        ensures { result ≡ value_in name self.now }
    {
        match name {
            OptionName::Paranoid => u64::from(self.paranoid),
            OptionName::Auto => u64::from(self.auto),
            OptionName::Attempts => u64::from(self.attempts),
            OptionName::Interval => self.interval,
            OptionName::WriteBuffer => self.write_buffer,
            OptionName::MaxImmutables => u64::from(self.max_immutables),
            OptionName::Level0Trigger => u64::from(self.level0_trigger),
            OptionName::LevelBase => self.level_base,
            OptionName::TableSize => self.table_size,
            OptionName::Limit => self.limit,
            OptionName::Buffer => self.buffer,
            OptionName::Rate => self.rate,
            OptionName::Ratio => u64::from(self.ratio),
            OptionName::Chunk => self.chunk,
        }
    }

    /// Sets an option, to a value of its range.
    pub fn set(&mut self, name: OptionName, value: u64)
        requires { IsWithin name value }
        ensures one { SetsOne name value self.old self.new }
        ensures in_range { AreInRange self.old → AreInRange self.new }
    {
        *self = self.changed(name, value);
    }

    // The options with one of them changed.
    fn changed(self, name: OptionName, value: u64) -> Options
        requires { IsWithin name value }
        ensures { result ≡ with_value name value self }
    {
        match name {
            OptionName::Paranoid => Options {
                paranoid: value == 1,
                ..self
            },
            OptionName::Auto => Options {
                auto: value == 1,
                ..self
            },
            OptionName::Attempts => Options {
                attempts: value as u32,
                ..self
            },
            OptionName::Interval => Options {
                interval: value,
                ..self
            },
            OptionName::WriteBuffer => Options {
                write_buffer: value,
                ..self
            },
            OptionName::MaxImmutables => Options {
                max_immutables: value as u32,
                ..self
            },
            OptionName::Level0Trigger => Options {
                level0_trigger: value as u32,
                ..self
            },
            OptionName::LevelBase => Options {
                level_base: value,
                ..self
            },
            OptionName::TableSize => Options {
                table_size: value,
                ..self
            },
            OptionName::Limit => Options {
                limit: value,
                ..self
            },
            OptionName::Buffer => Options {
                buffer: value,
                ..self
            },
            OptionName::Rate => Options {
                rate: value,
                ..self
            },
            OptionName::Ratio => Options {
                ratio: value as u32,
                ..self
            },
            OptionName::Chunk => Options {
                chunk: value,
                ..self
            },
        }
    }
}
