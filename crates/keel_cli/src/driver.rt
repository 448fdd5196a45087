// The driver: a store, the options for its next opening, and the tick.
ghost use Rattle.std.specs.Prelude.{◌≡◌, [], ◌∷◌, IfSome, IfNone};
ghost use Rattle.keel_base.specs.Options.{AreDefaults};
ghost use Rattle.keel_script.specs.declared.command.Command.TheVariants as command;
ghost use Rattle.keel_recovery.specs.Machine.{IsCovered};
ghost use Rattle.keel_script.specs.Grammar.{IsAllowed};
ghost use Rattle.keel_cli.specs.Driving.{DriverLeads, Drives, StandsAt};
ghost use Rattle.keel_cli.specs.Runs.{Carries, IsOnStore};
ghost use Rattle.keel_cli.specs.Sessions.{Session};
ghost use Rattle.keel_cli.specs.Stores.{Closed};

use crate::{Answer, Store};
use keel_base::{OptionName, OutOfMemory};
use keel_disk::Device;
use keel_script::{Command, Reply};
use keel_settings::Settings;
use std::alloc::Global;

/// What a run has between two commands.
#[derive(Drop)]
pub struct Driver<V: Device> {
    pub store: Store<V>,
    pub settings: Settings,
    /// Ticks of one millisecond, from 0.
    pub tick: u64,
}

impl<V: Device> Driver<V> {
    /// A driver whose store wasn't opened yet.
    pub fn new(device: V) -> Driver<V>
        ensures store { result.store ≡ Closed (V.seen device) }
        ensures options { AreDefaults result.settings }
        ensures tick { result.tick ≡ 0 }
    {
        Driver {
            store: Store::new(device),
            settings: Settings::new(),
            tick: 0,
        }
    }

    // Sets an option, where no store is open.
    fn set_option(&mut self, name: OptionName, value: u64) -> Reply
        ensures store { self.new.store ≡ self.old.store }
        ensures out { (session : Session) → StandsAt self.old session
            → DriverLeads self.new (Carries session (command.SetOption name value) (result ∷ [])) }
    {
        if self.store.is_open() {
            return Reply::IsOpen;
        }
        match self.settings.set(name, value) {
            Ok(()) => Reply::OptionSet { name, value },
            Err(range) => Reply::BadOption {
                name,
                least: range.least,
                greatest: range.greatest,
            },
        }
    }

    // Lets ticks pass.
    fn pass(&mut self, ticks: u64) -> Reply
        ensures store { self.new.store ≡ self.old.store }
        ensures out { (session : Session) → StandsAt self.old session
            → DriverLeads self.new (Carries session (command.Tick ticks) (result ∷ [])) }
    {
        self.tick = self.tick.saturating_add(ticks);
        Reply::Now { tick: self.tick }
    }

    // The reply to a command on the driver's own values; other commands are the store's.
    fn own_reply(&mut self, command: &Command) -> Option<Reply>
        ensures out { (session : Session) → StandsAt self.old session → IfSome result (λ reply.
            DriverLeads self.new (Carries session command.now (reply ∷ []))) }
        ensures none { IfNone result (IsOnStore command.now) }
        ensures same { IfNone result (self.new ≡ self.old) }
    {
        match command {
            Command::SetOption { name, value } => Some(self.set_option(*name, *value)),
            Command::Tick { ticks } => Some(self.pass(*ticks)),
            _ => None,
        }
    }

    /// Carries out a command.
    pub fn answer(&mut self, alloc: Global, command: &Command) -> Result<Answer, OutOfMemory>
        requires { IsAllowed command.now }
        ensures { (session : Session) → StandsAt self.old session → IsCovered session.store
            → Drives session command.now self.new result }
    {
        if let Some(reply) = self.own_reply(command) {
            return Ok(Answer::One(reply));
        }
        self.store.answer(alloc, self.settings.options(), command)
    }
}
