// The program's store: closed, on a device alone, or open.
ghost use Rattle.std.specs.Prelude.{◌≡◌, [], ◌∷◌, false, true, IfOk, IsErr, Err, Ok, Some};
ghost use Rattle.keel_disk.specs.declared.error.DiskError.TheVariants as disk;
ghost use Rattle.keel_machine.specs.States.{State};
ghost use Rattle.keel_core.specs.Views.{StandsFor};
ghost use Rattle.keel_disk.specs.Rule.{IsAllowed};
ghost use Rattle.keel_machine.specs.Reads.{IsBorne};
ghost use Rattle.keel_machine.specs.Turns.{Arranging};
ghost use Rattle.keel_script.specs.Grammar as grammar;
ghost use Rattle.keel_recovery.specs.Machine.{IsCovered};
ghost use Rattle.keel_script.specs.declared.command.Command.TheVariants as command;
ghost use Rattle.keel_cli.specs.declared.answer.Answer.TheVariants as answers;
ghost use Rattle.keel_cli.specs.Closes.{CloseRun};
ghost use Rattle.keel_cli.specs.Cuts.{CarriedOut};
ghost use Rattle.keel_cli.specs.Jobs.{Driven, PlainTurn, driven};
ghost use Rattle.keel_cli.specs.Replies.{replies_of};
ghost use Rattle.keel_cli.specs.Runs.{listing_replies, needs_store, rest_reply};
ghost use Rattle.keel_cli.specs.Stores.{IsTidy, Leads, Shows, Stands, StandsForSome, is_one_open, view_of};
ghost use Rattle.keel_cli.specs.Stores as view;

use crate::arranging::{arranged_reply, rule_of};
use crate::booting::resume;
use crate::draining::drain;
use crate::failing::{fault_reply, refusal_reply};
use crate::flushing::flush;
use crate::putting::{key_batch, pair_batch, put_batch, queue_batch};
use crate::starting::start;
use crate::stepping::write;
use crate::telling::error;
use crate::{Answer, HeldJobs};
use keel_base::{Bytes, Listing, Options, OutOfMemory};
use keel_core::{Core, Refused};
use keel_disk::{Device, DiskError, Pick, Rule};
use keel_machine::{Got, Scanned};
use keel_script::{Command, Reply};
use std::alloc::Global;
use std::marker::Model;
use std::mem;

/// The store that a run carries its commands out on.
#[derive(Drop)]
pub struct Store<V: Device> {
    held: Held<V>,
}

#[derive(Drop)]
enum Held<V: Device> {
    Closed(V),
    Open(Core<V>, HeldJobs),
    // A call has the device, and puts it back before it returns.
    Lent,
}

impl<V: Device> Model for Store<V> {
    ghost use Rattle.std.specs.Coded.{codes, coded_list, coded_ℕ};
    ghost use Rattle.std.specs.FinMap as map;
    ghost use Rattle.keel_base.specs.Keys.{key_cmp};
    ghost use Rattle.keel_cli.specs.Stores.{IsTidy, StoreView, view_of};

    ghost Value = { StoreView };

    // The point where a trail starts has a finite map, whose code isn't found.
    ghost coded = { Prim.hlevel (codes, map.code {R = key_cmp} (coded_list coded_ℕ) (coded_list coded_ℕ)) };

    ghost view = { λ store. view_of V.seen store.held };

    ghost invariant = { λ store. IsTidy (view_of V.seen store.held) };
}

// The answer of one reply, unless memory ended.
fn one(reply: Result<Reply, OutOfMemory>) -> Result<Answer, OutOfMemory>
    ensures ok { IfOk reply (λ reply. result ≡ Ok (answers.One reply)) }
    ensures err { IsErr reply → IsErr result }
{
    match reply {
        Ok(reply) => Ok(Answer::One(reply)),
        Err(OutOfMemory) => Err(OutOfMemory),
    }
}

// What a listing is answered.
fn list_answer(listed: Result<Listing, DiskError>) -> Result<Answer, OutOfMemory>
    ensures ok { IfOk result (λ answer. listing_replies listed ≡ Some (replies_of answer)) }
    ensures err { IsErr result → listed ≡ Err disk.OutOfMemory }
{
    match listed {
        Ok(listing) => Ok(Answer::Files(listing)),
        Err(DiskError::Fault(fault)) => Ok(Answer::One(Reply::ReadFault(fault))),
        Err(DiskError::OutOfMemory) => Err(OutOfMemory),
    }
}

// The reply to a command that makes no call.
fn rest_reply(is_open: bool, command: &Command) -> Option<Reply>
    ensures { result ≡ rest_reply is_open command.now }
{
    match command {
        Command::Open => { if is_open { Some(Reply::IsOpen) } else { None } }
        Command::Put { .. }
        | Command::Del { .. }
        | Command::QueuePut { .. }
        | Command::QueueDel { .. }
        | Command::Write
        | Command::Flush
        | Command::Resume
        | Command::ResumeStep
        | Command::Get { .. }
        | Command::Scan { .. }
        | Command::Error
        | Command::Levels
        | Command::Close
        | Command::Drain { .. } => { if is_open { None } else { Some(Reply::NotOpen) } }
        Command::Files | Command::Fail { .. } | Command::Capacity { .. } | Command::Crash { .. } =>
            None,
        _ => Some(Reply::NotBuilt),
    }
}

// Reads the value at a key.
fn get<V: Device>(
    alloc: Global,
    options: &Options,
    core: &mut Core<V>,
    key: &Bytes,
) -> Result<Answer, OutOfMemory>
    requires { StandsForSome core.old }
    ensures told { StandsForSome core.new }
    ensures out { (s : Driven) → StandsFor core.old s.state → IsBorne s.state
        → CarriedOut options.now s (command.Get key.now) (view.Open core.new s.jobs) result }
{
    match core.get(alloc, key.as_slice()) {
        Got::Value(value) => Ok(Answer::One(Reply::Value(value))),
        Got::Absent => Ok(Answer::One(Reply::Absent)),
        Got::ReadFault { number, fault } => one(fault_reply(number, fault)),
        Got::OutOfMemory => Err(OutOfMemory),
    }
}

// Reads the keys of a range.
fn scan<V: Device>(
    alloc: Global,
    options: &Options,
    core: &mut Core<V>,
    from: &Bytes,
    to: &Bytes,
) -> Result<Answer, OutOfMemory>
    requires { StandsForSome core.old }
    ensures told { StandsForSome core.new }
    ensures out { (s : Driven) → StandsFor core.old s.state → IsBorne s.state
        → CarriedOut options.now s (command.Scan from.now to.now) (view.Open core.new s.jobs) result }
{
    match core.scan(alloc, from.as_slice(), to.as_slice()) {
        Scanned::Rows(rows) => Ok(Answer::Rows(rows)),
        Scanned::ReadFault { number, fault } => one(fault_reply(number, fault)),
        Scanned::OutOfMemory => Err(OutOfMemory),
    }
}

// Carries out a command that an open store itself answers.
fn answer_on<V: Device>(
    alloc: Global,
    options: &Options,
    core: &mut Core<V>,
    jobs: &mut HeldJobs,
    command: &Command,
) -> Result<Answer, OutOfMemory>
    requires told { StandsForSome core.old }
    requires store { needs_store command.now ≡ true }
    ensures told { StandsForSome core.new }
    ensures out { (s : State) → StandsFor core.old s → IsBorne s
        → CarriedOut options.now (driven s jobs.old) command.now (view.Open core.new jobs.new) result }
{
    match command {
        Command::Put { key, value, sync } => {
            let put = pair_batch(alloc, key, value, *sync)?;
            one(put_batch(alloc, core, jobs, put))
        }
        Command::Del { key, sync } => {
            let del = key_batch(alloc, key, *sync)?;
            one(put_batch(alloc, core, jobs, del))
        }
        Command::QueuePut {
            key,
            value,
            sync,
            ..
        } => {
            let put = pair_batch(alloc, key, value, *sync)?;
            one(queue_batch(core, put))
        }
        Command::QueueDel { key, sync, .. } => {
            let del = key_batch(alloc, key, *sync)?;
            one(queue_batch(core, del))
        }
        Command::Write => one(write(alloc, core, jobs)),
        Command::Flush => one(flush(alloc, core, jobs)),
        Command::ResumeStep => one(resume(alloc, core, jobs)),
        Command::Drain { moves } => one(drain(alloc, core, jobs, *moves)),
        Command::Get { key } => get(alloc, options, core, key),
        Command::Scan { from, to } => scan(alloc, options, core, from, to),
        Command::Error => Ok(Answer::One(error(core))),
        Command::Resume => Ok(Answer::One(start(core, jobs))),
        Command::Levels => Ok(Answer::Levels(core.levels())),
        _ => unreachable!(),
    }
}

impl<V: Device> Held<V> {
    // Takes the device out; a store that was open is dropped.
    fn take_device(&mut self) -> V
        requires { IsTidy (view_of V.seen self.old) }
        ensures { Shows (view_of V.seen self.old) (V.seen result) }
    {
        match mem::replace(self, Held::Lent) {
            Held::Closed(device) => device,
            Held::Open(core, _) => core.finish(),
            Held::Lent => unreachable!(),
        }
    }
}

impl<V: Device> Store<V> {
    /// A closed store on a device.
    pub fn new(device: V) -> Store<V>
        ensures { result ≡ view.Closed (V.seen device) }
    {
        Store {
            held: Held::Closed(device),
        }
    }

    /// Whether it is open.
    pub fn is_open(&self) -> bool
        ensures { result ≡ is_one_open self.now }
    {
        match &self.held {
            Held::Open(_, _) => true,
            _ => false,
        }
    }

    /// Hands the device back.
    pub fn into_device(self) -> V
        ensures { Shows self (V.seen result) }
    {
        let Store { mut held } = self;
        held.take_device()
    }

    // Whether its device is a simulated one.
    fn simulated(&self) -> bool
        ensures { (s : Driven) → Stands self.now s → result ≡ s.state.device.simulated }
    {
        match &self.held {
            Held::Closed(device) => device.simulated(),
            Held::Open(core, _) => core.simulated(),
            Held::Lent => unreachable!(),
        }
    }

    // Opens a closed store with these options. Where that is refused, it stays closed.
    fn open(&mut self, alloc: Global, options: &Options) -> Result<Answer, OutOfMemory>
        requires { is_one_open self.old ≡ false }
        ensures { (s : Driven) → Stands self.old s → IsCovered s.state
            → CarriedOut options.now s command.Open self.new result }
    {
        let device = self.held.take_device();
        match Core::open(alloc, *options, device) {
            Ok(core) => {
                let seq = core.last_seq();
                self.held = Held::Open(core, HeldJobs::none());
                Ok(Answer::One(Reply::Opened { seq }))
            }
            Err(Refused { refusal, disk }) => {
                self.held = Held::Closed(disk);
                one(refusal_reply(refusal))
            }
        }
    }

    // Closes an open store, and has its device back.
    fn close(&mut self) -> Answer
        requires { is_one_open self.old ≡ true }
        ensures { (s : Driven) → Stands self.old s
            → Leads self.new (λ new. CloseRun s (replies_of result) new) }
    {
        match mem::replace(&mut self.held, Held::Lent) {
            Held::Open(core, _) => {
                let mut core = core;
                let tickets = core.close();
                self.held = Held::Closed(core.finish());
                Answer::One(Reply::Closed { tickets })
            }
            _ => unreachable!(),
        }
    }

    // The files of the directory.
    fn list(&mut self, alloc: Global, options: &Options) -> Result<Answer, OutOfMemory>
        ensures { (s : Driven) → Stands self.old s
            → CarriedOut options.now s command.Files self.new result }
    {
        match &mut self.held {
            Held::Closed(device) => list_answer(device.list(alloc)),
            Held::Open(core, _) => list_answer(core.list(alloc)),
            Held::Lent => unreachable!(),
        }
    }

    // Hands a rule to the device, whether or not a store is open on it.
    fn arrange(&mut self, alloc: Global, rule: Rule) -> Result<bool, OutOfMemory>
        requires { IsAllowed rule }
        ensures { (s : Driven) → Stands self.old s → Leads self.new (PlainTurn s (Arranging rule result)) }
    {
        match &mut self.held {
            Held::Closed(device) => device.arrange(alloc, rule),
            Held::Open(core, _) => core.arrange(alloc, rule),
            Held::Lent => unreachable!(),
        }
    }

    // Crashes a simulated device, which leaves the store closed.
    fn crash(&mut self, alloc: Global, options: &Options, pick: Pick) -> Result<Answer, OutOfMemory>
        ensures { (s : Driven) → Stands self.old s → IsCovered s.state
            → CarriedOut options.now s (command.Crash pick.dirops pick.keep pick.garbage pick.seed) self.new result }
    {
        if !self.simulated() {
            return Ok(Answer::One(Reply::NotSimulated));
        }
        let mut device = self.held.take_device();
        let crashed = device.crash(alloc, pick);
        self.held = Held::Closed(device);
        match crashed {
            Ok(_) => Ok(Answer::One(Reply::Crashed)),
            Err(OutOfMemory) => Err(OutOfMemory),
        }
    }

    /// Carries out a command. An opening is made with these options.
    pub fn answer(
        &mut self,
        alloc: Global,
        options: &Options,
        command: &Command,
    ) -> Result<Answer, OutOfMemory>
        requires { grammar.IsAllowed command.now }
        ensures { (s : Driven) → Stands self.old s → IsCovered s.state
            → CarriedOut options.now s command.now self.new result }
    {
        if let Some(reply) = rest_reply(self.is_open(), command) {
            return Ok(Answer::One(reply));
        }
        if let Some(rule) = rule_of(command) {
            return one(arranged_reply(rule, self.arrange(alloc, rule)));
        }
        match command {
            Command::Open => self.open(alloc, options),
            Command::Files => self.list(alloc, options),
            Command::Close => Ok(self.close()),
            Command::Crash {
                dirops,
                keep,
                garbage,
                seed,
            } => self.crash(
                alloc,
                options,
                Pick {
                    dirops: *dirops,
                    keep: *keep,
                    garbage: *garbage,
                    seed: *seed,
                },
            ),
            _ => match &mut self.held {
                Held::Open(core, jobs) => answer_on(alloc, options, core, jobs, command),
                _ => unreachable!(),
            },
        }
    }
}
