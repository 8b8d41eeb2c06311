//! Both ends, and what lies between them.

ghost use Rattle.std.specs.Prelude.{◌≡◌, ◌||◌, ℕ, List, [], false, if◌then◌else◌, None, Some, IfOk, IfSome, IsTrue, OnErr, OnOk};
ghost use Rattle.fixp_msgs.specs.declared.flow.Flow.{Flow};
ghost use Rattle.jr_kept.specs.Inbox.{flow_of, next_of};
ghost use Rattle.gw_link_fakes.specs.Pipes.{told_at};
ghost use Rattle.gw_link_fakes.specs.declared.pipe.Side.TheVariants.{Left, Right};
ghost use Rattle.cmd_config.specs.Settings.{own_flow, peer_flow};
ghost use Rattle.cmd_script.specs.Script.{IsScript};
ghost use Rattle.gw_rehearse.specs.Standing.{is_given, is_going};
ghost use Rattle.gw_rehearse.specs.Driven.{BeginsOn, IsDriven, TurnsOn};
ghost use Rattle.gw_rehearse.specs.Together.{IsPairOf, KeepsSession, StaysSound, Together, is_lost};
ghost use Rattle.gw_rehearse.specs.Summaries.{counts_to};

use crate::configs::config_of;
use crate::end::DrivenEnd;
use crate::journals::Journals;
use crate::posts::posts_of;
use crate::watch::Watch;
use cmd_script::{Script, Step};
use fixp_msgs::Flow;
use fixp_shake::Role;
use gw_fakes::Pick;
use gw_link_fakes::{MemClock, Pipe};
use gw_links::Clock;
use std::alloc::{AllocError, Global};
use std::marker::Model;
use std::sync::Wait;
use std::thread::Threads;

/// The room of a connection, each way, in bytes.
const ROOM: usize = 1 << 26;

/// The greatest moment that a clock gives, in milliseconds.
const LAST: u64 = (1 << 44) - 1;

/// The two ends of a session, and the connection between them, where one stands.
pub(crate) struct Pair {
    initiator: DrivenEnd,
    acceptor: DrivenEnd,
    clock: MemClock,
    pipe: Option<Pipe>,
    /// The flow that the initiator sends, and the one that the acceptor sends.
    client: Flow,
    server: Flow,
    /// The stop that is to come, where one is.
    pending: Option<Stop>,
    alloc: Global,
}

/// A stop: of which end, and what it leaves of the journals.
#[derive(Clone, Copy, Drop)]
struct Stop {
    end: Role,
    pick: Pick,
}

/// An end was given up for want of memory, or of room in a journal or a link, which is memory too; or no turn or millisecond is left.
#[derive(Drop)]
pub(crate) struct Spent;

impl From<AllocError> for Spent {
    fn from(_error: AllocError) -> Spent {
        Spent
    }
}

/// An end of a role over new journals, with those who send there; none where memory runs out.
fn open_end<R: Threads + Wait + Sync>(
    alloc: Global,
    script: &Script,
    role: Role,
    rt: &R,
) -> Option<DrivenEnd>
    requires script { IsScript script.now }
    ensures driven { IfSome result (λ end. IsDriven end) }
    ensures sound { IfSome result (λ end. is_given end.standing ≡ false) }
    ensures first { IfSome result (λ end. ∥ BeginsOn (own_flow role script.now.link.client_flow script.now.link.server_flow) (peer_flow role script.now.link.client_flow script.now.link.server_flow) [] [] end ∥₁) }
{
    let Ok(config) = config_of(alloc, script, role) else {
        return None;
    };
    let Some(mut end) = DrivenEnd::open(alloc, config, posts_of(script, role)) else {
        return None;
    };
    if end.resume(alloc, rt) {
        return Some(end);
    }
    let _ = end.close();
    None
}

impl Model for Pair {
    ghost use Rattle.std.specs.Prelude.{◌≡◌, false};
    ghost use Rattle.gw_rehearse.specs.Standing.{is_failed};
    ghost use Rattle.order_staff.specs.Staffs.{sent_in};
    ghost use Rattle.std.specs.Prelude.{◌||◌};
    ghost use Rattle.gw_rehearse.specs.Driven.{IsDriven};
    ghost use Rattle.gw_rehearse.specs.Together.{PairNow, Together, is_lost};

    ghost Value = { PairNow };

    ghost view = { λ p. record { sent = sent_in p.initiator.staff; client = p.client; server = p.server; lost = is_lost p.initiator p.acceptor; failed = is_failed p.initiator.standing || is_failed p.acceptor.standing } };

    ghost invariant = { λ p. IsDriven p.initiator × IsDriven p.acceptor × (is_lost p.initiator p.acceptor ≡ false → ∥ Together p.client p.server p.initiator p.acceptor p.pipe ∥₁) };
}

/// A turn of an end over the left end of a pipe.
fn turn_left<R: Threads + Wait + Sync>(
    alloc: Global,
    end: &mut DrivenEnd,
    pipe: &mut Pipe,
    clock: &mut MemClock,
    rt: &R,
)
    requires driven { IsDriven end.old }
    ensures driven { IsDriven end.new }
    ensures sound { is_given end.new.standing ≡ false → is_given end.old.standing ≡ false }
    ensures turned { TurnsOn end.old end.new (Some (told_at Left pipe.old)) (Some (told_at Left pipe.new)) }
{
    let mut link = pipe.left();
    end.turn(alloc, &mut link, clock, rt);
}

/// A turn of an end over the right end of a pipe.
fn turn_right<R: Threads + Wait + Sync>(
    alloc: Global,
    end: &mut DrivenEnd,
    pipe: &mut Pipe,
    clock: &mut MemClock,
    rt: &R,
)
    requires driven { IsDriven end.old }
    ensures driven { IsDriven end.new }
    ensures sound { is_given end.new.standing ≡ false → is_given end.old.standing ≡ false }
    ensures turned { TurnsOn end.old end.new (Some (told_at Right pipe.old)) (Some (told_at Right pipe.new)) }
{
    let mut link = pipe.right();
    end.turn(alloc, &mut link, clock, rt);
}

/// A turn of the initiator, and then one of the acceptor, unless the initiator failed.
fn turn_both<R: Threads + Wait + Sync>(
    alloc: Global,
    initiator: &mut DrivenEnd,
    acceptor: &mut DrivenEnd,
    pipe: &mut Pipe,
    clock: &mut MemClock,
    rt: &R,
)
    requires initiator { IsDriven initiator.old }
    requires acceptor { IsDriven acceptor.old }
    ensures initiator { IsDriven initiator.new }
    ensures acceptor { IsDriven acceptor.new }
    ensures sound { is_lost initiator.new acceptor.new ≡ false → is_lost initiator.old acceptor.old ≡ false }
    ensures together { (client server : Flow) → Together client server initiator.old acceptor.old (Some pipe.old) → is_lost initiator.new acceptor.new ≡ false → Together client server initiator.new acceptor.new (Some pipe.new) }
{
    turn_left(alloc, initiator, pipe, clock, rt);
    // Its link is cut as it is stopped, so the other end receives nothing more.
    if initiator.has_failed() {
        return;
    }
    turn_right(alloc, acceptor, pipe, clock, rt);
}

/// The connection that stands, or a new one, which both ends begin.
///
/// # Errors
/// Want of memory for a new one.
fn connected(
    alloc: Global,
    initiator: &mut DrivenEnd,
    acceptor: &mut DrivenEnd,
    pipe: Option<Pipe>,
    clock: &mut MemClock,
) -> Result<Pipe, Spent>
    requires initiator { IsDriven initiator.old }
    requires acceptor { IsDriven acceptor.old }
    ensures initiator { IsDriven initiator.new }
    ensures acceptor { IsDriven acceptor.new }
    ensures sound { is_lost initiator.new acceptor.new ≡ false → is_lost initiator.old acceptor.old ≡ false }
    ensures together { IfOk result (λ p. (client server : Flow) → Together client server initiator.old acceptor.old pipe → Together client server initiator.new acceptor.new (Some p)) }
    ensures same { OnErr result ((initiator.new ≡ initiator.old) × (acceptor.new ≡ acceptor.old) × (pipe ≡ None)) }
{
    if let Some(pipe) = pipe {
        return Ok(pipe);
    }
    let pipe = Pipe::new(alloc, ROOM)?;
    initiator.begin(clock);
    acceptor.begin(clock);
    Ok(pipe)
}

/// Whether an end was given up.
fn is_lost(initiator: &DrivenEnd, acceptor: &DrivenEnd) -> bool
    ensures { result ≡ is_lost initiator.now acceptor.now }
{
    initiator.is_given_up() || acceptor.is_given_up()
}

/// Whether the connection is not over at an end.
fn is_going(initiator: &DrivenEnd, acceptor: &DrivenEnd) -> bool
    ensures { result ≡ (is_going initiator.now.standing || is_going acceptor.now.standing) }
{
    initiator.is_going() || acceptor.is_going()
}

/// A pipe goes to its place where its connection goes on, and is dropped where it is over.
fn put_back(place: &mut Option<Pipe>, pipe: Pipe, goes_on: bool)
    requires empty { place.old ≡ None }
    ensures pipe { place.new ≡ (if goes_on then Some pipe else None) }
{
    if goes_on {
        *place = Some(pipe);
    }
}

impl Pair {
    /// Two ends over new journals, between which no connection stands; none where memory runs out.
    pub(crate) fn open<R: Threads + Wait + Sync>(
        alloc: Global,
        script: &Script,
        rt: &R,
    ) -> Option<Pair>
        requires { IsScript script.now }
        ensures client { IfSome result (λ pair. pair.client ≡ script.now.link.client_flow) }
        ensures server { IfSome result (λ pair. pair.server ≡ script.now.link.server_flow) }
        ensures sound { IfSome result (λ pair. pair.lost ≡ false) }
    {
        let initiator = open_end(alloc, script, Role::Initiator, rt)?;
        let Some(acceptor) = open_end(alloc, script, Role::Acceptor, rt) else {
            let _ = initiator.close();
            return None;
        };
        Some(Pair {
            initiator,
            acceptor,
            clock: MemClock::new(0),
            pipe: None,
            client: script.link.client_flow,
            server: script.link.server_flow,
            pending: None,
            alloc,
        })
    }

    /// Whether each end has ended a connection with both finishes exchanged.
    pub(crate) fn is_over(&self) -> bool {
        self.initiator.has_finished() && self.acceptor.has_finished()
    }

    /// Whether the initiator's outbox has all that each sender sends, and no more of it.
    pub(crate) fn has_sent<R: Wait>(&mut self, messages: &[u64], rt: &R) -> bool
        ensures sent { IsTrue result → self.new.sent ≡ Some messages.now }
        ensures stays { StaysSound self.old self.new }
    {
        self.initiator.has_sent(messages, rt)
    }

    /// A turn of each end over the connection that stands, or over a new one, where not all is over.
    ///
    /// # Errors
    /// Want of memory.
    #[tactic(auto, using(crate::proofs::Together::stays_self))]
    fn turns<R: Threads + Wait + Sync>(&mut self, rt: &R) -> Result<(), Spent>
        ensures stays { OnOk result (StaysSound self.old self.new) }
    {
        if self.is_over() {
            return Ok(());
        }
        let pipe = self.pipe.take();
        let mut pipe = connected(
            self.alloc,
            &mut self.initiator,
            &mut self.acceptor,
            pipe,
            &mut self.clock,
        )?;
        turn_both(
            self.alloc,
            &mut self.initiator,
            &mut self.acceptor,
            &mut pipe,
            &mut self.clock,
            rt,
        );
        if is_lost(&self.initiator, &self.acceptor) {
            return Err(Spent);
        }
        let goes_on = is_going(&self.initiator, &self.acceptor);
        put_back(&mut self.pipe, pipe, goes_on);
        Ok(())
    }

    /// A round: a new connection where none stands, a turn of the initiator, a turn of the acceptor, and a millisecond. Once all is
    /// over, a round is the millisecond alone.
    ///
    /// # Errors
    /// Want of memory, or of a millisecond that the clock may go on by. No round follows.
    #[tactic(auto, using(crate::proofs::Together::stays_self, crate::proofs::Together::stays_on))]
    fn round<R: Threads + Wait + Sync>(&mut self, rt: &R) -> Result<(), Spent>
        ensures stays { OnOk result (StaysSound self.old self.new) }
    {
        self.turns(rt)?;
        if self.clock.now() >= LAST {
            return Err(Spent);
        }
        self.clock.advance(1);
        Ok(())
    }

    /// Whether a call of a disk failed at an end.
    fn has_failed(&self) -> bool
        ensures { result ≡ self.now.failed }
    {
        self.initiator.has_failed() || self.acceptor.has_failed()
    }

    /// So many rounds, or those before an end fails. Answers how many are left then.
    ///
    /// # Errors
    /// Want of memory.
    #[tactic(auto, using(crate::proofs::Together::stays_self, crate::proofs::Together::stays_on))]
    fn rounds<W: Watch, R: Threads + Wait + Sync>(
        &mut self,
        count: u32,
        watch: &mut W,
        rt: &R,
    ) -> Result<u32, Spent>
        ensures stays { OnOk result (StaysSound self.old self.new) }
    {
        for done in 0..count {
            if self.has_failed() {
                return Ok(count - done);
            }
            self.round(rt)?;
            watch.round();
        }
        Ok(0)
    }

    /// The connection is cut, where one stands and no end failed: what is under way is lost, and both ends give it up.
    fn cut(&mut self)
        ensures stays { StaysSound self.old self.new }
    {
        if self.has_failed() {
            return;
        }
        self.initiator.cut();
        self.acceptor.cut();
        self.pipe = None;
    }

    /// The senders submit their next messages. Answers whether all were accepted.
    ///
    /// # Errors
    /// Want of memory.
    fn submit<R: Threads + Wait + Sync>(
        &mut self,
        script: &Script,
        count: u64,
        rt: &R,
    ) -> Result<bool, Spent>
        requires script { IsScript script.now }
        ensures stays { OnOk result (StaysSound self.old self.new) }
    {
        let version = script.load.initiator_version;
        let messages = script.load.messages.as_slice();
        Ok(
            self.initiator
                .submit(self.alloc, version, messages, count, rt)?,
        )
    }

    /// Both ends are given up.
    pub(crate) fn give_up(self) -> Spent {
        let _ = self.close();
        Spent
    }

    /// The senders submit their next messages, and then so many rounds run. Where an end fails that is to be stopped, it is stopped, and what is
    /// left of the rounds runs behind that.
    ///
    /// # Errors
    /// Want of memory.
    #[tactic(auto, using(crate::proofs::Together::stays_self, crate::proofs::Together::stays_on, crate::proofs::Together::pair_on))]
    fn burst<W: Watch, R: Threads + Wait + Sync>(
        self,
        script: &Script,
        count: u64,
        rounds: u32,
        watch: &mut W,
        rt: &R,
    ) -> Result<Pair, Spent>
        requires script { IsScript script.now }
        requires flows { IsPairOf script.now self }
        ensures stays { IfOk result (StaysSound self) }
    {
        let mut pair = self;
        match pair.submit(script, count, rt) {
            Ok(true) => pair.run(script, rounds, watch, rt),
            Ok(false) => pair
                .stop_pending(script, rt)?
                .run(script, rounds, watch, rt),
            Err(Spent) => Err(pair.give_up()),
        }
    }

    /// So many rounds. An end that fails on the way is stopped, and what is left of them runs behind that.
    ///
    /// # Errors
    /// Want of memory.
    #[tactic(auto, using(crate::proofs::Together::stays_self, crate::proofs::Together::stays_on, crate::proofs::Together::pair_on))]
    fn run<W: Watch, R: Threads + Wait + Sync>(
        self,
        script: &Script,
        count: u32,
        watch: &mut W,
        rt: &R,
    ) -> Result<Pair, Spent>
        requires script { IsScript script.now }
        requires flows { IsPairOf script.now self }
        ensures stays { IfOk result (StaysSound self) }
    {
        let mut pair = self;
        let Ok(left) = pair.rounds(count, watch, rt) else {
            return Err(pair.give_up());
        };
        if !pair.has_failed() {
            return Ok(pair);
        }
        // No second stop is to come behind this one.
        let mut pair = pair.stop_pending(script, rt)?;
        match pair.rounds(left, watch, rt) {
            Ok(_left) => Ok(pair),
            Err(Spent) => Err(pair.give_up()),
        }
    }

    /// The stop that is to come is made, if there is one.
    ///
    /// # Errors
    /// Want of memory; also where an end failed that no stop is of, since its disk has no room then.
    fn stop_pending<R: Threads + Wait + Sync>(self, script: &Script, rt: &R) -> Result<Pair, Spent>
        requires script { IsScript script.now }
        requires flows { IsPairOf script.now self }
        ensures stays { IfOk result (StaysSound self) }
    {
        match self.pending {
            Some(stop) => self.renew(script, stop, None, rt),
            None => Err(self.give_up()),
        }
    }

    /// The stop that is to come is made, where one is, or where an end failed.
    ///
    /// # Errors
    /// Want of memory.
    #[tactic(auto, using(crate::proofs::Together::stays_self, crate::proofs::Together::stays_on, crate::proofs::Together::pair_on))]
    fn stop_due<R: Threads + Wait + Sync>(self, script: &Script, rt: &R) -> Result<Pair, Spent>
        requires script { IsScript script.now }
        requires flows { IsPairOf script.now self }
        ensures stays { IfOk result (StaysSound self) }
    {
        if self.pending.is_some() || self.has_failed() {
            return self.stop_pending(script, rt);
        }
        Ok(self)
    }

    /// The end of a stop goes on from its journals, once it was stopped, or, where there is a fuse, with so many more calls of each disk.
    ///
    /// # Errors
    /// Want of memory; also where the other end failed.
    fn renew<R: Threads + Wait + Sync>(
        self,
        script: &Script,
        stop: Stop,
        fuse: Option<u32>,
        rt: &R,
    ) -> Result<Pair, Spent>
        requires script { IsScript script.now }
        requires flows { IsPairOf script.now self }
        ensures stays { IfOk result (StaysSound self) }
    {
        match stop.end {
            Role::Initiator => self.renew_initiator(script, stop, fuse, rt),
            Role::Acceptor => self.renew_acceptor(script, stop, fuse, rt),
        }
    }

    /// The initiator goes on from its journals, and the connection is cut.
    fn renew_initiator<R: Threads + Wait + Sync>(
        self,
        script: &Script,
        stop: Stop,
        fuse: Option<u32>,
        rt: &R,
    ) -> Result<Pair, Spent>
        requires script { IsScript script.now }
        requires flows { IsPairOf script.now self }
        ensures stays { IfOk result (StaysSound self) }
    {
        if self.acceptor.has_failed() || is_lost(&self.initiator, &self.acceptor) {
            return Err(self.give_up());
        }
        let Pair {
            initiator,
            mut acceptor,
            clock,
            pipe: _,
            client,
            server,
            pending: _,
            alloc,
        } = self;
        acceptor.cut();
        let Some((mut initiator, pending)) = initiator.restart(
            alloc,
            script,
            Role::Initiator,
            fuse,
            stop.pick,
        ) else {
            let _ = acceptor.close();
            return Err(Spent);
        };
        let version = script.load.initiator_version;
        let messages = script.load.messages.as_slice();
        let answer = initiator.go_on(alloc, version, messages, rt);
        let pair = Pair {
            initiator,
            acceptor,
            clock,
            pipe: None,
            client,
            server,
            pending: if pending { Some(stop) } else { None },
            alloc,
        };
        match answer {
            Ok(()) => Ok(pair),
            Err(_) => Err(pair.give_up()),
        }
    }

    /// The acceptor goes on from its journals, and the connection is cut.
    fn renew_acceptor<R: Threads + Wait + Sync>(
        self,
        script: &Script,
        stop: Stop,
        fuse: Option<u32>,
        rt: &R,
    ) -> Result<Pair, Spent>
        requires script { IsScript script.now }
        requires flows { IsPairOf script.now self }
        ensures stays { IfOk result (StaysSound self) }
    {
        if self.initiator.has_failed() || is_lost(&self.initiator, &self.acceptor) {
            return Err(self.give_up());
        }
        let Pair {
            mut initiator,
            acceptor,
            clock,
            pipe: _,
            client,
            server,
            pending: _,
            alloc,
        } = self;
        initiator.cut();
        let Some((acceptor, pending)) = acceptor.restart_answering(
            alloc,
            script,
            Role::Acceptor,
            fuse,
            stop.pick,
            rt,
        ) else {
            let _ = initiator.close();
            return Err(Spent);
        };
        Ok(Pair {
            initiator,
            acceptor,
            clock,
            pipe: None,
            client,
            server,
            pending: if pending { Some(stop) } else { None },
            alloc,
        })
    }

    /// An end goes on from its journals, each of whose disks passes `after` more calls; it is stopped at the first that fails. A stop that is to
    /// come from before is made first.
    ///
    /// # Errors
    /// Want of memory.
    #[tactic(auto, using(crate::proofs::Together::stays_self, crate::proofs::Together::stays_on, crate::proofs::Together::pair_on))]
    fn begin_stop<R: Threads + Wait + Sync>(
        self,
        script: &Script,
        stop: Stop,
        after: u32,
        rt: &R,
    ) -> Result<Pair, Spent>
        requires script { IsScript script.now }
        requires flows { IsPairOf script.now self }
        ensures stays { IfOk result (StaysSound self) }
    {
        let pair = self.stop_due(script, rt)?;
        pair.renew(script, stop, Some(after), rt)
    }

    /// A step of the script, and behind it the stop that was to come before it.
    ///
    /// # Errors
    /// Want of memory.
    #[tactic(auto, using(crate::proofs::Together::stays_self, crate::proofs::Together::stays_on, crate::proofs::Together::pair_on))]
    fn step<W: Watch, R: Threads + Wait + Sync>(
        self,
        script: &Script,
        step: Step,
        watch: &mut W,
        rt: &R,
    ) -> Result<Pair, Spent>
        requires script { IsScript script.now }
        requires flows { IsPairOf script.now self }
        ensures stays { IfOk result (StaysSound self) }
    {
        match step {
            Step::Burst { count, rounds } => {
                let pair = self.burst(script, u64::from(count), rounds, watch, rt)?;
                pair.stop_due(script, rt)
            }
            Step::Rounds { count } => {
                let pair = self.run(script, count, watch, rt)?;
                pair.stop_due(script, rt)
            }
            Step::Cut => {
                let mut pair = self;
                pair.cut();
                pair.stop_due(script, rt)
            }
            Step::Stop { end, after, pick } => {
                self.begin_stop(script, Stop { end, pick }, after, rt)
            }
        }
    }

    /// All steps of a script, and behind them what the senders still have to submit, which counts as a step for a stop that is to come.
    ///
    /// # Errors
    /// Want of memory.
    #[tactic(auto, using(crate::proofs::Together::stays_self, crate::proofs::Together::stays_on, crate::proofs::Together::pair_on))]
    pub(crate) fn steps<W: Watch, R: Threads + Wait + Sync>(
        self,
        script: &Script,
        watch: &mut W,
        rt: &R,
    ) -> Result<Pair, Spent>
        requires script { IsScript script.now }
        requires flows { IsPairOf script.now self }
        ensures stays { IfOk result (StaysSound self) }
    {
        let mut pair = self;
        let steps = script.steps.as_slice();
        let of = steps.len() as u64;
        let mut done = 0u64;
        for step in steps {
            watch.at(done, of);
            pair = pair.step(script, *step, watch, rt)?;
            done = done.saturating_add(1);
        }
        watch.at(done, of);
        let last = Step::Burst {
            count: 100_000,
            rounds: 0,
        };
        // Once more, for what a stop in the midst of it left.
        pair.step(script, last, watch, rt)?
            .step(script, last, watch, rt)
    }

    /// At most so many rounds, until all is over.
    ///
    /// # Errors
    /// Want of memory; also where an end failed, since no stop is to come: its disk has no room then.
    #[tactic(auto, using(crate::proofs::Together::stays_self, crate::proofs::Together::stays_on))]
    pub(crate) fn drain<W: Watch, R: Threads + Wait + Sync>(
        &mut self,
        most: u64,
        watch: &mut W,
        rt: &R,
    ) -> Result<(), Spent>
        ensures stays { OnOk result (StaysSound self.old self.new) }
    {
        for _ in 0..most {
            if self.is_over() {
                break;
            }
            if self.has_failed() {
                return Err(Spent);
            }
            self.round(rt)?;
            watch.round();
        }
        Ok(())
    }

    /// The journals of the initiator and of the acceptor.
    pub(crate) fn close(self) -> (Journals, Journals)
        ensures counts { (counts : List ℕ) → self.sent ≡ Some counts → counts_to result.0.outbox result.0.senders ≡ counts }
        ensures keeps { self.lost ≡ false → ∥ KeepsSession self.client self.server result.0 result.1 ∥₁ }
    {
        let Pair {
            initiator,
            acceptor,
            clock: _,
            pipe: _,
            client: _,
            server: _,
            pending: _,
            alloc: _,
        } = self;
        (initiator.close(), acceptor.close())
    }
}
