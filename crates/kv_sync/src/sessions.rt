ghost use Rattle.std.specs.Prelude.{◌≡◌, ◌<◌, ◌+◌, ◌^◌, length, IsTrue, IfOk, OnOk, OnErr};
ghost use Rattle.std.specs.Result.{result_map_both};
ghost use Rattle.std.specs.Option.{IsSome, IfSome};
ghost use Rattle.or_base.specs.ByLink.{at_link, with_link};
ghost use Rattle.kv_table.specs.Sending.{withheld_count};
ghost use Rattle.kv_sync.specs.Sessions.{is_in, done_of, session_after_reply, with_more_withheld};

use crate::session::{Session, Stale, SyncPhase};
use kv_table::KvTable;
use or_base::{Key, Msg, Name, NoMemory, Seq, SyncDone};
use std::alloc::Global;
use std::collections::BTreeMap;
use std::marker::Model;

/// The running sessions of a store that it started itself.
#[derive(Drop)]
pub struct Sessions {
    last: u64,
    running: BTreeMap<u32, Session>,
}

impl Model for Sessions {
    ghost use Rattle.kv_sync.specs.Sessions.{SessionsState};
    ghost use Rattle.kv_sync.specs.Running.{AreNumbered};

    ghost Value = { SessionsState };

    ghost view = { λ s. record { last = s.last; running = s.running.entries } };

    ghost invariant = { λ s. AreNumbered s.last s.running.entries };
}

/// Whether the session has this number and this phase.
fn is_in(session: &Session, number: u64, phase: SyncPhase) -> bool
    ensures { result ≡ is_in session.now number phase }
{
    session.number == number && session.phase == phase
}

/// A session of the link that is over. The peer's name is moved, so it takes no memory.
fn done_of(link: u32, session: Session) -> SyncDone
    ensures { result ≡ done_of link session }
{
    SyncDone {
        link,
        peer: session.peer,
        session: session.number,
        a0: session.a0,
        b0: session.b0,
        withheld: session.withheld,
    }
}

/// The reply arrives for the link's session.
#[tactic(auto, using(crate::proofs::Written::insert_found))]
fn mark_pushed(running: &mut BTreeMap<u32, Session>, link: u32, b0: u64, withheld: u64)
    ensures { IfSome (at_link running.old.entries link) (λ s. running.new.entries ≡ with_link running.old.entries link (session_after_reply s b0 withheld)) }
{
    if let Some(session) = running.get_mut(&link) {
        session.b0 = b0;
        session.withheld = withheld;
        session.phase = SyncPhase::Pushed;
    }
}

/// So many more pairs of the link's session were withheld.
#[tactic(auto, using(crate::proofs::Written::insert_found))]
fn add_withheld(running: &mut BTreeMap<u32, Session>, link: u32, more: u64)
    ensures { IfSome (at_link running.old.entries link) (λ s. running.new.entries ≡ with_link running.old.entries link (with_more_withheld s more)) }
{
    if let Some(session) = running.get_mut(&link) {
        session.withheld = session.withheld.saturating_add(more);
    }
}

impl Sessions {
    ghost use Rattle.or_base.specs.Counting.{saturate};
    ghost use Rattle.kv_sync.specs.Sessions.{no_sessions, session_on, without_session, without_sessions, with_started_session, current, after_reply, after_ack, after_push};
    ghost use Rattle.kv_sync.specs.Messages.{dump_message, push_message};
    ghost use Rattle.kv_sync.specs.Running.{may_push, number_of};
    ghost use Rattle.kv_sync.specs.declared.session.SyncPhase.TheVariants.{Dumped, Pushed};

    /// No sessions; the first has the number 1.
    pub fn new(alloc: Global) -> Result<Sessions, NoMemory>
        ensures { IfOk result (λ sessions. sessions ≡ no_sessions) }
    {
        Ok(Sessions {
            last: 0,
            running: BTreeMap::new(alloc),
        })
    }

    /// The number of the session that was started last. It takes no memory.
    pub fn last(&self) -> u64
        ensures { result ≡ self.now.last }
    {
        self.last
    }

    /// Starts a session with the peer in the place of the link's session, and gives its dump. Where memory runs out
    /// nothing changes.
    #[tactic(auto, unfolding(crate::specs::Sessions::with_started_session, crate::specs::Messages::dump_message))]
    pub fn start(&mut self, link: u32, peer: Name, table: &KvTable) -> Result<Msg, NoMemory>
        ensures state { OnOk result (self.new ≡ with_started_session self.old link peer (length table.now)) }
        ensures message { IfOk result (λ msg. msg ≡ dump_message (saturate (self.old.last + 1)) table.now) }
        ensures err { OnErr result (self.new ≡ self.old) }
    {
        let number = self.last.saturating_add(1);
        let rows = table.digest()?;
        let session = Session {
            number,
            peer,
            a0: table.journal().len() as u64,
            b0: 0,
            withheld: 0,
            phase: SyncPhase::Dumped,
        };
        self.running.insert(link, session)?;
        self.last = number;
        Ok(Msg::Dump {
            session: number,
            digest: Seq::from_vec(rows),
        })
    }

    /// Whether a message with this number is of the link's running session, which is to be in this phase.
    #[tactic(auto, unfolding(crate::specs::Sessions::current))]
    fn check(&self, link: u32, number: u64, phase: SyncPhase) -> Result<(), Stale>
        ensures { result ≡ result_map_both (λ session. tt) (λ stale. stale) (current self.now link number phase) }
    {
        match self.running.get(&link) {
            Some(session) => {
                if is_in(session, number, phase) {
                    Ok(())
                } else {
                    Err(Stale {
                        running: Some((session.number, session.phase)),
                    })
                }
            }
            None => Err(Stale { running: None }),
        }
    }

    /// A reply: the link's running session goes on, if it has this number and awaits its reply. Else the reply is stale,
    /// and nothing changes. It takes no memory.
    pub fn take_reply(
        &mut self,
        link: u32,
        session: u64,
        b0: u64,
        withheld: u64,
    ) -> Result<(), Stale>
        ensures answer { result ≡ result_map_both (λ session. tt) (λ stale. stale) (current self.old link session Dumped) }
        ensures state { self.new ≡ after_reply self.old link b0 withheld (current self.old link session Dumped) }
    {
        self.check(link, session, SyncPhase::Dumped)?;
        mark_pushed(&mut self.running, link, b0, withheld);
        Ok(())
    }

    /// The push of what the peer wanted, is held and isn't withheld at the moment `now` in milliseconds. What is withheld
    /// counts. Where memory runs out nothing changes.
    #[tactic(auto, unfolding(crate::specs::Messages::push_message))]
    pub fn push_for(
        &mut self,
        link: u32,
        wanted: &[Key],
        table: &KvTable,
        now: u64,
    ) -> Result<Msg, NoMemory>
        requires { IsTrue (may_push (session_on self.old link)) }
        ensures message { IfOk result (λ msg. msg ≡ push_message table.now now (number_of (session_on self.old link)) wanted.now) }
        ensures state { OnOk result (self.new ≡ after_push self.old link (withheld_count table.now now wanted.now) (session_on self.old link)) }
        ensures err { OnErr result (self.new ≡ self.old) }
    {
        let pairs = table.sent_pairs(now, wanted)?;
        let number = self.running[&link].number;
        let more = table.withheld_count(now, wanted);
        add_withheld(&mut self.running, link, more);
        Ok(Msg::Push {
            session: number,
            pairs: Seq::from_vec(pairs),
        })
    }

    /// An acknowledgement: the link's running session is over, if it has this number and awaits it. Else it is stale, and
    /// nothing changes. It takes no memory.
    pub fn take_ack(&mut self, link: u32, session: u64) -> Result<SyncDone, Stale>
        ensures answer { result ≡ result_map_both (done_of link) (λ stale. stale) (current self.old link session Pushed) }
        ensures state { self.new ≡ after_ack self.old link (current self.old link session Pushed) }
    {
        self.check(link, session, SyncPhase::Pushed)?;
        match self.running.remove(&link) {
            Some(session) => Ok(done_of(link, session)),
            None => Err(Stale { running: None }),
        }
    }

    /// The link's session goes, if it has one. It takes no memory.
    pub fn drop_link(&mut self, link: u32)
        ensures { self.new ≡ without_session self.old link }
    {
        let _session = self.running.remove(&link);
    }

    /// All sessions go; numbers go on. It takes no memory.
    #[tactic(auto, using(crate::proofs::Numbers::numbered_none))]
    pub fn drop_all(&mut self)
        ensures { self.new ≡ without_sessions self.old }
    {
        self.running.clear();
    }
}
