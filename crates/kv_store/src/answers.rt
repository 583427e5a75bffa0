//! The messages of full syncs that a turn sends.

ghost use Rattle.std.specs.Prelude.{◌≡◌, ◌++◌, ◌<◌, All, IsTrue, Some, length, OnOk};
ghost use Rattle.std.specs.Map.{keys_of};
ghost use Rattle.or_actor.specs.Fits.{link_number_end};
ghost use Rattle.kv_sync.specs.Sessions.{session_on};
ghost use Rattle.kv_sync.specs.Running.{may_push};
ghost use Rattle.kv_store.specs.Store.{message_on, start_with, start_each, push_on};

use kv_sync::Sessions;
use kv_table::KvTable;
use or_actor::{FIRST_LINK_PORT, Outbox};
use or_base::{Item, Key, Msg, Name, NoMemory};
use std::collections::BTreeMap;

/// Sends a message on a link.
pub fn send_on(me: &Name, link: u32, msg: Msg, out: &mut Outbox) -> Result<(), NoMemory>
    requires { link < link_number_end }
    ensures { OnOk result (out.new ≡ out.old ++ message_on me.now link (Some msg)) }
{
    let from = me.copied()?;
    out.send(FIRST_LINK_PORT + link, Item::Net { link, from, msg })?;
    Ok(())
}

/// Starts a full sync with the peer on a link.
#[tactic(auto, unfolding(crate::specs::Store::start_with, kv_sync::specs::Sessions::with_started_session))]
pub fn start_with(
    me: &Name,
    table: &KvTable,
    sessions: &mut Sessions,
    link: u32,
    peer: &Name,
    out: &mut Outbox,
) -> Result<(), NoMemory>
    requires { link < link_number_end }
    ensures running { OnOk result (sessions.new ≡ (start_with me.now table.now sessions.old (link, peer.now)).0) }
    ensures sent { OnOk result (out.new ≡ out.old ++ (start_with me.now table.now sessions.old (link, peer.now)).1) }
{
    let msg = sessions.start(link, peer.copied()?, table)?;
    send_on(me, link, msg, out)?;
    Ok(())
}

/// Starts one with each peer, in the order of links.
pub fn start_each(
    me: &Name,
    table: &KvTable,
    sessions: &mut Sessions,
    peers: &BTreeMap<u32, Name>,
    out: &mut Outbox,
) -> Result<(), NoMemory>
    requires { All (λ link. link < link_number_end) (keys_of peers.now.entries) }
    ensures running { OnOk result (sessions.new ≡ (start_each me.now table.now sessions.old peers.now.entries).0) }
    ensures sent { OnOk result (out.new ≡ out.old ++ (start_each me.now table.now sessions.old peers.now.entries).1) }
{
    for (link, peer) in peers {
        start_with(me, table, sessions, *link, peer, out)?;
    }
    Ok(())
}

/// Pushes what was wanted.
pub fn push_on(
    me: &Name,
    table: &KvTable,
    now: u64,
    sessions: &mut Sessions,
    link: u32,
    wanted: &[Key],
    out: &mut Outbox,
) -> Result<(), NoMemory>
    requires link { link < link_number_end }
    requires arrived { IsTrue (may_push (session_on sessions.old link)) }
    ensures running { OnOk result (sessions.new ≡ (push_on me.now table.now now sessions.old link wanted.now (session_on sessions.old link)).0) }
    ensures sent { OnOk result (out.new ≡ out.old
        ++ (push_on me.now table.now now sessions.old link wanted.now (session_on sessions.old link)).1) }
{
    let msg = sessions.push_for(link, wanted, table, now)?;
    send_on(me, link, msg, out)?;
    Ok(())
}
