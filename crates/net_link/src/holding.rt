ghost use Rattle.std.specs.Prelude.{◌≡◌, ◌++◌, [], ◌∷◌, map, not, IfOk, OnOk};
ghost use Rattle.std.specs.List.{filter};
ghost use Rattle.net_link.specs.Link.{count_down, holds_back, is_due, forwards_at_once};

use crate::held::HeldMsg;
use or_base::{Act, Msg, NoMemory};
use std::alloc::Global;

/// A held message after one message more has come.
fn count_down(held: HeldMsg) -> HeldMsg
    ensures { result ≡ count_down held }
{
    HeldMsg {
        msg: held.msg,
        count: held.count.saturating_sub(1),
    }
}

/// Held messages after one message more has come.
pub fn count_all_down(alloc: Global, held: Vec<HeldMsg>) -> Result<Vec<HeldMsg>, NoMemory>
    ensures { IfOk result (λ after. after.items ≡ map count_down held.items) }
{
    let mut after = Vec::new(alloc);
    for message in held {
        after.push(count_down(message))?;
    }
    Ok(after)
}

/// Holds back what the act says of the message.
pub fn hold(held: &mut Vec<HeldMsg>, act: Act, msg: &Msg) -> Result<(), NoMemory>
    ensures { OnOk result (held.new.items ≡ held.old.items ++ holds_back act msg.now) }
{
    if let Act::Late(count) = act {
        let msg = msg.copied()?;
        let count = count as u64;
        held.push(HeldMsg { msg, count })?;
    }
    Ok(())
}

/// The message as often as the act forwards it at once.
pub fn forwards_at_once(alloc: Global, act: Act, msg: Msg) -> Result<Vec<Msg>, NoMemory>
    ensures { IfOk result (λ msgs. msgs.items ≡ forwards_at_once act msg) }
{
    let mut msgs = Vec::new(alloc);
    match act {
        Act::Pass => msgs.push(msg)?,
        Act::Twice => {
            msgs.push(msg.copied()?)?;
            msgs.push(msg)?;
        }
        _ => {}
    }
    Ok(msgs)
}

/// The messages of those that are held.
pub fn messages_of(alloc: Global, held: Vec<HeldMsg>) -> Result<Vec<Msg>, NoMemory>
    ensures { IfOk result (λ msgs. msgs.items ≡ map (λ h. h.msg) held.items) }
{
    let mut msgs = Vec::new(alloc);
    for message in held {
        msgs.push(message.msg)?;
    }
    Ok(msgs)
}

/// The held messages that stay; those that are due go behind what is forwarded.
pub fn release_due(
    alloc: Global,
    held: Vec<HeldMsg>,
    forwarded: &mut Vec<Msg>,
) -> Result<Vec<HeldMsg>, NoMemory>
    ensures kept { IfOk result (λ kept. kept.items ≡ filter (λ h. not (is_due h)) held.items) }
    ensures due { OnOk result (forwarded.new.items ≡ forwarded.old.items ++ map (λ h. h.msg) (filter is_due held.items)) }
{
    let mut kept = Vec::new(alloc);
    for message in held {
        release(message, &mut kept, forwarded)?;
    }
    Ok(kept)
}

/// One held message, to those that stay or to those that are forwarded.
fn release(
    message: HeldMsg,
    kept: &mut Vec<HeldMsg>,
    forwarded: &mut Vec<Msg>,
) -> Result<(), NoMemory>
    ensures kept { OnOk result (kept.new.items ≡ kept.old.items ++ filter (λ h. not (is_due h)) (message ∷ [])) }
    ensures due { OnOk result (forwarded.new.items ≡ forwarded.old.items ++ map (λ h. h.msg) (filter is_due (message ∷ []))) }
{
    if message.count == 0 {
        forwarded.push(message.msg)?;
    } else {
        kept.push(message)?;
    }
    Ok(())
}
