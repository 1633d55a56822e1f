// The server's end of capabilities.
ghost use Rattle.std.specs.Prelude.{◌≡◌, ◌<◌, ◌++◌, ◌∷◌, [], true, is_some, IfOk, OnOk};
ghost use Rattle.std.specs.BTreeMap.{get};
ghost use Rattle.std.specs.Ordering.{nat_cmp};
ghost use Rattle.cs_laws.specs.declared.answers.Answer.TheVariants as answers;
ghost use Rattle.cs_laws.specs.declared.events.Event.TheVariants as events;
ghost use Rattle.cs_laws.specs.Answers.{held_after, sent_cap};
ghost use Rattle.cs_laws.specs.Flight.{cap_message};
ghost use Rattle.cs_mds.specs.Answers.{grant_answer, revoke_answer, served_sent};
ghost use Rattle.cs_mds.specs.Served.{CapsAfter, SameCaps};
ghost use Rattle.cs_mds.specs.Views.{caps_of};

use cs_bits::Caps;
use cs_caps::Held;
use cs_ids::{Ino, Memory, Seq};
use cs_laws::{Answer, Message, MessageList};
use std::collections::BTreeMap;

// Grants bits of a file that is known, and sends them.
pub fn grant_in(
    homes: &BTreeMap<Ino, Ino>,
    caps: &mut BTreeMap<Ino, Held>,
    file: Ino,
    bits: Caps,
    max: u32,
    out: &mut MessageList,
) -> Result<Answer, Memory>
    requires { (caps_of file caps.old).seq < 99998 }
    ensures answer { IfOk result (λ a. a ≡ grant_answer homes.now caps.old file bits max) }
    ensures caps { IfOk result (λ a. CapsAfter (events.Grant file bits max) a caps.old caps.new) }
    ensures sent { IfOk result (λ a. out.new ≡ out.old ++ served_sent (events.Grant file bits max) a caps.old []) }
{
    if !homes.contains_key(&file) {
        return Ok(Answer::Unknown);
    }
    enter(caps, file)?;
    let Some(held) = caps.get_mut(&file) else {
        unreachable!()
    };
    held.grant(bits, max);
    Ok(send(file, held, out)?)
}

// Revokes bits of a file that is known, and sends what is left.
pub fn revoke_in(
    homes: &BTreeMap<Ino, Ino>,
    caps: &mut BTreeMap<Ino, Held>,
    file: Ino,
    bits: Caps,
    out: &mut MessageList,
) -> Result<Answer, Memory>
    requires { (caps_of file caps.old).seq < 99998 }
    ensures answer { IfOk result (λ a. a ≡ revoke_answer homes.now caps.old file bits) }
    ensures caps { IfOk result (λ a. CapsAfter (events.Revoke file bits) a caps.old caps.new) }
    ensures sent { IfOk result (λ a. out.new ≡ out.old ++ served_sent (events.Revoke file bits) a caps.old []) }
{
    if !homes.contains_key(&file) {
        return Ok(Answer::Unknown);
    }
    enter(caps, file)?;
    let Some(held) = caps.get_mut(&file) else {
        unreachable!()
    };
    held.revoke(bits);
    Ok(send(file, held, out)?)
}

// Takes the client's acknowledgement of a message.
pub fn acknowledge_in(
    caps: &mut BTreeMap<Ino, Held>,
    file: Ino,
    seq: Seq,
    bits: Caps,
) -> Result<Answer, Memory>
    ensures answer { IfOk result (λ a. a ≡ answers.CapAck file seq (held_after (caps_of file caps.old) seq bits)) }
    ensures caps { IfOk result (λ a. CapsAfter events.ToMds a caps.old caps.new) }
{
    enter(caps, file)?;
    let Some(held) = caps.get_mut(&file) else {
        unreachable!()
    };
    held.acked(seq, bits);
    Ok(Answer::CapAck {
        file,
        seq,
        held: held.held(),
    })
}

// Gives a file a row of its own, with no capabilities where it had none.
fn enter(caps: &mut BTreeMap<Ino, Held>, file: Ino) -> Result<(), Memory>
    ensures there { OnOk result (is_some (get nat_cmp caps.new file) ≡ true) }
    ensures same { SameCaps caps.old caps.new }
{
    if !caps.contains_key(&file) {
        caps.insert(file, Held::new())?;
    }
    Ok(())
}

// Sends the client what it may have of a file from now on.
fn send(file: Ino, held: &Held, out: &mut MessageList) -> Result<Answer, Memory>
    ensures answer { IfOk result (λ a. a ≡ sent_cap held.now) }
    ensures sent { OnOk result (out.new ≡ out.old ++ cap_message file held.now ∷ []) }
{
    out.push(Message::Cap {
        file,
        seq: held.seq(),
        bits: held.given(),
        max: held.max(),
    })?;
    Ok(Answer::SentCap {
        seq: held.seq(),
        held: held.held(),
    })
}
