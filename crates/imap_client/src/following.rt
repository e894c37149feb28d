// A plan is followed.
ghost use Rattle.std.specs.Prelude.{◌≡◌, [], true, false, IsErrOf, IfErr, OnErr, OnOk};
ghost use Rattle.gate_world.specs.Causes.{Rose, LinkAlone};
ghost use Rattle.gate_world.specs.Tape.{Adds};
ghost use Rattle.imap_client.specs.declared.plan.Due.TheVariants as dues;
ghost use Rattle.imap_client.specs.LinkLife.{LinkLife, Stands, fresh};
ghost use Rattle.imap_client.specs.Plans.{FollowsTo, StopsAtRefusal, ends_torn};
ghost use Rattle.imap_client.specs.Unread.{LeavesUnread};

use crate::client::Client;
use crate::plan::{Due, Plan, end_of};
use gate_world::Link;
use imap_exchange::{LinkEnd, Received};

/// Does what is due, until all is done or fails. After an Err the life has ended.
pub fn follow<L: Link, P: Plan>(
    client: &mut Client,
    link: &mut L,
    plan: &mut P,
) -> Result<(), LinkEnd>
    requires alive { client.old.alive ≡ true }
    requires kept { P.keeps plan.old plan.old }
    ensures tape { Adds (L.tape link.old) (L.tape link.new) (λ es. (life : LinkLife) → Stands client.old life → (left : LinkLife) × FollowsTo P.plan P.hears plan.old plan.new life left client.new result es) }
    ensures done { OnOk result (P.plan plan.new [] ≡ dues.Done) }
    ensures alive { OnOk result (StopsAtRefusal (P.plan plan.old) → client.new.alive ≡ true) }
    ensures ended { OnErr result (client.new ≡ fresh) }
    ensures down { OnOk result (client.new.alive ≡ false → Rose (L.faults link.old).link (L.faults link.new).link) }
    ensures kept { P.keeps plan.old plan.new }
    ensures alone { LinkAlone (L.faults link.old) (L.faults link.new) }
    ensures cause { IsErrOf result LinkEnd.Lost → Rose (L.faults link.old).link (L.faults link.new).link }
    ensures hidden { L.hidden link.new ≡ L.hidden link.old }
{
    let mut torn = false;
    follow_torn(client, link, plan, &mut torn)
}

/// The same, and `torn` says whether the command that was due then isn't completed though the store took octets of it.
pub fn follow_torn<L: Link, P: Plan>(
    client: &mut Client,
    link: &mut L,
    plan: &mut P,
    torn: &mut bool,
) -> Result<(), LinkEnd>
    requires alive { client.old.alive ≡ true }
    requires kept { P.keeps plan.old plan.old }
    ensures tape { Adds (L.tape link.old) (L.tape link.new) (λ es. (life : LinkLife) → Stands client.old life → (left : LinkLife)
        × (follows : FollowsTo P.plan P.hears plan.old plan.new life left client.new result es) × (torn.new ≡ ends_torn follows.follows.ends)) }
    ensures whole { OnOk result (torn.new ≡ false) }
    ensures done { OnOk result (P.plan plan.new [] ≡ dues.Done) }
    ensures alive { OnOk result (StopsAtRefusal (P.plan plan.old) → client.new.alive ≡ true) }
    ensures ended { OnErr result (client.new ≡ fresh) }
    ensures down { OnOk result (client.new.alive ≡ false → Rose (L.faults link.old).link (L.faults link.new).link) }
    ensures kept { P.keeps plan.old plan.new }
    ensures alone { LinkAlone (L.faults link.old) (L.faults link.new) }
    ensures cause { IsErrOf result LinkEnd.Lost → Rose (L.faults link.old).link (L.faults link.new).link }
    ensures hidden { L.hidden link.new ≡ L.hidden link.old }
{
    let mut unread = Received::new(client.allocator());
    follow_keeping(client, link, plan, torn, &mut unread)
}

/// The same, and where no response begins at an offset of what the store gave, `unread` has the octets from there on.
pub fn follow_keeping<L: Link, P: Plan>(
    client: &mut Client,
    link: &mut L,
    plan: &mut P,
    torn: &mut bool,
    unread: &mut Received,
) -> Result<(), LinkEnd>
    requires alive { client.old.alive ≡ true }
    requires kept { P.keeps plan.old plan.old }
    ensures tape { Adds (L.tape link.old) (L.tape link.new) (λ es. (life : LinkLife) → Stands client.old life → (left : LinkLife)
        × (follows : FollowsTo P.plan P.hears plan.old plan.new life left client.new result es) × (torn.new ≡ ends_torn follows.follows.ends)
        × IfErr result (λ e. LeavesUnread e left.gave unread.new.octets)) }
    ensures whole { OnOk result (torn.new ≡ false) }
    ensures done { OnOk result (P.plan plan.new [] ≡ dues.Done) }
    ensures alive { OnOk result (StopsAtRefusal (P.plan plan.old) → client.new.alive ≡ true) }
    ensures ended { OnErr result (client.new ≡ fresh) }
    ensures down { OnOk result (client.new.alive ≡ false → Rose (L.faults link.old).link (L.faults link.new).link) }
    ensures kept { P.keeps plan.old plan.new }
    ensures alone { LinkAlone (L.faults link.old) (L.faults link.new) }
    ensures cause { IsErrOf result LinkEnd.Lost → Rose (L.faults link.old).link (L.faults link.new).link }
    ensures hidden { L.hidden link.new ≡ L.hidden link.old }
{
    let alloc = client.allocator();
    *torn = false;
    'following: loop {
        match plan.due(alloc) {
            Ok(Due::Send(command)) => {
                if !client.alive() {
                    client.leave(link);
                    return Err(LinkEnd::Lost);
                }
                let x = client.exchange_keeping(link, command, torn, unread)?;
                match plan.hear(alloc, x) {
                    Ok(()) => {}
                    Err(_) => {
                        client.leave(link);
                        return Err(LinkEnd::Memory);
                    }
                }
            }
            Ok(Due::Done) => return Ok(()),
            Ok(Due::Fails(why)) => {
                client.leave(link);
                return Err(end_of(why));
            }
            Err(_) => {
                client.leave(link);
                return Err(LinkEnd::Memory);
            }
        }
    }
}
