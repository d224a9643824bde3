//! What follows of contenders, over definitions alone. The functions do nothing: their contracts are the laws.

ghost use Rattle.zk_contend.specs.Acls.{SpellsCreates};
ghost use Rattle.zk_contend.specs.Collections.{NothingBefore};
ghost use Rattle.zk_contend.specs.Contenders.{WatchesOne};
ghost use Rattle.zk_contend.specs.Leases.{AmongStays, LeaseIsTrue, OneIsFirst};
ghost use Rattle.zk_contend.specs.Listings.{ListingsAreHeard};
ghost use Rattle.zk_contend.specs.Nodes.{GivenUpAsks, NothingIsLeft, OneIsThere};
ghost use Rattle.zk_contend.specs.Standings.{HeldIsTrue};
ghost use Rattle.zk_contend.specs.Waiting.{WaitsQuietly};

use std::alloc::Allocator;

/// Whenever a contender holds, its session stands first in the history at the client's last seen zxid, beside contenders of all families,
/// if its listing is one that the client was answered, and numbers rise with creation. If several may hold at once, fewer rivals than that
/// are before it there. At the zxid of the listing no name of another family was in the directory. It may have lost its place since.
pub fn held_is_true<A: Allocator>()
    ensures { HeldIsTrue A }
{}

/// Whoever is shown to be among the first is so in the history (`is_true`), and stays so for as long as its node is there (`stays`), if
/// numbers rise with creation. If one holds at once, it is the first (`one`).
pub fn leases_are_true()
    ensures is_true { LeaseIsTrue }
    ensures stays { AmongStays }
    ensures one { OneIsFirst }
{}

/// The listing of a contender is an answer that it heard, with these names at this zxid. So whoever gives it what the client was answered
/// meets the premise of [`held_is_true`].
pub fn listings_are_heard<A: Allocator>()
    ensures { ListingsAreHeard A }
{}

/// A call of a contender leaves a watch on its place or on those for which it waits alone, the last rivals before it, and only if the
/// client does not show that node: so a change of a node wakes those who wait for it alone, and each reads it once. A listing leaves no
/// watch.
pub fn rivals<A: Allocator>()
    ensures { WatchesOne A }
{}

/// While a contender waits it asks for nothing but reads of its place and of those for which it waits, and for one of these only if the
/// client does not show it ([`rivals`]); until one of them is reported deleted, or is read and not there or not for this session, memory
/// runs out, or it is given up or its session is over. So no other change in the directory has it ask anything: there is no herd.
pub fn waits_quietly<A: Allocator>()
    ensures { WaitsQuietly A }
{}

/// Through any calls, losses, reports, expiries and failures of memory: while a contender knows its place, no other node of it is there
/// (`one`). Once it is given up, it asks still, or no node of it is there (`asks`, `left`). The premise is that servers take the calls of a
/// session in the order in which it sent them, also over several connections: so what was lost was done before the next call, or never is.
pub fn nothing_left<A: Allocator>()
    ensures one { OneIsThere A }
    ensures asks { GivenUpAsks A }
    ensures left { NothingIsLeft A }
{}

/// If no call of those that are looked at is due now, none is before the deadline, as long as the client shows the same.
pub fn nothing_before<A: Allocator>()
    ensures { NothingBefore A }
{}

/// What stands after the header of a create2 is the spelling of `CreateRequest` with the entries of the ACL that was handed in.
pub fn creates_are_spelled()
    ensures { SpellsCreates }
{}
