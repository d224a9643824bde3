//! Another session after one that is over.

ghost use Rattle.std.specs.Prelude.{ℤ};
ghost use Rattle.zk_turns.specs.View.{View};
ghost use Rattle.zk_client.specs.Clients.{renewed_start};
ghost use Rattle.zk_agent.specs.Renewal.{AdmitsNothingOlder};

use zk_laws::above_the_saved;

/// Of a client of another session that begins after one, under servers of a history, each reply that is taken has a zxid of at least the
/// last one that was seen before.
pub fn admits_nothing_older()
    ensures { (timeout : ℤ) (before : View) → AdmitsNothingOlder (renewed_start timeout before) }
{
    above_the_saved();
}
