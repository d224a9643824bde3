//! The premises of `zk_conclusions` are met where much has happened: by clients that have read, watched, lost a connection, written and
//! expired, and by a history in which one session holds a lock after another. So are those of `theory_local`, by a schedule whose server
//! departs from the model. So a premise that were hard to meet would be seen here.
//! The functions have empty bodies: their contracts are the laws.
#![tactic(auto)]

ghost use Rattle.std.specs.Prelude.{◌≡◌, pos, [], ◌∷◌, Some};
ghost use Rattle.zk_cache.specs.Kept.{Full, good};
ghost use Rattle.zk_nodes.specs.History.{IsHistory, tree_at};
ghost use Rattle.theory_messages.specs.Example.{at_a, fields_at_five};
ghost use Rattle.theory_serving.specs.Whole_example.{three_changes, until_expired, until_lost, until_written};
ghost use Rattle.zk_conclusions.specs.Holders.{IsHolder, NamesRise};
ghost use Rattle.zk_conclusions.specs.Seen.{IsServedAt, IsServedFrom, tree_seen};
ghost use Rattle.zk_conclusions.specs.Snapshots.{IsOfOneTree};
ghost use Rattle.zk_conclusions.specs.Standings.{IsStanding, ListsAll, NumbersRise};
ghost use Rattle.zk_conclusions.specs.Tags.{AreMadeBy};
ghost use Rattle.theory_witnesses.specs.Met.{shown_after};
ghost use Rattle.theory_witnesses.specs.Rising.{first_name, in_line, line, numbered, second_name, two_in_line};
ghost use Rattle.std.specs.Prelude.{negsuc};
ghost use Rattle.zk_nodes.specs.History.{History};
ghost use Rattle.zk_turns.specs.Turns.{WatchesRefused};
ghost use Rattle.zk_turns.specs.View.{view_at};
ghost use Rattle.zk_turns.specs.Past.{kept_data, last_of, Dropped};
ghost use Rattle.zk_turns.specs.Taken.{past_of};
ghost use Rattle.zk_turns.specs.Meaning.{Among};
ghost use Rattle.zk_cache.specs.declared.held.Mark.TheVariants.{Good};
ghost use Rattle.zk_turns.specs.Rule.{Stands};
ghost use Rattle.zk_laws.specs.Served.{Served};
ghost use Rattle.theory_messages.specs.Example.{two_changes};
ghost use Rattle.theory_messages.specs.Meeting_example.{new_client};
ghost use Rattle.theory_local.specs.LocalSteps.{IsOf};
ghost use Rattle.theory_local.specs.LocalServed.{items_at, IsServingAt};
ghost use Rattle.theory_witnesses.specs.Departure_example.{only_a, shown_apart, until_config, until_refused};

/// The client of `whole_schedule` is served from the history (`IsServedFrom`): where its connection is lost and its answer is good
/// (`lost`, `kept`), after a second connection and a write that was answered (`written`, `last`), and where its session has expired.
pub fn clients_are_served()
    ensures lost { IsServedFrom three_changes (shown_after until_lost) }
    ensures kept { (shown_after until_lost).cache.nodes at_a ≡ good (Full (Some (104 ∷ 105 ∷ [])) fields_at_five) }
    ensures written { IsServedFrom three_changes (shown_after until_written) }
    ensures last { (shown_after until_written).saved.last ≡ pos 7 }
    ensures expired { IsServedFrom three_changes (shown_after until_expired) }
{}

/// Names rise with creation (`NamesRise`) where two sessions wait in line: one holds by the token 5, and after it the other by 6.
pub fn names_rise_in_line()
    ensures history { IsHistory two_in_line }
    ensures rise { NamesRise two_in_line line in_line }
    ensures first { IsHolder (tree_at two_in_line 6) line in_line (first_name ∷ line) (pos 7) (pos 5) }
    ensures second { IsHolder (tree_at two_in_line 9) line in_line (second_name ∷ line) (pos 8) (pos 6) }
{}

/// Numbers rise with creation there too (`NumbersRise`), by the ten digits at the end of both names: one session stands first by the token
/// 5, and after it the other by 6, which a listing at 9 shows (`listed`). Each node that the other made with its tag was made by the zxid
/// of the answer to its last create (`AreMadeBy`).
pub fn numbers_rise_in_line()
    ensures rise { NumbersRise two_in_line line numbered }
    ensures first { IsStanding (tree_at two_in_line 6) line numbered (first_name ∷ line) (pos 7) (pos 5) }
    ensures second { IsStanding (tree_at two_in_line 9) line numbered (second_name ∷ line) (pos 8) (pos 6) }
    ensures listed { ListsAll (tree_at two_in_line 9) line (second_name ∷ []) }
    ensures made { AreMadeBy two_in_line line in_line (pos 8) 6 }
{}

/// The client of `departing_schedule` is served from the history at /a (`served`), though no history explains each of its reads by servers
/// of the model (`departs` there). So what it shows of /a is of one tree (`tree`).
pub fn departing_client_is_served()
    ensures served { IsServedAt (IsOf only_a) two_changes shown_apart }
    ensures tree { IsOfOneTree (tree_seen two_changes shown_apart) shown_apart.cache (at_a ∷ []) [] }
{}

/// A schedule whose server departs from the model at another path meets the premise at /a, and so its client has what `local_headline`
/// promises (`history`, `serving`, `stands`): a read of /zookeeper/config is answered with the version -1, and later a part of
/// setWatches with -112, which ends the connection (`refused`). What was read of /a is still good (`kept`), at the last seen zxid
/// (`last`). Under no history does the read meet the premise of `headline` (`departs`).
pub fn departing_schedule()
    ensures history { IsHistory two_changes }
    ensures serving { IsServingAt (IsOf only_a) two_changes new_client until_refused }
    ensures stands { Stands new_client (items_at until_refused) (view_at new_client (past_of new_client (items_at until_refused))) }
    ensures kept { kept_data at_a (past_of new_client (items_at until_refused))
        ≡ Some (record { answer = Full (Some (104 ∷ 105 ∷ [])) fields_at_five; mark = Good }) }
    ensures last { last_of new_client (past_of new_client (items_at until_refused)) ≡ pos 5 }
    ensures refused { Among (Dropped (WatchesRefused (negsuc 111))) (past_of new_client (items_at until_refused)) }
    ensures departs { (h : History) → IsHistory h → Served h new_client (items_at until_config) → ⊥ }
{}
