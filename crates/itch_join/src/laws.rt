//! Laws of all joiners, for any deliveries.
//!
//! Each function has an empty body: its clauses state the laws.
ghost use Rattle.std.specs.Prelude.{◌≡◌, ℕ, Bool, List, ◌+◌, ◌<◌, ◌≤◌, ◌^◌, true, Some, None, length, take};
ghost use Rattle.std.specs.List.{AllByRecursion};
ghost use Rattle.std.specs.FinMap as map;
ghost use Rattle.itch_codec.specs.Fields.{AreBytes};
ghost use Rattle.itch_codec.specs.declared.message.Message.TheVariants as is;
ghost use Rattle.itch_codec.specs.Messages.{spelling};
ghost use Rattle.itch_market.specs.Content.{Content, laid};
ghost use Rattle.itch_market.specs.Partial.{only as cut};
ghost use Rattle.itch_snapshot.specs.TakenMessages.{closing_number};
ghost use Rattle.itch_join.specs.Positions.{Position};
ghost use Rattle.itch_join.specs.Rules.{Rules, AreLawful, IsLawfulFeed, market_rules, rules_of, run, bad};
ghost use Rattle.itch_join.specs.States.{State, Reading, unread};
ghost use Rattle.itch_join.specs.Steps.{SnapEnds, half_case};
ghost use Rattle.itch_join.specs.Deliveries.{Event, LeadsTo, History, IsOfFeed, settled};
ghost use Rattle.itch_join.specs.Premise.{half_after, half_of_snapshot};
ghost use Rattle.itch_join.specs.Stands.{Stands, LastIsRight, AreAllAccepted, IsAtEnd};

/// The rules of markets are lawful: markets that are the same refuse the same messages for the same causes, and remain the same. So are the
/// rules in which only some locates are wanted; if all locates are wanted, they are the rules of markets.
pub fn lawful_market()
    ensures market { AreLawful market_rules }
    ensures only { (wanted : ℕ → Bool) → AreLawful (rules_of wanted) }
    ensures all { (wanted : ℕ → Bool) → ((locate : ℕ) → wanted locate ≡ true) → rules_of wanted ≡ market_rules }
{}

/// The state of a joiner after every list of calls whose deliveries belong to one feed, for any losses, repetitions and reorderings, any
/// broken snapshots, and wherever memory ran out. With a set of locates, the run, the rules and the premise on snapshots are those of the
/// messages that are not skipped.
pub fn late_joiner()
    ensures market { (cap : ℕ) → (feed : List (List ℕ)) → (past : List Event) → (now : State) → AllByRecursion AreBytes feed
        → History market_rules cap feed past now → Stands market_rules cap feed past now }
    ensures only { (wanted : ℕ → Bool) → (cap : ℕ) → (feed : List (List ℕ)) → (past : List Event) → (now : State) → AllByRecursion AreBytes feed
        → History (rules_of wanted) cap feed past now → Stands (rules_of wanted) cap feed past now }
    ensures every_rules { (rules : Rules) → (cap : ℕ) → (feed : List (List ℕ)) → (past : List Event) → (now : State) → AreLawful rules → AllByRecursion AreBytes feed
        → History rules cap feed past now → Stands rules cap feed past now }
{}

/// At most `cap` messages are waiting, after every list of calls, for any deliveries.
pub fn at_most_cap_wait()
    ensures { (rules : Rules) → (cap : ℕ) → (past : List Event) → (now : State) → LeadsTo rules cap past now → map.len now.wait ≤ cap }
{}

/// The result of the last call: `Full` only if `cap` messages are waiting and the number is not the next, `Halted` for the feed's first bad
/// message if it is the next; and a halt that was returned remains.
pub fn last_result()
    ensures market { (cap : ℕ) → (feed : List (List ℕ)) → (past : List Event) → (now : State) → AllByRecursion AreBytes feed → length feed < 10 ^ 19
        → History market_rules cap feed past now → LastIsRight market_rules cap feed past now }
    ensures only { (wanted : ℕ → Bool) → (cap : ℕ) → (feed : List (List ℕ)) → (past : List Event) → (now : State) → AllByRecursion AreBytes feed → length feed < 10 ^ 19
        → History (rules_of wanted) cap feed past now → LastIsRight (rules_of wanted) cap feed past now }
    ensures every_rules { (rules : Rules) → (cap : ℕ) → (feed : List (List ℕ)) → (past : List Event) → (now : State) → AreLawful rules → AllByRecursion AreBytes feed → length feed < 10 ^ 19
        → History rules cap feed past now → LastIsRight rules cap feed past now }
{}

/// If none of a feed's first messages is refused, a joiner of the feed may start from their snapshot: its messages are taken, and its End of
/// Snapshot meets the premise of `late_joiner` on snapshots.
pub fn snapshot_of_feed()
    ensures ends { (feed : List (List ℕ)) → (k : ℕ) → AllByRecursion AreBytes feed → k < bad market_rules feed → k < 10 ^ 19
        → half_case market_rules (half_of_snapshot market_rules (run market_rules (take k feed))) (spelling (is.End (k + 1))) ≡ SnapEnds (k + 1) (laid (run market_rules (take k feed))) }
    ensures fits { (feed : List (List ℕ)) → (k : ℕ) → AllByRecursion AreBytes feed → k < bad market_rules feed → k < 10 ^ 19
        → IsOfFeed market_rules feed (SnapEnds (k + 1) (laid (run market_rules (take k feed)))) }
    ensures ends_only { (wanted : ℕ → Bool) → (feed : List (List ℕ)) → (k : ℕ) → AllByRecursion AreBytes feed → k < bad (rules_of wanted) feed → k < 10 ^ 19
        → half_case (rules_of wanted) (half_of_snapshot (rules_of wanted) (run (rules_of wanted) (take k feed))) (spelling (is.End (k + 1))) ≡ SnapEnds (k + 1) (laid (run (rules_of wanted) (take k feed))) }
    ensures fits_only { (wanted : ℕ → Bool) → (feed : List (List ℕ)) → (k : ℕ) → AllByRecursion AreBytes feed → k < bad (rules_of wanted) feed → k < 10 ^ 19
        → IsOfFeed (rules_of wanted) feed (SnapEnds (k + 1) (laid (run (rules_of wanted) (take k feed)))) }
{}

/// If no message of the feed is refused, a joiner that has joined, that has accepted every message from the snapshot's number on, in any
/// order, and that did not run out of memory, has the market of the complete feed.
pub fn whole_feed()
    ensures market { (cap : ℕ) → (feed : List (List ℕ)) → (past : List Event) → (now : State) → (j : Position) → AllByRecursion AreBytes feed → IsLawfulFeed market_rules feed
        → History market_rules cap feed past now → now.joined ≡ Some j → settled past ≡ true → AreAllAccepted market_rules feed past → IsAtEnd market_rules feed now j }
    ensures only { (wanted : ℕ → Bool) → (cap : ℕ) → (feed : List (List ℕ)) → (past : List Event) → (now : State) → (j : Position) → AllByRecursion AreBytes feed → IsLawfulFeed (rules_of wanted) feed
        → History (rules_of wanted) cap feed past now → now.joined ≡ Some j → settled past ≡ true → AreAllAccepted (rules_of wanted) feed past → IsAtEnd (rules_of wanted) feed now j }
{}

/// If none of a feed's first k messages is refused, the rules of a set of locates do not refuse any of them either, and result in the market
/// of all of them, restricted to the set.
pub fn restricted_feed()
    ensures follows { (wanted : ℕ → Bool) → (feed : List (List ℕ)) → (k : ℕ) → AllByRecursion AreBytes feed → k < bad market_rules feed → k < bad (rules_of wanted) feed }
    ensures leaves { (wanted : ℕ → Bool) → (feed : List (List ℕ)) → (k : ℕ) → AllByRecursion AreBytes feed → k < bad market_rules feed
        → run (rules_of wanted) (take k feed) ≡ cut wanted (run market_rules (take k feed)) }
{}

/// A joiner of a set of locates may also start from the snapshot of a feed's first messages, if none of them is refused: from the complete
/// one, of which it skips the messages at other locates, or from the snapshot of the market restricted to the set. Both result in that
/// market, restricted to the set, and the End of Snapshot meets the premise of `late_joiner` on snapshots.
pub fn snapshot_for_a_set()
    ensures whole { (wanted : ℕ → Bool) → (feed : List (List ℕ)) → (k : ℕ) → AllByRecursion AreBytes feed → k < bad market_rules feed → k < 10 ^ 19
        → half_case (rules_of wanted) (half_of_snapshot (rules_of wanted) (run market_rules (take k feed))) (spelling (is.End (k + 1)))
        ≡ SnapEnds (k + 1) (laid (cut wanted (run market_rules (take k feed)))) }
    ensures part { (wanted : ℕ → Bool) → (feed : List (List ℕ)) → (k : ℕ) → AllByRecursion AreBytes feed → k < bad market_rules feed → k < 10 ^ 19
        → half_case (rules_of wanted) (half_of_snapshot (rules_of wanted) (cut wanted (run market_rules (take k feed)))) (spelling (is.End (k + 1)))
        ≡ SnapEnds (k + 1) (laid (cut wanted (run market_rules (take k feed)))) }
    ensures fits { (wanted : ℕ → Bool) → (feed : List (List ℕ)) → (k : ℕ) → AllByRecursion AreBytes feed → k < bad market_rules feed → k < 10 ^ 19
        → IsOfFeed (rules_of wanted) feed (SnapEnds (k + 1) (laid (cut wanted (run market_rules (take k feed))))) }
{}

/// If a joiner of the complete market may start from a snapshot, a joiner of a set of locates may start from it too. The second joiner then
/// has that market, restricted to the set, and the End of Snapshot meets the premise of `late_joiner` on snapshots for it too.
pub fn any_snapshot_for_a_set()
    ensures leaves { (wanted : ℕ → Bool) → (ps : List (List ℕ)) → (taken : ℕ) → (m : Content) → AllByRecursion AreBytes ps → AllByRecursion (λ p. closing_number p ≡ None) ps
        → half_after market_rules unread ps ≡ Reading taken m → half_after (rules_of wanted) unread ps ≡ Reading taken (laid (cut wanted m)) }
    ensures fits { (wanted : ℕ → Bool) → (feed ps : List (List ℕ)) → (taken next : ℕ) → (m : Content) → AllByRecursion AreBytes feed → AllByRecursion AreBytes ps
        → AllByRecursion (λ p. closing_number p ≡ None) ps → half_after market_rules unread ps ≡ Reading taken m
        → IsOfFeed market_rules feed (SnapEnds next m) → IsOfFeed (rules_of wanted) feed (SnapEnds next (laid (cut wanted m))) }
{}
