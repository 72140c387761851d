//! Laws of reading with a set of locates, as `join` reads, and of showing and cutting.
//!
//! The functions do nothing: their clauses are the laws.
ghost use Rattle.std.specs.Prelude.{◌≡◌, ◌<◌, ◌≤◌, ◌+◌, ◌++◌, ℕ, Bool, true, false, List, None, Some, IsSome, IsSomeAnd, IfSome, drop, length, map, take};
ghost use Rattle.std.specs.List.{AllByRecursion, list_all, list_any};
ghost use Rattle.itch_codec.specs.Fields.{AreBytes};
ghost use Rattle.itch_codec.specs.Messages.{message_of};
ghost use Rattle.itch_codec.specs.declared.message.Message.{Message};
ghost use Rattle.itch_book.specs.Orders.{get};
ghost use Rattle.itch_market.specs.Content.{Content, empty};
ghost use Rattle.itch_market.specs.Effects.{effect};
ghost use Rattle.itch_market.specs.GoodMarkets.{IsGood};
ghost use Rattle.itch_market.specs.Partial.{only as cut};
ghost use Rattle.itch_market.specs.Reasons.{reason};
ghost use Rattle.itch_market.specs.Replays.{NoCause};
ghost use Rattle.itch_market.specs.Runs.{AreMessages, Follows, run};
ghost use Rattle.itch_market.specs.SameMarkets.{Same};
ghost use Rattle.itch_market.specs.Wanted.{Wanted, has};
ghost use Rattle.itch_snapshot.specs.TakenMessages.{closing_number};
ghost use Rattle.itch_join.specs.Rules.{Rules, market_rules, rules_of, bad, run as run_by};
ghost use Rattle.itch_snapshot.specs.AsRead.{as_read};
ghost use Rattle.itch_commands.specs.Choices.{Chosen, everything, of_all, chosen_past, are_found_in, chosen_lines, lines_of};
ghost use Rattle.itch_commands.specs.Cuts.{kept_of, of_locates};
ghost use Rattle.itch_commands.specs.FirstDifferences.{IsPlaceIn, IsSameIn};
ghost use Rattle.itch_commands.specs.Lookup.{lookup, found_at, has_name, is_of_one, stock_past};
ghost use Rattle.itch_commands.specs.Starts.{before_range, before_time, first};
ghost use Rattle.itch_commands.specs.OrdersBehind.{behind, changes_order, shares_of};
ghost use Rattle.itch_commands.specs.Joining.{from_number, joined_market, joined_next};
ghost use Rattle.itch_commands.specs.declared.form.ShowForm.{ShowForm};
ghost use Rattle.itch_commands.specs.declared.form.ShowForm.TheVariants.{Text};
ghost use Rattle.itch_day.specs.declared.limit.Limit.{Limit};

/// Under the rules of markets, a payload as it is read with a set acts as the payload itself does under the rules of the set: it is refused
/// for the same cause, has the same effect, needs memory if and only if that does, and ends a snapshot if and only if that does. So a feed
/// has the same first bad message, and payloads leave the same market.
pub fn reading_for_a_set()
    ensures refused { (wanted : ℕ → Bool) → (m : Content) → (p : List ℕ) → Rules.refused market_rules m (as_read wanted p) ≡ Rules.refused (rules_of wanted) m p }
    ensures effect { (wanted : ℕ → Bool) → (m : Content) → (p : List ℕ) → Rules.effect market_rules m (as_read wanted p) ≡ Rules.effect (rules_of wanted) m p }
    ensures memory { (wanted : ℕ → Bool) → (m : Content) → (p : List ℕ) → Rules.takes_memory market_rules m (as_read wanted p) ≡ Rules.takes_memory (rules_of wanted) m p }
    ensures number { (wanted : ℕ → Bool) → (p : List ℕ) → closing_number (as_read wanted p) ≡ closing_number p }
    ensures first_bad { (wanted : ℕ → Bool) → (feed : List (List ℕ)) → bad market_rules (map (as_read wanted) feed) ≡ bad (rules_of wanted) feed }
    ensures leaves { (wanted : ℕ → Bool) → (ps : List (List ℕ)) → run (map message_of (map (as_read wanted) ps)) ≡ run_by (rules_of wanted) ps }
{}

/// If none of a file's payloads is faulty or refused, none is as it is read with a set, and as they are read they leave the market after
/// all of them, restricted to the set. The same holds for a feed after a snapshot: from the snapshot's market, restricted to the set, it
/// leaves the market after the whole feed, restricted to the set.
pub fn restricted_reading()
    ensures follows { (wanted : ℕ → Bool) → (ps : List (List ℕ)) → AllByRecursion AreBytes ps → NoCause empty ps → NoCause empty (map (as_read wanted) ps) }
    ensures leaves { (wanted : ℕ → Bool) → (ps : List (List ℕ)) → AllByRecursion AreBytes ps → NoCause empty ps
        → run (map message_of (map (as_read wanted) ps)) ≡ cut wanted (run (map message_of ps)) }
    ensures feed_follows { (wanted : ℕ → Bool) → (m n : Content) → (before number : ℕ) → (ps : List (List ℕ)) → IsGood m → IsGood n → Same n (cut wanted m) → AllByRecursion AreBytes (from_number before number ps)
        → NoCause m (from_number before number ps) → NoCause n (from_number before number (map (as_read wanted) ps)) }
    ensures joined { (wanted : ℕ → Bool) → (m n : Content) → (before number : ℕ) → (ps : List (List ℕ)) → IsGood m → IsGood n → Same n (cut wanted m) → AllByRecursion AreBytes (from_number before number ps)
        → NoCause m (from_number before number ps) → Same (joined_market before (n, number) (map (as_read wanted) ps)) (cut wanted (joined_market before (m, number) ps)) }
{}

/// A feed after a snapshot of the day's first messages leaves the market of the whole day, with its number, whichever message of the day
/// the feed begins with. It may begin with the first message that the snapshot lacks, or before.
pub fn joined_day()
    ensures market { (m : Content) → (before : ℕ) → (ps qs : List (List ℕ)) → IsGood m → Same m (run (map message_of ps)) → before ≤ length ps → AreMessages (map message_of (ps ++ qs))
        → Follows (map message_of (ps ++ qs)) → Same (joined_market before (m, length ps + 1) (drop before (ps ++ qs))) (run (map message_of (ps ++ qs))) }
    ensures number { (m : Content) → (before : ℕ) → (ps qs : List (List ℕ)) → before ≤ length ps → joined_next before (m, length ps + 1) (drop before (ps ++ qs)) ≡ length (ps ++ qs) + 1 }
{}

/// Without filters each message is shown, as a line. If no range is still to begin, no order is followed and no stock is searched for, the
/// choice of messages stays the same.
pub fn shown_lines()
    ensures whole { (number : ℕ) → (messages : List Message) → chosen_lines Text everything number messages ≡ lines_of number messages }
    ensures constant { (chosen : Chosen) → (messages : List Message) → Chosen.start chosen ≡ first → Chosen.reference chosen ≡ None → Chosen.stocks chosen ≡ None
        → chosen_past chosen messages ≡ chosen }
{}

/// The lines of a range are those after the lines of the messages before it. For a range from a number on, those are the messages with
/// lower numbers; for a range from a time on, those before the first at this time or later, which are the part until this time.
pub fn shown_ranges()
    ensures lines { (form : ShowForm) → (chosen : Chosen) → (number : ℕ) → (messages : List Message)
        → chosen_lines form (of_all chosen) number messages ≡ chosen_lines form (of_all chosen) number (before_range (Chosen.start chosen) messages) ++ chosen_lines form chosen number messages }
    ensures number { (before : ℕ) → (messages : List Message) → before_range (record { before = before; since = None }) messages ≡ take before messages }
    ensures time { (since : ℕ) → (messages : List Message) → before_range (record { before = 0; since = Some since }) messages ≡ before_time since messages }
{}

/// If the messages of a day follow the order rules, those that `cut` keeps of the locates of a set follow them too, and leave the market
/// after all of them, restricted to the set.
pub fn cut_days()
    ensures follows { (set : Wanted) → (ps : List (List ℕ)) → AreMessages (map message_of ps) → Follows (map message_of ps)
        → Follows (map message_of (kept_of (of_locates set) ps)) }
    ensures leaves { (set : Wanted) → (ps : List (List ℕ)) → AreMessages (map message_of ps) → Follows (map message_of ps)
        → run (map message_of (kept_of (of_locates set) ps)) ≡ cut (has set) (run (map message_of ps)) }
{}

/// When stocks are searched for by their names, after any messages a locate has one of them exactly if its last Stock Directory message has
/// one of the names; and all have come exactly if each name is in a Stock Directory message.
pub fn stock_lookup()
    ensures located { (chosen : Chosen) → (names : List (List ℕ)) → (messages : List Message) → (locate : ℕ) → Chosen.stocks chosen ≡ Some (lookup names) → locate < 65536
        → found_at (Chosen.stocks (chosen_past chosen messages)) locate ≡ is_of_one names (stock_past locate messages None) }
    ensures known { (chosen : Chosen) → (names : List (List ℕ)) → (messages : List Message) → Chosen.stocks chosen ≡ Some (lookup names)
        → are_found_in chosen messages ≡ list_all (λ name. list_any (has_name name) messages) names }
{}

/// The markets of two day files, or of the same part of both, first differ after only one number of messages, or never.
pub fn one_first_difference()
    ensures place { (limit : Limit) → (one other : List ℕ) → (n k : ℕ) → IsPlaceIn limit one other n → IsPlaceIn limit one other k → n ≡ k }
    ensures nowhere { (limit : Limit) → (one other : List ℕ) → (n : ℕ) → IsPlaceIn limit one other n → IsSameIn limit one other → ⊥ }
{}

/// In a market, a message that changes an order and is not refused has an order behind it, with a stock, and no other message has one. The
/// rest of that order is the market's order after the message.
pub fn orders_behind()
    ensures there { (m : Content) → (x : Message) → IsGood m → reason m x ≡ None → changes_order x ≡ true → IsSomeAnd (behind m x) (λ b. IsSome b.stock) }
    ensures none { (m : Content) → (x : Message) → changes_order x ≡ false → behind m x ≡ None }
    ensures left { (m : Content) → (x : Message) → IsGood m → reason m x ≡ None → IfSome (behind m x) (λ b. b.left ≡ shares_of (get (Content.orders (effect m x)) b.order.reference)) }
{}
