//! Laws of all good markets and messages, of any size.
//!
//! Each function has an empty body: its clauses state the laws.
ghost use Rattle.std.specs.Prelude.{◌≡◌, ℕ, ◌≤◌, ◌<◌, ◌^◌, Bool, List, None, map, length, take};
ghost use Rattle.std.specs.List.{AllByRecursion};
ghost use Rattle.itch_codec.specs.declared.message.Message.{Message};
ghost use Rattle.itch_codec.specs.Fields.{AreBytes};
ghost use Rattle.itch_codec.specs.Messages.{fault, message_of};
ghost use Rattle.itch_frame.specs.Blocks.{Ends, Day};
ghost use Rattle.itch_market.specs.Content.{Content, empty, laid};
ghost use Rattle.itch_market.specs.Reasons.{reason};
ghost use Rattle.itch_market.specs.Effects.{effect, takes_memory};
ghost use Rattle.itch_codec.specs.Widths.{IsMessage};
ghost use Rattle.itch_market.specs.GoodMarkets.{IsGood};
ghost use Rattle.itch_market.specs.Runs.{AreMessages, FollowsFrom, Follows, after, run};
ghost use Rattle.itch_market.specs.Partial.{kept, only};
ghost use Rattle.itch_market.specs.Plain.{plain};
ghost use Rattle.itch_market.specs.SameMarkets.{Same};
ghost use Rattle.itch_market.specs.Stops.{Stops};
ghost use Rattle.itch_market.specs.declared.stop.Stop.{Stop};
ghost use Rattle.itch_market.specs.declared.stop.Stop.TheVariants.{End};

/// Sorting a market's orders into snapshot order does not change which messages it refuses, nor the reasons. After any other message, the
/// orders in snapshot order are the same as without the sorting.
#[tactic(auto, using(crate::proofs::LawRules::laid_laws))]
pub fn laid_acts_alike()
    ensures reason { (m : Content) → (x : Message) → IsGood m → reason (laid m) x ≡ reason m x }
    ensures effect { (m : Content) → (x : Message) → IsGood m → laid (effect (laid m) x) ≡ laid (effect m x) }
    ensures memory { (m : Content) → (x : Message) → takes_memory (laid m) x ≡ takes_memory m x }
    ensures twice { (m : Content) → laid (laid m) ≡ laid m }
{}

/// The market before any message is good, and every message that is not refused changes a good market into a good one.
#[tactic(auto, using(crate::proofs::LawRules::good_laws))]
pub fn good_stays_good()
    ensures empty { IsGood empty }
    ensures laid { (m : Content) → IsGood m → IsGood (laid m) }
    ensures effect { (m : Content) → (x : Message) → IsGood m → IsMessage x → reason m x ≡ None → IsGood (effect m x) }
    ensures after { (m : Content) → (ms : List Message) → IsGood m → AllByRecursion IsMessage ms → FollowsFrom m ms → IsGood (after m ms) }
{}

/// Markets that are the same refuse the same messages for the same reasons, and are the same after each message that they take.
#[tactic(auto, using(crate::proofs::LawRules::same_laws))]
pub fn same_stay_same()
    ensures reason { (m n : Content) → (x : Message) → IsGood m → IsGood n → Same m n → reason m x ≡ reason n x }
    ensures effect { (m n : Content) → (x : Message) → IsGood m → IsGood n → IsMessage x → reason m x ≡ None → Same m n → Same (effect m x) (effect n x) }
{}

/// The plainest message with the effect of another one: its fields fit, no rule refuses it unless it refuses the other, and it changes a good
/// market exactly as the other does. So if two messages have the same plainest message, each in its own market, they change markets that are
/// the same in the same way, and the resulting markets are the same.
#[tactic(auto, using(crate::proofs::LawRules::plain_laws))]
pub fn plain_acts_alike()
    ensures reason { (m : Content) → (x : Message) → reason m x ≡ None → reason m (plain m x) ≡ None }
    ensures fits { (m : Content) → (x : Message) → IsMessage x → IsMessage (plain m x) }
    ensures effect { (m : Content) → (x : Message) → IsGood m → effect m (plain m x) ≡ effect m x }
    ensures alike { (m n : Content) → (x y : Message) → IsGood m → IsGood n → Same m n → IsMessage x → reason m x ≡ None → plain m x ≡ plain n y
        → Same (effect m x) (effect n y) }
{}

/// If messages follow the order rules, those that are not skipped follow them too, and result in the market of all messages, restricted to
/// the wanted locates.
#[tactic(auto, using(crate::proofs::LawRules::kept_laws))]
pub fn kept_run()
    ensures follows { (wanted : ℕ → Bool) → (ms : List Message) → AllByRecursion IsMessage ms → Follows ms → Follows (kept wanted ms) }
    ensures leaves { (wanted : ℕ → Bool) → (ms : List Message) → AllByRecursion IsMessage ms → Follows ms → run (kept wanted ms) ≡ only wanted (run ms) }
{}

/// Every day file stops a replay at exactly one place, for exactly one reason.
#[tactic(auto, using(crate::proofs::OneStop::stop_laws))]
pub fn one_stop()
    ensures place { (m : Content) → (bytes : List ℕ) → (k j : ℕ) → (s t : Stop) → Stops m bytes k s → Stops m bytes j t → k ≡ j }
    ensures reason { (m : Content) → (bytes : List ℕ) → (k j : ℕ) → (s t : Stop) → Stops m bytes k s → Stops m bytes j t → s ≡ t }
    ensures somewhere { (m : Content) → (bytes : List ℕ) → (k : ℕ) × (s : Stop) × Stops m bytes k s }
{}

/// The messages before the place where a replay stops follow the order rules, and their fields fit.
/// There are at most 10^19 - 1 such messages.
pub fn stopped_files()
    ensures within { (m : Content) → (bytes : List ℕ) → (ps : List (List ℕ)) → (rest : List ℕ) → (k : ℕ) → (why : Stop) → Day bytes ps rest → Stops m bytes k why → k ≤ length ps }
    ensures few { (m : Content) → (bytes : List ℕ) → (ps : List (List ℕ)) → (rest : List ℕ) → (k : ℕ) → (why : Stop) → Day bytes ps rest → Stops m bytes k why → k < 10 ^ 19 }
    ensures messages { (m : Content) → (bytes : List ℕ) → (ps : List (List ℕ)) → (rest : List ℕ) → (k : ℕ) → (why : Stop) → Day bytes ps rest → Stops m bytes k why
        → AreBytes bytes → AreMessages (map message_of (take k ps)) }
    ensures follows { (m : Content) → (bytes : List ℕ) → (ps : List (List ℕ)) → (rest : List ℕ) → (k : ℕ) → (why : Stop) → Day bytes ps rest → Stops m bytes k why
        → FollowsFrom m (map message_of (take k ps)) }
{}

/// A replay reaches the end of a day file if and only if the file has an end, none of its payloads has a fault, its messages follow the order
/// rules, and there are at most 10^19 - 1 messages. Then it has counted all of them.
pub fn day_files()
    ensures count { (m : Content) → (bytes : List ℕ) → (ps : List (List ℕ)) → (rest : List ℕ) → (k : ℕ) → Day bytes ps rest → Stops m bytes k End → k ≡ length ps }
    ensures few { (m : Content) → (bytes : List ℕ) → (ps : List (List ℕ)) → (rest : List ℕ) → (k : ℕ) → Day bytes ps rest → Stops m bytes k End → length ps < 10 ^ 19 }
    ensures ends { (m : Content) → (bytes : List ℕ) → (ps : List (List ℕ)) → (rest : List ℕ) → (k : ℕ) → Day bytes ps rest → Stops m bytes k End → Ends rest }
    ensures clean { (m : Content) → (bytes : List ℕ) → (ps : List (List ℕ)) → (rest : List ℕ) → (k : ℕ) → Day bytes ps rest → Stops m bytes k End
        → AllByRecursion (λ payload. fault payload ≡ None) ps }
    ensures messages { (m : Content) → (bytes : List ℕ) → (ps : List (List ℕ)) → (rest : List ℕ) → (k : ℕ) → Day bytes ps rest → Stops m bytes k End
        → AreBytes bytes → AreMessages (map message_of ps) }
    ensures follows { (m : Content) → (bytes : List ℕ) → (ps : List (List ℕ)) → (rest : List ℕ) → (k : ℕ) → Day bytes ps rest → Stops m bytes k End
        → FollowsFrom m (map message_of ps) }
    ensures stops { (m : Content) → (bytes : List ℕ) → (ps : List (List ℕ)) → (rest : List ℕ) → Day bytes ps rest → Ends rest → length ps < 10 ^ 19
        → AllByRecursion (λ payload. fault payload ≡ None) ps → FollowsFrom m (map message_of ps) → Stops m bytes (length ps) End }
{}
