//! Laws of markets and their snapshots, of any size.
//!
//! Each function has an empty body: its clauses state the laws.
ghost use Rattle.std.specs.Prelude.{◌≡◌, ℕ, ◌+◌, ◌≤◌, ◌<◌, ◌^◌, ◌⊎◌, ◌↔◌, Bool, List, ◌++◌, length, map, take};
ghost use Rattle.itch_codec.specs.declared.message.Message.{Message};
ghost use Rattle.itch_codec.specs.Widths.{IsSequence};
ghost use Rattle.itch_codec.specs.Fields.{AreBytes};
ghost use Rattle.itch_codec.specs.Messages.{message_of};
ghost use Rattle.itch_frame.specs.Blocks.{Day};
ghost use Rattle.itch_market.specs.Stops.{Stops};
ghost use Rattle.itch_market.specs.declared.stop.Stop.{Stop};
ghost use Rattle.itch_market.specs.declared.stop.Stop.TheVariants.{End};
ghost use Rattle.itch_market.specs.Content.{Content, empty, laid};
ghost use Rattle.itch_market.specs.Effects.{effect};
ghost use Rattle.itch_market.specs.GoodMarkets.{IsGood};
ghost use Rattle.itch_market.specs.Runs.{AreMessages, after, run, Follows, FollowsFrom};
ghost use Rattle.itch_market.specs.SameMarkets.{Same};
ghost use Rattle.itch_market.specs.Partial.{kept, only};
ghost use Rattle.itch_snapshot.specs.Covers.{Covers, HaveSameParts};
ghost use Rattle.itch_snapshot.specs.Bytes.{canon, closing};
ghost use Rattle.itch_snapshot.specs.Snapshot.{snap};
ghost use Rattle.itch_snapshot.specs.Files.{IsSnapshotFile, IsFaultOf, IsMarketOf};
ghost use Rattle.itch_snapshot.specs.declared.fault.SnapFault.{SnapFault};

/// The fields of a snapshot list's messages fit, and the messages follow the order rules and result in the same market, with its orders in
/// snapshot order.
#[tactic(auto, using(crate::proofs::LawRules::replay_laws))]
pub fn snapshot_replays()
    ensures messages { (m : Content) → IsGood m → AreMessages (snap m) }
    ensures follows { (m : Content) → IsGood m → Follows (snap m) }
    ensures leaves { (m : Content) → IsGood m → run (snap m) ≡ laid m }
    ensures same { (m : Content) → IsGood m → Same (run (snap m)) m }
{}

/// A snapshot can replace the messages before it: the rest follow the order rules after it, and result in the same market as all the
/// messages.
#[tactic(auto, using(crate::proofs::LawRules::late_laws))]
pub fn late_start()
    ensures follows { (xs ys : List Message) → AreMessages (xs ++ ys) → Follows (xs ++ ys) → FollowsFrom (run (snap (run xs))) ys }
    ensures same { (xs ys : List Message) → AreMessages (xs ++ ys) → Follows (xs ++ ys) → Same (after (run (snap (run xs))) ys) (run (xs ++ ys)) }
{}

/// Two markets are the same if and only if their snapshot lists are equal, and if and only if they are equal with their orders in snapshot
/// order.
#[tactic(auto, using(crate::proofs::LawRules::one_laws))]
pub fn one_snapshot()
    ensures list { (m n : Content) → IsGood m → IsGood n → Same m n ↔ (snap m ≡ snap n) }
    ensures laid { (m n : Content) → IsGood m → IsGood n → Same m n ↔ (laid m ≡ laid n) }
    ensures laid_list { (m : Content) → IsGood m → snap (laid m) ≡ snap m }
{}

/// A message makes the snapshot list longer by at most one. So the list of a market is no longer than the messages that result in it, and the
/// market after a replay, or of a snapshot file, has a list that is short enough to be written.
#[tactic(auto, using(crate::proofs::LawRules::size_laws))]
pub fn short_snapshot()
    ensures step { (m : Content) → (x : Message) → IsGood m → length (snap (effect m x)) ≤ length (snap m) + 1 }
    ensures total { (ms : List Message) → AreMessages ms → Follows ms → length (snap (run ms)) ≤ length ms }
    ensures replayed { (bytes : List ℕ) → (ps : List (List ℕ)) → (rest : List ℕ) → (k : ℕ) → (why : Stop) → AreBytes bytes → Day bytes ps rest → Stops empty bytes k why
        → length (snap (run (map message_of (take k ps)))) < 10 ^ 19 }
    ensures read { (bytes : List ℕ) → (done : Content × ℕ) → IsMarketOf bytes done → length (snap done.0) < 10 ^ 19 }
{}

/// Two markets are the same if and only if their canonical bytes are equal, and the snapshot of a replayed snapshot has the same bytes.
#[tactic(auto, using(crate::proofs::LawRules::canon_laws))]
pub fn canonical()
    ensures bytes { (m n : Content) → IsGood m → IsGood n → Same m n ↔ (canon m ≡ canon n) }
    ensures again { (m : Content) → IsGood m → canon (run (snap m)) ≡ canon m }
    ensures laid { (m : Content) → IsGood m → canon (laid m) ≡ canon m }
{}

/// The bytes of a complete snapshot, with End of Snapshot, belong to only one market and one number.
#[tactic(auto, using(crate::proofs::LawRules::closed_laws))]
pub fn whole_snapshot()
    ensures market { (m n : Content) → (j k : ℕ) → IsGood m → IsGood n → IsSequence j → IsSequence k → canon m ++ closing j ≡ canon n ++ closing k → Same m n }
    ensures number { (m n : Content) → (j k : ℕ) → IsGood m → IsGood n → IsSequence j → IsSequence k → canon m ++ closing j ≡ canon n ++ closing k → j ≡ k }
{}

/// The snapshot list of a market restricted to some locates is the market's list without the messages that are skipped. For sets that
/// together contain all locates, two markets are the same if and only if, restricted to each of the sets, they have the same canonical bytes.
/// So the work on a feed can be divided by locates, and the snapshots of the parts together contain all information of the complete one.
pub fn parts_of_a_market()
    ensures list { (wanted : ℕ → Bool) → (m : Content) → snap (only wanted m) ≡ kept wanted (snap m) }
    ensures determine { (sets : List (ℕ → Bool)) → (m n : Content) → Covers sets → IsGood m → IsGood n → Same m n ↔ HaveSameParts sets m n }
{}

/// Two lists of messages that follow the order rules result in the same market if and only if the canonical bytes of their markets are equal.
#[tactic(auto, using(crate::proofs::LawRules::headline_laws))]
pub fn headline()
    ensures { (ms ns : List Message) → AreMessages ms → AreMessages ns → Follows ms → Follows ns → Same (run ms) (run ns) ↔ (canon (run ms) ≡ canon (run ns)) }
{}

/// Two day files whose replays reach the end result in the same market if and only if the canonical bytes of their markets are equal.
pub fn two_day_files()
    ensures { (b c : List ℕ) → (ps qs : List (List ℕ)) → (r s : List ℕ) → (j k : ℕ) → AreBytes b → AreBytes c → Day b ps r → Day c qs s
        → Stops empty b j End → Stops empty c k End
        → Same (run (map message_of ps)) (run (map message_of qs)) ↔ (canon (run (map message_of ps)) ≡ canon (run (map message_of qs))) }
{}

/// A day file whose replay reaches the end can be cut at any message. From the snapshot of the messages before the cut on, the messages after
/// it follow the order rules, and result in the same market as the complete file; a replay of the rest of the file reaches the end.
pub fn cut_day_file()
    ensures follows { (b : List ℕ) → (ps qs : List (List ℕ)) → (rest : List ℕ) → (k : ℕ) → AreBytes b → Day b (ps ++ qs) rest → Stops empty b k End
        → FollowsFrom (run (snap (run (map message_of ps)))) (map message_of qs) }
    ensures same { (b : List ℕ) → (ps qs : List (List ℕ)) → (rest : List ℕ) → (k : ℕ) → AreBytes b → Day b (ps ++ qs) rest → Stops empty b k End
        → Same (after (run (snap (run (map message_of ps)))) (map message_of qs)) (run (map message_of (ps ++ qs))) }
    ensures stops { (b : List ℕ) → (ps qs : List (List ℕ)) → (rest : List ℕ) → (k : ℕ) → AreBytes b → Day b (ps ++ qs) rest → Stops empty b k End
        → (c : List ℕ) → Day c qs rest → Stops (run (snap (run (map message_of ps)))) c (length qs) End }
{}

/// Writing a market gives a snapshot file with its snapshot list. It is read only as that market, with its orders in snapshot order, and the
/// same number; written again, all bytes are equal.
pub fn written_snapshot()
    ensures file { (m : Content) → (next : ℕ) → IsGood m → IsSequence next → length (snap m) < 10 ^ 19 → IsSnapshotFile (canon m ++ closing next) (snap m) next }
    ensures market { (m : Content) → (next : ℕ) → IsGood m → IsSequence next → length (snap m) < 10 ^ 19 → IsMarketOf (canon m ++ closing next) (laid m, next) }
    ensures once { (m : Content) → (next : ℕ) → (done : Content × ℕ) → IsGood m → IsSequence next → length (snap m) < 10 ^ 19
        → IsMarketOf (canon m ++ closing next) done → done ≡ (laid m, next) }
    ensures again { (m : Content) → (next : ℕ) → (done : Content × ℕ) → IsGood m → IsSequence next → length (snap m) < 10 ^ 19
        → IsMarketOf (canon m ++ closing next) done → canon done.0 ++ closing done.1 ≡ canon m ++ closing next }
{}

/// A snapshot file with its messages in any order, read and written again, is read as the same market and number.
pub fn rewritten_snapshot()
    ensures { (bytes : List ℕ) → (done : Content × ℕ) → IsMarketOf bytes done → IsMarketOf (canon done.0 ++ closing done.1) done }
{}

/// A file with any bytes is either a snapshot file, with exactly one list of messages and one number, or has exactly one fault. A snapshot
/// file of bytes is read as the market after its messages.
pub fn one_file()
    ensures messages { (bytes : List ℕ) → (ms ns : List Message) → (j k : ℕ) → IsSnapshotFile bytes ms j → IsSnapshotFile bytes ns k → ms ≡ ns }
    ensures number { (bytes : List ℕ) → (ms ns : List Message) → (j k : ℕ) → IsSnapshotFile bytes ms j → IsSnapshotFile bytes ns k → j ≡ k }
    ensures market { (bytes : List ℕ) → (ms : List Message) → (next : ℕ) → AreBytes bytes → IsSnapshotFile bytes ms next → IsMarketOf bytes (laid (run ms), next) }
    ensures fault { (bytes : List ℕ) → (f g : SnapFault) → IsFaultOf bytes f → IsFaultOf bytes g → f ≡ g }
    ensures never_both { (bytes : List ℕ) → (ms : List Message) → (next : ℕ) → (fault : SnapFault) → IsSnapshotFile bytes ms next → ¬ IsFaultOf bytes fault }
    ensures some { (bytes : List ℕ) → ((ms : List Message) × (next : ℕ) × IsSnapshotFile bytes ms next) ⊎ ((fault : SnapFault) × IsFaultOf bytes fault) }
{}
