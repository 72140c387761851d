//! The laws of a live server: of each client, of the feed and of the record.
//!
//! Each function here does nothing; its clauses are the laws. They hold for every sequence of calls. They do not say that a peer sends or
//! accepts anything, that a client is served before another one, or how long anything takes.
ghost use Rattle.std.specs.Prelude.{◌≡◌, ℕ, ◌+◌, ◌-◌, ◌*◌, ◌≤◌, List, ◌∷◌, ◌++◌, true, length, max, take, Some};
ghost use Rattle.std.specs.List.{AllByRecursion};
ghost use Rattle.itch_codec.specs.Fields.{AreBytes};
ghost use Rattle.itch_frame.specs.Blocks.{blocks};
ghost use Rattle.itch_market.specs.Content.{Content};
ghost use Rattle.itch_market.specs.Wanted.{Wanted, has};
ghost use Rattle.itch_join.specs.Rules.{rules_of, market_rules};
ghost use Rattle.itch_snapshot.specs.Snapshot.{snap};
ghost use Rattle.itch_soup.specs.declared.login.ServerConfig.{ServerConfig};
ghost use Rattle.itch_live.specs.SnapshotClients.{SnapshotClient, session_bytes, is_waiting, answered};
ghost use Rattle.itch_live.specs.declared.disconnect_cause.DisconnectCause.TheVariants as reason;
ghost use Rattle.itch_live.specs.Fairness.{HasRoom, MayBecome, IsCutOff};
ghost use Rattle.itch_join.specs.Positions.{Position};
ghost use Rattle.itch_live.specs.Slots.{client_at};
ghost use Rattle.itch_live.specs.Kept.{kept_bytes};
ghost use Rattle.itch_live.specs.Stories.{Happening, Becomes, Story, IsSentRight};
ghost use Rattle.itch_live.specs.Follows.{Following, HearsFeed};
ghost use Rattle.itch_live.specs.Identity.{Led, IsInSession};
ghost use Rattle.itch_live.specs.declared.news.News.{News};
ghost use Rattle.itch_soup.specs.declared.connection.SessionStage.TheVariants as stage;
ghost use Rattle.itch_live.specs.Feeds.{Did, IsJoining, Followed, StandsJoined};
ghost use Rattle.itch_live.specs.Records.{IsOneRecord, IsRecord};
ghost use Rattle.itch_live.specs.LiveServers.{LiveServer, Answers, Event, History, sent_at};
ghost use Rattle.itch_live.specs.Visits.{Visit, visit_at, IsVisit};
ghost use Rattle.itch_live.specs.FeedServers.{AreHonest, IsSentOfFeed, GoesOn};
ghost use Rattle.itch_live.specs.Players.{Player};
ghost use Rattle.itch_live.specs.Memory.{held_bytes, most_bytes, largest_limit, longest, most_messages, AreOfMarkets};
ghost use Rattle.itch_live.specs.Plays as plays;

use itch_frame::CountedWrite;

/// Whatever happens to a client, in any order, and however few bytes its socket accepts at a time: the bytes sent to it are empty, or a
/// prefix of the rejection of its login, or a prefix of its acceptance, heartbeats, exactly one snapshot of one market and the end of the
/// session. That snapshot was passed in after the login had arrived. No heartbeat is sent after the snapshot has begun.
#[tactic(auto, using(crate::proofs::Stories::sent_right))]
pub fn sent_in_order()
    ensures { (config : ServerConfig) → (begun : ℕ) → (past : List Happening) → (g : SnapshotClient) → (sent : List ℕ) → Story config begun past g sent → IsSentRight config begun past sent }
{}

/// Over any number of connections to servers that send one feed and snapshots of it, in pieces of any size, and lost at any point: the
/// joiner's state is the one that the calls of this feed lead to, so the market is the result of the feed's messages before the next one.
pub fn market_of_the_feed<W: CountedWrite>()
    ensures { (set : Wanted) → (cap : ℕ) → (feed : List (List ℕ)) → (begun : Following) → (past : List (Did W)) → (f : Following) → AllByRecursion AreBytes feed
        → IsJoining set cap feed begun → Followed W.contents W.failures (rules_of (has set)) feed begun past f → StandsJoined set cap feed f }
{}

/// The state of a client at a server, and the bytes sent to it, are the same as if it were alone: calls for other clients are not part of its
/// visit. The visit alone determines the bytes sent, at any server and any place.
pub fn clients_apart<W: CountedWrite>()
    ensures alone { (begun : Following) → (past : List (Event W)) → (d : LiveServer) → (k : ℕ) → History W.contents W.failures begun past d
        → IsVisit (visit_at k past) (client_at d.slots k) (sent_at k past) }
    ensures decides { (begun start : Following) → (past other : List (Event W)) → (d e : LiveServer) → (k i : ℕ)
        → History W.contents W.failures begun past d → History W.contents W.failures start other e
        → visit_at k past ≡ visit_at i other → sent_at k past ≡ sent_at i other }
{}

/// The next successful call of [`LiveServer::answer`](crate::LiveServer::answer) answers each waiting client with the snapshot of the current market, if
/// there is a market, and the snapshot with its number is kept or there is room for one more within the limit. No other client can change
/// that.
pub fn who_waits_is_answered<W: CountedWrite>()
    ensures { (begun : Following) → (past : List (Event W)) → (at : Event W) → (d : LiveServer) → (limit now count k : ℕ) → (j : Position) → (g : SnapshotClient)
        → History W.contents W.failures begun (at ∷ past) d → at.call ≡ Answers limit now count → length at.before.slots ≤ count → at.before.following.joining.state.joined ≡ Some j
        → HasRoom limit at.before j → client_at at.before.slots k ≡ Some g → is_waiting g ≡ true → client_at d.slots k ≡ Some (answered g (session_bytes j.market j.next) j.next now) }
{}

/// A waiting client continues to wait until it is answered, whatever else happens, unless it logs out, breaks the protocol, accepts none of
/// the bytes sent to it for 15 seconds, or its connection is given up.
pub fn waiting_goes_on()
    ensures { (config : ServerConfig) → (begun : ℕ) → (past : List Happening) → (g : SnapshotClient) → (sent : List ℕ) → (happening : Happening) → (h : SnapshotClient)
        → Story config begun past g sent → Becomes config g happening h → is_waiting g ≡ true → MayBecome g happening h }
{}

/// A client that was disconnected for silence had made no progress for 15 seconds at a time that was reported to it. At that time it was not
/// waiting for its snapshot, or had not accepted all bytes sent to it so far.
#[tactic(auto, using(crate::proofs::Fairness::cut_off))]
pub fn only_the_silent_are_cut_off()
    ensures { (config : ServerConfig) → (begun : ℕ) → (past : List Happening) → (g : SnapshotClient) → (sent : List ℕ) → Story config begun past g sent → g.gone ≡ Some reason.Silent → IsCutOff config begun past }
{}

/// Equal markets are answered with the same bytes. The bytes depend only on the snapshot list, and two lists are equal exactly if the markets
/// are equal.
#[tactic(auto, using(crate::proofs::Same::same_bytes))]
pub fn same_answers()
    ensures { (m n : Content) → (next : ℕ) → snap m ≡ snap n → session_bytes m next ≡ session_bytes n next }
{}

/// A server's market never goes back: the market at the time of a login is contained in each snapshot that is passed in later.
pub fn market_goes_on<W: CountedWrite>()
    ensures { (begun : Following) → (later : List (Event W)) → (at : Event W) → (before : List (Event W)) → (d : LiveServer)
        → History W.contents W.failures begun (later ++ at ∷ before) d → GoesOn at.before.following.joining.state.joined d.following.joining.state.joined }
{}

/// The session of a server's feed does not change once it is known.
pub fn session_stays<W: CountedWrite>()
    ensures { (begun : Following) → (later : List (Event W)) → (at : Event W) → (before : List (Event W)) → (d : LiveServer) → (session : List ℕ)
        → History W.contents W.failures begun (later ++ at ∷ before) d → at.before.following.sessions.feed ≡ Some session → d.following.sessions.feed ≡ Some session }
{}

/// A follower takes a message, and its market changes, only on a connection whose login was accepted under the name of the expected session:
/// the feed's, or the separate name that was configured for the snapshot server.
pub fn taken_in_session<W: CountedWrite>()
    ensures { (begun : Following) → (past : List (Did W)) → (f g : Following) → (piece : List ℕ) → (now : ℕ) → (result : ℕ × News) → (old new : W) → begun.session.connection.stage ≡ stage.Before
        → Led W.contents W.failures begun past f → HearsFeed W.contents W.failures f piece now old result new g → (g.joining ≡ f.joining → ⊥) → IsInSession W.contents W.failures begun past f }
{}

/// A server keeps the number of places that it was created with. There are never more clients than places, nor more kept snapshots.
pub fn places_stay<W: CountedWrite>()
    ensures { (begun : Following) → (later : List (Event W)) → (at : Event W) → (before : List (Event W)) → (d : LiveServer)
        → History W.contents W.failures begun (later ++ at ∷ before) d → length d.slots ≡ length at.before.slots }
{}

/// If no message may wait out of order, and no write to the record fails, the bytes added to the record are exactly the blocks of the feed's
/// messages from the first recorded one up to the one before the next, over any number of connections.
pub fn record_of_the_feed<W: CountedWrite>()
    ensures { (set : Wanted) → (feed : List (List ℕ)) → (begun : Following) → (past : List (Did W)) → (f : Following) → (record_begun record_now : W) → AllByRecursion AreBytes feed
        → IsJoining set 0 feed begun → Followed W.contents W.failures (rules_of (has set)) feed begun past f → IsOneRecord record_begun past record_now
        → IsRecord W.contents feed begun past record_begun f record_now }
{}

/// Several processes may append to a record one after the other. A process that begins where the record's messages end, all of them from the
/// feed, leaves a record of exactly the blocks of the feed's messages before its next one. It does not matter where the process begins: with
/// a snapshot of the feed and the messages of the record after it, or with all messages of the record.
pub fn record_goes_on<W: CountedWrite>()
    ensures { (set : Wanted) → (feed : List (List ℕ)) → (begun : Following) → (past : List (Did W)) → (f : Following) → (i j : Position) → (record_begun record_now : W) → AllByRecursion AreBytes feed
        → IsJoining set 0 feed begun → begun.joining.state.joined ≡ Some i → W.contents record_begun ≡ Some (blocks (take (i.next - 1) feed))
        → Followed W.contents W.failures (rules_of (has set)) feed begun past f → IsOneRecord record_begun past record_now → f.joining.state.joined ≡ Some j
        → W.contents record_now ≡ Some (blocks (take (j.next - 1) feed)) }
{}

/// All of these laws together, for a server whose follower receives one feed: the bytes sent to the current client at a place are empty, or a
/// prefix of the rejection of its login, or a prefix of its acceptance, heartbeats, the snapshot of the market after exactly the first n
/// messages of the feed, the End of Snapshot with n + 1, and the end of the session. The number n is the feed's position at some time after
/// this client's login had arrived.
pub fn snapshots_of_the_feed<W: CountedWrite>()
    ensures only { (set : Wanted) → (cap : ℕ) → (feed : List (List ℕ)) → (begun : Following) → (past : List (Event W)) → (d : LiveServer) → (k : ℕ)
        → AllByRecursion AreBytes feed → IsJoining set cap feed begun → History W.contents W.failures begun past d → AreHonest (rules_of (has set)) feed past
        → IsSentOfFeed (rules_of (has set)) feed k past (sent_at k past) }
    ensures market { (set : Wanted) → (cap : ℕ) → (feed : List (List ℕ)) → (begun : Following) → (past : List (Event W)) → (d : LiveServer) → (k : ℕ)
        → ((locate : ℕ) → has set locate ≡ true) → AllByRecursion AreBytes feed → IsJoining set cap feed begun → History W.contents W.failures begun past d
        → AreHonest market_rules feed past → IsSentOfFeed market_rules feed k past (sent_at k past) }
{}

/// A server keeps the snapshots that are being sent to clients, by the numbers of the next messages at which they were encoded. If one is kept
/// under the number of the current market, it is the snapshot of that market.
pub fn snapshots_kept<W: CountedWrite>()
    ensures { (begun : Following) → (past : List (Event W)) → (d : LiveServer) → (j : Position) → (bytes : List ℕ)
        → History W.contents W.failures begun past d → d.following.joining.state.joined ≡ Some j → kept_bytes d.slots j.next ≡ Some bytes → bytes ≡ session_bytes j.market j.next }
{}

/// The memory of a server, without the market of its feed and the fixed size of its places: at most 65,537 bytes for the feed and for each
/// place, and for all snapshots together the largest limit that a caller has passed in, or the size of the longest snapshot that was passed
/// in, whichever is more. That snapshot has at most 43 bytes per message, and 128 more. All this requires that the markets and their numbers
/// satisfy the invariants of their types.
pub fn memory_of_a_server<W: CountedWrite>()
    ensures held { (begun : Following) → (past : List (Event W)) → (d : LiveServer) → AreOfMarkets past
        → History W.contents W.failures begun past d → held_bytes d ≤ most_bytes (length d.slots) (max (largest_limit past) (longest past)) }
    ensures snapshots { (begun : Following) → (past : List (Event W)) → (d : LiveServer) → AreOfMarkets past
        → History W.contents W.failures begun past d → longest past ≤ 43 * most_messages past + 128 }
{}

/// Whatever happens to a client of a played feed, in any order, and however few bytes its socket accepts at a time: the bytes sent to it are
/// empty, or a prefix of the rejection of its login, or a prefix of the acceptance of its login from the requested number on, the packet of
/// each message that was passed in, once and in order, heartbeats only between packets, and, after all messages, the end of the session. If
/// each message passed in is the file's message with the requested number, they are exactly the messages of the file from the number in the
/// login on.
pub fn played_in_order()
    ensures order { (config : ServerConfig) → (total begun : ℕ) → (past : List plays.Event) → (p : Player) → plays.History config total begun past p → plays.IsSentRight config total past p }
    ensures file { (config : ServerConfig) → (total begun : ℕ) → (file : List (List ℕ)) → (past : List plays.Event) → (p : Player) → plays.History config total begun past p
        → plays.AreOfFile file past → plays.IsSentOfFile config total file past p }
{}
