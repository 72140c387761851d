//! Laws of the packets and of both sides of a session, which refer only to definitions. Each function has an empty body.
ghost use Rattle.std.specs.Prelude.{◌≡◌, ℕ, ◌-◌, ◌<◌, ◌≤◌, ◌^◌, List, [], ◌∷◌, ◌++◌, length, map, take, Option, None, Some, Result};
ghost use Rattle.itch_codec.specs.Fields.{AreBytes, IsAlpha};
ghost use Rattle.itch_codec.specs.Messages.{spelling};
ghost use Rattle.itch_codec.specs.Widths.{IsSequence};
ghost use Rattle.itch_frame.specs.Blocks.{block, blocks};
ghost use Rattle.itch_market.specs.Content.{Content, laid};
ghost use Rattle.itch_market.specs.GoodMarkets.{IsGood};
ghost use Rattle.itch_market.specs.SameMarkets.{Same};
ghost use Rattle.itch_snapshot.specs.Bytes.{canon, closing};
ghost use Rattle.itch_snapshot.specs.Snapshot.{snap};
ghost use Rattle.itch_soup.specs.declared.login.Credentials.{Credentials};
ghost use Rattle.itch_soup.specs.declared.login.ServerConfig.{ServerConfig};
ghost use Rattle.itch_soup.specs.declared.server.ServerAct.{ServerAct};
ghost use Rattle.itch_soup.specs.Sending.{messages, messages_from, verdict, served};
ghost use Rattle.itch_soup.specs.Fetching.{asking, asking_from, Fetched, Receives, IsDecidedFetch};
ghost use Rattle.itch_soup.specs.FetchingRest.{FetchedRest};
ghost use Rattle.itch_soup.specs.declared.fault.SoupFault.{SoupFault};
ghost use Rattle.itch_soup.specs.Serving.{Wait, WaitsForLogin, IsDecidedWait, IsIdle};
ghost use Rattle.itch_soup.specs.declared.origin.Origin.{Origin};
ghost use Rattle.itch_soup.specs.declared.packet.Packet.{Packet};
ghost use Rattle.itch_soup.specs.Packets.{PacketSpells, packet_fault};
ghost use Rattle.itch_soup.specs.Servers.{Server, server_turn, judged};
ghost use Rattle.itch_soup.specs.declared.connection.SessionStage.{SessionStage};
ghost use Rattle.itch_soup.specs.declared.packet.LoginRequest.{LoginRequest};
ghost use Rattle.itch_soup.specs.declared.packet.Packet.TheVariants as is;
ghost use Rattle.itch_soup.specs.Clients.{Client, login_of};
ghost use Rattle.itch_soup.specs.Closing.{Call, server_reply, server_after, server_replies, ServerCloses, closed_server_reply, client_reply, client_after, client_replies, ClientCloses, closed_client_reply};

/// A block encodes at most one packet, from either side.
pub fn one_packet()
    ensures { (packet other : Packet) (block : List ℕ) (from side : Origin)
        → PacketSpells packet block from → PacketSpells other block side → packet ≡ other }
{}

/// A block that encodes a packet has no fault, and a block without a fault encodes a packet.
pub fn spelled_or_at_fault()
    ensures spelled { (packet : Packet) (block : List ℕ) (from : Origin) → PacketSpells packet block from → packet_fault block from ≡ None }
    ensures faultless { (block : List ℕ) (from : Origin) → packet_fault block from ≡ None → (packet : Packet) × PacketSpells packet block from }
{}

/// In any state of a server's session: after an answer that closes it, each later packet is answered by `Closed`, and each tick by `Nothing`.
pub fn server_stays_closed()
    ensures { (session : Server) (call : Call) (later : List Call) → ServerCloses (server_reply session call)
        → server_replies (server_after session call) later ≡ map closed_server_reply later }
{}

/// The same for a client's session.
pub fn client_stays_closed()
    ensures { (session : Client) (call : Call) (later : List Call) → ClientCloses (client_reply session call)
        → client_replies (client_after session call) later ≡ map closed_client_reply later }
{}

/// If a login for all messages is accepted, fetching the server's answer gives the same market, with its orders in snapshot order and the
/// number of its End of Snapshot. The end of the session and the bytes after it are not read.
pub fn served_is_fetched()
    ensures fetched { (m : Content) → (next : ℕ) → (config : ServerConfig) → (credentials : Credentials) → (more : List ℕ)
        → IsGood m → IsSequence next → IsAlpha 10 config.session → length (snap m) < 10 ^ 19 - 1
        → verdict m next config (login_of (asking credentials)) ≡ ServerAct.Accept 1
        → Fetched (asking credentials) (Some (served m next config (login_of (asking credentials)) ++ more)) (Some (block (90 ∷ []) ++ more)) (laid m, next) }
    ensures same { (m : Content) → IsGood m → Same (laid m) m }
{}

/// If a login for the messages from a number on is accepted from that number, and the End of Snapshot is among these messages, fetching the
/// server's answer gives their blocks. These blocks complete the blocks of the messages before that number, when those of the complete
/// snapshot are cut there.
pub fn rest_is_fetched()
    ensures fetched { (m : Content) → (next n : ℕ) → (config : ServerConfig) → (credentials : Credentials) → (more : List ℕ)
        → IsGood m → IsSequence next → IsAlpha 10 config.session → length (snap m) < 10 ^ 19 - 1 → 1 ≤ n → n ≤ length (messages m next)
        → verdict m next config (login_of (asking_from n credentials)) ≡ ServerAct.Accept n
        → FetchedRest n (asking_from n credentials) (Some (served m next config (login_of (asking_from n credentials)) ++ more)) (Some (block (90 ∷ []) ++ more))
        (blocks (map spelling (messages_from n m next))) }
    ensures joined { (m : Content) → (next n : ℕ) → IsGood m
        → blocks (map spelling (take (n - 1) (messages m next))) ++ blocks (map spelling (messages_from n m next)) ≡ canon (laid m) ++ closing next }
{}

/// Unless a read fails, the bytes of a client end a server's wait for a login in only one way: by the first login, logout, end of input or
/// fault after packets that are ignored.
pub fn one_wait()
    ensures { (bytes : List ℕ) → (left other : Option (List ℕ)) → (wait found : Wait) → WaitsForLogin (Some bytes) left wait → WaitsForLogin (Some bytes) other found
        → IsDecidedWait wait → IsDecidedWait found → wait ≡ found }
{}

/// Any bytes of a client end a server's wait for a login, without a failed read.
pub fn some_wait()
    ensures { (bytes : List ℕ) → (left : Option (List ℕ)) × (wait : Wait) × WaitsForLogin (Some bytes) left wait × IsDecidedWait wait }
{}

/// Unless a read fails or memory runs out, the bytes that answer a login end a fetch in only one way: by the market and the number of the
/// snapshot, or by the first fault. So the bytes of a snapshot do not result in a fault or in another market.
pub fn one_fetch()
    ensures { (credentials : Credentials) → (bytes : List ℕ) → (left other : Option (List ℕ)) → (result found : Result (Content × ℕ) SoupFault)
        → Receives (asking credentials) (Some bytes) left result → Receives (asking credentials) (Some bytes) other found
        → IsDecidedFetch result → IsDecidedFetch found → result ≡ found }
{}

/// Any bytes that answer a login end a fetch, without a failed read and with enough memory.
pub fn some_fetch()
    ensures { (credentials : Credentials) → (bytes : List ℕ) → AreBytes bytes
        → (left : Option (List ℕ)) × (result : Result (Content × ℕ) SoupFault) × Receives (asking credentials) (Some bytes) left result × IsDecidedFetch result }
{}

/// While a server waits for a login, its table answers `Nothing` to exactly the packets that are ignored, judges a login, and closes at a
/// logout.
pub fn waits_by_the_table()
    ensures over { (config : ServerConfig) → (total : ℕ) → (packet : Packet) → IsIdle packet → server_turn config total SessionStage.Before packet ≡ (ServerAct.Nothing, SessionStage.Before) }
    ensures only { (config : ServerConfig) → (total : ℕ) → (packet : Packet) → (server_turn config total SessionStage.Before packet).0 ≡ ServerAct.Nothing → IsIdle packet }
    ensures login { (config : ServerConfig) → (total : ℕ) → (login : LoginRequest) → server_turn config total SessionStage.Before (is.LoginRequest login) ≡ judged config total login }
    ensures logout { (config : ServerConfig) → (total : ℕ) → server_turn config total SessionStage.Before is.LogoutRequest ≡ (ServerAct.Close, SessionStage.Closed) }
{}
