//! The state of each side's connection, and the actions that are due as time passes.
ghost use Rattle.std.specs.Prelude.{◌≡◌};

/// The stage of a session.
#[derive(Clone, Copy, Debug)]
pub(crate) enum SessionStage {
    /// No login has been accepted yet.
    Before,
    /// A login was accepted.
    Accepted,
    /// The session is over.
    Closed,
}

/// The action that is due at a given time (SoupBinTCP 3.00, "Heartbeats").
#[derive(Clone, Copy, Debug, PartialEq, Eq)]
pub enum Tick {
    Nothing,
    /// Send a heartbeat: nothing was sent for more than 1,000 ms.
    Heartbeat,
    /// The other side is gone: nothing was received for 15,000 ms or more. The session is closed.
    Lost,
}

const SILENCE_MS: u64 = 15_000;

const IDLE_MS: u64 = 1_000;

/// The stage of a session, and the times of the last receipt and of the last sending, in milliseconds.
#[derive(Clone, Copy, Debug)]
pub(crate) struct Connection {
    pub(crate) stage: SessionStage,
    pub(crate) heard: u64,
    pub(crate) sent: u64,
}

impl Connection {
    ghost use Rattle.itch_soup.specs.Connections.{opened, tick_answer, after_tick};

    /// Creates the connection of a session that begins at `now_ms`.
    pub(crate) fn new(now_ms: u64) -> Connection
        ensures { result ≡ opened now_ms }
    {
        Connection {
            stage: SessionStage::Before,
            heard: now_ms,
            sent: now_ms,
        }
    }

    /// Returns the action that is due at `now_ms`. If this is before an earlier time, no time counts as passed.
    pub(crate) fn tick(&mut self, now_ms: u64) -> Tick
        ensures answer { result ≡ tick_answer self.old now_ms }
        ensures after { self.new ≡ after_tick self.old now_ms }
    {
        let tick = self.due(now_ms);
        match tick {
            Tick::Nothing => {}
            Tick::Heartbeat => self.sent = now_ms,
            Tick::Lost => self.stage = SessionStage::Closed,
        }
        tick
    }

    fn due(&self, now_ms: u64) -> Tick
        ensures { result ≡ tick_answer self.now now_ms }
    {
        let silent = now_ms.saturating_sub(self.heard) >= SILENCE_MS;
        let idle = now_ms.saturating_sub(self.sent) > IDLE_MS;
        match self.stage {
            SessionStage::Closed => Tick::Nothing,
            _ if silent => Tick::Lost,
            SessionStage::Accepted if idle => Tick::Heartbeat,
            _ => Tick::Nothing,
        }
    }
}
