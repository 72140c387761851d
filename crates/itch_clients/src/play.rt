//! `feed`: plays a day file as a live feed, to each client from the number that it asks for.

use crate::pace::Pace;
use crate::playback::Playback;
use crate::player_side::{PlayerSide, hand_on};
use crate::reception::{Arrival, Reception};
use itch_codec::{Alpha, Seq};
use itch_frame::{Buffered, CountedRead, CountedWrite};
use itch_live::Player;
use itch_sessions::log::Log;
use itch_sessions::log::form::LogForm;
use itch_sessions::sessions::PIECE;
use itch_sessions::{
    ClientPort, Happening, Logins, PollLoop, SessionFault, SessionOutcome, SlotAddresses, Spare,
    Visit, Who, called,
};
use mio::Token;
use std::alloc::{AllocError, Global};
use std::fs::File;
use std::net::{Net, SocketAddr};
use std::rt::{Clock, Files};

const LISTENER: usize = 0;

const PLACES: usize = 1;

/// The number of the first socket without a place.
const ROOMS: usize = PLACES + CLIENTS;

/// The most clients of a feed at a time.
const CLIENTS: usize = 64;

const EVENTS: usize = 1_024;

/// The intervals in milliseconds at which the time is checked: if no socket is ready, and if a message is not due yet.
const MOMENT_MS: u64 = 100;

const SOON_MS: u64 = 2;

/// The day file to play, its clients and its pace.
#[derive(Clone, Copy)]
pub struct Playing<'a> {
    pub path: &'a str,
    pub address: SocketAddr,
    /// The session under which logins are accepted.
    pub session: Alpha<10>,
    pub pace: Pace,
    /// The number of connections after which it ends, if it does.
    pub count: Option<u64>,
    /// Whether heartbeats follow the last message, instead of the end of the session.
    pub stay: bool,
}

/// Plays a day file to each of these users that logs in, from the requested number on, with a line on `out` for each client that is gone. The
/// messages of the file are counted first. The file is opened separately for each client, so clients may be at different places.
///
/// # Faults
///
/// A file that cannot be opened, or ends within a message (`Stopped`); `Socket` if the port cannot be bound; a line that cannot be written.
pub fn play_feed<R, W: CountedWrite>(
    rt: &R,
    playing: &Playing<'_>,
    users: Logins<'_>,
    out: &mut W,
) -> Result<bool, SessionFault>
where
    R: Net + Clock + Files<File = File> + Eprint + AllocGlobal,
{
    let total = Playback::open(rt, playing.path)?.count()?;
    let Some(end) = Seq::new(total.saturating_add(1)) else {
        return Err(SessionFault::TooMany);
    };
    let mut players = Players::new(rt, playing, users, end)?;
    for _turn in 0..u64::MAX {
        if playing.count.is_some_and(|count| players.ended >= count) {
            break;
        }
        players.turn(out)?;
    }
    Ok(true)
}

// The clients of a feed.
#[derive(Drop)]
struct Players<'a, R: Clock> {
    rt: &'a R,
    log: Log<'a, R>,
    playing: &'a Playing<'a>,
    users: Logins<'a>,
    // The number after that of the last message.
    end: Seq,
    poll_loop: PollLoop<'a, R>,
    port: ClientPort,
    reception: Reception,
    clients: Vec<Option<PlayerSide<Buffered<File>>>>,
    addresses: SlotAddresses,
    spare: Spare,
    // The number of connections that have ended.
    ended: u64,
    buffer: Vec<u8>,
}

impl<'a, R> Players<'a, R>
where
    R: Net + Clock + Files<File = File> + Eprint + AllocGlobal,
{
    // Listens on the port, and prints its address.
    fn new(
        rt: &'a R,
        playing: &'a Playing<'a>,
        users: Logins<'a>,
        end: Seq,
    ) -> Result<Players<'a, R>, SessionFault> {
        let poll_loop = PollLoop::begin(rt, rt, EVENTS)?;
        let port = called(ClientPort::listen(rt, poll_loop.registry(), playing.address, LISTENER))?;
        Ok(Players {
            rt,
            log: Log::new(rt, LogForm::Plain)?,
            playing,
            users,
            end,
            poll_loop,
            port,
            reception: Reception::new(rt.alloc(), playing.session, end, ROOMS)?,
            clients: no_clients(rt.alloc())?,
            addresses: SlotAddresses::new(rt.alloc(), CLIENTS)?,
            spare: Spare::new(rt.alloc(), 1)?,
            ended: 0,
            buffer: vec![in rt.alloc(); 0; PIECE]?,
        })
    }

    // Waits until something is ready or due, and does it.
    fn turn<W: CountedWrite>(&mut self, out: &mut W) -> Result<(), SessionFault> {
        let most_ms = self.patience_ms();
        let now_ms = self.poll_loop.wait(most_ms)?;
        self.note();
        self.reception.accept(
            self.rt,
            &mut self.port,
            &mut self.spare,
            self.poll_loop.registry(),
            now_ms,
        );
        if self.users.is_due(now_ms) {
            self.users.look(&mut self.log, "users", now_ms);
        }
        self.reception
            .turn(self.users.list(), now_ms, self.buffer.as_mut_slice());
        self.slot(now_ms);
        self.play(now_ms);
        self.close();
        self.write_lines(now_ms, out);
        Ok(())
    }

    // Returns how long to wait for a socket to become ready.
    fn patience_ms(&self) -> u64 {
        if self.reception.is_busy() {
            return 0;
        }
        let mut most_ms = MOMENT_MS;
        for client in self.clients.iter() {
            if let Some(client) = client {
                if client.is_busy() {
                    return 0;
                }
                if client.is_early() {
                    most_ms = SOON_MS;
                }
            }
        }
        most_ms
    }

    // Records which sockets are ready.
    fn note(&mut self) {
        for event in self.poll_loop.events().iter() {
            let Token(token) = event.token();
            if token == LISTENER {
                self.port.note();
            } else if token >= ROOMS {
                self.reception.note(token, event);
            } else if let Some(Some(client)) = self.clients.get_mut(token.saturating_sub(PLACES)) {
                client.note(event);
            }
        }
    }

    // Gives places to clients with valid logins, in the order of their arrival, while there are free places and a descriptor for the file of
    // each.
    fn slot(&mut self, now_ms: u64) {
        for place in 0..self.clients.len() {
            if self.is_taken(place) {
                continue;
            }
            if !self.spare.hold(self.rt) {
                return;
            }
            let Some(arrival) = self.reception.next_arrival(&self.addresses, CLIENTS) else {
                return;
            };
            self.spare.release();
            let who = arrival.link.who();
            match self.admit_one(arrival, place, now_ms) {
                Ok(client) => self.set(place, Some(client)),
                Err(_) => self.reception.write_down(&who, SessionOutcome::Fault),
            }
        }
    }

    fn is_taken(&self, place: usize) -> bool {
        matches!(self.clients.get(place), Some(Some(_)))
    }

    // Puts a client at a place, or frees the place, which closes the connection.
    fn set(&mut self, place: usize, client: Option<PlayerSide<Buffered<File>>>) {
        if let Some(slot) = self.clients.get_mut(place) {
            *slot = client;
        }
    }

    // Creates a client with the file opened for it.
    fn admit_one(
        &self,
        arrival: Arrival,
        place: usize,
        now_ms: u64,
    ) -> Result<PlayerSide<Buffered<File>>, SessionFault> {
        let playback = Playback::open(self.rt, self.playing.path)?;
        let total = self.end.value() - 1;
        let Arrival {
            link,
            config,
            words,
            ..
        } = arrival;
        let mut player = Player::new(self.rt.alloc(), config, total, now_ms)?;
        let mut link = link;
        called(link.move_to(self.poll_loop.registry(), place.saturating_add(PLACES)))?;
        hand_on(&mut player, words.as_slice(), now_ms);
        Ok(PlayerSide::new(link, player, playback))
    }

    // Plays the messages that are due to each client.
    fn play(&mut self, now_ms: u64) {
        let (pace, stay) = (self.playing.pace, self.playing.stay);
        for client in self.clients.iter_mut() {
            if let Some(client) = client {
                client.turn(pace, stay, now_ms, self.buffer.as_mut_slice());
            }
        }
    }

    // Closes the connection of each client that is gone.
    fn close(&mut self) {
        for place in 0..self.clients.len() {
            if let Some((who, outcome)) = self.outcome(place) {
                self.set(place, None);
                self.reception.write_down(&who, outcome);
            }
        }
    }

    // Writes the lines of the connections that have ended.
    fn write_lines<W: CountedWrite>(&mut self, now_ms: u64, out: &mut W) {
        for _ in 0..u64::MAX {
            let Some((who, happening)) = self.reception.next_happening() else {
                break;
            };
            if matches!(happening, Happening::Ended(_)) {
                self.ended = self.ended.saturating_add(1);
            }
            self.log.tell(out, &Visit::new(who, happening, now_ms));
        }
        self.log.report(now_ms);
    }

    // Returns the client at a place and how its connection ended, if it is to be closed.
    fn outcome(&self, place: usize) -> Option<(Who, SessionOutcome)> {
        match self.clients.get(place) {
            Some(Some(client)) => Some((client.who(), client.outcome()?)),
            _ => None,
        }
    }
}

// Returns free places.
fn no_clients<S: CountedRead + Drop>(
    alloc: Global,
) -> Result<Vec<Option<PlayerSide<S>>>, AllocError> {
    let mut clients = Vec::with_capacity(alloc, CLIENTS)?;
    for _place in 0..CLIENTS {
        clients.push(None)?;
    }
    Ok(clients)
}
