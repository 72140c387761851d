//! The figures of a live server for its status port.

use super::Server;
use super::client_side::ServingSide;
use itch_book::OrderBook;
use itch_status::Figures;
use std::alloc::Global;
use std::fs::File;
use std::net::Net;
use std::rt::{Clock, Files};

impl<'r, 'a, R, B: OrderBook<Alloc = Global>> Server<'r, 'a, R, B>
where
    R: Net + Clock + Files<File = File> + Eprint + AllocGlobal,
{
    // Returns whether there may be something to do for the status port without waiting for another event.
    pub(super) fn is_asked(&self) -> bool {
        match &self.status {
            Some(status) => status.is_busy(),
            None => false,
        }
    }

    // Answers the requests at the status port.
    pub(super) fn tell_status(&mut self, now_ms: u64) {
        let Some(mut status) = self.status.take() else {
            return;
        };
        let rt = self.log.runtime();
        status.hear(rt, self.poll_loop.registry(), &mut self.spare, now_ms);
        if status.is_asked() {
            status.answer(rt, &self.figures(now_ms));
        }
        status.tell(now_ms);
        self.status = Some(status);
    }

    fn figures(&self, now_ms: u64) -> Figures {
        let (state, cause) = self.feed.state();
        let ServingSide {
            clients,
            reception,
            ..
        } = &self.client_side;
        let (opening, ready) = reception.counts();
        let (waiting, served) = clients.counts(&self.live_server);
        let (encoded, sent) = clients.totals();
        let (saved, missed) = self.day.saved();
        Figures {
            state,
            cause,
            session: self.live_server.follower().session(),
            server: self.feed.server_number(),
            losses: self.feed.losses(),
            next: self.live_server.follower().next(),
            messages: self.day.tally.messages,
            minute: self.day.tally.minute_at(now_ms),
            market_ns: self.feed.market_ns(),
            silence_ms: self.day.tally.silence_ms(now_ms),
            connections: reception.connected(),
            opening,
            waiting: waiting.saturating_add(ready),
            served,
            slots: self.serving.clients as u64,
            encoded,
            kept: self.live_server.snapshot_bytes(),
            sent,
            recorded: self.day.record.figures(),
            saved,
            missed,
            lines_lost: self.log.lost(),
            uptime_ms: now_ms,
        }
    }
}
