// The server on which the cases run: a fresh one is made, frames are handed to it, and its record is changed.
use crate::shown::{made, replied};
use blocks::Params;
use case_text::text::Words;
use frame::Party;
use frame::places::AREA_BYTES;
use layout::servers::{SERVER_SIZE, put_scope, scope_at};
use server_deliver::deliver;
use server_deliver::fresh::fresh;
use server_rules::Server;
use std::io;
use std::io::Write;

// How long the area for the initial block is.
const INITIAL: usize = 256;

// The largest areas that are lent for sent frames and their receivers: those of a step for four servers.
const OUT_MOST: usize = 26144;

const TO_MOST: usize = 344;

// What they hold before.
const LENT: u8 = 0x5a;

// The parameters, the own number, the record, the state area and that of the initial block.
#[derive(Clone, Copy)]
pub struct Trial {
    params: Params,
    me: usize,
    record: [u8; SERVER_SIZE],
    area: [u8; AREA_BYTES],
    initial: [u8; INITIAL],
}

// N T K L
fn params(words: &mut Words) -> Params {
    Params {
        n: words.number(),
        t: words.number(),
        k: words.number(),
        size: words.number(),
    }
}

// CLASS NUMBER: 0 is a client's class, 1 a server's.
fn party(words: &mut Words) -> Party {
    let class = words.number();
    let number = (words.number() % 256) as u8;
    if class == 0 {
        Party::Client(number)
    } else {
        Party::Server(number)
    }
}

impl Trial {
    // Before the first line: no server is made yet.
    pub fn new() -> Trial {
        Trial {
            params: Params {
                n: 0,
                t: 0,
                k: 0,
                size: 0,
            },
            me: 0,
            record: [0; SERVER_SIZE],
            area: [0; AREA_BYTES],
            initial: [0; INITIAL],
        }
    }

    // fresh N T K L ME AREA INITIAL VALUE ANSWER: the parameters, the own number, the lengths of the two lent areas, the initial value, what is expected
    pub fn fresh<W: Write>(&mut self, report: &mut W, mut words: Words) -> io::Result<()> {
        self.params = params(&mut words);
        self.me = words.number();
        let area = words.number().min(AREA_BYTES);
        let initial = words.number().min(INITIAL);
        let value = words.bytes::<1024>();
        let (params, me) = (self.params, self.me);
        let state = &mut self.area[..];
        let block = &mut self.initial[..];
        let record = &mut self.record[..];
        record.fill(0);
        let reply = fresh(
            params,
            me,
            value.as_slice(),
            &mut state[..area],
            &mut block[..initial],
            record,
        );
        made(
            report,
            words.rest,
            reply,
            &self.area[..area],
            &self.initial[..initial],
        )
    }

    // deliver CLASS NUMBER AREA INITIAL OUT TO FRAME ANSWER: the sender, the lengths of the four lent areas, the frame, what is expected
    pub fn deliver<W: Write>(
        &mut self,
        report: &mut W,
        mut words: Words,
        whole: bool,
    ) -> io::Result<()> {
        let from = party(&mut words);
        let area = words.number().min(AREA_BYTES);
        let initial = words.number().min(INITIAL);
        let out_length = words.number().min(OUT_MOST);
        let to_length = words.number().min(TO_MOST);
        let frame = words.bytes::<1024>();
        let mut out = [LENT; OUT_MOST];
        let mut to = [LENT; TO_MOST];
        let (params, me) = (self.params, self.me);
        let state = &mut self.area[..];
        let block = &self.initial[..];
        let record = &mut self.record[..];
        let reply = deliver(
            params,
            me,
            from,
            frame.as_slice(),
            &mut state[..area],
            &block[..initial],
            record,
            &mut out[..out_length],
            &mut to[..to_length],
        );
        replied(
            report,
            words.rest,
            reply,
            &out[..out_length],
            &to[..to_length],
            whole,
        )
    }

    // unready CLIENT: the record says that the server has not sent its ready for the client's open write. No run makes such a record.
    pub fn unready(&mut self, mut words: Words) {
        let c = words.number().min(Server::CLIENTS);
        let mut scope = scope_at(&self.record, c);
        scope.slot.blocks.ready = false;
        put_scope(scope, c, &mut self.record);
    }
}
