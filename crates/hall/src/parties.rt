// The parties of one register on one machine. Place j belongs to server or client j; place 0 is lent for a number that no party has, and stays as it is.
ghost use Rattle.std.specs.Prelude.{◌≤◌, IfErr};
ghost use Rattle.console.specs.Failures.{IsWriting};
ghost use Rattle.hall.specs.Areas.{Parties};

use crate::asks::{Ask, asked, byte_of, opening};
use crate::line::Line;
use crate::print::{put_answer, put_refused, put_step};
use blocks::Params;
use client::begin::{begin_read, begin_write};
use client::fresh::fresh_client;
use client_rules::{Answer, Client};
use console::failure::Failure;
use console::output::{put, put_what};
use frame::places::{AREA_BYTES, ROWS_BYTES};
use frame::{Party, Refusal};
use layout::servers::SERVER_SIZE;
use server_deliver::deliver;
use server_deliver::fresh::fresh;
use server_rules::Server;
use std::io::Write;

// The areas of all parties, with a place 0 for nobody: state areas, initial blocks and records of servers 1 to 10, rows areas and values of clients 1 to 8.
const AREAS: usize = 11 * AREA_BYTES;

const RECORDS: usize = 11 * SERVER_SIZE;

const INITIALS: usize = 11 * 256;

const ROWS: usize = 9 * ROWS_BYTES;

const VALUES: usize = 9 * 256;

// The frames of a server's step, 226 of 598 bytes at most, and their receivers; and those of a client's, 10.
const SERVER_OUT: usize = 135148;

const SERVER_TO: usize = 452;

const CLIENT_OUT: usize = 5980;

const CLIENT_TO: usize = 20;

// The register's parameters, once it is open, its clients, and the areas of all parties. They stay flat: Parties (specs/Areas.antt) says how long each is.
#[derive(Clone, Copy)]
pub struct Hall {
    params: Option<Params>,
    clients: [Client; Server::PLACES],
    areas: [u8; AREAS],
    initials: [u8; INITIALS],
    records: [u8; RECORDS],
    rows: [u8; ROWS],
    values: [u8; VALUES],
    ghost lengths: { Parties areas initials records rows values },
}

// A function of its own, since a proof would write out a literal of this length.
fn zeros<const N: usize>() -> [u8; N] {
    [0; N]
}

// The place of party j, one of parties 1 to most; place 0 for any other number.
fn place_of(j: usize, most: usize) -> usize
    ensures { result ≤ most }
{
    if most < j { 0 } else { j }
}

impl Hall {
    pub fn new() -> Hall {
        Hall {
            params: None,
            clients: [fresh_client(); Server::PLACES],
            areas: zeros(),
            initials: zeros(),
            records: zeros(),
            rows: zeros(),
            values: zeros(),
        }
    }

    // Makes servers 1 to n afresh with this initial value. All servers have the same parameters, so a refusal is server 1's.
    fn fresh_servers(&mut self, g: Params, value: &[u8]) -> Result<(), Refusal> {
        for j in 1..=g.n.clamp(1, 10) {
            let at = AREA_BYTES * j;
            let first = 256 * j;
            let own = SERVER_SIZE * j;
            fresh(
                g,
                j,
                value,
                &mut self.areas[at..at + AREA_BYTES],
                &mut self.initials[first..first + 256],
                &mut self.records[own..own + SERVER_SIZE],
            )?;
        }
        Ok(())
    }

    // All parties afresh, or the refusal.
    fn open<W: Write>(&mut self, g: Params, value: &[u8], out: &mut W) -> Result<(), Failure>
        ensures failed { IfErr result IsWriting }
    {
        if let Err(r) = self.fresh_servers(g, value) {
            return put_refused(out, r);
        }
        self.params = Some(g);
        put(out, b"ready\n")
    }

    // A frame is handed to server j.
    fn hand_server<W: Write>(
        &mut self,
        g: Params,
        j: usize,
        from: Party,
        f: &[u8],
        out: &mut W,
    ) -> Result<(), Failure>
        ensures failed { IfErr result IsWriting }
    {
        let i = place_of(j, 10);
        let at = AREA_BYTES * i;
        let first = 256 * i;
        let own = SERVER_SIZE * i;
        let initials = &self.initials;
        let mut frames = zeros::<SERVER_OUT>();
        let mut to = [0u8; SERVER_TO];
        let reply = deliver(
            g,
            j,
            from,
            f,
            &mut self.areas[at..at + AREA_BYTES],
            &initials[first..first + 256],
            &mut self.records[own..own + SERVER_SIZE],
            &mut frames,
            &mut to,
        );
        match reply {
            Ok(count) => put_step(out, &frames, &to, count),
            Err(r) => put_refused(out, r),
        }
    }

    // A frame is handed to client j; the value of its open write lies in values.
    fn hand_client<W: Write>(
        &mut self,
        g: Params,
        j: usize,
        from: Party,
        f: &[u8],
        out: &mut W,
    ) -> Result<(), Failure>
        ensures failed { IfErr result IsWriting }
    {
        let i = place_of(j, Server::CLIENTS);
        let at = ROWS_BYTES * i;
        let first = 256 * i;
        let size = g.size.min(256);
        let values = &self.values;
        let mut value = [0u8; 256];
        let mut frames = [0u8; CLIENT_OUT];
        let mut to = [0u8; CLIENT_TO];
        let answer = site::deliver(
            &mut self.clients[i],
            g,
            byte_of(j),
            &values[first..first + size],
            from,
            f,
            &mut self.rows[at..at + ROWS_BYTES],
            &mut value,
            &mut frames,
            &mut to,
        );
        put_answer(out, answer, g.n, &value[..size], &frames, &to)
    }

    // Client j begins a read.
    fn read<W: Write>(&mut self, g: Params, j: usize, out: &mut W) -> Result<(), Failure>
        ensures failed { IfErr result IsWriting }
    {
        let i = place_of(j, Server::CLIENTS);
        let mut frames = [0u8; CLIENT_OUT];
        let mut to = [0u8; CLIENT_TO];
        let r = begin_read(g, byte_of(j), self.clients[i], &mut frames, &mut to);
        self.clients[i] = r.client;
        put_answer(out, r.answer, 0, b"", &frames, &to)
    }

    // Client j begins the write of a value, which is kept.
    fn write<W: Write>(
        &mut self,
        g: Params,
        j: usize,
        value: &[u8],
        out: &mut W,
    ) -> Result<(), Failure>
        ensures failed { IfErr result IsWriting }
    {
        let i = place_of(j, Server::CLIENTS);
        let first = 256 * i;
        let mut frames = [0u8; CLIENT_OUT];
        let mut to = [0u8; CLIENT_TO];
        let r = begin_write(g, byte_of(j), self.clients[i], value, &mut frames, &mut to);
        if matches!(r.answer, Answer::Sent(_)) && value.len() <= 256 {
            self.values[first..first + value.len()].copy_from_slice(value);
        }
        self.clients[i] = r.client;
        put_answer(out, r.answer, 0, b"", &frames, &to)
    }

    // Does what a line asks for: until the register is open, to open it; then a call.
    pub fn answer<W: Write>(&mut self, line: &Line, out: &mut W) -> Result<(), Failure>
        ensures failed { IfErr result IsWriting }
    {
        let bytes = line.bytes();
        let Some(g) = self.params else {
            return match opening(line.fields()) {
                Some(g) => self.open(g, bytes, out),
                None => put_what(out),
            };
        };
        match asked(line.fields()) {
            Some(Ask::ToServer(j, from)) => self.hand_server(g, j, from, bytes, out),
            Some(Ask::ToClient(j, from)) => self.hand_client(g, j, from, bytes, out),
            Some(Ask::Read(j)) => self.read(g, j, out),
            Some(Ask::Write(j)) => self.write(g, j, bytes, out),
            None => put_what(out),
        }
    }
}
