// What is put for a line.
ghost use Rattle.std.specs.Prelude.{IfErr};
ghost use Rattle.blocks.specs.Calls.{outcome};
ghost use Rattle.console.specs.Failures.{IsWriting};
ghost use Rattle.decode.specs.Kept.{DecodesAll};

use crate::line::Ask;
use blocks::faults::fault_number;
use blocks::{Fault, Params};
use case_text::text::Hex;
use console::failure::{Failure, written};
use console::output::{put_refused, put_what};
use std::io::Write;

// Decodes from what is kept of a line's numbers and blocks: the outcome is the same as from all of them.
fn decode_kept(g: Params, numbers: &[u8], blocks: &[u8], area: &mut [u8]) -> Result<(), Fault>
    ensures { DecodesAll g numbers.now blocks.now area.old (outcome result area.new) }
{
    blocks::decode(g, numbers, blocks, area)
}

// Decodes, and puts the value. A value has at most 256 bytes, so a longer area changes nothing.
fn decode<W: Write>(ask: Ask, out: &mut W) -> Result<(), Failure>
    ensures failed { IfErr result IsWriting }
{
    let mut area = [0u8; 256];
    let room = ask.room.min(area.len());
    match decode_kept(ask.params, ask.numbers, ask.blocks, &mut area[..room]) {
        Ok(()) => {
            let size = ask.params.size.min(area.len());
            written(writeln!(out, "value {}", Hex(&area[..size])))
        }
        Err(f) => put_refused(out, fault_number(f)),
    }
}

// Answers a line.
pub fn answer<W: Write>(ask: Option<Ask>, out: &mut W) -> Result<(), Failure>
    ensures failed { IfErr result IsWriting }
{
    match ask {
        Some(ask) => decode(ask, out),
        None => put_what(out),
    }
}
