// Entries read, one after the other.
ghost use Rattle.std.specs.Prelude.{◌≡◌};
ghost use Rattle.entries.specs.Entries.{malformed, cut, reading_response, reading_of, trace_of, surveyed, survey_of};

use crate::{Closing, Found, Survey};
use frame::parties::party_in;

// 22: the length is under 3, the version not 1 or the class above 1, as far as the bytes go.
fn is_malformed(l: &[u8]) -> bool
    ensures { result ≡ malformed l.now }
{
    if l.len() < 2 {
        return false;
    }
    if area::read2(l, 0) < 3 {
        return true;
    }
    if l.len() < 3 {
        return false;
    }
    if l[2] != 1 {
        return true;
    }
    if l.len() < 4 {
        return false;
    }
    1 < l[3]
}

// 23: the bytes end inside an entry.
fn is_cut(l: &[u8]) -> bool
    ensures { result ≡ cut l.now }
{
    l.len() < 2 || l.len() < 2 + area::read2(l, 0) as usize
}

// What is at the front of l: an entry, or how the trace closes there.
pub fn read_entry(l: &[u8]) -> Result<Found, Closing>
    ensures { reading_response result ≡ reading_of l.now }
{
    if l.len() == 0 {
        return Err(Closing::Whole);
    }
    if is_malformed(l) {
        return Err(Closing::Malformed);
    }
    if is_cut(l) {
        return Err(Closing::Cut);
    }
    let sender = party_in(l[3], l[4]);
    let end = 2 + area::read2(l, 0) as usize;
    Ok(Found { sender, end })
}

// Counts the entries of a trace.
pub fn survey(trace: &[u8]) -> Survey
    ensures { surveyed result ≡ survey_of (trace_of trace.now) }
{
    let mut count: usize = 0;
    let mut at: usize = 0;
    // No `for`: a turn goes on by the length of an entry.
    loop {
        let reading = read_entry(&trace[at..]);
        match reading {
            Err(closing) => {
                return Survey { count, closing };
            }
            Ok(found) => {
                count += 1;
                at += found.end;
            }
        }
    }
}
