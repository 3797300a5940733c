// Calls that fail only for now, and are to be made again.
use std::io::ErrorKind;
use std::rt::Clock;
use std::time::Duration;
use std::{io, thread};

// Waits for a hundredth of a second. The library has no call that waits for a descriptor, so a program that waits for one tries again after such a pause.
fn pause(clock: &impl Clock) {
    thread::sleep(clock, Duration::from_millis(10));
}

// Whether the call that failed is to be made again: it was interrupted, or nothing was ready yet; in the second case it pauses first.
pub fn is_again(clock: &impl Clock, error: &io::Error) -> bool {
    match error.kind() {
        ErrorKind::Interrupted => true,
        ErrorKind::WouldBlock => {
            pause(clock);
            true
        }
        _ => false,
    }
}

// Whether a call is to be made again, which it is if it failed only for now.
pub fn is_put_off<T>(clock: &impl Clock, outcome: &io::Result<T>) -> bool {
    match outcome {
        Ok(_) => false,
        Err(error) => is_again(clock, error),
    }
}
