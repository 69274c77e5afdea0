ghost use Rattle.std.specs.Prelude.{◌≡◌, ◌+◌, ◌<◌, ◌≤◌};
ghost use Rattle.live_control.specs.Hearing.{IsHeard, releases_of};

use crate::{Asks, Failed, Teller};
use versions::MAX_REQUESTS;

// The most bytes that a reader takes.
const MOST_BYTES: u32 = 1_048_576;

/// What a reader of releases has taken.
#[derive(Clone, Copy, Debug, PartialEq, Eq)]
pub struct Heard {
    /// How many line feeds it took.
    pub releases: u32,
    /// Whether the input failed.
    pub failed: bool,
}

/// Takes bytes until `most` line feeds, the end, 1,048,576 bytes or a failure, and tells a release
/// at each line feed. It waits as long as the input lets it wait.
pub fn hear<Q: Asks>(asks: &mut Q, teller: &mut Teller, most: u32) -> Heard
    requires most { most ≤ MAX_REQUESTS }
    requires untold { teller.old.told ≡ 0 }
    ensures heard { IsHeard most (Q.state asks.old) (Q.state asks.new) result }
    ensures told { teller.new ≡ record teller.old { told = result.releases } }
{
    let mut releases = 0;
    for _taken in 0..MOST_BYTES {
        if releases >= most {
            return outcome(releases, false);
        }
        match asks.next() {
            Ok(Some(byte)) => releases += tell_byte(teller, byte),
            Ok(None) => return outcome(releases, false),
            Err(Failed) => return outcome(releases, true),
        }
    }
    outcome(releases, false)
}

fn outcome(releases: u32, failed: bool) -> Heard
    ensures { result ≡ record { releases = releases; failed = failed } }
{
    Heard { releases, failed }
}

// Tells a release if the byte is a line feed. Returns how many it told.
fn tell_byte(teller: &mut Teller, byte: u8) -> u32
    requires { teller.old.told < MAX_REQUESTS }
    ensures count { result ≡ releases_of byte }
    ensures told { teller.new ≡ record teller.old { told = teller.old.told + result } }
{
    if byte == b'\n' {
        teller.tell();
        1
    } else {
        0
    }
}
