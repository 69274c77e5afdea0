// The command `stream`, on the host.
ghost use Rattle.fries_words.specs.Asked.{IsSize};

use crate::streams::Lines;
use crate::teller::Teller;
use crate::{Telling, Words, tell_why};
use fries_call::Host;
use fries_help::{Call, HostLook, advice, stream_advice};
use fries_lines::{Fault, FileIs};
use fries_words::StreamFiles;
use input_pieces::HostTap;
use payments::{HostShelf, StdOut};
use std::alloc::Global;
use std::io::IsTerminal;
use std::process::ExitCode;
use std::sync::Wait;
use std::thread::Threads;
use stream_call::{StreamFault, StreamOutcome, stream};

/// Runs a stream of the payments on the standard input.
pub(crate) fn stream_main<R>(
    host: &Host<'_, R, Telling>,
    rt: HostRuntime,
    words: &Words,
    files: &StreamFiles,
) -> ExitCode
where
    R: Threads + Wait + Copy + Send + Sync + 'static,
    requires { IsSize files.now.size }
{
    let alloc = host.alloc;
    let mut shelf = HostShelf::new(rt, alloc);
    let mut out = StdOut::new(Lines {
        rt,
        to_errors: words.to_errors,
    });
    let mut tap = HostTap::new(rt.reader());
    let mut watch = Teller {
        rt,
        alloc,
        words: &words.list,
        tells: files.progress || rt.stderr().is_terminal(),
        told: None,
    };
    let outcome = stream(host, files, &mut shelf, &mut out, &mut tap, &mut watch);
    tell(&rt, alloc, words, &outcome);
    match outcome.fault {
        // The standard input is no file of the shelf.
        Some(StreamFault::Call(Fault::Read(FileIs::Payments))) => {}
        Some(StreamFault::Call(fault)) => tell_why(&rt, Some(fault), shelf.why()),
        _ => {}
    }
    ExitCode::from(outcome.status)
}

// Tells on the standard error what ended the stream, or why requests were refused. What comes of
// that changes nothing.
fn tell(rt: &HostRuntime, alloc: Global, words: &Words, outcome: &StreamOutcome) {
    let call = Call {
        words: &words.list,
        not_utf8: None,
        fault: None,
        refused: outcome.refused.as_slice(),
    };
    if let Ok(text) = stream_advice(alloc, call, outcome.fault, &mut HostLook::new(*rt)) {
        let _ = eprint!(rt; "{text}");
    }
}
