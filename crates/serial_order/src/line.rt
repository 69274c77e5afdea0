ghost use Rattle.std.specs.Prelude.{◌≡◌, ◌++◌, IfOk, OnErr, OnOk};
ghost use Rattle.serial_order.specs.Serials.{count_words, rows_after as rows_after_of, serial_line};

use crate::Serial;
use std::alloc::Global;
use tuple_trace::{Bytes, NoMemory};

/// Appends the line of an ordered run: the word `serial`, and for each k from 0 up to `requests`
/// how many rows come after exactly the first k requests. After [`NoMemory`] the text is as before.
pub fn push_serial_line(
    alloc: Global,
    serial: &Serial,
    requests: usize,
    text: &mut Bytes,
) -> Result<(), NoMemory>
    ensures ok { OnOk result (text.new ≡ text.old ++ serial_line requests serial.now) }
    ensures err { OnErr result (text.new ≡ text.old) }
{
    let line = line_of(alloc, serial.as_slice(), requests)?;
    text.extend_from_slice(line.as_slice())
}

fn line_of(alloc: Global, serial: &[u64], requests: usize) -> Result<Bytes, NoMemory>
    ensures { IfOk result (λ line. line ≡ serial_line requests serial.now) }
{
    let mut line = Bytes::from_slice(alloc, b"serial")?;
    for k in 0..requests {
        push_count(alloc, serial, k, &mut line)?;
    }
    push_count(alloc, serial, requests, &mut line)?;
    line.extend_from_slice(b"\n")?;
    Ok(line)
}

fn push_count(alloc: Global, serial: &[u64], k: usize, text: &mut Bytes) -> Result<(), NoMemory>
    ensures { OnOk result (text.new ≡ text.old ++ count_words serial.now k) }
{
    let rows = rows_after(serial, k as u64);
    text.extend_from_slice(format!(in alloc; " {rows}")?.as_bytes())
}

/// How many rows come after exactly the first `k` requests. Takes no memory.
pub fn rows_after(serial: &[u64], k: u64) -> usize
    ensures { result ≡ rows_after_of k serial.now }
{
    serial.iter().filter(|number| **number == k).count()
}
