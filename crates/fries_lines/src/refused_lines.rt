// The lines of requests that are refused.
ghost use Rattle.std.specs.Prelude.{◌≡◌, ◌++◌, All, Some, IfOk, OnErr, OnOk, map, string_bytes};
ghost use Rattle.audit_fault.specs.Noting.{IsNoted};
ghost use Rattle.fries_lines.specs.Lines.{code_of as code_of_fault, noted as noted_as};
ghost use Rattle.fries_lines.specs.Lines.{refusal_words};
ghost use Rattle.fries_lines.specs.Lines.{refused_line as refused_line_of, refused_lines};

use sink_journal::{Noted, RefusalCode};
use std::alloc::Global;
use std::fmt;
use tuple_trace::{Bytes, NoMemory};
use versions::{QFault, Refused};

/// Writes why a request is refused: a code, and what it names.
#[derive(Clone, Copy)]
struct RefusalWords(QFault);

impl fmt::Display for RefusalWords {
    ghost output = { λ refusal. Some (refusal_words refusal.0) };

    fn fmt<W: fmt::Write>(&self, f: &mut fmt::Formatter<W>) -> fmt::Result {
        let code = RefusalCode(code_of(self.0));
        match self.0 {
            QFault::NoNode(change)
            | QFault::Fixed(change)
            | QFault::NodeTwice(change)
            | QFault::IllTyped(change)
            | QFault::KindOrKey(change)
            | QFault::BadCarry(change)
            | QFault::LateSplit(change) => write!(f, "{code} change {change}"),
            QFault::Stale(change, current) => {
                write!(f, "{code} change {change} current {current}")
            }
            QFault::Empty => write!(f, "{code}"),
            QFault::Backwards(last) => write!(f, "{code} last {last}"),
        }
    }
}

// The number of the code by which a request is refused, 1 to 10.
fn code_of(fault: QFault) -> u8
    ensures { result ≡ code_of_fault fault }
{
    match fault {
        QFault::NoNode(_) => 1,
        QFault::Fixed(_) => 2,
        QFault::NodeTwice(_) => 3,
        QFault::Stale(..) => 4,
        QFault::IllTyped(_) => 5,
        QFault::KindOrKey(_) => 6,
        QFault::BadCarry(_) => 7,
        QFault::Empty => 8,
        QFault::Backwards(_) => 9,
        QFault::LateSplit(_) => 10,
    }
}

/// Notes refused requests for the audit of a run, in their order.
pub fn noted(alloc: Global, refused: &[Refused]) -> Result<Vec<Noted>, NoMemory>
    ensures { IfOk result (λ noted. noted.items ≡ map noted_as refused.now) }
{
    let noted = refused.iter().map(|refused| note(*refused)).collect(alloc)?;
    Ok(noted)
}

/// Each refused request is noted by its place, below 2^32, and by one of ten codes. The function
/// proves its clause, and does nothing else.
pub fn refused_are_noted(refused: &[Refused])
    ensures { All (λ refused. IsNoted (noted_as refused)) refused.now }
{
    for one in refused {
        let _noted = note(*one);
    }
}

fn note(refused: Refused) -> Noted
    ensures is { result ≡ noted_as refused }
    ensures noted { IsNoted (noted_as refused) }
{
    Noted {
        place: refused.place,
        code: code_of(refused.fault),
    }
}

/// Appends the lines of refused requests, in their order. After [`NoMemory`] the text is as before.
pub fn push_refused(alloc: Global, refused: &[Refused], text: &mut Bytes) -> Result<(), NoMemory>
    ensures ok { OnOk result (text.new ≡ text.old ++ refused_lines refused.now) }
    ensures err { OnErr result (text.new ≡ text.old) }
{
    let lines = lines_of(alloc, refused)?;
    text.extend_from_slice(lines.as_slice())
}

fn lines_of(alloc: Global, refused: &[Refused]) -> Result<Bytes, NoMemory>
    ensures { IfOk result (λ lines. lines ≡ refused_lines refused.now) }
{
    let mut lines = Bytes::new(alloc);
    for request in refused {
        let line = refused_line(alloc, *request)?;
        lines.extend_from_slice(line.as_bytes())?;
    }
    Ok(lines)
}

/// The line of a refused request.
pub fn refused_line(alloc: Global, refused: Refused) -> Result<String, NoMemory>
    ensures { IfOk result (λ line. string_bytes line ≡ refused_line_of refused) }
{
    let Refused { place, fault } = refused;
    let words = RefusalWords(fault);
    Ok(format!(in alloc; "refused {place} {words}\n")?)
}
