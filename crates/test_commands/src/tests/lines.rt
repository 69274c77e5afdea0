//! The lines of faults, each code once.

use crate::tests::check_text;
use fries_lines::{Fault, FileIs, fault_line};
use job_file::{JobFault, Named, Part, ReqFileFault, Which};
use payments::PFault;

static LINES: [(Fault, &str); 23] = [
    (Fault::Job(JobFault::NotToml), "fault 2 J1\n"),
    (
        Fault::Job(JobFault::Shape(Part::Unknown)),
        "fault 2 J2 unknown\n",
    ),
    (
        Fault::Job(JobFault::Limit(Which::AllWorkers, 65)),
        "fault 2 J3 allworkers 65\n",
    ),
    (
        Fault::Job(JobFault::Limit(Which::Most, -1)),
        "fault 2 J3 most -1\n",
    ),
    (
        Fault::Job(JobFault::NameTwice(Named::Node, 3)),
        "fault 2 J4 node 3\n",
    ),
    (
        Fault::Job(JobFault::NameTwice(Named::Column, 1)),
        "fault 2 J4 column 1\n",
    ),
    (Fault::Job(JobFault::NoSuchEnd(0)), "fault 2 J5 edge 0\n"),
    (Fault::Job(JobFault::Ports(7)), "fault 2 J6 node 7\n"),
    (Fault::Job(JobFault::Cycle(2)), "fault 2 J7 node 2\n"),
    (Fault::Job(JobFault::Column(4)), "fault 2 J8 node 4\n"),
    (Fault::Job(JobFault::NoTable(5)), "fault 2 J9 node 5\n"),
    (
        Fault::Job(JobFault::Weight(4369)),
        "fault 2 J10 weight 4369\n",
    ),
    (Fault::Requests(ReqFileFault::NotToml), "fault 3 F1\n"),
    (
        Fault::Requests(ReqFileFault::Shape(Part::Carry)),
        "fault 3 F2 carry\n",
    ),
    (
        Fault::Requests(ReqFileFault::Limit(Which::Requests, 65)),
        "fault 3 F3 requests 65\n",
    ),
    (Fault::Read(FileIs::Requests), "fault 5 requests\n"),
    (Fault::Long(FileIs::Payments), "fault 9 payments\n"),
    (Fault::Long(FileIs::Alerts), "fault 9 alerts\n"),
    (Fault::Alerts(3), "fault 11 V7 line 3\n"),
    (Fault::Part(2), "fault 11 V8 part 2\n"),
    (Fault::NoMemory, "fault 7 memory\n"),
    (Fault::Write(FileIs::Out), "fault 6 out\n"),
    (
        Fault::Payments(PFault::TooMuch(524_289)),
        "fault 4 P7 row 524289\n",
    ),
];

#[test]
fn lines_of_faults(rt: HostRuntime) {
    for (fault, line) in &LINES {
        let found = fault_line(rt.alloc(), *fault).expect(&rt, "memory");
        check_text(&rt, found.as_bytes(), line);
    }
}
