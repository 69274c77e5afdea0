use crate::tests::texts::{FOUR_ALERTS, HEADER};
use crate::tests::{CALL, Case, Ran, Wanted, check_all};
use test_texts::{FOUR_PAYMENTS, THREE_ALERTS, TWO_ALERTS};

const LINE: &str = "first pay.csv alerts.csv 10000 2 5000";

/// The four payments, and a request after row 2 which lets payments from 50.00 on pass.
const FIRST: Case<'static> = Case {
    files: &[("pay.csv", FOUR_PAYMENTS)],
    line: LINE,
    alerts: Wanted::Text(THREE_ALERTS),
    out: "rows 4 alerts 3 requests 1 refused 0\n",
    ran: Ran::Something,
    ..CALL
};

/// The audit of the four payments where the request is issued after row 2.
const BETWEEN_ROWS: &str = "entry,node,worker,lane,number,extra
fed,,,,1,
fed,,,,2,
issued,,,,1,
fed,,,,3,
fed,,,,4,
stopped,,,,,
met,big,0,0,1,
met,big,0,0,2,
turned,big,0,,1,
met,big,0,0,3,
met,big,0,0,4,
ended,big,0,0,,
met,alerts,0,1,2,
met,alerts,0,1,3,
met,alerts,0,1,4,
ended,alerts,0,1,,
";

/// Their audit where it is issued after the last row.
const BEHIND_ALL_ROWS: &str = "entry,node,worker,lane,number,extra
fed,,,,1,
fed,,,,2,
fed,,,,3,
fed,,,,4,
issued,,,,1,
stopped,,,,,
met,big,0,0,1,
met,big,0,0,2,
met,big,0,0,3,
met,big,0,0,4,
turned,big,0,,1,
ended,big,0,0,,
met,alerts,0,1,2,
met,alerts,0,1,4,
ended,alerts,0,1,,
";

static WITH_AUDIT: [Case<'static>; 1] = [Case {
    ran: Ran::Audit(BETWEEN_ROWS),
    ..FIRST
}];

#[test]
fn four_payments(rt: HostRuntime) {
    check_all(&rt, &WITH_AUDIT);
}

static AT_FIRST: [Case<'static>; 1] = [Case {
    line: "first pay.csv alerts.csv 10000 0 5000",
    alerts: Wanted::Text(FOUR_ALERTS),
    out: "rows 4 alerts 4 requests 1 refused 0\n",
    ..FIRST
}];

#[test]
fn request_before_the_first_row(rt: HostRuntime) {
    check_all(&rt, &AT_FIRST);
}

static AT_LAST: [Case<'static>; 1] = [Case {
    line: "first pay.csv alerts.csv 10000 99 5000",
    alerts: Wanted::Text(TWO_ALERTS),
    out: "rows 4 alerts 2 requests 1 refused 0\n",
    ran: Ran::Audit(BEHIND_ALL_ROWS),
    ..FIRST
}];

#[test]
fn request_after_the_last_row(rt: HostRuntime) {
    check_all(&rt, &AT_LAST);
}

static HEADER_ONLY: [Case<'static>; 1] = [Case {
    files: &[("pay.csv", "source,account,merchant,amount,tags")],
    alerts: Wanted::Text(HEADER),
    out: "rows 0 alerts 0 requests 1 refused 0\n",
    ..FIRST
}];

#[test]
fn header_without_a_line_feed(rt: HostRuntime) {
    check_all(&rt, &HEADER_ONLY);
}

/// A byte order mark, lines that end in CRLF, and a quoted merchant.
static MARKED: [Case<'static>; 1] = [Case {
    files: &[(
        "pay.csv",
        "\u{feff}source,account,merchant,amount,tags\r\ncard,a,\"A, \"\"B\"\" Ltd\",150,x;y\r\n",
    )],
    alerts: Wanted::Text(
        "sink,row,account,merchant,amount,tags
alerts,1,a,\"A, \"\"B\"\" Ltd\",150.00,x;y
",
    ),
    out: "rows 1 alerts 1 requests 1 refused 0\n",
    ..FIRST
}];

#[test]
fn marked_payments(rt: HostRuntime) {
    check_all(&rt, &MARKED);
}

static GREATEST: [Case<'static>; 1] = [Case {
    line: "first pay.csv alerts.csv 9223372036854775807 01048576 0",
    alerts: Wanted::Text(HEADER),
    out: "rows 4 alerts 0 requests 1 refused 0\n",
    ..FIRST
}];

#[test]
fn greatest_numbers(rt: HostRuntime) {
    check_all(&rt, &GREATEST);
}

/// Payments that are refused leave neither alerts nor a record.
const FAULTY: Case<'static> = Case {
    line: LINE,
    status: 4,
    ..CALL
};

/// Payments that are refused, and the line of their fault.
static PAYMENT_FAULTS: [Case<'static>; 7] = [
    Case {
        files: &[("pay.csv", "")],
        out: "fault 4 P1\n",
        ..FAULTY
    },
    Case {
        files: &[("pay.csv", "source,account,merchant,amount\n")],
        out: "fault 4 P2\n",
        ..FAULTY
    },
    Case {
        files: &[(
            "pay.csv",
            "source,account,merchant,amount,tags\ncard,a,m,1,\ncard,a,m,1\n",
        )],
        out: "fault 4 P3 row 2\n",
        ..FAULTY
    },
    Case {
        files: &[(
            "pay.csv",
            "source,account,merchant,amount,tags
card,a,m,1,\ncard,a,m,1,\ncard,a,m,1,\ncard,a,m,1,\ncard,a,m,1,\ncard,a,m,1,\ncard,a,m,1\n",
        )],
        out: "fault 4 P3 row 7\n",
        ..FAULTY
    },
    Case {
        files: &[(
            "pay.csv",
            "source,account,merchant,amount,tags\nwire,a,m,1,\n",
        )],
        out: "fault 4 P4 row 1\n",
        ..FAULTY
    },
    Case {
        files: &[(
            "pay.csv",
            "source,account,merchant,amount,tags\ncard,a,m,1.234,\n",
        )],
        out: "fault 4 P5 row 1 column 2\n",
        ..FAULTY
    },
    Case {
        files: &[(
            "pay.csv",
            "source,account,merchant,amount,tags
card,a,0123456789012345678901234567890123456789012345678,1,\n",
        )],
        out: "fault 4 P6 row 1 column 1\n",
        ..FAULTY
    },
];

#[test]
fn payment_faults(rt: HostRuntime) {
    check_all(&rt, &PAYMENT_FAULTS);
}

/// A call of the shelf that is refused, and what is left then. Call 0 reads the payments, call 1
/// begins the alerts, and each later one appends 16 bytes. There are no alerts then, as before.
/// If the last line isn't printed, there are.
static REFUSALS: [Case<'static>; 4] = [
    Case {
        failing: &[0],
        status: 5,
        alerts: Wanted::Nothing,
        out: "fault 5 payments\n",
        ran: Ran::Nothing,
        ..FIRST
    },
    Case {
        failing: &[1],
        status: 6,
        alerts: Wanted::Nothing,
        out: "fault 6 alerts\n",
        ..FIRST
    },
    Case {
        failing: &[3],
        status: 6,
        alerts: Wanted::Nothing,
        out: "fault 6 alerts\n",
        ..FIRST
    },
    Case {
        refusing: &[0],
        status: 6,
        out: "",
        ..FIRST
    },
];

#[test]
fn refusals_of_the_outside(rt: HostRuntime) {
    check_all(&rt, &REFUSALS);
}

static MISSING: [Case<'static>; 1] = [Case {
    files: &[("pay.csv", FOUR_PAYMENTS)],
    line: "first none.csv alerts.csv 10000 2 5000",
    status: 5,
    out: "fault 5 payments\n",
    ..CALL
}];

#[test]
fn missing_payments(rt: HostRuntime) {
    check_all(&rt, &MISSING);
}
