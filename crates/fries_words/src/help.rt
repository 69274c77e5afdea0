ghost use Rattle.std.specs.Prelude.{◌≡◌};
ghost use Rattle.fries_words.specs.Help.{help_of, version_line};

use crate::Topic;

/// What is printed to explain the program or a command: its names, its options, and an example.
pub fn help_text(topic: Topic) -> &'static str
    ensures { result.now ≡ help_of topic }
{
    match topic {
        Topic::Program => PROGRAM,
        Topic::First => FIRST,
        Topic::Check => CHECK,
        Topic::Plan => PLAN,
        Topic::Run => RUN,
        Topic::Make => MAKE,
        Topic::Save => SAVE,
        Topic::Resume => RESUME,
        Topic::Live => LIVE,
        Topic::Verify => VERIFY,
        Topic::Stream => STREAM,
    }
}

/// The line that says which version of the program this is.
pub fn version_text() -> &'static str
    ensures { result.now ≡ version_line }
{
    VERSION
}

const VERSION: &str = "fries 0.2.0\n";

const PROGRAM: &str = "\
fries - changes operators of a dataflow while payments flow through it

usage: fries COMMAND NAMES [OPTIONS]

  check JOB                                       prints the sizes of a job
  plan JOB REQUESTS                               prints what each request changes
  run JOB REQUESTS PAYMENTS ALERTS AUDIT          runs payments through a job
  live JOB REQUESTS PAYMENTS ALERTS AUDIT         the same, with requests released by lines
  stream JOB REQUESTS ALERTS AUDIT                runs payments as they come, without end
  save JOB REQUESTS PAYMENTS ALERTS AUDIT SAVE N  runs the first payments, saves the counts
  resume JOB REQUESTS PAYMENTS SAVE ALERTS AUDIT  runs the later payments from there
  verify JOB REQUESTS PAYMENTS AUDIT [ALERTS]     looks whether an audit is that of a run
  make JOB SEED ROWS                              runs rows that are made up
  first PAYMENTS ALERTS MIN AFTER MIN2            runs the smallest job

Options stand anywhere after the command, as two words or one: --threads 2, --threads=2.
`fries COMMAND --help` explains a command, `fries --version` prints the version.

example: fries check job.toml
";

const FIRST: &str = "\
usage: fries first PAYMENTS ALERTS MIN AFTER MIN2

Runs payments through one filter, whose least amount changes on the way.

  PAYMENTS  file to read: payments as CSV
  ALERTS    file to write: the payments that pass, as CSV
  MIN       least amount at first, in cents, 0 to 9223372036854775807
  AFTER     rows before the change, 0 to 1048576
  MIN2      least amount after the change, in cents, 0 to 9223372036854775807

example: fries first pay.csv alerts.csv 10000 2 5000
";

const CHECK: &str = "\
usage: fries check JOB

Reads a job and prints how many nodes, edges and workers it has, and its weight.

  JOB       file to read: a job as TOML

example: fries check job.toml
";

const PLAN: &str = "\
usage: fries plan JOB REQUESTS [--ordered]

Prints for each request which nodes and edges its change covers, or why it is refused.

  JOB        file to read: a job as TOML
  REQUESTS   file to read: requests as TOML
  --ordered  plans for one order of all rows and requests; without it, rows alone are whole

example: fries plan job.toml requests.toml
";

const RUN: &str = "\
usage: fries run JOB REQUESTS PAYMENTS ALERTS AUDIT [OPTIONS]

Runs payments through a job, while requests change its operators.

  JOB           file to read: a job as TOML
  REQUESTS      file to read: requests as TOML
  PAYMENTS      file to read: payments as CSV
  ALERTS        file to write: what comes to the sinks, as CSV
  AUDIT         file to write: what each worker did, as CSV; another word than ALERTS
  --threads N   threads, 1 to 16; without it, 1
  --capacity C  items on a lane, 1 to 64; without it, 16
  --ordered     gives rows and requests one order; without it, rows alone are whole
  --exact       each request takes effect just behind its row; without it, it overtakes rows

example: fries run job.toml requests.toml pay.csv alerts.csv audit.csv --threads 4
";

const MAKE: &str = "\
usage: fries make JOB SEED ROWS [--threads N] [--ordered]

Makes rows from a seed, runs them without requests, and prints the summary alone.

  JOB          file to read: a job as TOML
  SEED         what the rows are made from, 0 to 18446744073709551615
  ROWS         rows, 0 to 4294967295; times the weight of the job at most 1048576
  --threads N  threads, 1 to 16; without it, 1
  --ordered    gives rows and requests one order; without requests nothing changes

example: fries make job.toml 7 1000
";

const SAVE: &str = "\
usage: fries save JOB REQUESTS PAYMENTS ALERTS AUDIT SAVE N [OPTIONS]

Runs the first N payments, and writes the counts from which `resume` goes on.

  JOB           file to read: a job as TOML
  REQUESTS      file to read: requests as TOML
  PAYMENTS      file to read: payments as CSV
  ALERTS        file to write: what comes to the sinks, as CSV
  AUDIT         file to write: what each worker did, as CSV; another word than ALERTS
  SAVE          file to write: the savepoint, as CSV; another word than ALERTS and AUDIT
  N             payments before the savepoint, 0 to 1048576; all if there are fewer
  --threads N   threads, 1 to 16; without it, 1
  --capacity C  items on a lane, 1 to 64; without it, 16

example: fries save job.toml requests.toml pay.csv alerts.csv audit.csv save.csv 8
";

const RESUME: &str = "\
usage: fries resume JOB REQUESTS PAYMENTS SAVE ALERTS AUDIT [OPTIONS]

Runs the payments after a savepoint, from the counts that `save` wrote.

  JOB           file to read: a job as TOML
  REQUESTS      file to read: requests as TOML
  PAYMENTS      file to read: payments as CSV, with those before the savepoint
  SAVE          file to read: the savepoint, as CSV; another word than ALERTS and AUDIT
  ALERTS        file to write: what comes to the sinks, as CSV
  AUDIT         file to write: what each worker did, as CSV; another word than ALERTS
  --threads N   threads, 1 to 16; without it, 1
  --capacity C  items on a lane, 1 to 64; without it, 16

example: fries resume job.toml requests.toml pay.csv save.csv alerts.csv audit.csv
";

const LIVE: &str = "\
usage: fries live JOB REQUESTS PAYMENTS ALERTS AUDIT [OPTIONS]

Runs payments through a job, while the standard input releases its requests.
Each line feed there releases the next request. A request is issued once it is released and its
`after` payments are fed, or without a release after the last payment. It overtakes payments that
wait, so these may meet the new operators too. The command ends once the input has ended or has
released all requests.

  JOB           file to read: a job as TOML
  REQUESTS      file to read: requests as TOML
  PAYMENTS      file to read: payments as CSV
  ALERTS        file to write: what comes to the sinks, as CSV
  AUDIT         file to write: what each worker did, as CSV; another word than ALERTS
  --threads N   threads, 1 to 16; without it, 1
  --capacity C  items on a lane, 1 to 64; without it, 16

example: fries live job.toml requests.toml pay.csv alerts.csv audit.csv
";

const VERIFY: &str = "\
usage: fries verify JOB REQUESTS PAYMENTS AUDIT [ALERTS] [OPTIONS]

Looks whether an audit is that of a run, and rebuilds the run: then no row met half of a change.
With ALERTS it looks too whether these are just the alerts of that run.
An option says which command wrote the audit; without one it is `run`. No two options stand
together, but for --ordered and --stream.

  JOB          file to read: a job as TOML
  REQUESTS     file to read: requests as TOML
  PAYMENTS     file to read: payments as CSV
  AUDIT        file to read: the audit that the command wrote, as CSV
  ALERTS       file to read: the alerts of the same command, as CSV; not beside --stream
  --ordered    the command had --ordered: it is `run`, or `stream`
  --live       the audit is that of `live`
  --stream     the audit is that of `stream`, from its beginning to its end
  --save SAVE  file to read: the savepoint, as CSV; the audit is that of `resume` from there

example: fries verify job.toml requests.toml pay.csv audit.csv alerts.csv
";

const STREAM: &str = "\
usage: fries stream JOB REQUESTS ALERTS AUDIT [OPTIONS]

Runs payments of the standard input through a job as they come, in parts, without end.
A part ends where no more payments are there yet. Then the files have its alerts and audit.
REQUESTS is read again before each part, so requests may be appended meanwhile.

  JOB           file to read: a job as TOML
  REQUESTS      file to read: requests as TOML
  ALERTS        file to write: what comes to the sinks, as CSV; it grows with each part
  AUDIT         file to write: what each worker did, as CSV; another word than ALERTS
  --save SAVE   file to write: the savepoint, as CSV; another word than ALERTS and AUDIT
  --every N     payments between two savepoints, 1 to 1048576; without it, 65536
  --resume      goes on from the savepoint; without it, both files begin anew
  --from N      first payments that are left out, 0 to 9223372036854775806; without it, 0
  --threads N   threads, 1 to 16; without it, 1
  --capacity C  items on a lane, 1 to 64; without it, 16
  --ordered     gives rows and requests one order; without it, rows alone are whole
  --exact       each request takes effect just behind its row; without it, it overtakes rows
  --progress    tells on the standard error how far the stream has come

example: fries stream job.toml requests.toml alerts.csv audit.csv --save save.csv
";
