// The full form of each command.
ghost use Rattle.std.specs.Prelude.{◌≡◌};
ghost use Rattle.fries_words.specs.Words.{capacity_option, every_option, exact_flag, form_of};
ghost use Rattle.fries_words.specs.Words.{from_option, live_flag, stream_flag};
ghost use Rattle.fries_words.specs.Words.{ordered_flag, progress_flag, resume_flag, save_option};
ghost use Rattle.fries_words.specs.Words.{threads_option};
ghost use Rattle.fries_words.specs.Views.{flag_view, form_view, option_view};

use crate::Topic;

/// An option with a value: its name, its word, and the start of the one word that has the value
/// too.
#[derive(Clone, Copy)]
pub(crate) struct ValueOption {
    pub(crate) id: &'static str,
    pub(crate) word: &'static str,
    pub(crate) start: &'static str,
}

/// An option without a value.
#[derive(Clone, Copy)]
pub(crate) struct Flag {
    pub(crate) id: &'static str,
    pub(crate) word: &'static str,
}

/// What may follow the word of a command: its names in order, and its options at any place.
#[derive(Clone, Copy)]
pub(crate) struct Form {
    pub(crate) names: &'static [&'static str],
    /// Names after them that may be left out.
    pub(crate) extra: &'static [&'static str],
    pub(crate) options: &'static [ValueOption],
    pub(crate) flags: &'static [Flag],
}

const THREADS: ValueOption = ValueOption {
    id: "threads",
    word: "--threads",
    start: "--threads=",
};

const CAPACITY: ValueOption = ValueOption {
    id: "capacity",
    word: "--capacity",
    start: "--capacity=",
};

const SAVE: ValueOption = ValueOption {
    id: "save",
    word: "--save",
    start: "--save=",
};

const EVERY: ValueOption = ValueOption {
    id: "every",
    word: "--every",
    start: "--every=",
};

const FROM: ValueOption = ValueOption {
    id: "from",
    word: "--from",
    start: "--from=",
};

const ORDERED: Flag = Flag {
    id: "ordered",
    word: "--ordered",
};

const LIVE: Flag = Flag {
    id: "live",
    word: "--live",
};

const STREAM: Flag = Flag {
    id: "stream",
    word: "--stream",
};

const EXACT: Flag = Flag {
    id: "exact",
    word: "--exact",
};

const RESUME: Flag = Flag {
    id: "resume",
    word: "--resume",
};

const PROGRESS: Flag = Flag {
    id: "progress",
    word: "--progress",
};

/// The full form of the words after a command. Nothing follows the program's name alone.
pub(crate) fn form_of(topic: Topic) -> Form
    ensures { form_view result ≡ form_of topic }
{
    match topic {
        Topic::Program => Form {
            names: &[],
            extra: &[],
            options: &[],
            flags: &[],
        },
        Topic::First => Form {
            names: &["payments", "alerts", "min", "after", "min2"],
            extra: &[],
            options: &[],
            flags: &[],
        },
        Topic::Check => Form {
            names: &["job"],
            extra: &[],
            options: &[],
            flags: &[],
        },
        Topic::Plan => Form {
            names: &["job", "requests"],
            extra: &[],
            options: &[],
            flags: &[ORDERED],
        },
        Topic::Run => Form {
            names: &["job", "requests", "payments", "alerts", "audit"],
            extra: &[],
            options: &[THREADS, CAPACITY],
            flags: &[ORDERED, EXACT],
        },
        Topic::Make => Form {
            names: &["job", "seed", "rows"],
            extra: &[],
            options: &[THREADS],
            flags: &[ORDERED],
        },
        Topic::Save => Form {
            names: &[
                "job", "requests", "payments", "alerts", "audit", "save", "rows",
            ],
            extra: &[],
            options: &[THREADS, CAPACITY],
            flags: &[],
        },
        Topic::Resume => Form {
            names: &["job", "requests", "payments", "save", "alerts", "audit"],
            extra: &[],
            options: &[THREADS, CAPACITY],
            flags: &[],
        },
        Topic::Live => Form {
            names: &["job", "requests", "payments", "alerts", "audit"],
            extra: &[],
            options: &[THREADS, CAPACITY],
            flags: &[],
        },
        Topic::Verify => Form {
            names: &["job", "requests", "payments", "audit"],
            extra: &["alerts"],
            options: &[SAVE],
            flags: &[ORDERED, LIVE, STREAM],
        },
        Topic::Stream => Form {
            names: &["job", "requests", "alerts", "audit"],
            extra: &[],
            options: &[THREADS, CAPACITY, SAVE, EVERY, FROM],
            flags: &[ORDERED, EXACT, RESUME, PROGRESS],
        },
    }
}
