//! A case, as its text says it.

/// What a case shows, how it is run and told, and what stands on standard input.
#[derive(Clone, Copy)]
pub(crate) struct Case<'a> {
    pub(crate) shows: &'a str,
    /// The words of the command, a bar between each two.
    pub(crate) words: &'a str,
    /// In which way it is run.
    pub(crate) runs: &'a str,
    /// How is told what a run wrote.
    pub(crate) told: &'a str,
    /// What is made of the text, and how large.
    pub(crate) made: &'a str,
    /// The hashes under which the rows of a part are compared.
    pub(crate) hashes: &'a str,
    /// The file in which the text stands, where it has a name.
    pub(crate) file: &'a str,
    pub(crate) failing: Failing,
    pub(crate) text: &'a str,
}

/// Which call fails, and when a run is stopped.
#[derive(Clone, Copy)]
pub(crate) struct Failing {
    pub(crate) read: Option<u64>,
    pub(crate) write: Option<u64>,
    /// Whether each call on the notes fails.
    pub(crate) notes: bool,
    /// How often the stop check says no before it says yes.
    pub(crate) left: u64,
}

/// No call fails, and no run is stopped.
const NOTHING: Failing = Failing {
    read: None,
    write: None,
    notes: false,
    left: u64::MAX,
};

/// What holds where a part says nothing else.
pub(crate) const PLAIN: Case<'static> = Case {
    shows: "",
    words: "run",
    runs: "once",
    told: "rows",
    made: "",
    hashes: "",
    file: "",
    failing: NOTHING,
    text: "",
};

impl Failing {
    /// With a further setting.
    fn with(self, name: &str, value: &str) -> Failing {
        let number = value.parse::<u64>().ok();
        match name {
            "failing-read" => Failing {
                read: number,
                ..self
            },
            "failing-write" => Failing {
                write: number,
                ..self
            },
            "failing-notes" => Failing {
                notes: true,
                ..self
            },
            "stop" => Failing {
                left: number.unwrap_or(0),
                ..self
            },
            _ => self,
        }
    }
}

impl<'a> Case<'a> {
    /// With a further setting.
    fn with(self, name: &'a str, value: &'a str) -> Case<'a> {
        let failing = self.failing.with(name, value);
        match name {
            "words" => Case {
                words: value,
                ..self
            },
            "runs" => Case {
                runs: value,
                ..self
            },
            "told" => Case {
                told: value,
                ..self
            },
            "made" => Case {
                made: value,
                ..self
            },
            "hashes" => Case {
                hashes: value,
                ..self
            },
            "file" => Case {
                file: value,
                ..self
            },
            _ => Case { failing, ..self },
        }
    }

    /// The case of a block: a line that says what it shows, lines of settings, each behind a dot, and its text. What
    /// it doesn't say is as it was.
    pub(crate) fn of(self, block: &'a str) -> Case<'a> {
        let mut case = self;
        for (place, piece) in block.trim_end().split("\n.").enumerate() {
            let (line, text) = piece.split_once('\n').unwrap_or((piece, case.text));
            let (name, value) = line.split_once(' ').unwrap_or((line, ""));
            let shows = if place == 0 { line } else { case.shows };
            let said = if place == 0 {
                case
            } else {
                case.with(name, value)
            };
            case = Case {
                shows,
                text,
                ..said
            };
        }
        case
    }

    /// The number behind the last word of what is made.
    pub(crate) fn size(self) -> u32 {
        let (_, size) = self.made.rsplit_once(' ').unwrap_or(("", ""));
        size.parse::<u32>().unwrap_or(0)
    }
}
