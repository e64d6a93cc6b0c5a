//! Tests of the program's calls on files, each in a folder of its own.

use crate::devices::fails_at;
use crate::program::USAGE;
use certify::program::program;
use sat_base::Counted;
use std::os::unix::fs::symlink;
use std::{fs, io, process};

/// A folder for the files of one test.
#[derive(Drop)]
struct Folder<'r> {
    rt: &'r HostRuntime,
    path: String,
}

impl Folder<'_> {
    fn new<'r>(rt: &'r HostRuntime, name: &str) -> io::Result<Folder<'r>> {
        let id = process::id(rt.process());
        let path = format!(in rt.alloc(); "/tmp/certify-{name}-{id}")?;
        fs::create_dir(rt, path.as_str())?;
        Ok(Folder { rt, path })
    }

    fn path_of(&self, name: &str) -> io::Result<String> {
        Ok(format!(in self.rt.alloc(); "{}/{name}", self.path)?)
    }

    /// Returns the words of a call: its first word, the paths of its files, and `more` unless that is empty.
    fn words(&self, (call, files, more): Words<'_>) -> io::Result<Vec<String>> {
        let alloc = self.rt.alloc();
        let mut words = Vec::new(alloc);
        words.push(String::from_str(alloc, call)?)?;
        for name in files {
            words.push(self.path_of(name)?)?;
        }
        if !more.is_empty() {
            words.push(String::from_str(alloc, more)?)?;
        }
        Ok(words)
    }

    fn put(&self, name: &str, bytes: &[u8]) -> io::Result<()> {
        fs::write(self.rt, self.path_of(name)?, bytes)
    }

    fn read(&self, name: &str) -> io::Result<Vec<u8>> {
        fs::read(self.rt, self.path_of(name)?)
    }

    /// Creates a symbolic link to a file of the folder, or a hard link.
    fn link(&self, original: &str, name: &str, is_hard: bool) -> io::Result<()> {
        let link = self.path_of(name)?;
        if is_hard {
            fs::hard_link(self.rt, self.path_of(original)?, link)
        } else {
            symlink(self.rt, original, link)
        }
    }

    fn holds(&self, name: &str, bytes: &[u8]) -> bool {
        match self.read(name) {
            Ok(held) => held.as_slice() == bytes,
            Err(_) => false,
        }
    }

    /// Returns the status of a call and what it writes to its errors, when call number `failing` of its output fails.
    /// With 0, none fails.
    fn call_failing(&self, call: Words<'_>, failing: u64) -> (u8, Vec<u8>) {
        let mut input = Counted::new("a 0\n".as_bytes());
        let mut output = fails_at(b"", failing);
        let mut errors = Counted::new(Vec::new(self.rt.alloc()));
        let words = self.words(call);
        let status = program(self.rt, words, &mut input, &mut output, &mut errors);
        (status, errors.into_inner())
    }

    /// Returns the status of a call, its output, and its errors.
    fn call(&self, call: Words<'_>) -> (u8, Vec<u8>, Vec<u8>) {
        let alloc = self.rt.alloc();
        let mut input = Counted::new("a 0\n".as_bytes());
        let mut output = Counted::new(Vec::new(alloc));
        let mut errors = Counted::new(Vec::new(alloc));
        let words = self.words(call);
        let status = program(self.rt, words, &mut input, &mut output, &mut errors);
        (status, output.into_inner(), errors.into_inner())
    }

    /// Returns `true` if a call ends with the given status, output and errors.
    fn does(&self, call: Words<'_>, (status, printed, reported): End) -> bool {
        let (found, output, errors) = self.call(call);
        found == status
            && output.as_slice() == printed.as_bytes()
            && errors.as_slice() == reported.as_bytes()
    }

    /// Returns `true` if a call ends with a fault: it prints nothing, and writes the fault's name to its errors, and
    /// then the path of the file that failed, and the reason.
    fn breaks(&self, call: Words<'_>, (fault, name, reason): Fault<'_>) -> io::Result<bool> {
        let path = self.path_of(name)?;
        let reported = format!(in self.rt.alloc();
            "certify: {fault}\ncertify: {path}: {reason}\n"
        )?;
        Ok(self.does(call, (3, "", reported.as_str())))
    }

    /// Returns `true` if a call ends with `status` and prints nothing, whatever it writes to its errors.
    fn ends(&self, call: Words<'_>, status: u8) -> bool {
        let (found, output, _) = self.call(call);
        found == status && output.is_empty()
    }

    /// Returns `true` if a call reports that its output can't be written, when call number `failing` of the output
    /// fails.
    fn reports_fault(&self, call: Words<'_>, failing: u64) -> bool {
        let (found, errors) = self.call_failing(call, failing);
        found == 3 && errors.as_slice() == NOT_PRINTED.as_bytes()
    }

    /// Carries out an action. Returns whether it succeeds or, for a check, whether the check holds.
    fn acts(&self, action: &Action<'_>) -> bool {
        match action {
            Action::Put(name, bytes) => self.put(name, bytes).is_ok(),
            Action::Link(original, name) => self.link(original, name, false).is_ok(),
            Action::Name(original, name) => self.link(original, name, true).is_ok(),
            Action::Holds(name, bytes) => self.holds(name, bytes),
            Action::Does(call, end) => self.does(*call, *end),
            Action::Breaks(call, fault) => self.breaks(*call, *fault).unwrap_or(false),
            Action::Ends(call, status) => self.ends(*call, *status),
            Action::Fails(call, failing) => self.reports_fault(*call, *failing),
        }
    }

    /// Carries out actions, up to the first one that fails. Returns whether none fails.
    fn acts_all(&self, actions: &[Action<'_>]) -> bool {
        for action in actions {
            if !self.acts(action) {
                return false;
            }
        }
        true
    }

    fn remove(self) -> bool {
        let Folder { rt, path } = self;
        fs::remove_dir_all(rt, path).is_ok()
    }
}

/// The first word of a call, the names of its files, and another word, or "" for none.
type Words<'a> = (&'a str, &'a [&'a str], &'a str);

/// The outcome of a call: the status, the output and the errors.
type End<'a> = (u8, &'a str, &'a str);

/// The name of a fault, the name of the file that failed, and the reason.
type Fault<'a> = (&'a str, &'a str, &'a str);

/// What is written to standard error when standard output fails.
const NOT_PRINTED: &str =
    "certify: AnswersWrite\ncertify: standard output: operation interrupted\n";

/// An action in a folder, or a check of a file or a call.
#[derive(Drop)]
enum Action<'a> {
    Put(&'a str, &'a [u8]),
    /// Creates a symbolic link. The first text is its target.
    Link(&'a str, &'a str),
    /// Creates a hard link to a file.
    Name(&'a str, &'a str),
    Holds(&'a str, &'a [u8]),
    Does(Words<'a>, End<'a>),
    /// Calls the program, which ends with a fault of a file.
    Breaks(Words<'a>, Fault<'a>),
    /// Calls the program, which ends with the given status and prints nothing.
    Ends(Words<'a>, u8),
    /// Calls the program while one call of its output fails, which it reports.
    Fails(Words<'a>, u64),
}

/// Certificate of four clauses over two variables that no valuation satisfies, at width 8.
const REFUTED: &[u8] = &[
    2, 0, 1, 1, 0, 1, 2, 1, 2, 1, 1, 2, 5, 2, 0, 2, 5, 2, 0, 3, 5, 2, 1, 2, 5, 2, 1, 3, 11, 0, 9,
    8, 6, 0, 1, 0, 2, 0x44, 0xe6, 1, 7, 1, 2, 0xe6, 1, 6, 0, 0, 1, 0x44, 11, 0, 13,
];

const DERIVATION: &[u8] = b"\
    i 1 1 2 0\ni 2 1 -2 0\ni 3 -1 2 0\ni 4 -1 -2 0\nd 5 1 0 1 2 0\nd 6 2 0 5 3 0\nd 7 0 5 6 4 0\n";

/// Certificates, and the hint texts that `hints` writes for them.
const HINTED: &[&[Action<'static>]] = &[
    &[
        Action::Put("c", REFUTED),
        Action::Does(("hints", &["c", "h"], ""), (0, "", "")),
        Action::Holds("h", DERIVATION),
    ],
    &[
        Action::Put("c", &[13]),
        Action::Does(("hints", &["c", "h"], ""), (0, "", "")),
        Action::Holds("h", b""),
    ],
    // A hidden variable is deleted.
    &[
        Action::Put("c", &[2, 0, 1, 2, 0, 0, 3, 0, 13]),
        Action::Does(("hints", &["c", "h"], ""), (0, "", "")),
        Action::Holds("h", b"e 1 0\n"),
    ],
    &[
        Action::Put("c", &[]),
        Action::Does(("hints", &["c", "h"], ""), (1, "", "certify: Refused\n")),
    ],
    &[
        Action::Put("c", &[5, 2, 0, 2, 6, 0, 1, 0, 0]),
        Action::Does(("hints", &["c", "h"], ""), (1, "", "certify: Refused\n")),
    ],
];

/// Hint texts, and what `check` prints for them.
const CHECKED: &[&[Action<'static>]] = &[
    &[
        Action::Put("h", DERIVATION),
        Action::Does(
            ("check", &["h"], ""),
            (0, "proved empty=1 cores=0 lines=7\n", ""),
        ),
    ],
    &[
        Action::Put("h", b""),
        Action::Does(
            ("check", &["h"], ""),
            (0, "proved empty=0 cores=0 lines=0\n", ""),
        ),
    ],
    &[
        Action::Put("h", b"f 1 -1 0 0\n"),
        Action::Does(
            ("check", &["h"], ""),
            (0, "proved empty=0 cores=1 lines=1\n", ""),
        ),
    ],
    &[
        Action::Put("h", b"i 01 1 0\n"),
        Action::Does(("check", &["h"], ""), (1, "bad 1 Syntax\n", "")),
    ],
    &[
        Action::Put("h", b"i 1 1 0\ni 1 2 0\n"),
        Action::Does(("check", &["h"], ""), (1, "bad 2 IdOrder\n", "")),
    ],
    &[
        Action::Put("h", b"i 1 1 0\nx 1 0\nd 2 1 0 1 0\n"),
        Action::Does(("check", &["h"], ""), (1, "bad 3 UnknownId\n", "")),
    ],
    &[
        Action::Put("h", b"i 1 1 2 3 0\ni 2 1 0\nd 3 1 0 1 2 0\n"),
        Action::Does(("check", &["h"], ""), (1, "bad 3 NotUnit\n", "")),
    ],
    &[
        Action::Put("h", b"i 1 1 2 0\nd 2 1 0 1 0\n"),
        Action::Does(("check", &["h"], ""), (1, "bad 2 NotFalsified\n", "")),
    ],
    &[
        Action::Put("h", b"i 1 1 2 0\ne 2 0\n"),
        Action::Does(("check", &["h"], ""), (1, "bad 2 VarInUse\n", "")),
    ],
    &[
        Action::Put("h", b""),
        Action::Fails(("check", &["h"], ""), 1),
        Action::Fails(("check", &["h"], ""), 2),
    ],
];

/// Standard error of runs: without rounds, with a malformed first command, with the binary clause 1 2, and with only one
/// name, which has a unit.
const NO_ROUND: &str =
    "[INFO  certify] progress conflicts=0 restarts=0 vars=0 binary=0 irred=0 core=0 mid=0 local=0\n";

const MALFORMED: &str =
    "[INFO  certify] progress conflicts=0 restarts=0 vars=0 binary=0 irred=0 core=0 mid=0 local=0 \
     malformed at command 1, line 1\n";

const ONE_PAIR: &str =
    "[INFO  certify] progress conflicts=1 restarts=1 vars=2 binary=1 irred=0 core=0 mid=0 local=0\n";

const ONE_UNIT: &str =
    "[INFO  certify] progress conflicts=1 restarts=1 vars=0 binary=0 irred=0 core=0 mid=0 local=0\n";

/// Scripts that are run, some with another word after the files, and whose answers are confirmed.
const RUN: &[&[Action<'static>]] = &[
    &[
        Action::Put("s", b"1 2 0\na 0\n"),
        Action::Does(("run", &["s", "a", "c"], ""), (0, "", ONE_PAIR)),
        Action::Holds("a", b"s SATISFIABLE\nv -1 2 0\n"),
        Action::Does(("confirm", &["s", "a", "c"], ""), (0, "yes\n", "")),
    ],
    &[
        Action::Put("s", b"1 0\na 0\n"),
        Action::Does(("run", &["s", "a", "c"], "0"), (0, "", NO_ROUND)),
        Action::Holds("a", b"s UNKNOWN\n"),
        Action::Does(("confirm", &["s", "a", "c"], ""), (0, "yes\n", "")),
    ],
    &[
        Action::Put("s", b"1 0\na 0\n"),
        Action::Does(
            ("run", &["s", "a", "c"], "00018446744073709551615"),
            (0, "", ONE_UNIT),
        ),
        Action::Holds("a", b"s SATISFIABLE\nv 1 0\n"),
        Action::Does(("confirm", &["s", "a", "c"], ""), (0, "yes\n", "")),
    ],
    &[
        Action::Put("s", b"1 2"),
        Action::Does(("run", &["s", "a", "c"], ""), (1, "", MALFORMED)),
        Action::Holds("a", b"c malformed 1\n"),
        Action::Does(("confirm", &["s", "a", "c"], ""), (0, "yes\n", "")),
        Action::Put("a", b"s UNSATISFIABLE\nf 0\n"),
        Action::Does(
            ("confirm", &["s", "a", "c"], ""),
            (1, "no 1 AnswerText\n", ""),
        ),
    ],
];

/// The system's reasons for a missing file, for reading a folder, and for a full device.
const MISSING: &str = "No such file or directory (os error 2)";

const NOT_A_FILE: &str = "Is a directory (os error 21)";

const NO_SPACE: &str = "No space left on device (os error 28)";

/// Calls with the file `s`, a missing file, and a file in a missing folder.
const UNOPENED: &[&[Action<'static>]] = &[&[
    Action::Put("s", b"1 0\na 0\n"),
    Action::Breaks(("check", &["n"], ""), ("Read", "n", MISSING)),
    Action::Breaks(("hints", &["n", "n/h"], ""), ("Read", "n", MISSING)),
    Action::Breaks(("hints", &["s", "n/h"], ""), ("Write", "n/h", MISSING)),
    Action::Breaks(
        ("run", &["n", "n/a", "n/c"], ""),
        ("ScriptRead", "n", MISSING),
    ),
    Action::Breaks(
        ("run", &["s", "n/a", "n/c"], ""),
        ("AnswersWrite", "n/a", MISSING),
    ),
    Action::Breaks(
        ("run", &["s", "a", "n/c"], ""),
        ("CertificateWrite", "n/c", MISSING),
    ),
    Action::Breaks(
        ("confirm", &["n", "n", "n"], ""),
        ("ScriptRead", "n", MISSING),
    ),
    Action::Breaks(
        ("confirm", &["s", "n", "n"], ""),
        ("AnswersRead", "n", MISSING),
    ),
    Action::Breaks(
        ("confirm", &["s", "s", "n"], ""),
        ("CertificateRead", "n", MISSING),
    ),
    Action::Breaks(("check", &["."], ""), ("Read", ".", NOT_A_FILE)),
    Action::Breaks(("hints", &[".", "h"], ""), ("Read", ".", NOT_A_FILE)),
    Action::Breaks(
        ("run", &[".", "a", "c"], ""),
        ("ScriptRead", ".", NOT_A_FILE),
    ),
    Action::Breaks(
        ("confirm", &[".", "s", "s"], ""),
        ("ScriptRead", ".", NOT_A_FILE),
    ),
    Action::Put("m", b"1 2"),
    Action::Breaks(
        ("confirm", &["m", ".", "s"], ""),
        ("AnswersRead", ".", NOT_A_FILE),
    ),
    Action::Breaks(
        ("confirm", &["s", "s", "."], ""),
        ("CertificateRead", ".", NOT_A_FILE),
    ),
]];

/// The usage, printed for a call that would overwrite its input, or write a file twice.
const REFUSED: End<'static> = (2, "", USAGE);

/// Outputs that are the input or the other output: by the same path, another path, a symbolic link, or a hard link.
/// Nothing is overwritten.
const OVERLAPPING: &[&[Action<'static>]] = &[
    &[
        Action::Put("s", b"1 0\na 0\n"),
        Action::Link("s", "l"),
        Action::Name("s", "m"),
        Action::Does(("run", &["s", "s", "c"], ""), REFUSED),
        Action::Does(("run", &["./s", "s", "c"], ""), REFUSED),
        Action::Does(("run", &["s", "a", "./s"], "7"), REFUSED),
        Action::Does(("run", &["s", "l", "c"], ""), REFUSED),
        Action::Does(("run", &["l", "a", "m"], ""), REFUSED),
        Action::Holds("s", b"1 0\na 0\n"),
    ],
    &[
        Action::Put("d", &[13]),
        Action::Link("d", "e"),
        Action::Does(("hints", &["d", "d"], ""), REFUSED),
        Action::Does(("hints", &["./d", "d"], ""), REFUSED),
        Action::Does(("hints", &["d", "e"], ""), REFUSED),
        Action::Holds("d", &[13]),
    ],
    &[
        Action::Put("s", b"1 0\na 0\n"),
        Action::Put("o", b"old"),
        Action::Does(("run", &["s", "o", "o"], ""), REFUSED),
        Action::Does(("run", &["s", "o", "./o"], ""), REFUSED),
        Action::Holds("o", b"old"),
        Action::Does(("run", &["s", "p", "p"], ""), REFUSED),
        Action::Breaks(("check", &["p"], ""), ("Read", "p", MISSING)),
        Action::Does(("run", &["s", "p", "./p"], ""), REFUSED),
        Action::Holds("p", b""),
    ],
    &[
        Action::Put("s", b"1 0\na 0\n"),
        Action::Link("/dev/null", "null"),
        Action::Does(("run", &["s", "null", "null"], ""), (0, "", ONE_UNIT)),
        Action::Does(("run", &["s", "null", "./null"], ""), (0, "", ONE_UNIT)),
    ],
];

/// Outputs of a run that cannot be written.
const FULL: &[&[Action<'static>]] = &[&[
    Action::Put("s", b"1 0\na 0\n"),
    Action::Link("/dev/full", "full"),
    Action::Breaks(
        ("run", &["s", "full", "c"], ""),
        ("AnswersWrite", "full", NO_SPACE),
    ),
    Action::Breaks(
        ("run", &["s", "a", "full"], ""),
        ("CertificateWrite", "full", NO_SPACE),
    ),
    Action::Put("c", REFUTED),
    Action::Breaks(("hints", &["c", "full"], ""), ("Write", "full", NO_SPACE)),
]];

const TABLES: &[&[&[Action<'static>]]] = &[HINTED, CHECKED, RUN, UNOPENED];

/// Returns `true` if all actions of every row succeed, in a new folder.
fn are_so(rt: &HostRuntime, name: &str, rows: &[&[Action<'_>]]) -> bool {
    match Folder::new(rt, name) {
        Ok(folder) => {
            let mut right = true;
            for row in rows {
                right = folder.acts_all(*row) && right;
            }
            folder.remove() && right
        }
        Err(_) => false,
    }
}

#[test]
fn files_are_read_and_written(rt: HostRuntime) {
    for at in 0..TABLES.len() {
        assert!(rt; are_so(&rt, "files", TABLES[at]), "{at}");
    }
}

#[test]
fn outputs_that_overlap_are_refused(rt: HostRuntime) {
    assert!(rt; are_so(&rt, "overlapping", OVERLAPPING));
}

#[test]
fn full_outputs_are_reported(rt: HostRuntime) {
    assert!(rt; are_so(&rt, "full", FULL));
}

/// A script, the status of its run, its answers, and what `check` prints for the hint text of its certificate.
static WORKED: [(&str, u8, &str, &str); 24] = [
    ("", 0, "", "proved empty=0 cores=0 lines=0\n"),
    (
        "a 0\n",
        0,
        "s SATISFIABLE\nv 0\n",
        "proved empty=0 cores=0 lines=0\n",
    ),
    (
        "3 0\na 0\n",
        0,
        "s SATISFIABLE\nv -1 -2 3 0\n",
        "proved empty=0 cores=0 lines=1\n",
    ),
    (
        "1 2 0\na 0\n",
        0,
        "s SATISFIABLE\nv -1 2 0\n",
        "proved empty=0 cores=0 lines=1\n",
    ),
    (
        "1 0\n-1 0\na 0\n",
        0,
        "s UNSATISFIABLE\nf 0\n",
        "proved empty=1 cores=0 lines=3\n",
    ),
    (
        "0\na 0\n",
        0,
        "s UNSATISFIABLE\nf 0\n",
        "proved empty=0 cores=0 lines=1\n",
    ),
    (
        "-1 -2 0\na 1 2 0\n",
        0,
        "s UNSATISFIABLE\nf 1 2 0\n",
        "proved empty=0 cores=1 lines=2\n",
    ),
    (
        "a 1 -1 0\n",
        0,
        "s UNSATISFIABLE\nf 1 -1 0\n",
        "proved empty=0 cores=1 lines=1\n",
    ),
    (
        "1 2 0\n-2 0\nh 2 0\na -1 0\n",
        0,
        "s UNSATISFIABLE\nf -1 0\n",
        "proved empty=0 cores=1 lines=6\n",
    ),
    (
        "1 0\nh 1 0\n-1 0\na 0\n",
        0,
        "s SATISFIABLE\nv -1 0\n",
        "proved empty=0 cores=0 lines=3\n",
    ),
    (
        "h 2 0\na 0\n",
        0,
        "s SATISFIABLE\nv -1 0\n",
        "proved empty=0 cores=0 lines=1\n",
    ),
    (
        "1 0\na -1 0\na 0\n",
        0,
        "s UNSATISFIABLE\nf -1 0\ns SATISFIABLE\nv 1 0\n",
        "proved empty=0 cores=1 lines=2\n",
    ),
    (
        "1 0\na -1 0\n2 0\na 0\n-3 -4 0\na 3 4 0\n",
        0,
        "s UNSATISFIABLE\nf -1 0\ns SATISFIABLE\nv 1 2 0\ns UNSATISFIABLE\nf 3 4 0\n",
        "proved empty=0 cores=2 lines=5\n",
    ),
    (
        "1 0\na 1 0\nh 1 0\n-1 0\na 0\n",
        0,
        "s SATISFIABLE\nv 1 0\ns SATISFIABLE\nv -1 0\n",
        "proved empty=0 cores=0 lines=3\n",
    ),
    (
        "w 1 0\n1 0\na 0\n",
        0,
        "c refused 2 witness 1\ns SATISFIABLE\nv -1 0\n",
        "proved empty=0 cores=0 lines=0\n",
    ),
    (
        "w 1 0\na 1 0\n",
        0,
        "c refused 2 witness 1\n",
        "proved empty=0 cores=0 lines=0\n",
    ),
    (
        "w 1 0\n268435457 1 0\n",
        0,
        "c refused 2 limit\n",
        "proved empty=0 cores=0 lines=0\n",
    ),
    (
        "268435457 0\n",
        0,
        "c refused 1 limit\n",
        "proved empty=0 cores=0 lines=0\n",
    ),
    (
        "1 2",
        1,
        "c malformed 1\n",
        "proved empty=0 cores=0 lines=0\n",
    ),
    (
        "p cnf 2 1\n1 2 0\n%\n0\n",
        0,
        "s SATISFIABLE\nv -1 2 0\n",
        "proved empty=0 cores=0 lines=1\n",
    ),
    (
        "1 2 0\n1 -2 0\n-1 2 0\n-1 -2 0\na 0\n",
        0,
        "s UNSATISFIABLE\nf 0\n",
        "proved empty=1 cores=0 lines=7\n",
    ),
    (
        "1 2 0\n1 -2 0\n-1 2 0\n-1 -2 0\n40 0\na 0\n",
        0,
        "s UNSATISFIABLE\nf 0\n",
        "proved empty=1 cores=0 lines=8\n",
    ),
    (
        "1 -1 0\na 0\n",
        0,
        "s SATISFIABLE\nv -1 0\n",
        "proved empty=0 cores=0 lines=0\n",
    ),
    (
        "1 0\na 0\n-1 0\n2 0\na 0\n",
        0,
        "s SATISFIABLE\nv 1 0\ns UNSATISFIABLE\nf 0\n",
        "proved empty=1 cores=0 lines=3\n",
    ),
];

/// Returns `true` if a script has the answers `answers`, they are confirmed, and `check` prints `proved` for the hint
/// text of its certificate.
fn is_worked<'x>(
    folder: &Folder<'_>,
    (script, status, answers, proved): (&'x str, u8, &'x str, &'x str),
) -> bool {
    folder.acts_all(&[
        Action::Put("s", script.as_bytes()),
        Action::Ends(("run", &["s", "a", "c"], ""), status),
        Action::Holds("a", answers.as_bytes()),
        Action::Does(("confirm", &["s", "a", "c"], ""), (0, "yes\n", "")),
        Action::Does(("hints", &["c", "h"], ""), (0, "", "")),
        Action::Does(("check", &["h"], ""), (0, proved, "")),
    ])
}

/// Returns the index of the first row that fails, or `None` if none fails. Returns the length of the table if the
/// folder can't be created or removed.
fn first_wrong(rt: &HostRuntime) -> Option<usize> {
    match Folder::new(rt, "worked") {
        Ok(folder) => {
            let mut wrong = None;
            for at in 0..WORKED.len() {
                if wrong.is_none() && !is_worked(&folder, WORKED[at]) {
                    wrong = Some(at);
                }
            }
            if folder.remove() {
                wrong
            } else {
                Some(WORKED.len())
            }
        }
        Err(_) => Some(WORKED.len()),
    }
}

#[test]
fn runs_in_files_are_confirmed_and_hinted(rt: HostRuntime) {
    assert!(rt; first_wrong(&rt) == None);
}
