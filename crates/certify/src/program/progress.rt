//! The log line after a run: the counts of its solver, and whether the script is malformed or has no ask.

use crate::summary::Summary;
use log::sink::Writer;
use log::{Level, Logged, info};
use sat_base::CountedWrite;
use sat_solver::Progress;
use std::io::Write;

/// The size of the line's buffer. The line has ten numbers of at most 20 digits, and fewer than 150 other bytes.
const LINE: usize = 512;

/// Writes the line with the counts of a finished run to `line`, as far as it fits. Returns the number of bytes written.
fn fill_counts(line: &mut [u8], progress: &Progress) -> usize {
    let size = line.len();
    let mut room: &mut [u8] = line;
    let rt = Logged::new((), Level::Info, Writer::new(&mut room));
    info!(rt; target: "certify",
        conflicts = progress.conflicts,
        restarts = progress.restarts,
        vars = progress.vars,
        binary = progress.binary,
        irred = progress.irred,
        core = progress.core,
        mid = progress.mid,
        local = progress.local;
        "progress"
    );
    drop(rt);
    size.saturating_sub(room.len())
}

/// Returns what the line says of a script that isn't malformed: whether an ask was accepted.
fn ask_note(summary: &Summary) -> &'static str {
    if !summary.asks.is_empty() {
        return "";
    }
    if summary.refused > 0 {
        return " no accepted ask in this script";
    }
    " no ask in this script"
}

/// Writes the rest of the line to `line`, with its end, as far as it fits. Returns the number of bytes written.
fn fill_note(line: &mut [u8], summary: &Summary) -> usize {
    let size = line.len();
    let mut room: &mut [u8] = line;
    let _ = match summary.malformed {
        Some(command) => writeln!(
            room,
            " malformed at command {command}, line {}",
            summary.line
        ),
        None => writeln!(room, "{}", ask_note(summary)),
    };
    size.saturating_sub(room.len())
}

/// Logs the counts of a finished run's solver to standard error, and whether the script is malformed or has no ask: one
/// line, in one write. If that fails, the error is ignored.
pub(super) fn report_progress<E: CountedWrite>(errors: &mut E, summary: &Summary) {
    let mut line = [0; LINE];
    let counts = fill_counts(&mut line, &summary.progress).min(LINE);
    // The note replaces the line's end.
    let start = counts.saturating_sub(1);
    let note = fill_note(&mut line[start..], summary);
    let end = start.saturating_add(note).min(LINE);
    let _ = errors.write_all_counted(&line[..end]);
}
