//! Tests of reading scripts with every kind of command, and of refusing commands because of their names.

use certify::answers::write::push_literal;
use certify::refusals::{Names, NewNames, Refusal};
use certify::script::{Command, CommandKind, Reached, ScriptEnd, ScriptReader};
use sat_base::Var;
use std::alloc::{AllocError, Global};

fn letter(kind: CommandKind) -> u8 {
    match kind {
        CommandKind::Clause => b'c',
        CommandKind::Ask => b'a',
        CommandKind::Hide => b'h',
        CommandKind::Witness => b'w',
        CommandKind::Sample => b's',
    }
}

/// Writes the letter of the command, its literals, `!` if a name is past the limit, and `;`.
fn render(out: &mut Vec<u8>, command: Command<'_>) -> Result<(), AllocError> {
    out.push(letter(command.kind))?;
    for lit in command.literals {
        out.push(b' ')?;
        push_literal(out, *lit)?;
    }
    if command.past_limit {
        out.push(b'!')?;
    }
    out.push(b';')?;
    Ok(())
}

/// Writes the commands that a piece completes. Returns whether the text can continue.
fn take(reader: &mut ScriptReader, piece: &[u8], out: &mut Vec<u8>) -> Result<bool, AllocError> {
    let mut rest = piece;
    for _ in 0..piece.len() {
        let (count, reached) = reader.push(rest)?;
        rest = &rest[count..];
        match reached {
            Reached::More => return Ok(true),
            Reached::Command => render(out, reader.command())?,
            Reached::Malformed => return Ok(false),
        }
    }
    Ok(true)
}

/// Reads a text in pieces of `size` bytes. Returns its commands, then `.` if the text ends cleanly, `?` if it ends with
/// an ask, or `x` if it is malformed.
fn read_in(alloc: Global, text: &[u8], size: usize) -> Result<Vec<u8>, AllocError> {
    let mut out = Vec::new(alloc);
    let mut reader = ScriptReader::new(alloc);
    for start in 0..text.len() {
        if size > 0 && start % size == 0 {
            let end = text.len().min(start.saturating_add(size));
            if start <= end && !take(&mut reader, &text[start..end], &mut out)? {
                out.push(b'x')?;
                return Ok(out);
            }
        }
    }
    let (completes, end) = reader.finish();
    if completes {
        render(&mut out, reader.command())?;
    }
    out.push(match end {
        ScriptEnd::Clean => b'.',
        ScriptEnd::Asked => b'?',
        ScriptEnd::Malformed => b'x',
    })?;
    Ok(out)
}

const READ: [(&str, &str); 17] = [
    ("", "."),
    ("a 0", "a;."),
    ("3 0\na 0\n", "c 3;a;."),
    ("-1 -2 0\na 1 2 0\n", "c -1 -2;a 1 2;."),
    ("a 1 -1 0", "a 1 -1;."),
    ("1 0\nh 1 0\n-1 0\na 0\n", "c 1;h 1;c -1;a;."),
    ("w 1 0 s 1 2 0 h 0", "w 1;s 1 2;h;."),
    ("p cnf 2 1\n1 2 0\n%\n0\n", "c 1 2;?"),
    ("p cnf 1 0\na 268435457 0", "a!;."),
    ("w 1 0 268435457 1 0", "w 1;c!;."),
    ("268435456 99999999999999999999 -1 0", "c 268435456!;."),
    ("h 2 268435457 1 0 0", "h 2!;c;."),
    ("1 a 0", "x"),
    ("1 0\nh -1 0", "c 1;x"),
    ("1 2", "x"),
    ("p cnf 1 1\n0 a -0", "c;x"),
    ("a\nc 1\n 1\n0 b", "a 1;x"),
];

/// Returns `true` if `expected` is returned for the text, read in one piece and in smaller ones.
fn reads(alloc: Global, (text, expected): (&str, &str)) -> bool {
    for size in [1, 2, 3, 4096] {
        match read_in(alloc, text.as_bytes(), size) {
            Ok(out) => {
                if out.as_slice() != expected.as_bytes() {
                    return false;
                }
            }
            Err(_) => return false,
        }
    }
    true
}

#[test]
fn scripts_are_read(rt: HostRuntime) {
    for row in &READ {
        assert!(rt; reads(rt.alloc(), *row));
    }
}

/// Returns the digit of the name, up to 9, because of which a command is refused, or `!` if the reason is the limit.
fn reason(refusal: Refusal) -> u8 {
    if refusal == Refusal::Limit {
        return b'!';
    }
    for index in 0..9 {
        if refusal == Refusal::Witness(Var::from_index(index)) {
            return b'1' + index as u8;
        }
    }
    b'?'
}

/// Writes why the command is refused; or writes a dot and accepts the command.
fn judge(names: &mut Names, command: Command<'_>, out: &mut Vec<u8>) -> Result<(), AllocError> {
    if let Some(refusal) = names.refusal(command) {
        out.push(reason(refusal))?;
        return Ok(());
    }
    out.push(b'.')?;
    names.accept(command)
}

/// Judges every command of a text.
fn judge_all(alloc: Global, text: &[u8]) -> Result<Vec<u8>, AllocError> {
    let mut out = Vec::new(alloc);
    let mut reader = ScriptReader::new(alloc);
    let mut names = Names::new(alloc);
    let mut rest = text;
    for _ in 0..text.len() {
        let (count, reached) = reader.push(rest)?;
        rest = &rest[count..];
        match reached {
            Reached::Command => judge(&mut names, reader.command(), &mut out)?,
            _ => return Ok(out),
        }
    }
    Ok(out)
}

const JUDGED: [(&str, &str); 9] = [
    ("w 1 0 1 0 a 0 ", ".1."),
    ("w 1 0 a 1 0 ", ".1"),
    ("w 1 0 268435457 1 0 ", ".!"),
    ("w 1 0 1 268435457 0 ", ".1"),
    ("w 1 0 h 1 0 1 0 a 1 0 ", "...."),
    ("w 1 0 s 1 0 1 0 ", "..."),
    ("w 1 0 h 1 268435457 0 1 0 ", ".!1"),
    ("w 3 0 a 1 2 0 a 4 3 0 s 3 0 a 3 0 ", "..3.."),
    ("h 2 0 w 2 0 h 1 0 1 0 -2 0 ", "....2"),
];

fn judges(alloc: Global, (text, expected): (&str, &str)) -> bool {
    match judge_all(alloc, text.as_bytes()) {
        Ok(out) => out.as_slice() == expected.as_bytes(),
        Err(_) => false,
    }
}

#[test]
fn commands_are_judged(rt: HostRuntime) {
    for row in &JUDGED {
        assert!(rt; judges(rt.alloc(), *row));
    }
}

/// Tests which names are introduced by the third name, then by the second name, and by the second name once it
/// is hidden.
fn brings(alloc: Global) -> Result<bool, AllocError> {
    let mut names = Names::new(alloc);
    let second = Var::from_index(1);
    let third = Var::from_index(2);
    let all = names.new_names(third) == NewNames { first: 0, count: 3 };
    names.introduce(third);
    let none = names.new_names(second).count == 0;
    names.take(CommandKind::Hide, second)?;
    let one = names.new_names(second) == NewNames { first: 1, count: 1 };
    Ok(all && none && one)
}

#[test]
fn names_come_in(rt: HostRuntime) {
    assert!(rt; brings(rt.alloc()) == Ok(true));
}
