//! Writing lines of a hint text, through a buffer.
ghost use Rattle.std.specs.Prelude.{◌≡◌, ◌+◌, ◌<◌, ◌∷◌, ◌++◌, [], false, decimal};
ghost use Rattle.sat_hints.specs.Lines.{Input, Derived, Removed, Core, Fresh, id_words, line_text, literal_words};
ghost use Rattle.sat_hints.specs.inner.LineReading.{line_of_view};
ghost use Rattle.sat_hints.specs.inner.LineWriting.{outlet, lists_text, sign_text, PutsText};

use crate::items::{MOST_BYTES, write_ids, write_literals};
use crate::line::HintLine;
use sat_base::{CountedWrite, Lit, MOST_DIGITS, Var, write_decimal};

/// The largest number of pending bytes.
const PIECE: usize = 4096;

/// A writer, and a buffer of pending bytes, which are written out when there is no room for more, or when the text
/// ends. After a write has failed, nothing more is written.
#[derive(Drop)]
pub(crate) struct LineWriter<W> {
    writer: W,
    bytes: [u8; PIECE],
    /// The number of pending bytes.
    len: usize,
    failed: bool,
}

// Every byte goes through the buffer.
impl<W: CountedWrite> LineWriter<W> {
    /// Returns a line writer with no pending bytes.
    pub(crate) fn new(writer: W) -> LineWriter<W>
        ensures writer { (outlet W.seen result).sink.writer ≡ W.seen writer }
        ensures none { (outlet W.seen result).sink.waiting ≡ [] }
        ensures well { result.failed ≡ false }
    {
        LineWriter {
            writer,
            bytes: [0; PIECE],
            len: 0,
            failed: false,
        }
    }

    /// Returns the writer. Pending bytes are lost.
    pub(crate) fn into_writer(self) -> W
        ensures { result ≡ self.writer }
    {
        let LineWriter {
            writer,
            bytes: _bytes,
            len: _len,
            failed: _failed,
        } = self;
        writer
    }

    /// Returns `true` if a write has failed.
    pub(crate) fn has_failed(&self) -> bool
        ensures { result ≡ self.now.failed }
    {
        self.failed
    }

    /// Writes out the pending bytes. No write may have failed before.
    pub(crate) fn write_out(&mut self)
        requires { self.old.failed ≡ false }
        ensures puts { PutsText [] (outlet W.seen self.old) (outlet W.seen self.new) }
        ensures none { self.new.len ≡ 0 }
    {
        let count = self.len.min(PIECE);
        let waiting = &self.bytes[..count];
        self.failed = self.writer.write_all_counted(waiting).is_err();
        self.len = 0;
    }

    /// Appends a byte. If the buffer is full, writes out the pending bytes first.
    #[inline(always)]
    fn put(&mut self, byte: u8)
        ensures { PutsText (byte ∷ []) (outlet W.seen self.old) (outlet W.seen self.new) }
    {
        if self.failed {
            return;
        }
        if self.len >= PIECE {
            self.write_out_and_put(byte);
            return;
        }
        self.bytes[self.len] = byte;
        self.len += 1;
    }

    /// Writes out the pending bytes, and then appends a byte.
    fn write_out_and_put(&mut self, byte: u8)
        requires { self.old.failed ≡ false }
        ensures { PutsText (byte ∷ []) (outlet W.seen self.old) (outlet W.seen self.new) }
    {
        self.write_out();
        if self.failed {
            return;
        }
        self.bytes[0] = byte;
        self.len = 1;
    }

    /// Appends bytes.
    fn put_all(&mut self, bytes: &[u8])
        ensures { PutsText bytes.now (outlet W.seen self.old) (outlet W.seen self.new) }
    {
        for byte in bytes {
            self.put(*byte);
        }
    }

    /// Appends a number in decimal.
    fn put_decimal(&mut self, number: u64)
        ensures { PutsText (decimal number) (outlet W.seen self.old) (outlet W.seen self.new) }
    {
        if self.failed {
            return;
        }
        if self.len > PIECE - MOST_DIGITS {
            self.write_out_and_put_decimal(number);
            return;
        }
        self.len = write_decimal(&mut self.bytes, self.len, number);
    }

    /// Writes out the pending bytes, and then appends a number in decimal.
    fn write_out_and_put_decimal(&mut self, number: u64)
        requires { self.old.failed ≡ false }
        ensures { PutsText (decimal number) (outlet W.seen self.old) (outlet W.seen self.new) }
    {
        self.write_out();
        if self.failed {
            return;
        }
        self.len = write_decimal(&mut self.bytes, 0, number);
    }

    /// Appends a number in decimal, and a space.
    #[inline(always)]
    fn put_item(&mut self, number: u64)
        ensures { PutsText (decimal number ++ 32 ∷ []) (outlet W.seen self.old) (outlet W.seen self.new) }
    {
        if self.failed {
            return;
        }
        if self.len >= PIECE - MOST_DIGITS {
            self.put_item_in_parts(number);
            return;
        }
        let at = write_decimal(&mut self.bytes, self.len, number);
        self.bytes[at] = b' ';
        self.len = at + 1;
    }

    /// Does what `put_item` does if there may not be room for the item.
    #[inline(never)]
    fn put_item_in_parts(&mut self, number: u64)
        ensures { PutsText (decimal number ++ 32 ∷ []) (outlet W.seen self.old) (outlet W.seen self.new) }
    {
        self.put_decimal(number);
        self.put(b' ');
    }

    /// Appends the ID for `id`, which is `id` plus one, and a space.
    #[inline(always)]
    fn put_id(&mut self, id: u64)
        ensures { PutsText (id_words (id ∷ [])) (outlet W.seen self.old) (outlet W.seen self.new) }
    {
        match id.checked_add(1) {
            Some(number) => self.put_item(number),
            None => self.put_all(b"18446744073709551616 "),
        }
    }

    /// Appends the IDs for `ids`, each followed by a space.
    fn put_ids(&mut self, ids: &[u64])
        ensures { PutsText (id_words ids.now) (outlet W.seen self.old) (outlet W.seen self.new) }
    {
        if self.failed {
            return;
        }
        if self.len > PIECE || ids.len() > (PIECE - self.len) / MOST_BYTES {
            self.put_each_id(ids);
            return;
        }
        self.len = write_ids(&mut self.bytes, self.len, ids);
    }

    /// Does what `put_ids` does if there may not be room for all IDs.
    fn put_each_id(&mut self, ids: &[u64])
        ensures { PutsText (id_words ids.now) (outlet W.seen self.old) (outlet W.seen self.new) }
    {
        for id in ids {
            self.put_id(*id);
        }
    }

    /// Appends `-` if the literal is negative.
    #[inline(always)]
    fn put_sign(&mut self, literal: Lit)
        ensures { PutsText (sign_text literal) (outlet W.seen self.old) (outlet W.seen self.new) }
    {
        if !literal.is_positive() {
            self.put(b'-');
        }
    }

    /// Appends the number of a literal, and a space.
    #[inline(always)]
    fn put_literal(&mut self, literal: Lit)
        ensures { PutsText (literal_words (literal ∷ [])) (outlet W.seen self.old) (outlet W.seen self.new) }
    {
        self.put_sign(literal);
        self.put_item(literal.index() as u64 + 1);
    }

    /// Appends the numbers of literals, each followed by a space.
    fn put_literals(&mut self, literals: &[Lit])
        ensures { PutsText (literal_words literals.now) (outlet W.seen self.old) (outlet W.seen self.new) }
    {
        if self.failed {
            return;
        }
        if self.len > PIECE || literals.len() > (PIECE - self.len) / MOST_BYTES {
            self.put_each_literal(literals);
            return;
        }
        self.len = write_literals(&mut self.bytes, self.len, literals);
    }

    /// Does what `put_literals` does if there may not be room for all literals.
    fn put_each_literal(&mut self, literals: &[Lit])
        ensures { PutsText (literal_words literals.now) (outlet W.seen self.old) (outlet W.seen self.new) }
    {
        for literal in literals {
            self.put_literal(*literal);
        }
    }

    /// Appends `LITS 0 IDS 0` and an LF.
    fn put_both(&mut self, literals: &[Lit], ids: &[u64])
        ensures { PutsText (lists_text literals.now ids.now) (outlet W.seen self.old) (outlet W.seen self.new) }
    {
        self.put_literals(literals);
        self.put_all(b"0 ");
        self.put_ids(ids);
        self.put_all(b"0\n");
    }

    /// Appends an `i` line.
    fn put_input(&mut self, id: u64, clause: &[Lit])
        ensures { PutsText (line_text (Input id clause.now)) (outlet W.seen self.old) (outlet W.seen self.new) }
    {
        self.put_all(b"i ");
        self.put_id(id);
        self.put_literals(clause);
        self.put_all(b"0\n");
    }

    /// Appends a `d` line.
    fn put_derived(&mut self, id: u64, clause: &[Lit], ids: &[u64])
        ensures { PutsText (line_text (Derived id clause.now ids.now)) (outlet W.seen self.old)
            (outlet W.seen self.new) }
    {
        self.put_all(b"d ");
        self.put_id(id);
        self.put_both(clause, ids);
    }

    /// Appends an `x` line.
    fn put_removed(&mut self, id: u64)
        ensures { PutsText (line_text (Removed id)) (outlet W.seen self.old) (outlet W.seen self.new) }
    {
        self.put_all(b"x ");
        self.put_id(id);
        self.put_all(b"0\n");
    }

    /// Appends an `f` line.
    fn put_core(&mut self, core: &[Lit], ids: &[u64])
        ensures { PutsText (line_text (Core core.now ids.now)) (outlet W.seen self.old) (outlet W.seen self.new) }
    {
        self.put_all(b"f ");
        self.put_both(core, ids);
    }

    /// Appends an `e` line.
    fn put_fresh(&mut self, var: Var)
        ensures { PutsText (line_text (Fresh var)) (outlet W.seen self.old) (outlet W.seen self.new) }
    {
        self.put_all(b"e ");
        self.put_id(var.index() as u64);
        self.put_all(b"0\n");
    }

    /// Appends a line.
    pub(crate) fn put_line(&mut self, line: &HintLine<'_>)
        ensures { PutsText (line_text (line_of_view line.now)) (outlet W.seen self.old) (outlet W.seen self.new) }
    {
        match line {
            HintLine::Input { id, clause } => self.put_input(*id, clause),
            HintLine::Derived { id, clause, ids } => self.put_derived(*id, clause, ids),
            HintLine::Removed { id } => self.put_removed(*id),
            HintLine::Core { core, ids } => self.put_core(core, ids),
            HintLine::Fresh { var } => self.put_fresh(*var),
        }
    }
}
